//! From which word on lines aren't understood, by the manuals of both tools, and what is said of them.
//!
//! An assertion over rows has no message. A row that fails is found by leaving out the rows behind it.

use std::alloc::Global;
use std::test::Fail;
use tool_help::{help, refused_at};
use tool_line::Tool;

/// A tool, the words of a line with blanks between them, and how many of them stand.
const LINES: [(Tool, &str, usize); 14] = [
    (Tool::Adig, "", 0),
    (Tool::Adig, "--tcp", 1),
    (Tool::Adig, "--help", 0),
    (Tool::Adig, "--tcp --bogus a.test", 1),
    (Tool::Adig, "--tcp --tcp a.test", 1),
    (Tool::Adig, "--tcp=1 a.test", 0),
    (Tool::Adig, "--port 70000 a.test", 0),
    (Tool::Adig, "a.test --type BOGUS", 1),
    (Tool::Adig, "--server", 0),
    (Tool::Adig, "a.test b.test", 1),
    (Tool::Adig, "--reverse a.test", 1),
    (Tool::Ahost, "--load 5 a.test", 2),
    (Tool::Ahost, "a.test --workers 17", 1),
    (Tool::Ahost, "--follow", 1),
];

/// So many words of the line stand.
fn stand(alloc: Global, tool: Tool, line: &str, count: usize) -> Result<bool, Fail> {
    let words: Vec<&str> = line.split_whitespace().collect(alloc)?;
    Ok(refused_at(alloc, tool, words.as_slice())? == count)
}

#[test]
fn words_stand_until_one_is_refused(rt: HostRuntime) -> Result<(), Fail> {
    for (tool, line, count) in LINES.iter() {
        assert!(rt; stand(rt.alloc(), *tool, line, *count)?);
    }
    Ok(())
}

/// What is said of a line that ended with status 2, up to the screen.
const SAID: [(&str, &str); 4] = [
    ("", "usage: adig"),
    ("--help", "usage: adig"),
    ("--tcp", "adig: a name is missing\nusage: adig"),
    (
        "--port 70000 a.test",
        "adig: not understood from here on: --port\nusage: adig",
    ),
];

/// What is said of the line begins so.
fn begins(alloc: Global, line: &str, said: &str) -> Result<bool, Fail> {
    let words: Vec<&str> = line.split_whitespace().collect(alloc)?;
    Ok(match help(alloc, Tool::Adig, words.as_slice(), 2)? {
        Some(text) => text.as_str().starts_with(said),
        None => false,
    })
}

#[test]
fn what_is_said_begins_with_the_word(rt: HostRuntime) -> Result<(), Fail> {
    for (line, said) in SAID.iter() {
        assert!(rt; begins(rt.alloc(), line, said)?);
    }
    Ok(())
}
