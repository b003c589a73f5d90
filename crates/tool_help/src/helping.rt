//! What a tool's `main` writes to standard error, by the exit status.

ghost use Rattle.std.specs.Prelude.{◌≡◌, ◌≤◌, ◌++◌, IfOk, OnOk, length, map, option_map};
ghost use Rattle.std.specs.String.{string_bytes};
ghost use Rattle.tool_help.specs.Help as meaning;
ghost use Rattle.tool_line.specs.Ending.{name_of, told};

use crate::advising::advice;
use crate::refusing::refused_at;
use crate::screen::put_screen;
use item_list::NoMemory;
use std::alloc::Global;
use tool_line::Tool;

/// What is to be said beside the page of a run with these words that ended with this exit status. With 2 it is from which
/// word on they aren't understood, and the tool's screen; with 3, 5, 6 and 7 a sentence of what to do. Nothing else is said.
pub fn help(
    alloc: Global,
    tool: Tool,
    words: &[&str],
    status: u8,
) -> Result<Option<String>, NoMemory>
    ensures { IfOk result (λ text. meaning.HasHelp tool (map (λ word. word.now) words.now) status
        (option_map (λ text. string_bytes text) text)) }
{
    if status == 2 {
        let text = refused_text(alloc, tool, words)?;
        return Ok(Some(text));
    }
    match advice(tool, status) {
        Some(sentence) => Ok(Some(String::from_str(alloc, sentence)?)),
        None => Ok(None),
    }
}

/// From which word on the words aren't understood, and the screen.
fn refused_text(alloc: Global, tool: Tool, words: &[&str]) -> Result<String, NoMemory>
    ensures { IfOk result (λ text. meaning.HelpsRefused tool (map (λ word. word.now) words.now) (string_bytes text)) }
{
    let count = refused_at(alloc, tool, words)?;
    let mut text = line_about(alloc, tool, words, count)?;
    put_screen(alloc, &mut text, tool)?;
    Ok(text)
}

/// The line about words of which only so many stand.
fn line_about(alloc: Global, tool: Tool, words: &[&str], count: usize) -> Result<String, NoMemory>
    requires { count ≤ length words.now }
    ensures { IfOk result (λ text. string_bytes text
        ≡ meaning.line_about tool (map (λ word. word.now) words.now) count) }
{
    let mut text = String::new(alloc);
    if words.is_empty() {
        return Ok(text);
    }
    put_line_for(&mut text, tool, &words[count..])?;
    Ok(text)
}

/// Adds the line about these words, which aren't understood.
fn put_line_for(text: &mut String, tool: Tool, words: &[&str]) -> Result<(), NoMemory>
    ensures { OnOk result (string_bytes text.new
        ≡ string_bytes text.old ++ meaning.line_for tool (map (λ word. word.now) words.now)) }
{
    match words.first() {
        None => put_missing(text, tool),
        Some(word) => put_refused(text, tool, word),
    }
}

/// Adds the line where all words stand.
fn put_missing(text: &mut String, tool: Tool) -> Result<(), NoMemory>
    ensures { OnOk result (string_bytes text.new ≡ string_bytes text.old ++ told tool (meaning.missing_of tool)) }
{
    match tool {
        Tool::Adig => put_line(text, tool, "a name is missing", ""),
        Tool::Ahost => put_line(
            text,
            tool,
            "a name is missing, or there are more than 4,096",
            "",
        ),
    }
}

/// Adds the line about a word that isn't understood.
fn put_refused(text: &mut String, tool: Tool, word: &str) -> Result<(), NoMemory>
    ensures { OnOk result (string_bytes text.new ≡ string_bytes text.old ++ meaning.line_of_word tool word.now) }
{
    match word {
        "--help" => Ok(()),
        _ => put_line(text, tool, "not understood from here on: ", word),
    }
}

/// Adds a line of the tool: what is said, and a word.
fn put_line(text: &mut String, tool: Tool, said: &str, word: &str) -> Result<(), NoMemory>
    ensures { OnOk result (string_bytes text.new ≡ string_bytes text.old ++ told tool (said.now ++ word.now)) }
{
    text.push_str(name(tool))?;
    text.push_str(": ")?;
    text.push_str(said)?;
    text.push_str(word)?;
    text.push_str("\n")?;
    Ok(())
}

/// The tool's name.
fn name(tool: Tool) -> &'static str
    ensures { result.now ≡ name_of tool }
{
    match tool {
        Tool::Adig => "adig",
        Tool::Ahost => "ahost",
    }
}
