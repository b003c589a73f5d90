//! The statuses that a page has, request by request.

use std::alloc::Global;
use std::test::Fail;

/// The requests of a page: how many there are, and a line for each: its number, and its status by code and by name.
#[derive(Drop)]
pub struct Fates {
    pub count: usize,
    pub lines: String,
}

/// The requests of this page, by their numbers: those of the words first, whose blocks aren't indented, and behind them those
/// that callbacks asked. In each of these runs the blocks of the latter stand in the order in which they were asked.
pub fn fates_in(alloc: Global, page: &str) -> Result<Fates, Fail> {
    let mut fates = Fates {
        count: 0,
        lines: String::new(alloc),
    };
    add_fates(alloc, &mut fates, page, false)?;
    add_fates(alloc, &mut fates, page, true)?;
    Ok(fates)
}

/// Adds those whose blocks are indented, or those whose blocks aren't.
fn add_fates(alloc: Global, fates: &mut Fates, page: &str, indented: bool) -> Result<(), Fail> {
    for line in page.split('\n') {
        if line.starts_with(' ') == indented {
            add_fate(alloc, fates, status_in(line))?;
        }
    }
    Ok(())
}

/// Adds a request with this status, if a line has one.
fn add_fate(alloc: Global, fates: &mut Fates, status: &str) -> Result<(), Fail> {
    if !status.is_empty() {
        fates.count = fates.count.saturating_add(1);
        let number = fates.count;
        let line = format!(in alloc; "{number} {status}\n")?;
        fates.lines.push_str(line.as_str())?;
    }
    Ok(())
}

/// The status of the first line of a block, which has three words: a name, and the status by code and by name. An address
/// stands alone, and a record has more words: of these nothing.
fn status_in(line: &str) -> &str {
    let Some((_, status)) = line.trim_start().split_once(' ') else {
        return "";
    };
    match status.split_once(' ') {
        Some((_, name)) if !name.contains(' ') => status,
        _ => "",
    }
}
