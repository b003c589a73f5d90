//! Runs as plain data: what comes, what is called, and what both sides tell then.

use super::playing::{Step, play};
use scenario::Coming;
use std::alloc::Global;
use std::test::Fail;

/// What a text has to be, or how it has to end.
#[derive(Clone, Copy)]
pub enum Told {
    Whole(&'static str),
    End(&'static str),
}

impl Told {
    fn is_met(self, text: &str) -> bool {
        match self {
            Told::Whole(whole) => text == whole,
            Told::End(end) => text.ends_with(end),
        }
    }
}

/// What comes on the network, which of its calls fail, by their numbers from 0, and the calls that are made; then the lines of
/// the World with cookies, those of the network, and how the bytes end that the network was sent.
#[derive(Clone, Copy)]
pub struct Row {
    pub comings: &'static [Coming<'static>],
    pub fails: &'static [u64],
    pub steps: &'static [Step<'static>],
    pub outer: Told,
    pub inner: Told,
    pub sent: &'static [u8],
}

/// Whether both sides tell this.
pub fn is_told(alloc: Global, row: &Row) -> Result<bool, Fail> {
    let played = play(alloc, row.comings, row.fails, row.steps)?;
    Ok(
        row.outer.is_met(played.outer.as_str())
            && row.inner.is_met(played.inner.as_str())
            && played.sent.as_slice().ends_with(row.sent),
    )
}
