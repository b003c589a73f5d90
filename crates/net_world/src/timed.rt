//! What a script lets a World receive, and from which moment on.

ghost use Rattle.std.specs.Prelude.{◌≡◌, IfOk, find, position};
ghost use Rattle.std.specs.Option.{option_copied};
ghost use Rattle.net_world.specs.Script.{is_due, first_due, without_first_due, earliest, without_link};

use crate::answers::Got;
use dns_message::NoMemory;
use std::alloc::Global;

/// Something to receive, and the moment from which on it can be received, in milliseconds.
#[derive(Debug, Drop)]
pub struct Timed {
    pub from: u64,
    pub got: Got,
}

/// The first of these that can be received at this moment of the clock.
fn find_due(items: &[Timed], clock: u64) -> Option<&Timed>
    ensures { option_copied result ≡ find (is_due clock) items.now }
{
    items.iter().find(|item| item.from <= clock)
}

/// Its index.
fn index_of_due(items: &[Timed], clock: u64) -> Option<usize>
    ensures { result ≡ position (is_due clock) items.now }
{
    items.iter().position(|item| item.from <= clock)
}

/// A copy of what the first of these that can be received at this moment of the clock gives.
pub(crate) fn copy_due(alloc: Global, items: &[Timed], clock: u64) -> Result<Got, NoMemory>
    ensures { IfOk result (λ got. got ≡ first_due clock items.now) }
{
    match find_due(items, clock) {
        Some(item) => item.got.copy(alloc),
        None => Ok(Got::Nothing),
    }
}

/// Takes the first of these that can be received at this moment of the clock.
pub(crate) fn take_due(items: &mut Vec<Timed>, clock: u64) -> Got
    ensures got { result ≡ first_due clock items.old.items }
    ensures left { items.new.items ≡ without_first_due clock items.old.items }
{
    match index_of_due(items, clock) {
        Some(at) => items.remove(at).got,
        None => Got::Nothing,
    }
}

/// The earlier of this moment and of those from which on one of these can be received.
pub(crate) fn earliest(items: &[Timed], until: u64) -> u64
    ensures { result ≡ earliest until items.now }
{
    items
        .iter()
        .fold(until, |moment, item| moment.min(item.from))
}

/// Drops those of the link.
pub(crate) fn drop_link(items: &mut Vec<Timed>, link: u64)
    ensures { items.new.items ≡ without_link link items.old.items }
{
    items.retain(|item| !item.got.is_of_link(link))
}
