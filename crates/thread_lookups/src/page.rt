//! The text of what is left of a channel.

ghost use Rattle.std.specs.Prelude.{◌≡◌, ◌++◌, IfOk, OnErr, OnOk, flat_map, option_map};
ghost use Rattle.thread_lookups.specs.Page as meaning;
ghost use Rattle.thread_lookups.specs.Shared.{journal_of};

use chan_types::{Entry, Spec, What};
use host_lookups::put_line;
use item_list::NoMemory;
use shared_channel::Finished;
use std::alloc::Global;

/// Writes each answer on a line, in the order in which the callbacks were called: the host that was asked for, or a plus
/// sign where that was no host; how it ended; and its addresses. For want of memory the page is as before.
pub fn put_answers(alloc: Global, finished: &Finished, page: &mut Vec<u8>) -> Result<(), NoMemory>
    ensures ok { OnOk result (page.new.items ≡ page.old.items
        ++ flat_map (meaning.line_in (journal_of finished.now)) finished.now.calls) }
    ensures err { OnErr result (page.new.items ≡ page.old.items) }
{
    let lines = answer_lines(alloc, finished)?;
    page.extend_from_slice(lines.as_slice())?;
    Ok(())
}

/// The lines of all answers.
fn answer_lines(alloc: Global, finished: &Finished) -> Result<Vec<u8>, NoMemory>
    ensures { IfOk result (λ lines. lines.items
        ≡ flat_map (meaning.line_in (journal_of finished.now)) finished.now.calls) }
{
    let mut lines = Vec::new(alloc);
    let entries = finished.journal.entries.as_slice();
    for answer in finished.calls.iter() {
        put_line(
            alloc,
            host_asked(entries, answer.number),
            answer,
            &mut lines,
        )?;
    }
    Ok(lines)
}

/// The host for whose addresses the request with this number asked, or a plus sign.
fn host_asked(entries: &[Entry], number: u64) -> &[u8]
    ensures { result.now ≡ meaning.host_asked number entries.now }
{
    for entry in entries {
        if let Some(host) = host_by(&entry.what, number) {
            return host;
        }
    }
    b"+"
}

/// The host for whose addresses the request with this number asks, if this event accepts it.
fn host_by(what: &What, wanted: u64) -> Option<&[u8]>
    ensures { option_map (λ host. host.now) result ≡ meaning.host_by wanted what.now }
{
    match what {
        What::Accept {
            number,
            spec: Spec::Address { host, .. },
            ..
        } if *number == wanted => Some(host.as_slice()),
        _ => None,
    }
}
