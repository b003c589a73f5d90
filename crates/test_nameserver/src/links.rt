//! The open links of a network in memory.

ghost use Rattle.std.specs.Prelude.{◌≡◌, ◌++◌, find, filter, not, option_map, position, IfOk};
ghost use Rattle.std.specs.Option.{option_copied};
ghost use Rattle.test_nameserver.specs.PeerCalls as meaning;

use item_list::{Bytes, NoMemory};
use std::alloc::Global;

/// An open link, and what was written to it and not read yet.
#[derive(Debug, Drop)]
pub struct OpenLink {
    pub number: u64,
    pub unread: Bytes,
}

/// The first link with this number.
fn find_open(links: &[OpenLink], link: u64) -> Option<&OpenLink>
    ensures { option_copied result ≡ find (meaning.has_number link) links.now }
{
    links.iter().find(|open| open.number == link)
}

/// Its index.
fn index_of_open(links: &[OpenLink], link: u64) -> Option<usize>
    ensures { result ≡ position (meaning.has_number link) links.now }
{
    links.iter().position(|open| open.number == link)
}

/// What an open link carries with these bytes, if it is open.
pub(crate) fn unread_with(
    alloc: Global,
    links: &[OpenLink],
    link: u64,
    bytes: &[u8],
) -> Result<Option<Bytes>, NoMemory>
    ensures { IfOk result (λ unread. unread
        ≡ option_map (λ found. found.unread ++ bytes.now) (find (meaning.has_number link) links.now)) }
{
    let Some(found) = find_open(links, link) else {
        return Ok(None);
    };
    let mut unread = Vec::with_capacity(alloc, found.unread.len())?;
    unread.extend_from_slice(found.unread.as_slice())?;
    unread.extend_from_slice(bytes)?;
    Ok(Some(Bytes::from_vec(unread)))
}

/// Keeps what the first link with this number has unread.
pub(crate) fn keep_unread(links: &mut Vec<OpenLink>, link: u64, unread: Bytes)
    ensures { links.new.items ≡ meaning.with_unread link unread links.old.items }
{
    match index_of_open(links.as_slice(), link) {
        Some(at) => links[at].unread = unread,
        None => {}
    }
}

/// Drops the links with this number.
pub(crate) fn drop_open(links: &mut Vec<OpenLink>, link: u64)
    ensures { links.new.items ≡ filter (λ open_link. not (meaning.has_number link open_link)) links.old.items }
{
    links.retain(|open| open.number != link)
}
