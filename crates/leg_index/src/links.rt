//! The links over which legs are in flight.
ghost use Rattle.std.specs.Prelude.{◌≡◌, ◌+◌, ◌-◌, ◌^◌, ◌<◌, ◌==◌, ℕ, [], not, cond, IfOk, IfSome, MatchOption, OnOk, OnErr};
ghost use Rattle.leg_index.specs.Links.{used, used_in, counts_tcp, is_link, FindsUse, IsOfLink, IsOverTcp, IsSpare, NoneOverTcp};

use crate::link_ids::LinkIds;
use std::alloc::{AllocError, Global};
use std::marker::Model;

/// How many legs are in flight on a server over a link: 0 is its socket for UDP, and any other one a connection.
#[derive(Clone, Copy, Debug, PartialEq, Eq)]
pub struct LinkUse {
    pub server: u32,
    pub link: u64,
    pub count: u64,
}

/// The links over which legs are in flight, with how many those are. They are few: for each server its socket for UDP
/// and mostly one connection. An item whose legs have ended stays until another link takes it. Contracts see the items,
/// of which clauses read how many legs are in flight on a server over a link.
#[derive(Drop)]
pub struct Links {
    uses: Vec<LinkUse>,
    /// The identifiers of the attempts of these legs, by the indexes of the items.
    ids: LinkIds,
}

impl Model for Links {
    ghost use Rattle.std.specs.Prelude.{List};
    ghost use Rattle.leg_index.specs.declared.links.LinkUse.{LinkUse};

    ghost Value = { List LinkUse };

    ghost view = { λ links. links.uses.items };
}

impl Links {
    /// No leg is in flight. It takes no memory.
    pub fn make(alloc: Global) -> Links
        ensures { result ≡ [] }
    {
        Links {
            uses: Vec::new(alloc),
            ids: LinkIds::make(alloc),
        }
    }

    /// Whether a leg is in flight on this server over this link.
    pub fn is_busy(&self, server: u32, link: u64) -> bool
        ensures { result ≡ not (used server link self.now == 0) }
    {
        find_use(self.uses.as_slice(), server, link).is_some()
    }

    /// How many legs are in flight on this server over this link.
    pub fn count(&self, server: u32, link: u64) -> u64
        requires fits { used server link self.now < 2 ^ 64 }
        ensures { result ≡ used server link self.now }
    {
        count_uses(self.uses.as_slice(), server, link)
    }

    /// The links over which legs are in flight, with how many those are.
    pub fn uses(&self) -> &[LinkUse]
        ensures { result.now ≡ self.now }
    {
        self.uses.as_slice()
    }

    /// The identifiers of the attempts on this server over this link, as they were told. No clause says that these are
    /// they: whoever reads one looks whether its attempt is over the link, and whether there are as many as `count` says.
    pub fn ids(&self, alloc: Global, server: u32, link: u64) -> Result<Vec<u16>, AllocError> {
        match find_link(self.uses.as_slice(), server, link) {
            Some(index) => self.ids.over(alloc, index),
            None => Ok(Vec::new(alloc)),
        }
    }

    /// One leg more is in flight on this server over this link, whose attempt has this identifier. `AllocError` is want
    /// of memory.
    #[inline]
    pub fn begin(&mut self, server: u32, link: u64, id: u16) -> Result<(), AllocError>
        requires fits { used server link self.old + 1 < 2 ^ 64 }
        ensures ok { OnOk result ((s l : ℕ)
            → used s l self.new ≡ cond (is_link server link s l) 1 0 + used s l self.old) }
        ensures err { OnErr result (self.new ≡ self.old) }
    {
        let index = self.item_of(server, link)?;
        self.uses[index].count += 1;
        self.ids.put(index, id);
        Ok(())
    }

    /// One leg less is, whose attempt had this identifier. Where none was, nothing changes. It takes no memory.
    #[inline]
    pub fn end(&mut self, server: u32, link: u64, id: u16)
        ensures { (s l : ℕ)
            → used s l self.new ≡ used s l self.old - cond (is_link server link s l) 1 0 }
    {
        let Some(index) = find_use(self.uses.as_slice(), server, link) else {
            return;
        };
        self.uses[index].count -= 1;
        self.ids.drop_id(index, id);
    }

    /// The index of this link's item: its own, or a new one.
    #[inline(always)]
    fn item_of(&mut self, server: u32, link: u64) -> Result<usize, AllocError>
        ensures at { IfOk result (IsOfLink server link self.new) }
        ensures ok { OnOk result ((s l : ℕ) → used s l self.new ≡ used s l self.old) }
        ensures err { OnErr result (self.new ≡ self.old) }
    {
        match find_link(self.uses.as_slice(), server, link) {
            Some(index) => Ok(index),
            None => self.make_item(server, link),
        }
    }

    /// The index of a new item for this link: one that counts no leg any longer, or one behind the others. It is apart,
    /// so that `begin` is short where the link has its item.
    #[inline(never)]
    fn make_item(&mut self, server: u32, link: u64) -> Result<usize, AllocError>
        ensures at { IfOk result (IsOfLink server link self.new) }
        ensures ok { OnOk result ((s l : ℕ) → used s l self.new ≡ used s l self.old) }
        ensures err { OnErr result (self.new ≡ self.old) }
    {
        let item = LinkUse {
            server,
            link,
            count: 0,
        };
        if let Some(index) = find_spare(self.uses.as_slice()) {
            self.uses[index] = item;
            return Ok(index);
        }
        self.uses.reserve(1)?;
        self.ids.push()?;
        let index = self.uses.len();
        self.uses.push_reserved(item);
        Ok(index)
    }

    /// A link over TCP to this server over which a leg is in flight.
    pub fn over_tcp(&self, server: u32) -> Option<u64>
        ensures { MatchOption result (NoneOverTcp server self.now) (IsOverTcp server self.now) }
    {
        find_tcp(self.uses.as_slice(), server)
    }
}

// A link over TCP of the first item for this server that counts a leg over one.
fn find_tcp(uses: &[LinkUse], server: u32) -> Option<u64>
    ensures { MatchOption result (NoneOverTcp server uses.now) (IsOverTcp server uses.now) }
{
    for index in 0..uses.len() {
        if counts_tcp(uses[index], server) {
            return Some(uses[index].link);
        }
    }
    None
}

// How many legs the items count on this server over this link.
fn count_uses(uses: &[LinkUse], server: u32, link: u64) -> u64
    requires { used server link uses.now < 2 ^ 64 }
    ensures { result ≡ used server link uses.now }
{
    let mut count: u64 = 0;
    for index in 0..uses.len() {
        count += used_in(uses[index], server, link);
    }
    count
}

// How many legs the item counts on this server over this link.
fn used_in(item: LinkUse, server: u32, link: u64) -> u64
    ensures { result ≡ used_in server link item }
{
    if item.server == server && item.link == link {
        item.count
    } else {
        0
    }
}

// Whether the item counts a leg on this server over TCP.
fn counts_tcp(item: LinkUse, server: u32) -> bool
    ensures { result ≡ counts_tcp server item }
{
    item.server == server && item.link != 0 && item.count != 0
}

// The first item for this server and this link that counts a leg.
#[inline(always)]
fn find_use(uses: &[LinkUse], server: u32, link: u64) -> Option<usize>
    ensures { FindsUse server link uses.now result }
{
    for index in 0..uses.len() {
        if used_in(uses[index], server, link) != 0 {
            return Some(index);
        }
    }
    None
}

// The first item for this server and this link.
#[inline(always)]
fn find_link(uses: &[LinkUse], server: u32, link: u64) -> Option<usize>
    ensures { IfSome result (IsOfLink server link uses.now) }
{
    for index in 0..uses.len() {
        if is_of(uses[index], server, link) {
            return Some(index);
        }
    }
    None
}

// Whether the item is for this server and this link.
#[inline(always)]
fn is_of(item: LinkUse, server: u32, link: u64) -> bool
    ensures { result ≡ is_link item.server item.link server link }
{
    item.server == server && item.link == link
}

// The first item that counts no leg.
fn find_spare(uses: &[LinkUse]) -> Option<usize>
    ensures { IfSome result (IsSpare uses.now) }
{
    for index in 0..uses.len() {
        if uses[index].count == 0 {
            return Some(index);
        }
    }
    None
}
