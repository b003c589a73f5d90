//! The servers of a channel with the counts of their failures, and the choice among them.

ghost use Rattle.std.specs.List.{list_any};
ghost use Rattle.std.specs.Prelude.{if◌then◌else◌, nat_lt, ◌≡◌, ◌≢◌, ◌≤◌, ◌<◌, ◌==◌, IfOk, OnOk, OnErr, IsTrue, length, map, take};
ghost use Rattle.channel_model.specs.Choice.{least_of};
ghost use Rattle.channel_model.specs.Servers.{KeysDiffer, from_place};
ghost use Rattle.query_machine.specs.Servers.{counted_again, failing_of, failures_of, fresh_servers, least_count, one_more, recounted, renewed};

use chan_types::KeyList;
use item_list::NoMemory;
use std::alloc::Global;
use std::marker::Model;

/// A server's key, and how many attempts on it have failed since its last good reply.
#[derive(Clone, Copy, Debug, PartialEq, Eq)]
pub struct FailureCount {
    pub key: u32,
    pub failures: u64,
}

/// The servers of a channel, in the order of its list. Contracts see it as their keys with the counts of their failures.
#[derive(Debug, Drop)]
pub struct Servers {
    counts: Vec<FailureCount>,
}

impl Model for Servers {
    ghost use Rattle.std.specs.Prelude.{List, map};
    ghost use Rattle.channel_model.specs.Choice.{Failing};
    ghost use Rattle.query_machine.specs.Servers.{failing_of};

    ghost Value = { List Failing };

    ghost view = { λ servers. map failing_of servers.counts.items };
}

impl Servers {
    /// So many servers, with the keys from 0 on, of which none has failed.
    pub fn make(alloc: Global, count: u32) -> Result<Servers, NoMemory>
        requires some { 1 ≤ count }
        requires few { count ≤ 8 }
        ensures { IfOk result (λ servers. servers ≡ fresh_servers count) }
    {
        let mut counts = Vec::with_capacity(alloc, count as usize)?;
        for key in 0..count {
            counts.push(FailureCount { key, failures: 0 })?;
        }
        Ok(Servers { counts })
    }

    /// The key of the server with the fewest failures among the first `used` of the list; ties go by the order of the list
    /// from the place `first` on.
    pub fn pick(&self, used: u32, first: u32) -> u32
        requires some { used ≢ 0 }
        requires there { used ≤ length self.now }
        requires inside { first < used }
        ensures { result ≡ least_of (from_place first (take used self.now)) }
    {
        let counts = &self.counts.as_slice()[..used as usize];
        let (before, from) = counts.split_at(first as usize);
        least(least(from[0], from), before).key
    }

    /// An attempt on this server has failed. The count stops at the greatest of 64 bits.
    pub fn failed(&mut self, server: u32)
        requires there { IsTrue (list_any (λ item. item.server == server) self.old) }
        ensures { self.new ≡ recounted server one_more self.old }
    {
        count_failure(self.counts.as_mut_slice(), server);
    }

    /// The server gave a good reply, which forgives its failures.
    pub fn good(&mut self, server: u32)
        requires there { IsTrue (list_any (λ item. item.server == server) self.old) }
        ensures { self.new ≡ recounted server (λ count. 0) self.old }
    {
        forgive(self.counts.as_mut_slice(), server);
    }

    /// These become the servers. One that stays keeps its count, and any other has none.
    pub fn renew(&mut self, list: &KeyList) -> Result<(), NoMemory>
        requires some { 1 ≤ length list.now }
        requires few { length list.now ≤ 8 }
        requires apart { KeysDiffer list.now }
        ensures ok { OnOk result (self.new ≡ renewed list.now self.old) }
        ensures err { OnErr result (self.new ≡ self.old) }
    {
        let mut counts = Vec::with_capacity(*self.counts.allocator(), list.len())?;
        for server in list.as_slice() {
            counts.push(FailureCount {
                key: server.key,
                failures: failures_of(self.counts.as_slice(), server.key),
            })?;
        }
        self.counts = counts;
        Ok(())
    }
}

/// This server, or the first of these that has fewer failures than all before it.
fn least(best: FailureCount, counts: &[FailureCount]) -> FailureCount
    ensures { failing_of result ≡ least_count (failing_of best) (map failing_of counts.now) }
{
    match counts {
        [] => best,
        [next, rest @ ..] => least(fewer(best, *next), rest),
    }
}

/// Of two servers the one with fewer failures, or else the first.
fn fewer(best: FailureCount, next: FailureCount) -> FailureCount
    ensures { result ≡ (if nat_lt next.failures best.failures then next else best) }
{
    if next.failures < best.failures {
        next
    } else {
        best
    }
}

/// Counts a failure of this server.
fn count_failure(counts: &mut [FailureCount], server: u32)
    ensures { map failing_of counts.new ≡ recounted server one_more (map failing_of counts.old) }
{
    for index in 0..counts.len() {
        counts[index] = with_failure(counts[index], server);
    }
}

/// The count with a failure more, if it is that of this server.
fn with_failure(item: FailureCount, server: u32) -> FailureCount
    ensures { result ≡ counted_again server one_more item }
{
    if item.key == server {
        FailureCount {
            key: item.key,
            failures: item.failures.saturating_add(1),
        }
    } else {
        item
    }
}

/// Forgets the failures of this server.
fn forgive(counts: &mut [FailureCount], server: u32)
    ensures { map failing_of counts.new ≡ recounted server (λ count. 0) (map failing_of counts.old) }
{
    for index in 0..counts.len() {
        counts[index] = forgiven(counts[index], server);
    }
}

/// The count without failures, if it is that of this server.
fn forgiven(item: FailureCount, server: u32) -> FailureCount
    ensures { result ≡ counted_again server (λ count. 0) item }
{
    if item.key == server {
        FailureCount {
            key: item.key,
            failures: 0,
        }
    } else {
        item
    }
}

/// The failures of the server of this key, or 0 where the list lacks it.
fn failures_of(counts: &[FailureCount], key: u32) -> u64
    ensures { result ≡ failures_of (map failing_of counts.now) key }
{
    match counts {
        [] => 0,
        [first, rest @ ..] => {
            if first.key == key {
                first.failures
            } else {
                failures_of(rest, key)
            }
        }
    }
}
