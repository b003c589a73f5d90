//! The servers of a channel.

ghost use Rattle.std.specs.List.{list_any};
ghost use Rattle.std.specs.Prelude.{◌≡◌, ◌≢◌, ◌+◌, ◌<◌, ◌≤◌, ◌==◌, ◌^◌, IsTrue, OnErr, OnOk, length, max};
ghost use Rattle.channel_model.specs.Servers.{KeysDiffer, greatest_of, has_key};
ghost use Rattle.resolv_options.specs.Values.{AreWithinLimits};
ghost use Rattle.channel_table.specs.Counted.{begun_servers, faulted_servers, renewed_servers, servers_behind};
ghost use Rattle.channel_table.specs.Ends.{attempts_with};
ghost use Rattle.channel_table.specs.Starting.{first_place, server_for, used_of};

use chan_types::{KeyList, NoMemory, ServerKey};
use channel_model::Judged;
use query_machine::{Servers, attempts};
use resolv_options::Options;

/// The servers of a channel, and what the next attempts and keys go by.
#[derive(Drop)]
pub struct ChannelServers {
    /// The servers with their keys, in the order of the list.
    pub list: KeyList,
    /// The counts of their failures.
    pub counts: Servers,
    /// The greatest key that was given.
    pub greatest_key: u32,
    /// The greatest link that was given.
    pub greatest_link: u64,
    /// How many legs have had an attempt.
    pub started: u64,
}

impl ChannelServers {
    /// How many servers are in use.
    pub fn in_use(&self, options: &Options) -> u32
        requires some { 1 ≤ length self.now.list }
        requires few { length self.now.list ≤ 8 }
        ensures value { result ≡ length (used_of options.now self.now.list) }
        ensures some { 1 ≤ result }
        ensures few { result ≤ length self.now.list }
        ensures limits { AreWithinLimits options.now }
    {
        if options.flags().primary {
            1
        } else {
            self.list.len() as u32
        }
    }

    /// The server of an attempt: this one, if its leg has to go there, else one of those with the fewest failures.
    pub fn choose(&self, options: &Options, forced: Option<u32>) -> u32
        requires some { 1 ≤ length self.now.list }
        requires few { length self.now.list ≤ 8 }
        requires counted { length self.now.counts ≡ length self.now.list }
        ensures { result ≡ server_for options.now self.now forced }
    {
        let used = self.in_use(options);
        let place = first_place(options, self.started, used);
        match forced {
            Some(server) => server,
            None => self.counts.pick(used, place),
        }
    }

    /// How many attempts a leg may spend.
    pub fn most_attempts(&self, options: &Options) -> u32
        requires some { 1 ≤ length self.now.list }
        requires few { length self.now.list ≤ 8 }
        ensures value { result ≡ attempts_with options.now self.now.list }
        ensures few { result ≤ 80 }
    {
        attempts(options, self.in_use(options))
    }

    /// Counts an attempt over this link, of a leg that has had one before or not.
    pub fn count_begun(&mut self, link: u64, begun: bool)
        requires { self.old.started + 1 < 2 ^ 64 }
        ensures { self.new ≡ begun_servers link begun self.old }
    {
        self.greatest_link = self.greatest_link.max(link);
        if !begun {
            self.started += 1;
        }
    }

    /// Counts the end of an attempt on this server, which meant this.
    #[inline(always)]
    pub fn count_end(&mut self, server: u32, judged: Judged)
        requires there { IsTrue (list_any (λ item. item.server == server) self.old.counts) }
        ensures counts { self.new ≡ servers_behind server judged self.old }
        ensures link { self.new.greatest_link ≡ self.old.greatest_link }
        ensures starts { self.new.started ≡ self.old.started }
    {
        match judged {
            Judged::Failed(_) => self.counts.failed(server),
            Judged::NextTcp | Judged::NextPlain | Judged::Final(_) => self.counts.good(server),
        }
    }

    /// Counts a fault of this server's link over which so many attempts were in flight: they count as one, if there is
    /// one.
    pub fn count_fault(&mut self, server: u32, count: u64)
        requires there { count ≢ 0 → IsTrue (list_any (λ item. item.server == server) self.old.counts) }
        ensures counts { self.new ≡ faulted_servers server count self.old }
        ensures link { self.new.greatest_link ≡ self.old.greatest_link }
        ensures starts { self.new.started ≡ self.old.started }
    {
        if count != 0 {
            self.counts.failed(server);
        }
    }

    /// Makes this the list. A server that stays keeps the count of its failures.
    pub fn renew(&mut self, list: KeyList) -> Result<(), NoMemory>
        requires some { 1 ≤ length list }
        requires few { length list ≤ 8 }
        requires apart { KeysDiffer list }
        ensures ok { OnOk result (self.new ≡ renewed_servers list self.old) }
        ensures err { OnErr result (self.new ≡ self.old) }
    {
        self.counts.renew(&list)?;
        self.greatest_key = greatest_of(self.greatest_key, list.as_slice());
        self.list = list;
        Ok(())
    }
}

/// The place in the list of servers at which the order of ties begins.
fn first_place(options: &Options, starts: u64, used: u32) -> u32
    requires { 1 ≤ used }
    ensures value { result ≡ first_place options.now starts used }
    ensures inside { result < used }
{
    if options.rotate() {
        (starts % used as u64) as u32
    } else {
        0
    }
}

/// A server of the list has this key.
pub fn has_key(servers: &[ServerKey], key: u32) -> bool
    ensures { result ≡ has_key key servers.now }
{
    match servers {
        [] => false,
        [server, rest @ ..] => server.key == key || has_key(rest, key),
    }
}

/// The greatest of these keys and this one.
fn greatest_of(greatest: u32, servers: &[ServerKey]) -> u32
    ensures { result ≡ greatest_of greatest servers.now }
{
    match servers {
        [] => greatest,
        [server, rest @ ..] => {
            let greater = greater_of(greatest, server.key);
            greatest_of(greater, rest)
        }
    }
}

/// The greater of two keys.
fn greater_of(a: u32, b: u32) -> u32
    ensures { result ≡ max a b }
{
    if a < b { b } else { a }
}
