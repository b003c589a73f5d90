//! A new list of servers, and the keys that they get.

ghost use Rattle.std.specs.Prelude.{◌≡◌, ◌+◌, ◌<◌, ◌≤◌, ◌^◌, ◌++◌, IfOk, OnOk, find, length};
ghost use Rattle.channel_model.specs.Meanings.{SetsServers};
ghost use Rattle.channel_model.specs.Seen.{Happens};
ghost use Rattle.channel_table.specs.Tokens.{seen};
ghost use Rattle.channel_model.specs.Servers.{rekeyed, same_address, same_server, without_key};

use super::Table;
use super::journal_room::room_for_entry;
use chan_types::{Entry, KeyList, NoMemory, ServerKey, Token, What};
use channel_journal::ChannelJournal;
use channel_model::SetFault;
use net_addr::{Addr, ServerAddr};
use std::alloc::Global;

/// The greatest key behind which a list of 8 servers has its keys: keys have 32 bits.
const KEY_MOST: u32 = 0xffff_fff7;

impl<T: Token, J: ChannelJournal> Table<T, J> {
    /// Makes these servers the channel's list, and answers how many attempts that closed: those on servers that left
    /// it. A server that stays keeps its key and the count of its failures.
    pub fn set_servers(&mut self, seat: u64, servers: &[ServerAddr]) -> Result<u64, SetFault>
        requires some { 1 ≤ length servers.now }
        requires few { length servers.now ≤ 8 }
        ensures done { Happens (SetsServers servers.now result) seat 0 (seen self.old) (seen self.new) }
        ensures tokens { self.new.tokens ≡ self.old.tokens }
    {
        if self.closed {
            return Err(SetFault::Closed);
        }
        if self.servers.greatest_key > KEY_MOST {
            return Err(SetFault::Full);
        }
        let list = rekey(
            self.alloc,
            servers,
            self.servers.list.as_slice(),
            self.servers.greatest_key,
        )?;
        let kept = KeyList::of(self.alloc, list.as_slice())?;
        let count = self.rows.count_left(list.as_slice());
        room_for_entry(&mut self.journal, self.rows.len(), self.ready.len())?;
        self.servers.renew(list)?;
        self.journal.add(Entry {
            seat,
            by: 0,
            what: What::Servers { list: kept },
        });
        self.rows.set_list(self.servers.list.as_slice());
        Ok(count)
    }
}

/// The servers with their keys, where these are left of the old list and this is the greatest key that was given.
fn rekey(
    alloc: Global,
    servers: &[ServerAddr],
    old: &[ServerKey],
    greatest: u32,
) -> Result<KeyList, NoMemory>
    requires { greatest + length servers.now < 2 ^ 32 }
    ensures { IfOk result (λ list. list ≡ rekeyed servers.now old.now greatest) }
{
    let mut list = Vec::with_capacity(alloc, servers.len())?;
    rekey_onto(alloc, &mut list, servers, old, greatest)?;
    Ok(KeyList::from_vec(list))
}

/// Adds the servers with their keys to a list.
fn rekey_onto(
    alloc: Global,
    list: &mut Vec<ServerKey>,
    servers: &[ServerAddr],
    left: &[ServerKey],
    greatest: u32,
) -> Result<(), NoMemory>
    requires { greatest + length servers.now < 2 ^ 32 }
    ensures { OnOk result (list.new.items ≡ list.old.items ++ rekeyed servers.now left.now greatest) }
{
    match servers {
        [] => Ok(()),
        [address, rest @ ..] => match find_server(left, *address) {
            Some(server) => {
                list.push(server)?;
                let left = without_key(alloc, left, server.key)?;
                rekey_onto(alloc, list, rest, left.as_slice(), greatest)
            }
            None => {
                let key = greatest + 1;
                list.push(ServerKey {
                    key,
                    address: *address,
                })?;
                rekey_onto(alloc, list, rest, left, key)
            }
        },
    }
}

/// The first server of a list with this address and port.
fn find_server(servers: &[ServerKey], address: ServerAddr) -> Option<ServerKey>
    ensures { result ≡ find (λ server. same_server server.address address) servers.now }
{
    match servers {
        [] => None,
        [server, rest @ ..] => {
            if same_server(server.address, address) {
                Some(*server)
            } else {
                find_server(rest, address)
            }
        }
    }
}

/// The two servers have the same address and port.
fn same_server(a: ServerAddr, b: ServerAddr) -> bool
    ensures { result ≡ same_server a b }
{
    same_address(a.address, b.address) && a.port == b.port
}

/// The two addresses are one.
fn same_address(a: Addr, b: Addr) -> bool
    ensures { result ≡ same_address a b }
{
    match (a, b) {
        (Addr::V4(a), Addr::V4(b)) => a == b,
        (Addr::V6(a), Addr::V6(b)) => a == b,
        (Addr::V4(_), Addr::V6(_)) | (Addr::V6(_), Addr::V4(_)) => false,
    }
}

/// The servers without those of this key.
fn without_key(alloc: Global, servers: &[ServerKey], key: u32) -> Result<Vec<ServerKey>, NoMemory>
    ensures { IfOk result (λ left. left.items ≡ without_key key servers.now) }
{
    let mut left = Vec::with_capacity(alloc, servers.len())?;
    for server in servers {
        if server.key != key {
            left.push(*server)?;
        }
    }
    Ok(left)
}
