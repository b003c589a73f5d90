//! The keys of a channel's servers, as the entries of a journal set them.

ghost use Rattle.std.specs.Prelude.{◌≡◌, Decides, IfOk, find, length, map, max};
ghost use Rattle.channel_model.specs.Servers.{greatest_of, keyed_from, rekeyed, same_server, without_key};

use chan_types::{KeyList, NoMemory, ServerKey};
use net_addr::ServerAddr;
use resolv_options::Options;
use std::alloc::Global;

/// The servers of a channel with their keys, and the greatest key that was given.
#[derive(Drop)]
pub(crate) struct Keys {
    pub(crate) list: KeyList,
    pub(crate) greatest: u32,
}

impl Keys {
    /// Those with which a channel of these options is made.
    pub(crate) fn opening(alloc: Global, options: &Options) -> Result<Keys, NoMemory>
        ensures list { IfOk result (λ keys. keys.list ≡ keyed_from 0 options.now.servers) }
        ensures greatest { IfOk result (λ keys. keys.greatest ≡ greatest_of 0 (keyed_from 0 options.now.servers)) }
    {
        let servers = options.servers().as_slice();
        let mut list = Vec::with_capacity(alloc, servers.len())?;
        for index in 0..servers.len() {
            list.push(ServerKey {
                key: index as u32,
                address: servers[index],
            })?;
        }
        let greatest = greatest_of(0, list.as_slice());
        Ok(Keys {
            list: KeyList::from_vec(list),
            greatest,
        })
    }

    /// Whether these servers have the keys that they get by the rule, where they become the list.
    pub(crate) fn are_kept_by(&self, alloc: Global, list: &[ServerKey]) -> Result<bool, NoMemory>
        ensures { IfOk result (λ kept. Decides kept
            (list.now ≡ rekeyed (map (λ server. server.address) list.now) self.now.list self.now.greatest)) }
    {
        have_keys(alloc, list, self.list.as_slice(), self.greatest)
    }

    /// Those behind an entry that sets this list.
    pub(crate) fn set(&mut self, list: KeyList)
        ensures list { self.new.list ≡ list }
        ensures greatest { self.new.greatest ≡ greatest_of self.old.greatest list }
    {
        self.greatest = greatest_of(self.greatest, list.as_slice());
        self.list = list;
    }
}

/// Whether these servers have the keys that they get by the rule, where these are left of the old list and this is the
/// greatest key that was given.
fn have_keys(
    alloc: Global,
    list: &[ServerKey],
    left: &[ServerKey],
    greatest: u32,
) -> Result<bool, NoMemory>
    ensures { IfOk result (λ kept. Decides kept
        (list.now ≡ rekeyed (map (λ server. server.address) list.now) left.now greatest)) }
{
    match list.split_first() {
        None => Ok(true),
        Some((server, rest)) => match find_server(left, server.address) {
            Some(known) => {
                if known.key != server.key {
                    return Ok(false);
                }
                let left = without_key(alloc, left, known.key)?;
                have_keys(alloc, rest, left.as_slice(), greatest)
            }
            None => {
                if server.key <= greatest || server.key - 1 != greatest {
                    return Ok(false);
                }
                have_keys(alloc, rest, left, server.key)
            }
        },
    }
}

/// The first server of a list with this address and port.
fn find_server(servers: &[ServerKey], address: ServerAddr) -> Option<ServerKey>
    ensures { result ≡ find (λ server. same_server server.address address) servers.now }
{
    match servers {
        [] => None,
        [server, rest @ ..] => {
            if server.address == address {
                Some(*server)
            } else {
                find_server(rest, address)
            }
        }
    }
}

/// The servers without those of this key.
fn without_key(alloc: Global, servers: &[ServerKey], key: u32) -> Result<Vec<ServerKey>, NoMemory>
    ensures { IfOk result (λ left. left.items ≡ without_key key servers.now) }
{
    let mut left = Vec::with_capacity(alloc, servers.len())?;
    for server in servers {
        if server.key != key {
            left.push(*server)?;
        }
    }
    Ok(left)
}

/// The greatest of these keys and this one.
fn greatest_of(greatest: u32, servers: &[ServerKey]) -> u32
    ensures { result ≡ greatest_of greatest servers.now }
{
    match servers {
        [] => greatest,
        [server, rest @ ..] => {
            let greater = greater_of(greatest, server.key);
            greatest_of(greater, rest)
        }
    }
}

/// The greater of two keys.
fn greater_of(a: u32, b: u32) -> u32
    ensures { result ≡ max a b }
{
    if a < b { b } else { a }
}
