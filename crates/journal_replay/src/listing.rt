//! A list of servers, set once more.

ghost use Rattle.std.specs.Prelude.{◌≡◌, IfOk, IsTrue, map};
ghost use Rattle.chan_types.specs.declared.journal.What.TheVariants.{Servers};
ghost use Rattle.channel_table.specs.Tokens.{seen};
ghost use Rattle.journal_replay.specs.Kept.{KnowsKeys};
ghost use Rattle.journal_replay.specs.Replays.{Follows};

use crate::keys::Keys;
use crate::recorded::Recorded;
use chan_types::{KeyList, NoMemory, ServerKey};
use channel_model::SetFault;
use channel_table::Table;
use net_addr::ServerAddr;
use std::alloc::Global;

/// The most servers of a list.
const MOST: usize = 8;

/// The servers become this list, where they may and have their keys by the rule.
pub(crate) fn set(
    alloc: Global,
    table: &mut Table<Recorded>,
    keys: &mut Keys,
    list: &[ServerKey],
) -> Result<bool, NoMemory>
    requires { KnowsKeys keys.old (seen table.old) }
    ensures follows { IfOk result (Follows (Servers list.now) (seen table.old) (seen table.new)) }
    ensures kept { IfOk result (λ is_allowed. IsTrue is_allowed → KnowsKeys keys.new (seen table.new)) }
{
    if list.is_empty() || list.len() > MOST {
        return Ok(false);
    }
    if !keys.are_kept_by(alloc, list)? {
        return Ok(false);
    }
    let addresses = addresses_of(alloc, list)?;
    let list = KeyList::of(alloc, list)?;
    match table.set_servers(0, addresses.as_slice()) {
        Ok(_) => {
            keys.set(list);
            Ok(true)
        }
        Err(SetFault::Closed) => Ok(false),
        // Keys of 32 bits run out behind half a billion lists at least.
        Err(SetFault::Full | SetFault::NoMemory) => Err(NoMemory),
    }
}

/// Where the servers listen.
fn addresses_of(alloc: Global, list: &[ServerKey]) -> Result<Vec<ServerAddr>, NoMemory>
    ensures { IfOk result (λ addresses. addresses.items ≡ map (λ server. server.address) list.now) }
{
    let mut addresses = Vec::with_capacity(alloc, list.len())?;
    for server in list {
        addresses.push(server.address)?;
    }
    Ok(addresses)
}
