//! In which order destinations are tried (RFC 6724, section 6).
ghost use Rattle.std.specs.Prelude.{IfOk};
ghost use Rattle.dest_sorting.specs.Order.{IsSortedBy};

use crate::ranks::rank_of;
use item_list::NoMemory;
use net_addr::{Addr, AddrList};
use std::alloc::Global;

/// The destinations in the order in which they are tried, with these source addresses. Those between which no rule
/// decides keep their order.
pub fn sort(alloc: Global, dests: &[Addr], sources: &[Addr]) -> Result<AddrList, NoMemory>
    ensures { IfOk result (IsSortedBy sources.now dests.now) }
{
    let mut sorted = Vec::from_slice(alloc, dests)?;
    sorted.sort_by_cached_key(|dest| rank_of(*dest, sources))?;
    Ok(AddrList::from_vec(sorted))
}
