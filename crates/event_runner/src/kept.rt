//! What a runner keeps of the network from turn to turn.

ghost use Rattle.std.specs.Prelude.{◌≡◌, MatchOption, map};
ghost use Rattle.channel_model.specs.KeptLinks.{link_of_row};
ghost use Rattle.channel_model.specs.Links.{held_link};
ghost use Rattle.event_runner.specs.Rows.{IsAt};

use crate::link::HeldLink;
use std::alloc::Global;

/// What a runner keeps of the network from turn to turn.
#[derive(Drop)]
pub struct Kept {
    pub alloc: Global,
    /// The links that it holds, in the order of their numbers.
    pub links: Vec<HeldLink>,
    /// The keys of the servers that it told the network.
    pub told: Vec<u32>,
    /// Bits are drawn for the case of a query's letters.
    pub mix: bool,
}

/// Where the link with this number is among these.
pub fn find_link(links: &[HeldLink], number: u64) -> Option<usize>
    ensures { MatchOption result (held_link number (map link_of_row links.now)
        ≡ None) (IsAt number links.now) }
{
    for (index, link) in links.iter().enumerate() {
        if link.number() == number {
            return Some(index);
        }
    }
    None
}
