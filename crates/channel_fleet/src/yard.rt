//! A fleet that is being made.

ghost use Rattle.std.specs.Prelude.{◌≡◌, ◌≤◌, ◌<◌, ◌+◌, List, [], IfOk, length, map, vec_capacity, vec_len, ℕ};
ghost use Rattle.std.specs.List.{AllByRecursion};
ghost use Rattle.channel_fleet.specs.declared.setup.Setup.{Setup};
ghost use Rattle.channel_fleet.specs.Yards.{AddsTo, HasRoomFor, IsYard, with_berths};

use crate::berth::Berth;
use crate::finishing::end_all;
use crate::fleet::Fleet;
use crate::helm::Helm;
use crate::launching::Launched;
use crate::pass::FleetPass;
use chan_types::{NoMemory, Orders};
use channel_journal::ChannelJournal;
use completion_ticket::Done;
use shared_channel::{Channel, Finished};
use std::alloc::Global;
use std::sync::Wait;

/// Callbacks ask nothing further.
const NO_ORDERS: Orders = Orders {
    follow: false,
    first: false,
    quit: false,
};

/// A fleet that is being made: its channels so far, with their helms; a row of berths for each caller; and room for what the
/// fleet is to have at its end.
pub(crate) struct Yard<B: Done + Drop, J: ChannelJournal> {
    pub channels: Vec<Channel<B, J>>,
    pub helms: Vec<Helm<B, J>>,
    pub rows: Vec<Vec<Berth<B, J>>>,
    pub passes: Vec<FleetPass<B, J>>,
    pub parts: Vec<Finished<J>>,
}

impl<B: Done + Drop, J: ChannelJournal> Yard<B, J> {
    /// No channel, with room for so many, and as many callers.
    #[tactic(auto, using(crate::proofs::YardLemmas::yard_new, crate::proofs::YardLemmas::room_new))]
    pub fn make(alloc: Global, channels: usize, callers: u64) -> Result<Yard<B, J>, NoMemory>
        ensures new { IfOk result (λ yard. IsYard callers [] yard) }
        ensures room { IfOk result (λ yard. HasRoomFor channels yard) }
    {
        let rows = empty_rows(alloc, channels, callers)?;
        let passes = Vec::with_capacity(alloc, callers as usize)?;
        let parts = Vec::with_capacity(alloc, channels)?;
        let helms = Vec::with_capacity(alloc, channels)?;
        match Vec::with_capacity(alloc, channels) {
            Ok(channels) => Ok(Yard {
                channels,
                helms,
                rows,
                passes,
                parts,
            }),
            Err(_) => {
                helms.destroy_empty();
                Err(NoMemory)
            }
        }
    }

    /// Adds a channel, for which there is room.
    pub fn add(&mut self, launched: Launched<B, J>)
        requires room { HasRoomFor 1 self.old }
        requires len { vec_len launched.berths ≡ vec_len self.old.rows }
        ensures { AddsTo launched self.old self.new }
    {
        let Launched {
            channel,
            berths,
            helm,
        } = launched;
        give_each(&mut self.rows, berths);
        self.helms.push_reserved(helm);
        self.channels.push_reserved(channel);
    }

    /// The fleet, its passes and its helms, where there is a channel.
    pub fn into_fleet(self) -> (Fleet<B, J>, Vec<FleetPass<B, J>>, Vec<Helm<B, J>>)
        requires some { 0 < vec_len self.channels }
        requires room { HasRoomFor 0 self }
        ensures channels { result.0 ≡ self.channels.items }
        ensures passes { result.1.items ≡ map (λ row. row.items) self.rows.items }
        ensures helms { result.2.items ≡ self.helms.items }
    {
        let Yard {
            channels,
            helms,
            rows,
            passes,
            parts,
        } = self;
        let passes = passes_of(rows, passes);
        (Fleet { channels, parts }, passes, helms)
    }

    /// The end of what was made: nothing was done with it.
    pub fn end<R: Wait>(self, rt: &R)
        requires new { (callers : ℕ) × (setups : List Setup) × IsYard callers setups self }
        requires room { HasRoomFor 0 self }
    {
        let Yard {
            channels,
            helms,
            rows,
            passes,
            parts,
        } = self;
        let passes = passes_of(rows, passes);
        let _parts = end_all(rt, channels, parts, passes, helms, NO_ORDERS);
    }
}

/// A row for each of so many callers, with room for so many berths.
fn empty_rows<B: Done + Drop, J: ChannelJournal>(
    alloc: Global,
    channels: usize,
    callers: u64,
) -> Result<Vec<Vec<Berth<B, J>>>, NoMemory>
    ensures rows { IfOk result
        (λ rows. AllByRecursion (λ row. (row.items ≡ []) × (vec_capacity row ≡ channels)) rows.items) }
    ensures len { IfOk result (λ rows. vec_len rows ≡ callers) }
{
    let mut rows = Vec::with_capacity(alloc, callers as usize)?;
    for _ in 0..callers {
        rows.push_reserved(Vec::with_capacity(alloc, channels)?);
    }
    Ok(rows)
}

/// Each of these rows has one of these berths more.
#[tactic(auto, using(crate::proofs::RowLemmas::giving_none))]
fn give_each<B: Done + Drop, J: ChannelJournal>(
    rows: &mut Vec<Vec<Berth<B, J>>>,
    berths: Vec<Berth<B, J>>,
)
    requires len { vec_len berths ≡ vec_len rows.old }
    requires room { AllByRecursion (λ row. length row.items + 1 ≤ vec_capacity row) rows.old.items }
    ensures items { map (λ row. row.items) rows.new.items ≡
        with_berths (map (λ row. row.items) rows.old.items) berths.items }
    ensures room { map (λ row. vec_capacity row) rows.new.items ≡ map (λ row. vec_capacity row) rows.old.items }
{
    // they go round: each comes behind the others once it has its berth
    for berth in berths {
        let mut row = rows.remove(0);
        row.push_reserved(berth);
        rows.push_reserved(row);
    }
}

/// A pass of each row.
fn passes_of<B: Done + Drop, J: ChannelJournal>(
    rows: Vec<Vec<Berth<B, J>>>,
    passes: Vec<FleetPass<B, J>>,
) -> Vec<FleetPass<B, J>>
    requires none { passes.items ≡ [] }
    requires room { vec_len rows ≤ vec_capacity passes }
    ensures { result.items ≡ map (λ row. row.items) rows.items }
{
    let mut passes = passes;
    for berths in rows {
        passes.push_reserved(FleetPass { berths });
    }
    passes
}
