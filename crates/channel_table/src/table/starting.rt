//! Starting the attempt of the first leg that waits.

ghost use Rattle.std.specs.List.{list_any};
ghost use Rattle.std.specs.Prelude.{◌≡◌, ◌<◌, false, OnErr, OnOk, length};
ghost use Rattle.std.specs.VecDeque.{deque_len};
ghost use Rattle.channel_model.specs.Meanings.{Starts};
ghost use Rattle.channel_model.specs.Seen.{Happens};
ghost use Rattle.query_machine.specs.Legs.{attempt_from};
ghost use Rattle.channel_table.specs.Apart.{IsApart};
ghost use Rattle.channel_table.specs.Planning.{planned_flying};
ghost use Rattle.channel_table.specs.Starting.{BeginsRow, FindsIdle, FindsIdleLookup, WaitsAt, idle_of, row_has_id};
ghost use Rattle.channel_table.specs.Tokens.{seen};

use super::Table;
use super::journal_room::room_for_entry;
use super::rows::Rows;
use super::start_plan::{Planned, StartPlan, plan_start};
use crate::held::{Held, row_at};
use crate::lookup::Lookup;
use crate::row::Row;
use chan_types::{Entry, NoMemory, Token};
use channel_journal::ChannelJournal;
use channel_model::Begun;
use query_machine::{Leg, Phase};
use std::collections::VecDeque;

/// A lookup that waits: its row, which lookup of it, and what it has.
#[derive(Clone, Copy, Debug, PartialEq, Eq)]
pub struct Idle {
    pub index: usize,
    pub is_second: bool,
    pub number: u64,
    pub leg_number: u8,
    pub leg: Leg,
    pub begun: bool,
}

impl<T: Token, J: ChannelJournal> Table<T, J> {
    /// Begins an attempt of the first waiting leg at this moment, with an identifier from this word upwards, and its
    /// letters in the case of the bits of `mix`, where the channel is set so and the query goes over UDP.
    pub fn start(&mut self, seat: u64, word: u16, mix: u16, at: u64) -> Result<Begun, NoMemory>
        ensures done { Happens (Starts word mix at result) seat 0 (seen self.old) (seen self.new) }
        ensures tokens { self.new.tokens ≡ self.old.tokens }
    {
        let plan = plan_start(
            self.alloc,
            &self.options,
            &self.servers,
            &mut self.rows,
            word,
            mix,
        )?;
        match plan {
            StartPlan::NoLeg => Ok(Begun::Idle),
            StartPlan::NoIdentifier => Ok(Begun::NoId),
            StartPlan::Begins(planned) => {
                room_for_entry(&mut self.journal, self.rows.len(), self.ready.len())?;
                begin_planned(&mut self.rows, &planned, at)?;
                self.servers.count_begun(planned.link, planned.idle.begun);
                self.journal.add(Entry {
                    seat,
                    by: 0,
                    what: planned.told(at),
                });
                Ok(planned.into_begun())
            }
        }
    }
}

/// Begins the attempt at this moment.
#[inline(always)]
fn begin_planned<T: Token>(rows: &mut Rows<T>, planned: &Planned, at: u64) -> Result<(), NoMemory>
    requires inside { planned.now.idle.index < length rows.old }
    requires waits { WaitsAt planned.now.idle.index planned.now.idle.is_second rows.old }
    requires apart { IsApart planned.now.idle.index planned.now.idle.is_second rows.old }
    requires free { list_any (row_has_id planned.now.id) rows.old ≡ false }
    ensures begins { OnOk result (BeginsRow (planned_flying at planned.now) planned.now.idle.index
        planned.now.idle.is_second rows.old rows.new) }
    ensures err { OnErr result (rows.new ≡ rows.old) }
    ensures len { length rows.new ≡ length rows.old }
{
    let Idle {
        index,
        is_second,
        ..
    } = planned.idle;
    rows.begin(
        index,
        is_second,
        planned.server,
        planned.link,
        planned.id,
        planned.mix,
        at,
        planned.wait,
    )
}

/// The first lookup that waits.
#[inline(always)]
pub fn find_idle<T: Token>(rows: &VecDeque<Held<T>>) -> Option<Idle>
    ensures { FindsIdle rows.now.items result }
{
    for index in 0..rows.len() {
        if let Some(idle) = idle_lookup(row_at(rows, index), index) {
            return Some(idle);
        }
    }
    None
}

/// The first lookup of the row at this index that waits.
#[inline(always)]
pub fn idle_lookup<T: Token>(row: &Row<T>, index: usize) -> Option<Idle>
    ensures { FindsIdleLookup index row.now result }
{
    if row.first.waits() {
        return Some(idle_of(&row.first, index, false));
    }
    match &row.second {
        Some(lookup) if lookup.lookup().waits() => Some(idle_of(lookup.lookup(), index, true)),
        Some(_) | None => None,
    }
}

/// A lookup of the row at this index that waits.
#[inline(always)]
fn idle_of(lookup: &Lookup, index: usize, is_second: bool) -> Idle
    ensures { result ≡ idle_of index is_second lookup.now }
{
    Idle {
        index,
        is_second,
        number: lookup.number,
        leg_number: lookup.leg_number,
        leg: lookup.leg,
        begun: lookup.begun,
    }
}

/// Begins an attempt of this lookup of the row at this index, which is given so long.
#[inline(always)]
pub fn begin<T: Token>(
    rows: &mut VecDeque<Held<T>>,
    index: usize,
    is_second: bool,
    server: u32,
    link: u64,
    id: u16,
    mix: Option<u16>,
    at: u64,
    wait: u64,
)
    requires inside { index < deque_len rows.old }
    requires waits { WaitsAt index is_second rows.old.items }
    ensures begins { BeginsRow (attempt_from server link id mix at wait) index is_second
        rows.old.items rows.new.items }
    ensures len { deque_len rows.new ≡ deque_len rows.old }
{
    rows[index].begin(is_second, server, link, id, mix, at, wait);
}
