//! The pending requests of a table, and what finds their legs.

ghost use Rattle.std.specs.FinSet as set;
ghost use Rattle.std.specs.List.{AllByRecursion, list_any, sum_by};
ghost use Rattle.std.specs.Option.{option_map_or};
ghost use Rattle.std.specs.Prelude.{◌≡◌, ◌≤◌, ◌<◌, ◌+◌, ◌++◌, [], ◌∷◌, false, IfErr, IfOk, IfSome, OnErr, OnOk, Some, flat_map, get_or, length, map, nat_le, option_map, true};
ghost use Rattle.std.specs.VecDeque.{deque_capacity, deque_len};
ghost use Rattle.channel_model.specs.Lawful.{first, least};
ghost use Rattle.query_machine.specs.Legs.{attempt_from};
ghost use Rattle.channel_table.specs.Apart.{IsApart};
ghost use Rattle.channel_table.specs.Arriving.{Finds};
ghost use Rattle.channel_table.specs.Ends.{EndsRow};
ghost use Rattle.channel_table.specs.Linked.{HasOneLink};
ghost use Rattle.channel_table.specs.Listed.{key_of};
ghost use Rattle.channel_table.specs.Rows.{ended_with, flying_in, number_of, lookups, row_over, waiting_in};
ghost use Rattle.channel_table.specs.Lookups.{is_flying};
ghost use Rattle.channel_table.specs.Soonest.{IsSoonest, dues};
ghost use Rattle.channel_table.specs.Starting.{BeginsRow, FindsIdle, IsFree, WaitsAt, row_has_id, row_links};
ghost use Rattle.channel_table.specs.Strays.{IsNumbered, IsOnlyWith, id_of};

mod new_list;
mod over_link;

use super::counting::Tally;
use super::ending::complete_all;
use super::finding::{find_row, first_idle, key_of, leave_waiting, list_all, list_staying};
use super::flown::{Flown, forget_all, key_of_lookup};
use super::found::end_found;
use super::landing::{Landing, id_of, row_landing};
use super::linked::add_attempt;
use super::marking::are_few;
use super::seeking::{Soonest, find_soonest, lookup_due};
use super::starting::{Idle, begin, find_idle};
use crate::concerned::Concerned;
use crate::held::{Held, row_at};
use crate::row::Row;
use chan_types::{Answer, Bytes, NoMemory, Status, Ticket, Token};
use channel_model::Judged;
use leg_index::{Links, Waiting};
use resolv_options::{Flags, Options};
use std::alloc::Global;
use std::collections::VecDeque;
use std::marker::Model;

/// The pending requests, by number, with what finds their legs. Contracts see their list.
#[derive(Drop)]
pub struct Rows<T: Token> {
    list: VecDeque<Held<T>>,
    /// The requests of which a leg waits, by their numbers. One of which none waits any longer stays among them until it
    /// comes first.
    waiting: Waiting,
    /// What finds the attempts in flight.
    flown: Flown,
    /// How many attempts are in flight on each link.
    links: Links,
    /// Some of which a leg waits may not be among these: many legs may come back at once where no memory may be taken.
    unlisted: bool,
    /// How many legs wait, how many attempts are in flight, and how many legs have a server that their next attempt has
    /// to go to.
    tally: Tally,
}

impl<T: Token> Model for Rows<T> {
    ghost use Rattle.std.specs.Prelude.{List};
    ghost use Rattle.channel_table.specs.declared.row.Row.{Row};

    ghost Value = { List (Row T) };

    ghost view = { λ rows. rows.list.items };

    ghost use Rattle.channel_table.specs.Indexed.{IsIndexed};

    ghost invariant = { IsIndexed };
}

impl<T: Token> Rows<T> {
    /// No request.
    pub fn make(alloc: Global) -> Result<Rows<T>, NoMemory>
        ensures { IfOk result (λ rows. rows ≡ []) }
    {
        Ok(Rows {
            list: VecDeque::new(alloc),
            waiting: Waiting::make(alloc),
            flown: Flown::make(alloc)?,
            links: Links::make(alloc),
            unlisted: false,
            tally: Tally::none(),
        })
    }

    /// How many requests there are.
    pub fn len(&self) -> usize
        ensures { result ≡ length self.now }
    {
        self.list.len()
    }

    /// The request at this index.
    pub fn row(&self, index: usize) -> &Row<T>
        requires { index < length self.now }
        ensures { result.now ≡ get_or self.now index result.now }
    {
        row_at(&self.list, index)
    }

    /// Puts a request behind the others, or hands it back where there is no memory.
    #[inline(always)]
    pub fn push(&mut self, row: Row<T>) -> Result<(), Row<T>>
        requires newer { AllByRecursion (λ n. n < row.number) (map number_of self.old) }
        requires idle { AllByRecursion (λ lookup. is_flying lookup ≡ false) (lookups row) }
        ensures ok { OnOk result (self.new ≡ self.old ++ row ∷ []) }
        ensures err { OnErr result (self.new ≡ self.old) }
        ensures back { IfErr result (λ given. given ≡ row) }
    {
        let number = row.number;
        let more = Tally::of_row(&row);
        let held = Held::of(*self.list.allocator(), row)?;
        match room_for_row(&mut self.list, &mut self.waiting, number) {
            Ok(()) => {
                self.list.push_back_reserved(held);
                self.tally = self.tally.moved(Tally::none(), more);
                Ok(())
            }
            Err(NoMemory) => Err(held.into_row()),
        }
    }

    /// The first lookup that waits.
    #[inline(always)]
    pub fn find_idle(&mut self) -> Option<Idle>
        ensures found { FindsIdle self.old result }
        ensures same { self.new ≡ self.old }
    {
        // where no identifier is free no attempt begins, and no memory is taken for one
        if self.unlisted
            && self.free_id(0).is_some()
            && list_all(&self.list, &mut self.waiting).is_ok()
        {
            self.unlisted = false;
        }
        if self.unlisted {
            return find_idle(&self.list);
        }
        first_idle(&self.list, &mut self.waiting)
    }

    /// The first identifier from the word upwards that no attempt has.
    #[inline(always)]
    pub fn free_id(&self, word: u16) -> Option<u16>
        ensures { IsFree self.now word result }
    {
        self.flown.flights.first_free(word)
    }

    /// A link over TCP to the server on which an attempt is in flight.
    pub fn tcp_link(&self, server: u32) -> Option<u64>
        requires { HasOneLink server self.now }
        ensures { result ≡ first (flat_map (row_links server) self.now) }
    {
        self.links.over_tcp(server)
    }

    /// Begins an attempt of this lookup of the row at this index, which is given so long.
    #[inline(always)]
    pub fn begin(
        &mut self,
        index: usize,
        is_second: bool,
        server: u32,
        link: u64,
        id: u16,
        mix: Option<u16>,
        at: u64,
        wait: u64,
    ) -> Result<(), NoMemory>
        requires inside { index < length self.old }
        requires waits { WaitsAt index is_second self.old }
        requires apart { IsApart index is_second self.old }
        requires free { list_any (row_has_id id) self.old ≡ false }
        ensures begins { OnOk result (BeginsRow (attempt_from server link id mix at wait) index is_second
            self.old self.new) }
        ensures err { OnErr result (self.new ≡ self.old) }
        ensures len { length self.new ≡ length self.old }
    {
        let leg = key_of_lookup(row_at(&self.list, index).lookup(is_second));
        let due = at.saturating_add(wait);
        add_attempt(&mut self.flown, &mut self.links, leg, server, link, id, due)?;
        begin(
            &mut self.list,
            index,
            is_second,
            server,
            link,
            id,
            mix,
            at,
            wait,
        );
        leave_waiting(&self.list, index, &mut self.waiting);
        self.tally = self.tally.begun();
        Ok(())
    }

    /// The lookup whose attempt the message from this server over this link answers: one of the only request that has
    /// an attempt with the message's identifier.
    #[inline(always)]
    pub fn find_landing(
        &self,
        alloc: Global,
        flags: Flags,
        server: u32,
        link: u64,
        bytes: &[u8],
    ) -> Result<Option<Landing>, NoMemory>
        requires { AllByRecursion IsNumbered self.now }
        ensures { IfOk result (Finds flags server link bytes.now self.now) }
    {
        match self.index_by_id(bytes) {
            Some(index) => row_landing(
                alloc,
                row_at(&self.list, index),
                index,
                flags,
                server,
                link,
                bytes,
            ),
            None => Ok(None),
        }
    }

    /// The index of the only request that may have an attempt with the message's identifier.
    fn index_by_id(&self, bytes: &[u8]) -> Option<usize>
        requires { AllByRecursion IsNumbered self.now }
        ensures { IsOnlyWith (id_of bytes.now) self.now result }
    {
        match id_of(bytes) {
            Some(id) => self.index_with(id),
            None => None,
        }
    }

    /// The index of the only request that may have an attempt with this identifier.
    fn index_with(&self, id: u16) -> Option<usize>
        requires { AllByRecursion IsNumbered self.now }
        ensures { IsOnlyWith (Some id) self.now result }
    {
        match self.flown.flights.leg(id) {
            Some(leg) => find_row(&self.list, leg.number),
            None => None,
        }
    }

    /// When the attempt is due that is due first.
    pub fn first_due(&self) -> Option<u64>
        ensures { result ≡ option_map (λ due. due.at) (least (dues self.now)) }
    {
        match self.flown.deadlines.first_due() {
            Some((_, due)) => Some(due),
            None => None,
        }
    }

    /// Whether an attempt is due at this moment.
    pub fn is_due(&self, at: u64) -> bool
        ensures { result ≡ option_map_or (λ due. nat_le due.at at) (least (dues self.now)) false }
    {
        match self.first_due() {
            Some(due) => due <= at,
            None => false,
        }
    }

    /// The attempt that is due first: by its deadline, then its request, then its leg.
    pub fn find_soonest(&self) -> Option<Soonest>
        ensures { IsSoonest self.now result }
    {
        if let Some(found) = self.first_lookup() {
            return Some(found);
        }
        find_soonest(&self.list)
    }

    /// The first attempt, by the first deadline that is kept.
    fn first_lookup(&self) -> Option<Soonest>
        ensures { IfSome result (λ found. IsSoonest self.now (Some found)) }
    {
        let (leg, due) = self.flown.deadlines.first_due()?;
        let index = find_row(&self.list, leg.number)?;
        lookup_due(row_at(&self.list, index), index, leg, due)
    }

    /// Puts the attempts into the map that finds them, where many are about to be looked for out of their order.
    pub fn index_flights(&mut self)
        ensures { self.new ≡ self.old }
    {
        self.flown.flights.index_all();
    }

    /// The same where so many attempts will be looked for one by one, since they are few.
    pub fn index_few(&mut self, count: u64)
        ensures { self.new ≡ self.old }
    {
        if are_few(count, self.list.len()) {
            self.index_flights();
        }
    }

    /// Whether an attempt is in flight on this server over this link.
    pub fn any_over(&self, server: u32, link: u64) -> bool
        ensures { result ≡ list_any (row_over server link) self.now }
    {
        self.links.is_busy(server, link)
    }

    /// How many legs wait.
    pub fn waiting_count(&self) -> u64
        ensures { result ≡ sum_by waiting_in self.now }
    {
        self.tally.waiting
    }

    /// How many attempts are in flight.
    pub fn flying_count(&self) -> u64
        ensures { result ≡ sum_by flying_in self.now }
    {
        self.tally.flying
    }

    /// Ends the attempts of the row at this index that an entry concerns, which meant this and came with this reply or
    /// none, where a leg may spend so many attempts, and this is then the answer of its current candidate, if it has
    /// one.
    #[inline(always)]
    pub fn end_row(
        &mut self,
        alloc: Global,
        options: &Options,
        ready: &mut VecDeque<Ticket<T>>,
        index: usize,
        concerned: Concerned,
        judged: Judged,
        reply: Bytes,
        most: u32,
        answer: Option<Answer>,
    ) -> Result<(), NoMemory>
        requires inside { index < length self.old }
        requires room { length self.old + deque_len ready.old ≤ deque_capacity ready.old }
        ensures ends { OnOk result (EndsRow options.now.flags concerned judged reply most answer index
            self.old ready.old.items self.new ready.new.items) }
        ensures err { OnErr result ((self.new ≡ self.old) × (ready.new ≡ ready.old)) }
        ensures fewer { length self.new ≤ length self.old }
        ensures len { length self.new + deque_len ready.new ≡ length self.old + deque_len ready.old }
        ensures capacity { deque_capacity ready.new ≡ deque_capacity ready.old }
    {
        list_staying(row_at(&self.list, index), &answer, &mut self.waiting)?;
        self.tally = end_found(
            alloc,
            options,
            &mut self.list,
            &mut self.flown,
            &mut self.links,
            self.tally,
            ready,
            index,
            concerned,
            judged,
            reply,
            most,
            answer,
        );
        Ok(())
    }

    /// Completes each request with this status and without a reply. It takes no memory.
    pub fn complete_all(&mut self, alloc: Global, ready: &mut VecDeque<Ticket<T>>, status: Status)
        requires room { length self.old + deque_len ready.old ≤ deque_capacity ready.old }
        ensures none { self.new ≡ [] }
        ensures tickets { ready.new.items ≡ ready.old.items ++ map (ended_with status) self.old }
        ensures ready_len { deque_len ready.new ≡ deque_len ready.old + length self.old }
        ensures capacity { deque_capacity ready.new ≡ deque_capacity ready.old }
    {
        forget_all(&mut self.flown, &self.list);
        self.links = Links::make(alloc);
        complete_all(alloc, &mut self.list, ready, status);
        self.waiting.clear();
        self.unlisted = false;
        self.tally = Tally::none();
    }
}

/// Room for a request of this number, which is among those that wait then.
fn room_for_row<T: Token>(
    rows: &mut VecDeque<Held<T>>,
    waiting: &mut Waiting,
    number: u64,
) -> Result<(), NoMemory>
    ensures room { OnOk result (deque_len rows.new + 1 ≤ deque_capacity rows.new) }
    ensures items { rows.new.items ≡ rows.old.items }
    ensures listed { OnOk result (waiting.new ≡ set.insert waiting.old (key_of number)) }
    ensures err { OnErr result (waiting.new ≡ waiting.old) }
{
    rows.reserve(1)?;
    waiting.put(key_of(number))?;
    Ok(())
}
