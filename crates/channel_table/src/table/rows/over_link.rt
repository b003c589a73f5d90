//! The pending requests where attempts over a link fail.

ghost use Rattle.std.specs.List.{AllByRecursion, sum_by};
ghost use Rattle.std.specs.Prelude.{◌≡◌, ◌≤◌, ◌+◌, false, IfOk, OnErr, OnOk, length, true};
ghost use Rattle.std.specs.VecDeque.{deque_capacity, deque_len};
ghost use Rattle.channel_table.specs.Faulting.{FailsOver, IsUnanswered};
ghost use Rattle.channel_table.specs.Rows.{over_in};

use super::Rows;
use crate::table::counting::Tally;
use crate::table::failing::{answers_over, fail_all};
use crate::table::flown::forget_over;
use crate::table::linked::end_over;
use crate::table::marking::{are_few, fail_marked, indexes_over, marks_at};
use chan_types::{NoMemory, Ticket, Token};
use resolv_options::Options;
use std::alloc::Global;
use std::collections::VecDeque;

impl<T: Token> Rows<T> {
    /// Fails the attempts that went to this server over this link, where a leg may spend so many attempts, and answers
    /// how many there were: the rows that go on are kept in order, and the others get ready.
    pub fn fail_all(
        &mut self,
        alloc: Global,
        options: &Options,
        ready: &mut VecDeque<Ticket<T>>,
        server: u32,
        link: u64,
        most: u32,
    ) -> Result<u64, NoMemory>
        requires unanswered { AllByRecursion (IsUnanswered options.now) self.old }
        requires room { length self.old + deque_len ready.old ≤ deque_capacity ready.old }
        ensures fails { OnOk result (FailsOver options.now server link most self.old ready.old.items
            self.new ready.new.items) }
        ensures count { IfOk result (λ count. count ≡ sum_by (over_in server link) self.old) }
        ensures err { OnErr result ((self.new ≡ self.old) × (ready.new ≡ ready.old)) }
        ensures fewer { length self.new ≤ length self.old }
        ensures len { length self.new + deque_len ready.new ≡ length self.old + deque_len ready.old }
        ensures capacity { deque_capacity ready.new ≡ deque_capacity ready.old }
    {
        let count = self.links.count(server, link);
        if count == 0 {
            return Ok(0);
        }
        self.index_few(count);
        if self.fail_few(alloc, options, ready, server, link, most, count)? {
            return Ok(count);
        }
        self.fail_each(alloc, options, ready, server, link, most)?;
        Ok(count)
    }

    /// The same where so many such attempts are few, and the rows that have them are found without a look at others.
    /// Answers whether that was so: else nothing changed.
    fn fail_few(
        &mut self,
        alloc: Global,
        options: &Options,
        ready: &mut VecDeque<Ticket<T>>,
        server: u32,
        link: u64,
        most: u32,
        count: u64,
    ) -> Result<bool, NoMemory>
        requires unanswered { AllByRecursion (IsUnanswered options.now) self.old }
        requires room { length self.old + deque_len ready.old ≤ deque_capacity ready.old }
        requires count { count ≡ sum_by (over_in server link) self.old }
        ensures fails { IfOk result (λ found. found ≡ true → FailsOver options.now server link most
            self.old ready.old.items self.new ready.new.items) }
        ensures not { IfOk result (λ found. found ≡ false
            → (self.new ≡ self.old) × (ready.new ≡ ready.old)) }
        ensures err { OnErr result ((self.new ≡ self.old) × (ready.new ≡ ready.old)) }
        ensures fewer { length self.new ≤ length self.old }
        ensures len { length self.new + deque_len ready.new ≡ length self.old + deque_len ready.old }
        ensures capacity { deque_capacity ready.new ≡ deque_capacity ready.old }
    {
        if !are_few(count, self.list.len()) {
            return Ok(false);
        }
        let indexes = indexes_over(
            alloc,
            &self.list,
            &self.flown.flights,
            &self.links,
            server,
            link,
        )?;
        let found = marks_at(
            alloc,
            options,
            &self.list,
            &mut self.waiting,
            indexes.as_slice(),
            server,
            link,
            most,
        )?;
        if found.count != count {
            return Ok(false);
        }
        fail_marked(
            alloc,
            options,
            &mut self.list,
            &mut self.flown,
            &mut self.links,
            &mut self.tally,
            found.marks,
            ready,
            server,
            link,
            most,
        );
        Ok(true)
    }

    /// The same by a look at each row.
    fn fail_each(
        &mut self,
        alloc: Global,
        options: &Options,
        ready: &mut VecDeque<Ticket<T>>,
        server: u32,
        link: u64,
        most: u32,
    ) -> Result<(), NoMemory>
        requires room { length self.old + deque_len ready.old ≤ deque_capacity ready.old }
        ensures fails { OnOk result (FailsOver options.now server link most self.old ready.old.items
            self.new ready.new.items) }
        ensures err { OnErr result ((self.new ≡ self.old) × (ready.new ≡ ready.old)) }
        ensures fewer { length self.new ≤ length self.old }
        ensures len { length self.new + deque_len ready.new ≡ length self.old + deque_len ready.old }
        ensures capacity { deque_capacity ready.new ≡ deque_capacity ready.old }
    {
        let answers = answers_over(alloc, options, &self.list, server, link, most)?;
        let kept = VecDeque::with_capacity(alloc, self.list.len())?;
        self.unlisted = true;
        forget_over(
            &mut self.flown,
            &self.list,
            answers.as_slice(),
            server,
            link,
        );
        end_over(
            &mut self.links,
            &self.list,
            answers.as_slice(),
            server,
            link,
        );
        fail_all(
            alloc,
            options,
            &mut self.list,
            kept,
            answers,
            ready,
            server,
            link,
            most,
        );
        self.tally = Tally::of_rows(&self.list);
        Ok(())
    }
}
