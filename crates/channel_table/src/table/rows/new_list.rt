//! The pending requests where servers leave the list.

ghost use Rattle.std.specs.List.{sum_by};
ghost use Rattle.std.specs.Prelude.{◌≡◌, ◌<◌, length, map, true};
ghost use Rattle.channel_table.specs.Leaving.{left_in, row_set};

use super::Rows;
use crate::held::row_at;
use crate::table::counting::Tally;
use crate::table::finding::find_row;
use crate::table::flown::forget_left;
use crate::table::leaving::{count_left, ids_left, list_number, set_found, set_rows};
use crate::table::linked::end_left;
use crate::table::marking::are_few;
use chan_types::{ServerKey, Token};

impl<T: Token> Rows<T> {
    /// How many attempts are in flight on servers that aren't in this list.
    pub fn count_left(&self, list: &[ServerKey]) -> u64
        ensures { result ≡ sum_by (left_in list.now) self.now }
    {
        count_left(self.links.uses(), list)
    }

    /// Makes the list that of the rows: attempts on servers that aren't in it end, and no such server is forced.
    pub fn set_list(&mut self, list: &[ServerKey])
        ensures rows { self.new ≡ map (row_set list.now) self.old }
        ensures len { length self.new ≡ length self.old }
    {
        self.set_few(list);
        if !self.is_set(list) {
            self.set_each(list);
        }
    }

    /// Makes it that of the requests with attempts on servers that aren't in it, where these attempts are few and the
    /// links tell which they are. Whether those requests are all is told by `is_set`.
    fn set_few(&mut self, list: &[ServerKey])
        ensures rows { map (row_set list.now) self.new ≡ map (row_set list.now) self.old }
        ensures len { length self.new ≡ length self.old }
    {
        let count = self.count_left(list);
        if count == 0 || !are_few(count, self.list.len()) {
            return;
        }
        let Ok(ids) = ids_left(*self.list.allocator(), &self.links, list) else {
            return;
        };
        self.index_flights();
        for place in 0..ids.len() {
            self.set_with(ids[place], list);
        }
    }

    /// Makes it that of the request that has an attempt with this identifier, if there is one.
    fn set_with(&mut self, id: u16, list: &[ServerKey])
        ensures rows { map (row_set list.now) self.new ≡ map (row_set list.now) self.old }
        ensures len { length self.new ≡ length self.old }
    {
        if let Some(leg) = self.flown.flights.leg(id)
            && let Some(index) = find_row(&self.list, leg.number)
        {
            self.set_at(index, list);
        }
    }

    /// Makes it that of the request at this index, which is then among those that wait.
    fn set_at(&mut self, index: usize, list: &[ServerKey])
        requires { index < length self.old }
        ensures rows { map (row_set list.now) self.new ≡ map (row_set list.now) self.old }
        ensures len { length self.new ≡ length self.old }
    {
        let number = row_at(&self.list, index).number;
        self.unlisted |= list_number(&mut self.waiting, number);
        self.tally = set_found(
            &mut self.list,
            &mut self.flown,
            &mut self.links,
            self.tally,
            index,
            list,
        );
    }

    /// The list is that of the rows: no attempt is on a server that isn't in it, and no server is forced.
    fn is_set(&self, list: &[ServerKey]) -> bool
        ensures { result ≡ true → map (row_set list.now) self.now ≡ self.now }
    {
        self.tally.forced == 0 && self.count_left(list) == 0
    }

    /// Makes it that of the rows by a look at each of them. It takes no memory.
    fn set_each(&mut self, list: &[ServerKey])
        ensures rows { self.new ≡ map (row_set list.now) self.old }
        ensures len { length self.new ≡ length self.old }
    {
        self.unlisted = true;
        forget_left(&mut self.flown, &self.list, list);
        end_left(&mut self.links, &self.list, list);
        set_rows(&mut self.list, list);
        self.tally = Tally::of_rows(&self.list);
    }
}
