//! The calls that were made: a list of answers that takes no memory, since each record of a call brings its node.

ghost use Rattle.std.specs.Prelude.{◌≡◌, [], ◌∷◌, ◌++◌};
ghost use Rattle.std.specs.Iterator.{YieldsFirstRef, item_count};

use crate::answer::Answer;
use crate::call::Call;
use crate::runs::{Runs, Told};
use std::collections::linked_list::Iter;
use std::marker::Model;

/// The answers of the calls that were made, in order. Contracts see it as the list of them.
#[derive(Drop)]
pub struct Calls {
    /// None where there was no call.
    runs: Option<Runs>,
}

impl Model for Calls {
    ghost use Rattle.std.specs.Prelude.{List, [], unwrap_or};
    ghost use Rattle.chan_types.specs.declared.answer.Answer.{Answer};

    ghost Value = { List Answer };

    ghost view = { λ calls. unwrap_or calls.runs [] };
}

impl Calls {
    /// No call. It takes no memory.
    pub fn new() -> Calls
        ensures { result ≡ [] }
    {
        Calls { runs: None }
    }

    /// Adds a call at the end. It takes no memory.
    pub fn add(&mut self, call: Call)
        ensures { self.new ≡ self.old ++ call ∷ [] }
    {
        self.take_over(call.into_runs());
    }

    /// Adds the other calls at the end, in their order. It takes no memory.
    pub fn append(&mut self, other: Calls)
        ensures { self.new ≡ self.old ++ other }
    {
        if let Some(runs) = other.runs {
            self.take_over(runs);
        }
    }

    /// Adds these runs at the end.
    fn take_over(&mut self, more: Runs)
        ensures { self.new ≡ self.old ++ more }
    {
        match &mut self.runs {
            Some(runs) => runs.append(more),
            None => self.runs = Some(more),
        }
    }

    /// The answers, in order.
    pub fn iter(&self) -> CallsIter<'_>
        ensures { result ≡ self.now }
    {
        CallsIter {
            begun: None,
            rest: self.runs.as_ref(),
        }
    }
}

/// The answers of calls, in order. Contracts see it as the list of those that are left.
#[derive(Drop)]
pub struct CallsIter<'a> {
    /// What is left of a list that was begun.
    begun: Option<Iter<'a, Told>>,
    /// The runs behind it.
    rest: Option<&'a Runs>,
}

impl<'a> Model for CallsIter<'a> {
    ghost use Rattle.std.specs.Prelude.{List, ◌++◌, [], unwrap_or};
    ghost use Rattle.std.specs.Option.{option_copied};
    ghost use Rattle.chan_types.specs.declared.answer.Answer.{Answer};
    ghost use Rattle.chan_types.specs.Runs.{answers_in};

    ghost Value = { List Answer };

    ghost view = { λ iter. answers_in (unwrap_or iter.begun []) ++ unwrap_or (option_copied iter.rest) [] };
}

impl<'a> Iterator for CallsIter<'a> {
    type Item = &'a Answer;

    ghost next_gives = { YieldsFirstRef (λ left. left) };

    ghost remaining = { item_count (λ left. left) };

    fn next(&mut self) -> Option<&'a Answer> {
        if let Some(begun) = &mut self.begun
            && let Some(told) = begun.next()
        {
            return Some(&told.answer);
        }
        let (answer, begun, rest) = self.rest?.first()?;
        self.begun = Some(begun);
        self.rest = Some(rest);
        Some(answer)
    }
}
