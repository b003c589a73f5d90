//! Runs of answers: linked lists, of which the first node may have a further run behind it. One list can't say that it
//! takes ever more answers, since it holds fewer than 2^63; runs behind runs can. In practice there is one.

ghost use Rattle.std.specs.Prelude.{◌≡◌, [], ◌∷◌, ◌++◌, length, IfOk, MatchOption};
ghost use Rattle.chan_types.specs.Runs.{answers_in};

use crate::answer::Answer;
use dns_message::NoMemory;
use std::alloc::Global;
use std::collections::LinkedList;
use std::collections::linked_list::Iter;
use std::marker::Model;
use std::mem;

/// The most answers in one list.
const LIMIT: usize = 0x7fff_ffff_ffff_ffff;

/// An answer in its node. Behind the first of a list stands the run that follows the list; behind any other, none.
#[cycle(runs)]
#[derive(Drop)]
pub(crate) struct Told {
    pub(crate) answer: Answer,
    behind: Runs,
}

/// A run of answers, and those behind it. Contracts see them as the list of the answers.
#[cycle(runs)]
#[derive(Drop)]
pub(crate) struct Runs {
    told: LinkedList<Told>,
}

impl Model for Runs {
    ghost use Rattle.std.specs.Prelude.{List, length};
    ghost use Rattle.chan_types.specs.declared.answer.Answer.{Answer};

    ghost Value = { List Answer };

    ghost use Rattle.chan_types.specs.Runs.{answers_of, AreBare};

    ghost view = { λ runs. answers_of runs.told };

    ghost invariant = { λ runs. AreBare runs.told };

    ghost size = { length };

    ghost use Rattle.chan_types.specs.RunFalls.{deep_told};

    ghost size_decreases = { λ runs h. deep_told runs.told h };
}

impl Runs {
    /// A run of one answer.
    pub(crate) fn one(alloc: Global, answer: Answer) -> Result<Runs, NoMemory>
        ensures { IfOk result (λ runs. runs ≡ answer ∷ []) }
    {
        let mut told = LinkedList::new(alloc);
        told.push_back(Told {
            answer,
            behind: Runs {
                told: LinkedList::new(alloc),
            },
        })?;
        Ok(Runs { told })
    }

    /// Puts this answer in the place of the only one. It takes no memory.
    pub(crate) fn fill(&mut self, answer: Answer)
        requires { length self.old ≡ 1 }
        ensures { self.new ≡ answer ∷ [] }
    {
        self.told.front_mut().unwrap().answer = answer;
    }

    /// Adds these runs behind the others. It takes no memory.
    pub(crate) fn append(&mut self, mut more: Runs)
        ensures { self.new ≡ self.old ++ more }
    {
        let len = self.told.len();
        let Some(first) = self.told.front_mut() else {
            *self = more;
            return;
        };
        if !first.behind.told.is_empty() || more.told.len() > LIMIT - len {
            first.behind.append(more);
            return;
        }
        if let Some(next) = more.told.front_mut() {
            mem::swap(&mut first.behind, &mut next.behind);
        }
        self.told.append(&mut more.told).unwrap();
    }

    /// The first answer, what is left of its list, and the run behind that.
    pub(crate) fn first(&self) -> Option<(&Answer, Iter<'_, Told>, &Runs)>
        ensures { MatchOption result (self.now ≡ [])
            (λ found. self.now ≡ found.0.now ∷ (answers_in found.1 ++ found.2.now)) }
    {
        let mut rest = self.told.iter();
        let first = rest.next()?;
        Some((&first.answer, rest, &first.behind))
    }
}
