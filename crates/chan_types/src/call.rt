//! The record of a call: one answer, in a node that is made beforehand and needs no memory later.

ghost use Rattle.std.specs.Prelude.{◌≡◌, [], ◌∷◌, IfOk};
ghost use Rattle.chan_types.specs.Runs.{unfilled};

use crate::answer::Answer;
use crate::runs::Runs;
use crate::status::Status;
use dns_message::{Bytes, Name, NoMemory};
use net_addr::AddrList;
use std::alloc::Global;
use std::marker::Model;

/// The record of a call: the answer that a callback was told. Contracts see it as that answer.
#[derive(Drop)]
pub struct Call {
    /// The answer, in a run of its own: a list of calls takes over its node.
    runs: Runs,
}

impl Model for Call {
    ghost use Rattle.std.specs.Prelude.{◌≡◌, length};
    ghost use Rattle.chan_types.specs.declared.answer.Answer.{Answer};
    ghost use Rattle.chan_types.specs.Runs.{only};

    ghost Value = { Answer };

    ghost view = { λ call. only call.runs };

    ghost invariant = { λ call. length call.runs ≡ 1 };
}

impl Call {
    /// A record with room for an answer. Until it is filled its answer has number 0, status Success, empty fields and
    /// the root.
    pub fn make(alloc: Global) -> Result<Call, NoMemory>
        ensures { IfOk result (λ call. call ≡ unfilled) }
    {
        let answer = Answer {
            number: 0,
            status: Status::Success,
            message: Bytes::new(alloc),
            addresses: AddrList::new(alloc),
            canonical: Name::root(alloc),
        };
        Ok(Call {
            runs: Runs::one(alloc, answer)?,
        })
    }

    /// Puts this answer in the place of the one before. It takes no memory.
    pub fn fill(&mut self, answer: Answer)
        ensures { self.new ≡ answer }
    {
        self.runs.fill(answer);
    }

    /// The answer.
    pub fn answer(&self) -> &Answer
        ensures { result.now ≡ self.now }
    {
        let (answer, _, _) = self.runs.first().unwrap();
        answer
    }

    /// The answer as one run.
    pub(crate) fn into_runs(self) -> Runs
        ensures { result ≡ self ∷ [] }
    {
        self.runs
    }
}
