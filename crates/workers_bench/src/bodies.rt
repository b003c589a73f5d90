//! Bodies of callbacks that work.

ghost use Rattle.std.specs.Prelude.{◌≡◌, All, IfOk, None};

use crate::working::Work;
use chan_types::{Answer, Refusal, Script};
use completion_ticket::{Done, Hand, Scripted};
use item_list::NoMemory;
use std::alloc::Global;

/// A body that works when it is told, and commands nothing.
#[derive(Drop)]
pub struct Working<'n> {
    inner: Scripted,
    work: Work<'n>,
}

impl<'n> Done for Working<'n> {
    ghost name = { λ working. working.inner.plan.tag };

    ghost plan = { λ working. working.inner.plan };

    ghost told = { λ working. working.inner.told };

    ghost refusal = { λ working. working.inner.refusal };

    fn script(&self) -> &Script {
        self.inner.script()
    }

    fn called(&self) -> Option<u64> {
        self.inner.called()
    }

    fn done(&mut self, answer: &Answer, hand: &mut Hand) {
        self.work.make(answer.number);
        self.inner.done(answer, hand);
    }

    fn refused(&mut self, why: Refusal) {
        self.inner.refused(why);
    }
}

/// So many bodies. None was told anything.
pub fn bodies_for<'n>(
    alloc: Global,
    count: u64,
    work: Work<'n>,
) -> Result<Vec<Working<'n>>, NoMemory>
    ensures fresh { IfOk result (λ bodies. All (λ body. body.inner.told ≡ None) bodies.items) }
{
    let mut bodies = Vec::new(alloc);
    for tag in 0..count {
        bodies.push(Working {
            inner: Scripted::new(Script::blank(alloc, tag)),
            work,
        })?;
    }
    Ok(bodies)
}
