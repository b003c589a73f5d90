//! Bodies that note what they are told, and wait for each other.

ghost use Rattle.std.specs.Prelude.{◌≡◌, All, IfOk, None};

use super::playing::{Played, RUN, Scenario, network_of, play};
use chan_types::{Addr, Answer, Refusal, Script};
use completion_ticket::{Done, Hand, Scripted};
use item_list::NoMemory;
use std::alloc::Global;
use std::sync::Wait;
use std::sync::atomic::{AtomicU64, Ordering};
use std::test::*;
use std::thread;
use std::thread::Threads;

/// How often a note is looked at before it is given up.
const LOOKS: u64 = 50_000_000;

/// How often a body was told, and of the last answer its number, its status by code, and its first address of IPv4; and how
/// often it saw, while it was told, that the other one was too.
#[derive(Drop)]
struct Note {
    calls: AtomicU64,
    number: AtomicU64,
    code: AtomicU64,
    first: AtomicU64,
    met: AtomicU64,
}

impl Note {
    /// Nothing was told yet.
    fn blank() -> Note {
        Note {
            calls: AtomicU64::new(0),
            number: AtomicU64::new(0),
            code: AtomicU64::new(0),
            first: AtomicU64::new(0),
            met: AtomicU64::new(0),
        }
    }

    /// Notes this answer, and then whether the other one's body is told before it is given up.
    fn take_in(&self, answer: &Answer, other: &Note) {
        self.calls.fetch_add(1, Ordering::SeqCst);
        self.number.store(answer.number, Ordering::SeqCst);
        self.code
            .store(u64::from(answer.status.code()), Ordering::SeqCst);
        if let Some(Addr::V4(bits)) = answer.addresses.as_slice().first() {
            self.first.store(u64::from(*bits), Ordering::SeqCst);
        }
        if other.is_told() {
            self.met.fetch_add(1, Ordering::SeqCst);
        }
    }

    /// Whether its body is told before it is given up.
    fn is_told(&self) -> bool {
        for _ in 0..LOOKS {
            if self.calls.load(Ordering::SeqCst) != 0 {
                return true;
            }
            thread::yield_now();
        }
        false
    }

    /// What it says, in its order.
    fn said(&self) -> [u64; 5] {
        [
            self.calls.load(Ordering::SeqCst),
            self.number.load(Ordering::SeqCst),
            self.code.load(Ordering::SeqCst),
            self.first.load(Ordering::SeqCst),
            self.met.load(Ordering::SeqCst),
        ]
    }
}

/// A body that notes what it is told, and then waits until another one's is told.
#[derive(Drop)]
struct Noting<'n> {
    inner: Scripted,
    own: &'n Note,
    other: &'n Note,
}

impl<'n> Done for Noting<'n> {
    ghost name = { λ noting. noting.inner.plan.tag };

    ghost plan = { λ noting. noting.inner.plan };

    ghost told = { λ noting. noting.inner.told };

    ghost refusal = { λ noting. noting.inner.refusal };

    fn script(&self) -> &Script {
        self.inner.script()
    }

    fn called(&self) -> Option<u64> {
        self.inner.called()
    }

    fn done(&mut self, answer: &Answer, hand: &mut Hand) {
        self.own.take_in(answer, self.other);
        self.inner.done(answer, hand);
    }

    fn refused(&mut self, why: Refusal) {
        self.inner.refused(why);
    }
}

/// Two bodies that write into these notes, each of which waits for the other, or for itself.
fn bodies<'n>(
    alloc: Global,
    first: &'n Note,
    second: &'n Note,
    meet: bool,
) -> Result<Vec<Noting<'n>>, NoMemory>
    ensures { IfOk result (λ bodies. All (λ body. body.inner.told ≡ None) bodies.items) }
{
    let (first_other, second_other) = if meet {
        (second, first)
    } else {
        (first, second)
    };
    let mut bodies = Vec::new(alloc);
    bodies.push(Noting {
        inner: Scripted::new(Script::blank(alloc, 0)),
        own: first,
        other: first_other,
    })?;
    bodies.push(Noting {
        inner: Scripted::new(Script::blank(alloc, 1)),
        own: second,
        other: second_other,
    })?;
    Ok(bodies)
}

/// What two bodies of a run of two workers note.
fn noted<R: Threads + Wait + Sync>(
    rt: &R,
    alloc: Global,
    line: &str,
    meet: bool,
) -> Result<[[u64; 5]; 2], Fail> {
    let (first, second) = (Note::blank(), Note::blank());
    let scenario = Scenario { line, ..RUN };
    let world = network_of(alloc, &scenario)?;
    let bodies = bodies(alloc, &first, &second, meet)?;
    let Played { .. } = play(rt, alloc, &scenario, "", 2, bodies, world)?;
    Ok([first.said(), second.said()])
}

// Each body is told once, with its own request's answer, whichever worker calls it: an address, and a name that is never asked
// (RFC 7686, section 2).
#[test]
fn each_body_is_told_its_answer(rt: HostRuntime) -> Result<(), Fail> {
    let said = noted(&rt, rt.alloc(), "192.0.2.1 x.onion", false)?;
    assert!(rt; said == [[1, 1, 0, 0xc000_0201, 1], [1, 2, 4, 0, 1]]);
    Ok(())
}

// Two callbacks wait for each other: called one after the other, the first would never see that the second was told.
#[test]
fn two_workers_call_beside_each_other(rt: HostRuntime) -> Result<(), Fail> {
    let said = noted(&rt, rt.alloc(), "192.0.2.1 192.0.2.2", true)?;
    assert!(rt; said == [[1, 1, 0, 0xc000_0201, 1], [1, 2, 0, 0xc000_0202, 1]]);
    Ok(())
}
