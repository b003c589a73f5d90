//! Tickets that wait for each other.

ghost use Rattle.std.specs.Prelude.{◌≡◌, IfOk, vec_len};

use super::whole::{Setup, ran};
use delivery_pool::Spender;
use std::alloc::{AllocError, Global};
use std::collections::VecDeque;
use std::sync::Wait;
use std::sync::atomic::{AtomicBool, Ordering};
use std::test::*;
use std::thread;
use std::thread::Threads;

/// How often a flag is looked at before it is given up.
const LOOKS: u64 = 50_000_000;

/// A flag for each of two tickets.
#[derive(Drop)]
struct Gate {
    first: AtomicBool,
    second: AtomicBool,
}

/// Which of the two flags a ticket raises. It then looks for the other.
#[derive(Drop)]
enum Side {
    First,
    Second,
}

/// Raises the flag of each ticket that it spends, and then waits for the other flag.
#[derive(Drop)]
struct Meeting<'g> {
    gate: &'g Gate,
    met: u64,
}

impl<'g> Meeting<'g> {
    /// It has met nobody yet.
    fn at(gate: &'g Gate) -> Meeting<'g> {
        Meeting { gate, met: 0 }
    }
}

// what it saw is for the test to compare: no clause speaks of it
impl<'g> Spender<Side> for Meeting<'g> {
    type State = ();

    ghost state = { λ meeting. tt };

    ghost spends = { λ old ticket new. Unit {0} };

    fn spend(&mut self, ticket: Side) {
        let (own, other) = match ticket {
            Side::First => (&self.gate.first, &self.gate.second),
            Side::Second => (&self.gate.second, &self.gate.first),
        };
        own.store(true, Ordering::SeqCst);
        if is_seen(other) {
            self.met = self.met.saturating_add(1);
        }
    }
}

/// Whether the flag is raised before it is given up.
fn is_seen(flag: &AtomicBool) -> bool {
    for _ in 0..LOOKS {
        if flag.load(Ordering::SeqCst) {
            return true;
        }
        thread::yield_now();
    }
    false
}

/// Two tickets, one for each flag, and two workers.
fn setup<'g>(alloc: Global, gate: &'g Gate) -> Result<Setup<Side, Meeting<'g>>, AllocError>
    ensures { IfOk result (λ setup. (vec_len setup.crew ≡ 2) × (setup.room ≡ 64)) }
{
    let mut tickets = VecDeque::new(alloc);
    tickets.push_back(Side::First)?;
    tickets.push_back(Side::Second)?;
    let mut crew = Vec::new(alloc);
    crew.push(Meeting::at(gate))?;
    crew.push(Meeting::at(gate))?;
    Ok(Setup {
        room: 64,
        tickets,
        crew,
        sender: Meeting::at(gate),
    })
}

/// Whether in a round each of both workers met the other, and the sender nobody.
fn both_meet<R: Threads + Wait + Sync>(
    rt: &R,
    alloc: Global,
    gate: &Gate,
) -> Result<bool, AllocError> {
    let ended = ran(rt, alloc, setup(alloc, gate)?)?;
    let mut is_so = ended.crew.len() == 2 && ended.sender.met == 0;
    for worker in &ended.crew {
        is_so = is_so && worker.spender.met == 1;
    }
    Ok(is_so)
}

// Two tickets wait for each other: spent one after the other, the first would not see the second's flag.
#[test]
fn two_workers_spend_beside_each_other(rt: HostRuntime) -> Result<(), Fail> {
    let gate = Gate {
        first: AtomicBool::new(false),
        second: AtomicBool::new(false),
    };
    assert!(rt; both_meet(&rt, rt.alloc(), &gate)?);
    Ok(())
}
