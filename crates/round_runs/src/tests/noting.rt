//! Bodies that note what they are told, and wait for each other.

use super::runs::{ended, has_called};
use chan_types::{Addr, Answer, Bytes, Family, NoMemory, Refusal, Script, Spec};
use completion_ticket::{Callback, Done, Hand, Scripted};
use std::alloc::Global;
use std::sync::Wait;
use std::sync::atomic::{AtomicU64, Ordering};
use std::test::*;
use std::thread;
use std::thread::Threads;
use worker_rounds::Idle;

/// How often a note is looked at before it is given up.
const LOOKS: u64 = 50_000_000;

/// How often a body was told, and of the last answer its number and its first address of IPv4; and how often it saw, while it
/// was told, that the other one was too.
#[derive(Drop)]
struct Note {
    calls: AtomicU64,
    number: AtomicU64,
    first: AtomicU64,
    met: AtomicU64,
}

impl Note {
    /// Nothing was told yet.
    fn blank() -> Note {
        Note {
            calls: AtomicU64::new(0),
            number: AtomicU64::new(0),
            first: AtomicU64::new(0),
            met: AtomicU64::new(0),
        }
    }

    /// Notes this answer, and then whether the other one's body is told before it is given up.
    fn take_in(&self, answer: &Answer, other: &Note) {
        self.calls.fetch_add(1, Ordering::SeqCst);
        self.number.store(answer.number, Ordering::SeqCst);
        if let Some(Addr::V4(bits)) = answer.addresses.as_slice().first() {
            self.first.store(u64::from(*bits), Ordering::SeqCst);
        }
        if other.is_told() {
            self.met.fetch_add(1, Ordering::SeqCst);
        }
    }

    /// Whether its body is told before it is given up.
    fn is_told(&self) -> bool {
        for _ in 0..LOOKS {
            if self.calls.load(Ordering::SeqCst) != 0 {
                return true;
            }
            thread::yield_now();
        }
        false
    }

    /// Whether its body was told once, the answer of the request with this digit, and met the other: they are numbered from 1.
    fn says(&self, digit: u64) -> bool {
        self.calls.load(Ordering::SeqCst) == 1
            && self.number.load(Ordering::SeqCst) == digit.wrapping_add(1)
            && self.first.load(Ordering::SeqCst) == 0xc000_0200_u64.wrapping_add(digit)
            && self.met.load(Ordering::SeqCst) == 1
    }
}

/// A body that notes what it is told, and then waits until another one's is told.
#[derive(Drop)]
struct Noting<'n> {
    inner: Scripted,
    own: &'n Note,
    other: &'n Note,
}

impl<'n> Done for Noting<'n> {
    ghost name = { λ noting. noting.inner.plan.tag };

    ghost plan = { λ noting. noting.inner.plan };

    ghost told = { λ noting. noting.inner.told };

    ghost refusal = { λ noting. noting.inner.refusal };

    fn script(&self) -> &Script {
        self.inner.script()
    }

    fn called(&self) -> Option<u64> {
        self.inner.called()
    }

    fn done(&mut self, answer: &Answer, hand: &mut Hand) {
        self.own.take_in(answer, self.other);
        self.inner.done(answer, hand);
    }

    fn refused(&mut self, why: Refusal) {
        self.inner.refused(why);
    }
}

/// The address 192.0.2.0 to 192.0.2.9 with this last digit, which is answered at once.
fn literal(alloc: Global, digit: u8) -> Result<Spec, NoMemory> {
    let mut host = Vec::from_slice(alloc, b"192.0.2.")?;
    host.push(b'0'.wrapping_add(digit))?;
    Ok(Spec::Address {
        host: Bytes::from_vec(host),
        family: Family::Any,
        nosort: false,
    })
}

/// Ten requests, in order by their digit, whose bodies write into these notes, each of which waits for the body at its place
/// in the other list.
fn asking<'n>(
    alloc: Global,
    notes: &'n [Note],
    others: &[usize],
) -> Result<Vec<(Spec, Callback<Noting<'n>>)>, NoMemory> {
    let mut requests = Vec::new(alloc);
    for (digit, own) in notes.iter().enumerate() {
        let other = others
            .get(digit)
            .and_then(|place| notes.get(*place))
            .unwrap_or(own);
        let body = Noting {
            inner: Scripted::new(Script::blank(alloc, 0)),
            own,
            other,
        };
        requests.push((literal(alloc, (digit % 10) as u8)?, Callback::of(body)))?;
    }
    Ok(requests)
}

/// Whether ten bodies are told once, each its own answer, and each meets the other that it waits for.
fn has_noted<R: Threads + Wait + Sync>(
    rt: &R,
    alloc: Global,
    workers: u64,
    room: u64,
    others: &[usize],
) -> Result<bool, Fail> {
    let mut notes = Vec::new(alloc);
    for _ in 0..10u64 {
        notes.push(Note::blank())?;
    }
    let requests = asking(alloc, notes.as_slice(), others)?;
    let whole = ended(rt, alloc, workers, room, requests, Idle)?;
    let each = notes
        .iter()
        .enumerate()
        .all(|(digit, note)| note.says(digit as u64));
    Ok(each && has_called(alloc, &whole.finished, 10, &[0])?)
}

// Each body is told once, with its own request's answer, whichever worker calls it.
#[test]
fn each_body_is_told_its_answer(rt: HostRuntime) -> Result<(), Fail> {
    assert!(rt; has_noted(&rt, rt.alloc(), 4, 3, &[])?);
    Ok(())
}

// Two by two, callbacks wait for each other: called one after the other, the first would never see that the second was told.
#[test]
fn two_workers_call_beside_each_other(rt: HostRuntime) -> Result<(), Fail> {
    let pairs = [1, 0, 3, 2, 5, 4, 7, 6, 9, 8];
    assert!(rt; has_noted(&rt, rt.alloc(), 2, 64, &pairs)?);
    Ok(())
}
