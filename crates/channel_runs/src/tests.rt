//! A channel with one owner, its runner and a network in memory, and what a run of them comes to, as lines of text.

mod addresses;
mod asking;
mod both;
mod calls;
mod datagrams;
mod ending;
mod failing;
mod identifiers;
mod links;
mod making;
mod refusing;
mod searching;
mod servers;
mod sorting;
mod strays;

use calls::{Call, Request, answers_told, channel_of};
use chan_types::{Entry, Quiet};
use channel_model::Desk;
use channel_table::Alone;
use event_runner::Runner;
use net_world::ScriptWorld;
use resolv_options::read_resolv;
use scenario::{Coming, Shown, calls_told, items_of, journal_told};
use std::alloc::Global;
use std::test::Fail;

/// A reply with the address 192.0.2.1 to the query with identifier 0x1234 for example.com (RFC 1035, section 4.1).
const REPLY: &[u8] =
    b"\x12\x34\x81\x80\0\x01\0\x01\0\0\0\0\x07example\x03com\0\0\x01\0\x01\xc0\x0c\0\x01\0\x01\0\0\0\x3c\0\x04\xc0\0\x02\x01";

/// One server, which is asked three times, first for 2 seconds (resolv.conf(5)).
const PLAIN: &[u8] = b"nameserver 192.0.2.53\noptions timeout:2\n";

/// One server, which is asked once, for 2 seconds.
const ONE: &[u8] = b"nameserver 192.0.2.53\noptions timeout:2 attempts:1\n";

/// One server, which is asked over TCP alone.
const OVER_TCP: &[u8] = b"nameserver 192.0.2.53\noptions timeout:2 use-vc\n";

/// Asks for the addresses of IPv4 that example.com has.
const ASK: Call<'static> = Call::Ask(Request::Query(b"example.com"));

/// The random word that the network gives each time: the identifier of an attempt that flies alone.
const WORD: u16 = 0x1234;

/// A channel with one owner, its runner and its network, what it answered, and the codes of the statuses that were taken.
#[derive(Drop)]
struct Run {
    desk: Alone<Quiet>,
    runner: Runner,
    world: ScriptWorld,
    answers: Vec<u8>,
    statuses: Vec<u8>,
}

/// What a run is made of: its channel as resolv.conf says, what comes on its network, where the calls of these numbers
/// fail, and how many turns there are.
#[derive(Clone, Copy)]
struct Scene<'a> {
    resolv: &'a [u8],
    comings: &'a [Coming<'a>],
    fails: &'a [u64],
    turns: u64,
}

/// What a run comes to.
#[derive(Clone, Copy)]
struct End<'a> {
    /// The first status that is taken, or 100.
    status: u8,
    /// The lines of the journal.
    journal: &'a str,
    /// The lines of the calls of the network that connect, close and wait.
    calls: &'a str,
}

/// A run before its first turn.
fn begun(alloc: Global, scene: &Scene<'_>) -> Result<Run, Fail> {
    let mut world = world_of(alloc, scene.comings, scene.fails)?;
    let (desk, runner) = parties(alloc, scene.resolv, &mut world)?;
    Ok(Run {
        desk,
        runner,
        world,
        answers: Vec::new(alloc),
        statuses: Vec::new(alloc),
    })
}

/// A network on which this comes, where the calls of these numbers fail.
fn world_of(alloc: Global, comings: &[Coming<'_>], fails: &[u64]) -> Result<ScriptWorld, Fail> {
    let words = Vec::from_elem(alloc, WORD, 64)?;
    let fails = fails.to_vec(alloc)?;
    let items = items_of(alloc, comings)?;
    Ok(ScriptWorld::make(words, items, fails))
}

/// A channel as resolv.conf says, and its runner over a network.
fn parties(
    alloc: Global,
    resolv: &[u8],
    world: &mut ScriptWorld,
) -> Result<(Alone<Quiet>, Runner), Fail> {
    let options = read_resolv(alloc, resolv)?;
    let runner = Runner::make(alloc, world, &options)?;
    Ok((channel_of(alloc, options)?, runner))
}

/// Makes these calls of the channel, and keeps what it answers.
fn make_calls(alloc: Global, run: &mut Run, calls: &[Call<'_>]) -> Result<(), Fail> {
    let told = answers_told(alloc, &mut run.desk, calls)?;
    run.answers.extend_from_slice(told.as_slice())?;
    Ok(())
}

/// Takes each request that is ready.
fn take_all(run: &mut Run) -> Result<(), Fail> {
    for _ in 0..4 {
        if let Some(ticket) = run.desk.take() {
            run.statuses.push(ticket.answer().status.code())?;
        }
    }
    Ok(())
}

/// One turn, what is ready behind it, and a pause.
fn go_on(run: &mut Run) -> Result<(), Fail> {
    run.runner.turn(&mut run.desk, &mut run.world)?;
    take_all(run)?;
    run.runner.pause(&mut run.desk, &mut run.world, u64::MAX)?;
    Ok(())
}

/// So many turns, each with its pause.
fn played(run: &mut Run, turns: u64) -> Result<(), Fail> {
    for _ in 0..turns {
        go_on(run)?;
    }
    Ok(())
}

/// These calls, and then so many turns.
fn play(alloc: Global, run: &mut Run, calls: &[Call<'_>], turns: u64) -> Result<(), Fail> {
    make_calls(alloc, run, calls)?;
    played(run, turns)
}

/// The first status that was taken, or 100.
fn status_of(run: &Run) -> u8 {
    match run.statuses.first() {
        Some(code) => *code,
        None => 100,
    }
}

/// The channel of a run.
fn desk_of(run: Run) -> Alone<Quiet> {
    let Run { desk, .. } = run;
    desk
}

/// Whether entries are told by these lines.
fn are_told(alloc: Global, entries: &[Entry], lines: &str) -> Result<bool, Fail> {
    let told = journal_told(alloc, entries)?;
    Ok(told.as_str() == lines)
}

/// Whether it was so before, and the journal of the channel is told by these lines. The channel is closed before a
/// failure goes on: a check is long where a channel may be dropped behind a `?`.
fn closes_so(
    alloc: Global,
    was_so: Result<bool, Fail>,
    desk: Alone<Quiet>,
    lines: &str,
) -> Result<bool, Fail> {
    let journal = desk.close();
    Ok(was_so? && are_told(alloc, journal.entries.as_slice(), lines)?)
}

/// Whether the calls of the network that connect, close and wait are told by these lines.
fn has_heard(alloc: Global, run: &Run, lines: &str) -> Result<bool, Fail> {
    let told = calls_told(alloc, run.world.log().calls(), Shown::Links)?;
    Ok(told.as_str() == lines)
}

/// Whether a run came to this, but for its journal.
fn is_left(alloc: Global, run: &Run, end: &End<'_>) -> Result<bool, Fail> {
    Ok(status_of(run) == end.status && has_heard(alloc, run, end.calls)?)
}

/// Whether these calls, and then so many turns, come to this, but for the journal.
fn is_played_so(
    alloc: Global,
    run: &mut Run,
    calls: &[Call<'_>],
    turns: u64,
    end: &End<'_>,
) -> Result<bool, Fail> {
    play(alloc, run, calls, turns)?;
    is_left(alloc, run, end)
}

/// Whether a run of these calls, and then of its turns, comes to this.
fn plays_so(
    alloc: Global,
    scene: &Scene<'_>,
    calls: &[Call<'_>],
    end: &End<'_>,
) -> Result<bool, Fail> {
    let mut run = begun(alloc, scene)?;
    let is_so = is_played_so(alloc, &mut run, calls, scene.turns, end);
    closes_so(alloc, is_so, desk_of(run), end.journal)
}

/// Whether a run of one request, for the addresses of IPv4 that example.com has, comes to this.
fn ends_so(alloc: Global, scene: &Scene<'_>, end: &End<'_>) -> Result<bool, Fail> {
    plays_so(alloc, scene, &[ASK], end)
}
