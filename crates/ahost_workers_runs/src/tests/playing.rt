//! A run as plain data, and what it leaves.

ghost use Rattle.std.specs.Prelude.{◌≡◌, All, None};

use ahost_workers::run_with_workers;
use completion_ticket::Done;
use item_list::Bytes;
use net_world::{MemFiles, MemSink, ScriptWorld, World};
use scenario::{Coming, is_called_once, items_of, words_of};
use std::alloc::Global;
use std::collections::BTreeMap;
use std::sync::Wait;
use std::test::Fail;
use std::thread::Threads;
use stored_run::replayed;

/// The random words that the network gives: the identifier of an attempt is this one, or the first behind it that is free.
const WORD: u16 = 0x1234;

/// A run: its words, parted by blanks; its resolv.conf and hosts file, if there are such; the datagrams that come of its first
/// server at moment 1; which calls of the network fail, which reads and which puts, by their numbers from 0; and how many
/// turns it may make.
#[derive(Clone, Copy)]
pub struct Scenario<'a> {
    pub line: &'a str,
    pub resolv: Option<&'a [u8]>,
    pub hosts: Option<&'a [u8]>,
    pub replies: &'a [&'a [u8]],
    pub fails: &'a [u64],
    pub read_fails: &'a [u64],
    pub put_fails: &'a [u64],
    pub turns: u64,
}

/// A run without words, on which nothing comes and nothing fails.
pub const RUN: Scenario<'static> = Scenario {
    line: "",
    resolv: None,
    hosts: None,
    replies: &[],
    fails: &[],
    read_fails: &[],
    put_fails: &[],
    turns: 1_000_000,
};

/// What a run leaves: its exit status, what it put, and whether each request that it had accepted was called once.
#[derive(Drop)]
pub struct Played {
    pub status: u8,
    pub put: Vec<u8>,
    pub called: bool,
}

impl Played {
    /// Whether a run left this, and called each request that it had accepted once.
    pub fn is(&self, status: u8, put: &str) -> bool {
        self.called && self.status == status && self.put.as_slice() == put.as_bytes()
    }
}

/// The words of a line with so many workers before them, and these options.
pub fn line_with(alloc: Global, options: &str, workers: u64, line: &str) -> Result<String, Fail> {
    Ok(format!(in alloc; "{options}--workers {workers} {line}")?)
}

/// Plays a run over this network, with these options before its words and so many workers, and with these bodies.
pub fn play<B: Done + Drop + Send, W: World + Drop + Send, R: Threads + Wait + Sync>(
    rt: &R,
    alloc: Global,
    scenario: &Scenario<'_>,
    options: &str,
    workers: u64,
    bodies: Vec<B>,
    world: W,
) -> Result<Played, Fail>
    requires fresh { All (λ body. B.told body ≡ None) bodies.items }
{
    let line = line_with(alloc, options, workers, scenario.line)?;
    let words = words_of(alloc, line.as_str())?;
    ended(rt, alloc, words.as_slice(), scenario, bodies, world)
}

/// The same with all its words. No other function calls `run_with_workers`: its clauses are long, and who calls this doesn't
/// have them.
pub fn ended<B: Done + Drop + Send, W: World + Drop + Send, R: Threads + Wait + Sync>(
    rt: &R,
    alloc: Global,
    words: &[&str],
    scenario: &Scenario<'_>,
    bodies: Vec<B>,
    world: W,
) -> Result<Played, Fail>
    requires fresh { All (λ body. B.told body ≡ None) bodies.items }
{
    let mut files = files_of(alloc, scenario)?;
    let mut sink = MemSink::make(scenario.put_fails.to_vec(alloc)?);
    let turns = scenario.turns;
    let (ended, _world) = run_with_workers(
        alloc, rt, words, bodies, &mut files, world, &mut sink, turns,
    );
    Ok(Played {
        status: ended.status,
        put: sink.bytes().to_vec(alloc)?,
        called: is_called_once(ended.journal.entries(), &ended.calls),
    })
}

/// The files of a scenario.
pub fn files_of(alloc: Global, scenario: &Scenario<'_>) -> Result<MemFiles, Fail> {
    let mut files = BTreeMap::new(alloc);
    for (path, bytes) in [
        ("/etc/resolv.conf", scenario.resolv),
        ("/etc/hosts", scenario.hosts),
    ] {
        if let Some(bytes) = bytes {
            files.insert(String::from_str(alloc, path)?, Bytes::of(alloc, bytes)?)?;
        }
    }
    Ok(MemFiles::make(files, scenario.read_fails.to_vec(alloc)?))
}

/// The network of a scenario.
pub fn network_of(alloc: Global, scenario: &Scenario<'_>) -> Result<ScriptWorld, Fail> {
    let mut comings = Vec::new(alloc);
    for bytes in scenario.replies {
        comings.push(Coming::datagram(1, 0, bytes))?;
    }
    let words = Vec::from_elem(alloc, WORD, 256)?;
    let items = items_of(alloc, comings.as_slice())?;
    Ok(ScriptWorld::make(words, items, scenario.fails.to_vec(alloc)?))
}

/// Whether areplay finds the run of this book lawful.
pub fn is_lawful(alloc: Global, book: &Played) -> Result<bool, Fail> {
    Ok(!replayed(alloc, book.put.as_slice())?.is_empty())
}
