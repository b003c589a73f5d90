//! `ahost` with two workers asks the nameserver, and so does a run of the same words without.

ghost use Rattle.std.specs.Prelude.{◌≡◌, All, IfOk, None};

use super::serving::serving;
use super::{Outcome, is_between};
use ahost_tool::run;
use ahost_workers::run_with_workers;
use chan_types::Script;
use completion_ticket::Scripted;
use item_list::NoMemory;
use net_world::{MemFiles, MemSink};
use sock_engine::SockWorld;
use std::alloc::Global;
use std::collections::BTreeMap;
use std::sync::Wait;
use std::test::Fail;
use std::thread::Threads;
use stored_run::replayed;

/// How many hosts the zone has, of those for which a run asks: `h1.test.` and so on. The others aren't there.
const HOSTS: u64 = 16;

const ASKED: u64 = 20;

/// The messages of three runs: a query for each host.
const MESSAGES: &str = "60";

/// How many turns a run may make.
const TURNS: u64 = 1_000_000;

/// The words of a run before its port: each query is sent once, and may be answered late.
const FRONT: &str =
    "--no-edns --no-search --family 4 --timeout 60000 --tries 1 --server 127.0.0.1 --port";

/// The zone.
fn zone_of(alloc: Global) -> Result<String, NoMemory> {
    let mut zone = String::new(alloc);
    for host in 1..=HOSTS {
        zone.push_str(format!(in alloc; "h{host}.test. 60 A 192.0.2.{host}\n")?.as_str())?;
    }
    Ok(zone)
}

/// The words of a run behind its own, each behind a blank.
fn line_of(alloc: Global, port: u16) -> Result<String, NoMemory> {
    let mut line = format!(in alloc; " {FRONT} {port}")?;
    for host in 1..=ASKED {
        line.push_str(format!(in alloc; " h{host}.test.")?.as_str())?;
    }
    Ok(line)
}

/// The status of a host, by code and by name.
fn status_of(host: u64) -> &'static str {
    if host <= HOSTS {
        "0 SUCCESS"
    } else {
        "4 ENOTFOUND"
    }
}

/// The page of a run.
fn page_of(alloc: Global) -> Result<String, NoMemory> {
    let mut page = String::new(alloc);
    for host in 1..=ASKED {
        let status = status_of(host);
        page.push_str(format!(in alloc; "h{host}.test. {status}\n")?.as_str())?;
        if host <= HOSTS {
            page.push_str(format!(in alloc; "  192.0.2.{host}\n")?.as_str())?;
        }
    }
    Ok(page)
}

/// What areplay puts of a run's book, behind the number of its entries.
fn fates_of(alloc: Global) -> Result<String, NoMemory> {
    let mut fates = format!(in alloc; " entries {ASKED} accepted\n")?;
    for host in 1..=ASKED {
        let status = status_of(host);
        fates.push_str(format!(in alloc; "{host} {status}\n")?.as_str())?;
    }
    Ok(fates)
}

/// A body for each host, which commands nothing.
fn bodies_of(alloc: Global) -> Result<Vec<Scripted>, NoMemory>
    ensures fresh { IfOk result (λ bodies. All (λ body. body.told ≡ None) bodies.items) }
{
    let mut bodies = Vec::new(alloc);
    for tag in 0..ASKED {
        bodies.push(Scripted::new(Script::blank(alloc, tag)))?;
    }
    Ok(bodies)
}

/// What `ahost` comes to with these words, with workers or without, over the real network and without files. No other
/// function calls it: its clauses are long, and who calls this doesn't have them.
fn ended<R: Threads + Wait + Sync>(
    threads: &R,
    rt: HostRuntime,
    words: &[&str],
    with_workers: bool,
) -> Result<Outcome, Fail> {
    let alloc = rt.alloc();
    let bodies = bodies_of(alloc)?;
    let mut files = MemFiles::make(BTreeMap::new(alloc), Vec::new(alloc));
    let mut sink = MemSink::make(Vec::new(alloc));
    let mut world = SockWorld::make(rt)?;
    let status = if with_workers {
        let (ended, _world) = run_with_workers(
            alloc, threads, words, bodies, &mut files, world, &mut sink, TURNS,
        );
        ended.status
    } else {
        run(
            alloc, words, bodies, &mut files, &mut world, &mut sink, TURNS,
        )
        .status
    };
    Ok(Outcome {
        status,
        put: sink.bytes().to_vec(alloc)?,
    })
}

/// The same with these words in front of the line's.
fn asked<R: Threads + Wait + Sync>(
    threads: &R,
    rt: HostRuntime,
    own: &str,
    line: &str,
) -> Result<Outcome, Fail> {
    let alloc = rt.alloc();
    let line = format!(in alloc; "{own}{line}")?;
    let mut words = Vec::new(alloc);
    for word in line.split(' ') {
        words.push(word)?;
    }
    ended(threads, rt, words.as_slice(), own != "--workers 0")
}

/// Whether runs with two workers and without put this page, and a run with two workers a book that areplay finds lawful, with
/// the statuses of the page.
fn are_alike<R: Threads + Wait + Sync>(
    threads: &R,
    rt: HostRuntime,
    line: &str,
) -> Result<bool, Fail> {
    let alloc = rt.alloc();
    let page = page_of(alloc)?;
    let fates = fates_of(alloc)?;
    let alone = asked(threads, rt, "--workers 0", line)?;
    let shared = asked(threads, rt, "--workers 2", line)?;
    let book = asked(threads, rt, "--journal --workers 2", line)?;
    let told = replayed(alloc, book.put.as_slice())?;
    Ok(
        alone.is(1, page.as_bytes())
            && shared.is(1, page.as_bytes())
            && book.status == 1
            && is_between(told.as_slice(), b"lawful ", fates.as_bytes()),
    )
}

/// The same, where the nameserver serves all queries in a thread, and ends with exit status 0.
fn are_served<R: Threads + Wait + Sync>(threads: &R, rt: HostRuntime) -> Result<bool, Fail> {
    let alloc = rt.alloc();
    let zone = zone_of(alloc)?;
    let (child, port) = serving(threads, rt, zone.as_bytes(), MESSAGES)?;
    let are_alike = are_alike(threads, rt, line_of(alloc, port)?.as_str())?;
    Ok(child.join(threads) == 0 && are_alike)
}

#[test]
fn two_workers_call_over_real_sockets(rt: HostRuntime) -> Result<(), Fail> {
    assert!(rt; are_served(&rt, rt)?);
    Ok(())
}
