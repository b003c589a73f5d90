//! Seven hosts, asked by three threads.

use super::network::network;
use hosts_file::Hosts;
use resolv_options::Options;
use std::alloc::Global;
use std::sync::Wait;
use std::test::Fail;
use std::thread::Threads;
use thread_lookups::{look_up_from_threads, put_answers};

/// A name of the hosts file (hosts(5)).
const HOSTS: &[u8] = b"192.0.2.9 kept.example\n";

/// What is asked: names of the zone, one that isn't there, one of the hosts file, an address, and one of a hidden service
/// (RFC 7686, section 2).
const NAMES: [&str; 7] = [
    "a.test",
    "b.test",
    "c.test",
    "d.test",
    "kept.example",
    "192.0.2.7",
    "x.onion",
];

/// What that is answered, in the order of the letters.
const LINES: [&str; 7] = [
    "192.0.2.7 SUCCESS 192.0.2.7",
    "a.test SUCCESS 192.0.2.1",
    "b.test SUCCESS 192.0.2.2",
    "c.test ENOTFOUND",
    "d.test SUCCESS 2001:db8::4",
    "kept.example SUCCESS 192.0.2.9",
    "x.onion ENOTFOUND",
];

/// What the hosts are answered, each answer on a line, over a network that loses by this seed.
fn page<R: Threads + Wait + Sync>(rt: &R, alloc: Global, seed: u16) -> Result<Vec<u8>, Fail> {
    let options = Options::plain(alloc)?;
    let hosts = Hosts::read(alloc, HOSTS)?;
    let world = network(alloc, seed)?;
    let finished = look_up_from_threads(rt, alloc, options, hosts, world, &NAMES)?;
    let mut page = Vec::new(alloc);
    put_answers(alloc, &finished, &mut page)?;
    Ok(page)
}

/// Whether these are the lines of a page, in whatever order.
fn has_lines(alloc: Global, page: &[u8], lines: &[&str]) -> Result<bool, Fail> {
    let Ok(text) = str::from_utf8(page) else {
        return Ok(false);
    };
    let mut found = Vec::new(alloc);
    for line in text.lines() {
        found.push(line)?;
    }
    found.sort()?;
    Ok(found.as_slice() == lines)
}

#[test]
fn seven_hosts_are_looked_up_from_threads(rt: HostRuntime) -> Result<(), Fail> {
    for seed in 0..10 {
        let page = page(&rt, rt.alloc(), seed)?;
        assert!(rt; has_lines(rt.alloc(), page.as_slice(), &LINES)?, "{seed}");
    }
    Ok(())
}
