//! A host's addresses, asked by three threads at once.

use super::serving::{listening, options_at, served, zone_files};
use hosts_file::Hosts;
use sock_engine::SockWorld;
use std::sync::Wait;
use std::test::Fail;
use std::thread;
use std::thread::Threads;
use thread_lookups::{look_up_from_threads, put_answers};

/// What each thread asks, and what all of them are answered.
const NAMES: [&str; 3] = ["b.test", "b.test", "b.test"];

const PAGE: &[u8] =
    b"b.test SUCCESS 192.0.2.2\nb.test SUCCESS 192.0.2.2\nb.test SUCCESS 192.0.2.2\n";

/// What a host is answered that three threads ask, while the nameserver serves all six queries in one more.
fn threads_page<R: Threads + Wait + Sync>(threads: &R, rt: HostRuntime) -> Result<Vec<u8>, Fail> {
    let alloc = rt.alloc();
    let (mut listener, port) = listening(rt)?;
    let mut files = zone_files(alloc)?;
    let child = thread::spawn(
        threads,
        move || served(alloc, "6", &mut files, &mut listener),
    )?;
    let options = options_at(alloc, port)?;
    let world = SockWorld::make(rt)?;
    let finished = look_up_from_threads(
        threads,
        alloc,
        options,
        Hosts::empty(alloc),
        world,
        &NAMES,
    )?;
    child.join(threads);
    let mut page = Vec::new(alloc);
    put_answers(alloc, &finished, &mut page)?;
    Ok(page)
}

#[test]
fn three_threads_look_up_a_host(rt: HostRuntime) -> Result<(), Fail> {
    let page = threads_page(&rt, rt)?;
    assert!(rt; page.as_slice() == PAGE);
    Ok(())
}
