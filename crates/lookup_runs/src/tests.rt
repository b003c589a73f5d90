//! What hosts are answered: by the nameserver over loopback, by a hosts file, and by rule.

mod serving;
mod threads;

use chan_types::{Answer, Calls};
use host_lookups::{look_up, look_up_all, put_addresses, put_answer};
use hosts_file::Hosts;
use item_list::NoMemory;
use net_world::{ScriptWorld, World};
use resolv_options::Options;
use serving::{listening, options_at, served, zone_files};
use sock_engine::SockWorld;
use std::alloc::Global;
use std::test::Fail;
use std::thread;
use std::thread::Threads;

/// A name of the hosts file (hosts(5)).
const HOSTS: &[u8] = b"192.0.2.9 kept.example\n";

/// What a host is answered, over this network.
fn one<W: World>(
    alloc: Global,
    options: Options,
    world: &mut W,
    host: &str,
) -> Result<Option<Answer>, NoMemory> {
    look_up(alloc, options, Hosts::empty(alloc), world, host)
}

/// The addresses of a host, over this network, each on a line.
fn one_page<W: World>(
    alloc: Global,
    port: u16,
    world: &mut W,
    host: &str,
) -> Result<Vec<u8>, Fail> {
    let mut page = Vec::new(alloc);
    if let Some(answer) = one(alloc, options_at(alloc, port)?, world, host)? {
        put_addresses(alloc, answer.addresses.as_slice(), &mut page)?;
    }
    Ok(page)
}

/// What these hosts are answered, over this network, if all answers came.
fn many<W: World>(
    alloc: Global,
    options: Options,
    world: &mut W,
    names: &[&str],
) -> Result<Calls, Fail> {
    let mut calls = Calls::new();
    let hosts = Hosts::read(alloc, HOSTS)?;
    match look_up_all(alloc, options, hosts, world, names, &mut calls)? {
        true => Ok(calls),
        false => Err("not all came")?,
    }
}

/// What these hosts are answered, over this network, each answer on a line.
fn many_page<W: World>(
    alloc: Global,
    port: u16,
    world: &mut W,
    names: &[&str],
) -> Result<Vec<u8>, Fail> {
    let calls = many(alloc, options_at(alloc, port)?, world, names)?;
    page_of(alloc, names, &calls)
}

/// The lines of these answers.
fn page_of(alloc: Global, names: &[&str], calls: &Calls) -> Result<Vec<u8>, Fail> {
    let mut page = Vec::new(alloc);
    for answer in calls.iter() {
        put_answer(alloc, names, answer, &mut page)?;
    }
    Ok(page)
}

/// A host and its page: an address, and a name that isn't there.
const CASES: [(&str, &[u8]); 2] = [("b.test", b"192.0.2.2\n"), ("c.test", b"")];

/// Whether a host has this page, while the nameserver serves both of its queries in a thread.
fn is_answered<R: Threads>(
    threads: &R,
    rt: HostRuntime,
    host: &str,
    page: &[u8],
) -> Result<bool, Fail> {
    let alloc = rt.alloc();
    let (mut listener, port) = listening(rt)?;
    let mut files = zone_files(alloc)?;
    let child = thread::spawn(
        threads,
        move || served(alloc, "2", &mut files, &mut listener),
    )?;
    let found = one_page(alloc, port, &mut SockWorld::make(rt)?, host)?;
    Ok(child.join(threads) == 0 && found.as_slice() == page)
}

#[test]
fn one_host_is_looked_up(rt: HostRuntime) -> Result<(), Fail> {
    for (host, page) in CASES {
        assert!(rt; is_answered(&rt, rt, host, page)?, "{host}");
    }
    Ok(())
}

/// What two hosts are answered, while the nameserver serves in a thread: their four queries, and the one of a callback.
fn both_page<R: Threads>(threads: &R, rt: HostRuntime) -> Result<Vec<u8>, Fail> {
    let alloc = rt.alloc();
    let (mut listener, port) = listening(rt)?;
    let mut files = zone_files(alloc)?;
    let child = thread::spawn(
        threads,
        move || served(alloc, "5", &mut files, &mut listener),
    )?;
    let page = many_page(
        alloc,
        port,
        &mut SockWorld::make(rt)?,
        &["a.test", "b.test"],
    )?;
    child.join(threads);
    Ok(page)
}

#[test]
fn many_hosts_are_looked_up_and_one_callback_follows_up(rt: HostRuntime) -> Result<(), Fail> {
    let page = both_page(&rt, rt)?;
    let wanted: &[u8] = b"a.test SUCCESS 192.0.2.1\nb.test SUCCESS 192.0.2.2\n+ SUCCESS\n";
    assert!(rt; page.as_slice() == wanted);
    Ok(())
}

/// A network on which nothing comes.
fn silent(alloc: Global) -> ScriptWorld {
    ScriptWorld::make(Vec::new(alloc), Vec::new(alloc), Vec::new(alloc))
}

/// The first host is in the hosts file and the last one's name is a hidden service's (RFC 7686, section 2), so both are
/// answered at once. The last one's callback cancels the second, and what the first one's callback asked.
#[test]
fn one_callback_cancels_what_is_pending(rt: HostRuntime) -> Result<(), Fail> {
    let alloc = rt.alloc();
    let names = ["kept.example", "a.test", "x.onion"];
    let page = many_page(alloc, 53, &mut silent(alloc), names.as_slice())?;
    let wanted: &[u8] =
        b"kept.example SUCCESS 192.0.2.9\nx.onion ENOTFOUND\na.test ECANCELLED\n+ ECANCELLED\n";
    assert!(rt; page.as_slice() == wanted);
    Ok(())
}
