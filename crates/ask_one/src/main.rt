//! `ask_one NAME` prints the addresses of a host, by the hosts file and the name servers of resolv.conf.
#![tactic(auto)]

use host_lookups::{look_up, put_addresses};
use item_list::NoMemory;
use machine_setting::read_setting;
use net_world::PutEnd;
use sock_engine::{RealFiles, RealSink, SockWorld, texts_of, words_of};
use std::process::ExitCode;

fn main(rt: HostRuntime) -> ExitCode {
    let mut page = Vec::new(rt.alloc());
    let status = answer_words(rt, &mut page).unwrap_or(5);
    match RealSink::make(rt).put(page.as_slice()) {
        Ok(PutEnd::Done) => ExitCode::from(status),
        _ => ExitCode::from(4),
    }
}

/// Writes the addresses of the host that the words name, or how to use this. Answers the exit status: 0 where there are
/// some, 1 where there is none, 2 where the words aren't one name.
fn answer_words(rt: HostRuntime, page: &mut Vec<u8>) -> Result<u8, NoMemory> {
    let alloc = rt.alloc();
    let owned = words_of(&rt, alloc)?;
    let words = texts_of(alloc, owned.as_slice())?;
    let [host] = words.as_slice() else {
        page.extend_from_slice(b"usage: ask_one NAME\n")?;
        return Ok(2);
    };
    let (options, hosts) = read_setting(alloc, &mut RealFiles::make(rt))?;
    let found = look_up(alloc, options, hosts, &mut SockWorld::make(rt)?, host)?;
    let Some(answer) = found else { return Ok(1) };
    put_addresses(alloc, answer.addresses.as_slice(), page)?;
    Ok(if answer.addresses.is_empty() { 1 } else { 0 })
}
