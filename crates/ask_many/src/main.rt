//! `ask_many NAME ..` prints the addresses of many hosts, all asked for at once, in the order in which they come.
#![tactic(auto)]

use chan_types::Calls;
use host_lookups::{look_up_all, put_answer};
use item_list::NoMemory;
use machine_setting::read_setting;
use net_world::PutEnd;
use sock_engine::{RealFiles, RealSink, SockWorld, texts_of, words_of};
use std::process::ExitCode;

fn main(rt: HostRuntime) -> ExitCode {
    let mut page = Vec::new(rt.alloc());
    let status = answer_words(rt, &mut page).unwrap_or(5);
    match RealSink::make(rt).put(page.as_slice()) {
        Ok(PutEnd::Done) => ExitCode::from(status),
        _ => ExitCode::from(4),
    }
}

/// Writes what the hosts that the words name are answered, or how to use this. Answers the exit status: 0 where all answers
/// came, 1 where they didn't, 2 where there are no words.
fn answer_words(rt: HostRuntime, page: &mut Vec<u8>) -> Result<u8, NoMemory> {
    let alloc = rt.alloc();
    let owned = words_of(&rt, alloc)?;
    let names = texts_of(alloc, owned.as_slice())?;
    if names.is_empty() {
        page.extend_from_slice(b"usage: ask_many NAME ..\n")?;
        return Ok(2);
    }
    let (options, hosts) = read_setting(alloc, &mut RealFiles::make(rt))?;
    let mut calls = Calls::new();
    let mut world = SockWorld::make(rt)?;
    let came = look_up_all(
        alloc,
        options,
        hosts,
        &mut world,
        names.as_slice(),
        &mut calls,
    )?;
    for answer in calls.iter() {
        put_answer(alloc, names.as_slice(), answer, page)?;
    }
    Ok(if came { 0 } else { 1 })
}
