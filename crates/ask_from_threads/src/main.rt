//! `ask_from_threads NAME ..` prints the addresses of many hosts, which three threads ask from one channel; a fourth runs it.
#![tactic(auto)]

use chan_types::Status;
use item_list::NoMemory;
use machine_setting::read_setting;
use net_world::PutEnd;
use sock_engine::{RealFiles, RealSink, SockWorld, texts_of, words_of};
use std::process::ExitCode;
use std::sync::Wait;
use std::thread::Threads;
use thread_lookups::{look_up_from_threads, put_answers};

fn main(rt: HostRuntime) -> ExitCode {
    let mut page = Vec::new(rt.alloc());
    let status = answer_words(&rt, rt, &mut page).unwrap_or(5);
    match RealSink::make(rt).put(page.as_slice()) {
        Ok(PutEnd::Done) => ExitCode::from(status),
        _ => ExitCode::from(4),
    }
}

/// Writes what the hosts that the words name are answered, or how to use this. Answers the exit status: 0 where all answers
/// came, 1 where the end of the channel cut one off, 2 where there are no words.
fn answer_words<R: Threads + Wait + Sync>(
    threads: &R,
    rt: HostRuntime,
    page: &mut Vec<u8>,
) -> Result<u8, NoMemory> {
    let alloc = rt.alloc();
    let owned = words_of(&rt, alloc)?;
    let names = texts_of(alloc, owned.as_slice())?;
    if names.is_empty() {
        page.extend_from_slice(b"usage: ask_from_threads NAME ..\n")?;
        return Ok(2);
    }
    let (options, hosts) = read_setting(alloc, &mut RealFiles::make(rt))?;
    let world = SockWorld::make(rt)?;
    let finished = look_up_from_threads(threads, alloc, options, hosts, world, names.as_slice())?;
    put_answers(alloc, &finished, page)?;
    let mut answers = finished.calls.iter();
    let cut = answers.any(|answer| answer.status == Status::Destruction);
    Ok(if cut { 1 } else { 0 })
}
