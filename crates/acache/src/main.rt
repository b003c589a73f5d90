//! `acache` asks a name server for the addresses of names, one after the other, and asks for none twice whose answer it
//! still keeps.
#![tactic(auto)]

use acache_tool::run;
use item_list::NoMemory;
use sock_engine::{RealSink, SockWorld, Streams, texts_of, words_of};
use std::process::ExitCode;
use tool_line::Exit;

/// How many turns a run may make.
const TURNS: u64 = 10_000_000;

fn main(rt: HostRuntime) -> ExitCode {
    let _streams = Streams::hold(&rt);
    match run_words(rt) {
        Ok(status) => ExitCode::from(status),
        Err(NoMemory) => ExitCode::from(Exit::OutOfMemory.number()),
    }
}

/// Runs with the words of the command line, and answers the exit status.
fn run_words(rt: HostRuntime) -> Result<u8, NoMemory> {
    let alloc = rt.alloc();
    let owned = words_of(&rt, alloc)?;
    let words = texts_of(alloc, owned.as_slice())?;
    let mut world = SockWorld::make(rt)?;
    let ended = run(
        alloc,
        words.as_slice(),
        &mut world,
        &mut RealSink::make(rt),
        TURNS,
    );
    Ok(ended.status)
}
