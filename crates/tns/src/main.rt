//! `tns` answers the queries that come to a port of 127.0.0.1 from the zone of a file, over UDP and TCP, and ends behind
//! so many messages: `tns --port N --zone PATH --count N`.
#![tactic(auto)]

mod advising;
mod telling;

use crate::advising::advice;
use crate::telling::Telling;
use item_list::NoMemory;
use sock_engine::{RealFiles, RealSink, Streams, texts_of, words_of};
use std::process::ExitCode;
use test_nameserver::{OUT_OF_MEMORY, run};

fn main(rt: HostRuntime) -> ExitCode {
    let _streams = Streams::hold(&rt);
    let status = run_words(rt).unwrap_or(OUT_OF_MEMORY);
    if let Some(text) = advice(status) {
        // Standard error may be closed.
        let _ = eprint!(rt; "{text}");
    }
    ExitCode::from(status)
}

/// Runs with the words of the command line. Answers the exit status.
fn run_words(rt: HostRuntime) -> Result<u8, NoMemory> {
    let alloc = rt.alloc();
    let owned = words_of(&rt, alloc)?;
    let words = texts_of(alloc, owned.as_slice())?;
    Ok(run(
        alloc,
        words.as_slice(),
        &mut RealFiles::make(rt),
        &mut RealSink::make(rt),
        &mut Telling::make(rt),
    ))
}
