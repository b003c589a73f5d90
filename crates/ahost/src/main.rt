//! `ahost` asks name servers for the addresses of names, and prints what they answer.
#![tactic(auto)]

mod bodies;
mod counting;
mod playing;
mod sources;

use crate::bodies::report_bodies;
use crate::counting::names_most;
use crate::playing::played;
use crate::sources::{own_sources, with_sources};
use item_list::NoMemory;
use sock_engine::{RealFiles, SockWorld, Streams, texts_of, words_of};
use std::process::ExitCode;
use std::sync::Wait;
use std::thread::Threads;
use tool_help::{advice, help};
use tool_line::{Exit, Tool};

fn main(rt: HostRuntime) -> ExitCode {
    let _streams = Streams::hold(&rt);
    match run_words(&rt, rt) {
        Ok(status) => ExitCode::from(status),
        Err(NoMemory) => {
            let status = Exit::OutOfMemory.number();
            // Standard error may be closed, here and below.
            if let Some(sentence) = advice(Tool::Ahost, status) {
                let _ = eprint!(rt; "{sentence}");
            }
            ExitCode::from(status)
        }
    }
}

/// Runs with the words of the command line. What is said beside the page stands on standard error. Answers the exit status.
fn run_words<R: Threads + Wait + Sync>(threads: &R, rt: HostRuntime) -> Result<u8, NoMemory> {
    let alloc = rt.alloc();
    let owned = words_of(&rt, alloc)?;
    let words = texts_of(alloc, owned.as_slice())?;
    let bodies = report_bodies(alloc, names_most(alloc, words.as_slice())?)?;
    let sources = own_sources(alloc, &mut RealFiles::make(rt), words.as_slice())?;
    let all = with_sources(alloc, &sources, words.as_slice())?;
    let (ended, world) = played(threads, rt, all.as_slice(), bodies, SockWorld::make(rt)?)?;
    // A server's refusal is no failure of this machine, and isn't told: so the two are told apart.
    if let Some(failure) = world.local_failure() {
        if ended.status != 0 {
            let _ = eprintln!(rt; "ahost: {}", failure.text());
        }
    }
    if let Ok(Some(text)) = help(alloc, Tool::Ahost, words.as_slice(), ended.status) {
        let _ = eprint!(rt; "{text}");
    }
    Ok(ended.status)
}
