//! `adig` asks name servers one question, and prints what they answer.
#![tactic(auto)]

use adig_tool::run;
use item_list::NoMemory;
use sock_engine::{RealFiles, RealSink, SockWorld, Streams, texts_of, words_of};
use std::process::ExitCode;
use tool_help::{advice, help};
use tool_line::{Exit, Tool};

/// How many turns a run may make.
const TURNS: u64 = 10_000_000;

fn main(rt: HostRuntime) -> ExitCode {
    let _streams = Streams::hold(&rt);
    match run_words(rt) {
        Ok(status) => ExitCode::from(status),
        Err(NoMemory) => {
            let status = Exit::OutOfMemory.number();
            // Standard error may be closed, here and below.
            if let Some(sentence) = advice(Tool::Adig, status) {
                let _ = eprint!(rt; "{sentence}");
            }
            ExitCode::from(status)
        }
    }
}

/// Runs with the words of the command line. What is said beside the page stands on standard error. Answers the exit status.
fn run_words(rt: HostRuntime) -> Result<u8, NoMemory> {
    let alloc = rt.alloc();
    let owned = words_of(&rt, alloc)?;
    let words = texts_of(alloc, owned.as_slice())?;
    let mut world = SockWorld::make(rt)?;
    let ended = run(
        alloc,
        words.as_slice(),
        &mut RealFiles::make(rt),
        &mut world,
        &mut RealSink::make(rt),
        TURNS,
    );
    // A server's refusal is no failure of this machine, and isn't told: so the two are told apart.
    if let Some(failure) = world.local_failure() {
        if ended.status != 0 {
            let _ = eprintln!(rt; "adig: {}", failure.text());
        }
    }
    if let Ok(Some(text)) = help(alloc, Tool::Adig, words.as_slice(), ended.status) {
        let _ = eprint!(rt; "{text}");
    }
    Ok(ended.status)
}
