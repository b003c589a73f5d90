//! `areplay` checks a stored run of a channel, and prints what its requests came to.
#![tactic(auto)]

use areplay_tool::{End, run};
use sock_engine::{RealFiles, RealSink, Streams, texts_of, words_of};
use std::process::ExitCode;

fn main(rt: HostRuntime) -> ExitCode {
    let _streams = Streams::hold(&rt);
    let alloc = rt.alloc();
    let Ok(owned) = words_of(&rt, alloc) else {
        return ExitCode::from(End::OutOfMemory.number());
    };
    let Ok(words) = texts_of(alloc, owned.as_slice()) else {
        return ExitCode::from(End::OutOfMemory.number());
    };
    let status = run(
        alloc,
        words.as_slice(),
        &mut RealFiles::make(rt),
        &mut RealSink::make(rt),
    );
    ExitCode::from(status)
}
