//! Calls the parts below a channel, and a network with cookies, many times, for instructions to be counted or for time to be measured. The first word is
//! the part, and the words behind it say what is done and how often. With no word each part does a little, and the lines
//! that are printed are always the same.
#![tactic(auto)]

mod answers;
mod cookies;
mod deadlines;
mod ids;
mod legs;
mod messages;
mod queries;
mod words;

use std::time::Clock;
use std::{env, io};
use words::Words;

/// The parts, by the names of their crates.
const PARTS: [&str; 7] = [
    "cookie_world",
    "dns_message",
    "id_pool",
    "leg_index",
    "query_cache",
    "query_machine",
    "timeout_queue",
];

/// What a part tells: nothing where there is no such part.
fn measured<R: Clock + AllocGlobal>(rt: &R, part: &str, words: &Words) -> io::Result<String> {
    match part {
        "cookie_world" => cookies::measure(rt.alloc(), words),
        "dns_message" => messages::measure(rt.alloc(), words),
        "id_pool" => ids::measure(rt.alloc(), words),
        "leg_index" => legs::measure(rt.alloc(), words),
        "query_cache" => answers::measure(rt.alloc(), words),
        "query_machine" => queries::measure(rt.alloc(), words),
        "timeout_queue" => deadlines::measure(rt, rt.alloc(), words),
        _ => Ok(String::new(rt.alloc())),
    }
}

fn main(rt: HostRuntime) -> io::Result<()> {
    let mut all = env::args(&rt)?.skip(1);
    let part = all.next();
    let mut words = Words::none(rt.alloc());
    for word in all {
        words.add(word)?;
    }
    if let Some(part) = part {
        return println!(rt; "{}", measured(&rt, part.as_str(), &words)?);
    }
    for part in PARTS.iter() {
        println!(rt; "{}", measured(&rt, part, &words)?)?;
    }
    Ok(())
}
