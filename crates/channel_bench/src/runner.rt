//! Datagrams and the replies of a link, brought through a runner, and around it.

mod bare;
mod flood;
mod messages;
mod turns;

use crate::failed::Failed;
use crate::requests::channel;
use crate::words::{number_of, task_of};
use bare::{datagrams_bare, link_bare};
use chan_types::Quiet;
use channel_table::Alone;
use flood::Flood;
use messages::{replies, stray};
use std::alloc::Global;
use turns::{datagrams, link};

/// One server (resolv.conf(5)).
const DATAGRAMS: &[u8] = b"nameserver 127.0.0.1\n";

/// One server, which is asked over TCP alone.
const OVER_TCP: &[u8] = b"nameserver 127.0.0.1\noptions use-vc\n";

/// What is done, and how often.
#[derive(Clone, Copy)]
struct Task<'a> {
    name: &'a str,
    times: u64,
}

/// A network on which come so many datagrams, or the replies to so many queries.
fn network(alloc: Global, task: Task<'_>) -> Result<Flood, Failed> {
    match task.name {
        "link" | "link-bare" => Ok(Flood::of_link(alloc, replies(alloc, task.times)?)),
        _ => Ok(Flood::of_datagrams(alloc, stray(alloc)?, task.times)),
    }
}

/// What a channel that was asked nothing sees by this task.
fn seen_by(
    desk: &mut Alone<Quiet>,
    world: &mut Flood,
    alloc: Global,
    task: Task<'_>,
) -> Result<u64, Failed> {
    match task.name {
        "datagrams" => datagrams(desk, world, alloc, task.times),
        "datagrams-bare" => datagrams_bare(desk, world, task.times),
        "link" => link(desk, world, alloc, task.times),
        _ => link_bare(desk, world, alloc, task.times),
    }
}

/// What a channel sees by this task over a network.
fn seen_over(world: &mut Flood, alloc: Global, task: Task<'_>) -> Result<u64, Failed> {
    let resolv = match task.name {
        "link" | "link-bare" => OVER_TCP,
        _ => DATAGRAMS,
    };
    seen_by(&mut channel(alloc, resolv)?, world, alloc, task)
}

/// What the task of this name sees where it is done so often.
fn seen_of(alloc: Global, name: &str, times: u64) -> Result<u64, Failed> {
    let task = Task { name, times };
    match name {
        "datagrams" | "datagrams-bare" | "link" | "link-bare" => {
            seen_over(&mut network(alloc, task)?, alloc, task)
        }
        _ => Ok(0),
    }
}

// With a task and how often as its words it does that, and else a few datagrams and queries.
pub fn measure(alloc: Global, words: &[String]) -> Result<String, Failed> {
    let task = task_of(words);
    let Some(times) = number_of(words, 1) else {
        let came = seen_of(alloc, "datagrams", 128)?;
        let ready = seen_of(alloc, "link", 100)?;
        return Ok(format!(in alloc; "{came} datagrams came, and {ready} replies over a link")?);
    };
    let seen = seen_of(alloc, task, times)?;
    Ok(format!(in alloc; "{task} {times} {seen}")?)
}
