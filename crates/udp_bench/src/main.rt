//! What a query over a UDP socket costs through a channel and its runner, beside a bare loop that sends and receives.
//! `serve PORT` answers what comes to this port of 127.0.0.1 until nothing comes for some seconds. `ask PORT WINDOW COUNT`
//! sends COUNT queries there, WINDOW of them at once, by the bare loop and then through the channel, which keeps its journal;
//! with one more word, as `untold`, it doesn't. `channel PORT WINDOW COUNT` sends them through the channel alone.
#![tactic(auto)]

mod bare;
mod channel;
mod load;
mod room;
mod served;

use channel_journal::{ChannelJournal, KeptJournal, UntoldJournal};
use load::{Load, number};
use std::{env, io};

// Without words it prints a line that is always the same.
fn main(rt: HostRuntime) -> io::Result<()> {
    let mut words = env::args(&rt)?.skip(1);
    let task = words.next();
    let port = number(words.next(), 0).min(65_535) as u16;
    let load = Load {
        port,
        window: number(words.next(), 1).clamp(1, 16_384),
        count: number(words.next(), 0),
    };
    match task {
        Some(task) if task.as_str() == "serve" => served::serve(&rt, port),
        Some(task) if task.as_str() == "ask" => match words.next() {
            None => ask::<KeptJournal>(rt, &load),
            Some(_) => ask::<UntoldJournal>(rt, &load),
        },
        Some(task) if task.as_str() == "channel" => ask_through_channel(rt, &load),
        _ => {
            println!(rt;
                "udp_bench serve PORT, udp_bench ask PORT WINDOW COUNT [untold], udp_bench channel PORT WINDOW COUNT"
            )
        }
    }
}

/// Asks by the bare loop, then through the channel, and prints what a query cost.
fn ask<J: ChannelJournal>(rt: HostRuntime, load: &Load) -> io::Result<()> {
    let bare = bare::ask(&rt, load)?;
    let channel = channel::ask::<J>(rt, load)?;
    println!(rt;
        "window {}: the loop {} ns a query, {} lost; the channel {} ns, {} lost; {} percent; {} ns at its end",
        load.window,
        bare.each(load),
        bare.lost(load),
        channel.each(load),
        channel.lost(load),
        channel.each(load).saturating_mul(100) / bare.each(load).max(1),
        channel.each_at_end(load)
    )
}

/// Asks through the channel, which keeps its journal, and prints what a query cost.
fn ask_through_channel(rt: HostRuntime, load: &Load) -> io::Result<()> {
    let channel = channel::ask::<KeptJournal>(rt, load)?;
    println!(rt;
        "window {}: the channel {} ns a query, {} lost",
        load.window,
        channel.each(load),
        channel.lost(load)
    )
}
