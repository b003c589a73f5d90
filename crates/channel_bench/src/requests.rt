//! A channel, and the requests that it is asked.

use crate::failed::Failed;
use chan_types::{Quiet, Spec};
use channel_journal::ChannelJournal;
use channel_model::Desk;
use channel_table::Alone;
use dns_message::numbers::{CLASS_IN, KIND_A};
use hosts_file::Hosts;
use item_list::{Bytes, NoMemory};
use resolv_options::{Options, read_resolv};
use std::alloc::Global;

/// The options that a text of resolv.conf says.
pub fn options_of(alloc: Global, resolv: &[u8]) -> Result<Options, Failed> {
    read_resolv(alloc, resolv).map_err(|_| Failed)
}

/// A channel with these options that was asked nothing.
pub fn channel<J: ChannelJournal>(alloc: Global, resolv: &[u8]) -> Result<Alone<Quiet, J>, Failed> {
    let options = options_of(alloc, resolv)?;
    Ok(Alone::make(alloc, options, Hosts::empty(alloc))?)
}

/// The addresses of IPv4 of example.com.
fn query(alloc: Global) -> Result<Spec, NoMemory> {
    Ok(Spec::Query {
        name: Bytes::of(alloc, b"example.com")?,
        kind: KIND_A,
        class: CLASS_IN,
    })
}

/// Asks for them.
pub fn ask<J: ChannelJournal>(desk: &mut Alone<Quiet, J>, alloc: Global) -> Result<(), Failed> {
    let spec = query(alloc)?;
    match desk.accept(spec, Quiet::new(alloc)) {
        Ok(_) => Ok(()),
        Err(_) => Err(Failed),
    }
}

/// Asks for them so many times.
pub fn ask_all<J: ChannelJournal>(
    desk: &mut Alone<Quiet, J>,
    alloc: Global,
    requests: u64,
) -> Result<(), Failed> {
    for _ in 0..requests {
        ask(desk, alloc)?;
    }
    Ok(())
}
