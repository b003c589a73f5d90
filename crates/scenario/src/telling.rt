//! Journals and logs as lines of text.

use chan_types::{Entry, ServerKey, What};
use item_list::NoMemory;
use net_addr::Addr;
use net_world::WorldCall;
use std::alloc::Global;

/// The line of an entry.
fn line_of(alloc: Global, what: &What) -> Result<String, NoMemory> {
    Ok(match what {
        What::Accept { number, .. } => format!(in alloc; "accept {number}\n")?,
        What::Cancel => format!(in alloc; "cancel\n")?,
        What::Destroy => format!(in alloc; "destroy\n")?,
        What::Take { number } => format!(in alloc; "take {number}\n")?,
        What::Start {
            number,
            server,
            link,
            moment,
            ..
        } => format!(in alloc; "start {number} on {server} over {link} at {moment}\n")?,
        What::Arrive { server, link, .. } => format!(in alloc;
            "arrive from {server} over {link}\n"
        )?,
        What::Expire { number, moment, .. } => format!(in alloc; "expire {number} at {moment}\n")?,
        What::Fault {
            server,
            link,
            moment,
        } => format!(in alloc; "fault of {server} over {link} at {moment}\n")?,
        What::Servers { list } => keys_told(alloc, list.as_slice())?,
    })
}

/// The line of a list of servers: their keys, in order.
fn keys_told(alloc: Global, list: &[ServerKey]) -> Result<String, NoMemory> {
    let mut text = format!(in alloc; "servers")?;
    for server in list {
        let key = server.key;
        text.push_str(format!(in alloc; " {key}")?.as_str())?;
    }
    text.push_str("\n")?;
    Ok(text)
}

/// The lines of a journal. One that a callback commanded begins with its request.
pub fn journal_told(alloc: Global, entries: &[Entry]) -> Result<String, NoMemory> {
    let mut text = String::new(alloc);
    for entry in entries {
        if entry.by != 0 {
            let by = entry.by;
            text.push_str(format!(in alloc; "by {by} ")?.as_str())?;
        }
        text.push_str(line_of(alloc, &entry.what)?.as_str())?;
    }
    Ok(text)
}

/// An address as a number: its bytes, the first one the highest.
fn number_of(address: Addr) -> u128 {
    match address {
        Addr::V4(bits) => u128::from(bits),
        Addr::V6(bits) => bits,
    }
}

/// Which calls of a log are told.
#[derive(Clone, Copy)]
pub enum Shown {
    /// Those that connect, close or wait.
    Links,
    /// The same, and those that tell a server.
    Servers,
    /// The same, and those that send or write.
    Traffic,
}

impl Shown {
    /// The call is told.
    fn shows(self, call: &WorldCall) -> bool {
        match call {
            WorldCall::Connect { .. } | WorldCall::Close { .. } | WorldCall::Wait { .. } => true,
            WorldCall::Serve { .. } => !matches!(self, Shown::Links),
            WorldCall::Send { .. } | WorldCall::Write { .. } => matches!(self, Shown::Traffic),
            _ => false,
        }
    }
}

/// The line of a call that tells a server, sends, connects, writes, closes or waits; of any other there is none.
fn line_of_call(alloc: Global, call: &WorldCall) -> Result<String, NoMemory> {
    Ok(match call {
        WorldCall::Serve { server, address } => {
            let number = number_of(address.address);
            let port = address.port;
            format!(in alloc; "serve {server} of {number} at {port}\n")?
        }
        WorldCall::Send { server, .. } => format!(in alloc; "send to {server}\n")?,
        WorldCall::Connect { server, link, .. } => format!(in alloc;
            "connect {server} over {link}\n"
        )?,
        WorldCall::Write { link, .. } => format!(in alloc; "write to {link}\n")?,
        WorldCall::Close { link } => format!(in alloc; "close {link}\n")?,
        WorldCall::Wait { until, .. } => format!(in alloc; "wait to {until}\n")?,
        _ => String::new(alloc),
    })
}

/// The lines of a log, of those calls that are shown.
pub fn calls_told(alloc: Global, calls: &[WorldCall], shown: Shown) -> Result<String, NoMemory> {
    let mut text = String::new(alloc);
    for call in calls {
        if shown.shows(call) {
            text.push_str(line_of_call(alloc, call)?.as_str())?;
        }
    }
    Ok(text)
}

/// Whether a journal and what a network sent, wrote and was told are told by these lines.
pub fn are_told(
    alloc: Global,
    entries: &[Entry],
    journal: &str,
    calls: &[WorldCall],
    traffic: &str,
) -> Result<bool, NoMemory> {
    let of_entries = journal_told(alloc, entries)?;
    let of_calls = calls_told(alloc, calls, Shown::Traffic)?;
    Ok(of_entries.as_str() == journal && of_calls.as_str() == traffic)
}

/// The bytes that were sent as datagrams and written to links, one behind the other.
pub fn sent_in(alloc: Global, calls: &[WorldCall]) -> Result<Vec<u8>, NoMemory> {
    let mut all = Vec::new(alloc);
    for call in calls {
        if let WorldCall::Send { bytes, .. } | WorldCall::Write { bytes, .. } = call {
            all.extend_from_slice(bytes.as_slice())?;
        }
    }
    Ok(all)
}
