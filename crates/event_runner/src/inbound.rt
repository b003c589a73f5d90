//! The bytes that came on a link and are no whole frame yet.

ghost use Rattle.std.specs.Prelude.{◌≡◌, [], OnOk};
ghost use Rattle.channel_model.specs.Frames.{messages_in, left_in};
ghost use Rattle.event_runner.specs.Frames.{IsUncut};
ghost use Rattle.event_runner.specs.Delivering.{Delivers};

use crate::backlog::Backlog;
use crate::frames::{HEAD, frame_end};
use channel_model::Desk;
use item_list::NoMemory;
use std::alloc::Global;
use std::marker::Model;

/// The bytes that came on a link and are no whole frame yet.
#[derive(Drop)]
pub struct Inbound {
    bytes: Backlog,
}

impl Model for Inbound {
    ghost use Rattle.std.specs.Prelude.{List, ℕ};

    ghost Value = { List ℕ };

    ghost view = { λ i. i.bytes };

    ghost use Rattle.event_runner.specs.Frames.{IsUncut};

    ghost invariant = { λ i. IsUncut i.bytes };
}

impl Inbound {
    /// No bytes. It takes no memory.
    pub fn new(alloc: Global) -> Inbound
        ensures { result ≡ [] }
    {
        Inbound {
            bytes: Backlog::new(alloc),
        }
    }

    /// Takes in a piece of the link, and hands the channel each message that becomes whole with it. For want of memory
    /// it lets all bytes go.
    pub fn feed<D: Desk>(
        &mut self,
        desk: &mut D,
        server: u32,
        link: u64,
        piece: &[u8],
    ) -> Result<(), NoMemory>
        ensures left { OnOk result (self.new ≡ left_in self.old piece.now) }
        ensures delivers { Delivers server link (messages_in self.old piece.now) result
            (D.known desk.old) (D.known desk.new) }
    {
        self.bytes.append(piece)?;
        let delivered = deliver(&mut self.bytes, desk, server, link);
        if delivered.is_err() {
            self.bytes.clear();
        }
        delivered
    }
}

/// Hands the channel the message of each whole frame with which the bytes begin. What is left is no whole frame.
fn deliver<D: Desk>(
    bytes: &mut Backlog,
    desk: &mut D,
    server: u32,
    link: u64,
) -> Result<(), NoMemory>
    ensures uncut { OnOk result (IsUncut bytes.new) }
    ensures left { OnOk result (bytes.new ≡ left_in [] bytes.old) }
    ensures delivers { Delivers server link (messages_in [] bytes.old) result (D.known desk.old)
        (D.known desk.new) }
{
    while let Some(end) = frame_end(bytes.as_slice()) {
        desk.arrive(server, link, &bytes.as_slice()[HEAD..end])?;
        bytes.skip(end);
    }
    Ok(())
}
