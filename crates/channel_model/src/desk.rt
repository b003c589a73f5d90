//! The calls of a channel.

ghost use Rattle.std.specs.Prelude.{length, ◌≤◌};
ghost use Rattle.channel_model.specs.Known.{Known, Calls};
ghost use Rattle.channel_model.specs.Names.{KeepsName, GivesName};
ghost use Rattle.channel_model.specs.Meanings.{Accepts, Cancels, Destroys, Takes, Starts, Arrives, Expires, Fails, TellsDue, TellsCounts, TellsBusy, SetsServers};

use crate::answers::{Begun, Counts, Landed, Lapse, Refused, SetFault};
use chan_types::{NoMemory, Spec, Ticket, Token};
use net_addr::ServerAddr;

/// A way to use a channel: one owner's or one thread's. Each call takes effect at one position of the channel's journal;
/// what stands there behind what this desk had seen was made by other seats. Each call's clause cites its meaning there,
/// and on whose command its entry is made.
pub trait Desk {
    type Token: Token;

    /// What it knows of its channel.
    ghost known: { Self → Known };

    /// Accepts a request, and answers its number. A name that can't be asked completes it at once.
    fn accept(&mut self, spec: Spec, token: Self::Token) -> Result<u64, Refused<Self::Token>>
        ensures done { Calls (Accepts Self.Token.plan spec token result) (known self.old).voice
            (known self.old) (known self.new) }
        ensures named { KeepsName (Self.Token.name token) result (known self.new).names };

    /// Completes every pending request as cancelled, and answers how many there were.
    fn cancel(&mut self) -> u64
        ensures done { Calls (Cancels result) (known self.old).voice (known self.old) (known self.new) };

    /// Destroys the channel and completes every pending request so. Answers whether it was the first to do so.
    fn destroy(&mut self) -> bool
        ensures done { Calls (Destroys result) (known self.old).voice (known self.old) (known self.new) };

    /// Moves out the first ready request, with the token that it was accepted with.
    fn take(&mut self) -> Option<Ticket<Self::Token>>
        ensures done { Calls (Takes Self.Token.plan result) 0 (known self.old) (known self.new) }
        ensures named { GivesName Self.Token.name result (known self.old).names };

    /// Begins an attempt of the first waiting leg at this moment, with an identifier from this word upwards, and its
    /// letters in the case of the bits of `mix`, where the channel is set so and the query goes over UDP.
    fn start(&mut self, word: u16, mix: u16, at: u64) -> Result<Begun, NoMemory>
        ensures done { Calls (Starts word mix at result) 0 (known self.old) (known self.new) };

    /// Takes in a message that came from this server over this link.
    fn arrive(&mut self, server: u32, link: u64, bytes: &[u8]) -> Result<Landed, NoMemory>
        ensures done { Calls (Arrives server link bytes.now result) 0 (known self.old) (known self.new) };

    /// Lets the attempt that is due first expire, if it is due at this moment.
    fn expire(&mut self, at: u64) -> Result<Lapse, NoMemory>
        ensures done { Calls (Expires at result) 0 (known self.old) (known self.new) };

    /// Fails the attempts that are in flight on this server over this link, and answers how many there were.
    fn fault(&mut self, server: u32, link: u64, at: u64) -> Result<u64, NoMemory>
        ensures done { Calls (Fails server link at result) 0 (known self.old) (known self.new) };

    /// When the next attempt in flight is due.
    fn next_due(&mut self) -> Option<u64>
        ensures done { Calls (TellsDue result) 0 (known self.old) (known self.new) };

    /// How much is pending, ready, waiting and in flight.
    fn counts(&mut self) -> Counts
        ensures done { Calls (TellsCounts result) 0 (known self.old) (known self.new) };

    /// Whether an attempt is in flight on this server over this link.
    fn link_busy(&mut self, server: u32, link: u64) -> bool
        ensures done { Calls (TellsBusy server link result) 0 (known self.old) (known self.new) };

    /// Makes these servers the channel's list, and answers how many attempts that closed: those on servers that left it.
    fn set_servers(&mut self, servers: &[ServerAddr]) -> Result<u64, SetFault>
        requires some { 1 ≤ length servers.now }
        requires few { length servers.now ≤ 8 }
        ensures done { Calls (SetsServers servers.now result) 0 (known self.old) (known self.new) };
}
