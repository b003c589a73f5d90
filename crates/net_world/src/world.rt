//! The network, the clock and the random words, as callers see them.

ghost use base.Stored.{Gv};
ghost use Rattle.std.specs.Prelude.{◌≡◌, List, ℕ, Option, Result, length, IfOk};
ghost use Rattle.net_world.specs.declared.answers.Got.{Got};
ghost use Rattle.net_world.specs.declared.log.WorldCall.{WorldCall};
ghost use Rattle.net_world.specs.declared.log.WorldCall.TheVariants.{Serve, Now, Word, Send, Connect, Write, Receive, Close, Wait};
ghost use Rattle.net_world.specs.Cause.{HasCause, never, is_not_sent, is_not_written, is_link_failed, is_not_waited};
ghost use Rattle.net_world.specs.Logs.{Logs};
ghost use Rattle.net_world.specs.World.{Reads, MayBring, Receives, Closes, IsPartOf, IsWhole};

use crate::answers::{Got, Sent, Waited, Wrote};
use dns_message::NoMemory;
use net_addr::ServerAddr;

/// The network, the clock and the random words of a resolver. After `NoMemory` it is as before.
pub trait World {
    /// All its calls with their answers, where it tells them.
    ghost log: { Self → Option (List WorldCall) };

    /// What receive gives now, in order, where it tells this.
    ghost items: { Self → Option (List Got) };

    /// How often it failed, waits apart.
    ghost faults: { Self → ℕ };

    /// How often a wait failed.
    ghost wait_faults: { Self → ℕ };

    /// The clock's last reading, 0 before the first.
    ghost reading: { Self → ℕ };

    /// What tells how it was made. No call changes it.
    ghost origin: { Self → Gv };

    /// Tells the server's address from now on.
    fn serve(&mut self, server: u32, address: &ServerAddr) -> Result<(), NoMemory>
        ensures log { Logs (log self.old) (log self.new) result (λ _. Serve server address.now) }
        ensures cause { HasCause (faults self.old) (faults self.new) never result }
        ensures wait_cause { wait_faults self.new ≡ wait_faults self.old }
        ensures items { items self.new ≡ items self.old }
        ensures reading { reading self.new ≡ reading self.old }
        ensures origin { origin self.new ≡ origin self.old };

    /// Reads the clock, in milliseconds. A reading is never below an earlier one.
    fn now(&mut self) -> Result<u64, NoMemory>
        ensures log { Logs (log self.old) (log self.new) result (λ reading. Now reading) }
        ensures cause { HasCause (faults self.old) (faults self.new) never result }
        ensures wait_cause { wait_faults self.new ≡ wait_faults self.old }
        ensures items { items self.new ≡ items self.old }
        ensures reading { Reads (reading self.old) (reading self.new) result }
        ensures origin { origin self.new ≡ origin self.old };

    /// Draws a random word.
    fn word(&mut self) -> Result<u16, NoMemory>
        ensures log { Logs (log self.old) (log self.new) result (λ word. Word word) }
        ensures cause { HasCause (faults self.old) (faults self.new) never result }
        ensures wait_cause { wait_faults self.new ≡ wait_faults self.old }
        ensures items { items self.new ≡ items self.old }
        ensures reading { reading self.new ≡ reading self.old }
        ensures origin { origin self.new ≡ origin self.old };

    /// Sends a datagram to the server. It may be lost.
    fn send(&mut self, server: u32, bytes: &[u8]) -> Result<Sent, NoMemory>
        ensures log { Logs (log self.old) (log self.new) result (λ sent. Send server bytes.now sent) }
        ensures cause { HasCause (faults self.old) (faults self.new) is_not_sent result }
        ensures wait_cause { wait_faults self.new ≡ wait_faults self.old }
        ensures items { MayBring (items self.old) (items self.new) result }
        ensures reading { reading self.new ≡ reading self.old }
        ensures origin { origin self.new ≡ origin self.old };

    /// Begins a link to the server, under this number.
    fn connect(&mut self, server: u32, link: u64) -> Result<Sent, NoMemory>
        ensures log { Logs (log self.old) (log self.new) result (λ sent. Connect server link sent) }
        ensures cause { HasCause (faults self.old) (faults self.new) is_not_sent result }
        ensures wait_cause { wait_faults self.new ≡ wait_faults self.old }
        ensures items { MayBring (items self.old) (items self.new) result }
        ensures reading { reading self.new ≡ reading self.old }
        ensures origin { origin self.new ≡ origin self.old };

    /// Writes to the link, which takes so many of the bytes, the first ones.
    fn write(&mut self, link: u64, bytes: &[u8]) -> Result<Wrote, NoMemory>
        ensures log { Logs (log self.old) (log self.new) result (λ wrote. Write link bytes.now wrote) }
        ensures cause { HasCause (faults self.old) (faults self.new) is_not_written result }
        ensures wait_cause { wait_faults self.new ≡ wait_faults self.old }
        ensures items { MayBring (items self.old) (items self.new) result }
        ensures reading { reading self.new ≡ reading self.old }
        ensures origin { origin self.new ≡ origin self.old }
        ensures answer { IfOk result (IsPartOf (length bytes.now)) };

    /// Receives the next datagram, or bytes or the end of a link.
    fn receive(&mut self) -> Result<Got, NoMemory>
        ensures log { Logs (log self.old) (log self.new) result (λ got. Receive got) }
        ensures cause { HasCause (faults self.old) (faults self.new) is_link_failed result }
        ensures wait_cause { wait_faults self.new ≡ wait_faults self.old }
        ensures items { Receives (items self.old) (items self.new) result }
        ensures reading { reading self.new ≡ reading self.old }
        ensures origin { origin self.new ≡ origin self.old }
        ensures answer { IfOk result IsWhole };

    /// Closes the link. Nothing of it is received any more.
    fn close(&mut self, link: u64) -> Result<(), NoMemory>
        ensures log { Logs (log self.old) (log self.new) result (λ _. Close link) }
        ensures cause { HasCause (faults self.old) (faults self.new) never result }
        ensures wait_cause { wait_faults self.new ≡ wait_faults self.old }
        ensures items { Closes link (items self.old) (items self.new) result }
        ensures reading { reading self.new ≡ reading self.old }
        ensures origin { origin self.new ≡ origin self.old };

    /// Waits until something can be received, or until this moment of the clock.
    fn wait(&mut self, until: u64) -> Result<Waited, NoMemory>
        ensures log { Logs (log self.old) (log self.new) result (λ waited. Wait until waited) }
        ensures cause { HasCause (faults self.old) (faults self.new) never result }
        ensures wait_cause { HasCause (wait_faults self.old) (wait_faults self.new) is_not_waited result }
        ensures items { MayBring (items self.old) (items self.new) result }
        ensures reading { reading self.new ≡ reading self.old }
        ensures origin { origin self.new ≡ origin self.old };
}
