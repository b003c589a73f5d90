//! The channel of a caller in C, with what he may still copy.

ghost use Rattle.std.specs.Prelude.{◌≡◌, IfErr, IfOk, length, min};
ghost use Rattle.chan_types.specs.declared.spec.Spec.TheVariants as specs;
ghost use Rattle.channel_model.specs.Meanings.{Arrives, Cancels, Destroys, Expires, Fails, Starts, Takes, TellsBusy, TellsCounts, TellsDue};
ghost use Rattle.c_types.specs.Addresses.{address_bytes, bytes_at};
ghost use Rattle.c_types.specs.Laid.{laid_over};
ghost use Rattle.c_types.specs.Faults.{HasCause};
ghost use Rattle.boxed_channel.specs.Journaled.{text_kept};
ghost use Rattle.boxed_channel.specs.Making.{IsMadeBy, kept_if};
ghost use Rattle.c_types.specs.Outgoing.{sending};
ghost use Rattle.boxed_channel.specs.State.{AsksAddress, AsksFor, AsksReverse, IfWanting, IsOpen, KeepsBegun, KeepsBoth, KeepsTaken, Means, MeansTold, MeansVoiced, TellsText};
ghost use Rattle.c_types.specs.Told.{IfDone, IsToldOf, UnlessDone, begun_told, counts_told, due_told, failed_told, landed_told, lapse_told, quiet, request_told, taken_told};

use crate::journaled::Journaled;
use c_types::{
    MakeFault, Outgoing, ToldAttempt, ToldCounts, ToldLeg, ToldRequest, address_in, family_of, lay,
    lay_address, lay_at, lines_of, options_of,
};
use chan_types::{Answer, Bytes, Call, NoMemory, Quiet, Refusal, Spec};
use channel_model::{Begun, Landed, Lapse};
use std::alloc::Global;

/// The call did what it is for.
const DONE: u32 = 0;

/// The channel was destroyed.
const CLOSED: u32 = 1;

/// Want of memory.
const NO_MEMORY: u32 = 2;

/// There was nothing to do.
const NOTHING: u32 = 3;

/// All identifiers are in flight.
const NO_ID: u32 = 4;

/// No family has this number.
const BAD_FAMILY: u32 = 5;

/// No address has so many bytes.
const BAD_LENGTH: u32 = 6;

/// The journal isn't kept.
const NOT_KEPT: u32 = 9;

/// A channel with one owner, the attempt that was begun last, and the request that was taken last.
#[derive(Drop)]
pub struct ChannelState {
    alloc: Global,
    channel: Journaled,
    begun: Outgoing,
    taken: Call,
}

impl ChannelState {
    /// A channel without a request, by the texts of a resolv.conf and of a hosts file. Its journal is kept, if that is
    /// wanted.
    pub fn make(
        alloc: Global,
        resolv: &[u8],
        hosts: &[u8],
        keeps: bool,
    ) -> Result<ChannelState, MakeFault>
        ensures made { IfOk result (IsMadeBy resolv.now hosts.now keeps) }
        ensures cause { IfErr result (HasCause resolv.now hosts.now) }
    {
        let options = match options_of(alloc, resolv) {
            Ok(options) => options,
            Err(fault) => return Err(fault),
        };
        let lines = match lines_of(alloc, hosts) {
            Ok(lines) => lines,
            Err(fault) => return Err(fault),
        };
        let kept = kept_of(alloc, hosts, keeps)?;
        Ok(ChannelState {
            alloc,
            channel: Journaled::make(alloc, options, lines, kept)?,
            begun: Outgoing::nothing(alloc),
            taken: Call::make(alloc)?,
        })
    }

    /// Asks for records of this name.
    pub fn query(&mut self, name: &[u8], kind: u16, class: u16, number: &mut u64) -> u32
        ensures asks { AsksFor (specs.Query name.now kind class) result number.new
            self.old self.new }
        ensures copies { KeepsBoth self.old self.new }
        ensures stays { UnlessDone result (number.new ≡ number.old) }
    {
        match Bytes::of(self.alloc, name) {
            Ok(name) => self.ask(Spec::Query { name, kind, class }, number),
            Err(_) => NO_MEMORY,
        }
    }

    /// Asks for records of this name, or of its candidates by the search list.
    pub fn search(&mut self, name: &[u8], kind: u16, class: u16, number: &mut u64) -> u32
        ensures asks { AsksFor (specs.Search name.now kind class) result number.new
            self.old self.new }
        ensures copies { KeepsBoth self.old self.new }
        ensures stays { UnlessDone result (number.new ≡ number.old) }
    {
        match Bytes::of(self.alloc, name) {
            Ok(name) => self.ask(Spec::Search { name, kind, class }, number),
            Err(_) => NO_MEMORY,
        }
    }

    /// Asks for the addresses of a host, of the family of this number.
    pub fn address(&mut self, host: &[u8], family: u32, nosort: bool, number: &mut u64) -> u32
        ensures asks { AsksAddress host.now family nosort result number.new self.old self.new }
        ensures copies { KeepsBoth self.old self.new }
        ensures stays { UnlessDone result (number.new ≡ number.old) }
    {
        match family_of(family) {
            Some(family) => match Bytes::of(self.alloc, host) {
                Ok(host) => self.ask(
                    Spec::Address {
                        host,
                        family,
                        nosort,
                    },
                    number,
                ),
                Err(_) => NO_MEMORY,
            },
            None => BAD_FAMILY,
        }
    }

    /// Asks for the names of the address of these bytes. It copies no name, so that a channel that was destroyed says so
    /// whatever memory there is.
    pub fn reverse(&mut self, address: &[u8], number: &mut u64) -> u32
        ensures asks { AsksReverse address.now result number.new self.old self.new }
        ensures wants { IfWanting result (IsOpen self.old) }
        ensures copies { KeepsBoth self.old self.new }
        ensures stays { UnlessDone result (number.new ≡ number.old) }
    {
        match address_in(address) {
            Some(address) => self.ask(Spec::Reverse { address }, number),
            None => BAD_LENGTH,
        }
    }

    /// Asks this, and writes the number of the request. Memory is wanting only where the channel is open.
    fn ask(&mut self, spec: Spec, number: &mut u64) -> u32
        ensures asks { AsksFor spec result number.new self.old self.new }
        ensures wants { IfWanting result (IsOpen self.old) }
        ensures copies { KeepsBoth self.old self.new }
        ensures stays { UnlessDone result (number.new ≡ number.old) }
    {
        match self.channel.accept(spec, Quiet::new(self.alloc)) {
            Ok(accepted) => {
                *number = accepted;
                DONE
            }
            Err(refused) => match refused.why {
                Refusal::Closed => CLOSED,
                Refusal::NoMemory => NO_MEMORY,
            },
        }
    }

    /// Begins an attempt of the first waiting leg, which then is the one begun last, and tells it.
    pub fn start(&mut self, word: u16, mix: u16, at: u64, attempt: &mut ToldAttempt) -> u32
        ensures done { MeansTold (Starts word mix at)
            (begun_told result attempt.new self.new.begun) self.old self.new }
        ensures told { IfDone result (IsToldOf self.new.begun attempt.new) }
        ensures copies { KeepsTaken self.old self.new }
        ensures stays { UnlessDone result ((attempt.new ≡ attempt.old)
            × KeepsBegun self.old self.new) }
    {
        match self.channel.start(word, mix, at) {
            Ok(
                Begun::Started {
                    number,
                    leg,
                    server,
                    address,
                    link,
                    id,
                    message,
                },
            ) => {
                self.begun = Outgoing {
                    link,
                    address: address.address,
                    message,
                };
                *attempt = ToldAttempt {
                    number,
                    link,
                    length: self.begun.count(),
                    server,
                    id,
                    port: address.port,
                    leg,
                };
                DONE
            }
            Ok(Begun::Idle) => NOTHING,
            Ok(Begun::NoId) => NO_ID,
            Err(_) => NO_MEMORY,
        }
    }

    /// Takes in a message that came from this server over this link.
    pub fn arrive(&mut self, server: u32, link: u64, message: &[u8], leg: &mut ToldLeg) -> u32
        ensures done { MeansTold (Arrives server link message.now)
            (landed_told result leg.new) self.old self.new }
        ensures copies { KeepsBoth self.old self.new }
        ensures stays { UnlessDone result (leg.new ≡ leg.old) }
    {
        match self.channel.arrive(server, link, message) {
            Ok(
                Landed::Matched {
                    number,
                    leg: matched,
                },
            ) => {
                *leg = ToldLeg {
                    number,
                    leg: matched,
                };
                DONE
            }
            Ok(Landed::Stray) => NOTHING,
            Err(_) => NO_MEMORY,
        }
    }

    /// Lets the attempt that is due first expire, if it is due at this moment.
    pub fn expire(&mut self, at: u64, leg: &mut ToldLeg) -> u32
        ensures done { MeansTold (Expires at) (lapse_told result leg.new) self.old self.new }
        ensures copies { KeepsBoth self.old self.new }
        ensures stays { UnlessDone result (leg.new ≡ leg.old) }
    {
        match self.channel.expire(at) {
            Ok(
                Lapse::Expired {
                    number,
                    leg: expired,
                },
            ) => {
                *leg = ToldLeg {
                    number,
                    leg: expired,
                };
                DONE
            }
            Ok(Lapse::NotDue) => NOTHING,
            Err(_) => NO_MEMORY,
        }
    }

    /// Fails the attempts that are in flight on this server over this link, and writes how many there were.
    pub fn fault(&mut self, server: u32, link: u64, at: u64, count: &mut u64) -> u32
        ensures done { MeansTold (Fails server link at) (failed_told result count.new)
            self.old self.new }
        ensures copies { KeepsBoth self.old self.new }
        ensures stays { UnlessDone result (count.new ≡ count.old) }
    {
        match self.channel.fault(server, link, at) {
            Ok(failed) => {
                *count = failed;
                DONE
            }
            Err(_) => NO_MEMORY,
        }
    }

    /// Writes when the next attempt in flight is due, if one is in flight.
    pub fn next_due(&mut self, at: &mut u64) -> u32
        ensures done { MeansTold TellsDue (due_told result at.new) self.old self.new }
        ensures copies { KeepsBoth self.old self.new }
        ensures stays { UnlessDone result (at.new ≡ at.old) }
    {
        match self.channel.next_due() {
            Some(due) => {
                *at = due;
                DONE
            }
            None => NOTHING,
        }
    }

    /// Writes how much is pending, ready, waiting and in flight.
    pub fn counts(&mut self, counts: &mut ToldCounts)
        ensures done { Means (TellsCounts (counts_told counts.new)) self.old self.new }
        ensures copies { KeepsBoth self.old self.new }
    {
        let found = self.channel.counts();
        *counts = ToldCounts {
            pending: found.pending,
            ready: found.ready,
            waiting: found.waiting,
            flying: found.flying,
        };
    }

    /// Whether an attempt is in flight on this server over this link.
    pub fn link_busy(&mut self, server: u32, link: u64) -> bool
        ensures done { Means (TellsBusy server link result) self.old self.new }
        ensures copies { KeepsBoth self.old self.new }
    {
        self.channel.link_busy(server, link)
    }

    /// Completes every pending request as cancelled, and answers how many there were.
    pub fn cancel(&mut self) -> u64
        ensures done { MeansVoiced (Cancels result) self.old self.new }
        ensures copies { KeepsBoth self.old self.new }
    {
        self.channel.cancel()
    }

    /// Destroys the channel and completes every pending request so. Answers whether it was the first to do so.
    pub fn destroy(&mut self) -> bool
        ensures done { MeansVoiced (Destroys result) self.old self.new }
        ensures copies { KeepsBoth self.old self.new }
    {
        self.channel.destroy()
    }

    /// Moves out the first ready request, which then is the one taken last, and tells it.
    pub fn take(&mut self, request: &mut ToldRequest) -> u32
        ensures done { MeansTold (Takes quiet) (taken_told result self.new.taken)
            self.old self.new }
        ensures told { IfDone result (request.new ≡ request_told self.new.taken) }
        ensures copies { KeepsBegun self.old self.new }
        ensures stays { UnlessDone result ((request.new ≡ request.old)
            × KeepsTaken self.old self.new) }
    {
        match self.channel.take() {
            Some(ticket) => {
                let (_quiet, call) = ticket.spend();
                *request = told(call.answer());
                self.taken = call;
                DONE
            }
            None => NOTHING,
        }
    }

    /// Lays the bytes that the attempt begun last is to send over the buffer.
    pub fn copy_bytes(&self, out: &mut [u8]) -> usize
        ensures count { result ≡ min (length (sending self.now.begun)) (length out.old) }
        ensures laid { out.new ≡ laid_over (sending self.now.begun) out.old }
    {
        self.begun.lay_bytes(out)
    }

    /// Lays the bytes of its server's address over the buffer.
    pub fn copy_server(&self, out: &mut [u8]) -> usize
        ensures count { result ≡ min (length (address_bytes self.now.begun.address))
            (length out.old) }
        ensures laid { out.new ≡ laid_over (address_bytes self.now.begun.address) out.old }
    {
        lay_address(self.begun.address, out)
    }

    /// Lays the bytes of the reply of the request taken last over the buffer.
    pub fn copy_message(&self, out: &mut [u8]) -> usize
        ensures count { result ≡ min (length self.now.taken.message) (length out.old) }
        ensures laid { out.new ≡ laid_over self.now.taken.message out.old }
    {
        lay(self.taken.answer().message.as_slice(), out)
    }

    /// Lays the bytes of the address at the index of the request taken last over the buffer, if there is one.
    pub fn copy_address(&self, index: usize, out: &mut [u8]) -> usize
        ensures count { result ≡ min (length (bytes_at index self.now.taken.addresses))
            (length out.old) }
        ensures laid { out.new ≡ laid_over (bytes_at index self.now.taken.addresses) out.old }
    {
        lay_at(index, self.taken.answer().addresses.as_slice(), out)
    }

    /// Lays the text of the journal over the buffer, if it is kept, and writes how many bytes the text has.
    pub fn copy_journal(&self, out: &mut [u8], size: &mut usize) -> u32
        ensures text { TellsText (text_kept self.now.channel) result size.new out.old out.new }
        ensures stays { UnlessDone result ((size.new ≡ size.old) × (out.new ≡ out.old)) }
    {
        match self.channel.text(self.alloc) {
            Ok(Some(text)) => {
                *size = text.len();
                lay(text.as_slice(), out);
                DONE
            }
            Ok(None) => NOT_KEPT,
            Err(_) => NO_MEMORY,
        }
    }
}

/// A copy of these bytes, where they are to be kept.
fn kept_of(alloc: Global, bytes: &[u8], keeps: bool) -> Result<Option<Bytes>, NoMemory>
    ensures { IfOk result (λ kept. kept ≡ kept_if keeps bytes.now) }
{
    match keeps {
        true => Ok(Some(Bytes::of(alloc, bytes)?)),
        false => Ok(None),
    }
}

/// What is told of an answer.
fn told(answer: &Answer) -> ToldRequest
    ensures { result ≡ request_told answer.now }
{
    ToldRequest {
        number: answer.number,
        message: answer.message.len(),
        addresses: answer.addresses.len(),
        status: answer.status.code(),
    }
}
