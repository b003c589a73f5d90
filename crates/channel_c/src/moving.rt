//! What happens outside: attempts begin, messages come, deadlines pass, links fail.

ghost use Rattle.std.specs.Prelude.{◌≡◌};
ghost use Rattle.channel_model.specs.Meanings.{Arrives, Expires, Fails, Starts};
ghost use Rattle.boxed_channel.specs.State.{KeepsBegun, KeepsBoth, KeepsTaken, MeansTold};
ghost use Rattle.channel_word.specs.Calls.{OnChannel};
ghost use Rattle.c_types.specs.Told.{IfDone, IsToldOf, UnlessDone, begun_told, failed_told, landed_told, lapse_told};

use crate::answers::NO_CHANNEL;
use c_types::{ToldAttempt, ToldLeg};
use channel_word::ChannelWord;

/// Begins an attempt of the first leg that waits at this moment, with an identifier from this word upwards, and tells
/// it. Answers 3 where no leg waits, 4 where all identifiers are in flight, and 2 for want of memory.
#[tactic(auto, using(crate::proofs::CallLemmas::on_absent, crate::proofs::CallLemmas::on_there, crate::proofs::CallLemmas::unless_first, crate::proofs::CallLemmas::unless_second))]
pub(crate) fn start(
    channel: &mut ChannelWord,
    word: u16,
    mix: u16,
    at: u64,
    attempt: &mut ToldAttempt,
) -> u32
    ensures done { OnChannel channel.old channel.new result (λ old new.
        MeansTold (Starts word mix at) (begun_told result attempt.new new.begun) old new
        × IfDone result (IsToldOf new.begun attempt.new)
        × KeepsTaken old new × UnlessDone result (KeepsBegun old new)) }
    ensures stays { UnlessDone result (attempt.new ≡ attempt.old) }
{
    if !channel.is_there() {
        return NO_CHANNEL;
    }
    channel.pointer.state().start(word, mix, at, attempt)
}

/// Takes in a message that came from this server over this link, and tells which leg's attempt it answers. Answers 3
/// where it answers none, and 2 for want of memory.
#[tactic(auto, using(crate::proofs::CallLemmas::on_absent, crate::proofs::CallLemmas::on_there))]
pub(crate) fn arrive(
    channel: &mut ChannelWord,
    server: u32,
    link: u64,
    message: &[u8],
    leg: &mut ToldLeg,
) -> u32
    ensures done { OnChannel channel.old channel.new result (λ old new.
        MeansTold (Arrives server link message.now) (landed_told result leg.new) old new × KeepsBoth old new) }
    ensures stays { UnlessDone result (leg.new ≡ leg.old) }
{
    if !channel.is_there() {
        return NO_CHANNEL;
    }
    channel.pointer.state().arrive(server, link, message, leg)
}

/// Lets the attempt that is due first expire, if it is due at this moment, and tells whose it was. Answers 3 where none
/// is due, and 2 for want of memory.
#[tactic(auto, using(crate::proofs::CallLemmas::on_absent, crate::proofs::CallLemmas::on_there))]
pub(crate) fn expire(channel: &mut ChannelWord, at: u64, leg: &mut ToldLeg) -> u32
    ensures done { OnChannel channel.old channel.new result (λ old new.
        MeansTold (Expires at) (lapse_told result leg.new) old new × KeepsBoth old new) }
    ensures stays { UnlessDone result (leg.new ≡ leg.old) }
{
    if !channel.is_there() {
        return NO_CHANNEL;
    }
    channel.pointer.state().expire(at, leg)
}

/// Fails the attempts that are in flight on this server over this link, and writes how many there were. Answers 2 for
/// want of memory.
#[tactic(auto, using(crate::proofs::CallLemmas::on_absent, crate::proofs::CallLemmas::on_there))]
pub(crate) fn fault(
    channel: &mut ChannelWord,
    server: u32,
    link: u64,
    at: u64,
    count: &mut u64,
) -> u32
    ensures done { OnChannel channel.old channel.new result (λ old new.
        MeansTold (Fails server link at) (failed_told result count.new) old new × KeepsBoth old new) }
    ensures stays { UnlessDone result (count.new ≡ count.old) }
{
    if !channel.is_there() {
        return NO_CHANNEL;
    }
    channel.pointer.state().fault(server, link, at, count)
}
