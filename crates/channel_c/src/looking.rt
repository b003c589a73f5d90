//! What is asked of a channel without changing it.

ghost use Rattle.std.specs.Prelude.{◌≡◌};
ghost use Rattle.channel_model.specs.Meanings.{TellsBusy, TellsCounts, TellsDue};
ghost use Rattle.boxed_channel.specs.State.{KeepsBoth, Means, MeansTold};
ghost use Rattle.channel_word.specs.Calls.{OnChannel};
ghost use Rattle.c_types.specs.Told.{UnlessDone, counts_told, due_told};
ghost use Rattle.channel_c.specs.Told.{busy_told};

use crate::answers::{DONE, NO_CHANNEL, NOTHING};
use c_types::ToldCounts;
use channel_word::ChannelWord;

/// Writes when the next attempt in flight is due. Answers 3 where none is in flight.
#[tactic(auto, using(crate::proofs::CallLemmas::on_absent, crate::proofs::CallLemmas::on_there))]
pub(crate) fn next_due(channel: &mut ChannelWord, at: &mut u64) -> u32
    ensures done { OnChannel channel.old channel.new result (λ old new.
        MeansTold TellsDue (due_told result at.new) old new × KeepsBoth old new) }
    ensures stays { UnlessDone result (at.new ≡ at.old) }
{
    if !channel.is_there() {
        return NO_CHANNEL;
    }
    channel.pointer.state().next_due(at)
}

/// Writes how many requests are pending and ready, and how many legs wait and are in flight.
#[tactic(auto, using(crate::proofs::CallLemmas::on_absent, crate::proofs::CallLemmas::on_there))]
pub(crate) fn count(channel: &mut ChannelWord, counts: &mut ToldCounts) -> u32
    ensures done { OnChannel channel.old channel.new result (λ old new.
        (result ≡ 0) × Means (TellsCounts (counts_told counts.new)) old new
        × KeepsBoth old new) }
    ensures stays { UnlessDone result (counts.new ≡ counts.old) }
{
    if !channel.is_there() {
        return NO_CHANNEL;
    }
    channel.pointer.state().counts(counts);
    DONE
}

/// Answers 0 where an attempt is in flight on this server over this link, and 3 where none is.
#[tactic(auto, using(crate::proofs::CallLemmas::on_absent, crate::proofs::CallLemmas::on_there))]
pub(crate) fn link_busy(channel: &mut ChannelWord, server: u32, link: u64) -> u32
    ensures done { OnChannel channel.old channel.new result (λ old new.
        MeansTold (TellsBusy server link) (busy_told result) old new × KeepsBoth old new) }
{
    if !channel.is_there() {
        return NO_CHANNEL;
    }
    match channel.pointer.state().link_busy(server, link) {
        true => DONE,
        false => NOTHING,
    }
}
