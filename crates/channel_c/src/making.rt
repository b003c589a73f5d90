//! How a channel begins and ends.

ghost use Rattle.std.specs.Prelude.{◌≡◌, IsSomeAnd, MatchBool, None, is_some};
ghost use Rattle.channel_model.specs.Meanings.{Cancels, Destroys};
ghost use Rattle.boxed_channel.specs.Making.{IsMadeBy};
ghost use Rattle.boxed_channel.specs.State.{KeepsBoth, MeansVoiced};
ghost use Rattle.c_types.specs.Told.{IfDone, UnlessDone};
ghost use Rattle.channel_c.specs.Texts.{AnswersTexts};
ghost use Rattle.channel_c.specs.Told.{first_told};
ghost use Rattle.channel_word.specs.Calls.{OnChannel};

use crate::answers::{CLOSED, DONE, HAS_CHANNEL, LARGE_HOSTS, LARGE_RESOLV, NO_CHANNEL, NO_MEMORY};
use channel_word::ChannelWord;
use std::alloc::Global;

/// The most bytes of a resolv.conf (this project's profile).
const RESOLV_MOST: usize = 65_536;

/// The most bytes of a hosts file (this project's profile).
const HOSTS_MOST: usize = 4_194_304;

/// Makes a channel by the texts of a resolv.conf and of a hosts file, whose journal is kept if that is wanted, and writes
/// its word. Answers 0; or 11 where there is a channel in the word already; or 7 and 8 where the one or the other text is too
/// large, the first looked at first; or 2 for want of memory, where neither is; and then nothing is written.
pub(crate) fn make(
    alloc: Global,
    resolv: &[u8],
    hosts: &[u8],
    keeps: bool,
    channel: &mut ChannelWord,
) -> u32
    ensures answers { MatchBool (is_some channel.old.pointer.state) (result ≡ 11)
        (AnswersTexts resolv.now hosts.now result) }
    ensures made { IfDone result
        (IsSomeAnd channel.new.pointer.state (IsMadeBy resolv.now hosts.now keeps)) }
    ensures stays { UnlessDone result (channel.new ≡ channel.old) }
{
    if channel.is_there() {
        return HAS_CHANNEL;
    }
    // Both lengths are looked at before any memory is asked for, so that want of it hides no large text.
    if resolv.len() > RESOLV_MOST {
        return LARGE_RESOLV;
    }
    if hosts.len() > HOSTS_MOST {
        return LARGE_HOSTS;
    }
    match boxed_channel::make(alloc, resolv, hosts, keeps) {
        Ok(boxed) => {
            *channel = ChannelWord::of(boxed);
            DONE
        }
        Err(_) => NO_MEMORY,
    }
}

/// Completes every pending request as cancelled, and writes how many there were.
#[tactic(auto, using(crate::proofs::CallLemmas::on_absent, crate::proofs::CallLemmas::on_there))]
pub(crate) fn cancel(channel: &mut ChannelWord, count: &mut u64) -> u32
    ensures done { OnChannel channel.old channel.new result (λ old new.
        (result ≡ 0) × MeansVoiced (Cancels count.new) old new × KeepsBoth old new) }
    ensures stays { UnlessDone result (count.new ≡ count.old) }
{
    if !channel.is_there() {
        return NO_CHANNEL;
    }
    *count = channel.pointer.state().cancel();
    DONE
}

/// Destroys the channel and completes every pending request so. Answers 0 where it was the first to do so, and else 1.
#[tactic(auto, using(crate::proofs::CallLemmas::on_absent, crate::proofs::CallLemmas::on_there))]
pub(crate) fn destroy(channel: &mut ChannelWord) -> u32
    ensures done { OnChannel channel.old channel.new result (λ old new.
        IsSomeAnd (first_told result) (λ first. MeansVoiced (Destroys first) old new)
        × KeepsBoth old new) }
{
    if !channel.is_there() {
        return NO_CHANNEL;
    }
    match channel.pointer.state().destroy() {
        true => DONE,
        false => CLOSED,
    }
}

/// Gives back all that the channel owns, and leaves a word without a channel.
pub(crate) fn free(alloc: Global, channel: &mut ChannelWord) -> u32
    ensures told { MatchBool (is_some channel.old.pointer.state) (result ≡ 0) (result ≡ 10) }
    ensures gone { channel.new.pointer.state ≡ None }
{
    match channel.free(alloc) {
        true => DONE,
        false => NO_CHANNEL,
    }
}
