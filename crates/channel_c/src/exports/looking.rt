//! C's calls that ask after a channel without changing it.

ghost use Rattle.std.specs.Prelude.{[], ◌∷◌};
ghost use Rattle.channel_c.specs.Exports.{BusyCall, CountCall, DueCall};
ghost use Rattle.channel_c.specs.Lent.{Counts, Lent, Word, lent_at, word_at};
ghost use Rattle.channel_c.specs.Pointers.{Leaves, some_null};
ghost use denote.Builtin.{u64};
ghost use denote.RawPtr.{Testable};
ghost use types.Logic.{sem};

use crate::answers::NULL;
use crate::looking;
use c_types::ToldCounts;
use channel_word::ChannelWord;

/// Writes when the next attempt in flight is due. Answers 3 where none is in flight.
#[unsafe(no_mangle)]
pub unsafe extern "C" fn dachumvi_next_due(channel: *mut ChannelWord, at: *mut u64) -> u32
    ghost before: { Lent u64 }
    requires channel { Testable channel }
    requires at { Testable at }
    requires* memory { sem 𝓛 (lent_at u64 channel at before) }
    ensures* { sem 𝓛 (Leaves (some_null (channel ∷ at ∷ []))
        (lent_at u64 channel at) before
        (DueCall result before) result) }
{
    if channel.is_null() {
        return NULL;
    }
    if at.is_null() {
        return NULL;
    }
    unsafe { looking::next_due(&mut *channel, &mut *at) }
}

/// Writes how many requests are pending and ready, and how many legs wait and are in flight.
#[unsafe(no_mangle)]
pub unsafe extern "C" fn dachumvi_count(channel: *mut ChannelWord, counts: *mut ToldCounts) -> u32
    ghost before: { Lent Counts }
    requires channel { Testable channel }
    requires counts { Testable counts }
    requires* memory { sem 𝓛 (lent_at Counts channel counts before) }
    ensures* { sem 𝓛 (Leaves (some_null (channel ∷ counts ∷ []))
        (lent_at Counts channel counts) before
        (CountCall result before) result) }
{
    if channel.is_null() {
        return NULL;
    }
    if counts.is_null() {
        return NULL;
    }
    unsafe { looking::count(&mut *channel, &mut *counts) }
}

/// Answers 0 where an attempt is in flight on this server over this link, and 3 where none is.
#[unsafe(no_mangle)]
pub unsafe extern "C" fn dachumvi_link_busy(
    channel: *mut ChannelWord,
    server: u32,
    link: u64,
) -> u32
    ghost before: { Word.Denot }
    requires channel { Testable channel }
    requires* memory { sem 𝓛 (word_at channel before) }
    ensures* { sem 𝓛 (Leaves (some_null (channel ∷ []))
        (word_at channel) before
        (BusyCall server link result before) result) }
{
    if channel.is_null() {
        return NULL;
    }
    unsafe { looking::link_busy(&mut *channel, server, link) }
}
