//! C's calls by which a channel begins and ends.

ghost use Rattle.std.specs.Prelude.{[], ◌∷◌, ◌<◌, ◌^◌};
ghost use Rattle.channel_c.specs.Exports.{CancelCall, DestroyCall, FreeCall, MakeCall};
ghost use Rattle.channel_c.specs.Lent.{Lent, Texts, Word, lent_at, texts_at, word_at};
ghost use Rattle.channel_c.specs.Pointers.{Leaves, some_null};
ghost use denote.Builtin.{u64};
ghost use denote.RawPtr.{Testable};
ghost use types.Logic.{sem};

use crate::answers::NULL;
use crate::making;
use channel_word::ChannelWord;
use std::alloc::Global;
use std::slice::from_raw_parts;

/// Makes a channel by the texts of a resolv.conf and of a hosts file, whose journal is kept if that is wanted, and writes
/// its word. Answers 0; or 11 where there is a channel in the word already; or 7 and 8 where the one or the other text is too
/// large, the first looked at first; or 2 for want of memory, where neither is; and then nothing is written.
#[unsafe(no_mangle)]
pub unsafe extern "C" fn dachumvi_make(
    alloc: Global,
    resolv: *const u8,
    resolv_length: usize,
    hosts: *const u8,
    hosts_length: usize,
    keeps: bool,
    channel: *mut ChannelWord,
) -> u32
    ghost before: { Texts }
    requires resolv { Testable resolv }
    requires hosts { Testable hosts }
    requires channel { Testable channel }
    requires few_resolv { resolv_length < 2 ^ 63 }
    requires few_hosts { hosts_length < 2 ^ 63 }
    requires* memory { sem 𝓛 (texts_at resolv resolv_length before.resolv_share before.resolv hosts hosts_length before.hosts_share before.hosts channel before.word) }
    ensures* { sem 𝓛 (Leaves (some_null (resolv ∷ hosts ∷ channel ∷ []))
        (texts_at resolv resolv_length before.resolv_share before.resolv hosts hosts_length before.hosts_share before.hosts channel) before.word
        (MakeCall before.resolv before.hosts keeps result before.word) result) }
{
    if resolv.is_null() {
        return NULL;
    }
    if hosts.is_null() {
        return NULL;
    }
    if channel.is_null() {
        return NULL;
    }
    unsafe {
        making::make(
            alloc,
            from_raw_parts(resolv, resolv_length),
            from_raw_parts(hosts, hosts_length),
            keeps,
            &mut *channel,
        )
    }
}

/// Completes every pending request as cancelled, and writes how many there were.
#[unsafe(no_mangle)]
pub unsafe extern "C" fn dachumvi_cancel(channel: *mut ChannelWord, count: *mut u64) -> u32
    ghost before: { Lent u64 }
    requires channel { Testable channel }
    requires count { Testable count }
    requires* memory { sem 𝓛 (lent_at u64 channel count before) }
    ensures* { sem 𝓛 (Leaves (some_null (channel ∷ count ∷ []))
        (lent_at u64 channel count) before
        (CancelCall result before) result) }
{
    if channel.is_null() {
        return NULL;
    }
    if count.is_null() {
        return NULL;
    }
    unsafe { making::cancel(&mut *channel, &mut *count) }
}

/// Destroys the channel and completes every pending request so. Answers 0 where it was the first to do so, and else 1.
#[unsafe(no_mangle)]
pub unsafe extern "C" fn dachumvi_destroy(channel: *mut ChannelWord) -> u32
    ghost before: { Word.Denot }
    requires channel { Testable channel }
    requires* memory { sem 𝓛 (word_at channel before) }
    ensures* { sem 𝓛 (Leaves (some_null (channel ∷ []))
        (word_at channel) before
        (DestroyCall result before) result) }
{
    if channel.is_null() {
        return NULL;
    }
    unsafe { making::destroy(&mut *channel) }
}

/// Gives back all that the channel owns, and leaves a word without a channel.
#[unsafe(no_mangle)]
pub unsafe extern "C" fn dachumvi_free(alloc: Global, channel: *mut ChannelWord) -> u32
    ghost before: { Word.Denot }
    requires channel { Testable channel }
    requires* memory { sem 𝓛 (word_at channel before) }
    ensures* { sem 𝓛 (Leaves (some_null (channel ∷ []))
        (word_at channel) before
        (FreeCall result before) result) }
{
    if channel.is_null() {
        return NULL;
    }
    unsafe { making::free(alloc, &mut *channel) }
}
