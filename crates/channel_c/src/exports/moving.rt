//! C's calls of what happens outside.

ghost use Rattle.std.specs.Prelude.{[], ◌∷◌, ◌<◌, ◌^◌};
ghost use Rattle.channel_c.specs.Exports.{ArriveCall, ExpireCall, FaultCall, StartCall};
ghost use Rattle.channel_c.specs.Lent.{Attempt, Leg, Lent, Passed, lent_at, passed_at};
ghost use Rattle.channel_c.specs.Pointers.{Leaves, some_null};
ghost use denote.Builtin.{u64};
ghost use denote.RawPtr.{Testable};
ghost use types.Logic.{sem};

use crate::answers::NULL;
use crate::moving;
use c_types::{ToldAttempt, ToldLeg};
use channel_word::ChannelWord;
use std::slice::from_raw_parts;

/// Begins an attempt of the first leg that waits at this moment, with an identifier from this word upwards, and tells
/// it. Answers 3 where no leg waits, 4 where all identifiers are in flight, and 2 for want of memory.
#[unsafe(no_mangle)]
pub unsafe extern "C" fn dachumvi_start(
    channel: *mut ChannelWord,
    word: u16,
    mix: u16,
    at: u64,
    attempt: *mut ToldAttempt,
) -> u32
    ghost before: { Lent Attempt }
    requires channel { Testable channel }
    requires attempt { Testable attempt }
    requires* memory { sem 𝓛 (lent_at Attempt channel attempt before) }
    ensures* { sem 𝓛 (Leaves (some_null (channel ∷ attempt ∷ []))
        (lent_at Attempt channel attempt) before
        (StartCall word mix at result before) result) }
{
    if channel.is_null() {
        return NULL;
    }
    if attempt.is_null() {
        return NULL;
    }
    unsafe { moving::start(&mut *channel, word, mix, at, &mut *attempt) }
}

/// Takes in a message that came from this server over this link, and tells which leg's attempt it answers. Answers 3
/// where it answers none, and 2 for want of memory.
#[unsafe(no_mangle)]
pub unsafe extern "C" fn dachumvi_arrive(
    channel: *mut ChannelWord,
    server: u32,
    link: u64,
    message: *const u8,
    length: usize,
    leg: *mut ToldLeg,
) -> u32
    ghost before: { Passed Leg }
    requires channel { Testable channel }
    requires message { Testable message }
    requires leg { Testable leg }
    requires few { length < 2 ^ 63 }
    requires* memory { sem 𝓛 (passed_at Leg channel message length leg before.share before.bytes before.lent) }
    ensures* { sem 𝓛 (Leaves (some_null (channel ∷ message ∷ leg ∷ []))
        (passed_at Leg channel message length leg before.share before.bytes) before.lent
        (ArriveCall server link before.bytes result before.lent) result) }
{
    if channel.is_null() {
        return NULL;
    }
    if message.is_null() {
        return NULL;
    }
    if leg.is_null() {
        return NULL;
    }
    unsafe {
        moving::arrive(
            &mut *channel,
            server,
            link,
            from_raw_parts(message, length),
            &mut *leg,
        )
    }
}

/// Lets the attempt that is due first expire, if it is due at this moment, and tells whose it was. Answers 3 where none
/// is due, and 2 for want of memory.
#[unsafe(no_mangle)]
pub unsafe extern "C" fn dachumvi_expire(
    channel: *mut ChannelWord,
    at: u64,
    leg: *mut ToldLeg,
) -> u32
    ghost before: { Lent Leg }
    requires channel { Testable channel }
    requires leg { Testable leg }
    requires* memory { sem 𝓛 (lent_at Leg channel leg before) }
    ensures* { sem 𝓛 (Leaves (some_null (channel ∷ leg ∷ []))
        (lent_at Leg channel leg) before
        (ExpireCall at result before) result) }
{
    if channel.is_null() {
        return NULL;
    }
    if leg.is_null() {
        return NULL;
    }
    unsafe { moving::expire(&mut *channel, at, &mut *leg) }
}

/// Fails the attempts that are in flight on this server over this link, and writes how many there were. Answers 2 for
/// want of memory.
#[unsafe(no_mangle)]
pub unsafe extern "C" fn dachumvi_fault(
    channel: *mut ChannelWord,
    server: u32,
    link: u64,
    at: u64,
    count: *mut u64,
) -> u32
    ghost before: { Lent u64 }
    requires channel { Testable channel }
    requires count { Testable count }
    requires* memory { sem 𝓛 (lent_at u64 channel count before) }
    ensures* { sem 𝓛 (Leaves (some_null (channel ∷ count ∷ []))
        (lent_at u64 channel count) before
        (FaultCall server link at result before) result) }
{
    if channel.is_null() {
        return NULL;
    }
    if count.is_null() {
        return NULL;
    }
    unsafe { moving::fault(&mut *channel, server, link, at, &mut *count) }
}
