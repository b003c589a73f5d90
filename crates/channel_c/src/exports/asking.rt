//! C's calls that ask for something, and take what has completed.

ghost use Rattle.std.specs.Prelude.{[], ◌∷◌, ◌<◌, ◌^◌};
ghost use Rattle.chan_types.specs.declared.spec.Spec.TheVariants as specs;
ghost use Rattle.channel_c.specs.Exports.{AddressCall, AskCall, ReverseCall, TakeCall};
ghost use Rattle.channel_c.specs.Lent.{Lent, Passed, Request, lent_at, passed_at};
ghost use Rattle.channel_c.specs.Pointers.{Leaves, some_null};
ghost use denote.Builtin.{u64};
ghost use denote.RawPtr.{Testable};
ghost use types.Logic.{sem};

use crate::answers::NULL;
use crate::asking;
use c_types::ToldRequest;
use channel_word::ChannelWord;
use std::slice::from_raw_parts;

/// Asks for records of this name, and writes the request's number.
#[unsafe(no_mangle)]
pub unsafe extern "C" fn dachumvi_query(
    channel: *mut ChannelWord,
    name: *const u8,
    length: usize,
    kind: u16,
    class: u16,
    number: *mut u64,
) -> u32
    ghost before: { Passed u64 }
    requires channel { Testable channel }
    requires name { Testable name }
    requires number { Testable number }
    requires few { length < 2 ^ 63 }
    requires* memory { sem 𝓛 (passed_at u64 channel name length number before.share before.bytes before.lent) }
    ensures* { sem 𝓛 (Leaves (some_null (channel ∷ name ∷ number ∷ []))
        (passed_at u64 channel name length number before.share before.bytes) before.lent
        (AskCall (specs.Query before.bytes kind class) result before.lent) result) }
{
    if channel.is_null() {
        return NULL;
    }
    if name.is_null() {
        return NULL;
    }
    if number.is_null() {
        return NULL;
    }
    unsafe {
        asking::query(
            &mut *channel,
            from_raw_parts(name, length),
            kind,
            class,
            &mut *number,
        )
    }
}

/// Asks for records of this name, or of its candidates by the search list, and writes the request's number.
#[unsafe(no_mangle)]
pub unsafe extern "C" fn dachumvi_search(
    channel: *mut ChannelWord,
    name: *const u8,
    length: usize,
    kind: u16,
    class: u16,
    number: *mut u64,
) -> u32
    ghost before: { Passed u64 }
    requires channel { Testable channel }
    requires name { Testable name }
    requires number { Testable number }
    requires few { length < 2 ^ 63 }
    requires* memory { sem 𝓛 (passed_at u64 channel name length number before.share before.bytes before.lent) }
    ensures* { sem 𝓛 (Leaves (some_null (channel ∷ name ∷ number ∷ []))
        (passed_at u64 channel name length number before.share before.bytes) before.lent
        (AskCall (specs.Search before.bytes kind class) result before.lent) result) }
{
    if channel.is_null() {
        return NULL;
    }
    if name.is_null() {
        return NULL;
    }
    if number.is_null() {
        return NULL;
    }
    unsafe {
        asking::search(
            &mut *channel,
            from_raw_parts(name, length),
            kind,
            class,
            &mut *number,
        )
    }
}

/// Asks for the addresses of a host, of both families by 0, or of one by 4 or 6, and writes the request's number. Any
/// other family is answered with 5, and nothing changes.
#[unsafe(no_mangle)]
pub unsafe extern "C" fn dachumvi_address(
    channel: *mut ChannelWord,
    host: *const u8,
    length: usize,
    family: u32,
    nosort: bool,
    number: *mut u64,
) -> u32
    ghost before: { Passed u64 }
    requires channel { Testable channel }
    requires host { Testable host }
    requires number { Testable number }
    requires few { length < 2 ^ 63 }
    requires* memory { sem 𝓛 (passed_at u64 channel host length number before.share before.bytes before.lent) }
    ensures* { sem 𝓛 (Leaves (some_null (channel ∷ host ∷ number ∷ []))
        (passed_at u64 channel host length number before.share before.bytes) before.lent
        (AddressCall before.bytes family nosort result before.lent) result) }
{
    if channel.is_null() {
        return NULL;
    }
    if host.is_null() {
        return NULL;
    }
    if number.is_null() {
        return NULL;
    }
    unsafe {
        asking::address(
            &mut *channel,
            from_raw_parts(host, length),
            family,
            nosort,
            &mut *number,
        )
    }
}

/// Asks for the names of an address of four or sixteen bytes, and writes the request's number. Any other length is
/// answered with 6, and nothing changes.
#[unsafe(no_mangle)]
pub unsafe extern "C" fn dachumvi_reverse(
    channel: *mut ChannelWord,
    address: *const u8,
    length: usize,
    number: *mut u64,
) -> u32
    ghost before: { Passed u64 }
    requires channel { Testable channel }
    requires address { Testable address }
    requires number { Testable number }
    requires few { length < 2 ^ 63 }
    requires* memory { sem 𝓛 (passed_at u64 channel address length number before.share before.bytes before.lent) }
    ensures* { sem 𝓛 (Leaves (some_null (channel ∷ address ∷ number ∷ []))
        (passed_at u64 channel address length number before.share before.bytes) before.lent
        (ReverseCall before.bytes result before.lent) result) }
{
    if channel.is_null() {
        return NULL;
    }
    if address.is_null() {
        return NULL;
    }
    if number.is_null() {
        return NULL;
    }
    unsafe { asking::reverse(&mut *channel, from_raw_parts(address, length), &mut *number) }
}

/// Moves out the first request that has completed, and tells it. Answers 3 where none has.
#[unsafe(no_mangle)]
pub unsafe extern "C" fn dachumvi_take(channel: *mut ChannelWord, request: *mut ToldRequest) -> u32
    ghost before: { Lent Request }
    requires channel { Testable channel }
    requires request { Testable request }
    requires* memory { sem 𝓛 (lent_at Request channel request before) }
    ensures* { sem 𝓛 (Leaves (some_null (channel ∷ request ∷ []))
        (lent_at Request channel request) before
        (TakeCall result before) result) }
{
    if channel.is_null() {
        return NULL;
    }
    if request.is_null() {
        return NULL;
    }
    unsafe { asking::take(&mut *channel, &mut *request) }
}
