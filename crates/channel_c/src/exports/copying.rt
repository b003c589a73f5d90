//! C's calls that copy into its buffers.

ghost use Rattle.std.specs.Prelude.{[], ◌∷◌, ◌<◌, ◌^◌};
ghost use Rattle.channel_c.specs.Exports.{CopyCall, JournalCall};
ghost use Rattle.channel_c.specs.Lent.{Buffer, buffer_at};
ghost use Rattle.channel_c.specs.Pointers.{Leaves, some_null};
ghost use Rattle.c_types.specs.Addresses.{address_bytes, bytes_at};
ghost use Rattle.c_types.specs.Outgoing.{sending};
ghost use denote.RawPtr.{Testable};
ghost use types.Logic.{sem};

use crate::answers::NULL;
use crate::copying;
use channel_word::ChannelWord;
use std::slice::from_raw_parts_mut;

/// The bytes that the attempt begun last is to send. Writes how many were copied.
#[unsafe(no_mangle)]
pub unsafe extern "C" fn dachumvi_copy_bytes(
    channel: *mut ChannelWord,
    out: *mut u8,
    length: usize,
    copied: *mut usize,
) -> u32
    ghost before: { Buffer }
    requires channel { Testable channel }
    requires out { Testable out }
    requires copied { Testable copied }
    requires few { length < 2 ^ 63 }
    requires* memory { sem 𝓛 (buffer_at channel out length copied before) }
    ensures* { sem 𝓛 (Leaves (some_null (channel ∷ out ∷ copied ∷ []))
        (buffer_at channel out length copied) before
        (CopyCall (λ channel. sending channel.begun) result before) result) }
{
    if channel.is_null() {
        return NULL;
    }
    if out.is_null() {
        return NULL;
    }
    if copied.is_null() {
        return NULL;
    }
    unsafe { copying::copy_bytes(&mut *channel, from_raw_parts_mut(out, length), &mut *copied) }
}

/// The address of its server: four or sixteen bytes. Writes how many were copied.
#[unsafe(no_mangle)]
pub unsafe extern "C" fn dachumvi_copy_server(
    channel: *mut ChannelWord,
    out: *mut u8,
    length: usize,
    copied: *mut usize,
) -> u32
    ghost before: { Buffer }
    requires channel { Testable channel }
    requires out { Testable out }
    requires copied { Testable copied }
    requires few { length < 2 ^ 63 }
    requires* memory { sem 𝓛 (buffer_at channel out length copied before) }
    ensures* { sem 𝓛 (Leaves (some_null (channel ∷ out ∷ copied ∷ []))
        (buffer_at channel out length copied) before
        (CopyCall (λ channel. address_bytes channel.begun.address) result before) result) }
{
    if channel.is_null() {
        return NULL;
    }
    if out.is_null() {
        return NULL;
    }
    if copied.is_null() {
        return NULL;
    }
    unsafe { copying::copy_server(&mut *channel, from_raw_parts_mut(out, length), &mut *copied) }
}

/// The reply of the request that was taken last. Writes how many bytes were copied.
#[unsafe(no_mangle)]
pub unsafe extern "C" fn dachumvi_copy_message(
    channel: *mut ChannelWord,
    out: *mut u8,
    length: usize,
    copied: *mut usize,
) -> u32
    ghost before: { Buffer }
    requires channel { Testable channel }
    requires out { Testable out }
    requires copied { Testable copied }
    requires few { length < 2 ^ 63 }
    requires* memory { sem 𝓛 (buffer_at channel out length copied before) }
    ensures* { sem 𝓛 (Leaves (some_null (channel ∷ out ∷ copied ∷ []))
        (buffer_at channel out length copied) before
        (CopyCall (λ channel. channel.taken.message) result before) result) }
{
    if channel.is_null() {
        return NULL;
    }
    if out.is_null() {
        return NULL;
    }
    if copied.is_null() {
        return NULL;
    }
    unsafe { copying::copy_message(&mut *channel, from_raw_parts_mut(out, length), &mut *copied) }
}

/// The address at this index of the request that was taken last: four or sixteen bytes, or none where there is no such
/// address. Writes how many were copied.
#[unsafe(no_mangle)]
pub unsafe extern "C" fn dachumvi_copy_address(
    channel: *mut ChannelWord,
    index: usize,
    out: *mut u8,
    length: usize,
    copied: *mut usize,
) -> u32
    ghost before: { Buffer }
    requires channel { Testable channel }
    requires out { Testable out }
    requires copied { Testable copied }
    requires few { length < 2 ^ 63 }
    requires* memory { sem 𝓛 (buffer_at channel out length copied before) }
    ensures* { sem 𝓛 (Leaves (some_null (channel ∷ out ∷ copied ∷ []))
        (buffer_at channel out length copied) before
        (CopyCall (λ channel. bytes_at index channel.taken.addresses) result before) result) }
{
    if channel.is_null() {
        return NULL;
    }
    if out.is_null() {
        return NULL;
    }
    if copied.is_null() {
        return NULL;
    }
    unsafe {
        copying::copy_address(
            &mut *channel,
            index,
            from_raw_parts_mut(out, length),
            &mut *copied,
        )
    }
}

/// The text of the journal, if it is kept: writes how many bytes it has. Answers 0; or 9 where the journal isn't kept, or
/// 2 for want of memory, and then nothing is written.
#[unsafe(no_mangle)]
pub unsafe extern "C" fn dachumvi_copy_journal(
    channel: *mut ChannelWord,
    out: *mut u8,
    length: usize,
    size: *mut usize,
) -> u32
    ghost before: { Buffer }
    requires channel { Testable channel }
    requires out { Testable out }
    requires size { Testable size }
    requires few { length < 2 ^ 63 }
    requires* memory { sem 𝓛 (buffer_at channel out length size before) }
    ensures* { sem 𝓛 (Leaves (some_null (channel ∷ out ∷ size ∷ []))
        (buffer_at channel out length size) before
        (JournalCall result before) result) }
{
    if channel.is_null() {
        return NULL;
    }
    if out.is_null() {
        return NULL;
    }
    if size.is_null() {
        return NULL;
    }
    unsafe { copying::copy_journal(&mut *channel, from_raw_parts_mut(out, length), &mut *size) }
}
