//! Bytes that are copied into C's buffers: as many as there is room for. What stands behind them stays, and the channel
//! is as it was.

ghost use Rattle.std.specs.Prelude.{◌≡◌};
ghost use Rattle.c_types.specs.Addresses.{address_bytes, bytes_at};
ghost use Rattle.c_types.specs.Outgoing.{sending};
ghost use Rattle.c_types.specs.Told.{UnlessDone};
ghost use Rattle.boxed_channel.specs.Journaled.{text_kept};
ghost use Rattle.boxed_channel.specs.State.{TellsText};
ghost use Rattle.channel_word.specs.Calls.{OnChannel};
ghost use Rattle.channel_c.specs.Copies.{Copies};

use crate::answers::{DONE, NO_CHANNEL};
use channel_word::ChannelWord;

/// The bytes that the attempt begun last is to send. Writes how many were copied.
#[tactic(auto, using(crate::proofs::CallLemmas::on_absent, crate::proofs::CallLemmas::on_there))]
pub(crate) fn copy_bytes(channel: &mut ChannelWord, out: &mut [u8], copied: &mut usize) -> u32
    ensures laid { OnChannel channel.old channel.new result (λ old new.
        Copies (sending old.begun) result copied.new out.old out.new × (new ≡ old)) }
    ensures stays { UnlessDone result ((copied.new ≡ copied.old) × (out.new ≡ out.old)) }
{
    if !channel.is_there() {
        return NO_CHANNEL;
    }
    *copied = channel.pointer.state().copy_bytes(out);
    DONE
}

/// The address of its server: four or sixteen bytes. Writes how many were copied.
#[tactic(auto, using(crate::proofs::CallLemmas::on_absent, crate::proofs::CallLemmas::on_there))]
pub(crate) fn copy_server(channel: &mut ChannelWord, out: &mut [u8], copied: &mut usize) -> u32
    ensures laid { OnChannel channel.old channel.new result (λ old new.
        Copies (address_bytes old.begun.address) result copied.new out.old out.new × (new ≡ old)) }
    ensures stays { UnlessDone result ((copied.new ≡ copied.old) × (out.new ≡ out.old)) }
{
    if !channel.is_there() {
        return NO_CHANNEL;
    }
    *copied = channel.pointer.state().copy_server(out);
    DONE
}

/// The reply of the request that was taken last. Writes how many bytes were copied.
#[tactic(auto, using(crate::proofs::CallLemmas::on_absent, crate::proofs::CallLemmas::on_there))]
pub(crate) fn copy_message(channel: &mut ChannelWord, out: &mut [u8], copied: &mut usize) -> u32
    ensures laid { OnChannel channel.old channel.new result (λ old new.
        Copies old.taken.message result copied.new out.old out.new × (new ≡ old)) }
    ensures stays { UnlessDone result ((copied.new ≡ copied.old) × (out.new ≡ out.old)) }
{
    if !channel.is_there() {
        return NO_CHANNEL;
    }
    *copied = channel.pointer.state().copy_message(out);
    DONE
}

/// The address at this index of the request that was taken last: four or sixteen bytes, or none where there is no such
/// address. Writes how many were copied.
#[tactic(auto, using(crate::proofs::CallLemmas::on_absent, crate::proofs::CallLemmas::on_there))]
pub(crate) fn copy_address(
    channel: &mut ChannelWord,
    index: usize,
    out: &mut [u8],
    copied: &mut usize,
) -> u32
    ensures laid { OnChannel channel.old channel.new result (λ old new.
        Copies (bytes_at index old.taken.addresses) result copied.new out.old out.new × (new ≡ old)) }
    ensures stays { UnlessDone result ((copied.new ≡ copied.old) × (out.new ≡ out.old)) }
{
    if !channel.is_there() {
        return NO_CHANNEL;
    }
    *copied = channel.pointer.state().copy_address(index, out);
    DONE
}

/// The text of the journal, if it is kept: writes how many bytes it has. Answers 0; or 9 where the journal isn't kept, or
/// 2 for want of memory, and then nothing is written.
#[tactic(auto, using(crate::proofs::CallLemmas::on_absent, crate::proofs::CallLemmas::on_there))]
pub(crate) fn copy_journal(channel: &mut ChannelWord, out: &mut [u8], size: &mut usize) -> u32
    ensures text { OnChannel channel.old channel.new result (λ old new.
        TellsText (text_kept old.channel) result size.new out.old out.new × (new ≡ old)) }
    ensures stays { UnlessDone result ((size.new ≡ size.old) × (out.new ≡ out.old)) }
{
    if !channel.is_there() {
        return NO_CHANNEL;
    }
    channel.pointer.state().copy_journal(out, size)
}
