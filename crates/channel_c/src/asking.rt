//! Requests: how they are asked, and taken when they have completed.

ghost use Rattle.std.specs.Prelude.{◌≡◌};
ghost use Rattle.chan_types.specs.declared.spec.Spec.TheVariants as specs;
ghost use Rattle.channel_model.specs.Meanings.{Takes};
ghost use Rattle.boxed_channel.specs.State.{AsksAddress, AsksFor, AsksReverse, IfWanting, IsOpen, KeepsBegun, KeepsBoth, KeepsTaken, MeansTold};
ghost use Rattle.channel_word.specs.Calls.{OnChannel};
ghost use Rattle.c_types.specs.Told.{IfDone, UnlessDone, quiet, request_told, taken_told};

use crate::answers::NO_CHANNEL;
use c_types::ToldRequest;
use channel_word::ChannelWord;

/// Asks for records of this name, and writes the request's number.
#[tactic(auto, using(crate::proofs::CallLemmas::on_absent, crate::proofs::CallLemmas::on_there))]
pub(crate) fn query(
    channel: &mut ChannelWord,
    name: &[u8],
    kind: u16,
    class: u16,
    number: &mut u64,
) -> u32
    ensures asks { OnChannel channel.old channel.new result (λ old new.
        AsksFor (specs.Query name.now kind class) result number.new old new × KeepsBoth old new) }
    ensures stays { UnlessDone result (number.new ≡ number.old) }
{
    if !channel.is_there() {
        return NO_CHANNEL;
    }
    channel.pointer.state().query(name, kind, class, number)
}

/// Asks for records of this name, or of its candidates by the search list, and writes the request's number.
#[tactic(auto, using(crate::proofs::CallLemmas::on_absent, crate::proofs::CallLemmas::on_there))]
pub(crate) fn search(
    channel: &mut ChannelWord,
    name: &[u8],
    kind: u16,
    class: u16,
    number: &mut u64,
) -> u32
    ensures asks { OnChannel channel.old channel.new result (λ old new.
        AsksFor (specs.Search name.now kind class) result number.new old new × KeepsBoth old new) }
    ensures stays { UnlessDone result (number.new ≡ number.old) }
{
    if !channel.is_there() {
        return NO_CHANNEL;
    }
    channel.pointer.state().search(name, kind, class, number)
}

/// Asks for the addresses of a host, of both families by 0, or of one by 4 or 6, and writes the request's number. Any
/// other family is answered with 5, and nothing changes.
#[tactic(auto, using(crate::proofs::CallLemmas::on_absent, crate::proofs::CallLemmas::on_there))]
pub(crate) fn address(
    channel: &mut ChannelWord,
    host: &[u8],
    family: u32,
    nosort: bool,
    number: &mut u64,
) -> u32
    ensures asks { OnChannel channel.old channel.new result (λ old new.
        AsksAddress host.now family nosort result number.new old new × KeepsBoth old new) }
    ensures stays { UnlessDone result (number.new ≡ number.old) }
{
    if !channel.is_there() {
        return NO_CHANNEL;
    }
    channel
        .pointer
        .state()
        .address(host, family, nosort, number)
}

/// Asks for the names of an address of four or sixteen bytes, and writes the request's number. Any other length is
/// answered with 6, and nothing changes.
#[tactic(auto, using(crate::proofs::CallLemmas::on_absent, crate::proofs::CallLemmas::on_there))]
pub(crate) fn reverse(channel: &mut ChannelWord, address: &[u8], number: &mut u64) -> u32
    ensures asks { OnChannel channel.old channel.new result (λ old new.
        AsksReverse address.now result number.new old new
        × IfWanting result (IsOpen old) × KeepsBoth old new) }
    ensures stays { UnlessDone result (number.new ≡ number.old) }
{
    if !channel.is_there() {
        return NO_CHANNEL;
    }
    channel.pointer.state().reverse(address, number)
}

/// Moves out the first request that has completed, and tells it. Answers 3 where none has.
#[tactic(auto, using(crate::proofs::CallLemmas::on_absent, crate::proofs::CallLemmas::on_there, crate::proofs::CallLemmas::unless_first, crate::proofs::CallLemmas::unless_second))]
pub(crate) fn take(channel: &mut ChannelWord, request: &mut ToldRequest) -> u32
    ensures done { OnChannel channel.old channel.new result (λ old new.
        MeansTold (Takes quiet) (taken_told result new.taken) old new
        × IfDone result (request.new ≡ request_told new.taken)
        × KeepsBegun old new × UnlessDone result (KeepsTaken old new)) }
    ensures stays { UnlessDone result (request.new ≡ request.old) }
{
    if !channel.is_there() {
        return NO_CHANNEL;
    }
    channel.pointer.state().take(request)
}
