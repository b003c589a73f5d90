//! A pointer without a type. Only the proof knows whether a channel lies there, and which.

ghost use Rattle.std.specs.Prelude.{◌≡◌, IsSomeAnd, None, Some, ⊤};
ghost use Rattle.std.specs.Coded.{coded_option};
ghost use Rattle.std.specs.declared.option.Option.{Option};
ghost use Rattle.boxed_channel.specs.declared.state.ChannelState.{ChannelState};
ghost use Rattle.boxed_channel.specs.contracts.state.ChannelState.{the_row};
ghost use Rattle.channel_word.specs.Owned.{owns_if_known};

use box_parts::Parts;
use boxed_channel::ChannelState;
use std::alloc::Global;
use std::marker::Model;

/// The pointer of a word. Any bits are one at which no channel is known of; only `of_parts` makes one of a channel,
/// which owns what its box owned. It is dropped without looking at it: the word knows whether there is a channel.
#[repr(C)]
#[derive(Drop)]
pub struct ChannelPointer {
    at: *mut u8,
    alloc: Global,
    pub ghost state: { Option ChannelState } by { coded_option the_row.coded },
}

impl Model for ChannelPointer {
    ghost also_owns = { λ pointer. owns_if_known pointer.alloc pointer.at pointer.state };
}

impl ChannelPointer {
    ghost use types.Logic.{sem};
    ghost use Rattle.channel_word.specs.Lending.{LendsState};

    /// A pointer of these bits, at which nothing is known.
    pub(crate) fn blank(at: *mut u8, alloc: Global) -> ChannelPointer
        ensures { result.state ≡ None }
    {
        ChannelPointer { at, alloc }
    }

    pub(crate) fn of_parts(parts: Parts<ChannelState, Global>) -> ChannelPointer
        ensures { result.state ≡ Some parts.value }
    {
        let Parts { ptr, alloc } = parts;
        ChannelPointer {
            at: ptr as *mut u8,
            alloc,
        }
    }

    pub(crate) fn into_parts(self) -> Parts<ChannelState, Global>
        requires { IsSomeAnd self.state (λ _. ⊤) }
        ensures { self.state ≡ Some result.value }
    {
        let ChannelPointer { at, alloc } = self;
        Parts {
            ptr: at as *mut ChannelState,
            alloc,
        }
    }

    /// The channel that lies there.
    pub fn state(&mut self) -> &mut ChannelState
        requires { IsSomeAnd self.old.state (λ _. ⊤) }
        ensures* writes_back { sem 𝓛 (LendsState self.entry result) }
        ensures value { self.old.state ≡ Some result.now }
    {
        unsafe { &mut *(self.at as *mut ChannelState) }
    }
}
