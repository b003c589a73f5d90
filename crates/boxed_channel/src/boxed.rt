//! A channel on the heap behind one word: a pointer without a type. Only the proof knows what it leads to.

ghost use Rattle.std.specs.Prelude.{◌≡◌, IfErr, IfOk};
ghost use Rattle.c_types.specs.Faults.{HasCause};
ghost use Rattle.boxed_channel.specs.Making.{IsMadeBy};
ghost use Rattle.boxed_channel.specs.Owned.{owns_channel};
ghost use Rattle.boxed_channel.specs.declared.state.ChannelState.{ChannelState};
ghost use Rattle.boxed_channel.specs.contracts.state.ChannelState.{the_row};

use crate::state::ChannelState;
use box_parts::Parts;
use c_types::MakeFault;
use std::alloc::Global;
use std::marker::Model;

/// A channel on the heap, as a struct of one pointer, since a `Global` takes no bytes.
#[repr(C)]
pub struct BoxedChannel {
    at: *mut u8,
    alloc: Global,
    pub ghost state: { ChannelState } by { the_row.coded },
}

impl Model for BoxedChannel {
    ghost also_owns = { λ boxed. owns_channel boxed.alloc boxed.at boxed.state };
}

impl Drop for BoxedChannel {
    fn drop(self) {
        drop(self.into_parts().into_box());
    }
}

impl BoxedChannel {
    ghost use types.Logic.{sem};
    ghost use Rattle.boxed_channel.specs.Lending.{LendsState};

    fn of_parts(parts: Parts<ChannelState, Global>) -> BoxedChannel
        ensures { result.state ≡ parts.value }
    {
        let Parts { ptr, alloc } = parts;
        BoxedChannel {
            at: ptr as *mut u8,
            alloc,
        }
    }

    fn into_parts(self) -> Parts<ChannelState, Global>
        ensures { result.value ≡ self.state }
    {
        let BoxedChannel { at, alloc } = self;
        Parts {
            ptr: at as *mut ChannelState,
            alloc,
        }
    }

    /// The channel behind the word.
    pub fn state(&mut self) -> &mut ChannelState
        ensures* writes_back { sem 𝓛 (LendsState self.entry result) }
        ensures value { result.now ≡ self.old.state }
    {
        unsafe { &mut *(self.at as *mut ChannelState) }
    }

    /// The word of a channel on the heap.
    pub fn of(boxed: Box<ChannelState>) -> BoxedChannel
        ensures { result.state ≡ boxed.value }
    {
        BoxedChannel::of_parts(Parts::of(boxed))
    }
}

/// A channel on the heap, by the texts of a resolv.conf and of a hosts file, with a kept journal if that is wanted.
pub fn make(
    alloc: Global,
    resolv: &[u8],
    hosts: &[u8],
    keeps: bool,
) -> Result<Box<ChannelState>, MakeFault>
    ensures made { IfOk result (λ boxed. IsMadeBy resolv.now hosts.now keeps boxed.value) }
    ensures cause { IfErr result (HasCause resolv.now hosts.now) }
{
    let state = match ChannelState::make(alloc, resolv, hosts, keeps) {
        Ok(state) => state,
        Err(fault) => return Err(fault),
    };
    match Box::new(alloc, state) {
        Ok(boxed) => Ok(boxed),
        Err(_) => Err(MakeFault::NoMemory),
    }
}
