//! What C keeps of a channel, where there is one, and where there is none yet or none any more.

ghost use Rattle.std.specs.Prelude.{◌≡◌, IsSomeAnd, None, Some, is_some, ⊤};
ghost use Rattle.channel_word.specs.Told.{IsTold};

use crate::pointer::ChannelPointer;
use box_parts::Parts;
use boxed_channel::{BoxedChannel, ChannelState};
use std::alloc::Global;
use std::ptr::null_mut;

/// A channel on the heap, or none. C sees a struct of a pointer and a number, since a `Global` takes no bytes. With any
/// other number than 1 there is no channel, whatever the pointer is: so a struct of zeroes is a word without one.
#[repr(C)]
pub struct ChannelWord {
    pub pointer: ChannelPointer,
    made: u32,
    pub ghost told: { IsTold made pointer.state },
}

impl Drop for ChannelWord {
    fn drop(self) {
        let ChannelWord { pointer, made } = self;
        if made == 1 {
            drop(BoxedChannel::of(pointer.into_parts().into_box()));
        }
    }
}

impl ChannelWord {
    /// A word without a channel.
    pub fn empty(alloc: Global) -> ChannelWord
        ensures { result.pointer.state ≡ None }
    {
        let at = null_mut();
        let pointer = ChannelPointer::blank(at, alloc);
        ChannelWord { pointer, made: 0 }
    }

    /// The word of this channel.
    pub fn of(boxed: Box<ChannelState>) -> ChannelWord
        ensures { result.pointer.state ≡ Some boxed.value }
    {
        ChannelWord {
            pointer: ChannelPointer::of_parts(Parts::of(boxed)),
            made: 1,
        }
    }

    /// Whether there is a channel.
    pub fn is_there(&mut self) -> bool
        ensures told { result ≡ is_some self.old.pointer.state }
        ensures same { self.new ≡ self.old }
    {
        self.made == 1
    }

    /// Gives back all that the channel owns, if there is one. Answers whether there was.
    pub fn free(&mut self, alloc: Global) -> bool
        ensures told { result ≡ is_some self.old.pointer.state }
        ensures gone { self.new.pointer.state ≡ None }
    {
        let there = self.is_there();
        *self = ChannelWord::empty(alloc);
        there
    }
}
