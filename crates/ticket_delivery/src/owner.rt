//! A channel's one owner, who performs commands in their request's voice.

ghost use Rattle.std.specs.Prelude.{◌≡◌};
ghost use Rattle.channel_model.specs.Known.{Calls};
ghost use Rattle.channel_model.specs.Meanings.{Accepts, Cancels, Destroys};
ghost use Rattle.channel_table.specs.Calling.{known_by_owner};

use crate::command_desk::CommandDesk;
use chan_types::{Spec, Token};
use channel_journal::ChannelJournal;
use channel_model::{Desk, Refused};
use channel_table::Alone;

impl<T: Token, J: ChannelJournal> CommandDesk<T> for Alone<T, J> {
    ghost use Rattle.channel_table.specs.Calling.{known_by_owner};

    ghost known = { known_by_owner };

    fn accept_for(&mut self, by: u64, spec: Spec, token: T) -> Result<u64, Refused<T>>
        requires { self.old.voice ≡ 0 }
        ensures { Calls (Accepts T.plan spec token result) by (known_by_owner self.old) (known_by_owner self.new) }
    {
        self.voice(by);
        let reply = self.accept(spec, token);
        self.voice(0);
        reply
    }

    fn cancel_for(&mut self, by: u64) -> u64
        requires { self.old.voice ≡ 0 }
        ensures { Calls (Cancels result) by (known_by_owner self.old) (known_by_owner self.new) }
    {
        self.voice(by);
        let count = self.cancel();
        self.voice(0);
        count
    }

    fn destroy_for(&mut self, by: u64) -> bool
        requires { self.old.voice ≡ 0 }
        ensures { Calls (Destroys result) by (known_by_owner self.old) (known_by_owner self.new) }
    {
        self.voice(by);
        let is_first = self.destroy();
        self.voice(0);
        is_first
    }
}
