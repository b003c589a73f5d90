//! Performing the commands of a callback.

ghost use Rattle.std.specs.Prelude.{◌≡◌, ◌∷◌, []};
ghost use Rattle.channel_model.specs.Known.{IsSameDesk};
ghost use Rattle.channel_table.specs.Commanded.{lost_by};
ghost use Rattle.ticket_delivery.specs.Performing.{Performs};

use crate::command_desk::CommandDesk;
use chan_types::{Command, Refusal, Script, Spec};
use channel_model::Refused;
use completion_ticket::{Callback, Done, Hand};

/// Performs the commands of the hand, in order, on this request's command. Answers how many requests were lost for want of
/// memory.
pub fn perform_all<B: Done + Drop, D: CommandDesk<Callback<B>>>(
    desk: &mut D,
    hand: &mut Hand,
    by: u64,
) -> u64
    requires free { (D.known desk.old).voice ≡ 0 }
    ensures same { IsSameDesk (D.known desk.old) (D.known desk.new) }
    ensures performed { Performs hand.old.commands by (D.known desk.old) (D.known desk.new) result }
    ensures empty { hand.new ≡ record hand.old { commands = [] } }
{
    let mut lost: u64 = 0;
    while let Some(command) = hand.next() {
        lost = lost.saturating_add(perform(desk, by, command));
    }
    lost
}

/// Performs a command. Answers how many requests were lost by that.
fn perform<B: Done + Drop, D: CommandDesk<Callback<B>>>(
    desk: &mut D,
    by: u64,
    command: Command,
) -> u64
    requires free { (D.known desk.old).voice ≡ 0 }
    ensures same { IsSameDesk (D.known desk.old) (D.known desk.new) }
    ensures performed { Performs (command ∷ []) by (D.known desk.old) (D.known desk.new) result }
{
    match command {
        Command::Ask(spec, script) => ask(desk, by, spec, script),
        Command::Cancel => {
            cancel(desk, by);
            0
        }
        Command::Destroy => {
            destroy(desk, by);
            0
        }
    }
}

/// Asks a request whose callback has this script. One that is refused leaves nothing; for want of memory it is lost.
fn ask<B: Done + Drop, D: CommandDesk<Callback<B>>>(
    desk: &mut D,
    by: u64,
    spec: Spec,
    script: Script,
) -> u64
    requires free { (D.known desk.old).voice ≡ 0 }
    ensures same { IsSameDesk (D.known desk.old) (D.known desk.new) }
    ensures performed { Performs (Command.Ask spec script ∷ []) by (D.known desk.old) (D.known desk.new) result }
{
    settle(desk.accept_for(by, spec, Callback::scripted(script)))
}

/// Lets the callback go where its request was refused, and answers how many requests were lost: one for want of memory.
fn settle<B: Done + Drop>(reply: Result<u64, Refused<Callback<B>>>) -> u64
    ensures { result ≡ lost_by reply }
{
    let Err(Refused { why, token, .. }) = reply else {
        return 0;
    };
    token.refuse(why);
    match why {
        Refusal::Closed => 0,
        Refusal::NoMemory => 1,
    }
}

/// Cancels every pending request. None is lost by that.
fn cancel<B: Done + Drop, D: CommandDesk<Callback<B>>>(desk: &mut D, by: u64)
    requires free { (D.known desk.old).voice ≡ 0 }
    ensures same { IsSameDesk (D.known desk.old) (D.known desk.new) }
    ensures performed { Performs (Command.Cancel ∷ []) by (D.known desk.old) (D.known desk.new) 0 }
{
    desk.cancel_for(by);
}

/// Destroys the channel. None is lost by that.
fn destroy<B: Done + Drop, D: CommandDesk<Callback<B>>>(desk: &mut D, by: u64)
    requires free { (D.known desk.old).voice ≡ 0 }
    ensures same { IsSameDesk (D.known desk.old) (D.known desk.new) }
    ensures performed { Performs (Command.Destroy ∷ []) by (D.known desk.old) (D.known desk.new) 0 }
{
    desk.destroy_for(by);
}
