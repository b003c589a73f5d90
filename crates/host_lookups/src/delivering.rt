//! Telling callbacks their answers, and performing what they command.

ghost use Rattle.std.specs.Prelude.{◌≡◌, []};
ghost use Rattle.host_lookups.specs.Extending.{Extends, StandsStill, TakesNone};

use chan_types::{Call, Command, Ticket};
use channel_model::Desk;
use channel_table::Alone;
use completion_ticket::{Callback, Hand, Scripted};

/// Tells a request's callback its answer, and then performs what it commands, on that request's command.
pub fn deliver(
    channel: &mut Alone<Callback<Scripted>>,
    hand: &mut Hand,
    ticket: Ticket<Callback<Scripted>>,
) -> Call
    requires idle { hand.old.commands ≡ [] }
    ensures told { result ≡ ticket.call }
    ensures extends { Extends channel.old channel.new }
    ensures takes { TakesNone channel.old channel.new }
    ensures stands { StandsStill channel.old channel.new }
    ensures idle { hand.new.commands ≡ [] }
{
    let (callback, call) = ticket.spend();
    callback.call(call.answer(), hand);
    channel.voice(call.answer().number);
    while let Some(command) = hand.next() {
        perform(channel, command);
    }
    channel.voice(0);
    call
}

/// Performs a command of a callback. What it asks has a callback with a script alone, which is told if it is refused.
fn perform(channel: &mut Alone<Callback<Scripted>>, command: Command)
    ensures extends { Extends channel.old channel.new }
    ensures takes { TakesNone channel.old channel.new }
    ensures stands { StandsStill channel.old channel.new }
{
    match command {
        Command::Ask(spec, script) => {
            if let Err(refused) = channel.accept(spec, Callback::scripted(script)) {
                refused.token.refuse(refused.why);
            }
        }
        Command::Cancel => {
            channel.cancel();
        }
        Command::Destroy => {
            channel.destroy();
        }
    }
}
