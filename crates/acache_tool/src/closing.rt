//! The end of a channel.

ghost use Rattle.std.specs.Prelude.{◌≡◌, ◌++◌, ◌∷◌, [], false};
ghost use Rattle.channel_model.specs.Journal.{is_destroyed, past_of};
ghost use Rattle.acache_tool.specs.Closing.{Closes};

use chan_types::{Calls, Quiet, Ticket};
use channel_model::Desk;
use channel_table::Alone;

/// Destroys the channel, and calls for the request that has no answer yet, if there is one.
pub(crate) fn close(alone: &mut Alone<Quiet>, calls: &mut Calls)
    requires undestroyed { is_destroyed (past_of alone.old.seen) ≡ false }
    requires silent { alone.old.voice ≡ 0 }
    ensures { Closes alone.old alone.new calls.old calls.new }
{
    alone.destroy();
    match alone.take() {
        Some(ticket) => call_for(ticket, calls),
        None => {}
    }
}

/// Calls for a request that was taken.
fn call_for(ticket: Ticket<Quiet>, calls: &mut Calls)
    ensures { calls.new ≡ calls.old ++ ticket.call ∷ [] }
{
    let (_quiet, call) = ticket.spend();
    calls.add(call);
}
