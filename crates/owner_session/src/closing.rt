//! The end of a channel.

ghost use Rattle.owner_session.specs.Delivering.{IsIdle};
ghost use Rattle.owner_session.specs.Closing.{Closes};
ghost use Rattle.owner_session.specs.Returning.{KeepsPlaces};

use crate::caller::Caller;
use crate::delivering::deliver_all;
use channel_model::Desk;
use completion_ticket::Done;

/// Destroys the channel, unless a callback has, and delivers what is then ready: nothing is left.
pub(crate) fn close<B: Done + Drop>(caller: &mut Caller<B>)
    requires idle { IsIdle caller.old }
    ensures closes { Closes caller.old caller.new }
    ensures places { KeepsPlaces B.name B.told caller.old caller.new }
{
    caller.alone.destroy();
    deliver_all(caller);
}
