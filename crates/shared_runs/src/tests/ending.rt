//! The end of a channel.

ghost use Rattle.shared_channel.specs.Finishing.{AreAllPasses};
ghost use Rattle.shared_channel.specs.Settling.{AreSettled};

use super::FOLLOW;
use channel_journal::ChannelJournal;
use completion_ticket::Scripted;
use shared_channel::{Channel, Finished, Pass, finish};
use std::sync::Wait;

/// What is left of a channel whose passes are all back. Who calls it says both that `finish` wants at once, so that how the
/// passes came back is told once.
pub fn ended<R: Wait, J: ChannelJournal>(
    rt: &R,
    channel: Channel<Scripted, J>,
    passes: Vec<Pass<Scripted, J>>,
) -> Finished<J>
    requires { AreAllPasses channel passes.items × AreSettled passes.items }
{
    finish(rt, channel, passes, FOLLOW)
}
