//! The laws of a finished channel. Each function does nothing, and its contract is the law.

ghost use Rattle.std.specs.Prelude.{List, ℕ};
ghost use Rattle.atomic_table.specs.Seated.{TableId};
ghost use Rattle.chan_types.specs.declared.orders.Orders.{Orders};
ghost use Rattle.channel_model.specs.Setting.{Setting};
ghost use Rattle.pass_laws.specs.Courses.{AreObeyed, Course, EndsBehind, EndsInTime, IsDestroyedOnce, IsQuiet};
ghost use Rattle.shared_channel.specs.declared.finishing.Finished.{Finished};

use channel_journal::ChannelJournal;

/// Where one thing after the other was done through each pass of a channel, and the channel was finished then, the
/// callbacks of all its requests were obeyed by these passes' seats.
pub fn callbacks_of_a_finished_channel_are_obeyed<J: ChannelJournal>()
    ensures { (orders : Orders) (lock : TableId) (setting : Setting) (count : ℕ) (courses : List Course)
        (finished : Finished J) → (ends : EndsBehind J.told orders lock setting count courses finished)
        → AreObeyed J.told orders lock setting count courses finished ends }
{}

/// Where nothing was pending and nothing ready as the passes were joined, and nobody but a callback had destroyed the
/// channel, nothing was cut short as it was finished.
pub fn a_quiet_channel_ends_in_time<J: ChannelJournal>()
    ensures { (orders : Orders) (lock : TableId) (setting : Setting) (count : ℕ) (courses : List Course)
        (finished : Finished J) → (ends : EndsBehind J.told orders lock setting count courses finished)
        → IsQuiet setting ends.finishes.all.seen
        → EndsInTime J.told orders lock setting count courses finished ends }
{}

/// A channel that was finished was destroyed once, whoever did it.
pub fn a_finished_channel_is_destroyed_once<J: ChannelJournal>()
    ensures { (orders : Orders) (lock : TableId) (setting : Setting) (count : ℕ) (courses : List Course)
        (finished : Finished J) → EndsBehind J.told orders lock setting count courses finished
        → IsDestroyedOnce J.told orders lock setting count courses finished }
{}
