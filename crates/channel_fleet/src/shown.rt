//! What anybody may read of a channel.

ghost use Rattle.channel_fleet.specs.Calling.{none_shown};

use channel_model::Counts;
use watched_value::Opening;

/// How many turns a channel's helm has made, and its counts then.
#[derive(Clone, Copy, Debug, PartialEq, Eq)]
pub struct Shown {
    pub turns: u64,
    pub counts: Counts,
}

impl Opening for Shown {
    ghost opening = { none_shown };

    fn opening() -> Shown {
        Shown {
            turns: 0,
            counts: Counts {
                pending: 0,
                ready: 0,
                waiting: 0,
                flying: 0,
            },
        }
    }
}
