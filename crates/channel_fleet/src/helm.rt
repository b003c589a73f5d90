//! What brings one channel of a fleet to its answers.

use crate::shown::Shown;
use channel_journal::{ChannelJournal, KeptJournal};
use completion_ticket::Done;
use event_runner::Runner;
use resolv_options::Options;
use shared_channel::Pass;
use std::marker::Model;
use watched_value::Publisher;

/// What brings one channel to its answers: a pass through which it makes turns and does nothing else, a pass through which it
/// takes requests and calls callbacks, and the right to publish its counts. It can't be dropped: a fleet's `finish` ends it.
pub struct Helm<B: Done + Drop, J: ChannelJournal = KeptJournal> {
    pub(crate) turner: Pass<B, J>,
    pub(crate) caller: Pass<B, J>,
    pub(crate) board: Publisher<Shown>,
    /// Empty, with room for all passes of its channel: so that the end takes no memory.
    pub(crate) row: Vec<Pass<B, J>>,
    /// Its channel's options: as it begins, it tells its network their servers.
    pub(crate) options: Options,
    /// What makes its turns, once it has begun.
    pub(crate) runner: Option<Runner>,
    /// Whether it made a turn since it last waited.
    pub(crate) behind_turn: bool,
    /// How many turns it has made, as far as a count goes.
    pub(crate) made: u64,
}

impl<B: Done + Drop, J: ChannelJournal> Model for Helm<B, J> {
    ghost use Rattle.std.specs.Coded.{codes};
    ghost use Rattle.std.specs.Prelude.{◌≡◌, ◌≤◌, [], vec_capacity};
    ghost use Rattle.chan_types.specs.PlanCode.{moves_code};
    ghost use Rattle.channel_fleet.specs.Views.{HelmView};

    ghost Value = { HelmView };

    ghost coded = { Prim.hlevel (codes, moves_code) };

    ghost view = { λ helm. record { turner = helm.turner; caller = helm.caller; told = helm.board; runner = helm.runner; behind_turn = helm.behind_turn; made = helm.made } };

    ghost invariant = { λ helm. (helm.row.items ≡ []) × (helm.turner.seats ≤ vec_capacity helm.row)
        × (helm.options ≡ helm.turner.setting.options) };
}
