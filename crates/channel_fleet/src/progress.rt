//! How far a helm has come while it steers.

ghost use Rattle.std.specs.Option.{ForSome};
ghost use Rattle.std.specs.Prelude.{◌≤◌, length};

use channel_model::Counts;
use net_addr::ServerList;
use worker_session::Coming;

/// How far a helm has come while it steers: what it goes on with, where one thread has left it and another takes it up.
#[derive(Drop)]
pub(crate) struct Progress {
    /// How many turns were made before.
    pub earlier: u64,
    /// How many turns may be made.
    pub turns: u64,
    /// How many of them are left.
    pub left: u64,
    /// The servers that are still to be set: a helm sets none.
    pub later: Option<ServerList>,
    pub coming: Coming,
    /// The counts that it was answered last.
    pub looked: Option<Counts>,
    ghost few: { ForSome later (λ later. (1 ≤ length later) × (length later ≤ 8)) },
}
