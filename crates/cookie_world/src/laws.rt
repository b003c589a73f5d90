//! Laws: the functions do nothing, and their contracts are the laws.

ghost use base.Stored.{Gv};
ghost use Rattle.std.specs.Prelude.{◌≡◌, ◌≢◌, ◌≤◌, ◌+◌, [], List, ℕ, Option};
ghost use Rattle.net_world.specs.declared.answers.Got.TheVariants.{Datagram};
ghost use Rattle.net_world.specs.declared.log.WorldCall.{WorldCall};
ghost use Rattle.net_world.specs.declared.log.WorldCall.TheVariants.{Receive};
ghost use Rattle.cookie_world.specs.Agreement.{CookieLogsAgree};
ghost use Rattle.cookie_world.specs.Begun.{begun_origin};
ghost use Rattle.cookie_world.specs.Reasons.{HasReason};
ghost use Rattle.cookie_world.specs.Repeats.{sends};
ghost use Rattle.cookie_world.specs.Rounds.{Makes};
ghost use Rattle.cookie_world.specs.State.{CookieState};

/// A datagram with bytes that a receive gives can't be read, or answers no query that carried a cookie, or carries the client
/// cookie of its server, or has no cookie while no server cookie is known.
pub fn datagrams_are_given_with_a_reason()
    ensures { (server : ℕ) (bytes : List ℕ) (old : CookieState) (inner : List WorldCall) (new : CookieState)
        → bytes ≢ [] → Makes (Receive (Datagram server bytes)) old inner new → HasReason old server bytes }
{}

/// In all, at most two queries go out for one that is sent.
pub fn queries_go_out_twice_at_most()
    ensures { (inner outer : List WorldCall) (state : CookieState)
        → CookieLogsAgree inner outer state → sends inner ≤ sends outer + sends outer }
{}

/// What no call changes, the origin, tells how the log of the World that it stands around began: so code that is generic in its
/// World leaves that too.
pub fn origin_tells_how_the_log_began()
    ensures { (one other : Gv) (log began : Option (List WorldCall))
        → begun_origin one log ≡ begun_origin other began → (one ≡ other) × (log ≡ began) }
{}
