//! The laws of what brings an answer. Each function does nothing, and its contract is the law.

ghost use Rattle.std.specs.Prelude.{◌≡◌, ℕ, [], IsTrue, Some};
ghost use Rattle.chan_types.specs.declared.answer.Answer.{Answer};
ghost use Rattle.chan_types.specs.declared.journal.What.{What};
ghost use Rattle.chan_types.specs.declared.journal.What.TheVariants.{Cancel, Destroy, Expire, Fault};
ghost use Rattle.chan_types.specs.declared.spec.Spec.{Spec};
ghost use Rattle.chan_types.specs.declared.status.Status.TheVariants.{Cancelled, ConnRefused, Destruction, TimedOut};
ghost use Rattle.channel_model.specs.Completion.{fate};
ghost use Rattle.channel_model.specs.Journal.{Past, spec_of};
ghost use Rattle.channel_model.specs.Lawful.{IsLawfulPast};
ghost use Rattle.channel_model.specs.LegEnd.{LegEnd, leg_end};
ghost use Rattle.channel_model.specs.Legs.{Leg};
ghost use Rattle.channel_model.specs.Setting.{Setting};
ghost use Rattle.status_laws.specs.Causes.{CameBy, EndsLeg, HasCause, HasExpired, HasLostItsLink, end_with, has_lone_legs};
ghost use Rattle.status_laws.specs.Positions.{Completes, Ends, StandsAt};

/// A request has an answer exactly where an entry stands that completed it with that answer; there is one such entry at
/// most, and the answer has the request's number.
pub fn each_answer_has_one_entry()
    ensures comes { (setting : Setting) (request : ℕ) (answer : Answer) (past : Past)
        → fate setting request past ≡ Some answer
        → (what : What) × (before : Past) × StandsAt what before past
        × Completes setting request answer what before }
    ensures stays { (setting : Setting) (request : ℕ) (answer : Answer) (past : Past) (what : What) (before : Past)
        → StandsAt what before past → Completes setting request answer what before
        → fate setting request past ≡ Some answer }
    ensures once { (setting : Setting) (request : ℕ) (first second : Answer) (past : Past)
        → (what other : What) → (before earlier : Past)
        → StandsAt what before past → Completes setting request first what before
        → StandsAt other earlier past → Completes setting request second other earlier
        → (what ≡ other) × (before ≡ earlier) }
    ensures number { (setting : Setting) (request : ℕ) (answer : Answer) (past : Past)
        → fate setting request past ≡ Some answer → answer.number ≡ request }
{}

/// A leg has ended exactly where an entry stands that ended it so.
pub fn each_leg_ends_by_an_entry()
    ensures comes { (setting : Setting) (leg : Leg) (end : LegEnd) (past : Past)
        → leg_end setting leg past ≡ Some end
        → (what : What) × (before : Past) × StandsAt what before past × Ends setting leg end what before }
    ensures stays { (setting : Setting) (leg : Leg) (end : LegEnd) (past : Past) (what : What) (before : Past)
        → StandsAt what before past → Ends setting leg end what before
        → leg_end setting leg past ≡ Some end }
{}

/// In a lawful past an answer has the cause that its status tells: `Cancelled` a Cancel and `Destruction` a Destroy that
/// came while the request was pending, `TimedOut` an Expire of one of its legs, `ConnRefused` a Fault of the link over
/// which one of its legs was in flight, `BadName` its Accept, and any other a message that answers one of its legs, or,
/// if it is `Success`, `NoData` or `NotFound`, its Accept.
pub fn each_status_has_its_cause()
    ensures any { (setting : Setting) (request : ℕ) (answer : Answer) (past : Past) → IsLawfulPast setting past
        → fate setting request past ≡ Some answer → HasCause setting request answer past }
    ensures cancelled { (setting : Setting) (request : ℕ) (answer : Answer) (past : Past)
        → IsLawfulPast setting past → fate setting request past ≡ Some answer
        → answer.status ≡ Cancelled → CameBy setting request Cancel answer past }
    ensures destroyed { (setting : Setting) (request : ℕ) (answer : Answer) (past : Past)
        → IsLawfulPast setting past → fate setting request past ≡ Some answer
        → answer.status ≡ Destruction → CameBy setting request Destroy answer past }
    ensures timed_out { (setting : Setting) (request : ℕ) (answer : Answer) (past : Past)
        → IsLawfulPast setting past → fate setting request past ≡ Some answer
        → answer.status ≡ TimedOut → HasExpired setting request past }
    ensures link_failed { (setting : Setting) (request : ℕ) (answer : Answer) (past : Past)
        → IsLawfulPast setting past → fate setting request past ≡ Some answer
        → answer.status ≡ ConnRefused → HasLostItsLink setting request past }
{}

/// In a lawful past, where a request asks one question at a time, the Expire of a leg by which an answer has `TimedOut`, and
/// the Fault by which one has `ConnRefused`, is the entry that completed the request. A request for the addresses of both
/// families may complete later, with its other leg.
pub fn a_lone_leg_completes_its_request()
    ensures timed_out { (setting : Setting) (request : ℕ) (answer : Answer) (past : Past)
        → IsLawfulPast setting past → fate setting request past ≡ Some answer
        → (spec : Spec) → spec_of request past ≡ Some spec → IsTrue (has_lone_legs spec)
        → answer.status ≡ TimedOut
        → (number moment : ℕ) × (before : Past)
        × EndsLeg setting request number (end_with TimedOut []) (Expire request number moment) before past
        × Completes setting request answer (Expire request number moment) before }
    ensures link_failed { (setting : Setting) (request : ℕ) (answer : Answer) (past : Past)
        → IsLawfulPast setting past → fate setting request past ≡ Some answer
        → (spec : Spec) → spec_of request past ≡ Some spec → IsTrue (has_lone_legs spec)
        → answer.status ≡ ConnRefused
        → (number server link moment : ℕ) × (before : Past)
        × EndsLeg setting request number (end_with ConnRefused []) (Fault server link moment) before past
        × Completes setting request answer (Fault server link moment) before }
{}
