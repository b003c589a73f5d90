//! The laws of a channel that was served. Each function does nothing, and its contract is the law.

ghost use Rattle.std.specs.Prelude.{◌≡◌, List};
ghost use mathlib.Core.List.{IsPrefix};
ghost use Rattle.chan_types.specs.declared.journal.Entry.{Entry};
ghost use Rattle.chan_types.specs.declared.orders.Orders.{Orders};
ghost use Rattle.channel_model.specs.Known.{Known};
ghost use Rattle.channel_model.specs.Setting.{Setting};
ghost use Rattle.turner_rounds.specs.Pumping.{Pumps};
ghost use Rattle.turner_rounds.specs.Served.{AreServed};
ghost use Rattle.shared_channel.specs.Passes.{PassView};
ghost use Rattle.worker_rounds.specs.Serving.{HasServed};
ghost use Rattle.worker_session.specs.Stepping.{StepsOn};
ghost use Rattle.worker_session.specs.Turning.{Turning};

use worker_rounds::Pump;

/// Through each place of a channel that was served one thing after the other was done: the owner took requests for others
/// or called their callbacks at once, and each worker called callbacks of requests that others took. Each callback is the
/// one with which its request was accepted.
pub fn served_places_have_their_courses<P: Pump>()
    ensures { (orders : Orders) (setting : Setting) (journal : List Entry) (owner : PassView) (workers : List PassView)
        (pump_old : P) (owner_new : PassView) (workers_new : List PassView) (pump_new : P)
        → HasServed P.steps P.ends orders owner workers pump_old owner_new workers_new pump_new
        → owner.setting ≡ setting → IsPrefix owner_new.seen journal
        → AreServed orders setting journal owner workers owner_new workers_new }
{}

/// Where a pump's steps are those of a turner that it has, that turner went on over rounds by its own steps, one behind the
/// other, whatever else the channel's owner did between them.
pub fn a_turner_goes_on_over_rounds<P: Pump>()
    ensures { (turning : P → Turning) → ((old : P) (before : Known) (new : P) (behind : Known)
        → P.steps old before new behind → Pumps (turning old) before (turning new) behind)
        → (orders : Orders) (owner : PassView) (workers : List PassView) (pump_old : P)
        (owner_new : PassView) (workers_new : List PassView) (pump_new : P)
        → HasServed P.steps P.ends orders owner workers pump_old owner_new workers_new pump_new
        → StepsOn (turning pump_old) (turning pump_new) }
{}
