//! A turner, which rounds with workers have make its turns.

use channel_model::Desk;
use net_world::World;
use worker_rounds::Pump;
use worker_session::Turner;

/// A turner whose turns are made while no request is ready, beside workers. It has a desk of its own: through the owner's
/// nothing is done.
#[derive(Drop)]
pub struct TurnerPump<D: Desk + Drop, W: World + Drop> {
    pub turner: Turner<D, W>,
}

impl<D: Desk + Drop, W: World + Drop> Pump for TurnerPump<D, W> {
    ghost use Rattle.std.specs.Prelude.{◌≡◌};
    ghost use Rattle.turner_rounds.specs.Pumping.{HasEnded, Pumps};
    ghost use Rattle.worker_session.specs.Turning.{turning_of};

    ghost steps = { λ old before new behind. Pumps
        (turning_of (D.known old.turner.desk) old.turner.runner old.turner.left old.turner.behind_turn old.turner.later
        old.turner.coming (W.log old.turner.world) (W.wait_faults old.turner.world)) before
        (turning_of (D.known new.turner.desk) new.turner.runner new.turner.left new.turner.behind_turn new.turner.later
        new.turner.coming (W.log new.turner.world) (W.wait_faults new.turner.world)) behind
        × (W.origin new.turner.world ≡ W.origin old.turner.world) };

    ghost ends = { λ pump known. HasEnded
        (turning_of (D.known pump.turner.desk) pump.turner.runner pump.turner.left pump.turner.behind_turn
        pump.turner.later pump.turner.coming (W.log pump.turner.world) (W.wait_faults pump.turner.world)) };

    /// Does the next thing through its own desk: a turn, or a pause behind one.
    fn step<O: Desk>(&mut self, _desk: &mut O) -> bool {
        self.turner.go_on()
    }

    /// Whether its turns have come to an end, or nothing is pending or ready and no servers are to be set.
    fn is_done<O: Desk>(&mut self, _desk: &mut O) -> bool {
        self.turner.has_ended()
    }
}
