//! What is done through the owner's place while no request is ready.

ghost use Rattle.std.specs.Prelude.{◌≡◌, IsTrue};
ghost use Rattle.channel_model.specs.Known.{Known};
ghost use Rattle.worker_rounds.specs.Going.{GoesFreely};

use channel_model::Desk;

/// What the owner of a channel does through its place while no request is ready, beside the workers: the turns and pauses of
/// a network. It takes no request.
pub trait Pump {
    // what a step is: by what the pump was and what the desk knew before it, and behind it
    ghost steps: { Self → Known → Self → Known → Type 0 };

    // where it stands, and the desk, all is done
    ghost ends: { Self → Known → Type 0 };

    /// Does the next thing, and answers whether there is more to do before the workers are to stop.
    fn step<D: Desk>(&mut self, desk: &mut D) -> bool
        ensures goes { GoesFreely (D.known desk.old) (D.known desk.new) }
        ensures steps { steps self.old (D.known desk.old) self.new (D.known desk.new) };

    /// Whether all is done, where the workers have stopped.
    fn is_done<D: Desk>(&mut self, desk: &mut D) -> bool
        ensures goes { GoesFreely (D.known desk.old) (D.known desk.new) }
        ensures steps { steps self.old (D.known desk.old) self.new (D.known desk.new) }
        ensures ends { IsTrue result → ends self.new (D.known desk.new) };
}

/// Nothing: what is ready is delivered, and all is done where nothing is.
#[derive(Drop)]
pub struct Idle;

impl Pump for Idle {
    ghost use Rattle.std.specs.Prelude.{◌≡◌, []};
    ghost use Rattle.channel_model.specs.Completion.{ready};
    ghost use Rattle.channel_model.specs.Journal.{past_of};

    ghost steps = { λ old before new behind. behind.own ≡ before.own };

    ghost ends = { λ idle known. ready known.setting (past_of known.seen) ≡ [] };

    fn step<D: Desk>(&mut self, _desk: &mut D) -> bool {
        false
    }

    fn is_done<D: Desk>(&mut self, desk: &mut D) -> bool {
        desk.counts().ready == 0
    }
}
