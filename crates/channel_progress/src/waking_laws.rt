//! Laws of networks that wake in time. Each function does nothing, and its contract is the law.

ghost use Rattle.std.specs.Prelude.{◌∷◌, All, IsTrue, List, ℕ};
ghost use Rattle.net_world.specs.Script.{MayCome, ScriptState};
ghost use Rattle.net_world.specs.ScriptCalls.{ReadsClock, ReceivesFirst, WakesWell};
ghost use Rattle.net_world.specs.declared.answers.Got.{Got};
ghost use Rattle.net_world.specs.declared.answers.Waited.TheVariants.{Woken};
ghost use Rattle.net_world.specs.declared.log.WorldCall.{WorldCall};
ghost use Rattle.net_world.specs.declared.log.WorldCall.TheVariants.{Now, Receive};
ghost use Rattle.channel_progress.specs.Waking.{is_in_time};

/// The law that a network that goes by a script wakes in time for a turn: behind a wait that didn't fail, where the clock
/// is read next and then something is to be received.
pub fn a_script_wakes_in_time()
    ensures { (until reading : ℕ) (behind read new : ScriptState) (got : Got) (calls : List WorldCall)
        → All (λ item. MayCome item.got) behind.items → WakesWell until behind Woken
        → ReadsClock behind read reading → ReceivesFirst read new got
        → IsTrue (is_in_time until (Now reading ∷ Receive got ∷ calls)) }
{}
