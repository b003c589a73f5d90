//! The law of such a run's traffic. The function does nothing, and its contract is the law.

ghost use Rattle.std.specs.Prelude.{List, Option, ℕ, ◌++◌, ◌≡◌};
ghost use Rattle.chan_types.specs.declared.journal.Entry.{Entry};
ghost use Rattle.net_addr.specs.declared.addr.ServerAddr.{ServerAddr};
ghost use Rattle.net_world.specs.Logs.{LogGets};
ghost use Rattle.net_world.specs.declared.log.WorldCall.{WorldCall};
ghost use Rattle.turner_laws.specs.Traffic.{GoesOnBehind, IsTrafficBeside};
ghost use Rattle.worker_session.specs.Standing.{StandsIn};
ghost use Rattle.worker_session.specs.Turning.{OwesNone, Turning};
ghost use Rattle.worker_session.specs.declared.coming.Coming.TheVariants.{UnderWay};

/// Where a run stands, of so many turns and with these servers to be set, and owes none where more turns may be made, and
/// the journal goes on behind that without turns, journal and calls fall into the turns that were made, whoever else made
/// entries between them.
pub fn a_run_beside_others_keeps_its_traffic()
    ensures { (turns : ℕ) (later : Option (List ServerAddr)) (began : Option (List WorldCall)) (t : Turning)
        (more : List Entry) → StandsIn turns later began t → (t.coming ≡ UnderWay → OwesNone t)
        → GoesOnBehind t more
        → LogGets (IsTrafficBeside t.known.setting t.known.seat later turns t.coming (t.known.seen ++ more)) began t.log }
{}
