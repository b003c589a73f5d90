//! Laws of the calls of a desk. The function does nothing, and its contract is the law.

ghost use Rattle.std.specs.Prelude.{◌≡◌, ◌++◌, ℕ, List, Option};
ghost use Rattle.chan_types.specs.declared.journal.Entry.{Entry};
ghost use Rattle.chan_types.specs.declared.journal.What.{What};
ghost use Rattle.channel_model.specs.Journal.{own_entries};
ghost use Rattle.channel_model.specs.Known.{Known, GoesOn, IsSameDesk, StandsAt};
ghost use Rattle.channel_model.specs.Lawful.{IsLawful};
ghost use Rattle.channel_model.specs.Names.{NamesBecome};
ghost use Rattle.channel_model.specs.Seen.{entries_of};

/// Between two moments of a desk the journal that it has seen went on, and its own entries with it: nothing or one call does
/// so, whatever the call means, and one stretch behind another. If its own entries were those of its seat, they still are.
#[tactic(auto, using(crate::proofs::DeskLemmas::goes_on_refl, crate::proofs::DeskLemmas::goes_on_trans, crate::proofs::DeskLemmas::own_stays))]
pub fn desks_go_on()
    ensures nothing { (known : Known) → GoesOn known known }
    ensures call { (by : ℕ) (old new : Known) (here : List Entry) (added : Option What)
        → IsSameDesk old new → StandsAt old here
        → new.seen ≡ here ++ entries_of old.seat by added → new.own ≡ old.own ++ entries_of old.seat by added
        → NamesBecome added old.names new.names → IsLawful new.setting new.seen → GoesOn old new }
    ensures together { (old middle new : Known) → GoesOn old middle → GoesOn middle new → GoesOn old new }
    ensures own { (old new : Known) → GoesOn old new → old.own ≡ own_entries old.seat old.seen
        → new.own ≡ own_entries new.seat new.seen }
{}
