//! Laws of the commands of callbacks.

ghost use Rattle.std.specs.Prelude.{◌≡◌, List, ℕ, IsFalse, All, filter_map, count_by};
ghost use Rattle.chan_types.specs.declared.journal.Entry.{Entry};
ghost use Rattle.chan_types.specs.declared.orders.Orders.{Orders};
ghost use Rattle.channel_model.specs.Commands.{Performance, IsPerformed, HadNothing, accepted_for, asking_of, commands_for, is_lost, past_at, without_entry};
ghost use Rattle.channel_model.specs.Journal.{is_destroyed};
ghost use Rattle.channel_model.specs.Setting.{Setting};

/// The law that the commands of a callback that left no entry, where no request was lost, had nothing to do: the
/// channel was destroyed, or a cancel found nothing pending.
pub fn commands_without_entry_had_nothing_to_do()
    ensures { (setting : Setting) (journal : List Entry) (last seats : ℕ) (orders : Orders) (p : Performance) →
        IsPerformed setting journal seats orders last p → count_by is_lost p.outcomes ≡ 0 →
        All (HadNothing setting journal last)
        (without_entry (commands_for setting journal orders p.request) p.outcomes) }
{}

/// The law that each request that a callback asks was accepted, in order and with its script, where none was lost and
/// the commands were performed before the channel was destroyed.
pub fn requests_asked_in_time_are_accepted()
    ensures { (setting : Setting) (journal : List Entry) (last seats : ℕ) (orders : Orders) (p : Performance) →
        IsPerformed setting journal seats orders last p → count_by is_lost p.outcomes ≡ 0
        → IsFalse (is_destroyed (past_at journal last)) →
        accepted_for p.request journal ≡ filter_map asking_of (commands_for setting journal orders p.request) }
{}
