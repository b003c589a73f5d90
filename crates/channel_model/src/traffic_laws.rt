//! Laws of journals and logs.

ghost use Rattle.std.specs.Prelude.{◌≡◌, List, ℕ, [], ◌∷◌, ◌++◌, ◌+◌, ◌≤◌, length, filter_map, IsFalse};
ghost use Rattle.chan_types.specs.declared.journal.Entry.{Entry};
ghost use Rattle.net_world.specs.declared.log.WorldCall.{WorldCall};
ghost use Rattle.channel_model.specs.Calls.{received_by};
ghost use Rattle.channel_model.specs.Course.{IsCourse, IsCourseSoFar};
ghost use Rattle.channel_model.specs.CutShort.{NearlyAgrees};
ghost use Rattle.channel_model.specs.Endings.{turns_in};
ghost use Rattle.channel_model.specs.Journal.{Past};
ghost use Rattle.channel_model.specs.Setting.{Setting};
ghost use Rattle.channel_model.specs.Stretch.{Standing, beginning};
ghost use Rattle.channel_model.specs.Traffic.{TrafficAgrees, noted, arrived};
ghost use Rattle.channel_model.specs.Turn.{IsTurn, parts_of_entry, is_among, receiving};

/// The law that a run whose turns go one behind the other agrees with its log as a whole.
pub fn a_course_is_agreed_traffic()
    ensures { (setting : Setting) (seat slice : ℕ) (journal : List Entry) (log : List WorldCall)
        (turns asides : ℕ) →
        IsCourse setting seat slice journal log turns asides → TrafficAgrees setting seat journal log }
{}

/// The law that a run that may have been cut short agrees with its log, but for what want of memory cut off at its end.
pub fn a_course_so_far_nearly_agrees()
    ensures { (setting : Setting) (seat slice : ℕ) (journal : List Entry) (log : List WorldCall)
        (turns asides : ℕ) →
        IsCourseSoFar setting seat slice journal log turns asides
        → NearlyAgrees setting seat beginning journal log }
{}

/// The law that the readings of the clock in a run's log are its turns, and those beside them that are no turn's; and so
/// they are where the run may have been cut short, a turn that was cut short among its turns.
pub fn each_turn_reads_the_clock_once()
    ensures whole { (setting : Setting) (seat slice : ℕ) (journal : List Entry)
        (log : List WorldCall) (turns asides : ℕ) →
        IsCourse setting seat slice journal log turns asides → turns_in log ≡ turns + asides }
    ensures so_far { (setting : Setting) (seat slice : ℕ) (journal : List Entry)
        (log : List WorldCall) (turns asides : ℕ) →
        IsCourseSoFar setting seat slice journal log turns asides → turns_in log ≡ turns + asides }
{}

/// The law that a run receives at least once for each turn.
pub fn each_turn_receives()
    ensures { (setting : Setting) (seat slice : ℕ) (journal : List Entry) (log : List WorldCall)
        (turns asides : ℕ) →
        IsCourse setting seat slice journal log turns asides → turns ≤ length (filter_map received_by log) }
{}

/// The law that in a turn no message arrives behind an entry that isn't made while it receives, as an Expire or a Start.
pub fn a_turn_receives_first()
    ensures { (setting : Setting) (seat reading : ℕ) (old : Standing) (entries : List Entry)
        (calls : List WorldCall) (new : Standing) →
        IsTurn setting seat reading old entries calls new
        → (front back : List Entry) (entry : Entry) → entries ≡ front ++ entry ∷ back →
        entry.seat ≡ seat → IsFalse (is_among receiving (parts_of_entry entry.what)) → (past : Past)
        → noted seat arrived past back ≡ [] }
{}
