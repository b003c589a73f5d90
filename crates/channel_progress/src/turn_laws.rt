//! The laws of how many turns a run takes. Each function does nothing, and its contract is the law.

ghost use Rattle.std.specs.Prelude.{◌≤◌, ◌≢◌, ◌+◌, ◌*◌, ◌-◌, ◌^◌, [], List, ℕ, IsFalse, All, length};
ghost use Rattle.chan_types.specs.declared.journal.Entry.{Entry};
ghost use Rattle.net_world.specs.declared.log.WorldCall.{WorldCall};
ghost use Rattle.channel_model.specs.Completion.{pending};
ghost use Rattle.channel_model.specs.Course.{IsCourse};
ghost use Rattle.channel_model.specs.Endings.{IsStalledBehind};
ghost use Rattle.channel_model.specs.Journal.{accepted, past_of};
ghost use Rattle.channel_model.specs.Setting.{Setting};
ghost use Rattle.channel_model.specs.Turn.{received_in};
ghost use Rattle.channel_progress.specs.Allowed.{attempts_allowed};
ghost use Rattle.channel_progress.specs.Beside.{IsStalledBeside};
ghost use Rattle.channel_progress.specs.PlainRun.{IsPlainRun};
ghost use Rattle.channel_progress.specs.Prompted.{accepts_some, unprompted_in};

/// The law that a run in which a request is pending behind the last turn made at most two turns for each attempt that its
/// requests may spend, one for each item that it received, and two for each time that requests were accepted between turns
/// unprompted: never, where all are accepted before the first turn, and at most once, where there is one request.
/// So a run that is given more turns comes to its end, whether servers are set in it or not.
pub fn a_course_comes_to_its_end()
    ensures any { (setting : Setting) (seat turns : ℕ) (journal : List Entry) (log : List WorldCall)
        → IsPlainRun setting seat journal log
        → (stalled : IsStalledBehind setting seat (2 ^ 64 - 1) turns journal log)
        → turns ≤ 2 * attempts_allowed setting journal + received_in log
        + 2 * unprompted_in setting stalled.course.rounds }
    ensures accepted_first { (setting : Setting) (seat turns : ℕ) (journal : List Entry) (log : List WorldCall)
        → IsPlainRun setting seat journal log
        → (stalled : IsStalledBehind setting seat (2 ^ 64 - 1) turns journal log)
        → All (λ round. IsFalse (accepts_some round.between)) stalled.course.rounds
        → turns ≤ 2 * attempts_allowed setting journal + received_in log }
    ensures one_request { (setting : Setting) (seat turns : ℕ) (journal : List Entry) (log : List WorldCall)
        → IsPlainRun setting seat journal log
        → IsStalledBehind setting seat (2 ^ 64 - 1) turns journal log
        → length (accepted (past_of journal)) ≤ 1
        → turns ≤ 2 * attempts_allowed setting journal + received_in log + 2 }
{}

/// The law that readings of the clock between turns cost no turn: with any number of them a run in which a request is pending
/// behind the last turn made as few, and at most two for each attempt, one for each item received, and two for each request
/// that was accepted. Where a request is pending at the end of the journal, one is pending behind the last turn.
pub fn readings_cost_no_turn()
    ensures any { (setting : Setting) (seat turns asides : ℕ) (journal : List Entry) (log : List WorldCall)
        → IsPlainRun setting seat journal log
        → (stalled : IsStalledBeside setting seat (2 ^ 64 - 1) turns asides journal log)
        → turns ≤ 2 * attempts_allowed setting journal + received_in log
        + 2 * unprompted_in setting stalled.course.rounds }
    ensures each_request { (setting : Setting) (seat turns asides : ℕ) (journal : List Entry) (log : List WorldCall)
        → IsPlainRun setting seat journal log
        → IsStalledBeside setting seat (2 ^ 64 - 1) turns asides journal log
        → turns ≤ 2 * attempts_allowed setting journal + 2 * length (accepted (past_of journal)) + received_in log }
    ensures at_the_end { (setting : Setting) (seat slice turns asides : ℕ) (journal : List Entry) (log : List WorldCall)
        → IsCourse setting seat slice journal log turns asides
        → pending setting (past_of journal) ≢ []
        → IsStalledBeside setting seat slice turns asides journal log }
{}
