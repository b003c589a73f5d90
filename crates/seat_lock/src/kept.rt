//! What a state under the lock is, and what one operation on it is.
ghost use Rattle.std.specs.Prelude.{◌≡◌, List, ℕ};
ghost use Rattle.seat_lock.specs.History.{AddsAtMostOne};

/// A state that stands for a list of entries, each made by one seat, and that has a setting.
pub trait Kept {
    /// What the state keeps of one operation.
    type Entry;

    /// Plain data of the state that no operation changes.
    type Setting;

    // the entries, the oldest first
    ghost stands: { Self → List Self.Entry };

    // the number of the seat that made an entry
    ghost maker: { Self.Entry → ℕ };

    ghost setting: { Self → Self.Setting };
}

/// One operation on the state. It adds one entry at most, as an entry of the seat that it is told.
pub trait Op<S: Kept> {
    /// What it answers.
    type Reply;

    // of the operation, the setting, the entries before, the seat's number, the reply and the entries after
    ghost means: { Self → S.Setting → List S.Entry → ℕ → Self.Reply → List S.Entry → Type 0 };

    /// Runs the operation for the seat with this number.
    fn run(self, state: &mut S, seat: u64) -> Self::Reply
        ensures means { means self (S.setting state.old) (S.stands state.old) seat result (S.stands state.new) }
        ensures adds { AddsAtMostOne S.maker seat (S.stands state.old) (S.stands state.new) }
        ensures setting { S.setting state.new ≡ S.setting state.old };
}
