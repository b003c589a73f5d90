//! The clock that the World shows. It goes on as what has come is given, so that nothing expires whose reply has come.

ghost use Rattle.std.specs.Prelude.{◌≡◌, ◌≤◌};

/// Where the shown clock is behind the system's by more than this, a query that is sent then would have less time than it is
/// to have, in milliseconds.
const LAG_MOST: u64 = 100;

/// The clock that is shown, in milliseconds.
#[derive(Clone, Copy)]
pub(crate) struct Watch {
    pub(crate) shown: u64,
    /// The system's clock when the last look began.
    at: u64,
    /// How much later that was than the look before.
    step: u64,
    /// A query was sent while it was far behind: it doesn't catch up at once, so that the query has its time. It goes on no
    /// faster than time passes, by 100 ms at most from a look that brings much to the next, and twice as fast where little is
    /// held.
    is_late: bool,
}

impl Watch {
    /// One that shows 0.
    pub(crate) fn make() -> Watch
        ensures { result.shown ≡ 0 }
    {
        Watch {
            shown: 0,
            at: 0,
            step: 0,
            is_late: false,
        }
    }

    /// A look begins at this moment of the system's clock, `clock`, and all that had come before `moment` is given.
    pub(crate) fn begin_look(&mut self, moment: u64, clock: u64)
        ensures { self.old.shown ≤ self.new.shown }
    {
        self.step = clock.saturating_sub(self.at);
        self.at = self.at.max(clock);
        self.go_on(moment, self.step.min(LAG_MOST));
    }

    /// The look took all that had come, which is given before anything expires.
    pub(crate) fn end_look(&mut self, clock: u64)
        ensures { self.old.shown ≤ self.new.shown }
    {
        self.go_on(clock, self.step);
        self.is_late = self.is_late && self.shown < clock;
    }

    /// Goes on to this moment; where it is late, no further than so many milliseconds.
    fn go_on(&mut self, moment: u64, most: u64)
        ensures { self.old.shown ≤ self.new.shown }
    {
        let reach = self.shown.saturating_add(most);
        let goal = if self.is_late {
            moment.min(reach)
        } else {
            moment
        };
        self.shown = self.shown.max(goal);
    }

    /// Notes that a query is sent at about this moment of the system's clock.
    pub(crate) fn note_send(&mut self, clock: u64)
        ensures { self.new.shown ≡ self.old.shown }
    {
        self.is_late = self.is_late || clock.saturating_sub(self.shown) > LAG_MOST;
    }

    /// How long it is until this moment is shown, if all that comes is given.
    pub(crate) fn left(&self, until: u64, clock: u64) -> u64 {
        let now = if self.is_late {
            self.shown.saturating_add(clock.saturating_sub(self.at))
        } else {
            clock
        };
        until.saturating_sub(now)
    }
}
