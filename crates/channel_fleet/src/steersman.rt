//! A helm at its channel: it delivers, publishes counts, and makes turns and pauses.

ghost use Rattle.std.specs.Prelude.{◌≡◌, ◌++◌, ◌-◌, ◌+◌, ◌^◌, ◌∷◌, [], IfSome, MatchBool, Some, min};
ghost use Rattle.channel_fleet.specs.Steering.{EndsHere, Goes};
ghost use Rattle.channel_fleet.specs.Steersmen.{man_at};

use crate::helm_end::HelmEnd;
use crate::shown::Shown;
use chan_types::Orders;
use channel_journal::ChannelJournal;
use channel_model::{Counts, Desk};
use completion_ticket::Done;
use net_world::World;
use shared_channel::{Place, deliver_one};
use std::sync::Wait;
use std::sync::atomic::{AtomicBool, Ordering};
use std::thread::yield_now;
use watched_value::Publisher;
use worker_session::{Coming, Turner};

/// Callbacks ask nothing further.
pub(crate) const NO_ORDERS: Orders = Orders {
    follow: false,
    first: false,
    quit: false,
};

/// A helm at its channel, with its network.
pub(crate) struct Steersman<
    'f,
    B: Done + Drop,
    R: Wait,
    J: ChannelJournal,
    D: Desk + Drop,
    W: World + Drop,
> {
    /// What makes its turns, through a desk of its own.
    pub turner: Turner<D, W>,
    pub caller: Place<'f, B, R, J>,
    pub board: Publisher<Shown>,
    /// The counts that it was answered last.
    pub looked: Option<Counts>,
    /// How many turns were made before.
    pub earlier: u64,
    /// How many turns may be made.
    pub turns: u64,
}

impl<'f, B: Done + Drop, R: Wait, J: ChannelJournal, D: Desk + Drop, W: World + Drop> Steersman<
    'f,
    B,
    R,
    J,
    D,
    W,
> {
    /// Brings the channel to its answers, until its turns have come to an end, or nothing is left to be done by counts that it
    /// was answered once others had returned. Answers why it ended.
    pub fn run(&mut self, rt: &R, returned: &AtomicBool) -> HelmEnd
        ensures goes { Goes self.old.earlier self.old.turns (man_at self.old) (man_at self.new) }
        ensures same { (self.new.earlier ≡ self.old.earlier) × (self.new.turns ≡ self.old.turns) }
        ensures ended { EndsHere result (man_at self.new) }
        ensures origin { W.origin self.new.turner.world ≡ W.origin self.old.turner.world }
    {
        for _ in rt.forever() {
            // read first: so the counts that say that all is done are those of behind the others' return
            let last = returned.load(Ordering::SeqCst);
            if let Some(end) = ends_with(self.go_round(rt), last) {
                return end;
            }
        }
        unreachable!()
    }

    /// Delivers the first ready request; or, where none is ready, publishes the counts and makes a turn or a pause. Answers why
    /// it ends, where nothing is left to be done.
    fn go_round(&mut self, rt: &R) -> Option<HelmEnd>
        ensures goes { Goes self.old.earlier self.old.turns (man_at self.old) (man_at self.new) }
        ensures same { (self.new.earlier ≡ self.old.earlier) × (self.new.turns ≡ self.old.turns) }
        ensures ended { IfSome result (λ end. EndsHere end (man_at self.new)) }
        ensures origin { W.origin self.new.turner.world ≡ W.origin self.old.turner.world }
    {
        if self.deliver_first() {
            return None;
        }
        self.publish_counts(rt);
        if self.turn_on() {
            return None;
        }
        self.end()
    }

    /// Makes a turn or a pause, where there is something to be done. Answers whether there is more.
    fn turn_on(&mut self) -> bool
        ensures goes { Goes self.old.earlier self.old.turns (man_at self.old) (man_at self.new) }
        ensures same { (self.new.earlier ≡ self.old.earlier) × (self.new.turns ≡ self.old.turns) }
        ensures origin { W.origin self.new.turner.world ≡ W.origin self.old.turner.world }
    {
        self.turner.go_on()
    }

    /// Calls the callback of the first ready request, if one is.
    fn deliver_first(&mut self) -> bool
        ensures goes { Goes self.old.earlier self.old.turns (man_at self.old) (man_at self.new) }
        ensures same { (self.new.earlier ≡ self.old.earlier) × (self.new.turns ≡ self.old.turns) }
        ensures origin { W.origin self.new.turner.world ≡ W.origin self.old.turner.world }
    {
        deliver_one(&mut self.caller, NO_ORDERS).is_some()
    }

    /// Publishes the channel's counts, where they aren't those that were published last. One for which there is no memory is
    /// left out.
    fn publish_counts(&mut self, rt: &R)
        ensures goes { Goes self.old.earlier self.old.turns (man_at self.old) (man_at self.new) }
        ensures same { (self.new.earlier ≡ self.old.earlier) × (self.new.turns ≡ self.old.turns) }
        ensures origin { W.origin self.new.turner.world ≡ W.origin self.old.turner.world }
    {
        let shown = Shown {
            turns: self.made(),
            counts: self.caller.counts(),
        };
        self.looked = Some(shown.counts);
        tell(rt, &mut self.board, shown);
    }

    /// Why it ends: a wait of its network failed; or memory was wanting; or by the counts that it was answered last nothing is
    /// pending or ready; or by them a request is pending, and no turn is left. None, where there is more to do.
    fn end(&self) -> Option<HelmEnd>
        ensures { IfSome result (λ end. EndsHere end (man_at self.now)) }
    {
        match self.turner.coming {
            Coming::WaitFault => Some(HelmEnd::WaitFault),
            Coming::OutOfMemory => Some(HelmEnd::NoMemory),
            Coming::UnderWay => self.end_by_counts(),
            Coming::Stalled => self.end_by_counts(),
        }
    }

    /// The same by the counts alone.
    fn end_by_counts(&self) -> Option<HelmEnd>
        ensures { IfSome result (λ end. EndsHere end (man_at self.now)) }
    {
        let Some(counts) = self.looked else {
            return None;
        };
        if counts.pending == 0 {
            if counts.ready == 0 {
                Some(HelmEnd::Done)
            } else {
                None
            }
        } else if self.turner.left == 0 {
            Some(HelmEnd::Stalled)
        } else {
            None
        }
    }

    /// How many turns were made so far, as far as a count goes.
    pub fn made(&self) -> u64
        ensures { result ≡ min (self.now.earlier + (self.now.turns - self.now.turner.left)) (2 ^ 64 - 1) }
    {
        self.earlier
            .saturating_add(self.turns.saturating_sub(self.turner.left))
    }
}

/// Why a helm ends that would end so: not as done, unless this was so behind the others' return.
fn ends_with(end: Option<HelmEnd>, last: bool) -> Option<HelmEnd>
    ensures { IfSome result (λ its. end ≡ Some its) }
{
    if end == Some(HelmEnd::Done) && !last {
        yield_now();
        None
    } else {
        end
    }
}

/// Publishes this, where it isn't what was published last, and where there is memory. Answers whether it did.
fn tell<R: Wait>(rt: &R, board: &mut Publisher<Shown>, shown: Shown) -> bool
    ensures { MatchBool result (board.new ≡ board.old ++ shown ∷ []) (board.new ≡ board.old) }
{
    if shown == board.last() {
        return false;
    }
    match board.publish(rt, shown) {
        Ok(()) => true,
        Err(_) => false,
    }
}
