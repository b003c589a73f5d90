//! What makes a channel's turns while others use it.

ghost use Rattle.std.specs.Prelude.{◌≡◌, ◌≢◌, ◌≤◌, ◌<◌, ◌⊎◌, [], IsFalse, IsTrue, None, length};
ghost use Rattle.std.specs.Option.{ForSome};
ghost use Rattle.worker_session.specs.Stepping.{Answers, StepsOn, may_go_on};
ghost use Rattle.worker_session.specs.Turning.{pending_of, ready_of, turning_of};
ghost use Rattle.worker_session.specs.declared.coming.Coming.TheVariants.{UnderWay};

use crate::coming::Coming;
use crate::looking::{Look, look_at};
use channel_model::{Desk, SetFault};
use event_runner::{Paused, Runner};
use item_list::NoMemory;
use net_addr::ServerList;
use net_world::World;

/// The longest pause, in milliseconds: so long a request may wait that somebody else makes meanwhile.
const SLICE: u64 = 20;

/// A runner with a desk of its own and its network. Through that desk nothing is done but turns, and servers are set, if there
/// are some, behind the first of them; whoever else uses the channel has other desks. So what others make ready while it waits
/// may be taken before its next turn.
#[derive(Drop)]
pub struct Turner<D: Desk + Drop, W: World + Drop> {
    pub desk: D,
    pub runner: Runner,
    pub world: W,
    /// The servers that are still to be set.
    pub later: Option<ServerList>,
    /// How many turns it may still make.
    pub left: u64,
    /// Whether it made a turn since it last waited, or had no reason to.
    pub behind_turn: bool,
    pub coming: Coming,
    ghost few: { ForSome later (λ later. (1 ≤ length later) × (length later ≤ 8)) },
}

impl<D: Desk + Drop, W: World + Drop> Turner<D, W> {
    /// Before the first turn, of which so many may be made: with a runner that has told this network the servers, and with
    /// servers that are to be set behind it, if there are some.
    pub fn of(
        desk: D,
        runner: Runner,
        world: W,
        later: Option<ServerList>,
        turns: u64,
    ) -> Turner<D, W>
        requires few { ForSome later (λ later. (1 ≤ length later) × (length later ≤ 8)) }
        ensures parts { (result.desk ≡ desk) × (result.runner ≡ runner) × (result.world ≡ world)
            × (result.later ≡ later) }
        ensures start { (result.left ≡ turns) × IsFalse result.behind_turn × (result.coming ≡ UnderWay) }
    {
        Turner {
            desk,
            runner,
            world,
            later,
            left: turns,
            behind_turn: false,
            coming: Coming::UnderWay,
        }
    }

    /// Does the next thing: a pause, where a turn was made since the last, or else a turn; and answers whether there is more to
    /// do. It waits for nothing where a request is ready, or none is pending.
    pub fn go_on(&mut self) -> bool
        ensures steps { StepsOn
            (turning_of (D.known self.old.desk) self.old.runner self.old.left self.old.behind_turn self.old.later
            self.old.coming (W.log self.old.world) (W.wait_faults self.old.world))
            (turning_of (D.known self.new.desk) self.new.runner self.new.left self.new.behind_turn self.new.later
            self.new.coming (W.log self.new.world) (W.wait_faults self.new.world)) }
        ensures answer { Answers result
            (turning_of (D.known self.old.desk) self.old.runner self.old.left self.old.behind_turn self.old.later
            self.old.coming (W.log self.old.world) (W.wait_faults self.old.world))
            (turning_of (D.known self.new.desk) self.new.runner self.new.left self.new.behind_turn self.new.later
            self.new.coming (W.log self.new.world) (W.wait_faults self.new.world)) }
        ensures origin { W.origin self.new.world ≡ W.origin self.old.world }
    {
        match self.coming {
            Coming::UnderWay => self.go_further(),
            Coming::WaitFault => false,
            Coming::Stalled => false,
            Coming::OutOfMemory => false,
        }
    }

    /// Whether all is done: its turns have come to an end, or nothing is pending or ready, and no servers are to be set behind
    /// the turn that was made.
    pub fn has_ended(&mut self) -> bool
        ensures steps { StepsOn
            (turning_of (D.known self.old.desk) self.old.runner self.old.left self.old.behind_turn self.old.later
            self.old.coming (W.log self.old.world) (W.wait_faults self.old.world))
            (turning_of (D.known self.new.desk) self.new.runner self.new.left self.new.behind_turn self.new.later
            self.new.coming (W.log self.new.world) (W.wait_faults self.new.world)) }
        ensures origin { W.origin self.new.world ≡ W.origin self.old.world }
        ensures ended { IsTrue result → (self.new.coming ≢ UnderWay)
            ⊎ ((ready_of (D.known self.new.desk) ≡ []) × (pending_of (D.known self.new.desk) ≡ [])
            × ((self.new.later ≡ None) ⊎ IsFalse self.new.behind_turn)) }
        ensures kept { (self.new.later ≡ self.old.later) × (self.new.behind_turn ≡ self.old.behind_turn)
            × (self.new.coming ≡ self.old.coming) }
    {
        match self.coming {
            Coming::UnderWay => self.is_over(),
            Coming::WaitFault => true,
            Coming::Stalled => true,
            Coming::OutOfMemory => true,
        }
    }

    /// Whether nothing is pending or ready, and no servers are to be set behind the turn that was made.
    fn is_over(&mut self) -> bool
        requires under_way { self.old.coming ≡ UnderWay }
        ensures steps { StepsOn
            (turning_of (D.known self.old.desk) self.old.runner self.old.left self.old.behind_turn self.old.later
            self.old.coming (W.log self.old.world) (W.wait_faults self.old.world))
            (turning_of (D.known self.new.desk) self.new.runner self.new.left self.new.behind_turn self.new.later
            self.new.coming (W.log self.new.world) (W.wait_faults self.new.world)) }
        ensures origin { W.origin self.new.world ≡ W.origin self.old.world }
        ensures ended { IsTrue result →
            (ready_of (D.known self.new.desk) ≡ []) × (pending_of (D.known self.new.desk) ≡ [])
            × ((self.new.later ≡ None) ⊎ IsFalse self.new.behind_turn) }
        ensures kept { (self.new.later ≡ self.old.later) × (self.new.behind_turn ≡ self.old.behind_turn)
            × (self.new.coming ≡ self.old.coming) }
    {
        match look_at(&mut self.desk) {
            Look::Nothing => self.owes_none(),
            Look::Ready => false,
            Look::Pending => false,
        }
    }

    /// Whether no servers are to be set behind the turn that was made.
    fn owes_none(&self) -> bool
        ensures { IsTrue result → (self.now.later ≡ None) ⊎ IsFalse self.now.behind_turn }
    {
        match &self.later {
            None => true,
            Some(_) => !self.behind_turn,
        }
    }

    /// The next thing, where more turns may be made.
    fn go_further(&mut self) -> bool
        requires under_way { self.old.coming ≡ UnderWay }
        ensures steps { StepsOn
            (turning_of (D.known self.old.desk) self.old.runner self.old.left self.old.behind_turn self.old.later
            self.old.coming (W.log self.old.world) (W.wait_faults self.old.world))
            (turning_of (D.known self.new.desk) self.new.runner self.new.left self.new.behind_turn self.new.later
            self.new.coming (W.log self.new.world) (W.wait_faults self.new.world)) }
        ensures answer { Answers result
            (turning_of (D.known self.old.desk) self.old.runner self.old.left self.old.behind_turn self.old.later
            self.old.coming (W.log self.old.world) (W.wait_faults self.old.world))
            (turning_of (D.known self.new.desk) self.new.runner self.new.left self.new.behind_turn self.new.later
            self.new.coming (W.log self.new.world) (W.wait_faults self.new.world)) }
        ensures origin { W.origin self.new.world ≡ W.origin self.old.world }
    {
        if !self.set_later() {
            return false;
        }
        match look_at(&mut self.desk) {
            Look::Ready => true,
            Look::Pending => self.rest_or_turn(),
            Look::Nothing => false,
        }
    }

    /// A pause behind a turn, or else a turn, and behind the first one servers are set.
    fn rest_or_turn(&mut self) -> bool
        requires under_way { self.old.coming ≡ UnderWay }
        requires none_ready { ready_of (D.known self.old.desk) ≡ [] }
        requires some_pending { pending_of (D.known self.old.desk) ≢ [] }
        requires none_left { IsTrue self.old.behind_turn → self.old.later ≡ None }
        ensures steps { StepsOn
            (turning_of (D.known self.old.desk) self.old.runner self.old.left self.old.behind_turn self.old.later
            self.old.coming (W.log self.old.world) (W.wait_faults self.old.world))
            (turning_of (D.known self.new.desk) self.new.runner self.new.left self.new.behind_turn self.new.later
            self.new.coming (W.log self.new.world) (W.wait_faults self.new.world)) }
        ensures answer { Answers result
            (turning_of (D.known self.old.desk) self.old.runner self.old.left self.old.behind_turn self.old.later
            self.old.coming (W.log self.old.world) (W.wait_faults self.old.world))
            (turning_of (D.known self.new.desk) self.new.runner self.new.left self.new.behind_turn self.new.later
            self.new.coming (W.log self.new.world) (W.wait_faults self.new.world)) }
        ensures origin { W.origin self.new.world ≡ W.origin self.old.world }
    {
        if self.behind_turn {
            self.rest()
        } else {
            self.turn_and_set()
        }
    }

    /// A turn, if one is left to be made, and behind the first one servers are set.
    fn turn_and_set(&mut self) -> bool
        requires under_way { self.old.coming ≡ UnderWay }
        requires rested { IsFalse self.old.behind_turn }
        requires some_pending { pending_of (D.known self.old.desk) ≢ [] }
        ensures steps { StepsOn
            (turning_of (D.known self.old.desk) self.old.runner self.old.left self.old.behind_turn self.old.later
            self.old.coming (W.log self.old.world) (W.wait_faults self.old.world))
            (turning_of (D.known self.new.desk) self.new.runner self.new.left self.new.behind_turn self.new.later
            self.new.coming (W.log self.new.world) (W.wait_faults self.new.world)) }
        ensures answer { Answers result
            (turning_of (D.known self.old.desk) self.old.runner self.old.left self.old.behind_turn self.old.later
            self.old.coming (W.log self.old.world) (W.wait_faults self.old.world))
            (turning_of (D.known self.new.desk) self.new.runner self.new.left self.new.behind_turn self.new.later
            self.new.coming (W.log self.new.world) (W.wait_faults self.new.world)) }
        ensures origin { W.origin self.new.world ≡ W.origin self.old.world }
    {
        if self.turn() { self.set_later() } else { false }
    }

    /// Pauses, where a request is pending and none is ready.
    fn rest(&mut self) -> bool
        requires under_way { self.old.coming ≡ UnderWay }
        requires behind_turn { IsTrue self.old.behind_turn }
        requires none_left { self.old.later ≡ None }
        requires none_ready { ready_of (D.known self.old.desk) ≡ [] }
        ensures steps { StepsOn
            (turning_of (D.known self.old.desk) self.old.runner self.old.left self.old.behind_turn self.old.later
            self.old.coming (W.log self.old.world) (W.wait_faults self.old.world))
            (turning_of (D.known self.new.desk) self.new.runner self.new.left self.new.behind_turn self.new.later
            self.new.coming (W.log self.new.world) (W.wait_faults self.new.world)) }
        ensures answer { Answers result
            (turning_of (D.known self.old.desk) self.old.runner self.old.left self.old.behind_turn self.old.later
            self.old.coming (W.log self.old.world) (W.wait_faults self.old.world))
            (turning_of (D.known self.new.desk) self.new.runner self.new.left self.new.behind_turn self.new.later
            self.new.coming (W.log self.new.world) (W.wait_faults self.new.world)) }
        ensures origin { W.origin self.new.world ≡ W.origin self.old.world }
    {
        match self.runner.pause(&mut self.desk, &mut self.world, SLICE) {
            Ok(Paused::Skipped) => {
                self.behind_turn = false;
                true
            }
            Ok(Paused::Woken) => {
                self.behind_turn = false;
                true
            }
            Ok(Paused::WaitFault) => {
                self.behind_turn = false;
                self.coming = Coming::WaitFault;
                false
            }
            Err(NoMemory) => {
                self.coming = Coming::OutOfMemory;
                false
            }
        }
    }

    /// Makes a turn, where a request is pending, if one is left to be made.
    fn turn(&mut self) -> bool
        requires under_way { self.old.coming ≡ UnderWay }
        requires rested { IsFalse self.old.behind_turn }
        requires some_pending { pending_of (D.known self.old.desk) ≢ [] }
        ensures steps { StepsOn
            (turning_of (D.known self.old.desk) self.old.runner self.old.left self.old.behind_turn self.old.later
            self.old.coming (W.log self.old.world) (W.wait_faults self.old.world))
            (turning_of (D.known self.new.desk) self.new.runner self.new.left self.new.behind_turn self.new.later
            self.new.coming (W.log self.new.world) (W.wait_faults self.new.world)) }
        ensures origin { W.origin self.new.world ≡ W.origin self.old.world }
        ensures turned { IsTrue result → (self.new.coming ≡ UnderWay) × (self.new.left < self.old.left) }
        ensures ended { IsFalse result → IsFalse (may_go_on self.new.coming) }
    {
        if self.left == 0 {
            self.coming = Coming::Stalled;
            return false;
        }
        self.left -= 1;
        match self.runner.turn(&mut self.desk, &mut self.world) {
            Ok(_) => {
                self.behind_turn = true;
                true
            }
            Err(NoMemory) => {
                self.coming = Coming::OutOfMemory;
                false
            }
        }
    }

    /// Sets the servers that are left to be set where it stands right behind a turn: then none are left. A channel that a
    /// callback has destroyed keeps those that it had.
    fn set_later(&mut self) -> bool
        requires under_way { self.old.coming ≡ UnderWay }
        ensures steps { StepsOn
            (turning_of (D.known self.old.desk) self.old.runner self.old.left self.old.behind_turn self.old.later
            self.old.coming (W.log self.old.world) (W.wait_faults self.old.world))
            (turning_of (D.known self.new.desk) self.new.runner self.new.left self.new.behind_turn self.new.later
            self.new.coming (W.log self.new.world) (W.wait_faults self.new.world)) }
        ensures origin { W.origin self.new.world ≡ W.origin self.old.world }
        ensures none_left { IsTrue self.new.behind_turn → self.new.later ≡ None }
        ensures set { IsTrue result → self.new.coming ≡ UnderWay }
        ensures ended { IsFalse result → IsFalse (may_go_on self.new.coming) }
        ensures same { (self.new.left ≡ self.old.left) × (self.new.behind_turn ≡ self.old.behind_turn) }
    {
        if !self.behind_turn {
            return true;
        }
        let Some(servers) = self.later.take() else {
            return true;
        };
        match self.desk.set_servers(servers.as_slice()) {
            Ok(_) => true,
            Err(SetFault::Closed) => true,
            // Of 2^32 keys at most 16 are given, so they are never used up.
            Err(SetFault::Full) => {
                self.coming = Coming::OutOfMemory;
                false
            }
            Err(SetFault::NoMemory) => {
                self.coming = Coming::OutOfMemory;
                false
            }
        }
    }
}
