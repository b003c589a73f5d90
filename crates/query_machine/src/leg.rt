//! A leg, which is one question of a request: how its attempts go.

ghost use Rattle.std.specs.Prelude.{◌≡◌, Some, cond};
ghost use Rattle.chan_types.specs.declared.status.Status.TheVariants.{ConnRefused, TimedOut};
ghost use Rattle.channel_model.specs.LegEnd.{ending_status};
ghost use Rattle.channel_model.specs.Past.{is_failed, is_next_plain, is_next_tcp};
ghost use Rattle.channel_model.specs.declared.judged.Judged.TheVariants.{Failed};
ghost use Rattle.query_machine.specs.Legs.{IsInFlight, IsWaiting, attempt_from, flies_to, flying_in, forced_with, fresh_leg, leg_behind, leg_without, phase_with, spent_with, status_in};

use chan_types::Status;
use channel_model::Judged;
use resolv_options::Options;

/// An attempt in flight: where it went, its identifier, the bits that its letters' case was drawn with, if it was, when it
/// began and when it is due (moments in milliseconds).
#[derive(Clone, Copy, Debug, PartialEq, Eq)]
pub struct Flying {
    pub server: u32,
    pub link: u64,
    pub id: u16,
    pub mix: Option<u16>,
    pub moment: u64,
    pub due: u64,
}

/// What a leg does.
#[derive(Clone, Copy, Debug, PartialEq, Eq)]
pub enum Phase {
    /// It is to be started.
    Waiting,
    /// An attempt is in flight.
    InFlight(Flying),
    /// It has ended, with this status.
    Ended(Status),
}

/// A leg: what it does, and what its earlier attempts left for the next one.
#[derive(Clone, Copy, Debug, PartialEq, Eq)]
pub struct Leg {
    pub phase: Phase,
    /// How many attempts are spent.
    pub spent: u32,
    /// The question is asked over TCP.
    pub over_tcp: bool,
    /// The query has an OPT record.
    pub has_opt: bool,
    /// The server that the next attempt has to go to.
    pub forced: Option<u32>,
}

impl Leg {
    /// A leg without an attempt, as these options want it.
    pub fn new(options: &Options) -> Leg
        ensures { result ≡ fresh_leg options.now.flags }
    {
        let flags = options.flags();
        Leg {
            phase: Phase::Waiting,
            spent: 0,
            over_tcp: flags.usevc,
            has_opt: flags.edns,
            forced: None,
        }
    }

    /// An attempt begins on this server, over this link, with this identifier, at a moment, and is given so long (in
    /// milliseconds); `mix` has the bits that its letters' case was drawn with, if it was.
    pub fn start(&mut self, server: u32, link: u64, id: u16, mix: Option<u16>, at: u64, wait: u64)
        requires waits { IsWaiting self.old.phase }
        ensures { self.new
            ≡ record self.old { phase = Phase.InFlight (attempt_from server link id mix at wait) } }
    {
        self.phase = Phase::InFlight(Flying {
            server,
            link,
            id,
            mix,
            moment: at,
            due: at.saturating_add(wait),
        });
    }

    /// The attempt got a reply that means this, where the leg may spend `most` attempts.
    pub fn reply(&mut self, verdict: Judged, most: u32)
        requires flies { IsInFlight self.old.phase }
        ensures { self.new ≡ leg_behind verdict most self.old }
    {
        *self = self.behind(verdict, most);
    }

    /// The attempt's deadline passed, where the leg may spend `most` attempts.
    pub fn expire(&mut self, most: u32)
        requires flies { IsInFlight self.old.phase }
        ensures { self.new ≡ leg_behind (Failed TimedOut) most self.old }
    {
        *self = self.behind(Judged::Failed(Status::TimedOut), most);
    }

    /// The attempt's link failed, where the leg may spend `most` attempts.
    pub fn fault(&mut self, most: u32)
        requires flies { IsInFlight self.old.phase }
        ensures { self.new ≡ leg_behind (Failed ConnRefused) most self.old }
    {
        *self = self.behind(Judged::Failed(Status::ConnRefused), most);
    }

    /// The server left the channel's list: an attempt there ends and the leg waits again, and the next attempt doesn't have
    /// to go there.
    pub fn removed(&mut self, server: u32)
        ensures { self.new ≡ leg_without server self.old }
    {
        if self.flies_to(server) {
            self.phase = Phase::Waiting;
            self.forced = None;
        } else if self.forced == Some(server) {
            self.forced = None;
        }
    }

    /// The status with which the leg has ended, if it has.
    pub fn ended(&self) -> Option<Status>
        ensures { result ≡ status_in self.now.phase }
    {
        match self.phase {
            Phase::Waiting | Phase::InFlight(_) => None,
            Phase::Ended(status) => Some(status),
        }
    }

    /// The leg behind the end of its attempt, which meant this.
    fn behind(&self, judged: Judged, most: u32) -> Leg
        ensures { result ≡ leg_behind judged most self.now }
    {
        let spent = self.spent.saturating_add(spent_by(judged));
        Leg {
            phase: phase_with(ending(judged, spent, most)),
            spent,
            over_tcp: self.over_tcp || is_next_tcp(judged),
            has_opt: self.has_opt && !is_next_plain(judged),
            forced: self.forced_behind(judged),
        }
    }

    /// The server that the next attempt has to go to behind the end of this one.
    fn forced_behind(&self, judged: Judged) -> Option<u32>
        ensures { result ≡ forced_with judged (flying_in self.now.phase) }
    {
        let again = is_next_tcp(judged) || is_next_plain(judged);
        match self.phase {
            Phase::InFlight(flying) if again => Some(flying.server),
            Phase::Waiting | Phase::InFlight(_) | Phase::Ended(_) => None,
        }
    }

    /// The attempt in flight went to the server.
    fn flies_to(&self, server: u32) -> bool
        ensures { result ≡ flies_to server (flying_in self.now.phase) }
    {
        match self.phase {
            Phase::InFlight(flying) => flying.server == server,
            Phase::Waiting | Phase::Ended(_) => false,
        }
    }
}

/// The phase of a leg that has ended with a status, or waits again.
fn phase_with(status: Option<Status>) -> Phase
    ensures { result ≡ phase_with status }
{
    match status {
        Some(status) => Phase::Ended(status),
        None => Phase::Waiting,
    }
}

/// How many attempts the end of one spends.
fn spent_by(judged: Judged) -> u32
    ensures { result ≡ cond (is_failed (Some judged)) 1 0 }
{
    match judged {
        Judged::Failed(_) => 1,
        Judged::NextTcp | Judged::NextPlain | Judged::Final(_) => 0,
    }
}

fn is_next_tcp(judged: Judged) -> bool
    ensures { result ≡ is_next_tcp (Some judged) }
{
    match judged {
        Judged::NextTcp => true,
        Judged::NextPlain | Judged::Failed(_) | Judged::Final(_) => false,
    }
}

fn is_next_plain(judged: Judged) -> bool
    ensures { result ≡ is_next_plain (Some judged) }
{
    match judged {
        Judged::NextPlain => true,
        Judged::NextTcp | Judged::Failed(_) | Judged::Final(_) => false,
    }
}

/// The status with which the end of an attempt ends its leg, where so many are spent with it, and a leg may spend so many.
fn ending(judged: Judged, spent: u32, most: u32) -> Option<Status>
    ensures { result ≡ ending_status (Some judged) spent most }
{
    match judged {
        Judged::Failed(status) if most <= spent => Some(status),
        Judged::NextTcp | Judged::NextPlain | Judged::Failed(_) => None,
        Judged::Final(status) => Some(status),
    }
}
