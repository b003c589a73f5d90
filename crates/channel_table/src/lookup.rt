//! One question of a request.

ghost use Rattle.std.specs.Prelude.{◌≡◌, IfOk, option_map};
ghost use Rattle.query_machine.specs.Legs.{IsWaiting, attempt_from};
ghost use Rattle.channel_table.specs.Lookups.{asked_with_kind, begun_lookup, end_of_lookup, ended_seen, flew_over, is_flying, is_forced, new_lookup, next_lookup, lookup_behind, waits};

use crate::concerned::Concerned;
use chan_types::{Bytes, NoMemory, Status};
use channel_model::Judged;
use dns_message::{Name, NameList, Question};
use query_machine::{Leg, Phase};
use std::alloc::Global;
use std::mem;

/// One question of a request: of its current candidate, and for addresses of one family.
#[derive(Drop)]
pub struct Lookup {
    /// The number of its request.
    pub number: u64,
    /// The number of its leg.
    pub leg_number: u8,
    /// The leg has had an attempt.
    pub begun: bool,
    pub question: Question,
    /// The candidates behind the current one.
    pub names: NameList,
    pub leg: Leg,
    /// The reply with which the leg's last attempt came to its end, or no byte.
    pub reply: Bytes,
}

/// The question of a candidate, and the names of those behind it.
#[derive(Drop)]
pub struct Asked {
    pub question: Question,
    pub names: NameList,
}

impl Asked {
    /// The same for another kind.
    pub fn with_kind(&self, alloc: Global, kind: u16) -> Result<Asked, NoMemory>
        ensures { IfOk result (λ asked. asked ≡ asked_with_kind kind self.now) }
    {
        Ok(Asked {
            question: Question {
                name: self.question.name.copy(alloc)?,
                kind,
                class: self.question.class,
            },
            names: copied(alloc, self.names.as_slice())?,
        })
    }
}

/// Copies of these names.
fn copied(alloc: Global, names: &[Name]) -> Result<NameList, NoMemory>
    ensures { IfOk result (λ copies. copies ≡ names.now) }
{
    let mut copies = Vec::with_capacity(alloc, names.len())?;
    for name in names {
        copies.push(name.copy(alloc)?)?;
    }
    Ok(NameList::from_vec(copies))
}

/// How a leg ended: its status, and the reply that ended it, or no byte.
#[derive(Clone, Copy)]
pub struct Ended<'a> {
    pub status: Status,
    pub reply: &'a [u8],
}

impl Lookup {
    /// A lookup whose leg has had no attempt.
    pub fn new(alloc: Global, number: u64, leg_number: u8, asked: Asked, leg: Leg) -> Lookup
        ensures { result ≡ new_lookup number leg_number asked leg }
    {
        let Asked { question, names } = asked;
        Lookup {
            number,
            leg_number,
            question,
            names,
            leg,
            begun: false,
            reply: Bytes::new(alloc),
        }
    }

    /// Its leg waits.
    pub fn waits(&self) -> bool
        ensures { result ≡ waits self.now }
    {
        match self.leg.phase {
            Phase::Waiting => true,
            Phase::InFlight(_) | Phase::Ended(_) => false,
        }
    }

    /// An attempt of it is in flight.
    pub fn is_flying(&self) -> bool
        ensures { result ≡ is_flying self.now }
    {
        match self.leg.phase {
            Phase::InFlight(_) => true,
            Phase::Waiting | Phase::Ended(_) => false,
        }
    }

    /// Its leg has a server that its next attempt has to go to.
    pub fn is_forced(&self) -> bool
        ensures { result ≡ is_forced self.now }
    {
        self.leg.forced.is_some()
    }

    /// It has an attempt in flight on this server over this link.
    pub fn flew_over(&self, server: u32, link: u64) -> bool
        ensures { result ≡ flew_over server link self.now }
    {
        match self.leg.phase {
            Phase::InFlight(flying) => flying.server == server && flying.link == link,
            Phase::Waiting | Phase::Ended(_) => false,
        }
    }

    /// How its leg has ended behind an entry that concerns it, if it does, meant this and came with these bytes or
    /// none, where a leg may spend so many attempts; or none.
    #[inline(always)]
    pub fn ended_behind<'a>(
        &'a self,
        concerned: Concerned,
        is_second: bool,
        judged: Judged,
        bytes: &'a [u8],
        most: u32,
    ) -> Option<Ended<'a>>
        ensures { option_map ended_seen result
            ≡ end_of_lookup (lookup_behind concerned is_second judged bytes.now most self.now) }
    {
        let mut leg = self.leg;
        let mut reply = self.reply.as_slice();
        if concerned.concerns(self, is_second) {
            leg.reply(judged, most);
            reply = bytes;
        }
        match leg.ended() {
            Some(status) => Some(Ended { status, reply }),
            None => None,
        }
    }

    /// An attempt of it begins on this server, over this link, with this identifier and these bits for the case of its
    /// letters, if there are some, at a moment, and is given so long.
    #[inline(always)]
    pub fn begin(&mut self, server: u32, link: u64, id: u16, mix: Option<u16>, at: u64, wait: u64)
        requires waits { IsWaiting self.old.leg.phase }
        ensures { self.new ≡ begun_lookup (attempt_from server link id mix at wait) self.old }
    {
        self.leg.start(server, link, id, mix, at, wait);
        self.begun = true;
    }

    /// Its attempt has come to its end, if the entry concerns it, which meant this and came with this reply or none,
    /// where a leg may spend so many. It takes no memory.
    #[inline(always)]
    pub fn close(
        &mut self,
        concerned: Concerned,
        is_second: bool,
        judged: Judged,
        reply: Bytes,
        most: u32,
    )
        ensures { self.new ≡ lookup_behind concerned is_second judged reply most self.old }
    {
        if concerned.concerns(self, is_second) {
            self.leg.reply(judged, most);
            self.reply = reply;
        }
    }

    /// Asks the next candidate by this leg. It takes no memory.
    pub fn ask_next(&mut self, alloc: Global, leg: Leg)
        ensures { self.new ≡ next_lookup leg self.old }
    {
        let mut names = mem::replace(&mut self.names, NameList::new(alloc)).into_vec();
        if !names.is_empty() {
            self.question.name = names.remove(0);
        }
        self.names = NameList::from_vec(names);
        self.leg_number = self.leg_number.saturating_add(2);
        self.leg = leg;
        self.begun = false;
        self.reply = Bytes::new(alloc);
    }
}
