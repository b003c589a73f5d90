//! A long list of calls beside a model that keeps no list of answers: it counts, for each question, how many others have a
//! use after its last use.

use super::calls::{A, answer, given, question};
use chan_types::{Answer, Status};
use dns_message::Question;
use query_cache::QueryCache;
use std::alloc::Global;
use std::test::Fail;

/// How many calls are made.
const CALLS: u64 = 100_000;

/// The names that are asked for, each in two spellings.
const NAMES: [(&str, &str); 12] = [
    ("a.test", "A.test"),
    ("b.test", "b.TEST"),
    ("c.test", "C.TEST"),
    ("d.test", "D.tESt"),
    ("e.test", "e.tesT"),
    ("f.test", "F.Test"),
    ("aa.test", "aA.test"),
    ("a.a.test", "a.A.test"),
    ("test", "TEST"),
    ("a.tes.t", "A.tes.T"),
    ("long-label-of-a-name.test", "Long-Label-Of-A-Name.Test"),
    (".", "."),
];

/// The questions of all names, in both spellings.
fn spelled(alloc: Global) -> Result<Vec<Question>, Fail> {
    let mut questions = Vec::new(alloc);
    for (name, other) in NAMES.iter() {
        questions.push(question(alloc, name)?)?;
        questions.push(question(alloc, other)?)?;
    }
    Ok(questions)
}

/// What the model knows of a question: the call that used it last, and what was kept last, as the answer's number and end.
#[derive(Clone, Copy)]
struct Known {
    used: Option<u64>,
    kept: Option<(u64, u64)>,
}

/// A question of which nothing happened.
const NEW: Known = Known {
    used: None,
    kept: None,
};

/// What a look comes to.
#[derive(Clone, Copy)]
enum Sight {
    /// It gives the answer of this number.
    Hit(u64),
    /// The question stands, past its end.
    Ended,
    /// The question was kept, and had to make room.
    Gone,
    /// It was never kept.
    Never,
}

impl Sight {
    /// The number of the answer that is given.
    fn number(self) -> Option<u64> {
        match self {
            Sight::Hit(number) => Some(number),
            Sight::Ended | Sight::Gone | Sight::Never => None,
        }
    }
}

/// How many questions have a use after this one's last use.
fn used_later(known: &[Known], mine: Known) -> usize {
    let mut later = 0usize;
    for other in known {
        if other.used > mine.used {
            later = later.saturating_add(1);
        }
    }
    later
}

/// What a look for a question comes to, with so much room: it stands where it has been kept, and fewer others than there is
/// room for have a use after its last use.
fn sight_of(known: &[Known], mine: Known, room: usize, at: u64) -> Sight {
    let Some((number, end)) = mine.kept else {
        return Sight::Never;
    };
    if used_later(known, mine) >= room {
        Sight::Gone
    } else if at < end {
        Sight::Hit(number)
    } else {
        Sight::Ended
    }
}

/// How often each kind of look came, so that a test shows that none was left out.
#[derive(Clone, Copy)]
struct Seen {
    hits: u32,
    gone: u32,
    ended: u32,
}

impl Seen {
    /// Counts a look.
    fn count(&mut self, sight: Sight) {
        match sight {
            Sight::Hit(_) => self.hits = self.hits.saturating_add(1),
            Sight::Gone => self.gone = self.gone.saturating_add(1),
            Sight::Ended => self.ended = self.ended.saturating_add(1),
            Sight::Never => {}
        }
    }
}

/// A call: its number, the random word that says what it is, and its moment.
#[derive(Clone, Copy)]
struct Call {
    number: u64,
    word: u64,
    at: u64,
}

impl Call {
    /// Three of four calls are looks.
    fn is_look(self) -> bool {
        self.word >> 8 & 3 != 0
    }

    /// The spelling of the name that it asks for.
    fn spelling(self) -> usize {
        (self.word % 24) as usize
    }

    /// The ttl of the answer that it offers, from 0 to 7 seconds.
    fn ttl(self) -> u32 {
        (self.word >> 16 & 7) as u32
    }

    /// The answer that it offers is kept: one of eight is no success, and one of eight has a ttl of 0.
    fn is_kept(self) -> bool {
        self.ttl() != 0 && self.word >> 20 & 7 != 0
    }

    /// The answer that it offers. Another of its records has a ttl of 7 seconds.
    fn reply(self, alloc: Global) -> Result<Answer, Fail> {
        let mut reply = answer(alloc, self.number, &[(A, self.ttl()), (A, 7)])?;
        if self.word >> 20 & 7 == 0 {
            reply.status = Status::NotFound;
        }
        Ok(reply)
    }
}

/// A cache with the model beside it.
#[derive(Drop)]
struct Beside {
    cache: QueryCache,
    room: usize,
    most: u32,
    known: [Known; 12],
    seen: Seen,
}

impl Beside {
    /// A new cache with so much room, which keeps answers for so many seconds at most.
    fn make(alloc: Global, room: usize, most: u32) -> Result<Beside, Fail> {
        let count = room.clamp(1, 65_536) as u64;
        Ok(Beside {
            cache: QueryCache::make(alloc, count, most.clamp(1, 604_800))?,
            room,
            most,
            known: [NEW; 12],
            seen: Seen {
                hits: 0,
                gone: 0,
                ended: 0,
            },
        })
    }

    /// Knows this of a question.
    fn learn(&mut self, index: usize, known: Known) {
        if let Some(mine) = self.known.get_mut(index) {
            *mine = known;
        }
    }

    /// What the model says of a look, which it counts.
    fn sight(&mut self, index: usize, call: Call) -> Sight {
        let mine = self.known.get(index).copied().unwrap_or(NEW);
        let sight = sight_of(&self.known, mine, self.room, call.at);
        self.seen.count(sight);
        if let Sight::Hit(_) = sight {
            self.learn(
                index,
                Known {
                    used: Some(call.number),
                    kept: mine.kept,
                },
            );
        }
        sight
    }

    /// Looks for a question, and says whether the cache answers as the model does.
    fn look(&mut self, asked: &Question, index: usize, call: Call) -> Result<bool, Fail> {
        let sight = self.sight(index, call);
        Ok(given(&mut self.cache, asked, call.at)? == sight.number())
    }

    /// Offers an answer, and says whether the cache keeps it as the model does.
    fn keep(
        &mut self,
        alloc: Global,
        asked: &Question,
        index: usize,
        call: Call,
    ) -> Result<bool, Fail> {
        let is_kept = call.is_kept();
        if is_kept {
            let lives = 1000 * u64::from(call.ttl().min(self.most));
            self.learn(
                index,
                Known {
                    used: Some(call.number),
                    kept: Some((call.number, call.at.saturating_add(lives))),
                },
            );
        }
        Ok(self.cache.keep(asked, call.reply(alloc)?, call.at)? == is_kept)
    }

    /// Makes a call, and says whether the cache answers as the model does.
    fn make_call(
        &mut self,
        alloc: Global,
        questions: &[Question],
        call: Call,
    ) -> Result<bool, Fail> {
        let spelling = call.spelling();
        let Some(asked) = questions.get(spelling) else {
            return Ok(false);
        };
        if call.is_look() {
            self.look(asked, spelling / 2, call)
        } else {
            self.keep(alloc, asked, spelling / 2, call)
        }
    }
}

/// The next number of a sequence that looks random (xorshift, 64 bits).
fn random(state: &mut u64) -> u64 {
    *state ^= *state << 13;
    *state ^= *state >> 7;
    *state ^= *state << 17;
    *state
}

/// Makes all calls, and gives the first at which the cache and the model differ.
fn first_apart(alloc: Global, beside: &mut Beside) -> Result<Option<u64>, Fail> {
    let questions = spelled(alloc)?;
    let mut state = 0x9E37_79B9_7F4A_7C15u64;
    let mut at = 0u64;
    for number in 0..CALLS {
        let word = random(&mut state);
        at = at.saturating_add(word >> 40 & 127);
        let call = Call { number, word, at };
        if !beside.make_call(alloc, questions.as_slice(), call)? {
            return Ok(Some(number));
        }
    }
    Ok(None)
}

/// Whether no call differs with so much room and so many seconds at most, and of each kind of look there were many: past
/// their ends so many at least.
fn agree(alloc: Global, room: usize, most: u32, ended: u32) -> Result<bool, Fail> {
    let mut beside = Beside::make(alloc, room, most)?;
    Ok(
        first_apart(alloc, &mut beside)?.is_none()
            && beside.seen.hits > 1000
            && beside.seen.gone > 1000
            && beside.seen.ended >= ended,
    )
}

/// Rooms, for how many seconds an answer is kept at most, and how many looks there are at least for a question that stands,
/// past its end. In a room for one an answer makes room before it ends.
const ROOMS: [(usize, u32, u32); 4] = [(1, 86_400, 0), (5, 86_400, 100), (5, 3, 100), (8, 4, 100)];

#[test]
fn a_hundred_thousand_calls(rt: HostRuntime) -> Result<(), Fail> {
    for (room, most, ended) in ROOMS.iter() {
        assert!(rt; agree(rt.alloc(), *room, *most, *ended)?);
    }
    Ok(())
}
