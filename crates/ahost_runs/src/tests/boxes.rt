//! Boxed bodies that record what they are told.

ghost use Rattle.std.specs.Prelude.{◌≡◌, All, IfOk, None};

use super::RUN;
use super::bodies::report_script;
use super::outside::{Outside, outside_of};
use ahost_tool::{run_boxed, run_returning_bodies};
use chan_types::{Addr, Answer, Refusal, Script};
use completion_ticket::{Done, Hand, Scripted};
use item_list::NoMemory;
use scenario::words_of;
use std::alloc::Global;
use std::sync::Arc;
use std::sync::atomic::{AtomicU64, Ordering};
use std::test::Fail;

/// What a body was told, for somebody who has no hold of it: how often, and of the last answer its number, its status by
/// code, how many addresses it has, and the first one of IPv4.
#[derive(Drop)]
struct Record {
    calls: AtomicU64,
    number: AtomicU64,
    code: AtomicU64,
    addresses: AtomicU64,
    first: AtomicU64,
}

/// A body that records what it is told, and performs its script.
#[derive(Drop)]
struct Recorder {
    inner: Scripted,
    record: Arc<Record, Global>,
}

impl Done for Recorder {
    ghost name = { λ recorder. recorder.inner.plan.tag };

    ghost plan = { λ recorder. recorder.inner.plan };

    ghost told = { λ recorder. recorder.inner.told };

    ghost refusal = { λ recorder. recorder.inner.refusal };

    fn script(&self) -> &Script {
        self.inner.script()
    }

    fn called(&self) -> Option<u64> {
        self.inner.called()
    }

    fn done(&mut self, answer: &Answer, hand: &mut Hand) {
        note(&self.record, answer);
        self.inner.done(answer, hand);
    }

    fn refused(&mut self, why: Refusal) {
        self.inner.refused(why);
    }
}

/// Notes that this answer was told.
fn note(record: &Record, answer: &Answer) {
    record.calls.fetch_add(1, Ordering::SeqCst);
    record.number.store(answer.number, Ordering::SeqCst);
    let code = u64::from(answer.status.code());
    record.code.store(code, Ordering::SeqCst);
    let addresses = answer.addresses.as_slice();
    let count = addresses.len() as u64;
    record.addresses.store(count, Ordering::SeqCst);
    if let Some(Addr::V4(bits)) = addresses.first() {
        record.first.store(u64::from(*bits), Ordering::SeqCst);
    }
}

fn blank_record(alloc: Global) -> Result<Arc<Record, Global>, NoMemory> {
    Ok(Arc::new(
        alloc,
        Record {
            calls: AtomicU64::new(0),
            number: AtomicU64::new(0),
            code: AtomicU64::new(0),
            addresses: AtomicU64::new(0),
            first: AtomicU64::new(0),
        },
    )?)
}

/// What the record says, in its order.
fn noted(record: &Record) -> [u64; 5] {
    [
        record.calls.load(Ordering::SeqCst),
        record.number.load(Ordering::SeqCst),
        record.code.load(Ordering::SeqCst),
        record.addresses.load(Ordering::SeqCst),
        record.first.load(Ordering::SeqCst),
    ]
}

/// A body that writes into the record, with a script of this tag.
fn recording_body(alloc: Global, record: &Arc<Record, Global>, tag: u64) -> Result<Recorder, Fail>
    ensures { IfOk result (λ body. body.inner.told ≡ None) }
{
    Ok(Recorder {
        inner: Scripted::new(report_script(alloc, tag)?),
        record: Arc::try_clone(record)?,
    })
}

/// What three boxes of a run were told, the first two of which have a name.
fn notes_of_boxes(alloc: Global) -> Result<[[u64; 5]; 3], Fail> {
    let first = blank_record(alloc)?;
    let second = blank_record(alloc)?;
    let third = blank_record(alloc)?;
    run_with(alloc, &first, &second, &third)?;
    Ok([noted(&first), noted(&second), noted(&third)])
}

/// Two boxes are called once each, with their requests' answers; a third, for which there is no name, isn't called.
#[test]
fn each_box_is_called_once(rt: HostRuntime) -> Result<(), Fail> {
    let wanted = [[1, 1, 0, 1, 0xc000_0201], [1, 2, 4, 0, 0], [0, 0, 0, 0, 0]];
    assert!(rt; notes_of_boxes(rt.alloc())? == wanted);
    Ok(())
}

/// A run for an address and a name that is never asked, whose boxes write into these records.
fn run_with(
    alloc: Global,
    first: &Arc<Record, Global>,
    second: &Arc<Record, Global>,
    third: &Arc<Record, Global>,
) -> Result<(), Fail> {
    let words = words_of(alloc, "192.0.2.1 x.onion")?;
    let mut outside = outside_of(alloc, &RUN)?;
    let boxes = boxes_of(alloc, [first, second, third], [0, 0, 0])?;
    run_lent(alloc, words.as_slice(), boxes, &mut outside);
    Ok(())
}

/// Three boxes whose bodies write into these records, with scripts of these tags.
fn boxes_of(
    alloc: Global,
    records: [&Arc<Record, Global>; 3],
    tags: [u64; 3],
) -> Result<Vec<Box<dyn Done + Send + Drop>>, Fail>
    ensures { IfOk result (λ boxes. All (λ body. told body ≡ None) boxes.items) }
{
    let [first, second, third] = records;
    let mut boxes: Vec<Box<dyn Done + Send + Drop>> = Vec::new(alloc);
    boxes.push(Box::new(alloc, recording_body(alloc, first, tags[0])?)?)?;
    boxes.push(Box::new(alloc, recording_body(alloc, second, tags[1])?)?)?;
    boxes.push(Box::new(alloc, recording_body(alloc, third, tags[2])?)?)?;
    Ok(boxes)
}

/// Plays a run with these boxes. No other function calls `run_boxed`: its clauses are long.
fn run_lent(
    alloc: Global,
    words: &[&str],
    boxes: Vec<Box<dyn Done + Send + Drop>>,
    outside: &mut Outside,
)
    requires { All (λ body. told body ≡ None) boxes.items }
{
    let Outside { files, world, sink } = outside;
    run_boxed(alloc, words, boxes, files, world, sink, RUN.turns);
}

/// What a box says of itself: the tag of its script, and the number of the answer that it was told, or 0.
type Said = (u64, u64);

/// A run with three boxes, and what they say when they are back: each box that has a name was told the answer of its name's
/// request, whatever its callback or another one commanded.
#[derive(Clone, Copy)]
struct Return {
    shows: &'static str,
    line: &'static str,
    said: [Said; 3],
}

const RETURNS: &[Return] = &[
    Return {
        shows: "a box for which there is no name isn't told",
        line: "192.0.2.1 x.onion",
        said: [(7, 1), (8, 2), (9, 0)],
    },
    Return {
        shows: "the third name completes first, and destroys the channel: the others are told so",
        line: "--server 192.0.2.53 --family 4 --quit x.test. y.test. 192.0.2.1",
        said: [(7, 1), (8, 2), (9, 3)],
    },
    Return {
        shows: "a request that a callback asks has no box",
        line: "--server 192.0.2.53 --no-edns --tries 1 --follow 192.0.2.1 x.onion",
        said: [(7, 1), (8, 2), (9, 0)],
    },
    Return {
        shows: "words that are refused ask nothing",
        line: "--unknown 192.0.2.1",
        said: [(7, 0), (8, 0), (9, 0)],
    },
    Return {
        shows: "so do more names than there are boxes",
        line: "192.0.2.1 192.0.2.2 192.0.2.3 192.0.2.4",
        said: [(7, 0), (8, 0), (9, 0)],
    },
];

#[test]
fn boxes_come_back(rt: HostRuntime) -> Result<(), Fail> {
    let alloc = rt.alloc();
    for case in RETURNS {
        let said = said_by_boxes(alloc, case.line)?;
        assert!(rt; said.as_slice() == case.said.as_slice(), "{}", case.shows);
    }
    Ok(())
}

/// What three boxes say that a run with these words gave back, in their order.
fn said_by_boxes(alloc: Global, line: &'static str) -> Result<Vec<Said>, Fail> {
    let words = words_of(alloc, line)?;
    let mut outside = outside_of(alloc, &RUN)?;
    let record = blank_record(alloc)?;
    let boxes = boxes_of(alloc, [&record, &record, &record], [7, 8, 9])?;
    let back = given_back(alloc, words.as_slice(), boxes, &mut outside);
    said_by(alloc, back.as_slice())
}

/// The boxes that a run gives back. No other function calls `run_returning_bodies`.
fn given_back(
    alloc: Global,
    words: &[&str],
    boxes: Vec<Box<dyn Done + Send + Drop>>,
    outside: &mut Outside,
) -> Vec<Box<dyn Done + Send + Drop>>
    requires { All (λ body. told body ≡ None) boxes.items }
{
    let Outside { files, world, sink } = outside;
    let (_, back) = run_returning_bodies(alloc, words, boxes, files, world, sink, RUN.turns);
    back
}

/// What these boxes say.
fn said_by(alloc: Global, boxes: &[Box<dyn Done + Send + Drop>]) -> Result<Vec<Said>, Fail> {
    let mut said = Vec::new(alloc);
    for body in boxes {
        said.push((body.script().tag(), body.called().unwrap_or(0)))?;
    }
    Ok(said)
}
