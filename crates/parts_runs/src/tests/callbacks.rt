//! A body that records its calls, and what scripts command, as tables.

ghost use Rattle.std.specs.Prelude.{◌≡◌, [], IfOk, IfSome, None, Some, is_some, true};

use chan_types::{
    Act, Addr, AddrList, Answer, Bytes, Command, Name, Need, NoMemory, Orders, Refusal, Script,
    Spec, Status, Step, Steps, Token, When,
};
use completion_ticket::{Callback, Called, Done, Hand, Scripted};
use std::alloc::Global;
use std::sync::Arc;
use std::sync::atomic::{AtomicU64, Ordering};
use std::test::Fail;

/// What a body was told, for somebody who has no hold of it.
#[derive(Drop)]
struct Record {
    calls: AtomicU64,
    number: AtomicU64,
    code: AtomicU64,
    refusals: AtomicU64,
}

/// A body that records what it is told.
#[derive(Drop)]
struct Recorder {
    inner: Scripted,
    record: Arc<Record, Global>,
}

impl Done for Recorder {
    ghost name = { λ recorder. recorder.inner.plan.tag };

    ghost plan = { λ recorder. recorder.inner.plan };

    ghost told = { λ recorder. recorder.inner.told };

    ghost refusal = { λ recorder. recorder.inner.refusal };

    fn script(&self) -> &Script {
        self.inner.script()
    }

    fn called(&self) -> Option<u64> {
        self.inner.called()
    }

    fn done(&mut self, answer: &Answer, hand: &mut Hand) {
        self.record.calls.fetch_add(1, Ordering::SeqCst);
        self.record.number.store(answer.number, Ordering::SeqCst);
        self.record
            .code
            .store(answer.status.code() as u64, Ordering::SeqCst);
        self.inner.done(answer, hand);
    }

    fn refused(&mut self, why: Refusal) {
        self.record
            .refusals
            .fetch_add(why.number() as u64, Ordering::SeqCst);
        self.inner.refused(why);
    }
}

fn blank_record(alloc: Global) -> Result<Arc<Record, Global>, NoMemory> {
    Ok(Arc::new(
        alloc,
        Record {
            calls: AtomicU64::new(0),
            number: AtomicU64::new(0),
            code: AtomicU64::new(0),
            refusals: AtomicU64::new(0),
        },
    )?)
}

fn answer(
    alloc: Global,
    number: u64,
    status: Status,
    addresses: &[Addr],
) -> Result<Answer, NoMemory> {
    Ok(Answer {
        number,
        status,
        message: Bytes::new(alloc),
        addresses: AddrList::of(alloc, addresses)?,
        canonical: Name::root(alloc),
    })
}

/// What callbacks with a body may do: go to another thread.
fn goes_to_threads<T: Send>(_: &T) {}

/// Calls a callback with this body. Answers its script's tag before the call, the number and origin of what remains, and
/// what the body then says it was told.
fn call_body<B: Done + Send + Drop>(
    body: B,
    answer: &Answer,
    hand: &mut Hand,
) -> (u64, u64, bool, Option<u64>)
    requires fresh { B.told body ≡ None }
    requires room { hand.old.commands ≡ [] }
{
    let callback = Callback::of(body);
    goes_to_threads(&callback);
    let tag = callback.script().tag();
    let called = callback.call(answer, hand);
    let (number, boxed) = (called.number(), called.boxed());
    (tag, number, boxed, told_by(called.into_body()))
}

/// What this body says it was told, if there is one.
fn told_by<B: Done + Drop>(body: Option<B>) -> Option<u64> {
    match body {
        Some(body) => body.called(),
        None => None,
    }
}

/// Refuses a callback with this body, and hands it back: it is the same one, and knows the refusal.
fn refuse_body<B: Done + Drop>(body: B, why: Refusal) -> Option<B>
    requires { B.told body ≡ None }
    ensures given { is_some result ≡ true }
    ensures told { IfSome result (λ back. B.refusal back ≡ Some why) }
    ensures name { IfSome result (λ back. B.name back ≡ B.name body) }
{
    Callback::of(body).refuse(why)
}

/// Calls two callbacks, the second one first, each with an answer of its own, and hands both bodies back: of each it is
/// known who it is, and what it was told.
fn call_both<B: Done + Drop>(
    first: B,
    second: B,
    one: &Answer,
    other: &Answer,
    hand: &mut Hand,
    other_hand: &mut Hand,
) -> (Option<B>, Option<B>)
    requires fresh { B.told first ≡ None }
    requires fresh_too { B.told second ≡ None }
    requires room { hand.old.commands ≡ [] }
    requires room_too { other_hand.old.commands ≡ [] }
    ensures given { (is_some result.0 ≡ true) × (is_some result.1 ≡ true) }
    ensures first { IfSome result.0
        (λ body. (B.name body ≡ B.name first) × (B.told body ≡ Some one.now.number)) }
    ensures second { IfSome result.1
        (λ body. (B.name body ≡ B.name second) × (B.told body ≡ Some other.now.number)) }
{
    let late = Callback::of(second).call(other, other_hand);
    let early = Callback::of(first).call(one, hand);
    (early.into_body(), late.into_body())
}

/// What a record has: the calls, the number and the code of the last one, and the sum of the refusals' numbers.
fn recorded(record: &Record) -> [u64; 4] {
    [
        record.calls.load(Ordering::SeqCst),
        record.number.load(Ordering::SeqCst),
        record.code.load(Ordering::SeqCst),
        record.refusals.load(Ordering::SeqCst),
    ]
}

/// A body with a script of this tag, which records what it is told.
fn recording(alloc: Global, tag: u64, record: &Arc<Record, Global>) -> Result<Recorder, Fail>
    ensures { IfOk result (λ recorder. recorder.inner.told ≡ None) }
{
    let record = Arc::try_clone(record)?;
    Ok(Recorder {
        inner: Scripted::new(Script::blank(alloc, tag)),
        record,
    })
}

/// Calls a box. Answers what it said it was told before the call, and what `call_body` answers.
fn call_box(
    alloc: Global,
    recorder: Recorder,
    told: &Answer,
) -> Result<(Option<u64>, (u64, u64, bool, Option<u64>)), Fail>
    requires { recorder.inner.told ≡ None }
{
    let mut hand = Hand::make(alloc)?;
    let body: Box<dyn Done + Send + Drop> = Box::new(alloc, recorder)?;
    let before = body.called();
    Ok((before, call_body(body, told, &mut hand)))
}

/// Refuses a box. Answers what it then says it was told.
fn refuse_box(alloc: Global, recorder: Recorder, why: Refusal) -> Result<Option<u64>, Fail>
    requires { recorder.inner.told ≡ None }
{
    let body: Box<dyn Done + Send + Drop> = Box::new(alloc, recorder)?;
    Ok(told_by(refuse_body(body, why)))
}

// A box is called once, with the answer of its request, and knows that answer's number afterwards. No other box is.
#[test]
fn a_box_is_called_once(rt: HostRuntime) -> Result<(), Fail> {
    let alloc = rt.alloc();
    let (first, other) = (blank_record(alloc)?, blank_record(alloc)?);
    let unused = recording(alloc, 8, &other)?;
    let told = answer(alloc, 7, Status::Cancelled, &[])?;
    let called = call_box(alloc, recording(alloc, 9, &first)?, &told)?;
    assert!(rt; called == (None, (9, 7, true, Some(7))));
    assert!(rt; recorded(&first) == [1, 7, 24, 0]);
    assert!(rt; refuse_box(alloc, unused, Refusal::NoMemory)? == None);
    assert!(rt; recorded(&other) == [0, 0, 0, 2]);
    Ok(())
}

/// Calls two boxes, the second one first, each with an answer of its own. Answers what each then says it was told.
fn call_boxes(
    alloc: Global,
    first: Recorder,
    second: Recorder,
    one: &Answer,
    other: &Answer,
) -> Result<(Option<u64>, Option<u64>), Fail>
    requires { (first.inner.told ≡ None) × (second.inner.told ≡ None) }
{
    let (mut hand, mut other_hand) = (Hand::make(alloc)?, Hand::make(alloc)?);
    let first: Box<dyn Done + Send + Drop> = Box::new(alloc, first)?;
    let second: Box<dyn Done + Send + Drop> = Box::new(alloc, second)?;
    let (early, late) = call_both(first, second, one, other, &mut hand, &mut other_hand);
    Ok((told_by(early), told_by(late)))
}

// Of two boxes the second one is called first: each is told its own request's answer.
#[test]
fn each_box_is_told_its_own(rt: HostRuntime) -> Result<(), Fail> {
    let alloc = rt.alloc();
    let (record, other_record) = (blank_record(alloc)?, blank_record(alloc)?);
    let one = answer(alloc, 7, Status::Success, &[])?;
    let other = answer(alloc, 8, Status::TimedOut, &[])?;
    let first = recording(alloc, 1, &record)?;
    let second = recording(alloc, 1, &other_record)?;
    let told = call_boxes(alloc, first, second, &one, &other)?;
    assert!(rt; told == (Some(7), Some(8)));
    assert!(rt; recorded(&record) == [1, 7, 0, 0]);
    assert!(rt; recorded(&other_record) == [1, 8, 12, 0]);
    Ok(())
}

fn step_of(when: When, need: Need, act: Act) -> Step {
    Step { when, need, act }
}

fn query(alloc: Global) -> Result<Spec, NoMemory> {
    Ok(Spec::Query {
        name: Bytes::of(alloc, b"x.test.")?,
        kind: 1,
        class: 1,
    })
}

/// Four steps: one without conditions, and one for each order.
fn four_steps(alloc: Global) -> Result<Script, Fail> {
    let ask = Act::Ask(query(alloc)?, Script::blank(alloc, 2));
    let mut steps = Steps::new(alloc);
    steps.push(step_of(When::Always, Need::Nothing, ask))?;
    steps.push(step_of(
        When::Good,
        Need::Follow,
        Act::Reverse(Script::blank(alloc, 3)),
    ))?;
    steps.push(step_of(When::Bad, Need::First, Act::Cancel))?;
    steps.push(step_of(When::Always, Need::Quit, Act::Destroy))?;
    Ok(Script::new(1, steps)?)
}

/// The command as a letter, with the tag of the new callback's script: a query of `x.test.`, the reverse name of 192.0.2.1,
/// cancel or destroy.
fn letter(command: &Command) -> (u8, u64) {
    match command {
        Command::Ask(
            Spec::Query {
                name,
                kind: 1,
                class: 1,
            },
            script,
        ) if name.as_slice() == b"x.test.".as_slice() => (b'q', script.tag()),
        Command::Ask(
            Spec::Reverse {
                address: Addr::V4(0xc000_0201),
            },
            script,
        ) => (b'r', script.tag()),
        Command::Ask(..) => (b'?', 0),
        Command::Cancel => (b'c', 0),
        Command::Destroy => (b'd', 0),
    }
}

/// The commands of the hand, which is empty then.
fn letters(alloc: Global, hand: &mut Hand) -> Result<Vec<(u8, u64)>, NoMemory> {
    let mut all = Vec::new(alloc);
    for _ in 0..8 {
        if let Some(command) = hand.next() {
            all.push(letter(&command))?;
        }
    }
    Ok(all)
}

const NONE: Orders = Orders {
    follow: false,
    first: false,
    quit: false,
};

const ALL: Orders = Orders {
    follow: true,
    first: true,
    quit: true,
};

const ADDRESS: Addr = Addr::V4(0xc000_0201);

const CASES: [(Status, Orders, &[Addr], &[(u8, u64)]); 5] = [
    (
        Status::Success,
        ALL,
        &[ADDRESS, Addr::V6(1)],
        &[(b'q', 2), (b'r', 3), (b'd', 0)],
    ),
    (Status::Success, ALL, &[], &[(b'q', 2), (b'd', 0)]),
    (Status::Success, NONE, &[ADDRESS], &[(b'q', 2)]),
    (
        Status::TimedOut,
        ALL,
        &[],
        &[(b'q', 2), (b'c', 0), (b'd', 0)],
    ),
    (Status::Cancelled, NONE, &[], &[(b'q', 2)]),
];

// Whether a callback with this script commands what the case has.
fn commands(
    alloc: Global,
    script: &Script,
    case: &(Status, Orders, &[Addr], &[(u8, u64)]),
) -> Result<bool, Fail> {
    let (status, orders, addresses, expected) = *case;
    let told = answer(alloc, 5, status, addresses)?;
    let mut hand = Hand::make(alloc)?;
    hand.set(orders);
    let callback: Callback<Recorder> = Callback::scripted(script.copy(alloc)?);
    let called = callback.call(&told, &mut hand);
    let told = (called.number(), called.boxed());
    Ok(told == (5, false) && letters(alloc, &mut hand)?.as_slice() == expected)
}

// A script alone commands by the answer's status, the orders and the answer's first address, in the order of its steps.
#[test]
fn scripts_command_by_answer_and_orders(rt: HostRuntime) -> Result<(), Fail> {
    let alloc = rt.alloc();
    let script = four_steps(alloc)?;
    for case in CASES.iter() {
        assert!(rt; commands(alloc, &script, case)?);
    }
    Ok(())
}

/// Fills a hand: a query, a destroy, and cancels. Answers for how many more there is room.
fn fill(alloc: Global, hand: &mut Hand) -> Result<u64, Fail>
    requires { hand.old.commands ≡ [] }
{
    hand.ask(query(alloc)?, Script::blank(alloc, 4));
    hand.destroy();
    for _ in 0..6 {
        if hand.free() != 0 {
            hand.cancel();
        }
    }
    Ok(hand.free())
}

/// What `fill` leaves, in order.
const FILLED: [(u8, u64); 8] = [
    (b'q', 4),
    (b'd', 0),
    (b'c', 0),
    (b'c', 0),
    (b'c', 0),
    (b'c', 0),
    (b'c', 0),
    (b'c', 0),
];

// A hand holds eight commands, and gives them back in order.
#[test]
fn a_hand_holds_eight(rt: HostRuntime) -> Result<(), Fail> {
    let alloc = rt.alloc();
    let mut hand = Hand::make(alloc)?;
    assert!(rt; hand.orders() == NONE);
    assert!(rt; fill(alloc, &mut hand)? == 0);
    assert!(rt; letters(alloc, &mut hand)?.as_slice() == FILLED.as_slice());
    assert!(rt; hand.free() == 8);
    Ok(())
}
