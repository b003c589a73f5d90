//! Examples from outside, and each call that may take memory once with ample memory.

use chan_types::{
    Act, Addr, AddrList, Answer, BadScript, Bytes, Call, Calls, Name, Need, NoMemory, Quiet,
    Script, Spec, Status, Step, Steps, Ticket, When,
};
use std::alloc::Global;
use std::test::Fail;

/// The codes and names of c-ares, in its header file `ares.h`, without the prefix `ARES_`.
const C_ARES: [(Status, u8, &str); 13] = [
    (Status::Success, 0, "SUCCESS"),
    (Status::NoData, 1, "ENODATA"),
    (Status::FormErr, 2, "EFORMERR"),
    (Status::ServFail, 3, "ESERVFAIL"),
    (Status::NotFound, 4, "ENOTFOUND"),
    (Status::NotImp, 5, "ENOTIMP"),
    (Status::Refused, 6, "EREFUSED"),
    (Status::BadName, 8, "EBADNAME"),
    (Status::BadResp, 10, "EBADRESP"),
    (Status::ConnRefused, 11, "ECONNREFUSED"),
    (Status::TimedOut, 12, "ETIMEOUT"),
    (Status::Destruction, 16, "EDESTRUCTION"),
    (Status::Cancelled, 24, "ECANCELLED"),
];

#[test]
fn statuses_are_those_of_c_ares(rt: HostRuntime) {
    for (status, code, text) in C_ARES.iter() {
        assert!(rt; status.code() == *code && status.text() == *text);
    }
}

/// What a list of calls is made of may go to another thread.
fn goes_to_threads<T: Send + Sync>(_: &T) {}

fn answer(alloc: Global, number: u64) -> Result<Answer, NoMemory> {
    Ok(Answer {
        number,
        status: Status::NoData,
        message: Bytes::of(alloc, b"reply")?,
        addresses: AddrList::of(alloc, &[Addr::V4(0xc000_0201), Addr::V6(1)])?,
        canonical: Name::root(alloc),
    })
}

/// The number, the status and the length of the message of a call that isn't filled.
fn blank(call: &Call) -> (u64, Status, usize) {
    let answer = call.answer();
    (answer.number, answer.status, answer.message.len())
}

/// A call with an answer of this number, which went with a ticket.
fn spent(alloc: Global, number: u64) -> Result<Call, NoMemory> {
    let mut call = Call::make(alloc)?;
    call.fill(answer(alloc, number)?);
    let (quiet, call) = Ticket::of(Quiet::new(alloc), call).spend();
    goes_to_threads(&quiet);
    Ok(call)
}

/// The numbers of the calls, in order.
fn numbers_of(alloc: Global, calls: &Calls) -> Result<Vec<u64>, NoMemory> {
    let mut numbers = Vec::new(alloc);
    for answer in calls.iter() {
        numbers.push(answer.number)?;
    }
    Ok(numbers)
}

#[test]
fn calls_keep_their_order(rt: HostRuntime) -> Result<(), Fail> {
    let alloc = rt.alloc();
    let first = Call::make(alloc)?;
    assert!(rt; blank(&first) == (0, Status::Success, 0));
    let mut others = Calls::new();
    others.add(spent(alloc, 1)?);
    others.add(spent(alloc, 2)?);
    let mut calls = Calls::new();
    calls.add(first);
    calls.append(others);
    goes_to_threads(&calls);
    assert!(rt; numbers_of(alloc, &calls)?.as_slice() == [0, 1, 2].as_slice());
    Ok(())
}

// Whether it is what `answer` makes with the number 7.
fn is_seventh(answer: &Answer) -> bool {
    answer.number == 7
        && answer.status == Status::NoData
        && answer.message.as_slice() == b"reply".as_slice()
        && answer.addresses.as_slice() == [Addr::V4(0xc000_0201), Addr::V6(1)].as_slice()
}

#[test]
fn an_answer_is_copied(rt: HostRuntime) -> Result<(), Fail> {
    let made = answer(rt.alloc(), 7)?;
    assert!(rt; is_seventh(&made.copy(rt.alloc())?));
    Ok(())
}

/// A step that asks for a name, with a callback of this script.
fn asking(alloc: Global, script: Script) -> Result<Step, NoMemory> {
    let spec = Spec::Query {
        name: Bytes::of(alloc, b"a")?,
        kind: 1,
        class: 1,
    };
    Ok(Step {
        when: When::Good,
        need: Need::Follow,
        act: Act::Ask(spec, script),
    })
}

/// As many scripts, each inside the next.
fn nested(alloc: Global, scripts: u64) -> Result<Result<Script, BadScript>, NoMemory> {
    let mut script = Script::blank(alloc, 1);
    for tag in 1..scripts {
        let mut steps = Steps::new(alloc);
        steps.push(asking(alloc, script)?)?;
        script = match Script::new(tag + 1, steps) {
            Ok(script) => script,
            Err(why) => return Ok(Err(why)),
        };
    }
    Ok(Ok(script))
}

/// The tag of a script, and of the one that its one step hands on where that asks for `a`.
fn tags(script: &Script) -> (u64, Option<u64>) {
    (script.tag(), tag_inside(script.steps()))
}

/// The tag of the script that one step hands on where it asks for `a`.
fn tag_inside(steps: &[Step]) -> Option<u64> {
    match steps {
        [
            Step {
                act: Act::Ask(Spec::Query { name, kind, class }, inside),
                ..
            },
        ] if name.as_slice() == b"a".as_slice() && (*kind, *class) == (1, 1) => Some(inside.tag()),
        _ => None,
    }
}

#[test]
fn five_deep_make_no_script(rt: HostRuntime) -> Result<(), Fail> {
    assert!(rt; nested(rt.alloc(), 5)?.err() == Some(BadScript::TooDeep));
    let script = nested(rt.alloc(), 4)??;
    assert!(rt; tags(&script.copy(rt.alloc())?) == (4, Some(3)));
    Ok(())
}

/// Nine steps.
fn nine_steps(alloc: Global) -> Result<Steps, NoMemory> {
    let mut steps = Steps::new(alloc);
    for _ in 0..9 {
        steps.push(Step {
            when: When::Always,
            need: Need::Quit,
            act: Act::Destroy,
        })?;
    }
    Ok(steps)
}

#[test]
fn nine_steps_make_no_script(rt: HostRuntime) -> Result<(), Fail> {
    let steps = nine_steps(rt.alloc())?;
    assert!(rt; Script::new(1, steps).err() == Some(BadScript::TooManySteps));
    Ok(())
}
