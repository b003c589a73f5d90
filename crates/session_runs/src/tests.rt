//! What a session hands out and comes to, call by call, by the rules of turns and waits.

use chan_types::{Quiet, Spec};
use channel_model::Desk;
use channel_session::{Progress, Session};
use channel_table::Alone;
use dns_message::numbers::{CLASS_IN, KIND_A};
use hosts_file::Hosts;
use item_list::{Bytes, NoMemory};
use net_world::ScriptWorld;
use resolv_options::read_resolv;
use scenario::{Coming, items_of};
use std::alloc::Global;
use std::test::Fail;

/// One server, which is asked once, for 2 seconds (resolv.conf(5)).
const ONE: &[u8] = b"nameserver 192.0.2.53\noptions timeout:2 attempts:1\n";

/// A reply with the address 192.0.2.1 to the query with identifier 0x1234 for example.com (RFC 1035, section 4.1).
const REPLY: &[u8] =
    b"\x12\x34\x81\x80\0\x01\0\x01\0\0\0\0\x07example\x03com\0\0\x01\0\x01\xc0\x0c\0\x01\0\x01\0\0\0\x3c\0\x04\xc0\0\x02\x01";

/// The random word that the network gives each time: the identifier of an attempt that flies alone.
const WORD: u16 = 0x1234;

/// What a call comes to that hands out no request.
const OVER: u8 = 100;

const WAIT_FAULT: u8 = 101;

const STALLED: u8 = 102;

const DISTURBED: u8 = 103;

/// A session, its channel and its network, and what each call came to.
#[derive(Drop)]
struct Sitting {
    session: Session,
    desk: Alone<Quiet>,
    world: ScriptWorld,
    ends: Vec<u8>,
}

/// A case: which names are asked, what comes, the call of the network that fails, how many turns each call may make, and
/// what the calls come to: the code of a request's status, or one of the words above.
struct Case {
    names: &'static [&'static [u8]],
    comings: &'static [Coming<'static>],
    fails: &'static [u64],
    turns: &'static [u64],
    ends: &'static [u8],
}

/// A name under `onion` is answered at once with ENOTFOUND (4), a silent server's with ETIMEOUT (12) behind two turns with a
/// wait between them, and one that replies with SUCCESS.
const CASES: [Case; 6] = [
    Case {
        names: &[],
        comings: &[],
        fails: &[],
        turns: &[1, 9],
        ends: &[OVER, OVER],
    },
    Case {
        names: &[b"x.onion", b"y.onion"],
        comings: &[],
        fails: &[],
        turns: &[1, 9, 9],
        ends: &[4, 4, OVER],
    },
    Case {
        names: &[b"example.com"],
        comings: &[Coming::Datagram {
            from: 5,
            server: 0,
            bytes: REPLY,
        }],
        fails: &[],
        turns: &[9, 9],
        ends: &[0, OVER],
    },
    Case {
        names: &[b"example.com"],
        comings: &[],
        fails: &[],
        turns: &[1, 9, 9],
        ends: &[STALLED, 12, OVER],
    },
    Case {
        names: &[b"example.com", b"x.onion"],
        comings: &[],
        fails: &[],
        turns: &[0, 9, 9],
        ends: &[4, 12, OVER],
    },
    // The calls of the network: the server is told, the clock is read, nothing comes, a word is drawn, the query goes out,
    // a word is drawn for which no leg waits, and the seventh is the wait.
    Case {
        names: &[b"example.com"],
        comings: &[],
        fails: &[6],
        turns: &[9],
        ends: &[WAIT_FAULT],
    },
];

/// A session before its first call.
fn begun(alloc: Global, case: &Case) -> Result<Sitting, Fail> {
    let mut world = world_of(alloc, case)?;
    let (session, desk) = parties(alloc, &mut world)?;
    Ok(Sitting {
        session,
        desk,
        world,
        ends: Vec::new(alloc),
    })
}

/// The network of a case.
fn world_of(alloc: Global, case: &Case) -> Result<ScriptWorld, Fail> {
    let words = Vec::from_elem(alloc, WORD, 16)?;
    let fails = case.fails.to_vec(alloc)?;
    Ok(ScriptWorld::make(words, items_of(alloc, case.comings)?, fails))
}

/// A channel of one server, and its session.
fn parties(alloc: Global, world: &mut ScriptWorld) -> Result<(Session, Alone<Quiet>), Fail> {
    let options = read_resolv(alloc, ONE)?;
    let session = Session::make(alloc, world, &options)?;
    let desk = Alone::make(alloc, options, Hosts::empty(alloc))?;
    Ok((session, desk))
}

/// Asks for the addresses of IPv4 that these names have.
fn ask_all(alloc: Global, sitting: &mut Sitting, names: &[&[u8]]) -> Result<(), Fail> {
    for name in names {
        let name = Bytes::of(alloc, name)?;
        ask(alloc, &mut sitting.desk, name)?;
    }
    Ok(())
}

/// Asks for one.
fn ask(alloc: Global, desk: &mut Alone<Quiet>, name: Bytes) -> Result<(), NoMemory> {
    let spec = Spec::Query {
        name,
        kind: KIND_A,
        class: CLASS_IN,
    };
    match desk.accept(spec, Quiet::new(alloc)) {
        Ok(_) => Ok(()),
        Err(_) => Err(NoMemory),
    }
}

/// What a call came to.
fn end_of(progress: &Progress<Quiet>) -> u8 {
    match progress {
        Progress::Completed(ticket) => ticket.answer().status.code(),
        Progress::Over => OVER,
        Progress::WaitFault => WAIT_FAULT,
        Progress::Stalled => STALLED,
        Progress::Disturbed => DISTURBED,
    }
}

/// One call, of at most so many turns.
fn call(sitting: &mut Sitting, turns: u64) -> Result<(), Fail> {
    let progress = sitting
        .session
        .next(&mut sitting.desk, &mut sitting.world, turns)?;
    sitting.ends.push(end_of(&progress))?;
    Ok(())
}

/// The calls of a case, each with its turns.
fn call_all(alloc: Global, sitting: &mut Sitting, case: &Case) -> Result<(), Fail> {
    ask_all(alloc, sitting, case.names)?;
    for turns in case.turns {
        call(sitting, *turns)?;
    }
    Ok(())
}

/// Whether the calls of a case come to what it says.
fn comes_so(alloc: Global, case: &Case) -> Result<bool, Fail> {
    let mut sitting = begun(alloc, case)?;
    let called = call_all(alloc, &mut sitting, case);
    let is_so = sitting.ends.as_slice() == case.ends;
    called?;
    Ok(is_so)
}

#[test]
fn sessions_come_to_what_the_rules_say(rt: HostRuntime) -> Result<(), Fail> {
    for case in CASES.iter() {
        assert!(rt; comes_so(rt.alloc(), case)?);
    }
    Ok(())
}
