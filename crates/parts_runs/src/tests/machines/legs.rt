//! How a leg goes on.

use chan_types::Status;
use query_machine::{Flying, Judged, Leg, Phase};
use resolv_options::Options;
use std::test::Fail;

/// What happens to a leg, which may spend two attempts.
#[derive(Clone, Copy)]
enum Step {
    Start(u32),
    Reply(Judged),
    Expire,
    Fault,
    Removed(u32),
}

/// The leg behind the step, where its phase allows it.
fn behind(leg: Leg, step: Step) -> Option<Leg> {
    let mut leg = leg;
    match (step, leg.phase) {
        (Step::Start(server), Phase::Waiting) => leg.start(server, 0, 7, None, 1_000, 2_000),
        (Step::Reply(judged), Phase::InFlight(_)) => leg.reply(judged, 2),
        (Step::Expire, Phase::InFlight(_)) => leg.expire(2),
        (Step::Fault, Phase::InFlight(_)) => leg.fault(2),
        (Step::Removed(server), _) => leg.removed(server),
        (_, _) => return None,
    }
    Some(leg)
}

/// What happens to a leg over UDP with an OPT record, and how it is then: its spent attempts, whether it asks over TCP and
/// with an OPT record, the server that its next attempt has to go to, the one that its attempt went to, and its end. By hand
/// after this project's profile.
type Row = (
    Step,
    u32,
    bool,
    bool,
    Option<u32>,
    Option<u32>,
    Option<Status>,
);

const WALKS: [&[Row]; 5] = [
    &[
        (Step::Start(0), 0, false, true, None, Some(0), None),
        (Step::Expire, 1, false, true, None, None, None),
        (Step::Start(1), 1, false, true, None, Some(1), None),
        (
            Step::Fault,
            2,
            false,
            true,
            None,
            None,
            Some(Status::ConnRefused),
        ),
    ],
    &[
        (Step::Start(4), 0, false, true, None, Some(4), None),
        (
            Step::Reply(Judged::NextTcp),
            0,
            true,
            true,
            Some(4),
            None,
            None,
        ),
        (Step::Start(4), 0, true, true, Some(4), Some(4), None),
        (
            Step::Reply(Judged::NextPlain),
            0,
            true,
            false,
            Some(4),
            None,
            None,
        ),
        (Step::Start(4), 0, true, false, Some(4), Some(4), None),
        (
            Step::Reply(Judged::Final(Status::Success)),
            0,
            true,
            false,
            None,
            None,
            Some(Status::Success),
        ),
    ],
    &[
        (Step::Start(0), 0, false, true, None, Some(0), None),
        (
            Step::Reply(Judged::Failed(Status::ServFail)),
            1,
            false,
            true,
            None,
            None,
            None,
        ),
        (Step::Start(1), 1, false, true, None, Some(1), None),
        (
            Step::Reply(Judged::Failed(Status::Refused)),
            2,
            false,
            true,
            None,
            None,
            Some(Status::Refused),
        ),
    ],
    &[
        (Step::Start(1), 0, false, true, None, Some(1), None),
        (Step::Removed(0), 0, false, true, None, Some(1), None),
        (Step::Removed(1), 0, false, true, None, None, None),
        (Step::Start(2), 0, false, true, None, Some(2), None),
        (Step::Expire, 1, false, true, None, None, None),
        (Step::Start(2), 1, false, true, None, Some(2), None),
        (
            Step::Expire,
            2,
            false,
            true,
            None,
            None,
            Some(Status::TimedOut),
        ),
    ],
    &[
        (Step::Start(1), 0, false, true, None, Some(1), None),
        (
            Step::Reply(Judged::NextPlain),
            0,
            false,
            false,
            Some(1),
            None,
            None,
        ),
        (Step::Removed(0), 0, false, false, Some(1), None, None),
        (Step::Removed(1), 0, false, false, None, None, None),
    ],
];

/// The server that the leg's attempt went to, if one is in flight.
fn flies_to(leg: &Leg) -> Option<u32> {
    match leg.phase {
        Phase::InFlight(flying) => Some(flying.server),
        Phase::Waiting | Phase::Ended(_) => None,
    }
}

/// Whether the leg is as the row says.
fn is_as_told(leg: &Leg, row: &Row) -> bool {
    let (_, spent, over_tcp, has_opt, forced, server, ended) = *row;
    leg.spent == spent
        && leg.over_tcp == over_tcp
        && leg.has_opt == has_opt
        && leg.forced == forced
        && leg.ended() == ended
        && flies_to(leg) == server
}

#[test]
fn legs_walk_to_their_ends(rt: HostRuntime) -> Result<(), Fail> {
    let options = Options::plain(rt.alloc())?;
    for walk in WALKS.iter() {
        let mut leg = Leg::new(&options);
        for row in walk.iter() {
            leg = behind(leg, row.0).ok_or("a step that the phase doesn't allow")?;
            assert!(rt; is_as_told(&leg, row));
        }
    }
    Ok(())
}

#[test]
fn an_attempt_remembers_its_start(rt: HostRuntime) -> Result<(), Fail> {
    let mut leg = Leg::new(&Options::plain(rt.alloc())?);
    leg.start(3, 9, 0x1234, Some(5), 18_446_744_073_709_551_000, 2_000);
    assert_eq!(rt;
        leg.phase,
        Phase::InFlight(Flying {
            server: 3,
            link: 9,
            id: 0x1234,
            mix: Some(5),
            moment: 18_446_744_073_709_551_000,
            due: 18_446_744_073_709_551_615,
        })
    );
    Ok(())
}
