//! Runs over links.

use super::replies::PRINTED;
use super::{Case, RUN, Scenario, Sent, Wanted, first_wrong};
use scenario::Coming;
use std::test::Fail;

/// A truncated reply: TC is set (RFC 1035, section 4.1.1).
const TRUNCATED: &[u8] = b"\x12\x34\x83\x80\0\x01\0\0\0\0\0\0\x07example\x03com\0\0\x01\0\x01";

/// The frame of the reply without its first byte (section 4.2.2).
const FRAME_REST: &[u8] =
    b"\x2d\x12\x34\x81\x80\0\x01\0\x01\0\0\0\0\x07example\x03com\0\0\x01\0\x01\xc0\x0c\0\x01\0\x01\0\0\x01\x2c\0\x04\xc0\0\x02\x01";

/// A truncated reply is asked again over TCP. The reply's frame comes in two pieces, of which the first has one byte.
pub const TRUNCATION: Case = Case {
    shows: "a truncated reply is asked over TCP",
    run: Scenario {
        comings: &[
            Coming::Datagram {
                from: 1,
                server: 0,
                bytes: TRUNCATED,
            },
            Coming::Piece {
                from: 2,
                link: 1,
                bytes: b"\0",
            },
            Coming::Piece {
                from: 3,
                link: 1,
                bytes: FRAME_REST,
            },
        ],
        ..RUN
    },
    wanted: Wanted {
        journal: "accept 1
start 1 on 0 over 0 at 0
arrive from 0 over 0
start 1 on 0 over 1 at 1
arrive from 0 over 1
take 1
destroy
",
        calls: "serve 0 of 3221226037 at 53
wait to 2000
connect 0 over 1
wait to 2001
wait to 2001
close 1
",
        sent: Sent::Last(29 + 31, b""),
        ..PRINTED
    },
};

/// The peer ends the link: the attempt fails, and the next one goes over a new link.
pub const ENDED_LINK: Case = Case {
    shows: "an ended link is opened again",
    run: Scenario {
        line: "--server 192.0.2.53 --no-edns --tcp --tries 2 example.com",
        comings: &[Coming::End { from: 1, link: 1 }],
        ..RUN
    },
    wanted: Wanted {
        status: 1,
        put: ";; example.com IN A\n;; status 12 ETIMEOUT\n",
        journal: "accept 1
start 1 on 0 over 1 at 0
fault of 0 over 1 at 1
start 1 on 0 over 2 at 1
expire 1 at 4001
take 1
destroy
",
        calls: "serve 0 of 3221226037 at 53
connect 0 over 1
wait to 2000
close 1
connect 0 over 2
wait to 4001
close 2
",
        called: 1,
        sent: Sent::Any,
    },
};

const LINKS: &[Case] = &[TRUNCATION, ENDED_LINK];

#[test]
fn links_are_opened(rt: HostRuntime) -> Result<(), Fail> {
    assert_eq!(rt; first_wrong(rt.alloc(), LINKS)?, "");
    Ok(())
}
