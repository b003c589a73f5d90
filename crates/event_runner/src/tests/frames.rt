//! Frames of messages, however their bytes are cut.

ghost use Rattle.std.specs.Prelude.{◌≤◌};

use super::closed_desk::ClosedDesk;
use crate::frames::frame_end;
use crate::link::HeldLink;
use item_list::NoMemory;
use std::alloc::Global;
use std::test::Fail;

/// The first frame ends behind its message; a length has its high byte first.
#[test]
fn a_frame_ends_behind_its_message(rt: HostRuntime) -> Result<(), Fail> {
    let bytes = [0, 3, 7, 8, 9, 0, 1].as_slice();
    for count in 0..5 {
        assert!(rt; frame_end(&bytes[..count]) == None);
    }
    for count in 5..8 {
        assert!(rt; frame_end(&bytes[..count]) == Some(5));
    }
    assert!(rt; frame_end(&[0, 0]) == Some(2));
    let mut long = [1, 2].to_vec(rt.alloc())?;
    long.resize(260, 5)?;
    assert!(rt; frame_end(long.as_slice()) == Some(260));
    long.truncate(259);
    assert!(rt; frame_end(long.as_slice()) == None);
    Ok(())
}

/// Feeds link 6 of server 2 these bytes, in pieces of so many.
fn fed(alloc: Global, bytes: &[u8], size: usize) -> Result<ClosedDesk, NoMemory>
    requires { 1 ≤ size }
{
    let mut desk = ClosedDesk::make(alloc)?;
    let mut link = HeldLink::new(alloc, 6, 2);
    for piece in bytes.chunks(size) {
        link.feed(&mut desk, piece)?;
    }
    Ok(desk)
}

/// Whether these three messages came there, and no other.
fn has_three(desk: &ClosedDesk) -> bool {
    desk.count() == 3
        && desk.arrived(1, 2, 6, &[7, 8, 9])
        && desk.arrived(2, 2, 6, &[])
        && desk.arrived(3, 2, 6, &[5, 6])
}

/// Three frames in pieces of each size, and behind them a byte of a fourth.
#[test]
fn messages_are_the_same_however_bytes_are_cut(rt: HostRuntime) -> Result<(), Fail> {
    let bytes = [0, 3, 7, 8, 9, 0, 0, 0, 2, 5, 6, 0];
    for size in 1..13 {
        assert!(rt;
            has_three(&fed(rt.alloc(), &bytes, size)?),
            "pieces of {size}"
        );
    }
    Ok(())
}
