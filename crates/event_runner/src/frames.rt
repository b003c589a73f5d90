//! Frames of messages on a link: each stands behind two bytes with its length (RFC 1035, section 4.2.2).

ghost use Rattle.std.specs.Prelude.{MatchOption};
ghost use Rattle.event_runner.specs.Frames.{IsUncut, EndsAt};

/// The bytes of a frame before its message.
pub const HEAD: usize = 2;

/// Where the frame ends with which the bytes begin, if it is whole.
pub fn frame_end(bytes: &[u8]) -> Option<usize>
    ensures { MatchOption result (IsUncut bytes.now) (EndsAt bytes.now) }
{
    if bytes.len() < HEAD {
        return None;
    }
    let end = HEAD + 256 * usize::from(bytes[0]) + usize::from(bytes[1]);
    if end <= bytes.len() { Some(end) } else { None }
}
