//! What a message says that asks one question (RFC 1035, section 4.1).

ghost use Rattle.std.specs.Prelude.{◌≡◌, ◌≤◌, length};
ghost use Rattle.dns_message.specs.Reading.{message_read};
ghost use Rattle.message_walk.specs.Outlines.{outline_behind, outline_of, outlined, sections_of};

use crate::fields::u16_in;
use crate::questions::question_is;
use crate::sections::{OptSeen, section_at};
use dns_message::Question;

/// The length of a header.
const HEADER_LEN: usize = 12;

/// What a message says that asks a certain question.
#[derive(Clone, Copy, Debug, PartialEq, Eq)]
pub struct Outline {
    /// One of its answers is wanted.
    pub answered: bool,
    /// The upper eight bits of the response code, where it has an OPT record.
    pub extended: Option<u8>,
}

/// What the bytes say where they are a message that asks this question alone, and its OPT record, if it has one, can be
/// read. The question's name agrees byte for byte where `exact` is set, else ignoring ASCII case; answers of the kind
/// `wanted` in the Internet class are wanted, or else any.
pub fn read_outline(
    bytes: &[u8],
    asked: &Question,
    exact: bool,
    wanted: Option<u16>,
) -> Option<Outline>
    ensures { result ≡ outline_of exact asked.now wanted (message_read bytes.now) }
{
    if bytes.len() < HEADER_LEN {
        return None;
    }
    if u16_in(bytes, 4) != 1 {
        return None;
    }
    let Ok((asks, at)) = question_is(bytes, HEADER_LEN, asked, exact) else {
        return None;
    };
    if !asks {
        return None;
    }
    outline_behind(bytes, at, wanted)
}

/// What the bytes say from the answers at an offset on.
fn outline_behind(bytes: &[u8], at: usize, wanted: Option<u16>) -> Option<Outline>
    requires header { 12 ≤ length bytes.now }
    requires within { at ≤ length bytes.now }
    ensures { result ≡ outline_behind wanted (sections_of bytes.now at) }
{
    let Ok((answers, at)) = section_at(bytes, at, u16_in(bytes, 6), wanted) else {
        return None;
    };
    let Ok((_, at)) = section_at(bytes, at, u16_in(bytes, 8), None) else {
        return None;
    };
    let Ok((additionals, at)) = section_at(bytes, at, u16_in(bytes, 10), None) else {
        return None;
    };
    if at < bytes.len() {
        return None;
    }
    outlined(answers.wanted, additionals.opt)
}

/// The outline, where the OPT record can be read.
fn outlined(answered: bool, opt: OptSeen) -> Option<Outline>
    ensures { result ≡ outlined answered opt }
{
    match opt {
        OptSeen::Absent => Some(Outline {
            answered,
            extended: None,
        }),
        OptSeen::Extends(code) => Some(Outline {
            answered,
            extended: Some(code),
        }),
        OptSeen::Unread => None,
    }
}
