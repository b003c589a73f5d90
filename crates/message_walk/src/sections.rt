//! What the records of a section say (RFC 1035, section 4.1.3; RFC 6891, section 6.1.1).

ghost use Rattle.std.specs.Prelude.{◌≡◌, ◌≤◌, ◌≢◌, length, IfErr, IfOk};
ghost use Rattle.dns_message.specs.Reading.{items_of, record_of};
ghost use Rattle.message_walk.specs.Sections.{both, section_of, together};
ghost use Rattle.message_walk.specs.Telling.{Tells};

use crate::records::record_told;
use dns_message::MessageFault;

/// What the OPT records of a section say.
#[derive(Clone, Copy, Debug, PartialEq, Eq)]
pub enum OptSeen {
    /// There is none.
    Absent,
    /// There is one, which has these upper eight bits of the response code.
    Extends(u8),
    /// There are two or more, or the rdata of the one isn't options.
    Unread,
}

/// What the records of a section say.
#[derive(Clone, Copy, Debug, PartialEq, Eq)]
pub struct Section {
    /// One of them is wanted.
    pub wanted: bool,
    pub opt: OptSeen,
}

/// What so many records from an offset on say, where records of this kind in the Internet class are wanted, or else any;
/// and the offset behind them.
pub fn section_at(
    bytes: &[u8],
    at: usize,
    count: u16,
    wanted: Option<u16>,
) -> Result<(Section, usize), MessageFault>
    requires { at ≤ length bytes.now }
    ensures read { Tells (section_of wanted) result (items_of (record_of bytes.now) count at) }
    ensures memory { IfErr result (λ fault. fault ≢ MessageFault.NoMemory) }
    ensures end { IfOk result (λ found. found.1 ≤ length bytes.now) }
{
    let mut section = Section {
        wanted: false,
        opt: OptSeen::Absent,
    };
    let mut next = at;
    for _ in 0..count {
        let (one, after) = record_told(bytes, next, wanted)?;
        section = together(section, one);
        next = after;
    }
    Ok((section, next))
}

/// What the records of two sections say, one behind the other.
fn together(section: Section, other: Section) -> Section
    ensures { result ≡ together section other }
{
    Section {
        wanted: section.wanted || other.wanted,
        opt: both(section.opt, other.opt),
    }
}

/// What the OPT records of both say.
fn both(opt: OptSeen, other: OptSeen) -> OptSeen
    ensures { result ≡ both opt other }
{
    match (opt, other) {
        (OptSeen::Absent, other) => other,
        (opt, OptSeen::Absent) => opt,
        _ => OptSeen::Unread,
    }
}
