//! Messages, questions and records, and which messages can be written.

ghost use Rattle.std.specs.Prelude.{◌≡◌};
ghost use Rattle.dns_message.specs.Validity.{well_formed, are_writable, is_valid};

use crate::held_rdata::is_shaped;
use crate::name::Name;
use item_list::{Bytes, ItemList};

/// A question: a name, and the kind and class that are asked for (RFC 1035, section 4.1.2).
#[derive(Debug, Drop)]
pub struct Question {
    pub name: Name,
    /// The question's type.
    pub kind: u16,
    pub class: u16,
}

/// A resource record (RFC 1035, section 4.1.3). Names inside its rdata are held expanded, without pointers.
#[derive(Debug, Drop)]
pub struct Record {
    pub name: Name,
    /// The record's type.
    pub kind: u16,
    pub class: u16,
    /// How long the record may be kept, in seconds.
    pub ttl: u32,
    pub rdata: Bytes,
}

/// A list of questions.
pub type QuestionList = ItemList<Question>;

/// A list of records.
pub type RecordList = ItemList<Record>;

/// A message (RFC 1035, section 4.1): identifier, flags and four sections.
#[derive(Debug, Drop)]
pub struct Message {
    pub id: u16,
    /// QR 0x8000, OPCODE 0x7800, AA 0x0400, TC 0x0200, RD 0x0100, RA 0x0080, Z 0x0070, RCODE 0x000f.
    pub flags: u16,
    pub questions: QuestionList,
    pub answers: RecordList,
    pub authorities: RecordList,
    pub additionals: RecordList,
}

impl Record {
    /// Whether the rdata has the shape of the record's kind and class, with its names expanded
    /// (RFC 1035, sections 3.3 and 3.4; RFC 2782; RFC 3596).
    pub fn is_well_formed(&self) -> bool
        ensures { result ≡ well_formed self.now }
    {
        is_shaped(self.kind, self.class, self.rdata.as_slice())
    }
}

impl Message {
    /// Whether the message can be written, but for its length: each section has at most 65,535 items,
    /// and each rdata at most 65,535 bytes and the shape of its kind and class, with its names expanded.
    pub fn valid(&self) -> bool
        ensures { result ≡ is_valid self.now }
    {
        self.questions.len() <= SECTION_MOST
            && are_valid(self.answers.as_slice())
            && are_valid(self.authorities.as_slice())
            && are_valid(self.additionals.as_slice())
    }
}

/// The most items of a section, and the most bytes of rdata: what 16 bits can count.
const SECTION_MOST: usize = 65_535;

/// Whether the records can be written as one section.
fn are_valid(records: &[Record]) -> bool
    ensures { result ≡ are_writable records.now }
{
    if records.len() > SECTION_MOST {
        return false;
    }
    for item in records {
        if item.rdata.len() > SECTION_MOST || !item.is_well_formed() {
            return false;
        }
    }
    true
}
