//! The table of types and classes that have a name: the one table for reading words and for printing.

ghost use Rattle.std.specs.Prelude.{◌≡◌, Some, None, MatchOption};
ghost use Rattle.dns_rdata.specs.Table.{kind_name, class_name};

use dns_message::numbers::{
    CLASS_ANY, CLASS_CH, CLASS_IN, KIND_A, KIND_AAAA, KIND_ANY, KIND_CNAME, KIND_HINFO, KIND_MX,
    KIND_NS, KIND_OPT, KIND_PTR, KIND_SOA, KIND_SRV, KIND_TXT,
};

/// The types whose name is also a word: all of the table but OPT, which is no type to ask for.
pub(crate) const KIND_WORDS: [u16; 11] = [
    KIND_A, KIND_NS, KIND_CNAME, KIND_SOA, KIND_PTR, KIND_HINFO, KIND_MX, KIND_TXT, KIND_AAAA,
    KIND_SRV, KIND_ANY,
];

/// The classes whose name is also a word: all of the table.
pub(crate) const CLASS_WORDS: [u16; 3] = [CLASS_IN, CLASS_CH, CLASS_ANY];

/// The name of a type, if it is in the table (RFC 1035, section 3.2.2 and 3.2.3; RFC 2782; RFC 3596; RFC 6891).
pub(crate) fn kind_name(kind: u16) -> Option<&'static [u8]>
    ensures { MatchOption result (kind_name kind ≡ None) (λ name. kind_name kind ≡ Some name.now) }
{
    match kind {
        KIND_A => Some(b"A"),
        KIND_NS => Some(b"NS"),
        KIND_CNAME => Some(b"CNAME"),
        KIND_SOA => Some(b"SOA"),
        KIND_PTR => Some(b"PTR"),
        KIND_HINFO => Some(b"HINFO"),
        KIND_MX => Some(b"MX"),
        KIND_TXT => Some(b"TXT"),
        KIND_AAAA => Some(b"AAAA"),
        KIND_SRV => Some(b"SRV"),
        KIND_OPT => Some(b"OPT"),
        KIND_ANY => Some(b"ANY"),
        _ => None,
    }
}

/// The name of a class, if it is in the table (RFC 1035, sections 3.2.4 and 3.2.5).
pub(crate) fn class_name(class: u16) -> Option<&'static [u8]>
    ensures { MatchOption result (class_name class ≡ None) (λ name. class_name class ≡ Some name.now) }
{
    match class {
        CLASS_IN => Some(b"IN"),
        CLASS_CH => Some(b"CH"),
        CLASS_ANY => Some(b"ANY"),
        _ => None,
    }
}
