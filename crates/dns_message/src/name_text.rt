//! Names as texts: labels with dots between them, and escapes (RFC 1035, section 5.1).

ghost use Rattle.std.specs.Prelude.{◌≡◌, ◌≢◌, ℕ, List, Err, MatchResult, ◌+◌, ◌<◌, ◌≤◌, ◌⊎◌, ◌∷◌, ◌++◌, [], Some, None, length, drop, map, option_map, IfOk, IfErr, IfSome, OnOk, IsTrue, MatchOption, MatchBool};
ghost use Rattle.dns_message.specs.Name.{wire_length};
ghost use Rattle.dns_message.specs.Faults.{HasNameCause};
ghost use Rattle.dns_message.specs.NameFaults.{bad, spot, spots_of, behind_label, name_on, name_read};
ghost use Rattle.dns_message.specs.NameText.{byte_of_digits, escaped, units_of, label_before, dot_before, HasNoLabel, name_text};

use crate::fault::NameFault;
use crate::name::{LABEL_MOST, NAME_MOST, Name, NameText};
use crate::name_making::add_label;
use arrayvec::ArrayVec;
use item_list::NoMemory;
use std::alloc::Global;

/// What a text is made of: dots that part labels, and bytes of labels.
#[derive(Clone, Copy)]
pub(crate) enum TextUnit {
    Dot,
    Byte(u8),
}

/// A label in a text, and where it ends: at a dot, or with the text.
#[derive(Drop)]
struct TextLabel {
    label: ArrayVec<u8, LABEL_MOST>,
    end: usize,
    dotted: bool,
}

/// The byte of three decimal digits, up to 255.
fn decimal(a: u8, b: u8, c: u8) -> Option<u8>
    ensures { result ≡ byte_of_digits a b c }
{
    if !a.is_ascii_digit() || !b.is_ascii_digit() || !c.is_ascii_digit() {
        return None;
    }
    let number = (a - b'0') as u16 * 100 + (b - b'0') as u16 * 10 + (c - b'0') as u16;
    if number > 255 {
        return None;
    }
    Some(number as u8)
}

/// The byte that stands behind a backslash, and how many bytes it takes there.
fn escape(text: &[u8]) -> Option<(u8, usize)>
    ensures read { MatchOption result (escaped text.now ≡ None)
        (λ found. escaped text.now ≡ Some (found.0, drop found.1 text.now)) }
    ensures within { IfSome result (λ found. found.1 ≤ length text.now) }
{
    match text {
        [] => None,
        [a, ..] if !a.is_ascii_digit() => Some((*a, 1)),
        [a, b, c, ..] => Some((decimal(*a, *b, *c)?, 3)),
        _ => None,
    }
}

/// The unit at an offset, and the offset behind it.
fn unit_at(text: &[u8], at: usize) -> Result<(TextUnit, usize), NameFault>
    requires { at < length text.now }
    ensures read { IfOk result
        (λ found. units_of (drop at text.now)
        ≡ option_map (λ units. found.0 ∷ units) (units_of (drop found.1 text.now))) }
    ensures within { IfOk result (λ found. (at < found.1) × (found.1 ≤ length text.now)) }
    ensures dot { IfOk result (λ found. found.0 ≡ TextUnit.Dot → found.1 ≡ at + 1) }
    ensures refused { IfErr result (λ fault. units_of (drop at text.now) ≡ None) }
    ensures placed { MatchResult result
        (λ found. spots_of at (drop at text.now) ≡ spot at found.0 ∷ spots_of found.1 (drop found.1 text.now))
        (λ fault. (fault ≡ NameFault.BadEscape at) × (spots_of at (drop at text.now) ≡ bad at ∷ [])) }
{
    let byte = text[at];
    if byte == b'.' {
        return Ok((TextUnit::Dot, at + 1));
    }
    if byte != b'\\' {
        return Ok((TextUnit::Byte(byte), at + 1));
    }
    match escape(&text[at + 1..]) {
        Some((byte, len)) => Ok((TextUnit::Byte(byte), at + 1 + len)),
        None => Err(NameFault::BadEscape(at as u64)),
    }
}

/// The label at an offset, up to a dot or the end of the text.
fn label_at(text: &[u8], start: usize) -> Result<TextLabel, NameFault>
    requires { start ≤ length text.now }
    ensures read { IfOk result (λ found. MatchBool found.dotted
        (units_of (drop start text.now)
        ≡ label_before found.label.items (dot_before (units_of (drop (found.end + 1) text.now))))
        (units_of (drop start text.now) ≡ label_before found.label.items (Some []))) }
    ensures few { IfOk result (λ found. length found.label.items ≤ 63) }
    ensures end { IfOk result (λ found. (start ≤ found.end) × (found.end ≤ length text.now)) }
    ensures dot { IfOk result (λ found. IsTrue found.dotted → found.end < length text.now) }
    ensures refused { IfErr result (HasNameCause (HasNoLabel (units_of (drop start text.now)))) }
    ensures placed { MatchResult result
        (λ found. (front : List (List ℕ))
        → name_on (length text.now) front start [] (spots_of start (drop start text.now))
        ≡ name_on (length text.now) front start found.label.items
        (behind_label text.now found.end found.dotted))
        (λ fault. fault ≢ NameFault.NoMemory → (front : List (List ℕ))
        → name_on (length text.now) front start [] (spots_of start (drop start text.now)) ≡ Err fault) }
    ensures last { IfOk result (λ found. MatchBool found.dotted (Unit {0}) (found.end ≡ length text.now)) }
{
    let mut label = ArrayVec::new();
    let mut at = start;
    while at < text.len() {
        let (unit, next) = unit_at(text, at)?;
        match unit {
            TextUnit::Dot => {
                return Ok(TextLabel {
                    label,
                    end: at,
                    dotted: true,
                });
            }
            TextUnit::Byte(byte) => {
                if label.len() == LABEL_MOST {
                    return Err(NameFault::LongLabel(at as u64));
                }
                label.push(byte);
            }
        }
        at = next;
    }
    Ok(TextLabel {
        label,
        end: at,
        dotted: false,
    })
}

/// The name of a text without escapes, read in one pass: a label's bytes stand one place further in the name than in the
/// text, and its length where the dot before it stood. Nothing where the text has an escape, is a dot alone, or is no
/// name.
fn plain_name(alloc: Global, text: &[u8]) -> Result<Option<NameText>, NoMemory>
    ensures { IfOk result (λ found. IfSome found
        (λ read. name_text text.now ≡ Some (read.name, read.absolute))) }
{
    if text.len() >= NAME_MOST || text == b".".as_slice() {
        return Ok(None);
    }
    let mut wire = Vec::with_capacity(alloc, text.len() + 1)?;
    // The place of a label's length, which is known where the label ends.
    wire.push_reserved(0);
    let mut count = 0;
    let mut start = 0;
    let mut at = 0;
    while at < text.len() {
        let byte = text[at];
        if byte == b'\\' {
            return Ok(None);
        }
        if byte == b'.' {
            let len = at - start;
            if len == 0 || len > LABEL_MOST {
                return Ok(None);
            }
            wire[start] = len as u8;
            count += 1;
            start = at + 1;
            if start == text.len() {
                return Ok(Some(NameText {
                    name: Name::of_wire(wire, count),
                    absolute: true,
                }));
            }
            wire.push_reserved(0);
        } else {
            wire.push_reserved(byte);
        }
        at += 1;
    }
    let len = at - start;
    if len == 0 || len > LABEL_MOST || at + 1 >= NAME_MOST {
        return Ok(None);
    }
    wire[start] = len as u8;
    Ok(Some(NameText {
        name: Name::of_wire(wire, count + 1),
        absolute: false,
    }))
}

impl Name {
    /// The name that a text has: labels with dots between them, and behind the last of an absolute name.
    /// `.` alone is the root. `\DDD` is the byte of that number, and `\` before any other byte is that byte.
    pub fn from_text(alloc: Global, text: &[u8]) -> Result<NameText, NameFault>
        ensures read { IfOk result (λ found. name_text text.now ≡ Some (found.name, found.absolute)) }
        ensures refused { IfErr result (HasNameCause (name_text text.now ≡ None)) }
        ensures fault { IfErr result (λ fault. fault ≢ NameFault.NoMemory → name_read text.now ≡ Err fault) }
    {
        if let Some(read) = plain_name(alloc, text)? {
            return Ok(read);
        }
        let mut name = Name::root(alloc);
        if text == b".".as_slice() {
            return Ok(NameText {
                name,
                absolute: true,
            });
        }
        let mut start = 0;
        loop {
            let found = label_at(text, start)?;
            let (end, dotted) = (found.end, found.dotted);
            add_label(&mut name, found.label.as_slice(), start as u64, end as u64)?;
            if !dotted || end + 1 == text.len() {
                return Ok(NameText {
                    name,
                    absolute: dotted,
                });
            }
            start = end + 1;
        }
    }
}
