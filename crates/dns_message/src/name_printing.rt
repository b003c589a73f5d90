//! Names printed as texts (RFC 1035, section 5.1).

ghost use Rattle.std.specs.Prelude.{◌≡◌, ℕ, List, ◌++◌, Some, true, IfOk, OnOk};
ghost use Rattle.dns_message.specs.Name.{IsName};
ghost use Rattle.dns_message.specs.NameText.{name_text};
ghost use Rattle.dns_message.specs.NamePrinting.{printed_byte, printed_label, text_of, AreBytes};

use crate::name::{Name, first_label};
use item_list::{Bytes, NoMemory};
use std::alloc::Global;

impl Name {
    /// The name as a text: each label with a dot behind it, and `.` for the root. Dots and backslashes of labels
    /// have a backslash before them, and bytes other than 0x21 to 0x7e are `\DDD`.
    pub fn to_text(&self, alloc: Global) -> Result<Bytes, NoMemory>
        ensures printed { IfOk result (λ text. text ≡ text_of self.now) }
    {
        let mut text = Vec::with_capacity(alloc, self.wire_len())?;
        if self.labels() == 0 {
            text.push(b'.')?;
        }
        let mut rest = self.as_wire();
        while !rest.is_empty() {
            let (label, behind) = first_label(rest);
            put_label(&mut text, label)?;
            rest = behind;
        }
        Ok(Bytes::from_vec(text))
    }
}

/// The law that a printed name reads as itself, and absolute.
#[tactic(auto, using(crate::proofs::PrintingLemmas::printed_back))]
pub fn printed_names_read_back()
    ensures { (labels : List (List ℕ)) → IsName labels → AreBytes labels
        → name_text (text_of labels) ≡ Some (labels, true) }
{}

/// Prints a label and a dot.
fn put_label(text: &mut Vec<u8>, label: &[u8]) -> Result<(), NoMemory>
    ensures { OnOk result (text.new.items ≡ text.old.items ++ printed_label label.now) }
{
    for byte in label {
        put_byte(text, *byte)?;
    }
    text.push(b'.')?;
    Ok(())
}

/// Prints a byte of a label.
fn put_byte(text: &mut Vec<u8>, byte: u8) -> Result<(), NoMemory>
    ensures { OnOk result (text.new.items ≡ text.old.items ++ printed_byte byte) }
{
    match byte {
        b'.' | b'\\' => text.extend_from_slice(&[b'\\', byte])?,
        0x21..=0x7e => text.push(byte)?,
        _ => {
            let digits = [
                b'\\',
                b'0' + byte / 100,
                b'0' + byte / 10 % 10,
                b'0' + byte % 10,
            ];
            text.extend_from_slice(&digits)?;
        }
    }
    Ok(())
}
