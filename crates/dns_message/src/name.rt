//! A domain name, and what one may ask of it.

ghost use Rattle.std.specs.Prelude.{◌≡◌, ◌+◌, ◌<◌, ◌≤◌, [], ◌∷◌, ◌++◌, length, IfOk, OnOk, OnErr};
ghost use Rattle.dns_message.specs.Name.{IsLabel, IsName, wire_length};
ghost use Rattle.dns_message.specs.Wire.{wire_bytes, labels_in, AreLabels, IsWire};

use item_list::{ItemList, NoMemory};
use std::alloc::Global;
use std::marker::Model;

/// The most bytes of a label (RFC 1035, section 2.3.4).
pub(crate) const LABEL_MOST: usize = 63;

/// The most bytes of a name on the wire (RFC 1035, section 2.3.4).
pub(crate) const NAME_MOST: usize = 255;

/// The bytes that a name takes room for with its first label: most names fit, and so are made by one allocation.
pub(crate) const NAME_ROOM: usize = 32;

/// A domain name: labels of 1 to 63 bytes, at most 255 bytes on the wire (RFC 1035, sections 2.3.4 and 3.1).
/// Contracts see it as the list of its labels.
#[derive(Debug, Drop)]
pub struct Name {
    /// The labels, each behind its length, without the root's byte.
    wire: Vec<u8>,
    /// How many labels there are.
    count: usize,
}

impl Model for Name {
    ghost use Rattle.std.specs.Prelude.{List, ℕ};
    ghost use Rattle.dns_message.specs.Wire.{IsWire, labels_in};

    ghost Value = { List (List ℕ) };

    ghost view = { λ name. labels_in name.wire.items };

    ghost invariant = { λ name. IsWire name.wire.items name.count };
}

/// A list of names.
pub type NameList = ItemList<Name>;

/// A name as a text gave it, and whether the text ended it with a dot.
#[derive(Debug, Drop)]
pub struct NameText {
    pub name: Name,
    pub absolute: bool,
}

impl Name {
    /// The root, which has no label (RFC 1035, section 3.1). It takes no memory.
    pub fn root(alloc: Global) -> Name
        ensures { result ≡ [] }
    {
        Name {
            wire: Vec::new(alloc),
            count: 0,
        }
    }

    /// How many labels there are.
    pub fn labels(&self) -> u64
        ensures { result ≡ length self.now }
    {
        self.count as u64
    }

    /// The labels, each behind its length, without the root's byte (RFC 1035, section 3.1).
    pub fn as_wire(&self) -> &[u8]
        ensures value { result.now ≡ wire_bytes self.now }
        ensures labels { labels_in result.now ≡ self.now }
        ensures name { IsName self.now }
    {
        self.wire.as_slice()
    }

    /// How many bytes the name takes on the wire, the root's byte among them.
    pub fn wire_len(&self) -> usize
        ensures value { result ≡ wire_length self.now }
        ensures short { result ≤ 255 }
        ensures name { IsName self.now }
    {
        self.wire.as_slice().len() + 1
    }

    /// An equal name.
    pub fn copy(&self, alloc: Global) -> Result<Name, NoMemory>
        ensures { IfOk result (λ copied. copied ≡ self.now) }
    {
        Ok(Name {
            wire: Vec::from_slice(alloc, self.wire.as_slice())?,
            count: self.count,
        })
    }

    /// The name of so many labels that stand one behind the other in bytes.
    pub(crate) fn of_wire(wire: Vec<u8>, count: usize) -> Name
        requires { IsWire wire.items count }
        ensures { result ≡ labels_in wire.items }
    {
        Name { wire, count }
    }

    /// Adds a label at the end.
    pub(crate) fn push_label(&mut self, label: &[u8]) -> Result<(), NoMemory>
        requires label { IsLabel label.now }
        requires room { wire_length self.old + length label.now + 1 ≤ 255 }
        ensures ok { OnOk result (self.new ≡ self.old ++ label.now ∷ []) }
        ensures err { OnErr result (self.new ≡ self.old) }
    {
        self.make_room(label.len())?;
        self.wire.reserve(label.len() + 1)?;
        self.wire.push_reserved(label.len() as u8);
        self.wire.extend_from_slice(label).unwrap();
        self.count += 1;
        Ok(())
    }

    /// Adds the labels of a domain at the end.
    pub(crate) fn append(&mut self, domain: &Name) -> Result<(), NoMemory>
        requires { wire_length self.old + wire_length domain.now ≤ 256 }
        ensures { OnOk result (self.new ≡ self.old ++ domain.now) }
    {
        self.append_wire(domain.wire.as_slice(), domain.count)
    }

    /// Adds so many labels at the end, which stand one behind the other in bytes.
    pub(crate) fn append_wire(&mut self, wire: &[u8], count: usize) -> Result<(), NoMemory>
        requires wire { IsWire wire.now count }
        requires room { wire_length self.old + length wire.now ≤ 255 }
        ensures { OnOk result (self.new ≡ self.old ++ labels_in wire.now) }
    {
        // A chain of pointers has many runs without a label.
        if count == 0 {
            return Ok(());
        }
        self.make_room(wire.len())?;
        self.wire.extend_from_slice(wire)?;
        self.count += count;
        Ok(())
    }

    /// Takes room before the first label, where there are bytes to come.
    fn make_room(&mut self, more: usize) -> Result<(), NoMemory>
        ensures { self.new ≡ self.old }
    {
        if more > 0 && self.wire.is_empty() {
            self.wire.reserve(NAME_ROOM)?;
        }
        Ok(())
    }
}

/// The first label of bytes that are labels, and the bytes behind it.
#[tactic(auto, using(crate::proofs::WireLemmas::first_within))]
pub(crate) fn first_label(wire: &[u8]) -> (&[u8], &[u8])
    requires some { 0 < length wire.now }
    requires spelled { AreLabels wire.now }
    ensures labels { labels_in wire.now ≡ result.0.now ∷ labels_in result.1.now }
    ensures spelled { AreLabels result.1.now }
    ensures shorter { length result.1.now < length wire.now }
{
    let len = wire[0] as usize;
    let rest = &wire[1..];
    (&rest[..len], &rest[len..])
}
