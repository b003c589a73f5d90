//! Names with their letters in mixed case (draft-vixie-dnsext-dns0x20).

ghost use Rattle.std.specs.Prelude.{◌≡◌, ℕ, List, IfOk};
ghost use Rattle.dns_message.specs.Name.{IsName, SameName, wire_length};
ghost use Rattle.dns_message.specs.Mixing.{in_case, mixed_label, mixed_name};

use crate::name::Name;
use item_list::NoMemory;
use std::alloc::Global;

impl Name {
    /// The name with its letters in mixed case: letter `k`, counted from 0, in upper case where bit `k % 16` of `mix`
    /// is set, and in lower case elsewhere.
    pub fn mixed(&self, alloc: Global, mix: u16) -> Result<Name, NoMemory>
        ensures { IfOk result (λ name. name ≡ mixed_name mix self.now) }
    {
        let wire = mixed_bytes(alloc, self.as_wire(), mix)?;
        Ok(Name::of_wire(wire, self.labels() as usize))
    }
}

/// The bytes with their letters in mixed case. A label's length is no letter, so labels are mixed as they stand.
fn mixed_bytes(alloc: Global, bytes: &[u8], mix: u16) -> Result<Vec<u8>, NoMemory>
    ensures { IfOk result (λ mixed. mixed.items ≡ mixed_label mix 0 bytes.now) }
{
    let mut mixed = Vec::with_capacity(alloc, bytes.len())?;
    let mut letters = 0_usize;
    for byte in bytes {
        if byte.is_ascii_alphabetic() {
            mixed.push_reserved(letter_in_case(*byte, (mix >> (letters % 16)) % 2 == 1));
            letters += 1;
        } else {
            mixed.push_reserved(*byte);
        }
    }
    Ok(mixed)
}

/// The letter in upper case, or else in lower case.
fn letter_in_case(letter: u8, upper: bool) -> u8
    ensures { result ≡ in_case upper letter }
{
    if upper {
        letter.to_ascii_uppercase()
    } else {
        letter.to_ascii_lowercase()
    }
}

/// The law that a name in mixed case is a name, of the same length, and the same name as before.
#[tactic(auto, using(crate::proofs::MixingLemmas::mixed_is_name, crate::proofs::MixingLemmas::mixed_is_same, crate::proofs::MixingLemmas::mixed_is_long))]
pub fn mixed_names_are_the_same()
    ensures name { (mix : ℕ) → (labels : List (List ℕ)) → IsName labels
        → IsName (mixed_name mix labels) }
    ensures same { (mix : ℕ) → (labels : List (List ℕ)) → SameName (mixed_name mix labels) labels }
    ensures long { (mix : ℕ) → (labels : List (List ℕ))
        → wire_length (mixed_name mix labels) ≡ wire_length labels }
{}
