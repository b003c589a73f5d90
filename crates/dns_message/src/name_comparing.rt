//! Names that are the same, ignoring ASCII case (RFC 1035, section 2.3.3; RFC 4343).

ghost use Rattle.std.specs.Prelude.{◌≡◌, ◌↔◌, IsTrue};
ghost use Rattle.dns_message.specs.Name.{SameName, LastIs};

use crate::name::{Name, first_label};

impl Name {
    /// Whether the names are the same, ignoring ASCII case.
    #[tactic(auto, using(crate::proofs::WireLemmas::same_labels, crate::proofs::WireLemmas::same_bytes))]
    pub fn same(&self, other: &Name) -> bool
        ensures { IsTrue result ↔ SameName self.now other.now }
    {
        self.equal(other) || self.as_wire().eq_ignore_ascii_case(other.as_wire())
    }

    /// Whether the names are equal, byte for byte.
    #[tactic(auto, using(crate::proofs::WireLemmas::labels_back))]
    pub fn equal(&self, other: &Name) -> bool
        ensures { IsTrue result ↔ (self.now ≡ other.now) }
    {
        self.as_wire() == other.as_wire()
    }

    /// Whether the last label is this one, ignoring ASCII case. The root has none.
    #[tactic(auto, using(crate::proofs::WireLemmas::no_labels))]
    pub fn last_is(&self, label: &[u8]) -> bool
        ensures { IsTrue result ↔ LastIs self.now label.now }
    {
        let mut rest = self.as_wire();
        while !rest.is_empty() {
            let (found, behind) = first_label(rest);
            if behind.is_empty() {
                return found.eq_ignore_ascii_case(label);
            }
            rest = behind;
        }
        false
    }
}
