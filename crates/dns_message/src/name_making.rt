//! Names made of labels, and names made of names.

ghost use Rattle.std.specs.Prelude.{◌≡◌, ◌≢◌, Ok, Err, MatchResult, ◌+◌, ◌<◌, ◌≤◌, ◌⊎◌, ◌∷◌, ◌++◌, [], length, map, IfOk, IfErr, OnOk};
ghost use Rattle.dns_message.specs.Name.{IsName, wire_length, joined_name};
ghost use Rattle.dns_message.specs.Faults.{HasNameCause};
ghost use Rattle.dns_message.specs.NameFaults.{with_label, labels_read};

use crate::fault::NameFault;
use crate::name::{LABEL_MOST, NAME_MOST, Name};
use item_list::NoMemory;
use std::alloc::Global;

/// Adds a label that a text or a list of labels has at `end` and begins at `start`.
pub(crate) fn add_label(
    name: &mut Name,
    label: &[u8],
    start: u64,
    end: u64,
) -> Result<(), NameFault>
    requires { length label.now ≤ 63 }
    ensures ok { OnOk result (name.new ≡ name.old ++ label.now ∷ []) }
    ensures refused { IfErr result
        (HasNameCause ((length label.now ≡ 0) ⊎ (255 < wire_length name.old + length label.now + 1))) }
    ensures read { MatchResult result
        (λ _. with_label name.old start label.now end ≡ Ok (name.old ++ label.now ∷ []))
        (λ fault. fault ≢ NameFault.NoMemory → with_label name.old start label.now end ≡ Err fault) }
{
    if label.is_empty() {
        return Err(NameFault::EmptyLabel(end));
    }
    if name.wire_len() + label.len() + 1 > NAME_MOST {
        return Err(NameFault::LongName(start));
    }
    name.push_label(label)?;
    Ok(())
}

impl Name {
    /// The name of these labels. The faults have a label's index for their offset.
    pub fn from_labels(alloc: Global, labels: &[&[u8]]) -> Result<Name, NameFault>
        ensures made { IfOk result (λ name. name ≡ map (λ label. label.now) labels.now) }
        ensures refused { IfErr result (HasNameCause (¬ IsName (map (λ label. label.now) labels.now))) }
        ensures fault { IfErr result
            (λ fault. fault ≢ NameFault.NoMemory
            → labels_read (map (λ label. label.now) labels.now) ≡ Err fault) }
    {
        let mut name = Name::root(alloc);
        for (i, label) in labels.iter().enumerate() {
            if label.len() > LABEL_MOST {
                return Err(NameFault::LongLabel(i as u64));
            }
            add_label(&mut name, label, i as u64, i as u64)?;
        }
        Ok(name)
    }

    /// The labels of this name and then those of a domain, or none where they take more than 255 bytes.
    pub fn joined(&self, alloc: Global, domain: &Name) -> Result<Option<Name>, NoMemory>
        ensures { IfOk result (λ name. name ≡ joined_name self.now domain.now) }
    {
        if self.wire_len() + domain.wire_len() > NAME_MOST + 1 {
            return Ok(None);
        }
        let mut name = self.copy(alloc)?;
        name.append(domain)?;
        Ok(Some(name))
    }
}
