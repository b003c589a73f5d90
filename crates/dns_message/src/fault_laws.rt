//! Laws of the first fault of a text and of labels (RFC 1035, sections 2.3.4 and 5.1).

ghost use Rattle.std.specs.Prelude.{◌≡◌, ℕ, List, ◌↔◌, Err};
ghost use Rattle.dns_message.specs.NameFaults.{name_read, labels_read};
ghost use Rattle.dns_message.specs.TextFaults.{FirstTextFault, FirstLabelFault};
ghost use Rattle.dns_message.specs.declared.fault.NameFault.{NameFault};

/// The law that the reading of a text, and of labels, ends exactly at the first fault.
pub fn names_end_at_the_first_fault()
    ensures text { (text : List ℕ) → (fault : NameFault)
        → (name_read text ≡ Err fault) ↔ FirstTextFault text fault }
    ensures labels { (labels : List (List ℕ)) → (fault : NameFault)
        → (labels_read labels ≡ Err fault) ↔ FirstLabelFault labels fault }
{}
