//! Laws on what is read and printed: the functions do nothing, and their contracts are the laws.

ghost use Rattle.std.specs.Prelude.{◌≡◌, ◌≢◌, ℕ, ◌<◌, ◌↔◌, List, ◌++◌, Some, None, flat_map};
ghost use Rattle.dns_message.specs.declared.message.Message.{Message};
ghost use Rattle.dns_message.specs.declared.message.Record.{Record};
ghost use Rattle.dns_message.specs.Name.{IsName};
ghost use Rattle.dns_message.specs.Numbers.{kind_opt};
ghost use Rattle.dns_message.specs.Spelling.{label_bytes, name_bytes};
ghost use Rattle.dns_message.specs.Validity.{IsWellFormed, IsValid};
ghost use Rattle.dns_rdata.specs.Parts.{name_in, strings_in};
ghost use Rattle.dns_rdata.specs.Rdata.{IsTyped, AreTyped};
ghost use Rattle.dns_rdata.specs.Table.{kind_text, class_text, kind_word, class_word};

/// A name on the wire is read as itself, and what is read as a name is so on the wire; strings likewise. A string is on
/// the wire as a label is: its length, and its bytes.
pub fn parts_are_as_spelled()
    ensures name { (labels : List (List ℕ)) (rest : List ℕ) → IsName labels
        → name_in (name_bytes labels ++ rest) ≡ Some (labels, rest) }
    ensures name_alone { (bytes : List ℕ) (labels : List (List ℕ)) (rest : List ℕ)
        → name_in bytes ≡ Some (labels, rest)
        → IsName labels × (bytes ≡ name_bytes labels ++ rest) }
    ensures strings { (strings : List (List ℕ))
        → strings_in (flat_map label_bytes strings) ≡ Some strings }
    ensures strings_alone { (bytes : List ℕ) (strings : List (List ℕ)) → strings_in bytes ≡ Some strings
        → bytes ≡ flat_map label_bytes strings }
{}

/// The word that is printed for a type or a class names it; OPT's alone names none.
pub fn printed_words_read_back()
    ensures kind { (kind : ℕ) → kind < 65536 → kind ≢ kind_opt
        → kind_word (kind_text kind) ≡ Some kind }
    ensures class { (class : ℕ) → class < 65536 → class_word (class_text class) ≡ Some class }
    ensures opt { kind_word (kind_text kind_opt) ≡ None }
{}

/// Rdata has a typed form exactly where its record is well formed. So each record of a valid message has one, and decoded
/// messages are valid.
pub fn well_formed_records_are_typed()
    ensures exact { (rr : Record) → IsTyped rr ↔ IsWellFormed rr }
    ensures message { (message : Message) → IsValid message → AreTyped message }
{}
