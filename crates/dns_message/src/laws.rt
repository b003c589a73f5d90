//! Laws of the definitions that the contracts cite. They do nothing when they run.

ghost use Rattle.std.specs.Prelude.{◌≡◌, ℕ, List, if◌then◌else◌, Some, None};
ghost use Rattle.std.specs.Bool.{Decides};
ghost use Rattle.std.specs.Result.{result_ok};
ghost use Rattle.dns_message.specs.Name.{SameName, same_name, LastIs, last_is};
ghost use Rattle.dns_message.specs.NameText.{name_text, is_name};
ghost use Rattle.dns_message.specs.NameFaults.{name_read, labels_read};
ghost use Rattle.dns_message.specs.Question.{SameQuestion, same_question};
ghost use Rattle.dns_message.specs.Validity.{IsWellFormed, well_formed, IsValid, is_valid};
ghost use Rattle.dns_message.specs.declared.message.Question.{Question};
ghost use Rattle.dns_message.specs.declared.message.Record.{Record};
ghost use Rattle.dns_message.specs.declared.message.Message.{Message};

/// The law that each test is true exactly where what it tests holds.
#[tactic(auto, using(crate::proofs::TestLemmas::same_name_says, crate::proofs::TestLemmas::last_is_says, crate::proofs::TestLemmas::same_question_says, crate::proofs::TestLemmas::well_formed_says, crate::proofs::TestLemmas::is_valid_says))]
pub fn tests_decide()
    ensures name { (labels : List (List ℕ)) → (others : List (List ℕ))
        → Decides (same_name labels others) (SameName labels others) }
    ensures last { (label : List ℕ) → (labels : List (List ℕ))
        → Decides (last_is label labels) (LastIs labels label) }
    ensures question { (question : Question) → (other : Question)
        → Decides (same_question question other) (SameQuestion question other) }
    ensures shape { (found : Record) → Decides (well_formed found) (IsWellFormed found) }
    ensures valid { (message : Message) → Decides (is_valid message) (IsValid message) }
{}

/// The law that a text is a name exactly where its reading finds no fault, and that name; and so with labels.
#[tactic(auto, using(crate::proofs::AgreementLemmas::readings_agree, crate::proofs::AgreementLemmas::labels_readings_agree))]
pub fn readings_agree()
    ensures text { (text : List ℕ) → result_ok (name_read text) ≡ name_text text }
    ensures labels { (labels : List (List ℕ))
        → result_ok (labels_read labels) ≡ (if is_name labels then Some labels else None) }
{}
