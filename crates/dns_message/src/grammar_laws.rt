//! Laws of the grammar of messages (RFC 1035, section 4.1).

ghost use Rattle.std.specs.Prelude.{◌≡◌, ℕ, List, ◌↔◌, Some, Ok, Err};
ghost use Rattle.dns_message.specs.declared.message.Message.{Message};
ghost use Rattle.dns_message.specs.Grammar.{Spells, SpellsNothing, message_of};
ghost use Rattle.dns_message.specs.Message.{IsMessage};
ghost use Rattle.dns_message.specs.MessageFaults.{FirstFault};
ghost use Rattle.dns_message.specs.declared.fault.MessageFault.{MessageFault};
ghost use Rattle.dns_message.specs.Reading.{message_read};
ghost use Rattle.dns_message.specs.Spelling.{message_bytes};
ghost use Rattle.dns_message.specs.Validity.{IsValid};

/// The law that reading gives exactly the message that the bytes spell.
pub fn reading_gives_what_is_spelled()
    ensures { (bytes : List ℕ) (message : Message) → (message_of bytes ≡ Some message) ↔ Spells bytes message }
{}

/// The law that what is written of a valid message is spelled so, and reads as that message.
pub fn written_messages_read_back()
    ensures spelled { (message : Message) → IsMessage message → IsValid message
        → Spells (message_bytes message) message }
    ensures read { (message : Message) → IsMessage message → IsValid message
        → message_read (message_bytes message) ≡ Ok message }
{}

/// The law that reading ends exactly at the first fault, and that just the bytes that spell no message have one.
pub fn reading_ends_at_the_first_fault()
    ensures fault { (bytes : List ℕ) (fault : MessageFault)
        → (message_read bytes ≡ Err fault) ↔ FirstFault bytes fault }
    ensures some { (bytes : List ℕ) → SpellsNothing bytes ↔ ((fault : MessageFault) × FirstFault bytes fault) }
{}
