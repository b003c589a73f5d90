//! Laws of messages on a link.

ghost use Rattle.std.specs.Prelude.{◌≡◌, ◌++◌, List, ℕ, []};
ghost use Rattle.std.specs.List.{flat_map};
ghost use Rattle.channel_model.specs.Frames.{framed, messages_in};

/// The law that messages that were framed one behind the other come back, and nothing else.
#[tactic(auto, using(crate::proofs::FrameLemmas::messages_back))]
pub fn framed_messages_come_back()
    ensures { (messages : List (List ℕ)) → messages_in [] (flat_map framed messages) ≡ messages }
{}
