//! Laws of the definitions that the contracts cite. They do nothing when they run.

ghost use Rattle.std.specs.Prelude.{◌≡◌, ◌≢◌, ◌≤◌, ◌⊎◌, ◌↔◌, [], ℕ};
ghost use Rattle.dns_message.specs.Message.{IsQuestion};
ghost use Rattle.dns_message.specs.Question.{SameQuestion};
ghost use Rattle.dns_message.specs.declared.message.Question.{Question};
ghost use Rattle.net_world.specs.declared.answers.Waited.{Waited};
ghost use Rattle.net_world.specs.declared.answers.Waited.TheVariants.{Woken};
ghost use Rattle.net_world.specs.declared.log.WorldCall.TheVariants.{Wait};
ghost use Rattle.test_nameserver.specs.Peer.{PeerState, question_key};
ghost use Rattle.test_nameserver.specs.PeerLog.{Makes};
ghost use Rattle.test_nameserver.specs.PeerOrigin.{origin_of};

/// The law that two questions have one key exactly where they are the same, so that a network numbers distinct ones.
#[tactic(auto, using(crate::proofs::QuestionLemmas::keys_tell))]
pub fn keys_tell_questions_apart()
    ensures { (question : Question) → (other : Question) → IsQuestion question → IsQuestion other
        → (question_key question ≡ question_key other) ↔ SameQuestion question other }
{}

/// The law that networks in memory of one origin have one zone and one seed.
#[tactic(auto, using(crate::proofs::LogLemmas::origin_tells))]
pub fn an_origin_tells_zone_and_seed()
    ensures { (one : PeerState) → (other : PeerState) → origin_of one ≡ origin_of other
        → (one.zone ≡ other.zone) × (one.seed ≡ other.seed) }
{}

/// The law that a wait of such a network is woken: behind it something can be received, or its clock has come to the moment.
#[tactic(auto, using(crate::proofs::WakingLemmas::waits_well))]
pub fn a_wait_is_woken_well()
    ensures { (until : ℕ) → (old : PeerState) → (new : PeerState) → (waited : Waited)
        → Makes (Wait until waited) old new → (waited ≡ Woken) × ((new.items ≢ []) ⊎ (until ≤ new.clock)) }
{}
