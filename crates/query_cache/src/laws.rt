//! Laws of the definitions that the contracts cite. They do nothing when they run.

ghost use Rattle.std.specs.Prelude.{◌≡◌, ◌↔◌, ℕ, ◌<◌, List, Some, true, is_some, slice_get};
ghost use Rattle.dns_message.specs.declared.message.Question.{Question};
ghost use Rattle.chan_types.specs.declared.answer.Answer.{Answer};
ghost use Rattle.query_cache.specs.Cache.{Cache, entry_of, given};
ghost use Rattle.query_cache.specs.Lifetime.{lifetime, LivesFor};
ghost use Rattle.query_cache.specs.Recency.{CacheCall, LeadTo, Stands, IsGiven, used_since, different};
ghost use Rattle.query_cache.specs.declared.kept.Kept.{Kept};

/// The law that after any calls from a new cache the questions with an entry are those that stand, each entry behind as
/// many others as were used since; and that a look gives an answer exactly where its question stands and its last kept
/// answer hasn't ended, and gives that answer.
pub fn kept_questions_stand()
    ensures questions { (room : ℕ) → (most : ℕ) → (past : List CacheCall) → (cache : Cache)
        → LeadTo room most past cache → (question : Question)
        → (is_some (entry_of question cache.entries) ≡ true) ↔ Stands room most past question }
    ensures order { (room : ℕ) → (most : ℕ) → (past : List CacheCall) → (cache : Cache)
        → LeadTo room most past cache → (i : ℕ) → (entry : Kept)
        → slice_get cache.entries i ≡ Some entry → different (used_since entry.asked past) ≡ i }
    ensures answers { (room : ℕ) → (most : ℕ) → (past : List CacheCall) → (cache : Cache)
        → LeadTo room most past cache → (question : Question) → (at : ℕ) → (answer : Answer)
        → (given question at cache ≡ Some answer) ↔ IsGiven room most past question at answer }
{}

/// The law that an answer may be kept for as many seconds as `LivesFor` says, which computes nothing.
pub fn answers_live_for_the_least_ttl()
    ensures { (answer : Answer) → (seconds : ℕ) → 0 < seconds
        → (lifetime answer ≡ seconds) ↔ LivesFor answer seconds }
{}
