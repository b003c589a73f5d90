//! Laws of the definitions. Each function does nothing, and its contract is the law.

ghost use mathlib.Core.List.{IsPrefix};
ghost use Rattle.std.specs.Prelude.{◌≡◌, ◌≢◌, ℕ, ◌+◌, ◌^◌, ◌≤◌, ◌++◌, ◌∷◌, [], List, Some, None, Decides, length, if◌then◌else◌, is_some, IsTrue, IsFalse, IfSome, option_and_then};
ghost use Rattle.std.specs.List.{AllByRecursion, range_with_len};
ghost use Rattle.chan_types.specs.declared.answer.Answer.{Answer};
ghost use Rattle.chan_types.specs.declared.journal.Entry.{Entry};
ghost use Rattle.chan_types.specs.declared.journal.What.TheVariants.{Cancel, Destroy};
ghost use Rattle.chan_types.specs.declared.status.Status.TheVariants.{Cancelled, Destruction};
ghost use Rattle.channel_model.specs.Completion.{requests, completions, completed_at, occurrences, fate, pending, ready, taken, waiting, is_idle, is_open};
ghost use Rattle.channel_model.specs.Flight.{Attempt, begun_by, flight, has_leg, in_flight};
ghost use Rattle.channel_model.specs.InFlight.{IsInFlight};
ghost use Rattle.channel_model.specs.Journal.{past_of, accepted};
ghost use Rattle.channel_model.specs.Lawful.{IsLawful, IsAllowed, first};
ghost use Rattle.channel_model.specs.LegEnd.{LegEnd, leg_end};
ghost use Rattle.channel_model.specs.Legs.{Leg};
ghost use Rattle.channel_model.specs.Merge.{bare, sorted};
ghost use Rattle.channel_model.specs.Past.{closings, forced_by, forced_server};
ghost use Rattle.channel_model.specs.Servers.{KeysDiffer, has_key, opening_servers, servers_at, servers_set_by};
ghost use Rattle.dest_sorting.specs.Order.{IsSortedBy};
ghost use Rattle.net_addr.specs.declared.addr.Addr.{Addr};
ghost use Rattle.channel_model.specs.Identifiers.{AllUsed};
ghost use Rattle.channel_model.specs.Setting.{Setting};
ghost use Rattle.channel_model.specs.Tests.{is_lawful};

/// A lawful journal's prefixes are lawful, and so is a lawful journal with one more entry that is allowed behind it.
pub fn lawful_goes_on()
    ensures before { (setting : Setting) (journal longer : List Entry) → IsPrefix journal longer
        → IsLawful setting longer → IsLawful setting journal }
    ensures more { (setting : Setting) (old new : List Entry) (entry : Entry) → IsLawful setting old
        → new ≡ old ++ entry ∷ []
        → IsAllowed setting (past_of old) entry.what → IsLawful setting new }
{}

/// The test of a journal decides whether it is lawful.
#[tactic(auto, using(crate::proofs::TestLemmas::lawful_decided))]
pub fn lawful_is_decided()
    ensures { (setting : Setting) (journal : List Entry)
        → Decides (is_lawful setting journal) (IsLawful setting journal) }
{}

/// A request that has completed keeps its answer in every longer journal.
#[tactic(auto, using(crate::proofs::JournalLemmas::fate_stays))]
pub fn completed_stays()
    ensures { (setting : Setting) (request : ℕ) (answer : Answer) (journal longer : List Entry)
        → IsPrefix journal longer
        → fate setting request (past_of journal) ≡ Some answer
        → fate setting request (past_of longer) ≡ Some answer }
{}

/// In a lawful journal the accepted requests have the numbers from 1 on.
pub fn requests_are_numbered()
    ensures { (setting : Setting) (journal : List Entry) → IsLawful setting journal
        → requests (past_of journal) ≡ range_with_len 1 (length (accepted (past_of journal))) }
{}

/// In a lawful journal a request stands among the completed ones once where it has an answer, and else never. It is taken
/// at most once, and the ready ones are those that have completed and weren't taken, in the order of their completion.
pub fn completes_at_most_once()
    ensures once { (setting : Setting) (request : ℕ) (journal : List Entry) → IsLawful setting journal
        → occurrences request (completions setting (past_of journal))
        ≡ (if is_some (fate setting request (past_of journal)) then 1 else 0) }
    ensures order { (setting : Setting) (journal : List Entry) → IsLawful setting journal
        → completions setting (past_of journal) ≡ taken (past_of journal) ++ ready setting (past_of journal) }
    ensures taken { (setting : Setting) (request : ℕ) (journal : List Entry) → IsLawful setting journal
        → occurrences request (taken (past_of journal)) + occurrences request
        (ready setting (past_of journal)) ≤ 1 }
{}

/// A cancel completes exactly the requests that were pending at its entry, and a destroy too.
#[tactic(auto, using(crate::proofs::CompletionLemmas::cancel_completes, crate::proofs::CompletionLemmas::cancelled, crate::proofs::CompletionLemmas::destroy_completes, crate::proofs::CompletionLemmas::destroyed))]
pub fn cancel_completes_what_is_pending()
    ensures cancel { (setting : Setting) (journal : List Entry)
        → completed_at setting Cancel (past_of journal) ≡ pending setting (past_of journal) }
    ensures cancelled { (setting : Setting) (journal : List Entry)
        → AllByRecursion (λ request. fate setting request (Cancel ∷ past_of journal)
        ≡ Some (bare request Cancelled [])) (pending setting (past_of journal)) }
    ensures destroy { (setting : Setting) (journal : List Entry)
        → completed_at setting Destroy (past_of journal) ≡ pending setting (past_of journal) }
    ensures destroyed { (setting : Setting) (journal : List Entry)
        → AllByRecursion (λ request. fate setting request (Destroy ∷ past_of journal)
        ≡ Some (bare request Destruction [])) (pending setting (past_of journal)) }
{}

/// A leg is in flight exactly where its Start stands before and nothing since has closed it.
#[tactic(auto, using(crate::proofs::LawfulLemmas::flight_of_position))]
pub fn flight_is_by_position()
    ensures only { (setting : Setting) (journal : List Entry) (leg : Leg) (a : Attempt)
        → flight setting leg (past_of journal) ≡ Some a
        → (leg ≡ a.leg) × IsInFlight setting a (past_of journal) }
    ensures each { (setting : Setting) (journal : List Entry) (a : Attempt)
        → IsLawful setting journal → IsInFlight setting a (past_of journal)
        → flight setting a.leg (past_of journal) ≡ Some a }
{}

/// In a lawful journal a leg that has ended isn't in flight. A leg that waits is idle: it isn't in flight and hasn't ended;
/// and its request hasn't completed.
#[tactic(auto, using(crate::proofs::LawfulLemmas::ended_isnt_in_flight))]
pub fn ended_legs_rest()
    ensures lands { (setting : Setting) (journal : List Entry) (leg : Leg) (end : LegEnd)
        → IsLawful setting journal
        → leg_end setting leg (past_of journal) ≡ Some end → flight setting leg (past_of journal) ≡ None }
    ensures waits { (setting : Setting) (journal : List Entry) (leg : Leg)
        → IsTrue (has_leg leg (waiting setting (past_of journal)))
        → IsTrue (is_idle setting (past_of journal) leg)
        × IsTrue (is_open setting (past_of journal) leg.request) }
{}

/// In a lawful journal legs in flight have different identifiers.
#[tactic(auto, using(crate::proofs::LawfulLemmas::identifiers_differ))]
pub fn identifiers_in_flight_differ()
    ensures { (setting : Setting) (journal : List Entry) (leg other : Leg) (a b : Attempt)
        → IsLawful setting journal
        → flight setting leg (past_of journal) ≡ Some a
        → flight setting other (past_of journal) ≡ Some b → a.id ≡ b.id → leg ≡ other }
{}

/// In a lawful journal the attempts that are in flight over TCP to one server go over one link.
#[tactic(auto, using(crate::proofs::LinkLemmas::links_agree))]
pub fn attempts_share_their_link()
    ensures { (setting : Setting) (journal : List Entry) (leg other : Leg) (a b : Attempt)
        → IsLawful setting journal
        → flight setting leg (past_of journal) ≡ Some a → flight setting other (past_of journal) ≡ Some b
        → a.server ≡ b.server → a.link ≢ 0 → b.link ≢ 0 → a.link ≡ b.link }
{}

/// What is sorted by the rules of RFC 6724 is the list that the definition computes.
pub fn sorted_is_computed()
    ensures { (sources given out : List Addr) → IsSortedBy sources given out → out ≡ sorted sources given }
{}

/// Where all identifiers are in flight, 65,536 attempts are, or more.
#[tactic(auto, using(crate::proofs::IdentifierLemmas::all_used_many))]
pub fn all_identifiers_are_many()
    ensures { (setting : Setting) (journal : List Entry) → AllUsed setting (past_of journal)
        → 2 ^ 16 ≤ length (in_flight setting (past_of journal)) }
{}

/// In a lawful journal no two servers of the list have one key.
#[tactic(auto, using(crate::proofs::KeyLemmas::server_keys_differ))]
pub fn server_keys_differ()
    ensures { (setting : Setting) (journal : List Entry) → IsLawful setting journal
        → KeysDiffer (servers_at setting (past_of journal)) }
{}

/// In a lawful journal of a channel that was made with a server or more, a leg in flight is on a server of the list, and so
/// is the next attempt of a leg that has to go to a certain one.
#[tactic(auto, using(crate::proofs::ServerLemmas::flies_listed, crate::proofs::ServerLemmas::forced_listed))]
pub fn attempts_are_on_listed_servers()
    ensures flies { (setting : Setting) (journal : List Entry) (leg : Leg) (a : Attempt)
        → 1 ≤ length setting.options.servers → IsLawful setting journal
        → flight setting leg (past_of journal) ≡ Some a
        → IsTrue (has_key a.server (servers_at setting (past_of journal))) }
    ensures forced { (setting : Setting) (journal : List Entry) (leg : Leg) (key : ℕ)
        → 1 ≤ length setting.options.servers → IsLawful setting journal
        → forced_server setting leg (past_of journal) ≡ Some key
        → IsTrue (has_key key (servers_at setting (past_of journal))) }
{}

/// In a journal that sets no servers the list is the one with which the channel was made, and a leg has to go to the server
/// of its last attempt exactly where that one's end asks its question again. In a lawful journal of a channel that doesn't
/// draw the case of letters no Start has bits for it.
#[tactic(auto, using(crate::proofs::OpeningServersLemmas::opening_list, crate::proofs::OpeningServersLemmas::last_forces))]
pub fn journals_that_set_nothing_are_as_before()
    ensures servers { (setting : Setting) (journal : List Entry)
        → AllByRecursion (λ what. servers_set_by what ≡ None) (past_of journal)
        → servers_at setting (past_of journal) ≡ opening_servers setting }
    ensures forced { (setting : Setting) (journal : List Entry) (leg : Leg)
        → AllByRecursion (λ what. servers_set_by what ≡ None) (past_of journal)
        → forced_server setting leg (past_of journal)
        ≡ option_and_then forced_by (first (closings setting leg (past_of journal))) }
    ensures mix { (setting : Setting) (journal : List Entry) → IsLawful setting journal
        → IsFalse setting.options.flags.mix
        → AllByRecursion (λ what. IfSome (begun_by what) (λ a. a.mix ≡ None)) (past_of journal) }
{}
