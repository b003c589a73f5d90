//! The names that a search asks for, one after another.

ghost use Rattle.std.specs.Prelude.{◌≡◌, ◌≢◌, ◌++◌, ◌∷◌, [], codes, IfOk, OnOk};
ghost use Rattle.std.specs.List.{list_any};
ghost use Rattle.dns_message.specs.Name.{LastIs, same_name, last_is};
ghost use Rattle.resolv_options.specs.Search as search;

use crate::options::Options;
use dns_message::{Name, NameList, NameText};
use item_list::NoMemory;
use std::alloc::Global;

/// The last label of the names that are never asked for (RFC 7686, section 2).
const ONION: &[u8] = b"onion";

/// Whether the names are the same, ignoring ASCII case.
fn is_same(name: &Name, other: &Name) -> bool
    ensures { result ≡ same_name name.now other.now }
{
    name.same(other)
}

/// Whether the name's last label is `onion`.
fn is_onion(name: &Name) -> bool
    ensures { result ≡ last_is (codes "onion") name.now }
{
    name.last_is(ONION)
}

/// Whether the name is the same as one of these.
fn is_one_of(name: &Name, names: &[Name]) -> bool
    ensures { result ≡ list_any (same_name name.now) names.now }
{
    names.iter().any(|other| is_same(name, other))
}

/// Adds a name behind the candidates so far, if it is another one.
#[tactic(auto, using(crate::proofs::SearchLemmas::passed_over, crate::proofs::SearchLemmas::added))]
fn offer(names: &mut NameList, name: Name) -> Result<(), NoMemory>
    ensures { OnOk result (names.new ≡ names.old ++ search.candidates_after names.old (name ∷ [])) }
{
    prove!(name.wire_len() <= 255);
    if is_onion(&name) || is_one_of(&name, names.as_slice()) {
        return Ok(());
    }
    names.push(name)
}

/// Adds the name with a domain behind it, if it is another candidate.
fn offer_joined(
    alloc: Global,
    names: &mut NameList,
    name: &Name,
    domain: &Name,
) -> Result<(), NoMemory>
    ensures { OnOk result
        (names.new ≡ names.old ++ search.candidates_after names.old ((name.now ++ domain.now) ∷ [])) }
{
    match name.joined(alloc, domain)? {
        Some(joined) => offer(names, joined),
        None => Ok(()),
    }
}

/// Adds those of the name with each domain behind it that are further candidates.
fn offer_with_domains(
    alloc: Global,
    names: &mut NameList,
    name: &Name,
    domains: &[Name],
) -> Result<(), NoMemory>
    ensures { OnOk result
        (names.new ≡ names.old
        ++ search.candidates_after names.old (search.with_domains name.now domains.now)) }
{
    for domain in domains {
        offer_joined(alloc, names, name, domain)?;
    }
    Ok(())
}

/// The name as it is, where it is a candidate.
fn alone(alloc: Global, name: &Name) -> Result<NameList, NoMemory>
    ensures { IfOk result (λ names. names ≡ search.candidates_after [] (name.now ∷ [])) }
{
    let mut names = NameList::new(alloc);
    offer(&mut names, name.copy(alloc)?)?;
    Ok(names)
}

/// The candidates of a search, in order.
#[tactic(auto, using(crate::proofs::SearchLemmas::candidates_in_turn))]
fn in_order(alloc: Global, text: &NameText, options: &Options) -> Result<NameList, NoMemory>
    ensures { IfOk result (λ names. names ≡ search.candidates text.now options.now) }
{
    let name = &text.name;
    if text.absolute || options.flags().nosearch {
        return alone(alloc, name);
    }
    let domains = options.domains().as_slice();
    if options.ndots() as u64 <= name.labels().saturating_sub(1) {
        let mut names = alone(alloc, name)?;
        offer_with_domains(alloc, &mut names, name, domains)?;
        return Ok(names);
    }
    let mut names = NameList::new(alloc);
    offer_with_domains(alloc, &mut names, name, domains)?;
    offer(&mut names, name.copy(alloc)?)?;
    Ok(names)
}

/// The names that a search for this name asks for, in order: as it is, and with each domain of the search list.
/// A name whose last label is `onion` is no candidate; for any other name there is one.
pub fn candidates(alloc: Global, text: &NameText, options: &Options) -> Result<NameList, NoMemory>
    ensures value { IfOk result (λ names. names ≡ search.candidates text.now options.now) }
    ensures some { IfOk result (λ names. ¬ LastIs text.now.name (codes "onion") → names ≢ []) }
{
    prove!(text.name.wire_len() <= 255);
    in_order(alloc, text, options)
}
