//! What is shown of the names, and the cache of their answers.

ghost use Rattle.std.specs.Prelude.{◌≡◌, ◌↔◌, ◌++◌, IfOk, IfSome, None, OnOk, Some, option_copied, option_map, true, Ok};
ghost use Rattle.query_cache.specs.Cache.{after_look, given};
ghost use Rattle.tool_line.specs.Heads.{page_of as page_for};
ghost use Rattle.acache_tool.specs.Parts as meaning;
ghost use Rattle.acache_tool.specs.Shown.{IsGood, ShowsHit, ShowsSent};

use chan_types::{Answer, Spec, Status};
use dns_message::{Name, NameFault, Question};
use item_list::{Bytes, NoMemory};
use query_cache::QueryCache;
use std::alloc::Global;
use tool_line::page_of;

/// The kind and the class that are asked for: addresses on the internet (RFC 1035, sections 3.2.2 and 3.2.4).
const A: u16 = 1;

const IN: u16 = 1;

/// What is shown of the names so far, and the cache of their answers.
#[derive(Drop)]
pub(crate) struct Shown {
    pub cache: QueryCache,
    /// The page.
    pub text: Vec<u8>,
    /// All answers are good ones.
    pub good: bool,
}

/// The request for a name.
pub(crate) fn spec_for(alloc: Global, name: &str) -> Result<Spec, NoMemory>
    ensures { IfOk result (λ spec. spec ≡ meaning.spec_for name.now) }
{
    Ok(Spec::Query {
        name: Bytes::of(alloc, name.as_bytes())?,
        kind: A,
        class: IN,
    })
}

/// The question for a text, if it is a name.
pub(crate) fn question_of(alloc: Global, name: &str) -> Result<Option<Question>, NoMemory>
    ensures { IfOk result (λ question. question ≡ meaning.question_of name.now) }
{
    match Name::from_text(alloc, name.as_bytes()) {
        Ok(found) => Ok(Some(Question {
            name: found.name,
            kind: A,
            class: IN,
        })),
        Err(NameFault::NoMemory) => Err(NoMemory),
        Err(_) => Ok(None),
    }
}

/// The answer is a good one.
fn is_good(answer: &Answer) -> bool
    ensures { (result ≡ true) ↔ IsGood answer.now }
{
    answer.status == Status::Success
}

/// Shows the answer that the cache gives to a name's question at a moment, and says whether it gives one.
pub(crate) fn show_hit(
    alloc: Global,
    shown: &mut Shown,
    name: &str,
    question: &Question,
    at: u64,
) -> Result<bool, NoMemory>
    ensures { IfOk result (λ is_hit. ShowsHit is_hit name.now question.now at shown.old shown.new) }
{
    let spec = spec_for(alloc, name)?;
    match page_of_hit(alloc, &mut shown.cache, &spec, question, at)? {
        Some((page, good)) => {
            shown.good = both(shown.good, good);
            add(&mut shown.text, b";; hit\n", page.as_slice())?;
            Ok(true)
        }
        None => Ok(false),
    }
}

/// Both hold.
fn both(one: bool, other: bool) -> bool
    ensures { (result ≡ true) ↔ ((one ≡ true) × (other ≡ true)) }
{
    one && other
}

/// Adds a line and a page.
fn add(text: &mut Vec<u8>, head: &[u8], page: &[u8]) -> Result<(), NoMemory>
    ensures { OnOk result (text.new.items ≡ text.old.items ++ (head.now ++ page.now)) }
{
    text.extend_from_slice(head)?;
    text.extend_from_slice(page)?;
    Ok(())
}

/// The page of the answer that the cache gives to a question at a moment, and whether it is a good one.
fn page_of_hit(
    alloc: Global,
    cache: &mut QueryCache,
    spec: &Spec,
    question: &Question,
    at: u64,
) -> Result<Option<(Bytes, bool)>, NoMemory>
    ensures page { IfOk result (λ found. option_map (λ hit. hit.0) found
        ≡ option_map (page_for spec.now) (given question.now at cache.old)) }
    ensures good { IfOk result (λ found. IfSome found (λ hit. IfSome (given question.now at cache.old)
        (λ answer. (hit.1 ≡ true) ↔ IsGood answer))) }
    ensures used { OnOk result (cache.new ≡ after_look question.now (Ok (given question.now at cache.old)) cache.old) }
{
    match cache.look(question, at)? {
        Some(answer) => {
            let good = is_good(answer);
            Ok(Some((page_of(alloc, spec, answer)?, good)))
        }
        None => Ok(None),
    }
}

/// The answers are good ones still, with this one.
fn still_good(good: bool, answer: &Answer) -> bool
    ensures { (result ≡ true) ↔ ((good ≡ true) × IsGood answer.now) }
{
    good && is_good(answer)
}

/// Adds a name's part to the page, which begins with this line.
fn show(
    alloc: Global,
    text: &mut Vec<u8>,
    head: &[u8],
    name: &str,
    answer: &Answer,
) -> Result<(), NoMemory>
    ensures { OnOk result (text.new.items
        ≡ text.old.items ++ (head.now ++ page_for (meaning.spec_for name.now) answer.now)) }
{
    let spec = spec_for(alloc, name)?;
    let page = page_of(alloc, &spec, answer)?;
    text.extend_from_slice(head)?;
    text.extend_from_slice(page.as_slice())?;
    Ok(())
}

/// Shows an answer that was sent for, and keeps it from a moment on, where there is a question.
pub(crate) fn show_sent(
    alloc: Global,
    shown: &mut Shown,
    name: &str,
    question: Option<&Question>,
    answer: Answer,
    at: u64,
) -> Result<(), NoMemory>
    ensures { OnOk result (ShowsSent name.now (option_copied question.entry) answer at shown.old shown.new) }
{
    show(alloc, &mut shown.text, b";; sent\n", name, &answer)?;
    shown.good = still_good(shown.good, &answer);
    match question {
        Some(question) => {
            shown.cache.keep(question, answer, at)?;
            Ok(())
        }
        None => Ok(()),
    }
}
