//! What a page tells of, by request: each entry and each answer is gone through once, however many requests there are.

ghost use Rattle.std.specs.Prelude.{ℕ, ◌≡◌, ◌∷◌, ◌++◌, [], IfOk, OnOk, map};
ghost use Rattle.std.specs.Option.{option_copied, option_map_or};
ghost use Rattle.ahost_tool.specs.Page.{answer_for};
ghost use Rattle.ahost_tool.specs.Told.{HasAnswers, HasRequests, as_told, requests_at, requests_by};

use chan_types::{Answer, Calls, Entry, Spec, What};
use item_list::NoMemory;
use std::alloc::Global;
use std::collections::HashMap;

/// A request that was accepted: its number, and what it asks.
#[derive(Clone, Copy)]
pub(super) struct Request<'a> {
    pub(super) number: u64,
    pub(super) spec: &'a Spec,
}

/// The entries of a run and the answers that its callbacks were called with, and both by request.
#[derive(Drop)]
pub(super) struct Told<'a> {
    entries: &'a [Entry],
    calls: &'a Calls,
    /// Under a request's number those that its callback asked, in order, and under 0 those that none did.
    requests: HashMap<u64, Vec<Request<'a>>>,
    /// Under a request's number its first answer.
    answers: HashMap<u64, &'a Answer>,
    ghost has_requests: { HasRequests requests entries.now },
    ghost has_answers: { HasAnswers answers calls.now },
}

impl<'a> Told<'a> {
    /// What a page tells of these entries and answers.
    pub(super) fn gather(
        alloc: Global,
        entries: &'a [Entry],
        calls: &'a Calls,
    ) -> Result<Told<'a>, NoMemory>
        ensures { IfOk result (λ told. (told.entries.now ≡ entries.now) × (told.calls.now ≡ calls.now)) }
    {
        Ok(Told {
            entries,
            calls,
            requests: gather_requests(alloc, entries)?,
            answers: gather_answers(alloc, calls)?,
        })
    }

    /// The requests that this one's callback asked, in order, if it asked some.
    pub(super) fn requests_by(&self, by: u64) -> Option<&Vec<Request<'a>>>
        ensures { option_map_or (λ requests. map as_told requests.now.items) result []
            ≡ requests_by by self.now.entries.now }
    {
        self.requests.get(&by)
    }

    /// The answer with which this request's callback was called.
    pub(super) fn answer_for(&self, number: u64) -> Option<&'a Answer>
        ensures { option_copied result ≡ answer_for number self.now.calls.now }
    {
        self.answers.get(&number).copied()
    }
}

/// The requests that each request's callback asked, in order.
fn gather_requests<'a>(
    alloc: Global,
    entries: &'a [Entry],
) -> Result<HashMap<u64, Vec<Request<'a>>>, NoMemory>
    ensures { IfOk result (λ requests. HasRequests requests entries.now) }
{
    let mut requests = HashMap::new(alloc);
    for entry in entries {
        add_request(&mut requests, alloc, entry)?;
    }
    Ok(requests)
}

/// Adds the request that the entry accepts, if it accepts one, to those that the same callback asked.
fn add_request<'a>(
    requests: &mut HashMap<u64, Vec<Request<'a>>>,
    alloc: Global,
    entry: &'a Entry,
) -> Result<(), NoMemory>
    ensures { OnOk result ((by : ℕ)
        → requests_at requests.new by ≡ requests_at requests.old by ++ requests_by by (entry.now ∷ [])) }
{
    let What::Accept { number, spec, .. } = &entry.what else {
        return Ok(());
    };
    let request = Request {
        number: *number,
        spec,
    };
    let siblings = requests.entry(entry.by)?.or_insert(Vec::new(alloc));
    siblings.push(request)?;
    Ok(())
}

/// The first answer of each request.
fn gather_answers<'a>(alloc: Global, calls: &'a Calls) -> Result<HashMap<u64, &'a Answer>, NoMemory>
    ensures { IfOk result (λ answers. HasAnswers answers calls.now) }
{
    let mut answers = HashMap::new(alloc);
    let mut rest = calls.iter();
    while let Some(answer) = rest.next() {
        if !answers.contains_key(&answer.number) {
            answers.insert(answer.number, answer)?;
        }
    }
    Ok(answers)
}
