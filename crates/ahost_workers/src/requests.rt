//! The requests of a run, each with the callback of its body.

ghost use Rattle.std.specs.Prelude.{◌≡◌, All, IfOk, None};
ghost use Rattle.ahost_workers.specs.Asked.{requests_of};

use chan_types::Spec;
use completion_ticket::{Callback, Done};
use item_list::NoMemory;
use std::alloc::Global;
use std::collections::VecDeque;
use tool_line::SpecList;

/// Each request with the callback of the body at its place, as far as there are both. The other bodies are let go.
pub(crate) fn with_callbacks<B: Done + Drop>(
    alloc: Global,
    specs: SpecList,
    bodies: Vec<B>,
) -> Result<Vec<(Spec, Callback<B>)>, NoMemory>
    requires fresh { All (λ body. B.told body ≡ None) bodies.items }
    ensures { IfOk result (λ requests. requests.items ≡ requests_of B.plan B.name specs bodies.items) }
{
    let mut requests = Vec::new(alloc);
    let mut specs = VecDeque::from(specs.into_vec());
    let mut bodies = VecDeque::from(bodies);
    while let Some(spec) = specs.pop_front() {
        let Some(body) = bodies.pop_front() else {
            return Ok(requests);
        };
        requests.push((spec, Callback::of(body)))?;
    }
    Ok(requests)
}
