//! What the threads ask.

ghost use Rattle.std.specs.Prelude.{◌≡◌, ◌++◌, IfOk, map};
ghost use Rattle.host_lookups.specs.Answered.{addresses_of};

use chan_types::Spec;
use host_lookups::request_for;
use item_list::NoMemory;
use std::alloc::Global;

/// The requests of three threads.
#[derive(Drop)]
pub struct Requests {
    pub first: Vec<Spec>,
    pub second: Vec<Spec>,
    pub third: Vec<Spec>,
}

/// The requests for these hosts' addresses, a third of them for each thread, in order.
pub fn requests_of(alloc: Global, names: &[&str]) -> Result<Requests, NoMemory>
    ensures { IfOk result (λ requests. requests.first.items ++ requests.second.items ++ requests.third.items
        ≡ map (λ name. addresses_of name.now) names.now) }
{
    let (first, rest) = names.split_at(names.len() / 3);
    let (second, third) = rest.split_at(rest.len() / 2);
    Ok(Requests {
        first: requests_for(alloc, first)?,
        second: requests_for(alloc, second)?,
        third: requests_for(alloc, third)?,
    })
}

/// The requests for these hosts' addresses.
fn requests_for(alloc: Global, names: &[&str]) -> Result<Vec<Spec>, NoMemory>
    ensures { IfOk result (λ requests. requests.items ≡ map (λ name. addresses_of name.now) names.now) }
{
    let mut requests = Vec::new(alloc);
    for name in names {
        requests.push(request_for(alloc, name)?)?;
    }
    Ok(requests)
}
