//! The whole session: the channel is made, its requests are brought to their end, and it is closed.

ghost use Rattle.std.specs.Prelude.{◌≡◌, ◌≤◌, All, IfErr, IfOk, IfSome, None, length, map};
ghost use Rattle.owner_session.specs.Asked.{task_of};
ghost use Rattle.owner_session.specs.Delivering.{fresh_caller};
ghost use Rattle.owner_session.specs.Promise.{SessionPromise};
ghost use Rattle.owner_session.specs.Returning.{AreBack, numbers_asked};

use crate::caller::Caller;
use crate::closing::close;
use crate::ending::ending_of;
use crate::places::Places;
use crate::requests::Requests;
use crate::session::session;
use crate::session_end::SessionEnd;
use chan_types::Orders;
use completion_ticket::Done;
use hosts_file::Hosts;
use item_list::NoMemory;
use net_world::World;
use resolv_options::Options;
use std::alloc::Global;

/// Makes a channel with these options and hosts, and brings its requests to their end: at most `turns` turns over the network.
/// A channel that was made is destroyed in every case, so that each callback is called. The bodies come back. Where memory was
/// wanting for the channel, they come back alone, as they were, and nothing was done.
pub fn bring_to_end<B: Done + Drop, W: World>(
    alloc: Global,
    requests: Requests<B>,
    options: Options,
    hosts: Hosts,
    world: &mut W,
    turns: u64,
) -> Result<SessionEnd<B>, Vec<B>>
    requires fresh { All (λ body. B.told body ≡ None) requests.bodies.items }
    requires servers { IfSome requests.later (λ later. (1 ≤ length later) × (length later ≤ 8)) }
    ensures promise { IfOk result (λ ended. SessionPromise
        (task_of requests.specs.items (map B.plan requests.bodies.items) requests.orders requests.later)
        (record { options = options; hosts = hosts }) turns ended
        (record { log = W.log world.old; wait_faults = W.wait_faults world.old })
        (record { log = W.log world.new; wait_faults = W.wait_faults world.new })) }
    ensures options { IfOk result (λ ended. ended.options ≡ options) }
    ensures bodies { IfOk result (λ ended. AreBack B.name B.told B.refusal (numbers_asked ended.journal)
        requests.bodies.items ended.bodies.items) }
    ensures unmade { IfErr result (λ bodies. (bodies.items ≡ requests.bodies.items) × (world.new ≡ world.old)) }
    ensures origin { W.origin world.new ≡ W.origin world.old }
{
    let Requests {
        specs,
        bodies,
        orders,
        later,
    } = requests;
    let Ok((known, mut caller)) = caller_with(alloc, options, hosts, orders) else {
        return Err(bodies);
    };
    caller.places = Places::of(alloc, bodies);
    let loop_end = session(alloc, &known, specs, later, &mut caller, world, turns);
    close(&mut caller);
    let Caller {
        alone,
        hand: _,
        calls,
        lost,
        places,
    } = caller;
    let end = ending_of(loop_end, lost, &calls);
    Ok(SessionEnd {
        options: known,
        end,
        journal: alone.close().into_journal(),
        calls,
        bodies: places.into_bodies(),
    })
}

/// The owner of a channel with these options and hosts, and the options once more. They name a server and a try.
fn caller_with<B: Done + Drop>(
    alloc: Global,
    options: Options,
    hosts: Hosts,
    orders: Orders,
) -> Result<(Options, Caller<B>), NoMemory>
    ensures made { IfOk result (λ made. (made.0 ≡ options) × (made.1 ≡ fresh_caller options hosts orders)) }
    ensures limits { IfOk result (λ made. (1 ≤ length options.servers) × (1 ≤ options.tries)) }
{
    let known = options.copy(alloc)?;
    let caller = Caller::make(alloc, options, hosts, orders)?;
    Ok((known, caller))
}
