//! One host: one request of a channel, from its beginning to its answer.

ghost use Rattle.std.specs.Prelude.{◌≡◌, ◌≤◌, ◌⊎◌, IfOk, IfSome, List, None, Option};
ghost use Rattle.net_world.specs.Cause.{Rose};
ghost use Rattle.net_world.specs.declared.log.WorldCall.{WorldCall};
ghost use Rattle.channel_session.specs.Sitting.{StandsBehind, moment_of};
ghost use Rattle.channel_table.specs.Calling.{known_by_owner};
ghost use Rattle.host_lookups.specs.Answered.{IsAnswered, IsStalled, IsUnused, addresses_of, setting_with};

use crate::request::request_for;
use chan_types::{Answer, Quiet};
use channel_model::Desk;
use channel_session::{Progress, Session};
use channel_table::Alone;
use hosts_file::Hosts;
use item_list::NoMemory;
use net_world::World;
use resolv_options::Options;
use std::alloc::Global;

/// More turns than a request makes.
const TURNS: u64 = 1_000_000;

/// What a channel with these options and hosts answers, over this network, for the addresses of a host. There is no answer
/// where a wait of the network fails, or behind that many turns.
pub fn look_up<W: World>(
    alloc: Global,
    options: Options,
    hosts: Hosts,
    world: &mut W,
    host: &str,
) -> Result<Option<Answer>, NoMemory>
    ensures answer { IfOk result (λ found. IfSome found
        (IsAnswered (setting_with options hosts) (addresses_of host.now))) }
    ensures none { IfOk result (λ found. found ≡ None → Rose (W.wait_faults world.old) (W.wait_faults world.new)
        ⊎ IsStalled (setting_with options hosts) (addresses_of host.now) TURNS (W.log world.old) (W.log world.new)) }
    ensures waits { W.wait_faults world.old ≤ W.wait_faults world.new }
    ensures origin { W.origin world.new ≡ W.origin world.old }
{
    let mut session = Session::make(alloc, world, &options)?;
    let mut channel = Alone::<Quiet>::make(alloc, options, hosts)?;
    let answer = ask(alloc, &mut session, &mut channel, world, host);
    channel.close();
    answer
}

/// The same over a channel that nobody has used.
fn ask<W: World>(
    alloc: Global,
    session: &mut Session,
    channel: &mut Alone<Quiet>,
    world: &mut W,
    host: &str,
) -> Result<Option<Answer>, NoMemory>
    requires new { IsUnused channel.old }
    ensures answer { IfOk result (λ found. IfSome found (IsAnswered channel.old.setting (addresses_of host.now))) }
    ensures none { IfOk result (λ found. found ≡ None → Rose (W.wait_faults world.old) (W.wait_faults world.new)
        ⊎ ((began : Option (List WorldCall)) →
        StandsBehind 0 0 began (moment_of (known_by_owner channel.old) session.old (W.log world.old))
        → IsStalled channel.old.setting (addresses_of host.now) TURNS began (W.log world.new))) }
    ensures waits { W.wait_faults world.old ≤ W.wait_faults world.new }
    ensures origin { W.origin world.new ≡ W.origin world.old }
{
    let request = request_for(alloc, host)?;
    match channel.accept(request, Quiet::new(alloc)) {
        Ok(_) => {}
        Err(_) => return Err(NoMemory),
    }
    match session.next(channel, world, TURNS)? {
        Progress::Completed(ticket) => Ok(Some(ticket.answer().copy(alloc)?)),
        Progress::WaitFault => Ok(None),
        Progress::Stalled => Ok(None),
        // It never comes to these: the request is pending until it completes, and nobody else uses the channel.
        Progress::Over => Ok(None),
        Progress::Disturbed => Ok(None),
    }
}
