//! Many hosts at once: each request has a callback, which is told its answer and may ask on or cancel.

ghost use Rattle.std.specs.Prelude.{◌≡◌, ◌≢◌, ◌≤◌, ◌⊎◌, ◌+◌, ◌-◌, ◌^◌, ◌++◌, ◌∷◌, [], IfOk, List, OnOk, Option, false, length, map, true, ℕ};
ghost use Rattle.channel_model.specs.Journal.{accepted, past_of};
ghost use Rattle.net_world.specs.Cause.{Rose};
ghost use Rattle.net_world.specs.declared.log.WorldCall.{WorldCall};
ghost use Rattle.channel_session.specs.Left.{IsOver};
ghost use Rattle.channel_session.specs.Sitting.{StandsBehind, moment_of};
ghost use Rattle.channel_table.specs.Calling.{known_by_owner};
ghost use Rattle.host_lookups.specs.Answered.{IsUnused, addresses_of, asked, setting_with};
ghost use Rattle.host_lookups.specs.Extending.{AreFates, Extends, StallsOn, StandsStill};
ghost use Rattle.host_lookups.specs.Many as meaning;
ghost use Rattle.host_lookups.specs.Many.{AreAllAnswered, AreAnswered, AreStalled, asked_from};

use crate::delivering::deliver;
use crate::request::request_for;
use crate::scripts::{follow_up, give_up};
use chan_types::{Calls, Script};
use channel_model::Desk;
use channel_session::{Progress, Session};
use channel_table::Alone;
use completion_ticket::{Callback, Hand, Scripted};
use hosts_file::Hosts;
use item_list::NoMemory;
use net_world::World;
use resolv_options::Options;
use std::alloc::Global;

/// More turns than come between two requests that complete.
const TURNS: u64 = 1_000_000;

/// Asks a channel with these options and hosts, over this network, for the addresses of these names, all at once, and notes
/// each answer as it comes. The first name's callback asks for the names of its first address; the last one's cancels what
/// is pending, if it has no address. Answers whether all came: not where a wait of the network fails, or behind that many
/// turns without an answer.
pub fn look_up_all<W: World>(
    alloc: Global,
    options: Options,
    hosts: Hosts,
    world: &mut W,
    names: &[&str],
    calls: &mut Calls,
) -> Result<bool, NoMemory>
    requires none { calls.old ≡ [] }
    ensures told { calls.new ≢ []
        → AreAnswered (setting_with options hosts) (map (λ name. name.now) names.now) calls.new }
    ensures all { IfOk result (λ all. all ≡ true
        → AreAllAnswered (setting_with options hosts) (map (λ name. name.now) names.now) calls.new) }
    ensures part { IfOk result (λ all. all ≡ false → Rose (W.wait_faults world.old) (W.wait_faults world.new)
        ⊎ AreStalled (setting_with options hosts) (map (λ name. name.now) names.now) calls.new TURNS (W.log world.old)
        (W.log world.new) ⊎ (2 ^ 64 - 1 ≤ length calls.new)) }
    ensures waits { W.wait_faults world.old ≤ W.wait_faults world.new }
    ensures origin { W.origin world.new ≡ W.origin world.old }
{
    let mut session = Session::make(alloc, world, &options)?;
    let mut channel = Alone::<Callback<Scripted>>::make(alloc, options, hosts)?;
    let came = ask_all(alloc, &mut session, &mut channel, world, names, calls);
    channel.close();
    came
}

/// The same over a channel that nobody has used.
fn ask_all<W: World>(
    alloc: Global,
    session: &mut Session,
    channel: &mut Alone<Callback<Scripted>>,
    world: &mut W,
    names: &[&str],
    calls: &mut Calls,
) -> Result<bool, NoMemory>
    requires new { IsUnused channel.old }
    requires none { calls.old ≡ [] }
    ensures told { calls.new ≢ [] → AreAnswered channel.old.setting (map (λ name. name.now) names.now) calls.new }
    ensures all { IfOk result (λ all. all ≡ true
        → AreAllAnswered channel.old.setting (map (λ name. name.now) names.now) calls.new) }
    ensures part { IfOk result (λ all. all ≡ false → Rose (W.wait_faults world.old) (W.wait_faults world.new)
        ⊎ ((began : Option (List WorldCall)) →
        StandsBehind 0 0 began (moment_of (known_by_owner channel.old) session.old (W.log world.old))
        → AreStalled channel.old.setting (map (λ name. name.now) names.now) calls.new TURNS began (W.log world.new))
        ⊎ (2 ^ 64 - 1 ≤ length calls.new)) }
    ensures waits { W.wait_faults world.old ≤ W.wait_faults world.new }
    ensures origin { W.origin world.new ≡ W.origin world.old }
{
    accept_all(alloc, channel, names)?;
    tell_all(alloc, session, channel, world, calls)
}

/// Asks for the addresses of each name.
fn accept_all(
    alloc: Global,
    channel: &mut Alone<Callback<Scripted>>,
    names: &[&str],
) -> Result<(), NoMemory>
    requires new { IsUnused channel.old }
    ensures adds { OnOk result (channel.new.seen
        ≡ asked_from 0 (length names.now) (map (λ name. name.now) names.now)) }
    ensures extends { Extends channel.old channel.new }
    ensures stands { StandsStill channel.old channel.new }
{
    for (index, name) in names.iter().enumerate() {
        accept(channel, alloc, name, script_at(alloc, index, names.len())?)?;
    }
    Ok(())
}

/// The script of the callback of the name at this index, of so many.
fn script_at(alloc: Global, index: usize, count: usize) -> Result<Script, NoMemory>
    ensures { IfOk result (λ script. script ≡ meaning.script_at index count) }
{
    if index == 0 {
        follow_up(alloc)
    } else if index == count.saturating_sub(1) {
        give_up(alloc)
    } else {
        Ok(Script::blank(alloc, 0))
    }
}

/// Asks for the addresses of a name, with a callback of this script. One that is refused is told why.
fn accept(
    channel: &mut Alone<Callback<Scripted>>,
    alloc: Global,
    name: &str,
    script: Script,
) -> Result<(), NoMemory>
    requires silent { channel.old.voice ≡ 0 }
    ensures adds { OnOk result (channel.new.seen ≡ channel.old.seen
        ++ asked (length (accepted (past_of channel.old.seen)) + 1) (addresses_of name.now) script ∷ []) }
    ensures extends { Extends channel.old channel.new }
    ensures stands { StandsStill channel.old channel.new }
    ensures silent { channel.new.voice ≡ 0 }
{
    match channel.accept(request_for(alloc, name)?, Callback::scripted(script)) {
        Ok(_) => Ok(()),
        Err(refused) => {
            refused.token.refuse(refused.why);
            Err(NoMemory)
        }
    }
}

/// Tells each callback its answer as soon as there is one, and notes it, until nothing is pending.
fn tell_all<W: World>(
    alloc: Global,
    session: &mut Session,
    channel: &mut Alone<Callback<Scripted>>,
    world: &mut W,
    calls: &mut Calls,
) -> Result<bool, NoMemory>
    requires fates { AreFates channel.old.setting channel.old.seen calls.old }
    ensures fates { AreFates channel.old.setting channel.new.seen calls.new }
    ensures over { IfOk result (λ all. all ≡ true → IsOver (known_by_owner channel.new)) }
    ensures part { IfOk result (λ all. all ≡ false → Rose (W.wait_faults world.old) (W.wait_faults world.new)
        ⊎ StallsOn TURNS (moment_of (known_by_owner channel.old) session.old (W.log world.old))
        (moment_of (known_by_owner channel.new) session.new (W.log world.new)) ⊎ (2 ^ 64 - 1 ≤ length calls.new)) }
    ensures extends { Extends channel.old channel.new }
    ensures waits { W.wait_faults world.old ≤ W.wait_faults world.new }
    ensures origin { W.origin world.new ≡ W.origin world.old }
{
    let mut hand = Hand::make(alloc)?;
    for _round in 0..u64::MAX {
        match session.next(channel, world, TURNS)? {
            Progress::Completed(ticket) => calls.add(deliver(channel, &mut hand, ticket)),
            Progress::Over => return Ok(true),
            Progress::WaitFault => return Ok(false),
            Progress::Stalled => return Ok(false),
            Progress::Disturbed => return Ok(false),
        }
    }
    Ok(false)
}
