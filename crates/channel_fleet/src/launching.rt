//! One channel of a fleet that is being made.

ghost use Rattle.std.specs.List.{AllByRecursion};
ghost use Rattle.std.specs.Prelude.{◌≡◌, ◌<◌, ◌≤◌, ◌+◌, [], IfOk, map, vec_capacity, vec_len};
ghost use Rattle.channel_fleet.specs.Making.{IsNewAt};
ghost use Rattle.channel_fleet.specs.Yards.{IsMannedBy, new_berth};

use crate::berth::Berth;
use crate::helm::Helm;
use crate::setup::Setup;
use crate::shown::Shown;
use chan_types::NoMemory;
use channel_journal::ChannelJournal;
use completion_ticket::Done;
use resolv_options::Options;
use shared_channel::{Channel, Pass};
use std::alloc::Global;
use std::sync::Wait;
use watched_value::{Publisher, Watcher};

/// How many passes of a channel its helm has: one through which it makes turns, and one through which it calls.
const HELM_PASSES: u64 = 2;

/// A channel with its helm, and a berth for each caller.
pub(crate) struct Launched<B: Done + Drop, J: ChannelJournal> {
    pub channel: Channel<B, J>,
    pub berths: Vec<Berth<B, J>>,
    pub helm: Helm<B, J>,
}

/// What a channel's helm and its callers have beside their passes, and room for these.
struct Gear<B: Done + Drop, J: ChannelJournal> {
    board: Publisher<Shown>,
    watchers: Vec<Watcher<Shown>>,
    berths: Vec<Berth<B, J>>,
    row: Vec<Pass<B, J>>,
    options: Options,
}

/// Makes a channel for so many callers, with its helm.
#[tactic(auto, using(crate::proofs::MakingLemmas::manned, crate::proofs::MakingLemmas::seats_fit))]
pub(crate) fn launch<B: Done + Drop, R: Wait, J: ChannelJournal>(
    rt: &R,
    alloc: Global,
    setup: Setup,
    callers: u64,
) -> Result<Launched<B, J>, NoMemory>
    requires { (0 < callers) × (callers ≤ 16) }
    ensures new { IfOk result
        (λ its. IsNewAt callers setup its.channel its.berths.items its.helm) }
    ensures len { IfOk result (λ its. vec_len its.berths ≡ callers) }
{
    let Setup { options, hosts } = setup;
    let gear = make_gear(rt, alloc, &options, callers)?;
    match Channel::make(alloc, options, hosts, callers + HELM_PASSES) {
        Ok((channel, passes)) => {
            let (berths, helm) = man(passes, gear);
            Ok(Launched {
                channel,
                berths,
                helm,
            })
        }
        Err(NoMemory) => {
            let Gear {
                board,
                watchers: _watchers,
                berths: _berths,
                row: _row,
                options: _options,
            } = gear;
            board.close(rt);
            Err(NoMemory)
        }
    }
}

/// What a channel for so many callers needs.
fn make_gear<B: Done + Drop, R: Wait, J: ChannelJournal>(
    rt: &R,
    alloc: Global,
    options: &Options,
    callers: u64,
) -> Result<Gear<B, J>, NoMemory>
    requires { callers ≤ 16 }
    ensures board { IfOk result (λ gear. gear.board ≡ []) }
    ensures options { IfOk result (λ gear. gear.options ≡ options.now) }
    ensures watchers { IfOk result (λ gear. AllByRecursion (λ seen. seen ≡ []) gear.watchers.items) }
    ensures len { IfOk result (λ gear. vec_len gear.watchers ≡ callers) }
    ensures empty { IfOk result (λ gear. (gear.berths.items ≡ []) × (gear.row.items ≡ [])) }
    ensures room { IfOk result
        (λ gear. (vec_capacity gear.berths ≡ callers) × (vec_capacity gear.row ≡ callers + 2)) }
{
    let options = options.copy(alloc)?;
    let berths = Vec::with_capacity(alloc, callers as usize)?;
    let row = Vec::with_capacity(alloc, (callers + HELM_PASSES) as usize)?;
    let mut watchers = Vec::with_capacity(alloc, callers as usize)?;
    // one reader more than there are callers, so that a new one can be made before an old one goes
    let mut board = Publisher::make(alloc, callers as usize + 1)?;
    if watch_all(&mut board, callers, &mut watchers).is_err() {
        board.close(rt);
        return Err(NoMemory);
    }
    Ok(Gear {
        board,
        watchers,
        berths,
        row,
        options,
    })
}

/// So many readers, which have seen what was published.
fn watch_all(
    board: &mut Publisher<Shown>,
    count: u64,
    watchers: &mut Vec<Watcher<Shown>>,
) -> Result<(), NoMemory>
    requires none { board.old ≡ [] }
    requires empty { watchers.old.items ≡ [] }
    ensures same { board.new ≡ [] }
    ensures watchers { IfOk result (λ _. AllByRecursion (λ seen. seen ≡ []) watchers.new.items) }
    ensures len { IfOk result (λ _. vec_len watchers.new ≡ count) }
{
    for _ in 0..count {
        watchers.push(board.watcher()?)?;
    }
    Ok(())
}

/// A berth for each of these passes but the last two, which are the helm's.
fn man<B: Done + Drop, J: ChannelJournal>(
    passes: Vec<Pass<B, J>>,
    gear: Gear<B, J>,
) -> (Vec<Berth<B, J>>, Helm<B, J>)
    requires len { vec_len passes ≡ vec_len gear.watchers + 2 }
    requires untold { gear.board ≡ [] }
    requires unseen { AllByRecursion (λ seen. seen ≡ []) gear.watchers.items }
    requires empty { (gear.berths.items ≡ []) × (gear.row.items ≡ []) }
    requires room { vec_len gear.watchers ≤ vec_capacity gear.berths }
    requires row { AllByRecursion (λ pass. pass.seats ≤ vec_capacity gear.row) passes.items }
    requires options { AllByRecursion (λ pass. gear.options ≡ pass.setting.options) passes.items }
    ensures { IsMannedBy passes.items result.0.items result.1 }
{
    let Gear {
        board,
        watchers,
        berths,
        row,
        options,
    } = gear;
    let mut passes = passes;
    let turner = passes.pop().unwrap();
    let caller = passes.pop().unwrap();
    let berths = berth_each(passes, watchers, berths);
    let helm = Helm {
        turner,
        caller,
        board,
        row,
        options,
        runner: None,
        behind_turn: false,
        made: 0,
    };
    (berths, helm)
}

/// A berth for each of these passes, in their order.
fn berth_each<B: Done + Drop, J: ChannelJournal>(
    passes: Vec<Pass<B, J>>,
    watchers: Vec<Watcher<Shown>>,
    berths: Vec<Berth<B, J>>,
) -> Vec<Berth<B, J>>
    requires len { vec_len passes ≡ vec_len watchers }
    requires unseen { AllByRecursion (λ seen. seen ≡ []) watchers.items }
    requires empty { berths.items ≡ [] }
    requires room { vec_len watchers ≤ vec_capacity berths }
    ensures { result.items ≡ map new_berth passes.items }
{
    let mut watchers = watchers;
    let mut berths = berths;
    for pass in passes {
        let watcher = watchers.pop().unwrap();
        berths.push_reserved(Berth { pass, watcher });
    }
    berths
}
