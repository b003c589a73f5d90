//! How names are asked for, one after the other.

ghost use Rattle.std.specs.Prelude.{◌≡◌, ◌≤◌, [], List, Ok, Option, Some, map, option_copied, ℕ};
ghost use Rattle.net_world.specs.declared.log.WorldCall.{WorldCall};
ghost use Rattle.channel_model.specs.Setting.{Setting};
ghost use Rattle.channel_session.specs.Sitting.{ReadsClock};
ghost use Rattle.acache_tool.specs.Bringing.{AsksFor, Brings};
ghost use Rattle.acache_tool.specs.Growing.{HasOpen, IsIdle};
ghost use Rattle.acache_tool.specs.Leaving.{AsksAll, IsAt};
ghost use Rattle.acache_tool.specs.Naming.{IsMiss, Sends, Tries, scene_of};
ghost use Rattle.acache_tool.specs.Parts as meaning;

use crate::shown::{Shown, question_of, show_hit, show_sent, spec_for};
use chan_types::{Answer, Calls, Quiet};
use channel_model::Desk;
use channel_session::{Progress, Session};
use channel_table::Alone;
use dns_message::Question;
use item_list::NoMemory;
use net_world::World;
use run_end::LoopEnd;
use std::alloc::Global;

/// The channel of a run, and what it came to so far. It can't be let fall: a channel is given up by `close`.
pub(crate) struct Asker {
    pub session: Session,
    pub alone: Alone<Quiet>,
    /// The answers that were called for.
    pub calls: Calls,
    /// How many turns are left.
    pub left: u64,
}

/// What bringing a channel to its next answer came to.
#[derive(Drop)]
pub(crate) enum Brought {
    Answered(Answer),
    /// A wait failed.
    WaitFault,
    /// No turn is left, and a request is pending.
    Stalled,
}

/// Asks for a name.
fn accept(alloc: Global, alone: &mut Alone<Quiet>, name: &str) -> Result<(), NoMemory>
    requires silent { alone.old.voice ≡ 0 }
    ensures asks { AsksFor name.now result alone.old alone.new }
{
    let spec = spec_for(alloc, name)?;
    match alone.accept(spec, Quiet::new(alloc)) {
        Ok(_) => Ok(()),
        Err(_) => Err(NoMemory),
    }
}

/// Makes turns until a request has its answer, and calls for it.
fn bring<W: World>(alloc: Global, asker: &mut Asker, world: &mut W) -> Result<Brought, NoMemory>
    requires asked { HasOpen asker.old.alone }
    ensures brings { Brings result (W.wait_faults world.old) (W.wait_faults world.new) asker.old asker.new
        (W.log world.old) (W.log world.new) }
    ensures waits { W.wait_faults world.old ≤ W.wait_faults world.new }
    ensures origin { W.origin world.new ≡ W.origin world.old }
{
    match asker
        .session
        .next_within(&mut asker.alone, world, &mut asker.left)?
    {
        Progress::Completed(ticket) => {
            let (_quiet, call) = ticket.spend();
            let answer = call.answer().copy(alloc);
            asker.calls.add(call);
            Ok(Brought::Answered(answer?))
        }
        Progress::WaitFault => Ok(Brought::WaitFault),
        Progress::Stalled => Ok(Brought::Stalled),
        // A request is open, and nobody else uses the channel.
        Progress::Over => unreachable!(),
        Progress::Disturbed => unreachable!(),
    }
}

/// Asks for a name, and brings it to its answer, which is shown, and kept where there is a question. None where a wait
/// failed or no turn is left.
fn send<W: World>(
    alloc: Global,
    asker: &mut Asker,
    shown: &mut Shown,
    world: &mut W,
    name: &str,
    question: Option<&Question>,
) -> Result<LoopEnd, NoMemory>
    requires idle { IsIdle asker.old.alone }
    requires is_name { option_copied question ≡ meaning.question_of name.now }
    ensures sends { (at : ℕ) → IsMiss name.now at shown.old
        → Sends result (W.wait_faults world.old) (W.wait_faults world.new) name.now at
        (scene_of asker.old shown.old (W.log world.old)) (scene_of asker.new shown.new (W.log world.new))
        (W.log world.old) }
    ensures waits { W.wait_faults world.old ≤ W.wait_faults world.new }
    ensures origin { W.origin world.new ≡ W.origin world.old }
{
    accept(alloc, &mut asker.alone, name)?;
    match bring(alloc, asker, world)? {
        Brought::Answered(answer) => {
            let at = asker.session.reading();
            show_sent(alloc, shown, name, question, answer, at)?;
            Ok(LoopEnd::Completed)
        }
        Brought::WaitFault => Ok(LoopEnd::WaitFault),
        Brought::Stalled => Ok(LoopEnd::Stalled),
    }
}

/// Brings a name to its answer: by the cache, or else it is asked for.
fn ask_one<W: World>(
    alloc: Global,
    asker: &mut Asker,
    shown: &mut Shown,
    world: &mut W,
    name: &str,
) -> Result<LoopEnd, NoMemory>
    requires idle { IsIdle asker.old.alone }
    ensures tries { Tries result (W.wait_faults world.old) (W.wait_faults world.new) name.now
        (scene_of asker.old shown.old (W.log world.old)) (scene_of asker.new shown.new (W.log world.new)) }
    ensures waits { W.wait_faults world.old ≤ W.wait_faults world.new }
    ensures origin { W.origin world.new ≡ W.origin world.old }
{
    let at = asker.session.read_clock(world)?;
    match question_of(alloc, name)? {
        Some(question) => ask_by_cache(alloc, asker, shown, world, name, &question, at),
        None => send(alloc, asker, shown, world, name, None),
    }
}

/// Brings a name with this question to its answer, where the clock read this.
fn ask_by_cache<W: World>(
    alloc: Global,
    asker: &mut Asker,
    shown: &mut Shown,
    world: &mut W,
    name: &str,
    question: &Question,
    at: u64,
) -> Result<LoopEnd, NoMemory>
    requires idle { IsIdle asker.old.alone }
    requires is_name { meaning.question_of name.now ≡ Some question.now }
    ensures tries { (log : Option (List WorldCall)) → ReadsClock (Ok at) asker.old.session log (W.log world.old)
        → Tries result (W.wait_faults world.old) (W.wait_faults world.new) name.now
        (scene_of asker.old shown.old log) (scene_of asker.new shown.new (W.log world.new)) }
    ensures waits { W.wait_faults world.old ≤ W.wait_faults world.new }
    ensures origin { W.origin world.new ≡ W.origin world.old }
{
    let is_hit = show_hit(alloc, shown, name, question, at)?;
    if is_hit {
        return Ok(LoopEnd::Completed);
    }
    send(alloc, asker, shown, world, name, Some(question))
}

/// Brings these names to their answers, one after the other, until a wait fails or no turn is left.
pub(crate) fn ask_all<W: World>(
    alloc: Global,
    asker: &mut Asker,
    shown: &mut Shown,
    world: &mut W,
    names: &[&str],
) -> Result<LoopEnd, NoMemory>
    requires idle { IsIdle asker.old.alone }
    ensures asks { (room : ℕ) (setting : Setting) (turns : ℕ) (began : Option (List WorldCall))
        → IsAt room setting turns [] began (scene_of asker.old shown.old (W.log world.old))
        → AsksAll result room setting turns (map (λ name. name.now) names.now) began
        (W.wait_faults world.old) (W.wait_faults world.new)
        (scene_of asker.new shown.new (W.log world.new)) }
    ensures waits { W.wait_faults world.old ≤ W.wait_faults world.new }
    ensures origin { W.origin world.new ≡ W.origin world.old }
{
    for name in names {
        match ask_one(alloc, asker, shown, world, name)? {
            LoopEnd::Completed => {}
            LoopEnd::WaitFault => return Ok(LoopEnd::WaitFault),
            LoopEnd::Stalled => return Ok(LoopEnd::Stalled),
        }
    }
    Ok(LoopEnd::Completed)
}
