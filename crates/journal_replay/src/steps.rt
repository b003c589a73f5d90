//! Each kind of entry, made once more: the call of a channel's table that makes its like, and whether that is the entry.

ghost use Rattle.std.specs.Prelude.{◌≡◌, IfOk};
ghost use Rattle.std.specs.Bool.{then_some};
ghost use Rattle.chan_types.specs.declared.journal.What.TheVariants.{Accept, Arrive, Cancel, Destroy, Expire, Fault, Take};
ghost use Rattle.channel_table.specs.Tokens.{seen};
ghost use Rattle.journal_replay.specs.Replays.{Follows, IsBegun, start_of};

use crate::recorded::Recorded;
use chan_types::{NoMemory, Refusal, Script, Spec};
use channel_model::{Begun, Lapse};
use channel_table::Table;
use std::alloc::Global;

/// What a Start says.
#[derive(Clone, Copy, PartialEq, Eq)]
pub(crate) struct Attempt {
    pub(crate) number: u64,
    pub(crate) leg: u8,
    pub(crate) server: u32,
    pub(crate) link: u64,
    pub(crate) id: u16,
    pub(crate) mix: Option<u16>,
    pub(crate) moment: u64,
}

/// A request is accepted. It gets the next number, unless the channel was destroyed.
#[tactic(auto, using(crate::proofs::FollowLemmas::closed_refuses))]
pub(crate) fn accept(
    alloc: Global,
    table: &mut Table<Recorded>,
    number: u64,
    spec: &Spec,
    script: &Script,
) -> Result<bool, NoMemory>
    ensures { IfOk result (Follows (Accept number spec.now script.now) (seen table.old) (seen table.new)) }
{
    let spec = spec.copy(alloc)?;
    let token = Recorded {
        script: script.copy(alloc)?,
    };
    match table.accept(0, 0, spec, token) {
        Ok(given) => Ok(given == number),
        Err(refused) => match refused.why {
            Refusal::Closed => Ok(false),
            Refusal::NoMemory => Err(NoMemory),
        },
    }
}

/// All pending requests are cancelled, if there are some.
pub(crate) fn cancel(table: &mut Table<Recorded>) -> bool
    ensures { Follows Cancel (seen table.old) (seen table.new) result }
{
    table.cancel(0, 0) != 0
}

/// The channel is destroyed, if it wasn't yet.
pub(crate) fn destroy(table: &mut Table<Recorded>) -> bool
    ensures { Follows Destroy (seen table.old) (seen table.new) result }
{
    table.destroy(0, 0)
}

/// The first ready request is taken.
#[tactic(auto, using(crate::proofs::FollowLemmas::untaken_refuses))]
pub(crate) fn take(table: &mut Table<Recorded>, number: u64) -> bool
    ensures { Follows (Take number) (seen table.old) (seen table.new) result }
{
    match table.take(0) {
        Some(ticket) => ticket.number() == number,
        None => false,
    }
}

/// An attempt begins, of the first leg that waits. Its identifier is also the word from which the table looks for a free
/// one: it is free exactly where the table takes it.
pub(crate) fn start(
    table: &mut Table<Recorded>,
    draws: bool,
    attempt: Attempt,
    word: u16,
) -> Result<bool, NoMemory>
    requires draws { draws ≡ table.old.setting.options.flags.mix }
    requires word { word ≡ attempt.id }
    ensures { IfOk result (Follows (start_of attempt) (seen table.old) (seen table.new)) }
{
    let bits = attempt.mix.unwrap_or(0);
    let begun = table.start(0, word, bits, attempt.moment)?;
    Ok(is_begun(&begun, attempt, draws, bits))
}

/// The attempt that was begun is this one, where these bits were handed over for its letters.
fn is_begun(begun: &Begun, attempt: Attempt, draws: bool, bits: u16) -> bool
    ensures { IsBegun attempt draws bits begun.now result }
{
    match begun {
        Begun::Started {
            number,
            leg,
            server,
            link,
            id,
            ..
        } => {
            let made = Attempt {
                number: *number,
                leg: *leg,
                server: *server,
                link: *link,
                id: *id,
                mix: drawn(draws && *link == 0, bits),
                moment: attempt.moment,
            };
            made == attempt
        }
        Begun::Idle | Begun::NoId => false,
    }
}

/// The bits, where they are drawn.
fn drawn(draws: bool, bits: u16) -> Option<u16>
    ensures { result ≡ then_some draws bits }
{
    if draws { Some(bits) } else { None }
}

/// A message comes. One may always come.
pub(crate) fn arrive(
    table: &mut Table<Recorded>,
    server: u32,
    link: u64,
    bytes: &[u8],
) -> Result<bool, NoMemory>
    ensures { IfOk result (Follows (Arrive server link bytes.now) (seen table.old) (seen table.new)) }
{
    let _landed = table.arrive(0, server, link, bytes)?;
    Ok(true)
}

/// The attempt expires that is due first, if it is due.
#[tactic(auto, using(crate::proofs::FollowLemmas::expired_other, crate::proofs::FollowLemmas::undue_refuses))]
pub(crate) fn expire(
    table: &mut Table<Recorded>,
    number: u64,
    leg: u8,
    moment: u64,
) -> Result<bool, NoMemory>
    ensures { IfOk result (Follows (Expire number leg moment) (seen table.old) (seen table.new)) }
{
    match table.expire(0, moment)? {
        Lapse::Expired {
            number: due,
            leg: due_leg,
        } => Ok(due == number && due_leg == leg),
        Lapse::NotDue => Ok(false),
    }
}

/// A link fails. One may always fail.
pub(crate) fn fault(
    table: &mut Table<Recorded>,
    server: u32,
    link: u64,
    moment: u64,
) -> Result<bool, NoMemory>
    ensures { IfOk result (Follows (Fault server link moment) (seen table.old) (seen table.new)) }
{
    let _failed = table.fault(0, server, link, moment)?;
    Ok(true)
}
