//! What a request of a stored journal came to.

ghost use Rattle.std.specs.Prelude.{◌≡◌, ◌≤◌, [], IfOk, None, length};
ghost use Rattle.channel_model.specs.Completion.{fate, occurrences, taken};
ghost use Rattle.channel_model.specs.Journal.{past_of};
ghost use Rattle.channel_model.specs.Lawful.{IsAllowed, IsLawful};
ghost use Rattle.channel_table.specs.Tokens.{seen};
ghost use Rattle.journal_replay.specs.Checks.{setting_of};
ghost use Rattle.journal_replay.specs.Fates.{Passes};
ghost use Rattle.journal_replay.specs.Kept.{IsKept};

use crate::replay::Replay;
use chan_types::{Answer, Entry, NoMemory, What};
use resolv_options::Options;
use std::alloc::Global;

/// The answer of the request with this number in a lawful journal of a channel with these options and the hosts file of
/// these bytes: nothing where it hasn't completed, or there is no such request.
pub fn fate_of(
    alloc: Global,
    options: &Options,
    hosts: &[u8],
    journal: &[Entry],
    number: u64,
) -> Result<Option<Answer>, NoMemory>
    requires few { length hosts.now ≤ 4194304 }
    requires lawful { IsLawful (setting_of options.now hosts.now) journal.now }
    ensures { IfOk result (λ answer. answer
        ≡ fate (setting_of options.now hosts.now) number (past_of journal.now)) }
{
    let mut replay = Replay::make(alloc, options, hosts)?;
    replayed_answer(alloc, &mut replay, journal, number)
}

/// The answer of the request with this number in a lawful journal: by a replay in which nothing has happened yet. The
/// replay is lent here, as in `first_unlawful`.
fn replayed_answer(
    alloc: Global,
    replay: &mut Replay,
    journal: &[Entry],
    number: u64,
) -> Result<Option<Answer>, NoMemory>
    requires empty { replay.old.table.journal ≡ [] }
    requires kept { IsKept replay.old }
    requires lawful { IsLawful replay.old.table.setting journal.now }
    ensures { IfOk result (λ answer. answer
        ≡ fate replay.old.table.setting number (past_of journal.now)) }
{
    for index in 0..journal.len() {
        match next(alloc, replay, &journal[index].what, number)? {
            Some(answer) => return Ok(Some(answer)),
            None => {}
        }
    }
    ready_answer(alloc, replay, number)
}

/// Makes an entry once more that is allowed, unless it takes the request with this number: then the request's answer.
fn next(
    alloc: Global,
    replay: &mut Replay,
    what: &What,
    number: u64,
) -> Result<Option<Answer>, NoMemory>
    requires kept { IsKept replay.old }
    requires allowed { IsAllowed replay.old.table.setting (past_of replay.old.table.journal) what.now }
    ensures passes { IfOk result (Passes number what.now (seen replay.old.table) (seen replay.new.table)) }
    ensures kept { IfOk result (λ answer. answer ≡ None → IsKept replay.new) }
{
    match what {
        What::Take { number: taken } if *taken == number => match replay.take() {
            Some(ticket) => Ok(Some(ticket.answer().copy(alloc)?)),
            None => Ok(None),
        },
        other => {
            replay.follow(other)?;
            Ok(None)
        }
    }
}

/// The answer of the request with this number, which wasn't taken, if it is ready.
fn ready_answer(alloc: Global, replay: &mut Replay, number: u64) -> Result<Option<Answer>, NoMemory>
    requires untaken { occurrences number (taken (past_of replay.old.table.journal)) ≡ 0 }
    ensures { IfOk result (λ answer. answer
        ≡ fate replay.old.table.setting number (past_of replay.old.table.journal)) }
{
    while let Some(ticket) = replay.take() {
        if ticket.number() == number {
            return Ok(Some(ticket.answer().copy(alloc)?));
        }
    }
    Ok(None)
}
