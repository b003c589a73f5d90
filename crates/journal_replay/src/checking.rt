//! Whether a journal is lawful.

ghost use Rattle.std.specs.Prelude.{◌≡◌, ◌≤◌, ◌↔◌, [], IfOk, length};
ghost use Rattle.channel_model.specs.Lawful.{IsLawful};
ghost use Rattle.journal_replay.specs.Checks.{IsWhere, setting_of};
ghost use Rattle.journal_replay.specs.Kept.{IsKept};
ghost use Rattle.journal_replay.specs.declared.checking.Checked.TheVariants.{Lawful};

use crate::replay::Replay;
use chan_types::{Entry, NoMemory};
use resolv_options::Options;
use std::alloc::Global;

/// What a check of a journal comes to.
#[derive(Clone, Copy, Debug, PartialEq, Eq)]
pub enum Checked {
    /// Each entry is allowed where it stands.
    Lawful,
    /// The entry at this position, from 0, is the first that isn't allowed where it stands.
    Unlawful(u64),
}

/// Whether the journal is lawful for a channel with these options and the hosts file of these bytes, or else which
/// entry is the first that isn't allowed. It goes over the entries once, and stops at that one.
pub fn check(
    alloc: Global,
    options: &Options,
    hosts: &[u8],
    journal: &[Entry],
) -> Result<Checked, NoMemory>
    requires few { length hosts.now ≤ 4194304 }
    ensures lawful { IfOk result (λ checked.
        (checked ≡ Lawful) ↔ IsLawful (setting_of options.now hosts.now) journal.now) }
    ensures first { IfOk result (IsWhere (setting_of options.now hosts.now) journal.now) }
{
    let mut replay = Replay::make(alloc, options, hosts)?;
    first_unlawful(&mut replay, journal)
}

/// Which entry of the journal is the first that isn't allowed where it stands, if one isn't: by a replay in which nothing
/// has happened yet. A loop beside the replay that it goes through takes minutes to prove, so the replay is lent here.
fn first_unlawful(replay: &mut Replay, journal: &[Entry]) -> Result<Checked, NoMemory>
    requires empty { replay.old.table.journal ≡ [] }
    requires kept { IsKept replay.old }
    ensures lawful { IfOk result (λ checked.
        (checked ≡ Lawful) ↔ IsLawful replay.old.table.setting journal.now) }
    ensures first { IfOk result (IsWhere replay.old.table.setting journal.now) }
{
    for index in 0..journal.len() {
        if !replay.follow(&journal[index].what)? {
            return Ok(Checked::Unlawful(index as u64));
        }
    }
    Ok(Checked::Lawful)
}
