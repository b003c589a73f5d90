//! The part of a turn that lets attempts expire.

ghost use Rattle.std.specs.Prelude.{List, Option};
ghost use Rattle.net_world.specs.declared.log.WorldCall.{WorldCall};
ghost use Rattle.channel_model.specs.Turn.{expiring};
ghost use Rattle.event_runner.specs.declared.kept.Kept.{Kept};
ghost use Rattle.event_runner.specs.State.{state_of};
ghost use Rattle.event_runner.specs.Goes.{Ends};
ghost use Rattle.event_runner.specs.Parts.{MakesPart, CutPart};

use channel_model::{Desk, Lapse};
use item_list::NoMemory;

/// The most attempts that one turn lets expire.
const MOST: u64 = 65_536;

/// Lets the attempts expire that are due at the reading. Answers how many that were.
pub fn expire_all<D: Desk>(desk: &mut D, reading: u64) -> Result<u64, NoMemory>
    ensures goes { (kept : Kept) (log : Option (List WorldCall))
        → Ends (λ count. MakesPart reading expiring 0 count 0) (CutPart reading expiring) result
        (state_of (D.known desk.old) kept log) (state_of (D.known desk.new) kept log) }
{
    for expired in 0..MOST {
        match desk.expire(reading)? {
            Lapse::Expired { .. } => {}
            Lapse::NotDue => return Ok(expired),
        }
    }
    Ok(MOST)
}
