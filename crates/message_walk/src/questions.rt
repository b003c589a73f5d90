//! Whether the question at an offset is a certain one (RFC 1035, section 4.1.2).

ghost use Rattle.std.specs.Prelude.{◌≤◌, ◌≢◌, length, IfErr, IfOk};
ghost use Rattle.dns_message.specs.Reading.{question_of};
ghost use Rattle.message_walk.specs.Matching.{repeats};
ghost use Rattle.message_walk.specs.Telling.{Tells};

use crate::fields::{part_at, u16_in};
use crate::naming::name_is;
use dns_message::{MessageFault, Question};

/// The length of a question's kind and class.
const FIXED_LEN: usize = 4;

/// Whether the question at an offset is this one, its name byte for byte where `exact` is set, else ignoring ASCII case; and
/// the offset behind it.
#[tactic(auto, unfolding(dns_message::specs::Reading::question_of))]
pub fn question_is(
    bytes: &[u8],
    at: usize,
    asked: &Question,
    exact: bool,
) -> Result<(bool, usize), MessageFault>
    ensures read { Tells (λ question. repeats exact question asked.now) result (question_of bytes.now at) }
    ensures memory { IfErr result (λ fault. fault ≢ MessageFault.NoMemory) }
    ensures end { IfOk result (λ found. found.1 ≤ length bytes.now) }
{
    let (same, fixed_at) = name_is(bytes, at, &asked.name, exact)?;
    let fixed = part_at(bytes, fixed_at, FIXED_LEN)?;
    let (kind, class) = (u16_in(fixed, 0), u16_in(fixed, 2));
    let is = same & (kind == asked.kind) & (class == asked.class);
    Ok((is, fixed_at + FIXED_LEN))
}
