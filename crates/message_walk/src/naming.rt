//! Whether the name at an offset is a certain one, read run by run (RFC 1035, section 4.1.4).

ghost use Rattle.std.specs.Prelude.{◌≡◌, ◌≤◌, ◌<◌, ◌≢◌, ◌↔◌, drop, length, IfErr, IfOk, IsTrue};
ghost use Rattle.dns_message.specs.Reading.{name_of};
ghost use Rattle.message_walk.specs.Matching.{SameBytes, agrees, is_front};
ghost use Rattle.message_walk.specs.Telling.{Tells};

use dns_message::{MessageFault, Name, RunEnd, run_at};

/// Whether the name at an offset is this one, byte for byte where `exact` is set, else ignoring ASCII case; and the offset
/// behind it.
pub fn name_is(
    bytes: &[u8],
    start: usize,
    name: &Name,
    exact: bool,
) -> Result<(bool, usize), MessageFault>
    ensures read { Tells (λ labels. agrees exact labels name.now) result (name_of bytes.now start) }
    ensures memory { IfErr result (λ fault. fault ≢ MessageFault.NoMemory) }
    ensures within { IfOk result (λ found. (start < found.1) × (found.1 ≤ length bytes.now)) }
{
    let wire = name.as_wire();
    let mut same = true;
    let mut taken = 1;
    let mut run = start;
    let mut after = None;
    loop {
        let found = run_at(bytes, start, run, taken)?;
        same &= stands_at(wire, taken - 1, &bytes[run..found.stop], exact);
        taken += found.stop - run;
        match found.end {
            RunEnd::Root { next } => {
                let is = same & (taken - 1 == wire.len());
                return Ok((is, after.unwrap_or(next)));
            }
            RunEnd::Pointer { at, target } => {
                if run <= target {
                    return Err(MessageFault::BadPointer(at as u64));
                }
                after = Some(after.unwrap_or(at + 2));
                run = target;
            }
        }
    }
}

/// The part stands in the wire form at an offset.
fn stands_at(wire: &[u8], at: usize, part: &[u8], exact: bool) -> bool
    ensures { result ≡ is_front exact part.now (drop at wire.now) }
{
    let rest = &wire[at.min(wire.len())..];
    part.len() <= rest.len() && same_bytes(&rest[..part.len()], part, exact)
}

/// The bytes are the same, byte for byte or ignoring ASCII case.
fn same_bytes(bytes: &[u8], others: &[u8], exact: bool) -> bool
    ensures { IsTrue result ↔ SameBytes exact bytes.now others.now }
{
    bytes == others || (!exact && bytes.eq_ignore_ascii_case(others))
}
