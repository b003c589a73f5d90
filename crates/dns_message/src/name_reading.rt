//! Reading a name of a message: runs of labels, each ended by the root's zero byte or by a pointer
//! (RFC 1035, section 4.1.4).

ghost use Rattle.std.specs.Prelude.{◌≡◌, ℕ, List, ◌+◌, ◌-◌, ◌<◌, ◌≤◌, ◌≢◌, ◌++◌, Ok, Err, length, slice_range, IfErr, IfOk, MatchResult};
ghost use Rattle.dns_message.specs.Reading.{EndsWithin, Gives, byte_at, label_end, run_of, name_of};
ghost use Rattle.dns_message.specs.Name.{wire_length};
ghost use Rattle.dns_message.specs.Spelling.{name_bytes};
ghost use Rattle.dns_message.specs.Wire.{IsWire, labels_in};

use crate::fault::MessageFault;
use crate::name::{LABEL_MOST, NAME_MOST, Name};
use std::alloc::Global;

/// The least length byte that begins a pointer.
const POINTER_LEAST: usize = 192;

/// How a run of labels ends: with the root's zero byte, behind which is `next`, or with a pointer at `at` to `target`.
#[derive(Clone, Copy)]
pub enum RunEnd {
    Root { next: usize },
    Pointer { at: usize, target: usize },
}

/// A run: where its labels end, how many they are, and how it ends.
#[derive(Clone, Copy)]
pub struct Run {
    pub stop: usize,
    pub count: usize,
    pub end: RunEnd,
}

/// The offset behind the label whose length byte is at an offset. The name begins at `start`, and has taken so many
/// bytes, the root's byte among them.
fn end_of_label(bytes: &[u8], start: usize, at: usize, taken: usize) -> Result<usize, MessageFault>
    requires at { at < length bytes.now }
    requires taken { taken ≤ 255 }
    ensures read { MatchResult result
        (λ next. (front : List (List ℕ)) → wire_length front ≡ taken
        → label_end bytes.now start at front ≡ Ok next)
        (λ fault. (front : List (List ℕ)) → wire_length front ≡ taken
        → label_end bytes.now start at front ≡ Err fault) }
    ensures memory { IfErr result (λ fault. fault ≢ MessageFault.NoMemory) }
    ensures end { IfOk result (λ end. end ≡ at + 1 + byte_at bytes.now at) }
    ensures within { IfOk result (λ end. end ≤ length bytes.now) }
    ensures label { IfOk result (λ end. (1 ≤ byte_at bytes.now at) × (byte_at bytes.now at ≤ 63)) }
    ensures room { IfOk result (λ end. taken + (end - at) ≤ 255) }
{
    let len = bytes[at] as usize;
    if len == 0 || len > LABEL_MOST {
        return Err(MessageFault::BadLabel(at as u64));
    }
    if bytes.len() - at - 1 < len {
        return Err(MessageFault::ShortPart(start as u64));
    }
    if taken + len + 1 > NAME_MOST {
        return Err(MessageFault::LongName(start as u64));
    }
    Ok(at + 1 + len)
}

/// The run at an offset, of the name that begins at `start` and has taken so many bytes, the root's byte among them.
pub fn run_at(bytes: &[u8], start: usize, run: usize, taken: usize) -> Result<Run, MessageFault>
    requires { (1 ≤ taken) × (taken ≤ 255) }
    ensures read { MatchResult result
        (λ found. (front : List (List ℕ)) → wire_length front ≡ taken
        → run_of bytes.now start run front
        ≡ Ok (front ++ labels_in (slice_range bytes.now run found.stop), found.end))
        (λ fault. (front : List (List ℕ)) → wire_length front ≡ taken
        → run_of bytes.now start run front ≡ Err fault) }
    ensures memory { IfErr result (λ fault. fault ≢ MessageFault.NoMemory) }
    ensures taken { IfOk result (λ found. (front : List (List ℕ)) → wire_length front ≡ taken
        → wire_length (front ++ labels_in (slice_range bytes.now run found.stop))
        ≡ taken + (found.stop - run)) }
    ensures end { IfOk result (λ found. EndsWithin run (length bytes.now) found.end) }
    ensures from { IfOk result (λ found. run ≤ found.stop) }
    ensures within { IfOk result (λ found. found.stop < length bytes.now) }
    ensures wire { IfOk result (λ found. IsWire (slice_range bytes.now run found.stop) found.count) }
    ensures room { IfOk result (λ found. taken + (found.stop - run) ≤ 255) }
{
    let mut at = run;
    let mut count = 0;
    while at < bytes.len() {
        let len = bytes[at] as usize;
        if len == 0 {
            let end = RunEnd::Root { next: at + 1 };
            return Ok(Run {
                stop: at,
                count,
                end,
            });
        }
        if len >= POINTER_LEAST {
            if bytes.len() - at < 2 {
                return Err(MessageFault::ShortPart(start as u64));
            }
            let target = (len - POINTER_LEAST) * 256 + bytes[at + 1] as usize;
            let end = RunEnd::Pointer { at, target };
            return Ok(Run {
                stop: at,
                count,
                end,
            });
        }
        at = end_of_label(bytes, start, at, taken + (at - run))?;
        count += 1;
    }
    Err(MessageFault::ShortPart(start as u64))
}

/// Adds the run's labels to the name that begins at `start`.
fn add_run(bytes: &[u8], start: usize, run: usize, name: &mut Name) -> Result<RunEnd, MessageFault>
    ensures read { MatchResult result
        (λ end. run_of bytes.now start run name.old ≡ Ok (name.new, end))
        (λ fault. fault ≢ MessageFault.NoMemory → run_of bytes.now start run name.old ≡ Err fault) }
    ensures end { IfOk result (λ end. EndsWithin run (length bytes.now) end) }
{
    let found = run_at(bytes, start, run, name.wire_len())?;
    name.append_wire(&bytes[run..found.stop], found.count)?;
    Ok(found.end)
}

/// The name at an offset, and the offset behind its own bytes. A pointer's target is before the run that it ends,
/// so there are no loops.
pub(crate) fn name_at(
    alloc: Global,
    bytes: &[u8],
    start: usize,
) -> Result<(Name, usize), MessageFault>
    ensures read { Gives result (name_of bytes.now start) }
    ensures within { IfOk result (λ found. (start < found.1) × (found.1 ≤ length bytes.now)) }
{
    let mut name = Name::root(alloc);
    let mut run = start;
    let mut after = None;
    loop {
        match add_run(bytes, start, run, &mut name)? {
            RunEnd::Root { next } => return Ok((name, after.unwrap_or(next))),
            RunEnd::Pointer { at, target } => {
                if target >= run {
                    return Err(MessageFault::BadPointer(at as u64));
                }
                after = Some(after.unwrap_or(at + 2));
                run = target;
            }
        }
    }
}

/// The offset behind the name at an offset, which is read as it is to be made, but takes no memory.
pub fn name_end(bytes: &[u8], start: usize) -> Result<usize, MessageFault>
    ensures read { MatchResult result
        (λ next. (labels : List (List ℕ)) × (name_of bytes.now start ≡ Ok (labels, next)))
        (λ fault. name_of bytes.now start ≡ Err fault) }
    ensures memory { IfErr result (λ fault. fault ≢ MessageFault.NoMemory) }
    ensures within { IfOk result (λ next. (start < next) × (next ≤ length bytes.now)) }
{
    let mut taken = 1;
    let mut run = start;
    let mut after = None;
    loop {
        let found = run_at(bytes, start, run, taken)?;
        taken += found.stop - run;
        match found.end {
            RunEnd::Root { next } => return Ok(after.unwrap_or(next)),
            RunEnd::Pointer { at, target } => {
                if run <= target {
                    return Err(MessageFault::BadPointer(at as u64));
                }
                after = Some(after.unwrap_or(at + 2));
                run = target;
            }
        }
    }
}

/// Adds the name at an offset without pointers, with the root's zero byte, and gives the offset behind the name's own
/// bytes.
pub(crate) fn name_onto(
    bytes: &[u8],
    start: usize,
    out: &mut Vec<u8>,
) -> Result<usize, MessageFault>
    ensures read { MatchResult result
        (λ next. (labels : List (List ℕ)) × (name_of bytes.now start ≡ Ok (labels, next))
        × (out.new.items ≡ out.old.items ++ name_bytes labels))
        (λ fault. fault ≢ MessageFault.NoMemory → name_of bytes.now start ≡ Err fault) }
    ensures within { IfOk result (λ next. (start < next) × (next ≤ length bytes.now)) }
{
    let mut taken = 1;
    let mut run = start;
    let mut after = None;
    loop {
        let found = run_at(bytes, start, run, taken)?;
        out.extend_from_slice(&bytes[run..found.stop])?;
        taken += found.stop - run;
        match found.end {
            RunEnd::Root { next } => {
                out.push(0)?;
                return Ok(after.unwrap_or(next));
            }
            RunEnd::Pointer { at, target } => {
                if run <= target {
                    return Err(MessageFault::BadPointer(at as u64));
                }
                after = Some(after.unwrap_or(at + 2));
                run = target;
            }
        }
    }
}
