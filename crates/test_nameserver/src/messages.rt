//! The messages that stand in what a link carries (RFC 1035, section 4.2.2).

ghost use Rattle.std.specs.Prelude.{◌≡◌, map, option_map, IfOk};
ghost use Rattle.test_nameserver.specs.Peer as meaning;
ghost use Rattle.test_nameserver.specs.Seen.{seen, messages_seen};

use item_list::NoMemory;
use std::alloc::Global;

/// The message that stands whole in front of what a link carries, and what stands behind it.
pub fn first_message(bytes: &[u8]) -> Option<(&[u8], &[u8])>
    ensures { meaning.first_message bytes.now ≡ option_map seen result }
{
    let [high, low, rest @ ..] = bytes else {
        return None;
    };
    let len = *high as usize * 256 + *low as usize;
    if rest.len() < len {
        return None;
    }
    Some(rest.split_at(len))
}

/// The messages that stand whole in front of what a link carries, and what stands behind them.
pub(crate) fn messages_in<'a>(
    alloc: Global,
    bytes: &'a [u8],
) -> Result<(Vec<&'a [u8]>, &'a [u8]), NoMemory>
    ensures { IfOk result (λ found. messages_seen found ≡ meaning.messages_in bytes.now) }
{
    let mut messages = Vec::new(alloc);
    let mut rest = bytes;
    while let Some((message, behind)) = first_message(rest) {
        messages.push(message)?;
        rest = behind;
    }
    Ok((messages, rest))
}
