//! For how long an answer may be kept (RFC 1035, sections 3.2.1 and 7.4).

ghost use Rattle.std.specs.Prelude.{◌≡◌, IfOk};
ghost use Rattle.query_cache.specs.Lifetime as meaning;

use chan_types::Answer;
use dns_message::{MessageFault, NoMemory, Record, decode};
use std::alloc::Global;

/// For how many seconds the answer may be kept: the least ttl of its message's answers, where its status is Success.
/// It is 0 where the answer may not be kept.
pub(crate) fn lifetime(alloc: Global, answer: &Answer) -> Result<u32, NoMemory>
    ensures { IfOk result (λ seconds. seconds ≡ meaning.lifetime answer.now) }
{
    if answer.status.code() != 0 {
        return Ok(0);
    }
    match decode(alloc, answer.message.as_slice()) {
        Ok(message) => Ok(least_ttl(message.answers.as_slice())),
        Err(MessageFault::NoMemory) => Err(NoMemory),
        Err(_) => Ok(0),
    }
}

/// The least of the records' ttls, in seconds; 0 where there is no record.
fn least_ttl(records: &[Record]) -> u32
    ensures { result ≡ meaning.least_ttl records.now }
{
    let Some((first, others)) = records.split_first() else {
        return 0;
    };
    let mut least = first.ttl;
    for other in others {
        least = least.min(other.ttl);
    }
    least
}
