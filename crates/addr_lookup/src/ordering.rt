//! The order in which a caller gets addresses.

ghost use Rattle.std.specs.Prelude.{◌≡◌, IfOk, if◌then◌else◌};
ghost use Rattle.channel_model.specs.Merge.{sorted};

use chan_types::{AddrList, NoMemory};
use dest_sorting::sort;
use resolv_options::Options;
use std::alloc::Global;

/// The addresses in the order in which they are to be tried (RFC 6724, section 6), or as they stand where the caller
/// wants them so.
pub(crate) fn ordered(
    alloc: Global,
    addresses: AddrList,
    options: &Options,
    nosort: bool,
) -> Result<AddrList, NoMemory>
    ensures { IfOk result (λ ordered. ordered
        ≡ (if nosort then addresses else sorted options.now.sources addresses)) }
{
    if nosort {
        return Ok(addresses);
    }
    let sorted = sort(alloc, addresses.as_slice(), options.sources().as_slice())?;
    Ok(sorted)
}
