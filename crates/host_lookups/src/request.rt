//! What is asked for a host.

ghost use Rattle.std.specs.Prelude.{◌≡◌, IfOk};
ghost use Rattle.host_lookups.specs.Answered.{addresses_of};

use chan_types::Spec;
use item_list::{Bytes, NoMemory};
use net_addr::Family;
use std::alloc::Global;

/// The request for a host's addresses of both families, in the order in which to try them.
pub fn request_for(alloc: Global, host: &str) -> Result<Spec, NoMemory>
    ensures { IfOk result (λ spec. spec ≡ addresses_of host.now) }
{
    Ok(Spec::Address {
        host: Bytes::of(alloc, host.as_bytes())?,
        family: Family::Any,
        nosort: false,
    })
}
