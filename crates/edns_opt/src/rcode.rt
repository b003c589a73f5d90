//! The response code that an OPT record extends.

ghost use Rattle.std.specs.Prelude.{◌≡◌};
ghost use Rattle.std.specs.Option.{option_copied};
ghost use Rattle.edns_opt.specs.Opt.{rcode_of};

use crate::opt::Opt;
use dns_message::Message;

/// The response code: four bits of the header, and above them eight of the OPT record (RFC 6891, section 6.1.3).
pub fn full_rcode(message: &Message, opt: Option<&Opt>) -> u16
    ensures { result ≡ rcode_of message.now (option_copied opt.entry) }
{
    let low = message.flags % 16;
    match opt {
        None => low,
        Some(opt) => opt.ext_rcode as u16 * 16 + low,
    }
}
