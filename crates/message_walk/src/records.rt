//! What one record says (RFC 1035, section 4.1.3).

ghost use Rattle.std.specs.Prelude.{◌≡◌, ◌≤◌, ◌≢◌, [], ◌∷◌, length, IfErr, IfOk};
ghost use Rattle.dns_message.specs.Reading.{record_of};
ghost use Rattle.message_walk.specs.Sections.{section_of, wanted_by};
ghost use Rattle.message_walk.specs.Telling.{Tells};

use crate::fields::{part_at, u16_in, u32_in};
use crate::options::opt_by;
use crate::rdata::check_rdata;
use crate::sections::Section;
use dns_message::numbers::CLASS_IN;
use dns_message::{MessageFault, name_end, shape_of};

/// The length of a record's kind, class, ttl and length of rdata.
const FIXED_LEN: usize = 10;

/// What the record at an offset says, and the offset behind it.
#[tactic(auto, unfolding(dns_message::specs::Reading::record_of))]
pub fn record_told(
    bytes: &[u8],
    at: usize,
    wanted: Option<u16>,
) -> Result<(Section, usize), MessageFault>
    requires { at ≤ length bytes.now }
    ensures read { Tells (λ rr. section_of wanted (rr ∷ [])) result (record_of bytes.now at) }
    ensures memory { IfErr result (λ fault. fault ≢ MessageFault.NoMemory) }
    ensures end { IfOk result (λ found. found.1 ≤ length bytes.now) }
{
    let fixed_at = name_end(bytes, at)?;
    let fixed = part_at(bytes, fixed_at, FIXED_LEN)?;
    let (kind, class) = (u16_in(fixed, 0), u16_in(fixed, 2));
    let len = u16_in(fixed, 8) as usize;
    let rdata_at = fixed_at + FIXED_LEN;
    let rdata = part_at(bytes, rdata_at, len)?;
    check_rdata(bytes, rdata_at, len, shape_of(kind, class))?;
    let told = Section {
        wanted: is_wanted(kind, class, wanted),
        opt: opt_by(kind, u32_in(fixed, 4), rdata),
    };
    Ok((told, rdata_at + len))
}

/// A record of this kind and class is wanted.
fn is_wanted(kind: u16, class: u16, wanted: Option<u16>) -> bool
    ensures { result ≡ wanted_by wanted kind class }
{
    match wanted {
        None => true,
        Some(wanted) => kind == wanted && class == CLASS_IN,
    }
}
