//! What an OPT record says (RFC 6891, sections 6.1.2 and 6.1.3).

ghost use Rattle.std.specs.Prelude.{◌≤◌, ◌↔◌, length, IsTrue};
ghost use Rattle.edns_opt.specs.Options.{spelling};

use item_list::{Bytes, ItemList};

/// The most bytes of rdata: what its 16 bits of length can count (RFC 1035, section 3.2.1).
const RDATA_MOST: usize = 65_535;

/// The bytes of an option before its content: its code and its length.
const OPTION_FRONT: usize = 4;

/// The bit DO, the highest of the 16 flags, in the byte that it stands in (RFC 6891, section 6.1.4).
pub(crate) const DO_BIT: u8 = 0x80;

/// An option: its code and its content (RFC 6891, section 6.1.2).
#[derive(Debug, Drop, PartialEq)]
pub struct EdnsItem {
    pub code: u16,
    pub content: Bytes,
}

/// A list of options.
pub type OptionList = ItemList<EdnsItem>;

/// What an OPT record says (RFC 6891, sections 6.1.2 and 6.1.3).
#[derive(Debug, Drop, PartialEq)]
pub struct Opt {
    /// The largest UDP payload that its sender takes, in bytes.
    pub size: u16,
    /// The upper eight bits of the response code.
    pub ext_rcode: u8,
    /// The version of EDNS; RFC 6891 defines version 0.
    pub version: u8,
    /// Whether its sender takes DNSSEC records (the bit DO of RFC 3225).
    pub do_bit: bool,
    pub options: OptionList,
}

impl Opt {
    /// Whether its options can be written: their rdata has at most 65,535 bytes.
    pub fn fits(&self) -> bool
        ensures { IsTrue result ↔ (length (spelling self.now.options) ≤ 65535) }
    {
        let mut left = RDATA_MOST;
        for item in self.options.as_slice() {
            let len = item.content.len();
            if left < OPTION_FRONT || left - OPTION_FRONT < len {
                return false;
            }
            left -= OPTION_FRONT + len;
        }
        true
    }
}
