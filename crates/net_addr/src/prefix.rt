//! How many leading bits two addresses share (RFC 6724, section 2.2).
ghost use Rattle.std.specs.Prelude.{◌≡◌};
ghost use Rattle.net_addr.specs.Prefix.{common_prefix as shared_bits};

/// How many bits are counted: those of the network, not of the interface. This is our own rule, and that of
/// RFC 6724 where a prefix has 64 bits.
const NETWORK_BITS: u32 = 64;

/// How many leading bits are equal, counted to 64.
pub fn common_prefix(left: u128, right: u128) -> u32
    ensures { result ≡ shared_bits left right }
{
    (left ^ right).leading_zeros().min(NETWORK_BITS)
}
