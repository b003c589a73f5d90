//! How far an address reaches (RFC 6724, section 3; RFC 4291, section 2.7).
ghost use Rattle.std.specs.Prelude.{◌≡◌};
ghost use Rattle.net_addr.specs.Scope.{scope as scope_of, scope_v4 as scope_of_v4, scope_v6 as scope_of_v6};

use crate::addr::Addr;

/// Link-local scope: one link, or the machine itself.
const LINK_LOCAL: u8 = 2;

/// Site-local scope (RFC 3879 took these addresses out of use; sorting still knows them).
const SITE_LOCAL: u8 = 5;

/// Global scope.
const GLOBAL: u8 = 14;

/// The scope of an address, as a number of RFC 4291's multicast scopes.
pub fn scope(address: Addr) -> u8
    ensures { result ≡ scope_of address }
{
    match address {
        Addr::V4(bits) => scope_v4(bits),
        Addr::V6(bits) => scope_v6(bits),
    }
}

fn scope_v4(bits: u32) -> u8
    ensures { result ≡ scope_of_v4 bits }
{
    if bits >> 16 == 0xa9fe || bits >> 24 == 0x7f {
        LINK_LOCAL
    } else {
        GLOBAL
    }
}

fn scope_v6(bits: u128) -> u8
    ensures { result ≡ scope_of_v6 bits }
{
    if bits >> 120 == 0xff {
        (bits >> 112 & 0xf) as u8
    } else if bits >> 118 == 0xfe80 >> 6 || bits == 1 {
        LINK_LOCAL
    } else if bits >> 118 == 0xfec0 >> 6 {
        SITE_LOCAL
    } else if bits >> 32 == 0xffff {
        scope_v4((bits & 0xffff_ffff) as u32)
    } else {
        GLOBAL
    }
}
