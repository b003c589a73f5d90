//! The policy table (RFC 6724, section 2.1).
ghost use Rattle.std.specs.Prelude.{◌≡◌, ◌≤◌, if◌then◌else◌, All, fold, filter};
ghost use Rattle.net_addr.specs.Mapped.{mapped as mapped_of};
ghost use Rattle.dest_sorting.specs.Policy.{policy_of as policy_of_bits, covers as covers_bits, longer as longer_row, everything};

use net_addr::Addr;

/// A row of the policy table: the addresses with a prefix of so many bits, their precedence and their label.
#[derive(Clone, Copy)]
pub struct Policy {
    pub prefix: u128,
    pub bits: u32,
    pub precedence: u8,
    pub label: u8,
}

/// The row of ::/0, which every address has.
const EVERYTHING: Policy = Policy {
    prefix: 0,
    bits: 0,
    precedence: 40,
    label: 1,
};

/// The row of ::ffff:0:0/96, the longest prefix that an IPv4 address has.
const MAPPED: Policy = Policy {
    prefix: 0xffff << 32,
    bits: 96,
    precedence: 35,
    label: 4,
};

/// The default policy table.
const TABLE: [Policy; 9] = [
    // ::1/128
    Policy {
        prefix: 1,
        bits: 128,
        precedence: 50,
        label: 0,
    },
    // ::/0
    Policy {
        prefix: 0,
        bits: 0,
        precedence: 40,
        label: 1,
    },
    // ::ffff:0:0/96
    MAPPED,
    // 2002::/16
    Policy {
        prefix: 0x2002 << 112,
        bits: 16,
        precedence: 30,
        label: 2,
    },
    // 2001::/32
    Policy {
        prefix: 0x2001 << 112,
        bits: 32,
        precedence: 5,
        label: 5,
    },
    // fc00::/7
    Policy {
        prefix: 0xfc00 << 112,
        bits: 7,
        precedence: 3,
        label: 13,
    },
    // ::/96
    Policy {
        prefix: 0,
        bits: 96,
        precedence: 1,
        label: 3,
    },
    // fec0::/10
    Policy {
        prefix: 0xfec0 << 112,
        bits: 10,
        precedence: 1,
        label: 11,
    },
    // 3ffe::/16
    Policy {
        prefix: 0x3ffe << 112,
        bits: 16,
        precedence: 1,
        label: 12,
    },
];

/// The row of the longest prefix that an address has.
pub fn policy_of(address: Addr) -> Policy
    ensures { result ≡ policy_of_bits (mapped_of address) }
{
    match address {
        Addr::V4(_) => MAPPED,
        Addr::V6(bits) => longest(bits, &TABLE),
    }
}

/// Of the rows whose prefix the address has, that with the longest.
fn longest(address: u128, rows: &[Policy]) -> Policy
    requires { All (λ row. row.bits ≤ 128) rows.now }
    ensures { result ≡ fold longer_row everything (filter (covers_bits address) rows.now) }
{
    let mut best = EVERYTHING;
    for row in rows {
        best = longer(address, best, *row);
    }
    best
}

/// The row with the longer prefix, if the address has that prefix.
fn longer(address: u128, best: Policy, policy: Policy) -> Policy
    requires { policy.bits ≤ 128 }
    ensures { result ≡ (if covers_bits address policy then longer_row best policy else best) }
{
    if covers(address, policy) && best.bits < policy.bits {
        policy
    } else {
        best
    }
}

/// Whether the address has the row's prefix.
fn covers(address: u128, policy: Policy) -> bool
    requires { policy.bits ≤ 128 }
    ensures { result ≡ covers_bits address policy }
{
    policy.bits == 0 || address >> (128 - policy.bits) == policy.prefix >> (128 - policy.bits)
}
