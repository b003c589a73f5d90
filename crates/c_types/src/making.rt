//! A channel by the texts of resolv.conf and of a hosts file.

ghost use Rattle.std.specs.Prelude.{List, ℕ, ◌≡◌, ◌≤◌, IfErr, IfOk, OnOk, length};
ghost use Rattle.hosts_file.specs.File.{hosts_of};
ghost use Rattle.resolv_options.specs.Resolv.{resolv_values};
ghost use Rattle.c_types.specs.Faults.{HasCause};
ghost use Rattle.c_types.specs.declared.making.MakeFault.TheVariants as make_fault;

use hosts_file::{Hosts, HostsFault};
use item_list::NoMemory;
use resolv_options::{Options, ResolvFault, read_resolv};
use std::alloc::Global;

/// Why no channel can be made.
#[derive(Drop)]
pub enum MakeFault {
    /// The text of resolv.conf has more than 65,536 bytes.
    LargeResolv,
    /// The text of the hosts file has more than 4,194,304 bytes.
    LargeHosts,
    NoMemory,
}

impl From<NoMemory> for MakeFault {
    ghost from_gives = { λ _ fault. fault ≡ make_fault.NoMemory };

    fn from(_: NoMemory) -> MakeFault {
        MakeFault::NoMemory
    }
}

/// The options that a resolv.conf sets, and the defaults of all others.
pub fn options_of(alloc: Global, resolv: &[u8]) -> Result<Options, MakeFault>
    ensures read { IfOk result (λ options. options ≡ resolv_values resolv.now) }
    ensures fits { OnOk result (length resolv.now ≤ 65536) }
    ensures cause { (hosts : List ℕ) → IfErr result (HasCause resolv.now hosts) }
{
    match read_resolv(alloc, resolv) {
        Ok(options) => Ok(options),
        Err(ResolvFault::TooLarge) => Err(MakeFault::LargeResolv),
        Err(ResolvFault::NoMemory) => Err(MakeFault::NoMemory),
    }
}

/// The lines of a hosts file.
pub fn lines_of(alloc: Global, hosts: &[u8]) -> Result<Hosts, MakeFault>
    ensures read { IfOk result (λ lines. lines ≡ hosts_of hosts.now) }
    ensures fits { OnOk result (length hosts.now ≤ 4194304) }
    ensures cause { (resolv : List ℕ) → length resolv ≤ 65536
        → IfErr result (HasCause resolv hosts.now) }
{
    match Hosts::read(alloc, hosts) {
        Ok(lines) => Ok(lines),
        Err(HostsFault::TooLarge) => Err(MakeFault::LargeHosts),
        Err(HostsFault::NoMemory) => Err(MakeFault::NoMemory),
    }
}
