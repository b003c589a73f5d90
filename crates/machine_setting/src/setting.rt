//! What this machine's files set for a channel.

ghost use Rattle.std.specs.Prelude.{◌≡◌, ◌≤◌, IfOk, OnErr};
ghost use Rattle.net_world.specs.Logs.{LogGets};
ghost use Rattle.machine_setting.specs.Said.{AreFirstReads, IsSetBy, files_told};

use crate::said::{hosts_by, options_by};
use hosts_file::Hosts;
use item_list::NoMemory;
use net_world::Files;
use resolv_options::Options;
use std::alloc::Global;

/// The path of resolv.conf (resolv.conf(5)).
pub const RESOLV_PATH: &str = "/etc/resolv.conf";

/// The path of the hosts file (hosts(5)).
pub const HOSTS_PATH: &str = "/etc/hosts";

/// The most bytes of a resolv.conf (this project's profile).
const RESOLV_MOST: u64 = 65_536;

/// The most bytes of a hosts file (this project's profile).
const HOSTS_MOST: u64 = 4_194_304;

/// The options of `/etc/resolv.conf` and the lines of `/etc/hosts`, each read once. A file that is absent, can't be read or
/// is too large says nothing: the options are then the plain ones, or no host has an address. For want of memory both
/// may have been read, or the first alone, or none.
#[tactic(auto, using(crate::proofs::ReadLemmas::none_read))]
pub fn read_setting<F: Files>(alloc: Global, files: &mut F) -> Result<(Options, Hosts), NoMemory>
    ensures set { IfOk result (λ made. IsSetBy (files_told (F.files files.old) (F.faults files.old) (F.reads files.old))
        (files_told (F.files files.new) (F.faults files.new) (F.reads files.new)) made.0 made.1) }
    ensures files { F.files files.new ≡ F.files files.old }
    ensures faults { F.faults files.old ≤ F.faults files.new }
    ensures err { OnErr result (LogGets AreFirstReads (F.reads files.old) (F.reads files.new)) }
{
    let resolv = files.read(RESOLV_PATH, RESOLV_MOST)?;
    let hosts = files.read(HOSTS_PATH, HOSTS_MOST)?;
    Ok((options_by(alloc, &resolv)?, hosts_by(alloc, &hosts)?))
}
