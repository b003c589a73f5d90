//! What the files that were read say.

ghost use Rattle.std.specs.Prelude.{◌≡◌, IfOk};
ghost use Rattle.machine_setting.specs.Said as meaning;

use hosts_file::{Hosts, HostsFault};
use item_list::NoMemory;
use net_world::FileRead;
use resolv_options::{Options, ResolvFault, read_resolv};
use std::alloc::Global;

/// The options that a resolv.conf sets. One that is absent, can't be read or is too large sets nothing.
pub fn options_by(alloc: Global, file: &FileRead) -> Result<Options, NoMemory>
    ensures { IfOk result (λ options. options ≡ meaning.options_by file.now) }
{
    match file {
        FileRead::Content(bytes) => match read_resolv(alloc, bytes.as_slice()) {
            Ok(options) => Ok(options),
            Err(ResolvFault::TooLarge) => Options::plain(alloc),
            Err(ResolvFault::NoMemory) => Err(NoMemory),
        },
        FileRead::Absent | FileRead::Large | FileRead::Failed => Options::plain(alloc),
    }
}

/// What a hosts file says. One that is absent, can't be read or is too large says nothing.
pub fn hosts_by(alloc: Global, file: &FileRead) -> Result<Hosts, NoMemory>
    ensures { IfOk result (λ hosts. hosts ≡ meaning.hosts_by file.now) }
{
    match file {
        FileRead::Content(bytes) => match Hosts::read(alloc, bytes.as_slice()) {
            Ok(hosts) => Ok(hosts),
            Err(HostsFault::TooLarge) => Ok(Hosts::empty(alloc)),
            Err(HostsFault::NoMemory) => Err(NoMemory),
        },
        FileRead::Absent | FileRead::Large | FileRead::Failed => Ok(Hosts::empty(alloc)),
    }
}
