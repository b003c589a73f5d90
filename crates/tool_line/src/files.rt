//! What the files that were read say: resolv.conf and the hosts file.

ghost use Rattle.std.specs.Prelude.{◌≡◌, ◌≢◌, Ok, Err, IfOk, IfErr};
ghost use Rattle.tool_line.specs.Files as meaning;
ghost use Rattle.tool_line.specs.declared.files.FileFault.TheVariants as file_fault;

use crate::settings::Settings;
use hosts_file::{Hosts, HostsFault};
use item_list::NoMemory;
use net_world::FileRead;
use resolv_options::{Options, ResolvFault, read_resolv};
use std::alloc::Global;
use thiserror::Error;

/// The most bytes of a resolv.conf (this project's profile).
pub const RESOLV_MOST: u64 = 65_536;

/// The most bytes of a hosts file (this project's profile).
pub const HOSTS_MOST: u64 = 4_194_304;

/// The path of resolv.conf, where the words name none (resolv.conf(5)).
pub(crate) const RESOLV_PATH: &str = "/etc/resolv.conf";

/// The path of the hosts file, where the words name none (hosts(5)).
pub(crate) const HOSTS_PATH: &str = "/etc/hosts";

/// Why a file says nothing.
#[derive(Clone, Copy, Debug, PartialEq, Eq, Error)]
pub enum FileFault {
    /// The read failed.
    #[error("failed")]
    Failed,
    /// The file has more bytes than are read.
    #[error("too large")]
    TooLarge,
    /// Want of memory.
    #[error("out of memory")]
    NoMemory,
}

impl From<NoMemory> for FileFault {
    ghost from_gives = { λ _ fault. fault ≡ file_fault.NoMemory };

    fn from(_: NoMemory) -> FileFault {
        FileFault::NoMemory
    }
}

/// The options that the resolv.conf sets that was read. An absent one sets nothing.
pub fn resolv_file(alloc: Global, file: &FileRead) -> Result<Options, FileFault>
    ensures read { IfOk result (λ options. meaning.resolv_of file.now ≡ Ok options) }
    ensures fault { IfErr result
        (λ fault. fault ≢ FileFault.NoMemory → meaning.resolv_of file.now ≡ Err fault) }
{
    match file {
        FileRead::Content(bytes) => match read_resolv(alloc, bytes.as_slice()) {
            Ok(options) => Ok(options),
            Err(ResolvFault::TooLarge) => Err(FileFault::TooLarge),
            Err(ResolvFault::NoMemory) => Err(FileFault::NoMemory),
        },
        FileRead::Absent => Ok(Options::plain(alloc)?),
        FileRead::Large => Err(FileFault::TooLarge),
        FileRead::Failed => Err(FileFault::Failed),
    }
}

/// What the hosts file says that was read. An absent one says nothing.
pub fn hosts_read(alloc: Global, file: &FileRead) -> Result<Hosts, FileFault>
    ensures read { IfOk result (λ hosts. meaning.hosts_of file.now ≡ Ok hosts) }
    ensures fault { IfErr result (λ fault. fault ≢ FileFault.NoMemory → meaning.hosts_of file.now ≡ Err fault) }
{
    match file {
        FileRead::Content(bytes) => match Hosts::read(alloc, bytes.as_slice()) {
            Ok(hosts) => Ok(hosts),
            Err(HostsFault::TooLarge) => Err(FileFault::TooLarge),
            Err(HostsFault::NoMemory) => Err(FileFault::NoMemory),
        },
        FileRead::Absent => Ok(Hosts::empty(alloc)),
        FileRead::Large => Err(FileFault::TooLarge),
        FileRead::Failed => Err(FileFault::Failed),
    }
}

/// The options of a channel: those of the resolv.conf that was read, and in place of them what the words set.
pub fn set_options(alloc: Global, settings: Settings, file: &FileRead) -> Result<Options, FileFault>
    ensures read { IfOk result (λ options. meaning.options_set settings file.now ≡ Ok options) }
    ensures fault { IfErr result
        (λ fault. fault ≢ FileFault.NoMemory → meaning.options_set settings file.now ≡ Err fault) }
{
    let mut options = resolv_file(alloc, file)?;
    settings.apply(alloc, &mut options)?;
    Ok(options)
}
