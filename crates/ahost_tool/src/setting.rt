//! The setting of a run's channel: what resolv.conf, the hosts file and the words say.

ghost use Rattle.std.specs.Prelude.{◌≡◌};
ghost use Rattle.tool_line.specs.Outside.{files_told};
ghost use Rattle.ahost_tool.specs.Setting.{ReadsSetting, bytes_read};

use hosts_file::Hosts;
use item_list::Bytes;
use net_world::{FileRead, Files};
use resolv_options::Options;
use std::alloc::Global;
use tool_line::{FileFault, HOSTS_MOST, RESOLV_MOST, Settings, hosts_read, set_options};

/// Reads resolv.conf and then the hosts file, each once, and answers the options, what the hosts file says, and its bytes. The
/// words' settings stand in place of what resolv.conf sets. A fault of resolv.conf ends it before the hosts file is read.
/// Where memory is wanting, the first of the two was read, both, or none.
pub fn read_setting<F: Files>(
    alloc: Global,
    resolv: &str,
    hosts: &str,
    settings: Settings,
    files: &mut F,
) -> Result<(Options, Hosts, Bytes), FileFault>
    ensures reads { ReadsSetting resolv.now hosts.now settings result
        (files_told (F.files files.old) (F.faults files.old) (F.reads files.old))
        (files_told (F.files files.new) (F.faults files.new) (F.reads files.new)) }
    ensures files { F.files files.new ≡ F.files files.old }
{
    let file = files.read(resolv, RESOLV_MOST)?;
    let options = set_options(alloc, settings, &file)?;
    let lines = files.read(hosts, HOSTS_MOST)?;
    let hosts = hosts_read(alloc, &lines)?;
    Ok((options, hosts, bytes_of(alloc, lines)))
}

/// The bytes of a file that was read, and none of one that wasn't.
fn bytes_of(alloc: Global, file: FileRead) -> Bytes
    ensures { result ≡ bytes_read file }
{
    match file {
        FileRead::Content(bytes) => bytes,
        FileRead::Absent | FileRead::Large | FileRead::Failed => Bytes::new(alloc),
    }
}
