//! The files that tell a machine's addresses.

ghost use Rattle.std.specs.Prelude.{◌≡◌, ◌≤◌, length, IfOk, OnErr};
ghost use Rattle.net_world.specs.Logs.{LogGets};
ghost use Rattle.own_addresses.specs.Machine as meaning;

use crate::choosing::chosen;
use crate::leaves::add_v4;
use crate::telling::{add_v6, has_default_v4, has_default_v6};
use item_list::{Bytes, NoMemory};
use net_addr::{Addr, AddrList};
use net_world::{FileRead, Files};
use std::alloc::Global;

/// The routes of IPv6.
const IPV6_ROUTE: &str = "/proc/net/ipv6_route";

/// The IPv6 addresses of the interfaces that are up.
const IF_INET6: &str = "/proc/net/if_inet6";

/// The routes of IPv4, those to the machine itself among them.
const FIB_TRIE: &str = "/proc/net/fib_trie";

/// The most bytes of one of them (this project's profile). A longer one tells nothing.
const FILE_MOST: u64 = 1_048_576;

/// The addresses from which this machine reaches others, 8 at most: the first of each family and scope, then the others, those
/// of global scope first. Those of loopback aren't among them, nor those of a family without a default route. There is none
/// where the system has no such files, or where they can't be read, which the count of failures then tells. Each is read once;
/// for want of memory only the first ones may have been read, or none.
#[tactic(auto, using(crate::proofs::ReadLemmas::none_read))]
pub fn own_addresses<F: Files>(alloc: Global, files: &mut F) -> Result<AddrList, NoMemory>
    ensures own { IfOk result (meaning.AreOwn (F.files files.old) (F.faults files.old) (F.faults files.new)
        (F.reads files.old) (F.reads files.new)) }
    ensures few { IfOk result (λ own. length own ≤ 8) }
    ensures files { F.files files.new ≡ F.files files.old }
    ensures faults { F.faults files.old ≤ F.faults files.new }
    ensures err { OnErr result (LogGets meaning.AreFirstReads (F.reads files.old) (F.reads files.new)) }
{
    let routes = files.read(IPV6_ROUTE, FILE_MOST)?;
    let interfaces = files.read(IF_INET6, FILE_MOST)?;
    let leaves = files.read(FIB_TRIE, FILE_MOST)?;
    let told = told_of(alloc, &routes, &interfaces, &leaves)?;
    Ok(AddrList::from_vec(chosen(alloc, told.as_slice())?))
}

/// The addresses that these files tell of a family that has a default route.
fn told_of(
    alloc: Global,
    routes: &FileRead,
    interfaces: &FileRead,
    leaves: &FileRead,
) -> Result<Vec<Addr>, NoMemory>
    ensures { IfOk result (λ told. told.items ≡ meaning.told_of routes.now interfaces.now leaves.now) }
{
    let mut told = Vec::new(alloc);
    if has_default_v6(alloc, text_of(routes))? {
        add_v6(alloc, &mut told, text_of(interfaces))?;
    }
    if has_default_v4(alloc, text_of(leaves))? {
        add_v4(alloc, &mut told, text_of(leaves))?;
    }
    Ok(told)
}

/// The text that was read, and the empty one where none was.
fn text_of(file: &FileRead) -> &[u8]
    ensures { result.now ≡ meaning.text_of file.now }
{
    match file {
        FileRead::Content(text) => text.as_slice(),
        FileRead::Absent | FileRead::Large | FileRead::Failed => b"".as_slice(),
    }
}
