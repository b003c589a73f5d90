//! What words and files ask.

use super::*;
use chan_types::Spec;
use item_list::Bytes;
use net_addr::ServerAddr;
use net_world::FileRead;
use resolv_options::{Flags, Name, Options};

/// A resolv.conf that sets a server, the first wait, the tries, and that servers take turns.
const RESOLV: &[u8] = b"nameserver 192.0.2.9\noptions timeout:5 attempts:4 rotate";

/// All options of adig, and a name.
const ADIG_ALL: &str =
    "--server 192.0.2.1,192.0.2.2 --port=5353 --timeout 500 --tries 2 --tcp --no-edns --primary --ignore-tc --no-recurse --no-check --type mx --class Ch --search --resolv r.conf --mix www";

/// Options of ahost, and two names.
const AHOST_SOME: &str =
    "--family 4 --no-sort --no-search --follow --quit --workers 2 --sources 192.0.2.7 --then 192.0.2.2,192.0.2.3 --port 5300 a b";

/// A server at an IPv4 address.
fn server(address: u32, port: u16) -> ServerAddr {
    ServerAddr {
        address: Addr::V4(address),
        port,
    }
}

/// The resolv.conf as it is read, or that there is none.
fn resolv(alloc: Global, is_there: bool) -> Result<FileRead, Fail> {
    if is_there {
        Ok(FileRead::Content(Bytes::of(alloc, RESOLV)?))
    } else {
        Ok(FileRead::Absent)
    }
}

/// What adig is asked by a line.
fn adig_asked(alloc: Global, line: &str) -> Result<AdigAsk, Fail> {
    Ok(adig_ask(alloc, words_of(alloc, line)?.as_slice())?)
}

/// What ahost is asked by a line.
fn ahost_asked(alloc: Global, line: &str) -> Result<AhostAsk, Fail> {
    Ok(ahost_ask(alloc, words_of(alloc, line)?.as_slice())?)
}

/// The options of a channel for which these are set, and these are read from a file.
fn options_of(alloc: Global, settings: Settings, file: &FileRead) -> Result<Options, Fail> {
    Ok(set_options(alloc, settings, file)?)
}

/// Whether a search is asked for this name, type and class.
fn is_search(spec: &Spec, text: &[u8], numbers: (u16, u16)) -> bool {
    match spec {
        Spec::Search { name, kind, class } => name.as_slice() == text && (*kind, *class) == numbers,
        _ => false,
    }
}

/// The flags that the options of adig set.
fn all_flags() -> Flags {
    Flags {
        usevc: true,
        primary: true,
        igntc: true,
        norecurse: true,
        nosearch: false,
        nocheckresp: true,
        edns: false,
        mix: true,
    }
}

/// What an asking sets of the options.
fn settings_of(ask: AdigAsk) -> Settings {
    ask.settings
}

/// The options that a line of adig sets, where resolv.conf is so.
fn options_with(alloc: Global, line: &str, file: &FileRead) -> Result<Options, Fail> {
    let ask = adig_asked(alloc, line)?;
    options_of(alloc, settings_of(ask), file)
}

/// The options that a line of adig and resolv.conf set.
fn adig_options(alloc: Global, line: &str, is_there: bool) -> Result<Options, Fail> {
    let file = resolv(alloc, is_there)?;
    options_with(alloc, line, &file)
}

/// Whether a line of adig names this resolv.conf.
fn names_resolv(alloc: Global, line: &str, path: &str) -> Result<bool, Fail> {
    let ask = adig_asked(alloc, line)?;
    Ok(ask.resolv.as_str() == path)
}

/// Whether a line of adig asks a search for this name, type and class.
fn asks_search(alloc: Global, line: &str, text: &[u8], numbers: (u16, u16)) -> Result<bool, Fail> {
    let ask = adig_asked(alloc, line)?;
    Ok(is_search(&ask.spec, text, numbers))
}

/// The servers of all options of adig.
const SERVERS: &[ServerAddr] = &[
    ServerAddr {
        address: Addr::V4(0xc000_0201),
        port: 5353,
    },
    ServerAddr {
        address: Addr::V4(0xc000_0202),
        port: 5353,
    },
];

/// Whether all options of adig are set.
fn has_all(options: &Options) -> bool {
    options.servers().as_slice() == SERVERS
        && options.timeout() == 500
        && options.tries() == 2
        && options.rotate()
        && options.flags() == all_flags()
}

/// Whether a line of adig sets all.
fn sets_all(alloc: Global, line: &str) -> Result<bool, Fail> {
    let options = adig_options(alloc, line, true)?;
    Ok(has_all(&options))
}

// All options of adig: the words' servers stand in place of the file's, a time is in milliseconds, and letters of a type may be small.
#[test]
fn adig_sets_all(rt: HostRuntime) -> Result<(), Fail> {
    let alloc = rt.alloc();
    assert!(rt; names_resolv(alloc, ADIG_ALL, "r.conf")?);
    assert!(rt; asks_search(alloc, ADIG_ALL, b"www", (15, 3))?);
    assert!(rt; sets_all(alloc, ADIG_ALL)?);
    Ok(())
}

/// A line that names no resolv.conf, whether there is one, and the server and the first wait that they set.
type Rest = (&'static str, bool, (u32, u16), u32);

/// Without options the file counts, an absent one sets the defaults, and a port of the words is that of the file's servers.
const RESTS: &[Rest] = &[
    ("--tcp x", true, (0xc000_0209, 53), 5000),
    ("--port=5353 x", true, (0xc000_0209, 5353), 5000),
    ("--tcp x", false, (0x7f00_0001, 53), 2000),
    ("--server=192.0.2.1 x", true, (0xc000_0201, 53), 5000),
];

/// Whether they set them, and the usual resolv.conf is named.
fn sets(alloc: Global, rest: &Rest) -> Result<bool, Fail> {
    let (line, is_there, (address, port), timeout) = *rest;
    let is_usual = names_resolv(alloc, line, "/etc/resolv.conf")?;
    let options = adig_options(alloc, line, is_there)?;
    Ok(
        is_usual
            && options.servers().as_slice() == [server(address, port)].as_slice()
            && options.timeout() == timeout,
    )
}

#[test]
fn files_set_the_rest(rt: HostRuntime) -> Result<(), Fail> {
    for rest in RESTS {
        assert!(rt; sets(rt.alloc(), rest)?, "{}", rest.0);
    }
    Ok(())
}

/// A line, its label, and whether an address is looked up backwards, and else a query of type A and class IN is asked.
type Asked = (&'static str, &'static str, bool);

const ASKED: &[Asked] = &[
    ("-- -x", "-x", false),
    ("--tcp Example.com", "Example.com", false),
    ("--reverse 192.0.2.1", "192.0.2.1", true),
    (
        "--reverse --search --type=MX 2001:DB8::1",
        "2001:db8::1",
        true,
    ),
];

/// Whether an address is looked up backwards, and else a query of type A and class IN is asked.
fn is_asked(spec: &Spec, is_reversed: bool) -> bool {
    match spec {
        Spec::Query {
            kind: 1,
            class: 1,
            ..
        } => !is_reversed,
        Spec::Reverse { .. } => is_reversed,
        _ => false,
    }
}

/// Whether the label of a request is this text.
fn has_label(alloc: Global, spec: &Spec, text: &str) -> Result<bool, Fail> {
    Ok(label(alloc, spec)?.as_slice() == text.as_bytes())
}

/// Whether a line of adig asks so.
fn asks_so(alloc: Global, row: &Asked) -> Result<bool, Fail> {
    let (line, text, is_reversed) = *row;
    let ask = adig_asked(alloc, line)?;
    Ok(is_asked(&ask.spec, is_reversed) && has_label(alloc, &ask.spec, text)?)
}

#[test]
fn adig_asks_for_names(rt: HostRuntime) -> Result<(), Fail> {
    for row in ASKED {
        assert!(rt; asks_so(rt.alloc(), row)?, "{}", row.0);
    }
    Ok(())
}

/// Lines of adig, and which of the two they ask for: the journal in place of the page, and cookies.
const FLAGGED: &[(&str, bool, bool)] = &[
    ("x", false, false),
    ("--journal x", true, false),
    ("--cookie x", false, true),
    ("--cookie x --journal", true, true),
    ("-- --journal", false, false),
];

/// Whether a line of adig asks for them so.
fn is_flagged(alloc: Global, row: &(&str, bool, bool)) -> Result<bool, Fail> {
    let (line, journal, cookie) = *row;
    let ask = adig_asked(alloc, line)?;
    Ok(ask.journal == journal && ask.cookie == cookie)
}

#[test]
fn adig_asks_for_journal_and_cookies(rt: HostRuntime) -> Result<(), Fail> {
    for row in FLAGGED {
        assert!(rt; is_flagged(rt.alloc(), row)?, "{}", row.0);
    }
    Ok(())
}

/// Whether the addresses of this host are asked, of IPv4 alone and unsorted.
fn is_host(spec: &Spec, text: &[u8]) -> bool {
    match spec {
        Spec::Address {
            host,
            family,
            nosort,
        } => host.as_slice() == text && *family == Family::V4 && *nosort,
        _ => false,
    }
}

/// Whether the options of ahost are those of its line.
fn has_some(ask: &AhostAsk) -> bool {
    let has_paths = ask.hosts.as_str() == "/etc/hosts" && ask.resolv.as_str() == "/etc/resolv.conf";
    let has_orders = ask.orders.follow && !ask.orders.first && ask.orders.quit;
    has_paths && has_orders && ask.workers == 2 && ask.load.is_none()
}

/// Whether its hosts are a and b.
fn has_hosts(alloc: Global, ask: &AhostAsk) -> Result<bool, Fail> {
    let [first, second] = ask.specs.as_slice() else {
        return Ok(false);
    };
    Ok(is_host(first, b"a") && is_host(second, b"b") && has_label(alloc, first, "a")?)
}

/// Whether a line of ahost has both.
fn asks_hosts(alloc: Global, line: &str) -> Result<bool, Fail> {
    let ask = ahost_asked(alloc, line)?;
    Ok(has_some(&ask) && has_hosts(alloc, &ask)?)
}

#[test]
fn ahost_asks_for_hosts(rt: HostRuntime) -> Result<(), Fail> {
    assert!(rt; asks_hosts(rt.alloc(), AHOST_SOME)?);
    Ok(())
}

/// The servers that are set later.
const LATER: &[ServerAddr] = &[
    ServerAddr {
        address: Addr::V4(0xc000_0202),
        port: 5300,
    },
    ServerAddr {
        address: Addr::V4(0xc000_0203),
        port: 5300,
    },
];

/// Whether a line of ahost sets them.
fn sets_later(alloc: Global, line: &str) -> Result<bool, Fail> {
    let ask = ahost_asked(alloc, line)?;
    Ok(match &ask.later {
        Some(later) => later.as_slice() == LATER,
        None => false,
    })
}

/// What an asking of ahost sets of the options.
fn ahost_settings_of(ask: AhostAsk) -> Settings {
    ask.settings
}

/// The options that a line of ahost sets without a resolv.conf.
fn ahost_options(alloc: Global, line: &str) -> Result<Options, Fail> {
    let ask = ahost_asked(alloc, line)?;
    options_of(alloc, ahost_settings_of(ask), &FileRead::Absent)
}

/// Whether a line of ahost sets the sources, the flags and the server.
fn sets_options(alloc: Global, line: &str) -> Result<bool, Fail> {
    let options = ahost_options(alloc, line)?;
    Ok(
        options.sources().as_slice() == [Addr::V4(0xc000_0207)].as_slice()
            && options.flags().nosearch
            && options.flags().edns
            && options.servers().as_slice() == [server(0x7f00_0001, 5300)].as_slice(),
    )
}

#[test]
fn ahost_sets_options(rt: HostRuntime) -> Result<(), Fail> {
    assert!(rt; sets_later(rt.alloc(), AHOST_SOME)?);
    assert!(rt; sets_options(rt.alloc(), AHOST_SOME)?);
    Ok(())
}

/// Whether a line of ahost asks for the journal in place of the page.
fn asks_journal(alloc: Global, line: &str) -> Result<bool, Fail> {
    let ask = ahost_asked(alloc, line)?;
    Ok(ask.journal)
}

#[test]
fn ahost_asks_for_the_journal(rt: HostRuntime) -> Result<(), Fail> {
    assert!(rt; asks_journal(rt.alloc(), "--journal x")?);
    assert!(rt; !asks_journal(rt.alloc(), "x")?);
    assert!(rt; !asks_journal(rt.alloc(), "--load 3")?);
    Ok(())
}

/// Whether a line of ahost asks no name, and this load.
fn asks_load(alloc: Global, line: &str, load: Load) -> Result<bool, Fail> {
    let ask = ahost_asked(alloc, line)?;
    Ok(ask.specs.is_empty() && ask.load == Some(load))
}

#[test]
fn ahost_asks_for_a_load(rt: HostRuntime) -> Result<(), Fail> {
    let load = Load { names: 12, seed: 7 };
    assert!(rt; asks_load(rt.alloc(), "--load 12 --seed=7", load)?);
    Ok(())
}

/// How many addresses of localhost a hosts file has.
fn localhosts(alloc: Global, file: &FileRead) -> Result<usize, Fail> {
    let name = Name::from_text(alloc, b"localhost")?.name;
    let hosts = hosts_read(alloc, file)?;
    Ok(hosts.addresses(alloc, &name, Family::Any)?.len())
}

/// How often a server is asked by a resolv.conf.
fn tries_in(alloc: Global, file: &FileRead) -> Result<u32, FileFault> {
    Ok(u32::from(resolv_file(alloc, file)?.tries()))
}

/// Whether a hosts file is read, and a resolv.conf that sets nothing.
fn is_read(alloc: Global, text: &[u8]) -> Result<bool, Fail> {
    let file = FileRead::Content(Bytes::of(alloc, text)?);
    Ok(localhosts(alloc, &file)? == 1 && tries_in(alloc, &file)? == 3)
}

/// Whether reading the file as either kind gives this fault.
fn has_fault(alloc: Global, file: &FileRead, fault: FileFault) -> bool {
    resolv_file(alloc, file).err() == Some(fault) && hosts_read(alloc, file).err() == Some(fault)
}

/// A file of so many blanks.
fn blanks(alloc: Global, len: usize) -> Result<FileRead, Fail> {
    let mut bytes = Vec::new(alloc);
    bytes.resize(len, b' ')?;
    Ok(FileRead::Content(Bytes::from_vec(bytes)))
}

// A hosts file, an absent one, and files that can't be read. The last is above the limit of either kind.
#[test]
fn files_are_read(rt: HostRuntime) -> Result<(), Fail> {
    let alloc = rt.alloc();
    assert!(rt; is_read(alloc, b"127.0.0.1 localhost")?);
    assert!(rt; localhosts(alloc, &FileRead::Absent)? == 0);
    assert!(rt; has_fault(alloc, &FileRead::Large, FileFault::TooLarge));
    assert!(rt; has_fault(alloc, &FileRead::Failed, FileFault::Failed));
    assert!(rt; has_fault(alloc, &blanks(alloc, 4_194_305)?, FileFault::TooLarge));
    Ok(())
}
