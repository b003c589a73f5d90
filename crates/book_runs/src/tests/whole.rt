//! A text with every kind of line, entry, request, step and option, and the run that it is.

use chan_types::{
    Act, Bytes, Entry, Journal, KeyList, Need, Script, ServerKey, Spec, Step, Steps, What, When,
};
use journal_text::{Book, print_book, read_book};
use net_addr::{Addr, AddrList, Family, ServerAddr, ServerList};
use resolv_options::{Flags, Lookups, Name, NameList, Options};
use std::alloc::Global;
use std::test::Fail;

/// A run that asks for a name below `onion` and is destroyed.
const ONION: &[u8] = b"journal 1\n\
    option 2000 3 1 0 00000010 0 0 1232\n\
    server 192.0.2.53 53\n\
    hosts -\n\
    0 0 accept 1 q 782e6f6e696f6e 1 1 ( 0 )\n\
    0 0 take 1\n\
    0 0 destroy\n\
    end\n";

/// A run with every kind of everything. It isn't lawful, which is no matter here.
const ALL: &[u8] = b"journal 1\n\
    option 60000 10 15 3600000 10101011 1 2 65535\n\
    server 192.0.2.53 53\n\
    server 2001:db8::53 5353\n\
    domain example.com.\n\
    domain a\\.b\\032c.\n\
    source 192.0.2.1\n\
    source ::ffff:192.0.2.2\n\
    hosts 3132372e302e302e3120610a\n\
    0 0 accept 1 q 61 28 1 ( 0 )\n\
    1 2 accept 2 s - 65535 255 ( 7 0 0 cancel 1 1 destroy 2 2 rev ( 8 ) 0 3 ask r 192.0.2.9 ( 9 ) )\n\
    2 0 accept 3 a 6c6f63616c686f7374 0 0 ( 0 )\n\
    2 0 accept 4 a 2e 1 1 ( 0 )\n\
    2 0 accept 5 a ff 2 0 ( 0 )\n\
    2 0 accept 6 r 2001:db8::1 ( 18446744073709551615 0 0 rev ( 1 0 0 rev ( 2 0 0 rev ( 3 ) ) ) )\n\
    0 0 cancel\n\
    0 0 take 18446744073709551615\n\
    0 0 start 1 255 4294967295 0 65535 - 18446744073709551615\n\
    0 0 start 2 0 1 9 4660 32769 1000\n\
    0 0 arrive 0 0 -\n\
    0 0 arrive 1 9 0a0b0c\n\
    0 0 expire 1 0 2000\n\
    0 0 fault 1 9 3000\n\
    0 0 servers 0 192.0.2.53 53 7 2001:db8::53 5353\n\
    3 6 destroy\n\
    end\n";

// The texts are read, and what was read is printed as the same text.
#[test]
fn texts_are_read_and_printed_again(rt: HostRuntime) -> Result<(), Fail> {
    for text in [ONION, ALL] {
        let book = read(rt.alloc(), text)?;
        assert!(rt; print(rt.alloc(), &book)?.as_slice() == text);
    }
    Ok(())
}

/// The run of a text.
fn read(alloc: Global, text: &[u8]) -> Result<Book, Fail> {
    match read_book(alloc, text) {
        Ok(book) => Ok(book),
        Err(_) => Err("the text is a run's".into()),
    }
}

/// The text of a run.
fn print(alloc: Global, book: &Book) -> Result<Bytes, Fail> {
    Ok(print_book(alloc, book)?)
}

// The run that the second text is, made by hand, is printed as that text.
#[test]
fn a_run_is_printed(rt: HostRuntime) -> Result<(), Fail> {
    let alloc = rt.alloc();
    let book = Book {
        options: all_options(alloc)?,
        hosts: Bytes::of(alloc, b"127.0.0.1 a\n")?,
        journal: Journal::from_vec(all_entries(alloc)?),
    };
    assert!(rt; print(alloc, &book)?.as_slice() == ALL);
    Ok(())
}

/// Whether options are those of the second text, but for the lists.
fn are_all_set(options: &Options) -> bool {
    options.timeout() == 60_000
        && options.tries() == 10
        && options.ndots() == 15
        && options.max_timeout() == 3_600_000
        && options.flags() == all_flags()
        && options.rotate()
        && options.lookups() == Lookups::Files
        && options.edns_size() == 65_535
}

/// Whether two entries are the attempts of the second text.
fn are_attempts(first: &Entry, second: &Entry) -> bool {
    matches!(
        &first.what,
        What::Start {
            number: 1,
            leg: 255,
            server: 4_294_967_295,
            link: 0,
            id: 65_535,
            mix: None,
            moment: 18_446_744_073_709_551_615
        }
    ) && matches!(
        &second.what,
        What::Start {
            number: 2,
            leg: 0,
            server: 1,
            link: 9,
            id: 4660,
            mix: Some(32_769),
            moment: 1000
        }
    )
}

/// Whether two entries are the Expire and the Fault of the second text.
fn are_ends(first: &Entry, second: &Entry) -> bool {
    matches!(
        &first.what,
        What::Expire {
            number: 1,
            leg: 0,
            moment: 2000
        }
    ) && matches!(
        &second.what,
        What::Fault {
            server: 1,
            link: 9,
            moment: 3000
        }
    )
}

// What a text's lines say is what their run has: the options, the hosts file, and the entries' kinds and fields.
#[test]
fn a_run_is_read(rt: HostRuntime) -> Result<(), Fail> {
    let book = read(rt.alloc(), ALL)?;
    let options = &book.options;
    assert!(rt; are_all_set(options));
    assert!(rt; options.servers().len() == 2 && options.domains().len() == 2);
    assert!(rt;
        options.sources().as_slice()
            == [Addr::V4(0xc000_0201), Addr::V6(0xffff_c000_0202)].as_slice()
    );
    assert!(rt; book.hosts.as_slice() == b"127.0.0.1 a\n".as_slice());
    let entries = book.journal.entries();
    assert!(rt; entries.len() == 16);
    assert!(rt; are_attempts(&entries[8], &entries[9]));
    assert!(rt; are_ends(&entries[12], &entries[13]));
    assert!(rt; entries[15].seat == 3 && entries[15].by == 6);
    Ok(())
}

/// Switches, some of them set.
fn all_flags() -> Flags {
    Flags {
        usevc: true,
        primary: false,
        igntc: true,
        norecurse: false,
        nosearch: true,
        nocheckresp: false,
        edns: true,
        mix: true,
    }
}

/// Two servers.
const SERVERS: [ServerAddr; 2] = [
    ServerAddr {
        address: Addr::V4(0xc000_0235),
        port: 53,
    },
    ServerAddr {
        address: Addr::V6(0x2001_0db8_0000_0000_0000_0000_0000_0053),
        port: 5353,
    },
];

/// The options of the second text.
fn all_options(alloc: Global) -> Result<Options, Fail> {
    let mut domains = NameList::new(alloc);
    for text in [b"example.com".as_slice(), b"a\\.b\\032c".as_slice()] {
        domains.push(Name::from_text(alloc, text).ok().ok_or("a name")?.name)?;
    }
    let mut options = Options::plain(alloc)?;
    options.set_servers(ServerList::of(alloc, &SERVERS)?);
    if domains.len() == 2 {
        options.set_search(domains, 15, true);
    }
    options.set_sources(AddrList::of(alloc, &[Addr::V4(0xc000_0201), Addr::V6(0xffff_c000_0202)])?);
    options.set_numbers(60_000, 10);
    options.set_sizes(3_600_000, 65_535);
    options.set_flags(all_flags());
    options.set_lookups(Lookups::Files);
    Ok(options)
}

/// A script of these steps.
fn script(tag: u64, steps: Vec<Step>) -> Result<Script, Fail> {
    let made = Script::new(tag, Steps::from_vec(steps))
        .ok()
        .ok_or("steps of a script")?;
    Ok(made)
}

/// A script of one step that asks for names, of so many scripts that nest.
fn nested(alloc: Global, tag: u64) -> Result<Script, Fail> {
    let mut inner = Script::blank(alloc, 3);
    for tag in [2, 1, tag] {
        let mut steps = Vec::new(alloc);
        steps.push(Step {
            when: When::Always,
            need: Need::Nothing,
            act: Act::Reverse(inner),
        })?;
        inner = script(tag, steps)?;
    }
    Ok(inner)
}

/// The step at this index of a script that has one of each kind.
fn step(alloc: Global, index: usize) -> Step {
    let (when, need, act) = match index {
        0 => (When::Always, Need::Nothing, Act::Cancel),
        1 => (When::Good, Need::Follow, Act::Destroy),
        2 => (
            When::Bad,
            Need::First,
            Act::Reverse(Script::blank(alloc, 8)),
        ),
        _ => (
            When::Always,
            Need::Quit,
            Act::Ask(
                Spec::Reverse {
                    address: Addr::V4(0xc000_0209),
                },
                Script::blank(alloc, 9),
            ),
        ),
    };
    Step { when, need, act }
}

/// A script with a step of each kind.
fn every_step(alloc: Global) -> Result<Script, Fail> {
    let mut steps = Vec::new(alloc);
    for index in 0..4 {
        steps.push(step(alloc, index))?;
    }
    script(7, steps)
}

/// What the request of the entry at this index asks.
fn spec(alloc: Global, index: usize) -> Result<Spec, Fail> {
    Ok(match index {
        0 => Spec::Query {
            name: Bytes::of(alloc, b"a")?,
            kind: 28,
            class: 1,
        },
        1 => Spec::Search {
            name: Bytes::new(alloc),
            kind: 65_535,
            class: 255,
        },
        2 => addresses(alloc, b"localhost", Family::Any, false)?,
        3 => addresses(alloc, b".", Family::V4, true)?,
        4 => addresses(alloc, b"\xff", Family::V6, false)?,
        _ => Spec::Reverse {
            address: Addr::V6(0x2001_0db8_0000_0000_0000_0000_0000_0001),
        },
    })
}

/// The addresses of a host.
fn addresses(alloc: Global, host: &[u8], family: Family, nosort: bool) -> Result<Spec, Fail> {
    Ok(Spec::Address {
        host: Bytes::of(alloc, host)?,
        family,
        nosort,
    })
}

/// The script of the entry at this index.
fn script_at(alloc: Global, index: usize) -> Result<Script, Fail> {
    match index {
        1 => every_step(alloc),
        5 => nested(alloc, u64::MAX),
        _ => Ok(Script::blank(alloc, 0)),
    }
}

/// The entry at this index, from 0 to 5: a request of each kind.
fn accepted(alloc: Global, index: usize) -> Result<What, Fail> {
    Ok(What::Accept {
        number: (index as u64).saturating_add(1),
        spec: spec(alloc, index)?,
        script: script_at(alloc, index)?,
    })
}

/// The servers that the second text sets.
fn servers(alloc: Global) -> Result<What, Fail> {
    let [first, second] = SERVERS;
    let list = [
        ServerKey {
            key: 0,
            address: first,
        },
        ServerKey {
            key: 7,
            address: second,
        },
    ];
    Ok(What::Servers {
        list: KeyList::of(alloc, &list)?,
    })
}

/// The entry at this index of the second text.
fn what(alloc: Global, index: usize) -> Result<What, Fail> {
    Ok(match index {
        0..=5 => accepted(alloc, index)?,
        6 => What::Cancel,
        7 => What::Take { number: u64::MAX },
        8 => What::Start {
            number: 1,
            leg: 255,
            server: u32::MAX,
            link: 0,
            id: 65_535,
            mix: None,
            moment: u64::MAX,
        },
        9 => What::Start {
            number: 2,
            leg: 0,
            server: 1,
            link: 9,
            id: 0x1234,
            mix: Some(0x8001),
            moment: 1000,
        },
        10 => What::Arrive {
            server: 0,
            link: 0,
            bytes: Bytes::new(alloc),
        },
        11 => What::Arrive {
            server: 1,
            link: 9,
            bytes: Bytes::of(alloc, &[10, 11, 12])?,
        },
        12 => What::Expire {
            number: 1,
            leg: 0,
            moment: 2000,
        },
        13 => What::Fault {
            server: 1,
            link: 9,
            moment: 3000,
        },
        14 => servers(alloc)?,
        _ => What::Destroy,
    })
}

/// The seats that made the entries of the second text, and the requests whose callbacks commanded them.
const MAKERS: [(u64, u64); 16] = [
    (0, 0),
    (1, 2),
    (2, 0),
    (2, 0),
    (2, 0),
    (2, 0),
    (0, 0),
    (0, 0),
    (0, 0),
    (0, 0),
    (0, 0),
    (0, 0),
    (0, 0),
    (0, 0),
    (0, 0),
    (3, 6),
];

/// The entries of the second text.
fn all_entries(alloc: Global) -> Result<Vec<Entry>, Fail> {
    let mut entries = Vec::new(alloc);
    for (index, (seat, by)) in MAKERS.iter().enumerate() {
        entries.push(Entry {
            seat: *seat,
            by: *by,
            what: what(alloc, index)?,
        })?;
    }
    Ok(entries)
}
