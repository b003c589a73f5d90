//! Texts of resolv.conf, as tables.

use net_addr::{Addr, AddrList};
use resolv_options::{
    Flags, Lookups, Name, NameList, Options, ResolvFault, candidates, read_resolv,
};
use std::alloc::Global;
use std::test::Fail;

/// The names of these texts.
fn names_of(alloc: Global, texts: &[&str]) -> Result<NameList, Fail> {
    let mut names = NameList::new(alloc);
    for text in texts {
        names.push(Name::from_text(alloc, text.as_bytes())?.name)?;
    }
    Ok(names)
}

/// Puts a text, and a blank behind it.
fn put_text(texts: &mut Vec<u8>, text: &[u8]) -> Result<(), Fail> {
    texts.extend_from_slice(text)?;
    texts.push(b' ')?;
    Ok(())
}

/// Puts the texts of these names.
fn put_names(alloc: Global, texts: &mut Vec<u8>, names: &NameList) -> Result<(), Fail> {
    for name in names.as_slice() {
        put_text(texts, name.to_text(alloc)?.as_slice())?;
    }
    Ok(())
}

/// The texts of these names, with a blank behind each.
fn texts_of(alloc: Global, names: &NameList) -> Result<Vec<u8>, Fail> {
    let mut texts = Vec::new(alloc);
    put_names(alloc, &mut texts, names)?;
    Ok(texts)
}

/// Options with these domains and dots.
fn with_search(alloc: Global, domains: NameList, ndots: u8) -> Result<Options, Fail> {
    let mut options = Options::plain(alloc)?;
    if domains.len() <= 8 && ndots <= 15 {
        options.set_search(domains, ndots, true);
    }
    Ok(options)
}

/// Options with the domains of these texts, and these dots.
fn searching(alloc: Global, domains: &[&str], ndots: u8) -> Result<Options, Fail> {
    with_search(alloc, names_of(alloc, domains)?, ndots)
}

/// The names that are asked for a text.
fn asked_for(alloc: Global, text: &str, options: &Options) -> Result<NameList, Fail> {
    let name = Name::from_text(alloc, text.as_bytes())?;
    Ok(candidates(alloc, &name, options)?)
}

/// Whether the names that are asked for a text have these texts.
fn asks(alloc: Global, text: &str, options: &Options, asked: &str) -> Result<bool, Fail> {
    let names = asked_for(alloc, text, options)?;
    Ok(texts_of(alloc, &names)?.as_slice() == asked.as_bytes())
}

/// One row of the table of searches.
type Search = (&'static str, &'static [&'static str], u8, &'static str);

/// Names, the domain and the dots of the search list, and what is asked for, by hand after resolv.conf(5):
/// a search list, a root domain, a name that ends with a dot, enough dots and too few, a repeated name, a hidden service's name.
const SEARCHES: &[Search] = &[
    (
        "www",
        &["a.test", "b.test"],
        1,
        "www.a.test. www.b.test. www. ",
    ),
    ("www", &["."], 1, "www. "),
    ("www.", &["a.test"], 1, "www. "),
    ("a.b", &["c.test"], 1, "a.b. a.b.c.test. "),
    ("a.b", &["c.test"], 2, "a.b.c.test. a.b. "),
    ("www", &["A.test", "a.TEST"], 0, "www. www.A.test. "),
    ("www", &["x.onion"], 1, "www. "),
    (".", &["a.test"], 0, ". "),
];

/// Whether a row's names are asked for.
fn is_searched(alloc: Global, row: &Search) -> Result<bool, Fail> {
    let (text, domains, ndots, asked) = *row;
    let options = searching(alloc, domains, ndots)?;
    asks(alloc, text, &options, asked)
}

#[test]
fn names_are_searched_in_order(rt: HostRuntime) -> Result<(), Fail> {
    for row in SEARCHES {
        assert!(rt; is_searched(rt.alloc(), row)?);
    }
    Ok(())
}

/// A domain of 251 bytes.
fn long_domain(alloc: Global) -> Result<NameList, Fail> {
    let label = [b'a'; 63];
    let mut domains = NameList::new(alloc);
    domains.push(Name::from_labels(alloc, &[&label, &label, &label, &label[..57]])?)?;
    Ok(domains)
}

/// How many names are asked for a text with such a domain.
fn count_asked(alloc: Global, text: &str) -> Result<usize, Fail> {
    let options = with_search(alloc, long_domain(alloc)?, 1)?;
    Ok(asked_for(alloc, text, &options)?.len())
}

/// With a domain of 251 bytes a label of 3 bytes makes a name of 255, and one of 4 is too long (RFC 1035, section 2.3.4).
#[test]
fn a_name_that_is_too_long_is_passed_over(rt: HostRuntime) -> Result<(), Fail> {
    assert!(rt; count_asked(rt.alloc(), "www")? == 2);
    assert!(rt; count_asked(rt.alloc(), "wwww")? == 1);
    Ok(())
}

/// The numbers of options: first wait, tries, dots, longest wait and OPT size.
fn numbers_of(options: &Options) -> [u32; 5] {
    [
        options.timeout(),
        u32::from(options.tries()),
        u32::from(options.ndots()),
        options.max_timeout(),
        u32::from(options.edns_size()),
    ]
}

/// Sets other values than the defaults in every field but the servers and the search list.
fn set_others(alloc: Global, options: &mut Options) -> Result<(), Fail> {
    let flags = Flags {
        nosearch: true,
        ..options.flags()
    };
    options.set_flags(flags);
    options.set_sources(AddrList::of(alloc, &[Addr::V6(1)])?);
    options.set_numbers(50, 7);
    options.set_sizes(9000, 512);
    options.set_lookups(Lookups::Dns);
    Ok(())
}

/// Options with other values than the defaults in every field but the servers.
fn other_options(alloc: Global) -> Result<Options, Fail> {
    let mut options = searching(alloc, &["a.test"], 2)?;
    set_others(alloc, &mut options)?;
    Ok(options)
}

/// A copy of them.
fn other_copied(alloc: Global) -> Result<Options, Fail> {
    Ok(other_options(alloc)?.copy(alloc)?)
}

/// Whether options have those values.
fn has_others(options: &Options) -> bool {
    numbers_of(options) == [50, 7, 2, 9000, 512]
        && options.flags().nosearch
        && options.lookups() == Lookups::Dns
        && options.sources().len() == 1
}

/// Whether a copy of them does.
fn copy_has_others(alloc: Global) -> Result<bool, Fail> {
    let copied = other_copied(alloc)?;
    Ok(has_others(&copied))
}

/// Whether options have the defaults.
fn has_defaults(options: &Options) -> bool {
    numbers_of(options) == [2000, 3, 1, 0, 1232]
        && options.servers().len() == 1
        && options.flags().edns
        && options.domains().is_empty()
}

/// Whether plain options do.
fn plain_has_defaults(alloc: Global) -> Result<bool, Fail> {
    let options = Options::plain(alloc)?;
    Ok(has_defaults(&options))
}

/// The defaults of this project's profile.
#[test]
fn plain_options_are_the_defaults(rt: HostRuntime) -> Result<(), Fail> {
    assert!(rt; plain_has_defaults(rt.alloc())?);
    Ok(())
}

/// A copy of set options has what was set.
#[test]
fn options_are_set_and_copied(rt: HostRuntime) -> Result<(), Fail> {
    assert!(rt; copy_has_others(rt.alloc())?);
    Ok(())
}

/// Whether with them the names that are asked for a text have these texts.
fn others_ask(alloc: Global, text: &str, asked: &str) -> Result<bool, Fail> {
    let options = other_options(alloc)?;
    asks(alloc, text, &options, asked)
}

/// With the switch for it no name is searched.
#[test]
fn nosearch_asks_the_name_alone(rt: HostRuntime) -> Result<(), Fail> {
    assert!(rt; others_ask(rt.alloc(), "www", "www. ")?);
    Ok(())
}

/// Puts the addresses of the servers of these options.
fn put_servers(alloc: Global, texts: &mut Vec<u8>, options: &Options) -> Result<(), Fail> {
    for server in options.servers().as_slice() {
        put_text(texts, net_addr::print(alloc, server.address)?.as_slice())?;
    }
    Ok(())
}

/// The servers and the domains of these options, with a blank behind each.
fn found(alloc: Global, options: &Options) -> Result<Vec<u8>, Fail> {
    let mut texts = Vec::new(alloc);
    put_servers(alloc, &mut texts, options)?;
    put_names(alloc, &mut texts, options.domains())?;
    Ok(texts)
}

/// Whether a resolv.conf sets them.
fn finds(alloc: Global, resolv: &str, texts: &str) -> Result<bool, Fail> {
    let options = read_resolv(alloc, resolv.as_bytes())?;
    Ok(found(alloc, &options)?.as_slice() == texts.as_bytes())
}

/// Texts of a resolv.conf, and the servers and domains that they set, by hand after resolv.conf(5): as systemd-resolved
/// and a DHCP client write it, nothing, lines and words that aren't understood, comments, a server and a domain without a word, and
/// more than are kept.
const FILES: &[(&str, &str)] = &[
    (
        "# This is managed by man:systemd-resolved(8).\n\nnameserver 127.0.0.53\noptions edns0 trust-ad\nsearch .\n",
        "127.0.0.53 . ",
    ),
    (
        "; generated by /usr/sbin/dhclient-script\r\nsearch a.test b.test.\r\nnameserver 192.0.2.1\r\nnameserver 2001:db8::1\r\n",
        "192.0.2.1 2001:db8::1 a.test. b.test. ",
    ),
    ("", "127.0.0.1 "),
    (
        "nameserver 192.0.2.300 192.0.2.1\n nameserver\t192.0.2.2 192.0.2.3 #x\nNameserver 192.0.2.4\n#nameserver 192.0.2.5",
        "192.0.2.2 ",
    ),
    (
        "domain c.test d.test\nsearch a..b a.test #b.test\nsortlist 192.0.2.0",
        "127.0.0.1 a.test. ",
    ),
    ("search a.test\ndomain a..b c.test", "127.0.0.1 "),
    ("nameserver\nsearch a.test\ndomain", "127.0.0.1 "),
    (
        "search a b c d e f g h i\nnameserver ::1\nnameserver ::2\nnameserver ::3\nnameserver ::4\nnameserver ::5\nnameserver ::6\nnameserver ::7\nnameserver ::8\nnameserver ::9",
        "::1 ::2 ::3 ::4 ::5 ::6 ::7 ::8 a. b. c. d. e. f. g. h. ",
    ),
];

#[test]
fn files_name_servers_and_domains(rt: HostRuntime) -> Result<(), Fail> {
    for (resolv, texts) in FILES {
        assert!(rt; finds(rt.alloc(), resolv, texts)?);
    }
    Ok(())
}

/// What options a resolv.conf sets: their numbers, and whether servers take turns and are asked over TCP alone.
type Setting = (&'static str, [u32; 5], bool, bool);

/// Numbers that are cut or aren't understood, and switches; the last of equal options counts.
const SETTINGS: &[Setting] = &[
    (
        "options ndots:99 timeout:0 attempts:77 rotate",
        [2000, 10, 15, 0, 1232],
        true,
        false,
    ),
    (
        "options edns0 trust-ad",
        [2000, 3, 1, 0, 1232],
        false,
        false,
    ),
    (
        "options ndots:002 timeout:3 ndots: ndots:x attempts:+1 use-vc\noptions timeout:100 timeout:ab",
        [60000, 3, 2, 0, 1232],
        false,
        true,
    ),
];

/// Whether it sets them.
fn sets(alloc: Global, setting: &Setting) -> Result<bool, ResolvFault> {
    let (text, numbers, rotate, usevc) = *setting;
    let options = read_resolv(alloc, text.as_bytes())?;
    Ok(
        numbers_of(&options) == numbers
            && options.rotate() == rotate
            && options.flags().usevc == usevc,
    )
}

#[test]
fn files_set_numbers_and_switches(rt: HostRuntime) -> Result<(), Fail> {
    for setting in SETTINGS {
        assert!(rt; sets(rt.alloc(), setting)?);
    }
    Ok(())
}

/// A file of so many bytes, by which servers take turns.
fn long_file(alloc: Global, len: usize) -> Result<Vec<u8>, Fail> {
    let mut bytes = Vec::with_capacity(alloc, len)?;
    bytes.extend_from_slice(b"options rotate #")?;
    bytes.resize(len, b' ')?;
    Ok(bytes)
}

/// Whether servers take turns by a file, or why it can't be read.
fn rotates(alloc: Global, bytes: &[u8]) -> Result<bool, ResolvFault> {
    Ok(read_resolv(alloc, bytes)?.rotate())
}

/// Whether they do by a file of so many bytes, and false where it is too large.
fn long_file_rotates(alloc: Global, len: usize) -> Result<bool, Fail> {
    let bytes = long_file(alloc, len)?;
    match rotates(alloc, bytes.as_slice()) {
        Err(ResolvFault::TooLarge) => Ok(false),
        end => Ok(end?),
    }
}

/// A file of the limit's size is read, and one of a byte more is not.
#[test]
fn only_a_file_above_the_limit_is_refused(rt: HostRuntime) -> Result<(), Fail> {
    assert!(rt; long_file_rotates(rt.alloc(), 65_536)?);
    assert!(rt; !long_file_rotates(rt.alloc(), 65_537)?);
    Ok(())
}

/// Whether with a resolv.conf the names that are asked for a text have these texts.
fn file_asks(alloc: Global, resolv: &[u8], text: &str, asked: &str) -> Result<bool, Fail> {
    let options = read_resolv(alloc, resolv)?;
    asks(alloc, text, &options, asked)
}

/// The domain of systemd's `search .` is the root, so that the name is asked once.
#[test]
fn a_root_domain_adds_no_name(rt: HostRuntime) -> Result<(), Fail> {
    assert!(rt; file_asks(rt.alloc(), b"search .", "www", "www. ")?);
    Ok(())
}
