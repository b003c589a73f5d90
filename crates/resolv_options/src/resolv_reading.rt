//! A resolv.conf, line by line.

ghost use Rattle.std.specs.Prelude.{◌≡◌, ◌<◌, ◌≤◌, ◌↔◌, ◌∷◌, [], Err, length, map, IfOk, OnOk};
ghost use Rattle.resolv_options.specs.Resolv as resolv;

use crate::fault::ResolvFault;
use crate::keyword::{Keyword, keyword_of};
use crate::option_words::set_options;
use crate::options::{DNS_PORT, LOCAL_SERVER, Options};
use dns_message::NameList;
use item_list::NoMemory;
use net_addr::{ServerAddr, ServerList};
use std::alloc::Global;
use text_lines::{lines_in, read_name, read_names, words_before_comment};

/// The most bytes of a resolv.conf (this project's profile).
const FILE_MOST: usize = 65_536;

/// The most servers that are kept (this project's profile).
const SERVERS_MOST: usize = 8;

/// The most domains that are kept (this project's profile).
const DOMAINS_MOST: usize = 8;

/// The server of a line with these words behind `nameserver`.
fn server_in(words: &[&[u8]]) -> Option<ServerAddr>
    ensures { result ≡ resolv.server_in (map (λ word. word.now) words.now) }
{
    match net_addr::read(words.first()?) {
        Some(address) => Some(ServerAddr {
            address,
            port: DNS_PORT,
        }),
        None => None,
    }
}

/// Adds the server of a line, if it is readable and among the first eight.
fn add_server(servers: &mut Vec<ServerAddr>, words: &[&[u8]]) -> Result<(), NoMemory>
    requires { length servers.old.items ≤ 8 }
    ensures { OnOk result
        (servers.new.items
        ≡ resolv.servers_after servers.old.items
        (record { keyword = Keyword.Nameserver; words = map (λ word. word.now) words.now } ∷ [])) }
{
    match server_in(words) {
        Some(server) => {
            servers.push(server)?;
            servers.truncate(SERVERS_MOST);
            Ok(())
        }
        None => Ok(()),
    }
}

/// The domain of a line with these words behind `domain`, if the first of them is a name.
fn read_domain(alloc: Global, words: &[&[u8]]) -> Result<NameList, NoMemory>
    ensures value { IfOk result (λ domains. domains ≡ resolv.domain_in (map (λ word. word.now) words.now)) }
    ensures few { IfOk result (λ domains. length domains ≤ 8) }
{
    let mut domains = NameList::new(alloc);
    match words.first() {
        Some(word) => match read_name(alloc, word)? {
            Some(name) => {
                domains.push(name)?;
                Ok(domains)
            }
            None => Ok(domains),
        },
        None => Ok(domains),
    }
}

/// The domains of a line with these words behind `search`: the first eight that are names.
fn read_search(alloc: Global, words: &[&[u8]]) -> Result<NameList, NoMemory>
    ensures value { IfOk result (λ domains. domains ≡ resolv.search_in (map (λ word. word.now) words.now)) }
    ensures few { IfOk result (λ domains. length domains ≤ 8) }
{
    let mut domains = read_names(alloc, words)?.into_vec();
    domains.truncate(DOMAINS_MOST);
    Ok(NameList::from_vec(domains))
}

/// Does what a line says, by its keyword and the words behind.
fn follow(
    alloc: Global,
    options: &mut Options,
    servers: &mut Vec<ServerAddr>,
    keyword: Keyword,
    words: &[&[u8]],
) -> Result<(), NoMemory>
    requires { length servers.old.items ≤ 8 }
    ensures options { OnOk result
        (options.new ≡ resolv.with_directives options.old
        (record { keyword = keyword; words = map (λ word. word.now) words.now } ∷ [])) }
    ensures servers { OnOk result
        (servers.new.items
        ≡ resolv.servers_after servers.old.items
        (record { keyword = keyword; words = map (λ word. word.now) words.now } ∷ [])) }
{
    match keyword {
        Keyword::Nameserver => add_server(servers, words),
        Keyword::Domain => {
            options.domains = read_domain(alloc, words)?;
            Ok(())
        }
        Keyword::Search => {
            options.domains = read_search(alloc, words)?;
            Ok(())
        }
        Keyword::Options => {
            set_options(options, words);
            Ok(())
        }
        Keyword::Other => Ok(()),
    }
}

/// Does what a line says.
fn follow_line(
    alloc: Global,
    options: &mut Options,
    servers: &mut Vec<ServerAddr>,
    line: &[u8],
) -> Result<(), NoMemory>
    requires { length servers.old.items ≤ 8 }
    ensures options { OnOk result
        (options.new ≡ resolv.with_directives options.old (resolv.directive_of_line line.now ∷ [])) }
    ensures servers { OnOk result
        (servers.new.items ≡ resolv.servers_after servers.old.items (resolv.directive_of_line line.now ∷ [])) }
{
    let words = words_before_comment(alloc, line)?;
    match words.as_slice().split_first() {
        Some((word, others)) => follow(alloc, options, servers, keyword_of(word), others),
        None => Ok(()),
    }
}

/// The servers that are asked: those of the file, or this machine's own where it has none.
fn or_local(alloc: Global, servers: Vec<ServerAddr>) -> Result<ServerList, NoMemory>
    requires { length servers.items ≤ 8 }
    ensures value { IfOk result (λ asked. asked ≡ resolv.or_local servers.items) }
    ensures few { IfOk result (λ asked. (1 ≤ length asked) × (length asked ≤ 8)) }
{
    if servers.is_empty() {
        return ServerList::of(alloc, &[LOCAL_SERVER]);
    }
    Ok(ServerList::from_vec(servers))
}

/// The options that the lines of a text set.
fn read_lines(alloc: Global, text: &[u8]) -> Result<Options, NoMemory>
    ensures { IfOk result (λ options. options ≡ resolv.resolv_values text.now) }
{
    let mut options = Options::plain(alloc)?;
    let mut servers = Vec::new(alloc);
    for line in lines_in(text) {
        follow_line(alloc, &mut options, &mut servers, line)?;
    }
    options.set_servers(or_local(alloc, servers)?);
    Ok(options)
}

/// The options that a resolv.conf sets, and the defaults of all others. What can't be read is passed over.
pub fn read_resolv(alloc: Global, bytes: &[u8]) -> Result<Options, ResolvFault>
    ensures read { IfOk result (λ options. options ≡ resolv.resolv_values bytes.now) }
    // A file above the limit is refused, and no other.
    ensures large { (result ≡ Err ResolvFault.TooLarge) ↔ (65536 < length bytes.now) }
{
    if bytes.len() > FILE_MOST {
        return Err(ResolvFault::TooLarge);
    }
    Ok(read_lines(alloc, bytes)?)
}
