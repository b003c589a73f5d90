//! A run that is read line by line.

ghost use Rattle.std.specs.Prelude.{◌≡◌, Some, None, Err, IfOk, OnOk};
ghost use Rattle.journal_text.specs.Drafts as meaning;

use crate::book::Book;
use crate::fault::LineFault;
use crate::line::{Line, OptionLine};
use chan_types::{Entry, Journal};
use dns_message::NameList;
use item_list::{Bytes, ItemList, NoMemory};
use net_addr::{AddrList, ServerList};
use resolv_options::{Flags, Lookups, Options};
use std::alloc::Global;

/// The most servers, domains and sources of options (this project's profile).
const ITEMS_MOST: usize = 8;

/// Where a text stands: what its last line was.
#[derive(Clone, Copy, Debug, PartialEq, Eq)]
pub(crate) enum Section {
    /// There was no line yet.
    Nothing,
    Headed,
    Optioned,
    Servers,
    Domains,
    Sources,
    /// The hosts file, or an entry.
    Entries,
    Ended,
}

/// What the lines so far said.
#[derive(Drop)]
pub(crate) struct Draft {
    pub(crate) section: Section,
    pub(crate) line: OptionLine,
    pub(crate) servers: ServerList,
    pub(crate) domains: NameList,
    pub(crate) sources: AddrList,
    pub(crate) hosts: Bytes,
    pub(crate) entries: ItemList<Entry>,
}

/// Where a text stands behind this line, if the line may stand there.
fn section_behind(section: Section, line: &Line) -> Option<Section>
    ensures { result ≡ meaning.section_behind section line.now }
{
    match (section, line) {
        (Section::Nothing, Line::Head) => Some(Section::Headed),
        (Section::Headed, Line::Set(_)) => Some(Section::Optioned),
        (Section::Optioned | Section::Servers, Line::Server(_)) => Some(Section::Servers),
        (Section::Servers | Section::Domains, Line::Domain(_)) => Some(Section::Domains),
        (Section::Servers | Section::Domains | Section::Sources, Line::Source(_)) => {
            Some(Section::Sources)
        }
        (Section::Servers | Section::Domains | Section::Sources, Line::Hosts(_)) => {
            Some(Section::Entries)
        }
        (Section::Entries, Line::Event(_)) => Some(Section::Entries),
        (Section::Entries, Line::End) => Some(Section::Ended),
        _ => None,
    }
}

impl Draft {
    /// What no line says: the options are the default ones, and all lists are empty. It takes no memory.
    pub(crate) fn new(alloc: Global) -> Draft
        ensures { result ≡ meaning.blank }
    {
        Draft {
            section: Section::Nothing,
            line: OptionLine {
                timeout: 2000,
                tries: 3,
                ndots: 1,
                max_timeout: 0,
                flags: Flags {
                    usevc: false,
                    primary: false,
                    igntc: false,
                    norecurse: false,
                    nosearch: false,
                    nocheckresp: false,
                    edns: true,
                    mix: false,
                },
                rotate: false,
                lookups: Lookups::FilesDns,
                edns_size: 1232,
            },
            servers: ServerList::new(alloc),
            domains: NameList::new(alloc),
            sources: AddrList::new(alloc),
            hosts: Bytes::new(alloc),
            entries: ItemList::new(alloc),
        }
    }

    /// Whether there is room for the line's item.
    fn has_room(&self, line: &Line) -> bool
        ensures { result ≡ meaning.has_room self.now line.now }
    {
        match line {
            Line::Server(_) => self.servers.len() < ITEMS_MOST,
            Line::Domain(_) => self.domains.len() < ITEMS_MOST,
            Line::Source(_) => self.sources.len() < ITEMS_MOST,
            Line::Head | Line::Set(_) | Line::Hosts(_) | Line::Event(_) | Line::End => true,
        }
    }

    /// Takes what a line says.
    fn take(&mut self, line: Line) -> Result<(), NoMemory>
        ensures { OnOk result (self.new ≡ meaning.with_line self.old line) }
    {
        match line {
            Line::Head | Line::End => {}
            Line::Set(options) => self.line = options,
            Line::Server(server) => self.servers.push(server)?,
            Line::Domain(name) => self.domains.push(name)?,
            Line::Source(address) => self.sources.push(address)?,
            Line::Hosts(bytes) => self.hosts = bytes,
            Line::Event(entry) => self.entries.push(entry)?,
        }
        Ok(())
    }

    /// Adds a line, where it may stand there. After a refusal the draft is of no further use.
    pub(crate) fn add(&mut self, line: Line) -> Result<(), LineFault>
        ensures added { OnOk result (meaning.added self.old line ≡ Some self.new) }
        ensures refused { result ≡ Err LineFault.Bad → meaning.added self.old line ≡ None }
    {
        if !self.has_room(&line) {
            return Err(LineFault::Bad);
        }
        let Some(section) = section_behind(self.section, &line) else {
            return Err(LineFault::Bad);
        };
        self.take(line)?;
        self.section = section;
        Ok(())
    }

    /// Whether the text has ended.
    pub(crate) fn is_ended(&self) -> bool
        ensures { result ≡ meaning.is_ended self.now }
    {
        self.section == Section::Ended
    }

    /// The run that the lines said.
    pub(crate) fn into_book(self, alloc: Global) -> Result<Book, NoMemory>
        requires { meaning.HasLimits self }
        ensures { IfOk result (λ book. book ≡ meaning.book_of self) }
    {
        let mut options = Options::plain(alloc)?;
        options.set_servers(self.servers);
        options.set_search(self.domains, self.line.ndots, self.line.rotate);
        options.set_sources(self.sources);
        options.set_numbers(self.line.timeout, self.line.tries);
        options.set_sizes(self.line.max_timeout, self.line.edns_size);
        options.set_flags(self.line.flags);
        options.set_lookups(self.line.lookups);
        Ok(Book {
            options,
            hosts: self.hosts,
            journal: Journal::from_vec(self.entries.into_vec()),
        })
    }
}
