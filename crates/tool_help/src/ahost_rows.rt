//! The rows of ahost's screen.

ghost use Rattle.std.specs.Prelude.{◌≡◌, map};
ghost use Rattle.tool_help.specs.Screen.{column_of};
ghost use Rattle.tool_line.specs.Ahost.{ahost_options};

use crate::row::OptionRow;

/// The options of ahost, in the order of the table by which its words are read.
static ROWS: [OptionRow; 21] = [
    OptionRow {
        name: "server",
        value: Some("ADDRESS,.."),
        text: "the servers, 1 to 8 of them, at port 53",
    },
    OptionRow {
        name: "port",
        value: Some("NUMBER"),
        text: "the port of all servers, 1 to 65535",
    },
    OptionRow {
        name: "resolv",
        value: Some("PATH"),
        text: "the file that is read in place of /etc/resolv.conf",
    },
    OptionRow {
        name: "timeout",
        value: Some("MILLISECONDS"),
        text: "how long an attempt waits at first, 1 to 60000",
    },
    OptionRow {
        name: "tries",
        value: Some("NUMBER"),
        text: "how often each server is asked, 1 to 10",
    },
    OptionRow {
        name: "tcp",
        value: None,
        text: "queries go over TCP alone",
    },
    OptionRow {
        name: "no-edns",
        value: None,
        text: "queries have no OPT record",
    },
    OptionRow {
        name: "mix",
        value: None,
        text: "letters have a random case, which replies repeat",
    },
    OptionRow {
        name: "hosts",
        value: Some("PATH"),
        text: "the file that is read in place of /etc/hosts",
    },
    OptionRow {
        name: "family",
        value: Some("FAMILY"),
        text: "which addresses are asked for: any, 4 or 6",
    },
    OptionRow {
        name: "sources",
        value: Some("ADDRESS,.."),
        text: "this machine's addresses, by which others are sorted",
    },
    OptionRow {
        name: "no-sort",
        value: None,
        text: "addresses keep the order in which they were found",
    },
    OptionRow {
        name: "no-search",
        value: None,
        text: "the domains of resolv.conf have no effect",
    },
    OptionRow {
        name: "follow",
        value: None,
        text: "the names of each first address are asked",
    },
    OptionRow {
        name: "first",
        value: None,
        text: "the name that is found first cancels the others",
    },
    OptionRow {
        name: "quit",
        value: None,
        text: "the name that completes first ends all",
    },
    OptionRow {
        name: "workers",
        value: Some("NUMBER"),
        text: "so many threads call the callbacks, 0 to 16; else 0",
    },
    OptionRow {
        name: "load",
        value: Some("NUMBER"),
        text: "asks for so many names over a network in memory",
    },
    OptionRow {
        name: "seed",
        value: Some("NUMBER"),
        text: "what that network loses, 0 to 65535",
    },
    OptionRow {
        name: "then",
        value: Some("ADDRESS,.."),
        text: "the servers that are set behind the first turn",
    },
    OptionRow {
        name: "journal",
        value: None,
        text: "the journal of the run is put in place of the page",
    },
];

/// The options of ahost: those by which its words are read, no more and no fewer.
pub fn ahost_rows() -> &'static [OptionRow]
    ensures { map column_of result.now ≡ ahost_options }
{
    ROWS.as_slice()
}
