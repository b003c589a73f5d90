//! The rows of adig's screen.

ghost use Rattle.std.specs.Prelude.{◌≡◌, map};
ghost use Rattle.tool_help.specs.Screen.{column_of};
ghost use Rattle.tool_line.specs.Adig.{adig_options};

use crate::row::OptionRow;

/// The options of adig, in the order of the table by which its words are read.
static ROWS: [OptionRow; 18] = [
    OptionRow {
        name: "server",
        value: Some("ADDRESS,.."),
        text: "the servers, 1 to 8 of them, at port 53",
    },
    OptionRow {
        name: "port",
        value: Some("NUMBER"),
        text: "the port of all servers, 1 to 65535",
    },
    OptionRow {
        name: "resolv",
        value: Some("PATH"),
        text: "the file that is read in place of /etc/resolv.conf",
    },
    OptionRow {
        name: "timeout",
        value: Some("MILLISECONDS"),
        text: "how long an attempt waits at first, 1 to 60000",
    },
    OptionRow {
        name: "tries",
        value: Some("NUMBER"),
        text: "how often each server is asked, 1 to 10",
    },
    OptionRow {
        name: "type",
        value: Some("TYPE"),
        text: "the type that is asked for, as AAAA or TYPE65280",
    },
    OptionRow {
        name: "class",
        value: Some("CLASS"),
        text: "the class, as CH or CLASS3",
    },
    OptionRow {
        name: "tcp",
        value: None,
        text: "queries go over TCP alone",
    },
    OptionRow {
        name: "no-edns",
        value: None,
        text: "queries have no OPT record",
    },
    OptionRow {
        name: "primary",
        value: None,
        text: "the first server alone is asked",
    },
    OptionRow {
        name: "ignore-tc",
        value: None,
        text: "a truncated reply counts",
    },
    OptionRow {
        name: "no-recurse",
        value: None,
        text: "queries don't ask for recursion",
    },
    OptionRow {
        name: "no-check",
        value: None,
        text: "a server that fails or refuses has answered",
    },
    OptionRow {
        name: "search",
        value: None,
        text: "the name is asked under the domains of the file",
    },
    OptionRow {
        name: "reverse",
        value: None,
        text: "the name is an address, whose names are asked",
    },
    OptionRow {
        name: "mix",
        value: None,
        text: "letters have a random case, which replies repeat",
    },
    OptionRow {
        name: "journal",
        value: None,
        text: "the journal of the run is put in place of the page",
    },
    OptionRow {
        name: "cookie",
        value: None,
        text: "queries over UDP have a DNS cookie",
    },
];

/// The options of adig: those by which its words are read, no more and no fewer.
pub fn adig_rows() -> &'static [OptionRow]
    ensures { map column_of result.now ≡ adig_options }
{
    ROWS.as_slice()
}
