//! The flags of a command line that turn a channel's flags.

ghost use Rattle.std.specs.Prelude.{◌≡◌};
ghost use Rattle.tool_line.specs.Parser.{said};
ghost use Rattle.tool_line.specs.Settings as meaning;

use crate::words::Words;
use resolv_options::Flags;

/// The switches that words turn, by the names of their options.
#[derive(Clone, Copy, Debug, PartialEq, Eq)]
pub struct Switches {
    pub tcp: bool,
    pub primary: bool,
    pub ignore_tc: bool,
    pub no_recurse: bool,
    pub no_search: bool,
    pub no_check: bool,
    pub no_edns: bool,
    pub mix: bool,
}

/// The switches that the words turn.
pub(crate) fn switches_in(words: &Words) -> Switches
    ensures { result ≡ meaning.switches_in (said words.now) }
{
    Switches {
        tcp: words.has("tcp"),
        primary: words.has("primary"),
        ignore_tc: words.has("ignore-tc"),
        no_recurse: words.has("no-recurse"),
        no_search: words.has("no-search"),
        no_check: words.has("no-check"),
        no_edns: words.has("no-edns"),
        mix: words.has("mix"),
    }
}

/// The flags, with those that the words turn.
pub(crate) fn flags_with(switches: Switches, flags: Flags) -> Flags
    ensures { result ≡ meaning.flags_with switches flags }
{
    Flags {
        usevc: switches.tcp || flags.usevc,
        primary: switches.primary || flags.primary,
        igntc: switches.ignore_tc || flags.igntc,
        norecurse: switches.no_recurse || flags.norecurse,
        nosearch: switches.no_search || flags.nosearch,
        nocheckresp: switches.no_check || flags.nocheckresp,
        edns: !switches.no_edns && flags.edns,
        mix: switches.mix || flags.mix,
    }
}
