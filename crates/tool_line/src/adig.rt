//! What a command line asks of adig.

ghost use Rattle.std.specs.Prelude.{◌≡◌, [], Some, None, Err, IfOk, OnErr, map};
ghost use Rattle.tool_line.specs.Adig as meaning;
ghost use Rattle.tool_line.specs.Parser.{said};
ghost use Rattle.tool_line.specs.declared.adig.AdigAsk.{AdigAsk as Asked};

use crate::fault::WordFault;
use crate::files::RESOLV_PATH;
use crate::given::path_or;
use crate::heads::{A, IN};
use crate::settings::Settings;
use crate::words::{Choice, Words, read_words};
use chan_types::{Bytes, Spec};
use dns_rdata::{class_word, kind_word};
use net_addr::read;
use std::alloc::Global;

/// The options of adig.
static OPTIONS: [Choice<'static>; 18] = [
    Choice {
        name: "server",
        takes_value: true,
    },
    Choice {
        name: "port",
        takes_value: true,
    },
    Choice {
        name: "resolv",
        takes_value: true,
    },
    Choice {
        name: "timeout",
        takes_value: true,
    },
    Choice {
        name: "tries",
        takes_value: true,
    },
    Choice {
        name: "type",
        takes_value: true,
    },
    Choice {
        name: "class",
        takes_value: true,
    },
    Choice {
        name: "tcp",
        takes_value: false,
    },
    Choice {
        name: "no-edns",
        takes_value: false,
    },
    Choice {
        name: "primary",
        takes_value: false,
    },
    Choice {
        name: "ignore-tc",
        takes_value: false,
    },
    Choice {
        name: "no-recurse",
        takes_value: false,
    },
    Choice {
        name: "no-check",
        takes_value: false,
    },
    Choice {
        name: "search",
        takes_value: false,
    },
    Choice {
        name: "reverse",
        takes_value: false,
    },
    Choice {
        name: "mix",
        takes_value: false,
    },
    Choice {
        name: "journal",
        takes_value: false,
    },
    Choice {
        name: "cookie",
        takes_value: false,
    },
];

/// What a command line asks of adig.
#[derive(Drop)]
pub struct AdigAsk {
    /// The path of resolv.conf.
    pub resolv: String,
    /// What the words set of the channel's options.
    pub settings: Settings,
    /// The request.
    pub spec: Spec,
    /// Whether the book of the run stands in place of the page.
    pub journal: bool,
    /// Whether queries over UDP have a DNS cookie (RFC 7873).
    pub cookie: bool,
}

/// What the words ask of adig. They are refused where they ask nothing.
pub fn adig_ask<'a>(alloc: Global, words: &'a [&'a str]) -> Result<AdigAsk, WordFault>
    ensures read { IfOk result (meaning.AdigAsks (map (λ word. word.now) words.now)) }
    ensures refused { result ≡ Err WordFault.Refused → (ask : Asked)
        → meaning.AdigAsks (map (λ word. word.now) words.now) ask → ⊥ }
{
    match read_words(alloc, OPTIONS.as_slice(), words) {
        Ok(read) => ask_in(alloc, &read),
        Err(fault) => Err(fault),
    }
}

/// What is asked, by what is said under the names of the options.
fn ask_in(alloc: Global, words: &Words) -> Result<AdigAsk, WordFault>
    ensures read { IfOk result (meaning.IsSaid (said words.now)) }
    ensures refused { result ≡ Err WordFault.Refused → (ask : Asked) → meaning.IsSaid (said words.now) ask → ⊥ }
{
    let resolv = path_or(alloc, words, "resolv", RESOLV_PATH)?;
    let settings = Settings::read(alloc, words)?;
    let spec = spec_in(alloc, words)?;
    Ok(AdigAsk {
        resolv,
        settings,
        spec,
        journal: words.has("journal"),
        cookie: words.has("cookie"),
    })
}

/// The request that is asked for.
fn spec_in(alloc: Global, words: &Words) -> Result<Spec, WordFault>
    ensures read { IfOk result (λ spec. meaning.spec_in (said words.now) ≡ Some spec) }
    ensures refused { result ≡ Err WordFault.Refused → meaning.spec_in (said words.now) ≡ None }
{
    let name = only_word(words)?;
    let kind = kind_in(words)?;
    let class = class_in(words)?;
    spec_for(
        alloc,
        words.has("reverse"),
        words.has("search"),
        name,
        kind,
        class,
    )
}

/// The one plain word.
fn only_word<'a>(words: &Words<'a>) -> Result<&'a str, WordFault>
    ensures read { IfOk result (λ word. meaning.only_word (said words.now []) ≡ Some word.now) }
    ensures refused { OnErr result (meaning.only_word (said words.now []) ≡ None) }
{
    match words.plain() {
        Some([word]) => Ok(*word),
        Some([] | [_, _, ..]) | None => Err(WordFault::Refused),
    }
}

/// The type that the words name.
fn kind_in(words: &Words) -> Result<u16, WordFault>
    ensures read { IfOk result (λ kind. meaning.kind_in (said words.now) ≡ Some kind) }
    ensures refused { OnErr result (meaning.kind_in (said words.now) ≡ None) }
{
    match words.value("type") {
        Some(word) => match kind_word(word.as_bytes()) {
            Some(kind) => Ok(kind),
            None => Err(WordFault::Refused),
        },
        None => Ok(A),
    }
}

/// The class that the words name.
fn class_in(words: &Words) -> Result<u16, WordFault>
    ensures read { IfOk result (λ class. meaning.class_in (said words.now) ≡ Some class) }
    ensures refused { OnErr result (meaning.class_in (said words.now) ≡ None) }
{
    match words.value("class") {
        Some(word) => match class_word(word.as_bytes()) {
            Some(class) => Ok(class),
            None => Err(WordFault::Refused),
        },
        None => Ok(IN),
    }
}

/// The request for this name.
fn spec_for(
    alloc: Global,
    reverse: bool,
    search: bool,
    name: &str,
    kind: u16,
    class: u16,
) -> Result<Spec, WordFault>
    ensures read { IfOk result (λ spec. meaning.spec_for reverse search name.now kind class ≡ Some spec) }
    ensures refused { result ≡ Err WordFault.Refused
        → meaning.spec_for reverse search name.now kind class ≡ None }
{
    if reverse {
        return match read(name.as_bytes()) {
            Some(address) => Ok(Spec::Reverse { address }),
            None => Err(WordFault::Refused),
        };
    }
    let name = Bytes::of(alloc, name.as_bytes())?;
    if search {
        Ok(Spec::Search { name, kind, class })
    } else {
        Ok(Spec::Query { name, kind, class })
    }
}
