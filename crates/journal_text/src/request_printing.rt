//! What a request asks, as text.

ghost use Rattle.std.specs.Prelude.{◌≡◌, ◌++◌, flat_map, OnOk};
ghost use Rattle.journal_text.specs.Words.{spaced, family_number, truth_number};
ghost use Rattle.journal_text.specs.Requests.{spec_words};

use crate::atom_printing::{put_address, put_bytes, put_number, put_word};
use chan_types::Spec;
use item_list::NoMemory;
use net_addr::Family;
use std::alloc::Global;

/// The number of a family.
fn number_of(family: Family) -> u64
    ensures { result ≡ family_number family }
{
    match family {
        Family::Any => 0,
        Family::V4 => 1,
        Family::V6 => 2,
    }
}

/// The number of yes or no.
pub(crate) fn truth_of(truth: bool) -> u64
    ensures { result ≡ truth_number truth }
{
    if truth { 1 } else { 0 }
}

/// Prints a request, each word behind a blank.
pub(crate) fn put_spec(alloc: Global, text: &mut Vec<u8>, spec: &Spec) -> Result<(), NoMemory>
    ensures { OnOk result (text.new.items ≡ text.old.items ++ flat_map spaced (spec_words spec.now)) }
{
    match spec {
        Spec::Query { name, kind, class } => {
            put_word(text, b"q")?;
            put_bytes(alloc, text, name.as_slice())?;
            put_number(text, *kind as u64)?;
            put_number(text, *class as u64)
        }
        Spec::Search { name, kind, class } => {
            put_word(text, b"s")?;
            put_bytes(alloc, text, name.as_slice())?;
            put_number(text, *kind as u64)?;
            put_number(text, *class as u64)
        }
        Spec::Address {
            host,
            family,
            nosort,
        } => {
            put_word(text, b"a")?;
            put_bytes(alloc, text, host.as_slice())?;
            put_number(text, number_of(*family))?;
            put_number(text, truth_of(*nosort))
        }
        Spec::Reverse { address } => {
            put_word(text, b"r")?;
            put_address(alloc, text, *address)
        }
    }
}
