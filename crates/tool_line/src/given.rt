//! The values of options that were used, and what stands for them where they weren't.

ghost use Rattle.std.specs.Prelude.{◌≡◌, ◌≢◌, ◌≤◌, Some, None, Err, length, IfOk, IfSome, OnErr};
ghost use Rattle.std.specs.String.{string_bytes};
ghost use Rattle.tool_line.specs.Lookup.{read_if, read_or, value_under};
ghost use Rattle.tool_line.specs.Parser.{said};
ghost use Rattle.tool_line.specs.Values as meaning;

use crate::fault::WordFault;
use crate::values::{addresses, number, path};
use crate::words::Words;
use net_addr::AddrList;
use std::alloc::Global;

/// The number that is the option's value, if the option was used.
pub(crate) fn number_if(
    words: &Words,
    name: &str,
    least: u32,
    most: u32,
) -> Result<Option<u32>, WordFault>
    ensures read { IfOk result
        (λ found. read_if (meaning.number_in least most) (value_under (said words.now) name.now) ≡ Some found) }
    ensures within { IfOk result (λ found. IfSome found (λ n. (least ≤ n) × (n ≤ most))) }
    ensures refused { OnErr result
        (read_if (meaning.number_in least most) (value_under (said words.now) name.now) ≡ None) }
{
    match words.value(name) {
        Some(word) => match number(word, least, most) {
            Some(found) => Ok(Some(found)),
            None => Err(WordFault::Refused),
        },
        None => Ok(None),
    }
}

/// The number that is the option's value, or this one where the option wasn't used.
pub(crate) fn number_or(
    words: &Words,
    name: &str,
    least: u32,
    most: u32,
    default: u32,
) -> Result<u32, WordFault>
    ensures read { IfOk result
        (λ found. read_or (meaning.number_in least most) default
        (value_under (said words.now) name.now) ≡ Some found) }
    ensures refused { OnErr result
        (read_or (meaning.number_in least most) default (value_under (said words.now) name.now) ≡ None) }
{
    match words.value(name) {
        Some(word) => match number(word, least, most) {
            Some(found) => Ok(found),
            None => Err(WordFault::Refused),
        },
        None => Ok(default),
    }
}

/// The addresses that are the option's value, if the option was used.
pub(crate) fn addresses_if(
    alloc: Global,
    words: &Words,
    name: &str,
) -> Result<Option<AddrList>, WordFault>
    ensures read { IfOk result
        (λ found. read_if meaning.addresses_in (value_under (said words.now) name.now) ≡ Some found) }
    ensures few { IfOk result (λ found. IfSome found (λ found. (1 ≤ length found) × (length found ≤ 8))) }
    ensures refused { result ≡ Err WordFault.Refused
        → read_if meaning.addresses_in (value_under (said words.now) name.now) ≡ None }
{
    match words.value(name) {
        Some(word) => {
            let found = addresses(alloc, word.as_bytes())?;
            Ok(Some(found))
        }
        None => Ok(None),
    }
}

/// The path that is the option's value, or this one where the option wasn't used.
pub(crate) fn path_or(
    alloc: Global,
    words: &Words,
    name: &str,
    default: &str,
) -> Result<String, WordFault>
    ensures read { IfOk result
        (λ found. read_or meaning.path_in default.now (value_under (said words.now) name.now)
        ≡ Some (string_bytes found)) }
    ensures refused { result ≡ Err WordFault.Refused
        → read_or meaning.path_in default.now (value_under (said words.now) name.now) ≡ None }
{
    match words.value(name) {
        Some(word) => match path(word) {
            Some(path) => Ok(String::from_str(alloc, path)?),
            None => Err(WordFault::Refused),
        },
        None => Ok(String::from_str(alloc, default)?),
    }
}
