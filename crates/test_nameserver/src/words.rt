//! The words of a line of a zone's text, and the numbers among them.

ghost use Rattle.std.specs.Prelude.{◌≡◌, map, IfOk};
ghost use Rattle.test_nameserver.specs.Words as meaning;

use item_list::NoMemory;
use std::alloc::Global;

/// Whether the byte parts words.
fn is_blank(byte: u8) -> bool
    ensures { result ≡ meaning.is_blank byte }
{
    byte == b' ' || byte == b'\t'
}

/// The words of a line, which blanks part.
pub(crate) fn words_in<'a>(alloc: Global, line: &'a [u8]) -> Result<Vec<&'a [u8]>, NoMemory>
    ensures { IfOk result (λ found. map (λ word. word.now) found.items ≡ meaning.words_of line.now) }
{
    let found = line
        .split(|byte| is_blank(*byte))
        .filter(|part| !part.is_empty())
        .collect(alloc)?;
    Ok(found)
}

/// The number that a word of decimal digits without a leading zero is, where it is at most this one.
pub(crate) fn number_up_to(most: u32, word: &[u8]) -> Option<u32>
    ensures { result ≡ meaning.number_up_to most word.now }
{
    match word {
        [] | [b'0', _, ..] => None,
        _ => digits_up_to(most, word),
    }
}

/// The number that these digits are, where they are digits and it is at most this one.
fn digits_up_to(most: u32, word: &[u8]) -> Option<u32>
    ensures { result ≡ meaning.digits_up_to most word.now }
{
    // One above the most stands for every greater number.
    let above = most as u64 + 1;
    let mut number = 0;
    for digit in word {
        if !digit.is_ascii_digit() {
            return None;
        }
        number = (number * 10 + (*digit - b'0') as u64).min(above);
    }
    if number == above {
        return None;
    }
    Some(number as u32)
}
