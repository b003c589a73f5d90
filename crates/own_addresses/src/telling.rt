//! What the files of the system tell (proc(5)).

ghost use Rattle.std.specs.Prelude.{◌≡◌, ◌++◌, map, option_to_list, IfOk, OnOk};
ghost use Rattle.text_lines.specs.Words.{words_of};
ghost use Rattle.own_addresses.specs.Telling as meaning;

use item_list::NoMemory;
use net_addr::{Addr, read};
use std::alloc::Global;
use text_lines::{lines_in, words_in};

/// How many hexadecimal digits an IPv6 address has there.
const DIGITS: usize = 32;

/// The word at this place of a line, and the empty one where there is none.
pub(crate) fn word_at<'a>(words: &[&'a [u8]], place: usize) -> &'a [u8]
    ensures { result.now ≡ meaning.word_at (map (λ word. word.now) words.now) place }
{
    match words.get(place) {
        Some(word) => word,
        None => b"".as_slice(),
    }
}

/// Whether a text like /proc/net/ipv6_route tells a default route.
pub(crate) fn has_default_v6(alloc: Global, text: &[u8]) -> Result<bool, NoMemory>
    ensures { IfOk result (λ found. found ≡ meaning.has_line meaning.is_default_v6 text.now) }
{
    let mut found = false;
    for line in lines_in(text) {
        let words = words_in(alloc, line)?;
        found = found || is_default_v6(words.as_slice());
    }
    Ok(found)
}

/// Whether the words of a line are a default route.
fn is_default_v6(words: &[&[u8]]) -> bool
    ensures { result ≡ meaning.is_default_v6 (map (λ word. word.now) words.now) }
{
    word_at(words, 1) == b"00".as_slice() && word_at(words, 9) != b"lo".as_slice()
}

/// Whether a text like /proc/net/fib_trie tells a default route.
pub(crate) fn has_default_v4(alloc: Global, text: &[u8]) -> Result<bool, NoMemory>
    ensures { IfOk result (λ found. found ≡ meaning.has_line meaning.is_default_v4 text.now) }
{
    let mut found = false;
    for line in lines_in(text) {
        let words = words_in(alloc, line)?;
        found = found || is_default_v4(words.as_slice());
    }
    Ok(found)
}

/// Whether the words of a line are a default route.
fn is_default_v4(words: &[&[u8]]) -> bool
    ensures { result ≡ meaning.is_default_v4 (map (λ word. word.now) words.now) }
{
    word_at(words, 0) == b"/0".as_slice() && word_at(words, 2) == b"UNICAST".as_slice()
}

/// Adds the IPv6 addresses that a text like /proc/net/if_inet6 tells.
pub(crate) fn add_v6(alloc: Global, told: &mut Vec<Addr>, text: &[u8]) -> Result<(), NoMemory>
    ensures { OnOk result (told.new.items ≡ told.old.items ++ meaning.v6_told text.now) }
{
    for line in lines_in(text) {
        add_line(alloc, told, line)?;
    }
    Ok(())
}

/// Adds the address that a line tells, if it tells one.
fn add_line(alloc: Global, told: &mut Vec<Addr>, line: &[u8]) -> Result<(), NoMemory>
    ensures { OnOk result (told.new.items ≡ told.old.items
        ++ option_to_list (meaning.v6_in (words_of line.now))) }
{
    let words = words_in(alloc, line)?;
    if let Some(address) = v6_in(alloc, words.as_slice())? {
        told.push(address)?;
    }
    Ok(())
}

/// The address of a line of these words, if it serves.
fn v6_in(alloc: Global, words: &[&[u8]]) -> Result<Option<Addr>, NoMemory>
    ensures { IfOk result (λ found. found ≡ meaning.v6_in (map (λ word. word.now) words.now)) }
{
    if serves(word_at(words, 4)) {
        v6_of(alloc, word_at(words, 0))
    } else {
        Ok(None)
    }
}

/// Whether an address with these flags serves.
fn serves(flags: &[u8]) -> bool
    ensures { result ≡ meaning.serves flags.now }
{
    match flags {
        [high, low] => digit_of(*low) < 8 && digit_of(*high) / 2 % 4 == 0,
        _ => false,
    }
}

/// The number of a hexadecimal digit in lower case, and 0 for another byte.
fn digit_of(byte: u8) -> u8
    ensures { result ≡ meaning.digit_of byte }
{
    match byte {
        b'0'..=b'9' => byte - b'0',
        b'a'..=b'f' => byte - b'a' + 10,
        _ => 0,
    }
}

/// The address that so many hexadecimal digits are.
fn v6_of(alloc: Global, digits: &[u8]) -> Result<Option<Addr>, NoMemory>
    ensures { IfOk result (λ found. found ≡ meaning.v6_of digits.now) }
{
    if digits.len() != DIGITS {
        return Ok(None);
    }
    let mut text = Vec::new(alloc);
    for digit in digits {
        add_digit(&mut text, *digit)?;
    }
    Ok(read(text.as_slice()))
}

/// Adds a digit, and before it a colon behind each four.
fn add_digit(text: &mut Vec<u8>, digit: u8) -> Result<(), NoMemory>
    ensures { OnOk result (text.new.items ≡ meaning.with_digit text.old.items digit) }
{
    if text.len() % 5 == 4 {
        text.push(b':')?;
    }
    text.push(digit)?;
    Ok(())
}
