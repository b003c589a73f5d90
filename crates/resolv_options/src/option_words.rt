//! The words behind `options` in resolv.conf.

ghost use Rattle.std.specs.Prelude.{◌≡◌, ◌≤◌, ◌∷◌, [], map, min, codes, option_map, IfSome};
ghost use Rattle.resolv_options.specs.OptionWords as meaning;

use crate::options::Options;

/// The most dots with which a name is asked as it is first (resolv.conf(5)).
const NDOTS_MOST: u8 = 15;

/// The most seconds that the first attempt waits (this project's profile).
const SECONDS_MOST: u8 = 60;

/// The most tries of each server (this project's profile).
const TRIES_MOST: u8 = 10;

/// The number that a text of decimal digits is, cut to a most. Other texts are none.
fn number_in(digits: &[u8], most: u8) -> Option<u8>
    ensures value { result ≡ option_map (λ n. min most n) (meaning.number_of digits.now) }
    ensures most { IfSome result (λ n. n ≤ most) }
{
    if digits.is_empty() {
        return None;
    }
    let mut number = 0;
    for digit in digits {
        if !digit.is_ascii_digit() {
            return None;
        }
        number = (number * 10 + u16::from(*digit - b'0')).min(u16::from(most));
    }
    Some(number as u8)
}

/// The number behind what a word begins with, cut to a most.
fn number_behind(key: &[u8], word: &[u8], most: u8) -> Option<u8>
    ensures value { result ≡ meaning.cut_number key.now most word.now }
    ensures most { IfSome result (λ n. n ≤ most) }
{
    match word.strip_prefix(key) {
        Some(digits) => number_in(digits, most),
        None => None,
    }
}

/// The number, unless it is zero.
fn unless_zero(number: Option<u8>) -> Option<u8>
    ensures value { result ≡ meaning.unless_zero number }
    ensures some { IfSome result (λ n. 1 ≤ n) }
{
    match number {
        Some(0) | None => None,
        Some(n) => Some(n),
    }
}

/// The dots of an option `ndots:n`.
fn ndots_in(word: &[u8]) -> Option<u8>
    ensures value { result ≡ meaning.ndots_in word.now }
    ensures few { IfSome result (λ n. n ≤ 15) }
{
    number_behind(b"ndots:", word, NDOTS_MOST)
}

/// The tries of an option `attempts:n`.
fn tries_in(word: &[u8]) -> Option<u8>
    ensures value { result ≡ meaning.tries_in word.now }
    ensures few { IfSome result (λ n. (1 ≤ n) × (n ≤ 10)) }
{
    unless_zero(number_behind(b"attempts:", word, TRIES_MOST))
}

/// The first wait of an option `timeout:n`, in milliseconds.
fn timeout_in(word: &[u8]) -> Option<u32>
    ensures value { result ≡ meaning.timeout_in word.now }
    ensures short { IfSome result (λ n. (1 ≤ n) × (n ≤ 60000)) }
{
    match unless_zero(number_behind(b"timeout:", word, SECONDS_MOST)) {
        Some(seconds) => Some(u32::from(seconds) * 1000),
        None => None,
    }
}

/// Sets what an option says.
fn set_option(options: &mut Options, word: &[u8])
    ensures { options.new ≡ meaning.with_options options.old (word.now ∷ []) }
{
    options.ndots = ndots_in(word).unwrap_or(options.ndots);
    options.timeout = timeout_in(word).unwrap_or(options.timeout);
    options.tries = tries_in(word).unwrap_or(options.tries);
    options.flags.usevc = word == b"use-vc".as_slice() || options.flags.usevc;
    options.rotate = word == b"rotate".as_slice() || options.rotate;
}

/// Sets what options say, in order.
pub(crate) fn set_options(options: &mut Options, words: &[&[u8]])
    ensures { options.new ≡ meaning.with_options options.old (map (λ word. word.now) words.now) }
{
    for word in words {
        set_option(options, word);
    }
}
