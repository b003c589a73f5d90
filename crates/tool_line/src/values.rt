//! The values of options, read out of their words.

ghost use Rattle.std.specs.Prelude.{◌≡◌, ◌≤◌, ℕ, Some, None, Err, codes, decimal, length, map, option_map, IfOk, IfSome};
ghost use Rattle.std.specs.Char.{is_ascii_digit};
ghost use Rattle.std.specs.List.{list_all};
ghost use Rattle.tool_line.specs.Values as meaning;

use crate::fault::WordFault;
use item_list::NoMemory;
use net_addr::{AddrList, Family, read};
use std::alloc::Global;

/// The most addresses of one value (this project's profile).
const ADDRESSES_MOST: usize = 8;

/// The number that a word is, if it is one between these two: decimal digits, without a sign and without a leading zero.
pub fn number(word: &str, least: u32, most: u32) -> Option<u32>
    ensures value { result ≡ meaning.number_in least most word.now }
    // What is read is spelled so, and lies between the two.
    ensures found { IfSome result (λ n. (word.now ≡ decimal n) × (least ≤ n) × (n ≤ most)) }
    // What is spelled so is read.
    ensures only { (n : ℕ) → word.now ≡ decimal n → least ≤ n → n ≤ most → result ≡ Some n }
{
    read_number(word, least, most)
}

/// The number that a word is, if it is one between these two.
fn read_number(word: &str, least: u32, most: u32) -> Option<u32>
    ensures { result ≡ meaning.number_in least most word.now }
{
    if !is_plain_number(word.as_bytes()) {
        return None;
    }
    match word.parse::<u32>() {
        Ok(number) => within(number, least, most),
        Err(_) => None,
    }
}

/// Whether the word is decimal digits, of which a zero in front stands alone.
fn is_plain_number(word: &[u8]) -> bool
    ensures { result ≡ meaning.is_plain_number word.now }
{
    match word {
        [] => false,
        [_] => are_digits(word),
        [first, ..] => *first != b'0' && are_digits(word),
    }
}

/// Whether each byte is a decimal digit.
fn are_digits(bytes: &[u8]) -> bool
    ensures { result ≡ list_all is_ascii_digit bytes.now }
{
    bytes.iter().all(|byte| byte.is_ascii_digit())
}

/// The number, if it lies between these two.
fn within(number: u32, least: u32, most: u32) -> Option<u32>
    ensures { result ≡ meaning.within least most number }
{
    if least <= number && number <= most {
        Some(number)
    } else {
        None
    }
}

/// The addresses that a word has, 1 to 8 of them with a comma between each two.
pub fn addresses(alloc: Global, word: &[u8]) -> Result<AddrList, WordFault>
    ensures read { IfOk result (λ found. meaning.addresses_in word.now ≡ Some found) }
    ensures few { IfOk result (λ found. (1 ≤ length found) × (length found ≤ 8)) }
    ensures refused { result ≡ Err WordFault.Refused → meaning.addresses_in word.now ≡ None }
{
    let parts = parts_of(alloc, word)?;
    if parts.len() > ADDRESSES_MOST {
        return Err(WordFault::Refused);
    }
    all_addresses(alloc, parts.as_slice())
}

/// The parts of a word between its commas.
fn parts_of<'a>(alloc: Global, word: &'a [u8]) -> Result<Vec<&'a [u8]>, NoMemory>
    ensures value { IfOk result (λ parts. map (λ part. part.now) parts.items ≡ meaning.parts_of word.now) }
    ensures some { IfOk result (λ parts. 1 ≤ length parts.items) }
{
    let parts = word.split(|byte| *byte == b',').collect(alloc)?;
    Ok(parts)
}

/// The addresses that these texts are, if each is one.
fn all_addresses(alloc: Global, texts: &[&[u8]]) -> Result<AddrList, WordFault>
    ensures read { IfOk result (λ found. meaning.addresses_of (map (λ text. text.now) texts.now) ≡ Some found) }
    ensures each { IfOk result (λ found. length found ≡ length texts.now) }
    ensures refused { result ≡ Err WordFault.Refused
        → meaning.addresses_of (map (λ text. text.now) texts.now) ≡ None }
{
    let mut found = Vec::with_capacity(alloc, texts.len())?;
    for text in texts {
        match read(text) {
            Some(address) => found.push(address)?,
            None => return Err(WordFault::Refused),
        }
    }
    Ok(AddrList::from_vec(found))
}

/// The path that a word is: any but the empty one.
pub fn path(word: &str) -> Option<&str>
    ensures { option_map (λ path. path.now) result ≡ meaning.path_in word.now }
{
    if word.is_empty() {
        return None;
    }
    Some(word)
}

/// The family that a word names.
pub fn family(word: &str) -> Option<Family>
    ensures { result ≡ meaning.family_in word.now }
{
    match word {
        "any" => Some(Family::Any),
        "4" => Some(Family::V4),
        "6" => Some(Family::V6),
        _ => None,
    }
}
