//! Types and classes as words: reading them, and printing them (RFC 3597, section 5).

ghost use Rattle.std.specs.Prelude.{◌≡◌, ℕ, ◌++◌, Some, IfSome, IfOk, OnOk};
ghost use Rattle.std.specs.Option.{option_copied};
ghost use Rattle.dns_rdata.specs.Table.{is_named, kind_name, class_name, read_on, number_in, numbered, text_or, kind_text as kind_text_of, class_text as class_text_of, kind_word as kind_of, class_word as class_of};
ghost use Rattle.dns_rdata.specs.Words.{NamesKind, NamesClass};

use crate::names::{CLASS_WORDS, KIND_WORDS, class_name, kind_name};
use crate::text::put_number;
use dns_message::{Bytes, NoMemory};
use std::alloc::Global;

/// What a type's number stands behind, where it has no name.
const TYPE: &[u8; 4] = b"TYPE";

/// What a class's number stands behind, where it has no name.
const CLASS: &[u8; 5] = b"CLASS";

/// The type that a word names: a name of the table, or `TYPEn` with a decimal n up to 65535 that has no leading zero,
/// in letters of either case. `OPT` names none; `TYPE41` does. It takes no memory.
pub fn kind_word(word: &[u8]) -> Option<u16>
    ensures value { result ≡ kind_of word.now }
    // What is read is a word for that type: a name of the table, or TYPE with its number.
    ensures found { IfSome result (NamesKind word.now) }
    // A word for a type is read as that type, so a word names one type at most.
    ensures only { (kind : ℕ) → NamesKind word.now kind → result ≡ Some kind }
{
    for kind in KIND_WORDS {
        if is_named(word, kind_name(kind)) {
            return Some(kind);
        }
    }
    numbered(TYPE, word)
}

/// The class that a word names: a name of the table, or `CLASSn` with a decimal n up to 65535 that has no leading zero,
/// in letters of either case. It takes no memory.
pub fn class_word(word: &[u8]) -> Option<u16>
    ensures value { result ≡ class_of word.now }
    // What is read is a word for that class: a name of the table, or CLASS with its number.
    ensures found { IfSome result (NamesClass word.now) }
    // A word for a class is read as that class, so a word names one class at most.
    ensures only { (class : ℕ) → NamesClass word.now class → result ≡ Some class }
{
    for class in CLASS_WORDS {
        if is_named(word, class_name(class)) {
            return Some(class);
        }
    }
    numbered(CLASS, word)
}

/// A type as a word: its name where it has one, and else `TYPEn`.
pub fn kind_text(alloc: Global, kind: u16) -> Result<Bytes, NoMemory>
    ensures { IfOk result (λ text. text ≡ kind_text_of kind) }
{
    let mut text = Vec::new(alloc);
    put_kind(&mut text, kind)?;
    Ok(Bytes::from_vec(text))
}

/// A class as a word: its name where it has one, and else `CLASSn`.
pub fn class_text(alloc: Global, class: u16) -> Result<Bytes, NoMemory>
    ensures { IfOk result (λ text. text ≡ class_text_of class) }
{
    let mut text = Vec::new(alloc);
    put_class(&mut text, class)?;
    Ok(Bytes::from_vec(text))
}

/// Prints a type.
pub(crate) fn put_kind(text: &mut Vec<u8>, kind: u16) -> Result<(), NoMemory>
    ensures { OnOk result (text.new.items ≡ text.old.items ++ kind_text_of kind) }
{
    match kind_name(kind) {
        Some(name) => text.extend_from_slice(name)?,
        None => {
            text.extend_from_slice(TYPE)?;
            put_number(text, kind as u64)?;
        }
    }
    Ok(())
}

/// Prints a class.
pub(crate) fn put_class(text: &mut Vec<u8>, class: u16) -> Result<(), NoMemory>
    ensures { OnOk result (text.new.items ≡ text.old.items ++ class_text_of class) }
{
    match class_name(class) {
        Some(name) => text.extend_from_slice(name)?,
        None => {
            text.extend_from_slice(CLASS)?;
            put_number(text, class as u64)?;
        }
    }
    Ok(())
}

/// Whether the word is this name, in letters of either case.
fn is_named(word: &[u8], name: Option<&[u8]>) -> bool
    ensures { result ≡ is_named word.now (option_copied name.entry) }
{
    match name {
        Some(name) => word.eq_ignore_ascii_case(name),
        None => false,
    }
}

/// The number that the word has behind its front, if it has this front, in letters of either case.
fn numbered(front: &[u8], word: &[u8]) -> Option<u16>
    ensures { result ≡ numbered front.now word.now }
{
    if word.len() < front.len() {
        return None;
    }
    let (first, digits) = word.split_at(front.len());
    if !first.eq_ignore_ascii_case(front) {
        return None;
    }
    number_in(digits)
}

/// The decimal number that the digits are, up to 65535 and without a leading zero.
fn number_in(digits: &[u8]) -> Option<u16>
    ensures { result ≡ number_in digits.now }
{
    match digits {
        [] | [b'0', _, ..] => None,
        _ => read_all(digits),
    }
}

/// The decimal number that the digits are, up to 65535.
fn read_all(digits: &[u8]) -> Option<u16>
    ensures { result ≡ read_on 0 digits.now }
{
    let mut number: u16 = 0;
    for digit in digits {
        if !digit.is_ascii_digit() {
            return None;
        }
        number = number.checked_mul(10)?.checked_add((*digit - b'0') as u16)?;
    }
    Some(number)
}
