//! The parts of a line: numbers, names, addresses, strings and bytes as texts.

ghost use Rattle.std.specs.Prelude.{◌≡◌, ◌<◌, ◌++◌, decimal, flat_map, OnOk};
ghost use Rattle.std.specs.Char.{digit_char};
ghost use Rattle.dns_message.specs.NamePrinting.{text_of as name_text};
ghost use Rattle.net_addr.specs.Text.{text_of as address_text};
ghost use Rattle.dns_rdata.specs.Lines.{spaced, quoted_byte, quoted, hex_byte, generic, hex_words};

use dns_message::{Name, NoMemory};
use net_addr::{Addr, print};
use std::alloc::Global;

/// Prints a number in decimal digits.
pub(crate) fn put_number(text: &mut Vec<u8>, number: u64) -> Result<(), NoMemory>
    ensures { OnOk result (text.new.items ≡ text.old.items ++ decimal number) }
{
    let mut buffer = itoa::Buffer::new();
    text.extend_from_slice(buffer.format(number).as_bytes())?;
    Ok(())
}

/// Prints a word behind a blank.
pub(crate) fn put_word(text: &mut Vec<u8>, word: &[u8]) -> Result<(), NoMemory>
    ensures { OnOk result (text.new.items ≡ text.old.items ++ spaced word.now) }
{
    text.push(b' ')?;
    text.extend_from_slice(word)?;
    Ok(())
}

/// Prints a number behind a blank.
pub(crate) fn put_spaced(text: &mut Vec<u8>, number: u64) -> Result<(), NoMemory>
    ensures { OnOk result (text.new.items ≡ text.old.items ++ spaced (decimal number)) }
{
    text.push(b' ')?;
    put_number(text, number)
}

/// Prints a name behind a blank.
pub(crate) fn put_name(alloc: Global, text: &mut Vec<u8>, name: &Name) -> Result<(), NoMemory>
    ensures { OnOk result (text.new.items ≡ text.old.items ++ spaced (name_text name.now)) }
{
    put_word(text, name.to_text(alloc)?.as_slice())
}

/// Prints an address behind a blank.
pub(crate) fn put_address(alloc: Global, text: &mut Vec<u8>, address: Addr) -> Result<(), NoMemory>
    ensures { OnOk result (text.new.items ≡ text.old.items ++ spaced (address_text address)) }
{
    put_word(text, print(alloc, address)?.as_slice())
}

/// Prints a string behind a blank, in quotes.
pub(crate) fn put_quoted(text: &mut Vec<u8>, string: &[u8]) -> Result<(), NoMemory>
    ensures { OnOk result (text.new.items ≡ text.old.items ++ spaced (quoted string.now)) }
{
    text.extend_from_slice(b" \"")?;
    for byte in string {
        put_quoted_byte(text, *byte)?;
    }
    text.push(b'"')?;
    Ok(())
}

/// Prints a byte of a string.
fn put_quoted_byte(text: &mut Vec<u8>, byte: u8) -> Result<(), NoMemory>
    ensures { OnOk result (text.new.items ≡ text.old.items ++ quoted_byte byte) }
{
    match byte {
        b'"' | b'\\' => text.extend_from_slice(&[b'\\', byte])?,
        0x20..=0x7e => text.push(byte)?,
        _ => {
            let digits = [
                b'\\',
                b'0' + byte / 100,
                b'0' + byte / 10 % 10,
                b'0' + byte % 10,
            ];
            text.extend_from_slice(&digits)?;
        }
    }
    Ok(())
}

/// Prints bytes in the form of unknown types, each word behind a blank.
pub(crate) fn put_generic(text: &mut Vec<u8>, bytes: &[u8]) -> Result<(), NoMemory>
    ensures { OnOk result (text.new.items ≡ text.old.items ++ flat_map spaced (generic bytes.now)) }
{
    put_word(text, b"\\#")?;
    put_spaced(text, bytes.len() as u64)?;
    put_hex(text, bytes)
}

/// Prints bytes in hexadecimal behind a blank; no bytes leave nothing.
fn put_hex(text: &mut Vec<u8>, bytes: &[u8]) -> Result<(), NoMemory>
    ensures { OnOk result (text.new.items ≡ text.old.items ++ flat_map spaced (hex_words bytes.now)) }
{
    if bytes.is_empty() {
        return Ok(());
    }
    text.push(b' ')?;
    for byte in bytes {
        text.extend_from_slice(&[hex_digit(*byte / 16), hex_digit(*byte % 16)])?;
    }
    Ok(())
}

/// The hexadecimal digit of a number, in lower case.
fn hex_digit(number: u8) -> u8
    requires { number < 16 }
    ensures { result ≡ digit_char number }
{
    if number < 10 {
        b'0' + number
    } else {
        b'a' + (number - 10)
    }
}
