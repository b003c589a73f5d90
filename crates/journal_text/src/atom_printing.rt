//! Single words as text: numbers, bytes, addresses, names and switches.

ghost use Rattle.std.specs.Prelude.{◌≡◌, ◌++◌, decimal, flat_map, IfOk, OnOk};
ghost use Rattle.dns_message.specs.NamePrinting.{text_of as name_text};
ghost use Rattle.net_addr.specs.Text.{text_of as address_text};
ghost use Rattle.journal_text.specs.Words.{spaced, bytes_word, mix_word, flags_word, digit};

use dns_message::Name;
use item_list::{Bytes, NoMemory};
use net_addr::Addr;
use resolv_options::Flags;
use std::alloc::Global;

/// Prints a word behind a blank.
pub(crate) fn put_word(text: &mut Vec<u8>, word: &[u8]) -> Result<(), NoMemory>
    ensures { OnOk result (text.new.items ≡ text.old.items ++ spaced word.now) }
{
    text.push(b' ')?;
    text.extend_from_slice(word)?;
    Ok(())
}

/// Prints a number.
pub(crate) fn put_first_number(text: &mut Vec<u8>, number: u64) -> Result<(), NoMemory>
    ensures { OnOk result (text.new.items ≡ text.old.items ++ decimal number) }
{
    let mut buffer = itoa::Buffer::new();
    text.extend_from_slice(buffer.format(number).as_bytes())?;
    Ok(())
}

/// Prints a number behind a blank.
pub(crate) fn put_number(text: &mut Vec<u8>, number: u64) -> Result<(), NoMemory>
    ensures { OnOk result (text.new.items ≡ text.old.items ++ spaced (decimal number)) }
{
    text.push(b' ')?;
    put_first_number(text, number)
}

/// Prints numbers, each behind a blank.
pub(crate) fn put_numbers(text: &mut Vec<u8>, numbers: &[u64]) -> Result<(), NoMemory>
    ensures { OnOk result (text.new.items
        ≡ text.old.items ++ flat_map (λ number. spaced (decimal number)) numbers.now) }
{
    for number in numbers {
        put_number(text, *number)?;
    }
    Ok(())
}

/// Bytes in lower-case hexadecimal, and `-` for none.
pub(crate) fn bytes_text(alloc: Global, bytes: &[u8]) -> Result<Bytes, NoMemory>
    ensures { IfOk result (λ text. text ≡ bytes_word bytes.now) }
{
    if bytes.is_empty() {
        return Bytes::of(alloc, b"-");
    }
    Ok(Bytes::from_vec(hex::encode(alloc, bytes)?.into_bytes()))
}

/// Prints bytes behind a blank.
pub(crate) fn put_bytes(alloc: Global, text: &mut Vec<u8>, bytes: &[u8]) -> Result<(), NoMemory>
    ensures { OnOk result (text.new.items ≡ text.old.items ++ spaced (bytes_word bytes.now)) }
{
    put_word(text, bytes_text(alloc, bytes)?.as_slice())
}

/// Prints an address behind a blank.
pub(crate) fn put_address(alloc: Global, text: &mut Vec<u8>, address: Addr) -> Result<(), NoMemory>
    ensures { OnOk result (text.new.items ≡ text.old.items ++ spaced (address_text address)) }
{
    put_word(text, net_addr::print(alloc, address)?.as_slice())
}

/// Prints a name behind a blank.
pub(crate) fn put_name(alloc: Global, text: &mut Vec<u8>, name: &Name) -> Result<(), NoMemory>
    ensures { OnOk result (text.new.items ≡ text.old.items ++ spaced (name_text name.now)) }
{
    put_word(text, name.to_text(alloc)?.as_slice())
}

/// Prints the bits of a mix behind a blank, or `-` for none.
pub(crate) fn put_mix(text: &mut Vec<u8>, mix: Option<u16>) -> Result<(), NoMemory>
    ensures { OnOk result (text.new.items ≡ text.old.items ++ spaced (mix_word mix)) }
{
    match mix {
        Some(bits) => put_number(text, bits as u64),
        None => put_word(text, b"-"),
    }
}

/// The digit of a switch.
fn digit_of(truth: bool) -> u8
    ensures { result ≡ digit truth }
{
    if truth { b'1' } else { b'0' }
}

/// The digits of eight switches.
pub(crate) fn flags_text(flags: &Flags) -> [u8; 8]
    ensures { result ≡ flags_word flags.now }
{
    [
        digit_of(flags.usevc),
        digit_of(flags.primary),
        digit_of(flags.igntc),
        digit_of(flags.norecurse),
        digit_of(flags.nosearch),
        digit_of(flags.nocheckresp),
        digit_of(flags.edns),
        digit_of(flags.mix),
    ]
}
