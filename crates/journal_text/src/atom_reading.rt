//! Single words: numbers, bytes, addresses, names and switches. A word is read only as it is printed.

ghost use Rattle.std.specs.Prelude.{◌≡◌, ◌≤◌, ◌<◌, ◌^◌, ℕ, [], ◌∷◌, IfOk, IfSome, decimal};
ghost use Rattle.hex.specs.Hex.{IsBytes};
ghost use Rattle.dns_message.specs.NamePrinting.{text_of as name_text};
ghost use Rattle.net_addr.specs.Addr.{IsAddr};
ghost use Rattle.net_addr.specs.Text.{text_of as address_text};
ghost use Rattle.journal_text.specs.Words.{bytes_word, mix_word, flags_word, truth_number, family_number, lookups_number, when_number, need_number};
ghost use Rattle.journal_text.specs.Fits.{FitsName, FitsMix};
ghost use Rattle.journal_text.specs.Reads.{Gives, Is, Took};
ghost use Rattle.journal_text.specs.Atoms as meaning;

use crate::atom_printing::{bytes_text, flags_text};
use crate::fault::LineFault;
use crate::fitting::{bytes_fit, name_fits};
use crate::word_reading::Words;
use chan_types::{Need, When};
use dns_message::Name;
use item_list::{Bytes, NoMemory};
use net_addr::{Addr, Family};
use resolv_options::{Flags, Lookups};
use std::alloc::Global;

/// The number that decimal digits are, where it is at most this one. Zeros may stand in front.
fn digits_up_to(most: u64, word: &[u8]) -> Option<u64>
    ensures value { result ≡ meaning.digits_on most 0 word.now }
    ensures few { IfSome result (λ number. number ≤ most) }
{
    let mut number: u64 = 0;
    for digit in word {
        if !digit.is_ascii_digit() {
            return None;
        }
        number = number.checked_mul(10)?.checked_add((*digit - b'0') as u64)?;
        if number > most {
            return None;
        }
    }
    Some(number)
}

/// The number that a word is, where it is at most this one: decimal digits, without a leading zero.
pub(crate) fn number_of(most: u64, word: &[u8]) -> Result<u64, LineFault>
    ensures value { Is result (meaning.number_in most word.now) }
    ensures spelled { IfOk result (λ number. (word.now ≡ decimal number) × (number ≤ most)) }
{
    let Some(number) = digits_up_to(most, word) else {
        return Err(LineFault::Bad);
    };
    let mut buffer = itoa::Buffer::new();
    if buffer.format(number).as_bytes() != word {
        return Err(LineFault::Bad);
    }
    Ok(number)
}

/// The next word, which is a number of at most this one.
#[tactic(auto, unfolding(crate::specs::Atoms::number_from))]
pub(crate) fn read_number(words: &mut Words<'_>, most: u64) -> Result<u64, LineFault>
    ensures value { Gives (λ number. number) result words.new (meaning.number_from most words.old) }
    ensures took { Took (λ number. decimal number ∷ []) (λ number. number ≤ most) words.old result words.new }
{
    number_of(most, words.next_word()?)
}

/// The next word, which is 1 for yes or 0 for no.
#[tactic(auto, unfolding(crate::specs::Atoms::truth_from))]
pub(crate) fn read_truth(words: &mut Words<'_>) -> Result<bool, LineFault>
    ensures value { Gives (λ truth. truth) result words.new (meaning.truth_from words.old) }
    ensures took { Took (λ truth. decimal (truth_number truth) ∷ []) (λ truth. Unit {0}) words.old result words.new }
{
    Ok(read_number(words, 1)? == 1)
}

/// The next word, which is bytes.
#[tactic(auto, unfolding(crate::specs::Atoms::bytes_from))]
pub(crate) fn read_bytes(alloc: Global, words: &mut Words<'_>) -> Result<Bytes, LineFault>
    ensures value { Gives (λ bytes. bytes) result words.new (meaning.bytes_from words.old) }
    ensures took { Took (λ bytes. bytes_word bytes ∷ []) IsBytes words.old result words.new }
{
    bytes_of(alloc, words.next_word()?)
}

/// The bytes that a word is.
fn bytes_of(alloc: Global, word: &[u8]) -> Result<Bytes, LineFault>
    ensures value { Is result (meaning.bytes_in word.now) }
    ensures spelled { IfOk result (λ bytes. (word.now ≡ bytes_word bytes) × IsBytes bytes) }
{
    let bytes = bytes_said(alloc, word)?;
    if bytes_text(alloc, bytes.as_slice())?.as_slice() != word {
        return Err(LineFault::Bad);
    }
    bytes_fit(bytes.as_slice());
    Ok(bytes)
}

/// The bytes that hexadecimal digits of either case are, and none for `-`.
fn bytes_said(alloc: Global, word: &[u8]) -> Result<Bytes, LineFault>
    ensures { Is result (meaning.bytes_said word.now) }
{
    if word == b"-".as_slice() {
        return Ok(Bytes::new(alloc));
    }
    match hex::decode(alloc, word) {
        Ok(bytes) => Ok(Bytes::from_vec(bytes)),
        Err(hex::FromHexError::OutOfMemory) => Err(LineFault::NoMemory),
        Err(_) => Err(LineFault::Bad),
    }
}

/// The next word, which is an address.
#[tactic(auto, unfolding(crate::specs::Atoms::address_from))]
pub(crate) fn read_address(alloc: Global, words: &mut Words<'_>) -> Result<Addr, LineFault>
    ensures value { Gives (λ address. address) result words.new (meaning.address_from words.old) }
    ensures took { Took (λ address. address_text address ∷ []) IsAddr words.old result words.new }
{
    address_of(alloc, words.next_word()?)
}

/// The address that a word is.
pub(crate) fn address_of(alloc: Global, word: &[u8]) -> Result<Addr, LineFault>
    ensures value { Is result (meaning.address_in word.now) }
    ensures spelled { IfOk result (λ address. (word.now ≡ address_text address) × IsAddr address) }
{
    let Some(address) = net_addr::read(word) else {
        return Err(LineFault::Bad);
    };
    if net_addr::print(alloc, address)?.as_slice() != word {
        return Err(LineFault::Bad);
    }
    Ok(address)
}

/// The next word, which is a name.
#[tactic(auto, unfolding(crate::specs::Atoms::name_from))]
pub(crate) fn read_name(alloc: Global, words: &mut Words<'_>) -> Result<Name, LineFault>
    ensures value { Gives (λ name. name) result words.new (meaning.name_from words.old) }
    ensures took { Took (λ name. name_text name ∷ []) FitsName words.old result words.new }
{
    name_of(alloc, words.next_word()?)
}

/// The name that a word is.
fn name_of(alloc: Global, word: &[u8]) -> Result<Name, LineFault>
    ensures value { Is result (meaning.name_in word.now) }
    ensures spelled { IfOk result (λ name. (word.now ≡ name_text name) × FitsName name) }
{
    let Some(name) = text_lines::read_name(alloc, word)? else {
        return Err(LineFault::Bad);
    };
    if name.to_text(alloc)?.as_slice() != word {
        return Err(LineFault::Bad);
    }
    name_fits(&name);
    Ok(name)
}

/// The next word, which is the bits of a mix, or `-` for none.
#[tactic(auto, unfolding(crate::specs::Atoms::mix_from))]
pub(crate) fn read_mix(words: &mut Words<'_>) -> Result<Option<u16>, LineFault>
    ensures value { Gives (λ mix. mix) result words.new (meaning.mix_from words.old) }
    ensures took { Took (λ mix. mix_word mix ∷ []) FitsMix words.old result words.new }
{
    mix_of(words.next_word()?)
}

/// The bits of a mix that a word is, or that there are none.
fn mix_of(word: &[u8]) -> Result<Option<u16>, LineFault>
    ensures value { Is result (meaning.mix_in word.now) }
    ensures spelled { IfOk result (λ mix. (word.now ≡ mix_word mix) × FitsMix mix) }
{
    if word == b"-".as_slice() {
        return Ok(None);
    }
    Ok(Some(number_of(0xffff, word)? as u16))
}

/// The next word, which is the digits of eight switches.
#[tactic(auto, unfolding(crate::specs::Atoms::flags_from))]
pub(crate) fn read_flags(words: &mut Words<'_>) -> Result<Flags, LineFault>
    ensures value { Gives (λ flags. flags) result words.new (meaning.flags_from words.old) }
    ensures took { Took (λ flags. flags_word flags ∷ []) (λ flags. Unit {0}) words.old result words.new }
{
    flags_of(words.next_word()?)
}

/// The switches that a word is.
fn flags_of(word: &[u8]) -> Result<Flags, LineFault>
    ensures value { Is result (meaning.flags_in word.now) }
    ensures spelled { IfOk result (λ flags. word.now ≡ flags_word flags) }
{
    let [a, b, c, d, e, f, g, h] = word else {
        return Err(LineFault::Bad);
    };
    let flags = Flags {
        usevc: *a == b'1',
        primary: *b == b'1',
        igntc: *c == b'1',
        norecurse: *d == b'1',
        nosearch: *e == b'1',
        nocheckresp: *f == b'1',
        edns: *g == b'1',
        mix: *h == b'1',
    };
    if flags_text(&flags).as_slice() != word {
        return Err(LineFault::Bad);
    }
    Ok(flags)
}

/// The next word, which is the number of a family.
#[tactic(auto, unfolding(crate::specs::Atoms::family_from))]
pub(crate) fn read_family(words: &mut Words<'_>) -> Result<Family, LineFault>
    ensures value { Gives (λ family. family) result words.new (meaning.family_from words.old) }
    ensures took { Took (λ family. decimal (family_number family) ∷ []) (λ family. Unit {0}) words.old result words.new }
{
    Ok(match read_number(words, 2)? {
        0 => Family::Any,
        1 => Family::V4,
        _ => Family::V6,
    })
}

/// The next word, which is the number of where addresses are looked for.
#[tactic(auto, unfolding(crate::specs::Atoms::lookups_from))]
pub(crate) fn read_lookups(words: &mut Words<'_>) -> Result<Lookups, LineFault>
    ensures value { Gives (λ lookups. lookups) result words.new (meaning.lookups_from words.old) }
    ensures took { Took (λ lookups. decimal (lookups_number lookups) ∷ []) (λ lookups. Unit {0}) words.old result words.new }
{
    Ok(match read_number(words, 2)? {
        0 => Lookups::FilesDns,
        1 => Lookups::Dns,
        _ => Lookups::Files,
    })
}

/// The next word, which is the number of the answers for which a step is taken.
#[tactic(auto, unfolding(crate::specs::Atoms::when_from))]
pub(crate) fn read_when(words: &mut Words<'_>) -> Result<When, LineFault>
    ensures value { Gives (λ when. when) result words.new (meaning.when_from words.old) }
    ensures took { Took (λ when. decimal (when_number when) ∷ []) (λ when. Unit {0}) words.old result words.new }
{
    Ok(match read_number(words, 2)? {
        0 => When::Always,
        1 => When::Good,
        _ => When::Bad,
    })
}

/// The next word, which is the number of the order that a step needs.
#[tactic(auto, unfolding(crate::specs::Atoms::need_from))]
pub(crate) fn read_need(words: &mut Words<'_>) -> Result<Need, LineFault>
    ensures value { Gives (λ need. need) result words.new (meaning.need_from words.old) }
    ensures took { Took (λ need. decimal (need_number need) ∷ []) (λ need. Unit {0}) words.old result words.new }
{
    Ok(match read_number(words, 3)? {
        0 => Need::Nothing,
        1 => Need::Follow,
        2 => Need::First,
        _ => Need::Quit,
    })
}
