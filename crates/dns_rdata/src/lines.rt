//! A record as a line of text (RFC 1035, section 5.1; RFC 3597, section 5).

ghost use Rattle.std.specs.Prelude.{◌≡◌, ◌++◌, IfOk, OnOk, flat_map, map, decimal};
ghost use Rattle.dns_rdata.specs.Lines.{spaced, quoted, data_words, ttl_words, opt_words, rdata_words, words_behind, line_of};

use crate::data::RecordData;
use crate::fault::RdataFault;
use crate::text::{put_address, put_generic, put_name, put_quoted, put_spaced, put_word};
use crate::typing::rdata;
use crate::words::{put_class, put_kind};
use dns_message::numbers::KIND_OPT;
use dns_message::{Bytes, Name, NoMemory, Record};
use std::alloc::Global;

/// The line of a record, with its LF: name, ttl, class, type and what its rdata says, with a blank between them. An OPT
/// record's line says what its fields are for instead. Rdata that doesn't have the shape of its type is printed in the
/// form of unknown types.
pub fn line(alloc: Global, item: &Record) -> Result<Bytes, NoMemory>
    ensures text { IfOk result (λ text. text ≡ line_of item.now) }
{
    let mut text = item.name.to_text(alloc)?.into_vec();
    put_behind(alloc, &mut text, item)?;
    text.push(b'\n')?;
    Ok(Bytes::from_vec(text))
}

/// Prints what stands behind the name.
fn put_behind(alloc: Global, text: &mut Vec<u8>, item: &Record) -> Result<(), NoMemory>
    ensures { OnOk result (text.new.items ≡ text.old.items ++ flat_map spaced (words_behind item.now)) }
{
    if item.kind == KIND_OPT {
        return put_opt(text, item);
    }
    put_spaced(text, item.ttl as u64)?;
    text.push(b' ')?;
    put_class(text, item.class)?;
    text.push(b' ')?;
    put_kind(text, item.kind)?;
    put_rdata(alloc, text, item)
}

/// Prints what an OPT record's fields say, and its options in the form of unknown types.
fn put_opt(text: &mut Vec<u8>, item: &Record) -> Result<(), NoMemory>
    ensures { OnOk result (text.new.items ≡ text.old.items ++ flat_map spaced (opt_words item.now)) }
{
    put_word(text, b"OPT")?;
    put_field(text, b"size", item.class as u32)?;
    put_ttl(text, item.ttl)?;
    let options = item.rdata.as_slice();
    put_generic(text, options)
}

/// Prints what the ttl of an OPT record says.
fn put_ttl(text: &mut Vec<u8>, ttl: u32) -> Result<(), NoMemory>
    ensures { OnOk result (text.new.items ≡ text.old.items ++ flat_map spaced (ttl_words ttl)) }
{
    put_field(text, b"ext", ttl / 0x100_0000)?;
    put_field(text, b"version", ttl / 0x1_0000 % 256)?;
    put_field(text, b"do", ttl / 0x8000 % 2)
}

/// Prints what a number is, and the number.
fn put_field(text: &mut Vec<u8>, word: &[u8], number: u32) -> Result<(), NoMemory>
    ensures { OnOk result (text.new.items ≡ text.old.items ++ spaced word.now ++ spaced (decimal number)) }
{
    put_word(text, word)?;
    put_spaced(text, number as u64)
}

/// Prints what rdata says.
fn put_rdata(alloc: Global, text: &mut Vec<u8>, item: &Record) -> Result<(), NoMemory>
    ensures { OnOk result (text.new.items ≡ text.old.items ++ flat_map spaced (rdata_words item.now)) }
{
    match rdata(alloc, item) {
        Ok(typed) => put_data(alloc, text, &typed),
        Err(RdataFault::BadRdata) => put_generic(text, item.rdata.as_slice()),
        Err(RdataFault::NoMemory) => Err(NoMemory),
    }
}

/// Prints typed rdata.
fn put_data(alloc: Global, text: &mut Vec<u8>, typed: &RecordData) -> Result<(), NoMemory>
    ensures { OnOk result (text.new.items ≡ text.old.items ++ flat_map spaced (data_words typed.now)) }
{
    match typed {
        RecordData::A(address) | RecordData::Aaaa(address) => put_address(alloc, text, *address),
        RecordData::Ns(name) | RecordData::Cname(name) | RecordData::Ptr(name) => {
            put_name(alloc, text, name)
        }
        RecordData::Soa {
            mname,
            rname,
            serial,
            refresh,
            retry,
            expire,
            minimum,
        } => {
            put_name(alloc, text, mname)?;
            put_name(alloc, text, rname)?;
            put_numbers(text, &[*serial, *refresh, *retry, *expire, *minimum])
        }
        RecordData::Hinfo(cpu, os) => {
            put_quoted(text, cpu.as_slice())?;
            put_quoted(text, os.as_slice())
        }
        RecordData::Mx {
            preference,
            exchange,
        } => {
            put_spaced(text, *preference as u64)?;
            put_name(alloc, text, exchange)
        }
        RecordData::Txt(strings) => put_strings(text, strings.as_slice()),
        RecordData::Srv {
            priority,
            weight,
            port,
            target,
        } => {
            put_numbers(text, &[*priority as u32, *weight as u32, *port as u32])?;
            put_name(alloc, text, target)
        }
        RecordData::Opt(bytes) | RecordData::Raw(bytes) => put_generic(text, bytes.as_slice()),
    }
}

/// Prints numbers, each behind a blank.
fn put_numbers(text: &mut Vec<u8>, numbers: &[u32]) -> Result<(), NoMemory>
    ensures { OnOk result
        (text.new.items ≡ text.old.items ++ flat_map (λ number. spaced (decimal number)) numbers.now) }
{
    for number in numbers {
        put_spaced(text, *number as u64)?;
    }
    Ok(())
}

/// Prints strings, each in quotes behind a blank.
fn put_strings(text: &mut Vec<u8>, strings: &[Bytes]) -> Result<(), NoMemory>
    ensures { OnOk result (text.new.items ≡ text.old.items ++ flat_map spaced (map quoted strings.now)) }
{
    for string in strings {
        put_quoted(text, string.as_slice())?;
    }
    Ok(())
}
