//! The page of adig: the question, how it ended, and the reply that ended it.

ghost use Rattle.std.specs.Prelude.{◌≡◌, ◌++◌, codes, flat_map, IfOk, OnOk};
ghost use Rattle.dns_message.specs.Reading.{message_read};
ghost use Rattle.dns_rdata.specs.Lines.{spaced, line_of};
ghost use Rattle.tool_line.specs.Page as meaning;

use crate::text::Text;
use chan_types::{Answer, Status};
use dns_message::numbers::{FLAG_AA, FLAG_QR, FLAG_RA, FLAG_RD, FLAG_TC};
use dns_message::{Message, MessageFault, Record, decode};
use dns_rdata::{class_text, kind_text, line};
use edns_opt::{EdnsFault, find, full_rcode};
use item_list::{Bytes, NoMemory};
use std::alloc::Global;

/// The page of a request for this name, type and class. Where the answer has no message, or bytes that aren't one, the
/// page ends behind the status; where the message's OPT record can't be read, the response code is the header's alone.
pub fn adig_page(
    alloc: Global,
    name: &[u8],
    kind: u16,
    class: u16,
    answer: &Answer,
) -> Result<Bytes, NoMemory>
    ensures { IfOk result (λ text. text ≡ meaning.adig_page name.now kind class answer.now) }
{
    let mut text = Text::new(alloc);
    put_question(&mut text, alloc, name, kind, class)?;
    put_status(&mut text, answer.status)?;
    put_reply(&mut text, alloc, answer.message.as_slice())?;
    Ok(text.into_bytes())
}

/// Prints the question.
fn put_question(
    text: &mut Text,
    alloc: Global,
    name: &[u8],
    kind: u16,
    class: u16,
) -> Result<(), NoMemory>
    ensures { OnOk result (text.new ≡ text.old ++ meaning.note (meaning.question_words name.now kind class)) }
{
    text.put(b";;")?;
    text.put_word(name)?;
    text.put_word(class_text(alloc, class)?.as_slice())?;
    text.put_word(kind_text(alloc, kind)?.as_slice())?;
    text.put(b"\n")
}

/// Prints how the request ended.
fn put_status(text: &mut Text, status: Status) -> Result<(), NoMemory>
    ensures { OnOk result (text.new ≡ text.old ++ meaning.note (meaning.status_words status)) }
{
    text.put(b";; status")?;
    text.put_number(u64::from(status.code()))?;
    text.put_word(status.text().as_bytes())?;
    text.put(b"\n")
}

/// Prints the reply that ended the request. Where none did there is no message.
fn put_reply(text: &mut Text, alloc: Global, bytes: &[u8]) -> Result<(), NoMemory>
    ensures { OnOk result (text.new ≡ text.old ++ meaning.text_or_none (message_read bytes.now)) }
{
    match decode(alloc, bytes) {
        Ok(message) => put_message(text, alloc, &message),
        Err(MessageFault::NoMemory) => Err(NoMemory),
        Err(_) => Ok(()),
    }
}

/// Prints a message.
fn put_message(text: &mut Text, alloc: Global, message: &Message) -> Result<(), NoMemory>
    ensures { OnOk result (text.new ≡ text.old ++ meaning.message_text message.now) }
{
    put_header(text, alloc, message)?;
    put_section(text, alloc, b"ANSWER", message.answers.as_slice())?;
    put_section(text, alloc, b"AUTHORITY", message.authorities.as_slice())?;
    put_section(text, alloc, b"ADDITIONAL", message.additionals.as_slice())
}

/// Prints a message's header.
fn put_header(text: &mut Text, alloc: Global, message: &Message) -> Result<(), NoMemory>
    ensures { OnOk result (text.new ≡ text.old ++ meaning.note (meaning.header_words message.now)) }
{
    text.put(b";; id")?;
    text.put_number(u64::from(message.id))?;
    text.put(b" rcode")?;
    text.put_number(u64::from(full_code(alloc, message)?))?;
    text.put(b" flags")?;
    put_flags(text, message.flags)?;
    text.put(b"\n")
}

/// The response code of a message: the header's alone where its OPT record can't be read, which no reply's is.
fn full_code(alloc: Global, message: &Message) -> Result<u16, NoMemory>
    ensures { IfOk result (λ code. code ≡ meaning.full_code message.now) }
{
    match find(alloc, message) {
        Ok(opt) => Ok(full_rcode(message, opt.as_ref())),
        Err(EdnsFault::NoMemory) => Err(NoMemory),
        Err(EdnsFault::DoubleOpt | EdnsFault::BadOptions(_)) => Ok(full_rcode(message, None)),
    }
}

/// Prints the flags that are set, in the header's order (RFC 1035, section 4.1.1).
fn put_flags(text: &mut Text, flags: u16) -> Result<(), NoMemory>
    ensures { OnOk result (text.new ≡ text.old ++ flat_map spaced (meaning.flag_words flags)) }
{
    put_flag(text, flags / FLAG_QR, b"qr")?;
    put_flag(text, flags / FLAG_AA, b"aa")?;
    put_flag(text, flags / FLAG_TC, b"tc")?;
    put_flag(text, flags / FLAG_RD, b"rd")?;
    put_flag(text, flags / FLAG_RA, b"ra")
}

/// Prints the word of a flag that is set: the flag is the lowest of these bits.
fn put_flag(text: &mut Text, bits: u16, word: &[u8]) -> Result<(), NoMemory>
    ensures { OnOk result (text.new ≡ text.old ++ flat_map spaced (meaning.flag_word bits word.now)) }
{
    if bits % 2 == 1 {
        text.put_word(word)?;
    }
    Ok(())
}

/// Prints a section that isn't empty: its heading, and the lines of its records.
fn put_section(
    text: &mut Text,
    alloc: Global,
    heading: &[u8],
    records: &[Record],
) -> Result<(), NoMemory>
    ensures { OnOk result (text.new ≡ text.old ++ meaning.section heading.now records.now) }
{
    if records.is_empty() {
        return Ok(());
    }
    text.put(b";;")?;
    text.put_word(heading)?;
    text.put(b"\n")?;
    put_lines(text, alloc, records)
}

/// Prints the lines of records.
fn put_lines(text: &mut Text, alloc: Global, records: &[Record]) -> Result<(), NoMemory>
    ensures { OnOk result (text.new ≡ text.old ++ flat_map line_of records.now) }
{
    for item in records {
        text.put(line(alloc, item)?.as_slice())?;
    }
    Ok(())
}
