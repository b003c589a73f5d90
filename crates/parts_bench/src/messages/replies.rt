//! The messages that are read (RFC 1035, section 4.1).

use std::alloc::Global;
use std::io;

/// Pointers to `www.example.com`, the question's name, and to `example.com` in it.
const HOST: &[u8; 2] = b"\xc0\x0c";

const DOMAIN: &[u8; 2] = b"\xc0\x10";

/// A header with so many questions and answers, and as the first question one for the address of `www.example.com`.
fn begun(alloc: Global, questions: u16, answers: u16) -> io::Result<Vec<u8>> {
    let mut out = Vec::from_slice(alloc, b"\x12\x34\x81\x80")?;
    put_u16(&mut out, questions)?;
    put_u16(&mut out, answers)?;
    out.extend_from_slice(b"\0\0\0\0\x03www\x07example\x03com\0\0\x01\0\x01")?;
    Ok(out)
}

fn put_u16(out: &mut Vec<u8>, number: u16) -> io::Result<()> {
    out.extend_from_slice(&number.to_be_bytes())?;
    Ok(())
}

/// A record of the Internet's class, of less than 65,536 bytes of rdata.
fn put_record(out: &mut Vec<u8>, owner: &[u8], kind: u16, rdata: &[u8]) -> io::Result<()> {
    out.extend_from_slice(owner)?;
    put_u16(out, kind)?;
    out.extend_from_slice(b"\0\x01\0\0\x0e\x10")?;
    put_u16(out, (rdata.len() % 65_536) as u16)?;
    out.extend_from_slice(rdata)?;
    Ok(())
}

/// A reply of 512 bytes with one record of each kind whose rdata has a shape.
pub fn mixed_reply(alloc: Global) -> io::Result<Vec<u8>> {
    let mut out = begun(alloc, 1, 10)?;
    // CNAME to web.example.com, the name at 45
    put_record(&mut out, HOST, 5, b"\x03web\xc0\x10")?;
    // A, AAAA
    put_record(&mut out, b"\xc0\x2d", 1, b"\xc0\0\x02\x01")?;
    put_record(
        &mut out,
        b"\xc0\x2d",
        28,
        b"\x20\x01\x0d\xb8\0\0\0\0\0\0\0\0\0\0\0\x01",
    )?;
    // NS, MX, SRV, PTR
    put_record(&mut out, DOMAIN, 2, b"\x02ns\xc0\x10")?;
    put_record(&mut out, DOMAIN, 15, b"\0\x0a\x04mail\xc0\x10")?;
    put_record(&mut out, DOMAIN, 33, b"\0\x01\0\x01\x01\xbb\x03www\xc0\x10")?;
    put_record(&mut out, DOMAIN, 12, HOST)?;
    // HINFO
    put_record(&mut out, DOMAIN, 13, b"\x05INTEL\x05LINUX")?;
    // SOA
    put_record(
        &mut out,
        DOMAIN,
        6,
        b"\x02ns\xc0\x10\x04root\xc0\x10\0\0\0\x01\0\0\x0e\x10\0\0\x02\x58\0\x01\x51\x80\0\0\x01\x2c",
    )?;
    // TXT: a string of 255 bytes and one of four
    let mut text = Vec::from_slice(alloc, &[b't'; 256])?;
    text[0] = 255;
    text.extend_from_slice(b"\x04text")?;
    put_record(&mut out, DOMAIN, 16, text.as_slice())?;
    Ok(out)
}

/// A reply with ten addresses.
pub fn address_reply(alloc: Global) -> io::Result<Vec<u8>> {
    let mut out = begun(alloc, 1, 10)?;
    for last in 1..11 {
        put_record(&mut out, HOST, 1, &[192, 0, 2, last])?;
    }
    Ok(out)
}

/// How many questions have pointers in their labels, and how many questions are a pointer.
const CHAIN: u16 = 62;

const POINTERS: u16 = 8_201;

/// Dear to read: 65,535 bytes, nearly all of them questions whose name goes through 7,626 pointers to 127 labels.
pub fn chained(alloc: Global) -> io::Result<Vec<u8>> {
    let mut out = Vec::from_slice(alloc, b"\x12\x34\x81\x80")?;
    put_u16(&mut out, 1 + CHAIN + POINTERS)?;
    out.extend_from_slice(b"\0\0\0\0\0\0")?;
    for _ in 0..127 {
        out.extend_from_slice(b"\x01a")?;
    }
    out.extend_from_slice(b"\0\0\x01\0\x01")?;
    let mut target = 12;
    for _ in 0..CHAIN {
        target = put_chain(&mut out, target)?;
    }
    for _ in 0..POINTERS {
        put_pointer(&mut out, target)?;
        out.extend_from_slice(b"\0\x01\0\x01")?;
    }
    Ok(out)
}

/// A pointer, of 14 bits.
fn put_pointer(out: &mut Vec<u8>, target: usize) -> io::Result<()> {
    put_u16(out, 0xc000 + (target % 0x4000) as u16)
}

/// A question of 255 bytes whose labels are pointers, each to the one before it. Answers where the last one stands.
fn put_chain(out: &mut Vec<u8>, first: usize) -> io::Result<usize> {
    let mut target = first;
    for len in [63, 63, 63, 61] {
        out.push(len)?;
        for _ in 0..len / 2 {
            let at = out.len();
            put_pointer(out, target)?;
            target = at;
        }
        out.push(b'.')?;
    }
    out.extend_from_slice(b"\0\0\x01\0\x01")?;
    Ok(target)
}
