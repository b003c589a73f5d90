//! The limits of a text: its bytes, its entries, and the bytes of its hosts file.

use chan_types::Bytes;
use journal_text::{BookFault, read_book};
use std::alloc::Global;
use std::test::Fail;

/// The text of a run up to its hosts file.
const FRONT: &[u8] = b"journal 1\noption 2000 3 1 0 00000010 0 0 1232\nserver 192.0.2.53 53\n";

/// The number of the fault of a text, or 0 where it is read.
fn fault_of(alloc: Global, text: &[u8]) -> Result<u64, Fail> {
    match read_book(alloc, text) {
        Ok(_) => Ok(0),
        Err(BookFault::TooLarge) => Ok(31),
        Err(BookFault::BadLine(_)) => Ok(32),
        Err(BookFault::TooMany) => Ok(33),
        Err(BookFault::BadHosts) => Ok(34),
        Err(BookFault::NoMemory) => Err("no memory".into()),
    }
}

/// A run with so many bytes of its hosts file, and so many entries.
fn run_of(alloc: Global, hosts: usize, entries: u64) -> Result<Bytes, Fail> {
    let mut text = Vec::from_slice(alloc, FRONT)?;
    text.extend_from_slice(b"hosts ")?;
    for _ in 0..hosts {
        text.extend_from_slice(b"00")?;
    }
    text.push(b'\n')?;
    for _ in 0..entries {
        text.extend_from_slice(b"0 0 take 1\n")?;
    }
    text.extend_from_slice(b"end\n")?;
    Ok(Bytes::from_vec(text))
}

/// The number of the fault of such a run.
fn fault_of_run(alloc: Global, hosts: usize, entries: u64) -> Result<u64, Fail> {
    let text = run_of(alloc, hosts, entries)?;
    fault_of(alloc, text.as_slice())
}

/// A run of one message of so many bytes.
fn message_of(alloc: Global, bytes: usize) -> Result<Bytes, Fail> {
    let mut text = Vec::from_slice(alloc, FRONT)?;
    text.extend_from_slice(b"hosts -\n10 0 arrive 0 0 ")?;
    for _ in 0..bytes {
        text.extend_from_slice(b"00")?;
    }
    text.extend_from_slice(b"\nend\n")?;
    Ok(Bytes::from_vec(text))
}

// 4,096 entries are taken, and 4,097 aren't.
#[test]
fn entries_at_their_limit(rt: HostRuntime) -> Result<(), Fail> {
    let alloc = rt.alloc();
    assert!(rt; fault_of_run(alloc, 1, 4096)? == 0);
    assert!(rt; fault_of_run(alloc, 1, 4097)? == 33);
    Ok(())
}

// 4,194,304 bytes of the hosts file are taken, and one more isn't; too many entries go before.
#[test]
fn hosts_at_their_limit(rt: HostRuntime) -> Result<(), Fail> {
    let alloc = rt.alloc();
    assert!(rt; fault_of_run(alloc, 4_194_304, 1)? == 0);
    assert!(rt; fault_of_run(alloc, 4_194_305, 1)? == 34);
    assert!(rt; fault_of_run(alloc, 4_194_305, 4097)? == 33);
    Ok(())
}

// 16,777,216 bytes are read, and one more are too large, whatever they are. Without its message the run has 96 bytes.
#[test]
fn bytes_at_their_limit(rt: HostRuntime) -> Result<(), Fail> {
    let alloc = rt.alloc();
    let text = message_of(alloc, 8_388_560)?;
    assert!(rt; text.len() == 16_777_216);
    assert!(rt; fault_of(alloc, text.as_slice())? == 0);
    let mut more = text;
    more.push(b'x')?;
    assert!(rt; fault_of(alloc, more.as_slice())? == 31);
    Ok(())
}
