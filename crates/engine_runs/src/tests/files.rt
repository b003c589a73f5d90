//! Files and standard output.

use super::*;
use std::fmt::Display;
use std::io::{ErrorKind, Print};
use std::{env, fs, io, process};

/// What a read gives: this content (`c`), another (`o`), a file that is too large (`l`), none (`a`), or a failure (`f`).
fn read<F: Files>(files: &mut F, path: &str, most: u64, content: &[u8]) -> Result<char, NoMemory> {
    Ok(match files.read(path, most)? {
        FileRead::Content(bytes) if bytes.as_slice() == content => 'c',
        FileRead::Content(_) => 'o',
        FileRead::Large => 'l',
        FileRead::Absent => 'a',
        FileRead::Failed => 'f',
    })
}

/// What is in the file that the test makes.
const TEXT: &[u8] = b"::1 a";

/// The most bytes that are taken of it, and what its read gives.
const LIMITS: [(u64, char); 4] = [(5, 'c'), (u64::MAX, 'c'), (4, 'l'), (0, 'l')];

/// Whether the reads of a file with this text give what they should, one for each limit.
fn limited<F: Files>(files: &mut F, path: &str) -> Result<bool, NoMemory> {
    let mut as_wanted = true;
    for (most, want) in LIMITS {
        as_wanted = as_wanted && read(files, path, most, TEXT)? == want;
    }
    Ok(as_wanted)
}

/// Whether the reads of a file with this text give what they should, and there is nothing below it.
fn are_read<F: Files>(files: &mut F, path: &str, below: &str) -> Result<bool, NoMemory> {
    Ok(limited(files, path)? && read(files, below, 5, TEXT)? == 'a')
}

#[test]
fn files_are_read(rt: HostRuntime) -> Result<(), Fail> {
    let path = format!(in rt.alloc(); "/tmp/sock_engine_{}", process::id(rt.process()))?;
    let below = format!(in rt.alloc(); "{path}/b")?;
    fs::write(&rt, path.as_str(), TEXT)?;
    assert!(rt; are_read(&mut RealFiles::make(rt), path.as_str(), below.as_str())?);
    fs::remove_file(&rt, path.as_str())?;
    Ok(())
}

/// Paths that systems have, each with the most bytes that are taken of it, and what its read gives.
const PATHS: [(&str, u64, char); 6] = [
    ("/tmp/sock_engine/none", 5, 'a'),
    ("", 5, 'a'),
    ("/tmp", 5, 'f'),
    ("/dev/null", 0, 'c'),
    ("/dev/zero", 5, 'l'),
    // a terminal, whose read would wait
    ("/dev/ptmx", 5, 'f'),
];

/// The first of these paths whose read gives something else; a word that is none of them where there is none.
fn first_other<F: Files>(files: &mut F) -> Result<&'static str, NoMemory> {
    for (path, most, want) in PATHS {
        if read(files, path, most, b"")? != want {
            return Ok(path);
        }
    }
    Ok("none")
}

#[test]
fn other_paths_are_told_apart(rt: HostRuntime) -> Result<(), Fail> {
    assert_eq!(rt; first_other(&mut RealFiles::make(rt))?, "none");
    Ok(())
}

/// A standard output whose reader is gone.
#[derive(Drop)]
struct Closed;

fn gone() -> io::Result<()> {
    Err(io::Error::from(ErrorKind::BrokenPipe))
}

impl Print for Closed {
    fn print<D: Display + Drop>(&self, _value: D) -> io::Result<()> {
        gone()
    }

    fn println<D: Display + Drop>(&self, _value: D) -> io::Result<()> {
        gone()
    }

    fn write_all(&self, _bytes: &[u8]) -> io::Result<()> {
        gone()
    }
}

fn put<K: Sink>(sink: &mut K, text: &[u8]) -> Result<PutEnd, NoMemory> {
    sink.put(text)
}

/// Whether a put ends so.
fn ends_so<K: Sink>(sink: &mut K, end: PutEnd) -> Result<bool, NoMemory> {
    Ok(put(sink, b"put\n")? == end)
}

#[test]
fn output_is_put(rt: HostRuntime) -> Result<(), Fail> {
    assert!(rt; ends_so(&mut RealSink::make(rt), PutEnd::Done)?);
    assert!(rt; ends_so(&mut RealSink::make(Closed), PutEnd::Failed)?);
    Ok(())
}
