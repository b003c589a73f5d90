//! Reading a file to its end, and what the system's refusals mean.

ghost use Rattle.std.specs.Prelude.{◌≡◌, ◌≢◌, ℕ, ◌+◌, ◌-◌, ◌^◌, min, List, take, IsTrue, IfOk, IfSome, Ok, true};
ghost use Rattle.std.specs.Fs.{IsFile};
ghost use Rattle.std.specs.Result.{is_err};
ghost use Rattle.std.specs.IoError.{error_kind};
ghost use Rattle.net_world.specs.declared.answers.FileRead.TheVariants.{Absent, Failed as NotRead};
ghost use Rattle.sock_engine.specs.Reading.{IsAllOf, IsBounded};

use dns_message::{Bytes, NoMemory};
use net_world::FileRead;
use std::alloc::Global;
use std::fs::{File, FileType};
use std::io::{ErrorKind, IsTerminal, Read};
use std::os::unix::fs::FileTypeExt;
use std::{fs, io};

/// Reads the file of this path, where it has at most so many bytes. A pipe isn't opened and a terminal isn't read, since
/// both keep the caller waiting. Another device may: what it does isn't known.
pub(crate) fn read_path<R: fs::Files + AllocGlobal>(
    rt: &R,
    path: &str,
    most: u64,
) -> Result<FileRead, NoMemory>
where
    R::File: IsTerminal,
    ensures { IfOk result (IsBounded most) }
{
    let metadata = match rt.metadata(path) {
        Ok(metadata) => metadata,
        Err(error) => return refusal(&error),
    };
    if !is_opened(metadata.file_type()) {
        return Ok(FileRead::Failed);
    }
    match File::open(rt, path) {
        Ok(file) if file.is_terminal() => Ok(FileRead::Failed),
        Ok(file) => read_all(rt.alloc(), file, metadata.len(), most),
        Err(error) => refusal(&error),
    }
}

/// Whether it is opened: a file, or a character device such as /dev/null.
fn is_opened(kind: FileType) -> bool
    ensures { IsFile kind → IsTrue result }
{
    kind.is_file() || kind.is_char_device()
}

/// What it means that a file can't be found or opened.
fn refusal(error: &io::Error) -> Result<FileRead, NoMemory>
    ensures absent { error_kind error.now ≡ ErrorKind.NotFound → result ≡ Ok Absent }
    ensures no_folder { error_kind error.now ≡ ErrorKind.NotADirectory → result ≡ Ok Absent }
    ensures memory { error_kind error.now ≡ ErrorKind.OutOfMemory → is_err result ≡ true }
    ensures failed { error_kind error.now ≢ ErrorKind.NotFound
        → error_kind error.now ≢ ErrorKind.NotADirectory
        → error_kind error.now ≢ ErrorKind.OutOfMemory → result ≡ Ok NotRead }
{
    match error.kind() {
        ErrorKind::NotFound | ErrorKind::NotADirectory => Ok(FileRead::Absent),
        ErrorKind::OutOfMemory => Err(NoMemory),
        _ => Ok(FileRead::Failed),
    }
}

/// Reads to the end, or to one byte more than so many. `len` is about how long it is.
fn read_all<F: Read + Drop>(
    alloc: Global,
    file: F,
    len: u64,
    most: u64,
) -> Result<FileRead, NoMemory>
    ensures bounded { IfOk result (IsBounded most) }
    ensures all { IfSome (F.remaining file) (λ bytes. IfOk result (IsAllOf bytes most)) }
{
    match read_some(alloc, file, len.min(most), most.saturating_add(1)) {
        Ok(bytes) => Ok(fitting(bytes, most)),
        Err(error) if error.kind() == ErrorKind::OutOfMemory => Err(NoMemory),
        Err(_) => Ok(FileRead::Failed),
    }
}

/// Reads to the end, or to so many bytes. `len` is about how many there are.
fn read_some<F: Read + Drop>(alloc: Global, file: F, len: u64, limit: u64) -> io::Result<Vec<u8>>
    ensures { IfSome (F.remaining file) (λ whole. IfOk result (λ bytes. bytes.items ≡ take limit whole)) }
{
    let room = usize::try_from(len).unwrap_or(usize::MAX);
    let mut bytes = Vec::with_capacity(alloc, room.saturating_add(1))?;
    file.take(limit).read_to_end(&mut bytes)?;
    Ok(bytes)
}

/// What a file is, whose bytes up to one more than `most` these are.
#[tactic(auto, using(crate::proofs::ReadingLemmas::take_short))]
fn fitting(bytes: Vec<u8>, most: u64) -> FileRead
    ensures bounded { IsBounded most result }
    ensures all { (whole : List ℕ) → bytes.items ≡ take (min (most + 1) (2 ^ 64 - 1)) whole
        → IsAllOf whole most result }
{
    if bytes.len() as u64 > most {
        FileRead::Large
    } else {
        FileRead::Content(Bytes::from_vec(bytes))
    }
}
