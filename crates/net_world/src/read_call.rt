//! One read of a file.

ghost use Rattle.std.specs.Prelude.{◌≡◌, IfOk};

use crate::answers::FileRead;
use dns_message::{Bytes, NoMemory};
use std::alloc::Global;

/// A read, with its answer.
#[derive(Debug, Drop, PartialEq)]
pub struct ReadCall {
    pub path: Bytes,
    /// So many bytes were asked for at most.
    pub most: u64,
    pub read: FileRead,
}

impl FileRead {
    /// An equal one.
    pub fn copy(&self, alloc: Global) -> Result<FileRead, NoMemory>
        ensures { IfOk result (λ read. read ≡ self.now) }
    {
        Ok(match self {
            FileRead::Content(bytes) => FileRead::Content(Bytes::of(alloc, bytes.as_slice())?),
            FileRead::Absent => FileRead::Absent,
            FileRead::Large => FileRead::Large,
            FileRead::Failed => FileRead::Failed,
        })
    }
}
