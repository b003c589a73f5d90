//! The files of the system.

ghost use Rattle.std.specs.Prelude.{◌≡◌, IfOk, OnErr, None};
ghost use Rattle.net_world.specs.Cause.{is_not_read, raised};
ghost use Rattle.net_world.specs.Files.{IsReadOf};

use crate::reading::read_path;
use dns_message::NoMemory;
use net_world::{FileRead, Files, raise};
use std::fs;
use std::io::IsTerminal;
use std::marker::Model;

/// The files of the system. Contracts see how often a read failed, and nothing of what they hold.
#[derive(Drop)]
pub struct RealFiles<R> {
    rt: R,
    faults: u64,
}

impl<R> Model for RealFiles<R> {
    ghost use Rattle.std.specs.Prelude.{ℕ};

    ghost Value = { ℕ };

    ghost view = { λ f. f.faults };
}

impl<R: fs::Files + AllocGlobal> RealFiles<R>
where
    R::File: IsTerminal,
{
    /// The files of this runtime.
    pub fn make(rt: R) -> RealFiles<R>
        ensures { result ≡ 0 }
    {
        RealFiles { rt, faults: 0 }
    }

    /// Reads the whole file of this path, where it has at most so many bytes. What isn't a file of bytes, as a directory,
    /// a pipe or a terminal, fails, and isn't read.
    pub fn read(&mut self, path: &str, most: u64) -> Result<FileRead, NoMemory>
        ensures ok { IfOk result (λ read. self.new ≡ raised (is_not_read read) self.old) }
        ensures answer { IfOk result (IsReadOf None path.now most) }
        ensures err { OnErr result (self.new ≡ self.old) }
    {
        let read = read_path(&self.rt, path, most)?;
        self.faults = raise(is_failed(&read), self.faults);
        Ok(read)
    }
}

fn is_failed(read: &FileRead) -> bool
    ensures { result ≡ is_not_read read.now }
{
    match read {
        FileRead::Content(_) | FileRead::Absent | FileRead::Large => false,
        FileRead::Failed => true,
    }
}

impl<R: fs::Files + AllocGlobal> Files for RealFiles<R>
where
    R::File: IsTerminal,
{
    ghost files = { λ _. None };

    ghost faults = { λ f. f };

    ghost reads = { λ _. None };

    fn read(&mut self, path: &str, most: u64) -> Result<FileRead, NoMemory> {
        RealFiles::read(self, path, most)
    }
}
