//! Files that are held in memory.

ghost use Rattle.std.specs.Prelude.{◌≡◌, [], List, ℕ, IfOk, OnErr};
ghost use Rattle.std.specs.Option.{option_copied};
ghost use Rattle.net_world.specs.MemFiles.{ReadsFile, read_of, paths_of, file_of};
ghost use Rattle.std.specs.BTreeMap.{get_by_text};

use crate::answers::FileRead;
use crate::failing::{Failing, raise};
use crate::files::Files;
use crate::read_call::ReadCall;
use dns_message::{Bytes, ItemList, NoMemory};
use std::alloc::Global;
use std::collections::BTreeMap;
use std::marker::Model;

/// Files in memory: a map from paths to bytes, and the reads so far. The reads that were named at its making fail.
#[derive(Drop)]
pub struct MemFiles {
    alloc: Global,
    files: BTreeMap<String, Bytes>,
    calls: u64,
    failing: Failing,
    reads: ItemList<ReadCall>,
}

impl Model for MemFiles {
    ghost use Rattle.net_world.specs.MemFiles.{FilesState, paths_of};

    ghost Value = { FilesState };

    ghost view = { λ f. record {
      files = paths_of f.files.entries;
      calls = f.calls;
      fails = f.failing.numbers;
      faults = f.failing.faults;
      reads = f.reads;
    } };
}

impl MemFiles {
    /// These files, whose reads with these numbers, from 0, fail. It takes no memory.
    #[tactic(auto, using(crate::proofs::MapLemmas::lookup_paths))]
    pub fn make(files: BTreeMap<String, Bytes>, fails: Vec<u64>) -> MemFiles
        ensures state { result
            ≡ record { files = paths_of files.entries; calls = 0; fails = fails.items; faults = 0; reads = [] } }
        ensures files { (path : List ℕ) → file_of result.files path ≡ get_by_text files path }
    {
        let alloc = *fails.allocator();
        MemFiles {
            alloc,
            files,
            calls: 0,
            failing: Failing::new(fails),
            reads: ItemList::new(alloc),
        }
    }

    /// The reads so far, with their answers.
    pub fn reads(&self) -> &[ReadCall]
        ensures { result.now ≡ self.now.reads }
    {
        self.reads.as_slice()
    }

    /// Reads the whole file of this path, where it has at most so many bytes.
    pub fn read(&mut self, path: &str, most: u64) -> Result<FileRead, NoMemory>
        ensures ok { IfOk result (ReadsFile path.now most self.old self.new) }
        ensures err { OnErr result (self.new ≡ self.old) }
    {
        let failed = self.failing.fails(self.calls);
        let read = if failed {
            FileRead::Failed
        } else {
            copy_of(self.alloc, &self.files, path, most)?
        };
        self.reads.push(ReadCall {
            path: Bytes::of(self.alloc, path.as_bytes())?,
            most,
            read: read.copy(self.alloc)?,
        })?;
        self.calls = raise(true, self.calls);
        self.failing.count(failed);
        Ok(read)
    }
}

#[tactic(auto, using(crate::proofs::MapLemmas::lookup_paths))]
fn look_up<'a>(files: &'a BTreeMap<String, Bytes>, path: &str) -> Option<&'a Bytes>
    ensures { option_copied result ≡ file_of (paths_of files.now.entries) path.now }
{
    files.get(path)
}

fn copy_of(
    alloc: Global,
    files: &BTreeMap<String, Bytes>,
    path: &str,
    most: u64,
) -> Result<FileRead, NoMemory>
    ensures { IfOk result (λ read. read ≡ read_of most (file_of (paths_of files.now.entries) path.now)) }
{
    match look_up(files, path) {
        None => Ok(FileRead::Absent),
        Some(bytes) if bytes.len() as u64 > most => Ok(FileRead::Large),
        Some(bytes) => Ok(FileRead::Content(Bytes::of(alloc, bytes.as_slice())?)),
    }
}

impl Files for MemFiles {
    ghost use Rattle.std.specs.Prelude.{Some};
    ghost use Rattle.net_world.specs.MemFiles.{file_of};

    ghost files = { λ f. Some (file_of f.files) };

    ghost faults = { λ f. f.faults };

    ghost reads = { λ f. Some f.reads };

    fn read(&mut self, path: &str, most: u64) -> Result<FileRead, NoMemory> {
        MemFiles::read(self, path, most)
    }
}
