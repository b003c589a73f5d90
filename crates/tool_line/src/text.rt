//! A text that is put together, part by part.

ghost use Rattle.std.specs.Prelude.{◌≡◌, ◌++◌, [], decimal, replicate, OnOk};
ghost use Rattle.dns_rdata.specs.Lines.{spaced};

use item_list::{Bytes, NoMemory};
use std::alloc::Global;
use std::marker::Model;

/// A text that is put together. Contracts see it as its bytes so far.
#[derive(Drop)]
pub struct Text {
    alloc: Global,
    bytes: Vec<u8>,
}

impl Model for Text {
    ghost use Rattle.std.specs.Prelude.{List, ℕ};

    ghost Value = { List ℕ };

    ghost view = { λ text. text.bytes.items };
}

impl Text {
    /// The empty text. It takes no memory.
    pub fn new(alloc: Global) -> Text
        ensures { result ≡ [] }
    {
        Text {
            alloc,
            bytes: Vec::new(alloc),
        }
    }

    /// Adds a part at the end.
    pub fn put(&mut self, part: &[u8]) -> Result<(), NoMemory>
        ensures { OnOk result (self.new ≡ self.old ++ part.now) }
    {
        self.bytes.extend_from_slice(part)?;
        Ok(())
    }

    /// Adds a word behind a blank.
    pub fn put_word(&mut self, word: &[u8]) -> Result<(), NoMemory>
        ensures { OnOk result (self.new ≡ self.old ++ spaced word.now) }
    {
        self.bytes.push(b' ')?;
        self.put(word)
    }

    /// Adds a number in decimal digits behind a blank.
    pub fn put_number(&mut self, number: u64) -> Result<(), NoMemory>
        ensures { OnOk result (self.new ≡ self.old ++ spaced (decimal number)) }
    {
        let digits = format!(in self.alloc; "{number}")?;
        self.put_word(digits.as_bytes())
    }

    /// Adds so many blanks.
    pub fn put_blanks(&mut self, count: u64) -> Result<(), NoMemory>
        ensures { OnOk result (self.new ≡ self.old ++ replicate count 32) }
    {
        for _ in 0..count {
            self.bytes.push(b' ')?;
        }
        Ok(())
    }

    /// The bytes of the text. It takes no memory.
    pub fn into_bytes(self) -> Bytes
        ensures { result ≡ self }
    {
        Bytes::from_vec(self.bytes)
    }
}
