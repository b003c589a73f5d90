//! The identifiers of the attempts over each link.
use std::alloc::{AllocError, Global};

/// How many words of 64 flags the 65,536 identifiers take (RFC 1035, section 4.1.1).
const WORDS: usize = 1024;

/// The identifiers of the attempts over each link, with a flag for each identifier. They are a hint, of which contracts
/// say nothing: whoever reads one looks whether its attempt is over the link.
#[derive(Drop)]
pub(crate) struct LinkIds {
    items: Vec<Vec<u64>>,
}

impl LinkIds {
    /// No identifier. It takes no memory.
    pub(crate) fn make(alloc: Global) -> LinkIds {
        LinkIds {
            items: Vec::new(alloc),
        }
    }

    /// One item more, without an identifier.
    pub(crate) fn push(&mut self) -> Result<(), AllocError> {
        let words = vec![in *self.items.allocator(); 0; WORDS]?;
        self.items.push(words)?;
        Ok(())
    }

    /// The item at this index has this identifier from now on. It takes no memory.
    #[inline(always)]
    pub(crate) fn put(&mut self, index: usize, id: u16) {
        if let Some(words) = self.items.get_mut(index)
            && let Some(word) = words.get_mut(id as usize / 64)
        {
            *word |= bit_of(id);
        }
    }

    /// It has it no longer. It takes no memory.
    #[inline(always)]
    pub(crate) fn drop_id(&mut self, index: usize, id: u16) {
        if let Some(words) = self.items.get_mut(index)
            && let Some(word) = words.get_mut(id as usize / 64)
        {
            *word &= !bit_of(id);
        }
    }

    /// The identifiers of the item at this index.
    pub(crate) fn over(&self, alloc: Global, index: usize) -> Result<Vec<u16>, AllocError> {
        let mut ids = Vec::new(alloc);
        if let Some(words) = self.items.get(index) {
            push_all(words.as_slice(), &mut ids)?;
        }
        Ok(ids)
    }
}

/// The flag of the identifier in its word.
fn bit_of(id: u16) -> u64 {
    1 << (id % 64)
}

/// Adds the identifiers whose flags are set.
fn push_all(words: &[u64], ids: &mut Vec<u16>) -> Result<(), AllocError> {
    let mut first: u16 = 0;
    for index in 0..words.len() {
        push_of_word(words[index], first, ids)?;
        first = first.wrapping_add(64);
    }
    Ok(())
}

/// Adds those whose flags are set in this word, of which the first flag is that of this identifier.
fn push_of_word(word: u64, first: u16, ids: &mut Vec<u16>) -> Result<(), AllocError> {
    let mut rest = word;
    for _ in 0..64 {
        if rest == 0 {
            return Ok(());
        }
        ids.push(first.wrapping_add(rest.trailing_zeros() as u16))?;
        rest &= rest - 1;
    }
    Ok(())
}
