//! Spoiling cases: a few changes, each drawn by words of a simple generator.

use crate::cases::Case;
use std::alloc::{AllocError, Global};

/// Bytes that mean something to a reader: lengths, the ends of their ranges, pointers, and what parts texts.
const EDGES: &[u8; 24] =
    b"\x00\x01\x02\x04\x0b\x0c\x10\x29\x3f\x40\x7f\x80\xbf\xc0\xc1\xff.\\ \t\n#:-";

/// Words that a seed begins (the generator SplitMix64).
#[derive(Drop)]
pub struct Words {
    state: u64,
}

impl Words {
    /// The words that this seed begins.
    pub fn of(seed: u64) -> Words {
        Words { state: seed }
    }

    /// The next word.
    fn next(&mut self) -> u64 {
        self.state = self.state.wrapping_add(0x9e37_79b9_7f4a_7c15);
        let word = self.state;
        let word = (word ^ (word >> 30)).wrapping_mul(0xbf58_476d_1ce4_e5b9);
        let word = (word ^ (word >> 27)).wrapping_mul(0x94d0_49bb_1331_11eb);
        word ^ (word >> 31)
    }

    /// The next word's lowest byte.
    fn byte(&mut self) -> u8 {
        let [.., byte] = self.next().to_be_bytes();
        byte
    }

    /// A number below this one, or 0.
    fn below(&mut self, most: usize) -> usize {
        (self.next() % (most as u64).max(1)) as usize
    }
}

/// One of the cases with one to four changes, if there are cases.
pub fn spoiled(
    alloc: Global,
    words: &mut Words,
    cases: &[Case],
) -> Result<Option<Case>, AllocError> {
    let (Some(case), Some(other)) = (
        cases.get(words.below(cases.len())),
        cases.get(words.below(cases.len())),
    ) else {
        return Ok(None);
    };
    let mut bytes = Vec::from_slice(alloc, case.bytes.as_slice())?;
    for _ in 0..words.below(4).saturating_add(1) {
        bytes = changed(alloc, words, bytes.as_slice(), other.bytes.as_slice())?;
    }
    Ok(Some(Case {
        kind: case.kind,
        bytes,
    }))
}

/// The bytes with one change: a byte in place of another, a piece of other bytes in place of one or before it, a piece
/// less, or an end.
fn changed(
    alloc: Global,
    words: &mut Words,
    bytes: &[u8],
    other: &[u8],
) -> Result<Vec<u8>, AllocError> {
    let at = words.below(bytes.len());
    match words.below(8) {
        0 => replaced(alloc, bytes, at, 1, &[words.byte()]),
        1 | 2 => replaced(alloc, bytes, at, 1, piece(words, EDGES, 2)),
        3 => replaced(alloc, bytes, at, 2, piece(words, EDGES, 3)),
        4 => {
            let taken = piece(words, other, 24);
            replaced(alloc, bytes, at, taken.len(), taken)
        }
        5 => replaced(alloc, bytes, at, 0, piece(words, other, 24)),
        6 => replaced(alloc, bytes, at, words.below(24), &[]),
        _ => replaced(alloc, bytes, at, bytes.len(), &[]),
    }
}

/// The bytes with so many from an offset on replaced by others.
fn replaced(
    alloc: Global,
    bytes: &[u8],
    at: usize,
    len: usize,
    others: &[u8],
) -> Result<Vec<u8>, AllocError> {
    let (front, rest) = bytes.split_at(at.min(bytes.len()));
    let (_, behind) = rest.split_at(len.min(rest.len()));
    let mut out = Vec::from_slice(alloc, front)?;
    out.extend_from_slice(others)?;
    out.extend_from_slice(behind)?;
    Ok(out)
}

/// A piece of the bytes that is shorter than this.
fn piece<'a>(words: &mut Words, bytes: &'a [u8], most: usize) -> &'a [u8] {
    let (_, rest) = bytes.split_at(words.below(bytes.len()).min(bytes.len()));
    let (taken, _) = rest.split_at(words.below(most).min(rest.len()));
    taken
}
