//! The machine's own addresses among its routes of IPv4 (proc(5)).

ghost use Rattle.std.specs.Prelude.{◌≡◌, ◌++◌, map, IfOk, OnOk};
ghost use Rattle.text_lines.specs.Words.{words_of};
ghost use Rattle.own_addresses.specs.Telling as meaning;
ghost use Rattle.own_addresses.specs.Leaves.{leaves_of};

use crate::telling::word_at;
use item_list::NoMemory;
use net_addr::{Addr, read};
use std::alloc::Global;
use text_lines::{lines_in, words_in};

/// How far a text like /proc/net/fib_trie was read.
#[derive(Drop)]
pub(crate) struct Leaves {
    /// The address of the last leaf.
    pub(crate) head: Option<Addr>,
    /// The addresses so far that are the machine's own.
    pub(crate) own: Vec<Addr>,
}

/// Adds the IPv4 addresses that a text like /proc/net/fib_trie tells to be the machine's own.
pub(crate) fn add_v4(alloc: Global, told: &mut Vec<Addr>, text: &[u8]) -> Result<(), NoMemory>
    ensures { OnOk result (told.new.items ≡ told.old.items ++ meaning.v4_told text.now) }
{
    let leaves = leaves_in(alloc, text)?;
    told.extend_from_slice(leaves.own.as_slice())?;
    Ok(())
}

/// What the text tells.
fn leaves_in(alloc: Global, text: &[u8]) -> Result<Leaves, NoMemory>
    ensures { IfOk result (λ leaves. leaves.own.items ≡ meaning.v4_told text.now) }
{
    let mut leaves = Leaves {
        head: None,
        own: Vec::new(alloc),
    };
    for line in lines_in(text) {
        let words = words_in(alloc, line)?;
        leaves.read_on(words.as_slice())?;
    }
    Ok(leaves)
}

impl Leaves {
    /// Reads a line of these words.
    fn read_on(&mut self, words: &[&[u8]]) -> Result<(), NoMemory>
        ensures { OnOk result (leaves_of self.new
            ≡ meaning.leaves_behind (leaves_of self.old) (map (λ word. word.now) words.now)) }
    {
        self.head = head_behind(words, self.head);
        if is_own(words) {
            if let Some(address) = self.head {
                self.own.push(address)?;
            }
        }
        Ok(())
    }
}

/// The address that heads what follows a line of these words.
fn head_behind(words: &[&[u8]], before: Option<Addr>) -> Option<Addr>
    ensures { result ≡ meaning.head_behind (map (λ word. word.now) words.now) before }
{
    let mark = word_at(words, 0);
    if mark == b"|--".as_slice() {
        return read(word_at(words, 1));
    }
    if mark == b"+--".as_slice() {
        return None;
    }
    before
}

/// Whether a line of these words says that the address of the leaf is the machine's own.
fn is_own(words: &[&[u8]]) -> bool
    ensures { result ≡ meaning.is_own (map (λ word. word.now) words.now) }
{
    word_at(words, 0) == b"/32".as_slice()
        && word_at(words, 1) == b"host".as_slice()
        && word_at(words, 2) == b"LOCAL".as_slice()
}
