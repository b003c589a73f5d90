//! The words that are names.

ghost use Rattle.std.specs.Prelude.{◌≡◌, ◌++◌, map, option_to_list, IfOk, OnOk};
ghost use Rattle.text_lines.specs.Names.{name_of, names_of};

use dns_message::{Name, NameFault, NameList};
use item_list::NoMemory;
use std::alloc::Global;

/// The name that a word is, if it is one. A final dot makes no difference.
pub fn read_name(alloc: Global, word: &[u8]) -> Result<Option<Name>, NoMemory>
    ensures { IfOk result (λ name. name ≡ name_of word.now) }
{
    match Name::from_text(alloc, word) {
        Ok(found) => Ok(Some(found.name)),
        Err(
            NameFault::EmptyLabel(_)
            | NameFault::LongLabel(_)
            | NameFault::LongName(_)
            | NameFault::BadEscape(_),
        ) => Ok(None),
        Err(NameFault::NoMemory) => Err(NoMemory),
    }
}

/// Adds the name that a word is, if it is one.
fn add_name(alloc: Global, names: &mut NameList, word: &[u8]) -> Result<(), NoMemory>
    ensures { OnOk result (names.new ≡ names.old ++ option_to_list (name_of word.now)) }
{
    match read_name(alloc, word)? {
        Some(name) => names.push(name),
        None => Ok(()),
    }
}

/// The names among these words, in order. Words that aren't names are passed over.
pub fn read_names(alloc: Global, words: &[&[u8]]) -> Result<NameList, NoMemory>
    ensures { IfOk result (λ names. names ≡ names_of (map (λ word. word.now) words.now)) }
{
    let mut names = NameList::new(alloc);
    for word in words {
        add_name(alloc, &mut names, word)?;
    }
    Ok(names)
}
