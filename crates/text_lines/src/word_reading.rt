//! The words of a line.

ghost use Rattle.std.specs.Prelude.{◌≡◌, map, IfOk};
ghost use Rattle.text_lines.specs.Words as meaning;

use item_list::NoMemory;
use std::alloc::Global;

/// Whether the byte parts words.
fn is_blank(byte: u8) -> bool
    ensures { result ≡ meaning.is_blank byte }
{
    byte == b' ' || byte == b'\t' || byte == b'\r'
}

/// Whether a comment begins with the word.
fn begins_comment(word: &[u8]) -> bool
    ensures { result ≡ meaning.begins_comment word.now }
{
    match word {
        [] => false,
        [first, ..] => *first == b'#' || *first == b';',
    }
}

/// The words of a line, which blanks part.
pub fn words_in<'a>(alloc: Global, line: &'a [u8]) -> Result<Vec<&'a [u8]>, NoMemory>
    ensures { IfOk result (λ found. map (λ word. word.now) found.items ≡ meaning.words_of line.now) }
{
    let found = line
        .split(|byte| is_blank(*byte))
        .filter(|part| !part.is_empty())
        .collect(alloc)?;
    Ok(found)
}

/// The words of a line up to the first that begins with `#` or `;`.
pub fn words_before_comment<'a>(alloc: Global, line: &'a [u8]) -> Result<Vec<&'a [u8]>, NoMemory>
    ensures { IfOk result
        (λ found. map (λ word. word.now) found.items ≡ meaning.words_before_comment line.now) }
{
    let found = line
        .split(|byte| is_blank(*byte))
        .filter(|part| !part.is_empty())
        .take_while(|word| !begins_comment(word))
        .collect(alloc)?;
    Ok(found)
}
