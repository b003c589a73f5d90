//! The lines of a text.

ghost use Rattle.std.specs.Prelude.{◌≡◌, ◌≤◌, ◌==◌, ◌∷◌, length};
ghost use Rattle.std.specs.List.{position_or_len};
ghost use Rattle.text_lines.specs.Lines as meaning;
ghost use Rattle.text_lines.specs.Left.{lines_behind, lines_left};

/// LF, which ends a line.
const LINE_FEED: u8 = b'\n';

/// What begins a comment wherever it stands.
const HASH: u8 = b'#';

/// The lines of a text that are still to come, in order.
#[derive(Drop)]
pub struct Lines<'a> {
    /// The text behind the lines so far. There is none where the last line has come.
    pub(crate) rest: Option<&'a [u8]>,
}

/// The offset of the first such byte, or the length where there is none.
fn offset_of(text: &[u8], byte: u8) -> usize
    ensures value { result ≡ position_or_len (λ b. b == byte) text.now }
    ensures within { result ≤ length text.now }
{
    match text.iter().position(|b| *b == byte) {
        Some(offset) => offset,
        None => text.len(),
    }
}

/// The first line of a text, and the text behind it, where the line ends with LF.
fn cut_line(text: &[u8]) -> (&[u8], Option<&[u8]>)
    ensures { meaning.lines_of text.now ≡ result.0.now ∷ lines_behind result.1 }
{
    let end = offset_of(text, LINE_FEED);
    if end == text.len() {
        return (text, None);
    }
    (&text[..end], Some(&text[end + 1..]))
}

/// The lines of a text. Behind a last LF stands an empty one.
pub fn lines_in(text: &[u8]) -> Lines<'_>
    ensures { lines_left result ≡ meaning.lines_of text.now }
{
    Lines { rest: Some(text) }
}

impl<'a> Iterator for Lines<'a> {
    ghost use Rattle.std.specs.Iterator.{YieldsFirstRef, item_count};

    type Item = &'a [u8];

    ghost next_gives = { YieldsFirstRef lines_left };

    ghost remaining = { item_count lines_left };

    fn next(&mut self) -> Option<&'a [u8]> {
        let (line, rest) = cut_line(self.rest?);
        self.rest = rest;
        Some(line)
    }
}

/// The line up to its first `#`.
pub fn before_comment(line: &[u8]) -> &[u8]
    ensures { result.now ≡ meaning.before_comment line.now }
{
    &line[..offset_of(line, HASH)]
}
