//! Cutting bytes at the first of one kind.

ghost use Rattle.std.specs.Prelude.{◌≡◌, ◌++◌, ◌∷◌, MatchOption};
ghost use Rattle.journal_text.specs.Cuts.{Lacks};

/// What stands before the first such byte and behind it; none where there is no such byte.
pub(crate) fn cut_at(text: &[u8], byte: u8) -> Option<(&[u8], &[u8])>
    ensures { MatchOption result (Lacks byte text.now)
        (λ cut. (text.now ≡ cut.0.now ++ byte ∷ cut.1.now) × Lacks byte cut.0.now) }
{
    match text.iter().position(|b| *b == byte) {
        Some(end) => Some((&text[..end], &text[end + 1..])),
        None => None,
    }
}
