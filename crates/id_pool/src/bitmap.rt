//! Flags in words of 64 bits.
ghost use Rattle.std.specs.Prelude.{◌≡◌, ◌≢◌, ◌+◌, ◌*◌, ◌/◌, ◌<◌, ◌≤◌, ◌==◌, true, false, length, slice_index};
ghost use Rattle.id_pool.specs.Bitmap.{bit_is_set, flag, FindsFirst, IsFirst, Changes};

/// The first bit that is set in the word, from a place on.
#[inline(always)]
pub(crate) fn first_bit(word: u64, from: usize) -> Option<usize>
    requires { from < 64 }
    ensures { FindsFirst (bit_is_set word) from 64 result }
{
    let rest = word >> from;
    if rest == 0 {
        return None;
    }
    Some(from + rest.trailing_zeros() as usize)
}

/// The first flag that is set in the word of a place, from the place on.
#[inline(always)]
pub(crate) fn first_here(words: &[u64], from: usize) -> Option<usize>
    requires { from / 64 < length words.now }
    ensures { FindsFirst (flag words.now) from (from / 64 * 64 + 64) result }
{
    let bit = first_bit(words[from / 64], from % 64)?;
    Some(from / 64 * 64 + bit)
}

/// The first flag that is set in a word that isn't 0.
#[inline(always)]
pub(crate) fn first_in(words: &[u64], word: usize) -> usize
    requires within { word < length words.now }
    requires small { word < 1024 }
    requires some { slice_index words.now word ≢ 0 }
    ensures { IsFirst (flag words.now) (word * 64) (word * 64 + 64) result }
{
    word * 64 + words[word].trailing_zeros() as usize
}

/// Whether the flag is set.
#[inline(always)]
pub(crate) fn has(words: &[u64], place: usize) -> bool
    requires { place / 64 < length words.now }
    ensures { result ≡ flag words.now place }
{
    (words[place / 64] >> (place % 64)) & 1 == 1
}

/// Sets the flag.
#[inline(always)]
pub(crate) fn set(words: &mut Vec<u64>, place: usize)
    requires { place / 64 < length words.old.items }
    ensures { Changes words.old.items words.new.items place true }
{
    words[place / 64] |= 1 << (place % 64);
}

/// Clears the flag, and answers whether its word is 0 now.
#[inline(always)]
pub(crate) fn clear(words: &mut Vec<u64>, place: usize) -> bool
    requires { place / 64 < length words.old.items }
    ensures changes { Changes words.old.items words.new.items place false }
    ensures less { slice_index words.new.items (place / 64)
        ≤ slice_index words.old.items (place / 64) }
    ensures empty { result ≡ (slice_index words.new.items (place / 64) == 0) }
{
    words[place / 64] &= !(1 << (place % 64));
    words[place / 64] == 0
}
