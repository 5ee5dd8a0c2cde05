//! The words of a line: its bytes up to spaces.
ghost use Rattle.std.specs.Prelude.{◌≡◌, ◌≢◌, ℕ, ◌<◌, ◌≤◌, length, slice_index, option_map, true};
ghost use Rattle.trace_text.specs.Words.{words_of, front_word};

// How many spaces the bytes begin with.
fn space_count(bytes: &[u8]) -> usize
    ensures within { result ≤ length bytes.now }
    ensures before { (k : ℕ) → k < result → slice_index bytes.now k ≡ 32 }
    ensures stops { result < length bytes.now → slice_index bytes.now result ≢ 32 }
{
    for (i, b) in bytes.iter().enumerate() {
        if *b != b' ' {
            return i;
        }
    }
    bytes.len()
}

// How many bytes stand before the first space.
fn word_length(bytes: &[u8]) -> usize
    ensures within { result ≤ length bytes.now }
    ensures before { (k : ℕ) → k < result → slice_index bytes.now k ≢ 32 }
    ensures stops { result < length bytes.now → slice_index bytes.now result ≡ 32 }
{
    for (i, b) in bytes.iter().enumerate() {
        if *b == b' ' {
            return i;
        }
    }
    bytes.len()
}

/// The bytes from the first word on, none where there is no word.
pub(crate) fn trimmed(bytes: &[u8]) -> &[u8]
    ensures { words_of result.now ≡ words_of bytes.now }
{
    let (_, rest) = bytes.split_at(space_count(bytes));
    rest
}

/// The first word, and the bytes after it.
#[inline(always)]
pub fn next_word(bytes: &[u8]) -> Option<(&[u8], &[u8])>
    ensures { option_map (λ f. (f.0.now, words_of f.1.now)) result ≡ front_word (words_of bytes.now) }
{
    let (_, rest) = bytes.split_at(space_count(bytes));
    if rest.is_empty() {
        return None;
    }
    Some(rest.split_at(word_length(rest)))
}
