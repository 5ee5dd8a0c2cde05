//! Sets of numbers, kept as bits in words of 64: what `free_set` is made of.
ghost use Rattle.std.specs.Prelude.{◌≡◌, ◌≢◌, ℕ, ◌*◌, ◌/◌, ◌<◌, ◌≤◌, IfNone, IfSome, length};
ghost use Rattle.std.specs.Prelude.{slice_index, true, false};
ghost use Rattle.vm_base.specs.Functions.{put};
ghost use Rattle.frames.specs.Bits.{bit_in};

/// Tells whether the number is in the set.
pub(crate) fn contains(words: &[u64], k: usize) -> bool
    requires { k < length words.now * 64 }
    ensures { result ≡ bit_in words.now k }
{
    (words[k / 64] >> (k % 64)) & 1 == 1
}

/// Puts a number into the set.
pub(crate) fn insert(words: &mut [u64], k: usize)
    requires { k < length words.old * 64 }
    ensures members { bit_in words.new ≡ put (bit_in words.old) k true }
    ensures others { (w : ℕ) → w ≢ k / 64 → slice_index words.new w ≡ slice_index words.old w }
{
    words[k / 64] |= 1 << (k % 64);
}

/// Takes a number out of the set.
pub(crate) fn remove(words: &mut [u64], k: usize)
    requires { k < length words.old * 64 }
    ensures members { bit_in words.new ≡ put (bit_in words.old) k false }
    ensures others { (w : ℕ) → w ≢ k / 64 → slice_index words.new w ≡ slice_index words.old w }
{
    words[k / 64] &= !(1 << (k % 64));
}

/// The least member, which is in this word: the words before it are 0.
pub fn lowest(words: &[u64], word: usize) -> usize
    requires some { 0 < slice_index words.now word }
    requires first { (w : ℕ) → w < word → slice_index words.now w ≡ 0 }
    requires short { length words.now ≤ 1024 }
    ensures member { bit_in words.now result ≡ true }
    ensures least { (k : ℕ) → k < result → bit_in words.now k ≡ false }
{
    word * 64 + words[word].trailing_zeros() as usize
}

/// The least member, if there is one.
pub fn least(words: &[u64]) -> Option<usize>
    requires { length words.now ≤ 1024 }
    ensures none { IfNone result ((k : ℕ) → bit_in words.now k ≡ false) }
    ensures member { IfSome result (λ k. bit_in words.now k ≡ true) }
    ensures least { IfSome result (λ k. (j : ℕ) → j < k → bit_in words.now j ≡ false) }
{
    'words: for (at, word) in words.iter().enumerate() {
        if *word != 0 {
            return Some(lowest(words, at));
        }
    }
    None
}
