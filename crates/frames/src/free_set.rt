//! Which frames are free: a set of numbers below a limit, which finds its least member by a look at few
//! words.
ghost use Rattle.std.specs.Prelude.{◌≡◌, ℕ, ◌*◌, ◌<◌, ◌≤◌, length, IfNone, IfSome, IfOk, nat_lt, true};
ghost use Rattle.std.specs.Prelude.{false};
ghost use Rattle.vm_base.specs.Functions.{put};
ghost use Rattle.frames.specs.Bits.{bit_in, count_below};
ghost use Rattle.frames.specs.Parts.{IsSummed};

use crate::bits;
use std::alloc::{AllocError, Allocator};
use std::marker::Model;

/// The words of a summary: each bit stands for a word of the set.
const SUMMARY_WORDS: usize = 16;

/// A set of numbers below a limit of at most 65,536. A summary has a bit for each word that isn't 0.
#[derive(Drop)]
pub(crate) struct FreeSet<A: Allocator> {
    words: Vec<u64, A>,
    summary: [u64; SUMMARY_WORDS],
    limit: u32,
    size: u32,
}

impl<A: Allocator> Model for FreeSet<A> {
    ghost use Rattle.frames.specs.Parts.{Members, IsCounted};

    ghost Value = { Members };

    ghost view = { λ s. record { words = s.words.items; limit = s.limit } };

    ghost invariant = { λ s. IsCounted s.words.items s.summary s.limit s.size };
}

impl<A: Allocator> FreeSet<A> {
    /// The set of no number below `limit`.
    fn none(alloc: A, limit: u32) -> Result<FreeSet<A>, AllocError>
        requires { limit ≤ 65536 }
        ensures members { IfOk result (λ s. bit_in s.words ≡ (λ k. false)) }
        ensures limit { IfOk result (λ s. s.limit ≡ limit) }
    {
        let words = vec![in alloc; 0u64; limit.div_ceil(64) as usize]?;
        Ok(FreeSet {
            words,
            summary: [0; SUMMARY_WORDS],
            limit,
            size: 0,
        })
    }

    /// The set of all numbers below `limit`.
    pub fn all(alloc: A, limit: u32) -> Result<FreeSet<A>, AllocError>
        requires { limit ≤ 65536 }
        ensures members { IfOk result (λ s. bit_in s.words ≡ (λ k. nat_lt k limit)) }
        ensures limit { IfOk result (λ s. s.limit ≡ limit) }
    {
        let mut set = FreeSet::none(alloc, limit)?;
        'numbers: for k in 0..limit {
            set.insert(k);
        }
        Ok(set)
    }

    /// The limit.
    pub fn limit(&self) -> u32
        ensures { result ≡ self.now.limit }
    {
        self.limit
    }

    /// How many members there are.
    pub fn size(&self) -> u32
        ensures { result ≡ count_below (bit_in self.now.words) self.now.limit }
    {
        self.size
    }

    /// Tells whether the number is in the set.
    pub fn contains(&self, k: u32) -> bool
        requires { k < self.now.limit }
        ensures { result ≡ bit_in self.now.words k }
    {
        bits::contains(&self.words, k as usize)
    }

    /// The least member, if there is one.
    pub fn least(&self) -> Option<u32>
        ensures none { IfNone result ((k : ℕ) → bit_in self.now.words k ≡ false) }
        ensures member { IfSome result (λ k. bit_in self.now.words k ≡ true) }
        ensures least { IfSome result (λ k. (j : ℕ) → j < k → bit_in self.now.words j ≡ false) }
        ensures in_range { IfSome result (λ k. k < self.now.limit) }
    {
        let Some(word) = bits::least(&self.summary) else {
            return None;
        };
        Some(bits::lowest(&self.words, word) as u32)
    }

    /// Puts a number into the set.
    pub fn insert(&mut self, k: u32)
        requires new { bit_in self.old.words k ≡ false }
        requires in_range { k < self.old.limit }
        ensures members { bit_in self.new.words ≡ put (bit_in self.old.words) k true }
        ensures limit { self.new.limit ≡ self.old.limit }
    {
        insert(&mut self.words, &mut self.summary, k as usize);
        self.size += 1;
    }

    /// Takes a member out of the set.
    pub fn remove(&mut self, k: u32)
        requires { bit_in self.old.words k ≡ true }
        ensures members { bit_in self.new.words ≡ put (bit_in self.old.words) k false }
        ensures limit { self.new.limit ≡ self.old.limit }
    {
        remove(&mut self.words, &mut self.summary, k as usize);
        self.size -= 1;
    }
}

/// Puts a number into the words, and its word into the summary.
fn insert(words: &mut [u64], summary: &mut [u64], k: usize)
    requires in_range { k < length words.old * 64 }
    requires short { length words.old ≤ length summary.old * 64 }
    requires summed { IsSummed words.old summary.old }
    ensures members { bit_in words.new ≡ put (bit_in words.old) k true }
    ensures summed { IsSummed words.new summary.new }
{
    bits::insert(words, k);
    bits::insert(summary, k / 64);
}

/// Takes a number out of the words, and its word out of the summary where that is 0 now.
fn remove(words: &mut [u64], summary: &mut [u64], k: usize)
    requires member { bit_in words.old k ≡ true }
    requires in_range { k < length words.old * 64 }
    requires short { length words.old ≤ length summary.old * 64 }
    requires summed { IsSummed words.old summary.old }
    ensures members { bit_in words.new ≡ put (bit_in words.old) k false }
    ensures summed { IsSummed words.new summary.new }
{
    bits::remove(words, k);
    if words[k / 64] == 0 {
        bits::remove(summary, k / 64);
    }
}
