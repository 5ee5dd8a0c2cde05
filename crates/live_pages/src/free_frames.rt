//! Which frames are free, and how many: what lies under the lock by which a step finds a free frame.
//!
//! They have one lock, right before frames in the order of locks. A step that takes or frees a frame holds it while
//! it draws, so "no frame" is right at its ticket.
ghost use Rattle.std.specs.Prelude.{◌≡◌, ℕ, ◌*◌, ◌+◌, ◌<◌, ◌≤◌, false, true, length, nat_lt};
ghost use Rattle.std.specs.Prelude.{IfNone, IfOk, IfSome};
ghost use Rattle.vm_base.specs.Functions.{put};
ghost use Rattle.frames.specs.Bits.{bit_in, count_below};
ghost use Rattle.machine_model.specs.Accesses.{NoneFree};
ghost use Rattle.live_pages.specs.Free.{Gives, GivesOne, IsFirstFrom, IsInWord, IsNextFree, TakesOne};
ghost use Rattle.live_pages.specs.Free.{free_frames};

use std::alloc::{AllocError, Allocator};
use std::marker::Model;
use std::sync::MutexGuard;

/// The bits of a word.
const BITS: usize = 64;

/// Which frames are free, of at most 65,536, and how many are. A step that takes or frees a frame
/// has it locked while its ticket is drawn, so it is right at each ticket. No call but its making
/// takes memory.
#[derive(Drop)]
pub struct FreeFrames<A: Allocator> {
    // a bit for each frame that is free
    words: Vec<u64, A>,
    frames: u32,
    count: u32,
}

impl<A: Allocator> Model for FreeFrames<A> {
    ghost use Rattle.live_pages.specs.Free.{FreeView, IsCounted};

    ghost Value = { FreeView };

    ghost view = { λ s. record {
      words = s.words.items;
      frames = s.frames;
      count = s.count;
    } };

    ghost invariant = { λ s. IsCounted s.words.items s.frames s.count };
}

impl<A: Allocator> FreeFrames<A> {
    // This many frames, all taken.
    fn none(alloc: A, frames: u32) -> Result<FreeFrames<A>, AllocError>
        requires { frames ≤ 65536 }
        ensures free { IfOk result (λ s. free_frames s ≡ (λ f. false)) }
        ensures frames { IfOk result (λ s. s.frames ≡ frames) }
    {
        let words = vec![in alloc; 0u64; frames.div_ceil(64) as usize]?;
        Ok(FreeFrames {
            words,
            frames,
            count: 0,
        })
    }

    /// So many frames, all free. The error says that memory ran out.
    pub fn all(alloc: A, frames: u32) -> Result<FreeFrames<A>, AllocError>
        requires { frames ≤ 65536 }
        ensures free { IfOk result (λ s. free_frames s ≡ (λ f. nat_lt f frames)) }
        ensures frames { IfOk result (λ s. s.frames ≡ frames) }
    {
        let mut free = FreeFrames::none(alloc, frames)?;
        'frames: for frame in 0..frames {
            free.add(frame);
        }
        Ok(free)
    }

    /// How many frames are free.
    pub fn count(&self) -> u32
        ensures count { result ≡ self.now.count }
        ensures counted { result ≡ count_below (free_frames self.now) self.now.frames }
    {
        self.count
    }

    /// The next free frame from this one on, upward, and after the last from the first on; none
    /// where no frame is free.
    pub fn next(&self, from: u32) -> Option<u32>
        ensures next { IfSome result (IsNextFree (free_frames self.now) from) }
        ensures free { IfSome result (λ f. free_frames self.now f ≡ true) }
        ensures there { IfSome result (λ f. f < self.now.frames) }
        ensures few { IfSome result (λ f. f < 65536) }
        ensures none { IfNone result (NoneFree (free_frames self.now)) }
    {
        if self.count == 0 {
            return None;
        }
        if let Some(frame) = first_from(&self.words, from as usize) {
            return Some(frame as u32);
        }
        match first_from(&self.words, 0) {
            Some(frame) => Some(frame as u32),
            None => None,
        }
    }

    /// Takes a free frame: one fewer is free.
    pub fn take(&mut self, frame: u32)
        requires { free_frames self.old frame ≡ true }
        ensures { TakesOne frame self.old self.new }
    {
        remove(&mut self.words, frame as usize);
        self.count -= 1;
    }

    /// The frame is free from now on: one more is. Nothing changes where it is free, or there is no
    /// such frame, which never comes.
    pub fn give(&mut self, frame: u32)
        ensures { Gives frame self.old self.new }
    {
        if frame >= self.frames || contains(&self.words, frame as usize) {
            return;
        }
        self.add(frame);
    }

    // One frame more is free.
    fn add(&mut self, frame: u32)
        requires taken { free_frames self.old frame ≡ false }
        requires there { frame < self.old.frames }
        ensures { GivesOne frame self.old self.new }
    {
        insert(&mut self.words, frame as usize);
        self.count += 1;
    }
}

// Tells whether the bit is set.
fn contains(words: &[u64], k: usize) -> bool
    requires { k < length words.now * 64 }
    ensures { result ≡ bit_in words.now k }
{
    (words[k / BITS] >> (k % BITS)) & 1 == 1
}

// Sets a bit.
fn insert(words: &mut [u64], k: usize)
    requires { k < length words.old * 64 }
    ensures { bit_in words.new ≡ put (bit_in words.old) k true }
{
    words[k / BITS] |= 1 << (k % BITS);
}

// Clears a bit.
fn remove(words: &mut [u64], k: usize)
    requires { k < length words.old * 64 }
    ensures { bit_in words.new ≡ put (bit_in words.old) k false }
{
    words[k / BITS] &= !(1 << (k % BITS));
}

// The first bit that is set, from this one on.
fn first_from(words: &[u64], from: usize) -> Option<usize>
    requires { length words.now ≤ 1024 }
    ensures first { IfSome result (IsFirstFrom (bit_in words.now) from) }
    ensures none { IfNone result ((k : ℕ) → from ≤ k → bit_in words.now k ≡ false) }
{
    let word = from / BITS;
    if let Some(k) = first_in(words, word, from % BITS) {
        return Some(k);
    }
    'words: for at in word + 1..words.len() {
        if let Some(k) = first_in(words, at, 0) {
            return Some(k);
        }
    }
    None
}

// The first bit that is set in a word, from its bit of this number on.
fn first_in(words: &[u64], at: usize, bit: usize) -> Option<usize>
    requires short { length words.now ≤ 1024 }
    requires bit { bit < 64 }
    ensures first { IfSome result (λ k. IsInWord at k × IsFirstFrom (bit_in words.now) (at * 64 + bit) k) }
    ensures none { IfNone result ((k : ℕ) → IsInWord at k → at * 64 + bit ≤ k → bit_in words.now k ≡ false) }
{
    let Some(word) = words.get(at) else {
        return None;
    };
    let rest = *word >> bit;
    if rest == 0 {
        return None;
    }
    Some(at * BITS + bit + rest.trailing_zeros() as usize)
}
