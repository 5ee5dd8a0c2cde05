//! A list of notes in little memory.
ghost use Rattle.std.specs.Prelude.{◌≡◌, ◌+◌, ◌-◌, ◌^◌, ◌<◌, ◌≤◌, ◌↔◌, ◌==◌, [], ◌∷◌, ◌++◌, All, IsTrue, OnErr, OnOk, Some, drop, length, map, slice_get};
ghost use Rattle.seats.specs.Fitting.{FitsTypes};
ghost use Rattle.seats.specs.Notes.{ticket_of};
ghost use Rattle.seats.specs.Packing.{ListView, shown};

use crate::noted::Noted;
use crate::packed::{PackedNote, pack, placed, ticket_beside, unpacked};
use crate::typed::note_fits;
use std::alloc::{AllocError, Allocator};
use std::marker::Model;

/// How many notes a list may have.
const LIMIT: usize = 1 << 32;

/// Notes in their order, each in sixteen bytes, and those that don't go into them in full beside. A clause sees the notes, and how
/// many more take no memory.
#[derive(Drop)]
pub struct NoteList<A: Allocator> {
    packed: Vec<PackedNote, A>,
    in_full: Vec<Noted, A>,
    room: usize,
}

impl<A: Allocator> Model for NoteList<A> {
    ghost use Rattle.std.specs.Prelude.{◌+◌, ◌^◌, ◌≤◌, All, length, vec_capacity, vec_len};
    ghost use Rattle.seats.specs.Fitting.{FitsTypes};
    ghost use Rattle.seats.specs.Packing.{AreWithin, ListView, unpacked};

    ghost Value = { ListView };

    ghost view = { λ l. record { notes = unpacked l.in_full.items l.packed.items; room = l.room } };

    ghost invariant = { λ l. AreWithin (length l.in_full.items) l.packed.items
        × (l.room + vec_len l.packed ≤ vec_capacity l.packed)
        × (l.room + vec_len l.in_full ≤ vec_capacity l.in_full) × (l.room + vec_len l.packed ≤ 2 ^ 32)
        × All FitsTypes (unpacked l.in_full.items l.packed.items) };
}

/// Notes that are lent: packed ones beside those that stand in full, or else a plain slice.
#[derive(Clone, Copy)]
pub struct Notes<'a> {
    packed: &'a [PackedNote],
    in_full: &'a [Noted],
    plain: &'a [Noted],
}

impl<'a> Notes<'a> {
    /// The notes of the slice.
    pub fn of(plain: &'a [Noted]) -> Notes<'a>
        ensures { shown result ≡ plain.now }
    {
        Notes {
            packed: &[],
            in_full: &[],
            plain,
        }
    }

    /// How many notes there are.
    pub fn len(&self) -> usize
        ensures { result ≡ length (shown self.now) }
    {
        if self.packed.is_empty() {
            self.plain.len()
        } else {
            self.packed.len()
        }
    }

    /// Tells whether there is none.
    pub fn is_empty(&self) -> bool
        ensures { result ≡ (length (shown self.now) == 0) }
    {
        self.packed.is_empty() && self.plain.is_empty()
    }

    /// The note at the place, from 0.
    #[inline(always)]
    pub fn get(&self, at: usize) -> Noted
        requires { at < length (shown self.now) }
        ensures { slice_get (shown self.now) at ≡ Some result }
    {
        if self.packed.is_empty() {
            self.plain[at]
        } else {
            unpacked(&self.packed[at], self.in_full)
        }
    }

    /// Its ticket.
    pub fn ticket(&self, at: usize) -> u64
        requires { at < length (shown self.now) }
        ensures { slice_get (map ticket_of (shown self.now)) at ≡ Some result }
    {
        if self.packed.is_empty() {
            self.plain[at].ticket
        } else {
            ticket_beside(&self.packed[at], self.in_full)
        }
    }

    /// The notes except for the first.
    pub fn rest(&self) -> Notes<'a>
        requires { 0 < length (shown self.now) }
        ensures { shown result ≡ drop 1 (shown self.now) }
    {
        if self.packed.is_empty() {
            return Notes::of(&self.plain[1..]);
        }
        Notes {
            packed: &self.packed[1..],
            in_full: self.in_full,
            plain: &[],
        }
    }
}

impl<A: Allocator> NoteList<A> {
    /// No notes; it takes no memory. Of the two allocators one is for notes that stand in full.
    pub fn new(alloc: A, for_full: A) -> NoteList<A>
        ensures { result ≡ record { notes = []; room = 0 } }
    {
        NoteList {
            packed: Vec::new(alloc),
            in_full: Vec::new(for_full),
            room: 0,
        }
    }

    /// How many notes there are.
    pub fn len(&self) -> usize
        ensures count { result ≡ length self.now.notes }
        ensures limit { result ≤ 2 ^ 32 }
    {
        self.packed.len()
    }

    /// The notes. Each has numbers as its types have them.
    pub fn notes(&self) -> Notes<'_>
        ensures notes { shown result ≡ self.now.notes }
        ensures fits { All FitsTypes self.now.notes }
    {
        Notes {
            packed: self.packed.as_slice(),
            in_full: self.in_full.as_slice(),
            plain: &[],
        }
    }

    /// Tells whether this many more notes stay within the limit of 2^32.
    pub fn is_within_limit(&self, count: usize) -> bool
        ensures { IsTrue result ↔ length self.now.notes + count ≤ 2 ^ 32 }
    {
        let len = self.packed.len();
        len <= LIMIT && count <= LIMIT - len
    }

    /// Makes room for this many more notes, and tells whether it could: not where room is missing and they would pass the limit,
    /// or there is no memory.
    pub fn reserve(&mut self, count: usize) -> bool
        ensures room { IsTrue result → count ≤ self.new.room }
        ensures missing { ¬ IsTrue result → self.old.room < count }
        ensures same { self.new.notes ≡ self.old.notes }
        ensures kept { self.old.room ≤ self.new.room }
        ensures small { self.new.room + length self.new.notes ≤ 2 ^ 32 }
    {
        if count <= self.room {
            return true;
        }
        if !self.is_within_limit(count) || self.packed.reserve(count).is_err() {
            return false;
        }
        if self.in_full.reserve(count).is_err() {
            return false;
        }
        self.room = count;
        true
    }

    /// Adds the note at the end, in room that was made before.
    #[inline(always)]
    pub fn push_reserved(&mut self, note: Noted)
        requires { 0 < self.old.room }
        ensures { self.new ≡ record { notes = self.old.notes ++ note ∷ []; room = self.old.room - 1 } }
    {
        note_fits(&note);
        match pack(&note) {
            Some(packed) => {
                self.room -= 1;
                self.packed.push_reserved(packed);
            }
            None => self.push_in_full(note),
        }
    }

    // The same of a note that stands in full.
    #[inline(never)]
    fn push_in_full(&mut self, note: Noted)
        requires { 0 < self.old.room }
        ensures { self.new ≡ record { notes = self.old.notes ++ note ∷ []; room = self.old.room - 1 } }
    {
        note_fits(&note);
        self.room -= 1;
        self.packed.push_reserved(placed(self.in_full.len() as u64));
        self.in_full.push_reserved(note);
    }

    /// Adds the note at the end. Where there is no memory, or the limit is reached, nothing is added.
    pub fn push(&mut self, note: Noted) -> Result<(), AllocError>
        ensures ok { OnOk result (self.new.notes ≡ self.old.notes ++ note ∷ []) }
        ensures err { OnErr result (self.new.notes ≡ self.old.notes) }
    {
        if !self.reserve(1) {
            return Err(AllocError);
        }
        self.push_reserved(note);
        Ok(())
    }
}
