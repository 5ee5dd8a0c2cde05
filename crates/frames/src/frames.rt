//! The face of the crate: all frames of a machine, their bytes (`byte_store`) and which are free
//! (`free_set`).
ghost use Rattle.std.specs.Prelude.{◌≡◌, ℕ, ◌<◌, ◌≤◌, IfNone, IfSome, IfOk, nat_lt, true, false};
ghost use Rattle.vm_base.specs.Functions.{put};
ghost use Rattle.vm_base.specs.Plain.{zeros};
ghost use Rattle.frames.specs.Bits.{count_below};

use crate::byte_store::ByteStore;
use crate::free_set::FreeSet;
use std::alloc::{AllocError, Allocator};
use std::marker::Model;

/// Frames of 4,096 bytes each, by their numbers from 0 on, and which of them are free. Once they
/// are made, no call takes memory or fails, and only the memory of frames that were written to is
/// touched. A clause sees the bytes of each frame as `frame_bytes`, and the free ones as
/// `free_frames`.
#[derive(Drop)]
pub struct Frames<A: Allocator> {
    bytes: ByteStore<A>,
    free: FreeSet<A>,
}

impl<A: Allocator> Model for Frames<A> {
    ghost use Rattle.std.specs.Prelude.{◌≡◌, ◌≤◌, length};
    ghost use Rattle.frames.specs.Parts.{FrameParts};

    ghost Value = { FrameParts };

    ghost view = { λ s. record { store = s.bytes; free = s.free.words; count = s.free.limit } };

    ghost invariant = { λ s. (length s.bytes.places ≡ s.free.limit) × (s.free.limit ≤ 65536) };
}

impl<A: Allocator + Clone> Frames<A> {
    ghost use Rattle.std.specs.Prelude.{◌≡◌, ◌≤◌, IfOk, nat_lt};
    ghost use Rattle.vm_base.specs.Plain.{zeros};
    ghost use Rattle.frames.specs.Parts.{frame_bytes, free_frames};

    /// Makes `count` frames: all are free, and all their bytes are 0. The error says that memory
    /// ran out.
    pub fn new(alloc: A, count: u32) -> Result<Frames<A>, AllocError>
        requires { count ≤ 65536 }
        ensures count { IfOk result (λ s. s.count ≡ count) }
        ensures bytes { IfOk result (λ s. frame_bytes s ≡ (λ f. zeros)) }
        ensures free { IfOk result (λ s. free_frames s ≡ (λ f. nat_lt f count)) }
    {
        let free = FreeSet::all(alloc.clone()?, count)?;
        let bytes = ByteStore::new(alloc, count)?;
        Ok(Frames { bytes, free })
    }
}

impl<A: Allocator> Frames<A> {
    ghost use Rattle.std.specs.Prelude.{◌≡◌, ℕ, ◌<◌, ◌≤◌, IfNone, IfSome, true, false, length};
    ghost use Rattle.vm_base.specs.Functions.{put};
    ghost use Rattle.vm_base.specs.Plain.{zeros, page_bytes};
    ghost use Rattle.frames.specs.Bits.{count_below};
    ghost use Rattle.frames.specs.Parts.{frame_bytes, free_frames};

    /// How many frames there are.
    pub fn count(&self) -> u32
        ensures count { result ≡ self.now.count }
        ensures few { result ≤ 65536 }
    {
        self.free.limit()
    }

    /// How many frames are free.
    pub fn free_count(&self) -> u32
        ensures { result ≡ count_below (free_frames self.now) self.now.count }
    {
        self.free.size()
    }

    /// Tells whether the frame is free.
    pub fn is_free(&self, frame: u32) -> bool
        requires { frame < self.now.count }
        ensures { result ≡ free_frames self.now frame }
    {
        self.free.contains(frame)
    }

    /// The free frame with the least number, or none where no frame is free.
    pub fn least_free(&self) -> Option<u32>
        ensures none { IfNone result ((f : ℕ) → free_frames self.now f ≡ false) }
        ensures free { IfSome result (λ f. free_frames self.now f ≡ true) }
        ensures least { IfSome result (λ f. (g : ℕ) → g < f → free_frames self.now g ≡ false) }
        ensures in_range { IfSome result (λ f. f < self.now.count) }
    {
        self.free.least()
    }

    /// Takes a free frame. Its bytes stay.
    pub fn take(&mut self, frame: u32)
        requires { free_frames self.old frame ≡ true }
        ensures free { free_frames self.new ≡ put (free_frames self.old) frame false }
        ensures bytes { frame_bytes self.new ≡ frame_bytes self.old }
        ensures count { self.new.count ≡ self.old.count }
        ensures capacity { self.new.store.capacity ≡ self.old.store.capacity }
    {
        self.free.remove(frame);
    }

    /// Gives a taken frame back. Its bytes stay.
    pub fn give(&mut self, frame: u32)
        requires taken { free_frames self.old frame ≡ false }
        requires in_range { frame < self.old.count }
        ensures free { free_frames self.new ≡ put (free_frames self.old) frame true }
        ensures bytes { frame_bytes self.new ≡ frame_bytes self.old }
        ensures count { self.new.count ≡ self.old.count }
        ensures capacity { self.new.store.capacity ≡ self.old.store.capacity }
    {
        self.free.insert(frame);
    }

    /// The byte of a frame at an offset in bytes.
    pub fn byte(&self, frame: u32, offset: usize) -> u8
        requires frame { frame < self.now.count }
        requires offset { offset < 4096 }
        ensures { result ≡ frame_bytes self.now frame offset }
    {
        self.bytes.byte(frame, offset)
    }

    /// Sets the byte of a frame at an offset in bytes.
    pub fn set_byte(&mut self, frame: u32, offset: usize, byte: u8)
        requires frame { frame < self.old.count }
        requires offset { offset < 4096 }
        ensures bytes { frame_bytes self.new ≡ put (frame_bytes self.old) frame
            (put (frame_bytes self.old frame) offset byte) }
        ensures free { free_frames self.new ≡ free_frames self.old }
        ensures count { self.new.count ≡ self.old.count }
        ensures capacity { self.new.store.capacity ≡ self.old.store.capacity }
    {
        self.bytes.set_byte(frame, offset, byte);
    }

    /// Sets all bytes of a frame to 0.
    pub fn fill_zero(&mut self, frame: u32)
        requires { frame < self.old.count }
        ensures bytes { frame_bytes self.new ≡ put (frame_bytes self.old) frame zeros }
        ensures free { free_frames self.new ≡ free_frames self.old }
        ensures count { self.new.count ≡ self.old.count }
        ensures capacity { self.new.store.capacity ≡ self.old.store.capacity }
    {
        self.bytes.fill_zero(frame);
    }

    /// Gives a frame these bytes, and zeros after them.
    pub fn fill(&mut self, frame: u32, bytes: &[u8])
        requires frame { frame < self.old.count }
        requires short { length bytes.now ≤ 4096 }
        ensures bytes { frame_bytes self.new
            ≡ put (frame_bytes self.old) frame (page_bytes bytes.now 0) }
        ensures free { free_frames self.new ≡ free_frames self.old }
        ensures count { self.new.count ≡ self.old.count }
        ensures capacity { self.new.store.capacity ≡ self.old.store.capacity }
    {
        self.bytes.fill(frame, bytes);
    }

    /// Copies all bytes of the frame `from` to the frame `to`.
    pub fn copy(&mut self, from: u32, to: u32)
        requires from { from < self.old.count }
        requires to { to < self.old.count }
        ensures bytes { frame_bytes self.new
            ≡ put (frame_bytes self.old) to (frame_bytes self.old from) }
        ensures free { free_frames self.new ≡ free_frames self.old }
        ensures count { self.new.count ≡ self.old.count }
        ensures capacity { self.new.store.capacity ≡ self.old.store.capacity }
    {
        self.bytes.copy(from, to);
    }
}
