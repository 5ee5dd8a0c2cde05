//! One frame by itself, its bytes and whether it is free: for who keeps each under a lock of its own.
ghost use Rattle.std.specs.Prelude.{◌≡◌, IfOk};

use crate::page_bytes::{self, Page};
use std::alloc::{AllocError, Allocator};
use std::marker::Model;

/// One frame of 4,096 bytes, free or taken. Its memory is reserved when it is made, and not touched
/// before the frame is written to; no other call takes memory or fails. A clause sees its bytes as
/// `cell_bytes`.
#[derive(Drop)]
pub struct FrameCell<A: Allocator> {
    // Empty as long as the frame wasn't written to.
    pages: Vec<Page, A>,
    is_taken: bool,
}

impl<A: Allocator> Model for FrameCell<A> {
    ghost use Rattle.std.specs.Prelude.{◌≤◌, not, length};
    ghost use Rattle.std.specs.Vec.{vec_capacity};
    ghost use Rattle.frames.specs.Parts.{CellParts};

    ghost Value = { CellParts };

    ghost view = { λ s. record {
      pages = s.pages.items;
      capacity = vec_capacity s.pages;
      is_free = not s.is_taken;
    } };

    ghost invariant = { λ s. (1 ≤ vec_capacity s.pages) × (length s.pages.items ≤ 1) };
}

impl<A: Allocator> FrameCell<A> {
    ghost use Rattle.std.specs.Prelude.{◌≡◌, ◌<◌, ◌≤◌, IfOk, true, false, length};
    ghost use Rattle.vm_base.specs.Functions.{put};
    ghost use Rattle.vm_base.specs.Plain.{zeros, page_bytes};
    ghost use Rattle.frames.specs.Parts.{cell_bytes};

    /// Makes a frame that is free, with all bytes 0. The error says that memory ran out.
    pub fn new(alloc: A) -> Result<FrameCell<A>, AllocError>
        ensures bytes { IfOk result (λ s. cell_bytes s ≡ zeros) }
        ensures free { IfOk result (λ s. s.is_free ≡ true) }
    {
        let pages = Vec::with_capacity(alloc, 1)?;
        Ok(FrameCell {
            pages,
            is_taken: false,
        })
    }

    /// Tells whether the frame is free.
    pub fn is_free(&self) -> bool
        ensures { result ≡ self.now.is_free }
    {
        !self.is_taken
    }

    /// Takes the frame, which is free. Its bytes stay.
    pub fn take(&mut self)
        requires { self.old.is_free ≡ true }
        ensures free { self.new.is_free ≡ false }
        ensures bytes { cell_bytes self.new ≡ cell_bytes self.old }
        ensures capacity { self.new.capacity ≡ self.old.capacity }
    {
        self.is_taken = true;
    }

    /// Gives the frame back: it is free then. Its bytes stay.
    pub fn give(&mut self)
        ensures free { self.new.is_free ≡ true }
        ensures bytes { cell_bytes self.new ≡ cell_bytes self.old }
        ensures capacity { self.new.capacity ≡ self.old.capacity }
    {
        self.is_taken = false;
    }

    /// The byte at an offset in bytes.
    pub fn byte(&self, offset: usize) -> u8
        requires { offset < 4096 }
        ensures { result ≡ cell_bytes self.now offset }
    {
        if self.pages.is_empty() {
            return 0;
        }
        page_bytes::byte(&self.pages, 0, offset)
    }

    /// Sets the byte at an offset in bytes.
    pub fn set_byte(&mut self, offset: usize, byte: u8)
        requires { offset < 4096 }
        ensures bytes { cell_bytes self.new ≡ put (cell_bytes self.old) offset byte }
        ensures free { self.new.is_free ≡ self.old.is_free }
        ensures capacity { self.new.capacity ≡ self.old.capacity }
    {
        if self.pages.is_empty() {
            page_bytes::push(&mut self.pages, page_bytes::page_with(offset, byte));
        } else {
            page_bytes::set_byte(&mut self.pages, 0, offset, byte);
        }
    }

    /// Sets all bytes to 0.
    pub fn fill_zero(&mut self)
        ensures bytes { cell_bytes self.new ≡ zeros }
        ensures free { self.new.is_free ≡ self.old.is_free }
        ensures capacity { self.new.capacity ≡ self.old.capacity }
    {
        if !self.pages.is_empty() {
            page_bytes::fill(&mut self.pages, 0, &[]);
        }
    }

    /// Gives the frame these bytes, and zeros after them.
    pub fn fill(&mut self, bytes: &[u8])
        requires { length bytes.now ≤ 4096 }
        ensures bytes { cell_bytes self.new ≡ page_bytes bytes.now 0 }
        ensures free { self.new.is_free ≡ self.old.is_free }
        ensures capacity { self.new.capacity ≡ self.old.capacity }
    {
        if self.pages.is_empty() {
            page_bytes::push(&mut self.pages, page_bytes::page_of(bytes));
        } else {
            page_bytes::fill(&mut self.pages, 0, bytes);
        }
    }

    /// Copies all bytes from another frame.
    pub fn copy_from(&mut self, from: &FrameCell<A>)
        ensures bytes { cell_bytes self.new ≡ cell_bytes from.now }
        ensures free { self.new.is_free ≡ self.old.is_free }
        ensures capacity { self.new.capacity ≡ self.old.capacity }
    {
        if from.pages.is_empty() {
            self.fill_zero();
        } else {
            self.fill(&from.pages[0]);
        }
    }
}
