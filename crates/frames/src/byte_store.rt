//! The bytes of all frames. A frame gets a page of memory when it is first filled, or when a byte that
//! isn't 0 is first stored in it.
ghost use Rattle.std.specs.Prelude.{◌≡◌, ◌<◌, IfOk, None, get_or, length, replicate};

use crate::page_bytes::{self, FRAME_SIZE, Page};
use std::alloc::{AllocError, Allocator};
use std::marker::Model;

/// The bytes of frames by their numbers from 0 on. The memory of all pages is reserved when they
/// are made, and none of it is touched but the pages of frames that were written to, which stand in
/// the order of their first writes. A clause sees the bytes of each frame as `stored_bytes`.
#[derive(Drop)]
pub(crate) struct ByteStore<A: Allocator> {
    places: Vec<Option<u32>, A>,
    pages: Vec<Page, A>,
}

impl<A: Allocator> Model for ByteStore<A> {
    ghost use Rattle.std.specs.Vec.{vec_capacity};
    ghost use Rattle.frames.specs.Pages.{Stored, IsStored};

    ghost Value = { Stored };

    ghost view = { λ s. record {
      places = s.places.items;
      pages = s.pages.items;
      capacity = vec_capacity s.pages;
    } };

    ghost invariant = { λ s. IsStored (record {
      places = s.places.items;
      pages = s.pages.items;
      capacity = vec_capacity s.pages;
    }) };
}

/// No frame of this many has a page yet.
fn no_places<A: Allocator>(alloc: A, count: usize) -> Result<Vec<Option<u32>, A>, AllocError>
    ensures { IfOk result (λ v. v.items ≡ replicate count None) }
{
    let mut places = Vec::new(alloc);
    places.resize(count, None)?;
    Ok(places)
}

/// The place of a frame's page, if it has one.
fn place_of<A: Allocator>(places: &Vec<Option<u32>, A>, frame: u32) -> Option<u32>
    requires { frame < length places.now.items }
    ensures { result ≡ get_or places.now.items frame None }
{
    places[frame as usize]
}

impl<A: Allocator> ByteStore<A> {
    ghost use Rattle.std.specs.Prelude.{◌≡◌, ◌<◌, ◌≤◌, IfOk, None, get_or, length};
    ghost use Rattle.vm_base.specs.Functions.{put};
    ghost use Rattle.vm_base.specs.Plain.{zeros, page_bytes};
    ghost use Rattle.frames.specs.Pages.{stored_bytes};

    /// The bytes of `count` frames, all 0. The error says that memory ran out.
    pub fn new(alloc: A, count: u32) -> Result<ByteStore<A>, AllocError>
    where
        A: Clone,
        requires { count ≤ 65536 }
        ensures count { IfOk result (λ s. length s.places ≡ count) }
        ensures bytes { IfOk result (λ s. stored_bytes s ≡ (λ f. zeros)) }
    {
        let places = no_places(alloc.clone()?, count as usize)?;
        let pages = Vec::with_capacity(alloc, count as usize)?;
        Ok(ByteStore { places, pages })
    }

    /// The byte of a frame at an offset in bytes.
    pub fn byte(&self, frame: u32, offset: usize) -> u8
        requires frame { frame < length self.now.places }
        requires offset { offset < 4096 }
        ensures { result ≡ stored_bytes self.now frame offset }
    {
        let place = place_of(&self.places, frame);
        match place {
            Some(at) => page_bytes::byte(&self.pages, at as usize, offset),
            None => 0,
        }
    }

    /// Gives a frame that has none this page.
    fn add(&mut self, frame: u32, page: Page)
        requires frame { frame < length self.old.places }
        requires new { get_or self.old.places frame None ≡ None }
        ensures bytes { stored_bytes self.new ≡ put (stored_bytes self.old) frame (page_bytes page 0) }
        ensures count { length self.new.places ≡ length self.old.places }
        ensures capacity { self.new.capacity ≡ self.old.capacity }
    {
        self.places[frame as usize] = Some(self.pages.len() as u32);
        page_bytes::push(&mut self.pages, page);
    }

    /// Sets the byte of a frame that has no page yet. It stands by itself, so that only the first
    /// write to a frame has a page on its stack.
    #[inline(never)]
    fn set_first_byte(&mut self, frame: u32, offset: usize, byte: u8)
        requires frame { frame < length self.old.places }
        requires offset { offset < 4096 }
        requires new { get_or self.old.places frame None ≡ None }
        ensures bytes { stored_bytes self.new ≡ put (stored_bytes self.old) frame
            (put (stored_bytes self.old frame) offset byte) }
        ensures count { length self.new.places ≡ length self.old.places }
        ensures capacity { self.new.capacity ≡ self.old.capacity }
    {
        self.add(frame, page_bytes::page_with(offset, byte));
    }

    /// Sets the byte of a frame at an offset in bytes.
    pub fn set_byte(&mut self, frame: u32, offset: usize, byte: u8)
        requires frame { frame < length self.old.places }
        requires offset { offset < 4096 }
        ensures bytes { stored_bytes self.new ≡ put (stored_bytes self.old) frame
            (put (stored_bytes self.old frame) offset byte) }
        ensures count { length self.new.places ≡ length self.old.places }
        ensures capacity { self.new.capacity ≡ self.old.capacity }
    {
        let place = place_of(&self.places, frame);
        match place {
            Some(at) => page_bytes::set_byte(&mut self.pages, at as usize, offset, byte),
            None => {
                // its bytes are 0
                if byte != 0 {
                    self.set_first_byte(frame, offset, byte);
                }
            }
        }
    }

    /// Sets all bytes of a frame to 0. One that was never written to isn't now.
    pub fn fill_zero(&mut self, frame: u32)
        requires { frame < length self.old.places }
        ensures bytes { stored_bytes self.new ≡ put (stored_bytes self.old) frame zeros }
        ensures count { length self.new.places ≡ length self.old.places }
        ensures capacity { self.new.capacity ≡ self.old.capacity }
    {
        let place = place_of(&self.places, frame);
        match place {
            Some(at) => page_bytes::fill(&mut self.pages, at as usize, &[]),
            None => {}
        }
    }

    /// Gives a frame these bytes, and zeros after them.
    #[inline(never)]
    pub fn fill(&mut self, frame: u32, bytes: &[u8])
        requires frame { frame < length self.old.places }
        requires short { length bytes.now ≤ 4096 }
        ensures bytes { stored_bytes self.new
            ≡ put (stored_bytes self.old) frame (page_bytes bytes.now 0) }
        ensures count { length self.new.places ≡ length self.old.places }
        ensures capacity { self.new.capacity ≡ self.old.capacity }
    {
        let place = place_of(&self.places, frame);
        match place {
            Some(at) => page_bytes::fill(&mut self.pages, at as usize, bytes),
            None => self.add(frame, page_bytes::page_of(bytes)),
        }
    }

    /// Copies all bytes of the frame `from`, which has this page, to the frame `to`.
    #[inline(never)]
    fn copy_page(&mut self, at: u32, from: u32, to: u32)
        requires page { get_or self.old.places from None ≡ Some at }
        requires to { to < length self.old.places }
        ensures bytes { stored_bytes self.new
            ≡ put (stored_bytes self.old) to (stored_bytes self.old from) }
        ensures count { length self.new.places ≡ length self.old.places }
        ensures capacity { self.new.capacity ≡ self.old.capacity }
    {
        let place = place_of(&self.places, to);
        match place {
            Some(place) => page_bytes::copy(&mut self.pages, at as usize, place as usize),
            None => {
                let page = page_bytes::page_at(&self.pages, at as usize);
                self.add(to, page);
            }
        }
    }

    /// Copies all bytes of the frame `from` to the frame `to`.
    pub fn copy(&mut self, from: u32, to: u32)
        requires from { from < length self.old.places }
        requires to { to < length self.old.places }
        ensures bytes { stored_bytes self.new
            ≡ put (stored_bytes self.old) to (stored_bytes self.old from) }
        ensures count { length self.new.places ≡ length self.old.places }
        ensures capacity { self.new.capacity ≡ self.old.capacity }
    {
        let place = place_of(&self.places, from);
        match place {
            Some(at) => self.copy_page(at, from, to),
            None => self.fill_zero(to),
        }
    }
}
