//! Pages of memory, and lists of them, in which `byte_store` and `cell` keep the bytes of frames.
ghost use Rattle.std.specs.Prelude.{◌≡◌, ℕ, ◌+◌, ◌<◌, ◌≤◌, length, replicate, slice_index};
ghost use Rattle.std.specs.Vec.{vec_len, vec_capacity};
ghost use Rattle.vm_base.specs.Functions.{put};
ghost use Rattle.vm_base.specs.Plain.{zeros, page_bytes};
ghost use Rattle.frames.specs.Pages.{all_pages};

use std::alloc::Allocator;

/// The bytes of a frame.
pub(crate) const FRAME_SIZE: usize = 4096;

/// The bytes of one frame.
pub type Page = [u8; FRAME_SIZE];

/// A page of zeros.
fn zero_page() -> Page
    ensures { result ≡ replicate 4096 0 }
{
    [0; FRAME_SIZE]
}

/// Copies bytes to the front of a page.
fn copy_front(page: &mut [u8], from: &[u8])
    requires { length from.now ≤ length page.old }
    ensures { (i : ℕ) → i < length from.now → slice_index page.new i ≡ slice_index from.now i }
{
    let front = &mut page[..from.len()];
    front.copy_from_slice(from);
}

/// Sets the bytes of a page from `start` on to 0.
fn zero_rest(page: &mut [u8], start: usize)
    requires { start ≤ length page.old }
    ensures rest { (i : ℕ) → start ≤ i → slice_index page.new i ≡ 0 }
    ensures front { (i : ℕ) → i < start → slice_index page.new i ≡ slice_index page.old i }
{
    let rest = &mut page[start..];
    rest.fill(0);
}

/// Gives a page these bytes, and zeros after them.
fn fill_page(page: &mut [u8], from: &[u8])
    requires page { length page.old ≡ 4096 }
    requires short { length from.now ≤ 4096 }
    ensures { page_bytes page.new 0 ≡ page_bytes from.now 0 }
{
    copy_front(page, from);
    zero_rest(page, from.len());
}

/// The page of fewer bytes than a page has, or of as many, and zeros after them.
fn short_page(from: &[u8]) -> Page
    requires { length from.now ≤ 4096 }
    ensures { page_bytes result 0 ≡ page_bytes from.now 0 }
{
    let mut page = zero_page();
    fill_page(&mut page, from);
    page
}

/// The page of these bytes, and zeros after them. No page is cleared for bytes that fill one.
pub fn page_of(from: &[u8]) -> Page
    requires { length from.now ≤ 4096 }
    ensures { page_bytes result 0 ≡ page_bytes from.now 0 }
{
    match Page::try_from(from) {
        Ok(page) => page,
        Err(_) => short_page(from),
    }
}

/// The page that has this byte at this offset, and else zeros.
pub(crate) fn page_with(offset: usize, byte: u8) -> Page
    requires { offset < 4096 }
    ensures { page_bytes result 0 ≡ put zeros offset byte }
{
    let mut page = zero_page();
    page[offset] = byte;
    page
}

/// The byte of a page at this offset.
pub fn byte<A: Allocator>(pages: &Vec<Page, A>, at: usize, offset: usize) -> u8
    requires page { at < vec_len pages.now }
    requires offset { offset < 4096 }
    ensures { result ≡ all_pages pages.now.items at offset }
{
    pages[at][offset]
}

/// A page.
pub(crate) fn page_at<A: Allocator>(pages: &Vec<Page, A>, at: usize) -> Page
    requires { at < vec_len pages.now }
    ensures { page_bytes result 0 ≡ all_pages pages.now.items at }
{
    pages[at]
}

/// Sets the byte of a page at this offset.
pub fn set_byte<A: Allocator>(pages: &mut Vec<Page, A>, at: usize, offset: usize, byte: u8)
    requires page { at < vec_len pages.old }
    requires offset { offset < 4096 }
    ensures bytes { all_pages pages.new.items ≡ put (all_pages pages.old.items) at
        (put (all_pages pages.old.items at) offset byte) }
    ensures len { vec_len pages.new ≡ vec_len pages.old }
    ensures capacity { vec_capacity pages.new ≡ vec_capacity pages.old }
{
    pages[at][offset] = byte;
}

/// Gives a page these bytes, and zeros after them.
pub fn fill<A: Allocator>(pages: &mut Vec<Page, A>, at: usize, from: &[u8])
    requires page { at < vec_len pages.old }
    requires short { length from.now ≤ 4096 }
    ensures bytes { all_pages pages.new.items
        ≡ put (all_pages pages.old.items) at (page_bytes from.now 0) }
    ensures len { vec_len pages.new ≡ vec_len pages.old }
    ensures capacity { vec_capacity pages.new ≡ vec_capacity pages.old }
{
    fill_page(&mut pages[at], from);
}

/// Copies all bytes of a page to another.
pub fn copy<A: Allocator>(pages: &mut Vec<Page, A>, from: usize, to: usize)
    requires from { from < vec_len pages.old }
    requires to { to < vec_len pages.old }
    ensures bytes { all_pages pages.new.items ≡ put (all_pages pages.old.items) to
        (all_pages pages.old.items from) }
    ensures len { vec_len pages.new ≡ vec_len pages.old }
    ensures capacity { vec_capacity pages.new ≡ vec_capacity pages.old }
{
    pages.copy_within(from..from + 1, to);
}

/// Puts a page at the end, where there is memory for it.
pub(crate) fn push<A: Allocator>(pages: &mut Vec<Page, A>, page: Page)
    requires { vec_len pages.old < vec_capacity pages.old }
    ensures bytes { all_pages pages.new.items ≡ put (all_pages pages.old.items) (vec_len pages.old)
        (page_bytes page 0) }
    ensures len { vec_len pages.new ≡ vec_len pages.old + 1 }
    ensures capacity { vec_capacity pages.new ≡ vec_capacity pages.old }
{
    pages.push_reserved(page);
}
