//! Bytes that stores have left, as a sorted list. A byte that is as it was at first isn't in it.

use frames::Objects;
use std::alloc::Allocator;
use vm_base::page::PAGE_SIZE;
use vm_base::{Back, NoMemory, PageRange};

/// A byte that isn't what it was at first, or the mark of a page that has a copy of its own.
#[derive(Clone, Copy)]
pub(crate) struct Cell {
    pub key: u64,
    pub byte: u8,
}

/// The keys of marks of copies begin here, and have the page's number behind them. Below stand addresses.
const COPIES: u64 = 0x1000_0000_0000_0000;

/// The keys of bytes of files begin here.
const FILES: u64 = 0x2000_0000_0000_0000;

// How far the keys of two files are apart.
const FILE_ROOM: u64 = 0x1_0000_0000;

/// The key of a byte of a page's own.
pub(crate) fn own_key(page: u64, offset: u64) -> u64 {
    page.wrapping_mul(PAGE_SIZE).wrapping_add(offset)
}

/// The key of a byte of a file's page.
pub(crate) fn file_key(file: u32, page: u64, offset: u64) -> u64 {
    FILES
        .wrapping_add(u64::from(file).wrapping_mul(FILE_ROOM))
        .wrapping_add(own_key(page, offset))
}

/// The key of the mark that a page has a copy.
pub(crate) fn copy_key(page: u64) -> u64 {
    COPIES.wrapping_add(page)
}

/// How many cells come before the key.
pub(crate) fn place_of(cells: &[Cell], key: u64) -> usize {
    let mut low = 0usize;
    let mut high = cells.len();
    for _ in 0..64u8 {
        if low >= high {
            return low;
        }
        let middle = low + (high - low) / 2;
        match cells.get(middle) {
            Some(cell) if cell.key < key => low = middle + 1,
            _ => high = middle,
        }
    }
    low
}

/// The byte that stands at the key.
pub(crate) fn byte_at(cells: &[Cell], key: u64) -> Option<u8> {
    match cells.get(place_of(cells, key)) {
        Some(cell) if cell.key == key => Some(cell.byte),
        _ => None,
    }
}

// Puts a byte at the key, or removes the one there.
fn put<A: Allocator>(cells: &mut Vec<Cell, A>, key: u64, byte: Option<u8>) -> Result<(), NoMemory> {
    let at = place_of(cells.as_slice(), key);
    let is_there = match cells.get(at) {
        Some(cell) => cell.key == key,
        None => false,
    };
    if is_there && at < cells.len() {
        let _ = cells.remove(at);
    }
    if let Some(byte) = byte {
        if at <= cells.len() {
            cells.insert(at, Cell { key, byte })?;
        }
    }
    Ok(())
}

/// A byte of a file as it was at first, if the file has the page.
pub(crate) fn first_byte<A: Allocator>(
    objects: &Objects<A>,
    file: u32,
    page: u64,
    offset: u64,
) -> Option<u8> {
    if objects.is_past_end(file, page) || offset >= PAGE_SIZE {
        return None;
    }
    Some(objects.byte(file, page, offset as usize))
}

/// Tells whether a page has a copy of its own.
pub(crate) fn is_copied(cells: &[Cell], page: u64) -> bool {
    byte_at(cells, copy_key(page)).is_some()
}

/// The byte that an access finds at an offset in a page that is backed so, if the page has bytes.
pub(crate) fn shown_byte<A: Allocator>(
    objects: &Objects<A>,
    cells: &[Cell],
    back: Back,
    page: u64,
    offset: u64,
) -> Option<u8> {
    match back {
        Back::Anon => Some(byte_at(cells, own_key(page, offset)).unwrap_or(0)),
        Back::Private { file, page: at } if is_copied(cells, page) => {
            match byte_at(cells, own_key(page, offset)) {
                Some(byte) => Some(byte),
                None => first_byte(objects, file, at, offset),
            }
        }
        Back::Shared { file, page: at } | Back::Private { file, page: at } => {
            let first = first_byte(objects, file, at, offset)?;
            Some(byte_at(cells, file_key(file, at, offset)).unwrap_or(first))
        }
    }
}

/// Fills `new` with the bytes that are left once pages are mapped anew or unmapped.
pub(crate) fn drop_pages<A: Allocator>(
    new: &mut Vec<Cell, A>,
    cells: &[Cell],
    range: PageRange,
) -> Result<(), NoMemory> {
    new.clear();
    for cell in cells {
        let own = own_key(range.first, 0) <= cell.key && cell.key < own_key(range.end, 0);
        let mark = copy_key(range.first) <= cell.key && cell.key < copy_key(range.end);
        if !own && !mark {
            new.push(*cell)?;
        }
    }
    Ok(())
}

/// Gives a page that shows a file's a copy of its own.
pub(crate) fn add_copy<A: Allocator>(
    new: &mut Vec<Cell, A>,
    cells: &[Cell],
    file: u32,
    at: u64,
    page: u64,
) -> Result<(), NoMemory> {
    let first = file_key(file, at, 0);
    let end = first.wrapping_add(PAGE_SIZE);
    for cell in cells {
        if first <= cell.key && cell.key < end {
            put(
                new,
                own_key(page, cell.key.wrapping_sub(first)),
                Some(cell.byte),
            )?;
        }
    }
    put(new, copy_key(page), Some(0))
}

/// Puts a byte at a key, where this stood at first.
pub(crate) fn put_byte<A: Allocator>(
    new: &mut Vec<Cell, A>,
    key: u64,
    byte: u8,
    first: u8,
) -> Result<(), NoMemory> {
    if byte == first {
        return put(new, key, None);
    }
    put(new, key, Some(byte))
}
