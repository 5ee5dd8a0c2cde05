//! What becomes of pages that are moved, grow or shrink, or go: mappings as those before, by their rights, flags and files.
ghost use Rattle.std.specs.Prelude.{◌≡◌, ◌≤◌, ◌^◌, IfOk, OnOk, map};
ghost use Rattle.import_maps.specs.Ranges.{between, bytes_of};
ghost use Rattle.import_steps.specs.Taking.{after_clear, after_move, at_place, gone_to, grown_all, is_whole, left_behind, mapped_all, mapped_as, move_of, moved};
ghost use Rattle.import_steps.specs.Taking.{name_of_file, parts_at, placed_all, private_of, put_there, resized, so_far, use_of};

use crate::taking::{
    ADDRESS_END, Fate, FileUse, LineChange, Mapping, Reason, Taken, ask, ask_of, rounded, take_file,
};
use import_forms::said::Lost;
use import_maps::names::Name;
use import_maps::ranges::{MappedRange, between, bytes_of};
use std::alloc::{AllocError, Global};
use vm_base::Request;

// The bytes of the name of the file with this number, nothing where there is none.
fn name_of_file(alloc: Global, files: &[FileUse], file: u64) -> Result<Vec<u8>, AllocError>
    ensures { IfOk result (λ name. name.items ≡ name_of_file (map use_of files.now) file) }
{
    match files.get(file as usize) {
        Some(file) => Vec::from_slice(alloc, file.name.as_slice()),
        None => Ok(Vec::new(alloc)),
    }
}

// Adds a mapping with the rights, the flags and the file of this range.
fn take_range(
    alloc: Global,
    taken: &mut Taken,
    thread: u64,
    range: MappedRange,
) -> Result<(), AllocError>
    ensures { OnOk result (so_far taken.new ≡ mapped_as (so_far taken.old) thread range) }
{
    let MappedRange {
        addr,
        len,
        prot,
        flags,
        file,
        off,
        name,
    } = range;
    if flags.anon {
        return ask_of(
            taken,
            thread,
            name,
            Request::Mmap {
                addr,
                len,
                prot,
                flags,
                file: 0,
                off,
            },
        );
    }
    let name = name_of_file(alloc, taken.files.as_slice(), file)?;
    let mapping = Mapping {
        addr,
        len,
        prot,
        flags,
        off,
    };
    take_file(alloc, taken, thread, name.as_slice(), mapping)?;
    Ok(())
}

// Adds mappings of these ranges.
fn take_ranges(
    alloc: Global,
    taken: &mut Taken,
    thread: u64,
    ranges: &[MappedRange],
) -> Result<(), AllocError>
    ensures { OnOk result (so_far taken.new ≡ mapped_all (so_far taken.old) thread ranges.now) }
{
    let mut at = 0;
    'each: while at < ranges.len() {
        take_range(alloc, taken, thread, ranges[at])?;
        at += 1;
    }
    Ok(())
}

// The range at its new place, where the first of all its pages was here and is there.
fn at_place(from: u64, to: u64, range: MappedRange) -> MappedRange
    ensures { result ≡ at_place from to range }
{
    MappedRange {
        addr: to.saturating_add(range.addr.saturating_sub(from)),
        ..range
    }
}

// Adds mappings of these ranges at their new places.
fn take_placed(
    alloc: Global,
    taken: &mut Taken,
    thread: u64,
    from: u64,
    to: u64,
    ranges: &[MappedRange],
) -> Result<(), AllocError>
    ensures { OnOk result (so_far taken.new ≡ placed_all (so_far taken.old) thread from to ranges.now) }
{
    let mut at = 0;
    'each: while at < ranges.len() {
        take_range(alloc, taken, thread, at_place(from, to, ranges[at]))?;
        at += 1;
    }
    Ok(())
}

// Adds mappings of so many bytes, from this address on, each at its new place, which go on as these ranges do.
fn take_grown(
    alloc: Global,
    taken: &mut Taken,
    thread: u64,
    from: u64,
    to: u64,
    end: u64,
    more: u64,
    ranges: &[MappedRange],
) -> Result<(), AllocError>
    ensures { OnOk result (so_far taken.new ≡ grown_all (so_far taken.old) thread from to end more ranges.now) }
{
    let mut at = 0;
    'each: while at < ranges.len() {
        let grown = between(ranges[at], end, more);
        take_range(alloc, taken, thread, at_place(from, to, grown))?;
        at += 1;
    }
    Ok(())
}

// What is known of pages that are moved.
#[derive(Drop)]
struct MovedPages {
    // The ranges that come to another place.
    parts: Vec<MappedRange>,
    // The range of the last page, of which those that are new are more.
    last: Vec<MappedRange>,
}

// Adds mappings of pages at another place than they were, of as many bytes as they have there.
fn take_there(
    alloc: Global,
    taken: &mut Taken,
    thread: u64,
    from: u64,
    old: u64,
    to: u64,
    new: u64,
    pages: &MovedPages,
) -> Result<(), AllocError>
    requires place { from ≤ 2 ^ 47 }
    requires old { old ≤ 2 ^ 47 }
    ensures { OnOk result (so_far taken.new ≡ put_there (so_far taken.old) thread from to old new pages.now.parts.items pages.now.last.items) }
{
    take_placed(alloc, taken, thread, from, to, pages.parts.as_slice())?;
    if old < new {
        let last = pages.last.as_slice();
        take_grown(alloc, taken, thread, from, to, from + old, new - old, last)?;
    }
    Ok(())
}

// Adds what became of pages that grew or shrank where they are.
fn take_resized(
    alloc: Global,
    taken: &mut Taken,
    thread: u64,
    from: u64,
    old: u64,
    new: u64,
    last: &[MappedRange],
) -> Result<Fate, AllocError>
    requires place { from ≤ 2 ^ 47 }
    requires old { old ≤ 2 ^ 47 }
    requires new { new ≤ 2 ^ 47 }
    ensures { IfOk result (λ fate. (so_far taken.new, fate) ≡ resized (so_far taken.old) thread from old new last.now) }
{
    if old < new {
        take_grown(
            alloc,
            taken,
            thread,
            from,
            from,
            from + old,
            new - old,
            last,
        )?;
        return Ok(Fate::Changed(LineChange::Move));
    }
    if new < old {
        ask(
            taken,
            thread,
            Request::Munmap {
                addr: from + new,
                len: old - new,
            },
        )?;
        return Ok(Fate::Changed(LineChange::Move));
    }
    Ok(Fate::Left(Reason::Still))
}

// Where pages went that are unmapped, as it is kept of a request.
fn gone_to(to: u64, len: u64) -> Name
    ensures { result ≡ gone_to to len }
{
    Name {
        from: to as usize,
        len: len as usize,
    }
}

// Adds what became of pages of which new ones have the place, and which are at another one now.
fn take_left(
    alloc: Global,
    taken: &mut Taken,
    thread: u64,
    from: u64,
    old: u64,
    to: u64,
    new: u64,
    pages: &MovedPages,
) -> Result<Fate, AllocError>
    requires place { from ≤ 2 ^ 47 }
    requires old { old ≤ 2 ^ 47 }
    ensures { IfOk result (λ fate. (so_far taken.new, fate)
        ≡ left_behind (so_far taken.old) thread from old to new pages.now.parts.items pages.now.last.items) }
{
    take_ranges(alloc, taken, thread, pages.parts.as_slice())?;
    take_there(alloc, taken, thread, from, old, to, new, pages)?;
    Ok(Fate::Changed(LineChange::Move))
}

// Adds what became of pages that were moved, or grew or shrank.
fn take_moved(
    alloc: Global,
    taken: &mut Taken,
    thread: u64,
    from: u64,
    old: u64,
    to: u64,
    new: u64,
    pages: &MovedPages,
) -> Result<Fate, AllocError>
    requires place { from ≤ 2 ^ 47 }
    requires old { old ≤ 2 ^ 47 }
    requires new { new ≤ 2 ^ 47 }
    ensures { IfOk result (λ fate. (so_far taken.new, fate)
        ≡ moved (so_far taken.old) thread from old to new pages.now.parts.items pages.now.last.items) }
{
    if from == to {
        let last = pages.last.as_slice();
        return take_resized(alloc, taken, thread, from, old, new, last);
    }
    let gone = Request::Munmap {
        addr: from,
        len: old,
    };
    ask_of(taken, thread, gone_to(to, new), gone)?;
    take_there(alloc, taken, thread, from, old, to, new, pages)?;
    Ok(Fate::Changed(LineChange::Move))
}

// What is mapped of the addresses from one on, up to another.
fn parts_at(
    alloc: Global,
    taken: &mut Taken,
    from: u64,
    end: u64,
) -> Result<Vec<MappedRange>, AllocError>
    ensures same { so_far taken.new ≡ so_far taken.old }
    ensures value { IfOk result (λ parts. parts.items ≡ parts_at (so_far taken.old) from end) }
{
    taken.steps.parts_mapped(alloc, from, end)
}

// Tells whether all of these addresses are mapped, of which these parts are.
fn is_whole(from: u64, end: u64, parts: &[MappedRange]) -> bool
    ensures { result ≡ is_whole from end parts.now }
{
    from < end && bytes_of(parts) == end - from
}

// Adds what became of pages that were moved, of lengths in whole pages.
fn take_pages(
    alloc: Global,
    taken: &mut Taken,
    thread: u64,
    from: u64,
    old: u64,
    to: u64,
    new: u64,
    stays: bool,
) -> Result<Fate, AllocError>
    requires place { from ≤ 2 ^ 47 }
    requires old { old ≤ 2 ^ 47 }
    requires new { new ≤ 2 ^ 47 }
    ensures { IfOk result (λ fate. (so_far taken.new, fate) ≡ move_of (so_far taken.old) thread from old to new stays) }
{
    let end = from + old;
    let all = parts_at(alloc, taken, from, end)?;
    if !is_whole(from, end, all.as_slice()) {
        return Ok(Fate::Left(Reason::Unmapped));
    }
    let parts = parts_at(alloc, taken, from, from + old.min(new))?;
    let last = parts_at(alloc, taken, end.saturating_sub(4096), end)?;
    let pages = MovedPages { parts, last };
    if stays {
        take_left(alloc, taken, thread, from, old, to, new, &pages)
    } else {
        take_moved(alloc, taken, thread, from, old, to, new, &pages)
    }
}

/// Adds what became of pages that were moved, or grew or shrank.
pub(crate) fn take_move(
    alloc: Global,
    taken: &mut Taken,
    thread: u64,
    from: u64,
    old: u64,
    to: u64,
    new: u64,
    stays: bool,
) -> Result<Fate, AllocError>
    ensures { IfOk result (λ fate. (so_far taken.new, fate)
        ≡ after_move (so_far taken.old) thread from old to new stays) }
{
    if from > ADDRESS_END || old > ADDRESS_END || to > ADDRESS_END || new > ADDRESS_END {
        return Ok(Fate::Left(Reason::Unread));
    }
    let old = rounded(old);
    let new = rounded(new);
    take_pages(alloc, taken, thread, from, old, to, new, stays)
}

// The private ones of these ranges.
fn private_of(alloc: Global, ranges: &[MappedRange]) -> Result<Vec<MappedRange>, AllocError>
    ensures { IfOk result (λ all. all.items ≡ private_of ranges.now) }
{
    let mut all: Vec<MappedRange> = Vec::new(alloc);
    let mut at = 0;
    'each: while at < ranges.len() {
        if ranges[at].flags.private {
            all.push(ranges[at])?;
        }
        at += 1;
    }
    Ok(all)
}

/// Adds what became of a range whose pages go.
pub(crate) fn take_clear(
    alloc: Global,
    taken: &mut Taken,
    thread: u64,
    addr: u64,
    len: u64,
) -> Result<Fate, AllocError>
    ensures { IfOk result (λ fate. (so_far taken.new, fate) ≡ after_clear (so_far taken.old) thread addr len) }
{
    if addr > ADDRESS_END || len > ADDRESS_END {
        return Ok(Fate::Left(Reason::Unread));
    }
    let end = addr + rounded(len);
    let parts = parts_at(alloc, taken, addr, end)?;
    if !is_whole(addr, end, parts.as_slice()) {
        return Ok(Fate::Left(Reason::Lost(Lost::Drops)));
    }
    let private = private_of(alloc, parts.as_slice())?;
    take_ranges(alloc, taken, thread, private.as_slice())?;
    Ok(Fate::Changed(LineChange::Clear))
}
