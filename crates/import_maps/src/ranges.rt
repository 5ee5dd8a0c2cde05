//! What is mapped where, as the requests of a trace say: ranges with their rights, flags and files.
ghost use Rattle.std.specs.Prelude.{◌≡◌, ◌++◌, ◌<◌, ◌≤◌, ◌^◌, IfOk, OnOk};
ghost use Rattle.std.specs.List.{flat_map};
ghost use Rattle.import_maps.specs.Ranges.{between, bytes_of, changed, cut, end_of, fits, guarded, has, holds, is_alike, is_plain, is_same};
ghost use Rattle.import_maps.specs.Ranges.{listed, part, parts_of, past, whole, with_prot, with_range};
ghost use Rattle.import_maps.specs.Steps.{flag_bits, prot_bits};

use crate::names::Name;
use crate::steps::{TraceRequest, flag_bits, prot_bits};
use std::alloc::{AllocError, Global};
use vm_base::{Flags, Prot, Request};

/// A range of addresses that is mapped.
#[derive(Clone, Copy)]
pub struct MappedRange {
    /// Its first address.
    pub addr: u64,
    /// How many bytes it has, in whole pages.
    pub len: u64,
    /// Its rights.
    pub prot: Prot,
    /// Its flags.
    pub flags: Flags,
    /// The number of its file, of a file that the trace has.
    pub file: u64,
    /// Where it begins in its file.
    pub off: u64,
    /// The name of the file whose pages it is for, of anonymous pages.
    pub name: Name,
}

// The last address that there is.
const LAST: u64 = u64::MAX;

// A length in whole pages.
fn whole(len: u64) -> u64
    requires { len ≤ 2 ^ 47 }
    ensures { result ≡ whole len }
{
    (len + 4095) / 4096 * 4096
}

// Tells whether a program may have such a range.
fn fits(addr: u64, len: u64) -> bool
    ensures value { result ≡ fits addr len }
{
    addr <= 140_737_488_355_328 && len <= 140_737_488_355_328
}

// Tells whether it is of anonymous pages for no file.
fn is_plain(range: MappedRange) -> bool
    ensures { result ≡ is_plain range }
{
    range.flags.anon && range.name.len == 0
}

// The offset so many bytes after that of its first address.
fn past(range: MappedRange, bytes: u64) -> u64
    ensures { result ≡ past range bytes }
{
    if is_plain(range) {
        range.off
    } else {
        range.off.saturating_add(bytes)
    }
}

/// Where it ends.
pub fn end_of(range: MappedRange) -> u64
    ensures { result ≡ end_of range }
{
    range.addr.saturating_add(range.len)
}

/// What it has from one address on, so many bytes.
pub fn between(range: MappedRange, from: u64, len: u64) -> MappedRange
    ensures { result ≡ between range from len }
{
    MappedRange {
        addr: from,
        len,
        off: past(range, from.saturating_sub(range.addr)),
        ..range
    }
}

// What it has of the addresses from one on, up to another.
fn part(from: u64, end: u64, range: MappedRange) -> Option<MappedRange>
    ensures { result ≡ part from end range }
{
    let low = from.max(range.addr);
    let high = end.min(end_of(range));
    if low < high {
        Some(between(range, low, high - low))
    } else {
        None
    }
}

// Adds that, if there is any.
fn push_part(
    all: &mut Vec<MappedRange>,
    from: u64,
    end: u64,
    range: MappedRange,
) -> Result<(), AllocError>
    ensures { OnOk result (all.new.items ≡ all.old.items ++ listed (part from end range)) }
{
    match part(from, end, range) {
        Some(part) => {
            all.push(part)?;
            Ok(())
        }
        None => Ok(()),
    }
}

/// What these have of the addresses from one on, up to another.
pub fn parts_of(
    alloc: Global,
    ranges: &[MappedRange],
    from: u64,
    end: u64,
) -> Result<Vec<MappedRange>, AllocError>
    ensures { IfOk result (λ all. all.items ≡ parts_of from end ranges.now) }
{
    let mut all: Vec<MappedRange> = Vec::new(alloc);
    let mut at = 0;
    'each: while at < ranges.len() {
        push_part(&mut all, from, end, ranges[at])?;
        at += 1;
    }
    Ok(all)
}

// Adds a range but what it has of these addresses.
fn push_cut(
    all: &mut Vec<MappedRange>,
    from: u64,
    end: u64,
    range: MappedRange,
) -> Result<(), AllocError>
    ensures { OnOk result (all.new.items ≡ all.old.items ++ cut from end range) }
{
    push_part(all, 0, from, range)?;
    push_part(all, end, LAST, range)
}

// These but what they have of these addresses.
fn cut_all(
    alloc: Global,
    ranges: &[MappedRange],
    from: u64,
    end: u64,
) -> Result<Vec<MappedRange>, AllocError>
    ensures { IfOk result (λ all. all.items ≡ flat_map (cut from end) ranges.now) }
{
    let mut all: Vec<MappedRange> = Vec::new(alloc);
    let mut at = 0;
    'each: while at < ranges.len() {
        push_cut(&mut all, from, end, ranges[at])?;
        at += 1;
    }
    Ok(all)
}

// It, with these rights.
fn with_prot(prot: Prot, range: MappedRange) -> MappedRange
    ensures { result ≡ with_prot prot range }
{
    MappedRange { prot, ..range }
}

// Adds a range, of which these addresses have other rights.
fn push_guarded(
    all: &mut Vec<MappedRange>,
    from: u64,
    end: u64,
    prot: Prot,
    range: MappedRange,
) -> Result<(), AllocError>
    ensures { OnOk result (all.new.items ≡ all.old.items ++ guarded from end prot range) }
{
    push_part(all, 0, from, range)?;
    push_part(all, from, end, with_prot(prot, range))?;
    push_part(all, end, LAST, range)
}

// These, of which these addresses have other rights.
fn guard_all(
    alloc: Global,
    ranges: &[MappedRange],
    from: u64,
    end: u64,
    prot: Prot,
) -> Result<Vec<MappedRange>, AllocError>
    ensures { IfOk result (λ all. all.items ≡ flat_map (guarded from end prot) ranges.now) }
{
    let mut all: Vec<MappedRange> = Vec::new(alloc);
    let mut at = 0;
    'each: while at < ranges.len() {
        push_guarded(&mut all, from, end, prot, ranges[at])?;
        at += 1;
    }
    Ok(all)
}

// Tells whether both have the same rights and flags.
fn is_alike(one: MappedRange, other: MappedRange) -> bool
    ensures { result ≡ is_alike one other }
{
    prot_bits(one.prot) == prot_bits(other.prot) && flag_bits(one.flags) == flag_bits(other.flags)
}

// Tells whether both are the same.
fn is_same(one: MappedRange, other: MappedRange) -> bool
    ensures { result ≡ is_same one other }
{
    one.addr == other.addr
        && one.len == other.len
        && is_alike(one, other)
        && one.file == other.file
        && one.off == other.off
        && one.name.from == other.name.from
        && one.name.len == other.name.len
}

// Tells whether one range is a part of the other.
fn holds(one: MappedRange, other: MappedRange) -> bool
    ensures { result ≡ holds one other }
{
    match part(one.addr, end_of(one), other) {
        Some(part) => is_same(part, one),
        None => false,
    }
}

// Tells whether it is a part of one of them.
fn has(one: MappedRange, ranges: &[MappedRange]) -> bool
    ensures { result ≡ has one ranges.now }
{
    let mut at = 0;
    'each: while at < ranges.len() {
        if holds(one, ranges[at]) {
            return true;
        }
        at += 1;
    }
    false
}

// These and one more, in the place of what they have of its addresses.
fn with_range(
    alloc: Global,
    one: MappedRange,
    ranges: Vec<MappedRange>,
) -> Result<Vec<MappedRange>, AllocError>
    ensures { IfOk result (λ all. all.items ≡ with_range one ranges.items) }
{
    if has(one, ranges.as_slice()) {
        return Ok(ranges);
    }
    let mut all = cut_all(alloc, ranges.as_slice(), one.addr, end_of(one))?;
    all.push(one)?;
    Ok(all)
}

/// What is mapped after a request, where these were before.
pub fn changed(
    alloc: Global,
    ranges: Vec<MappedRange>,
    step: TraceRequest,
) -> Result<Vec<MappedRange>, AllocError>
    ensures { IfOk result (λ all. all.items ≡ changed ranges.items step) }
{
    match step.request {
        Request::Mmap {
            addr,
            len,
            prot,
            flags,
            file,
            off,
        } => {
            if !fits(addr, len) {
                return Ok(ranges);
            }
            let one = MappedRange {
                addr,
                len: whole(len),
                prot,
                flags,
                file,
                off,
                name: step.name,
            };
            with_range(alloc, one, ranges)
        }
        Request::Munmap { addr, len } => {
            if !fits(addr, len) {
                return Ok(ranges);
            }
            cut_all(alloc, ranges.as_slice(), addr, addr + whole(len))
        }
        Request::Mprotect { addr, len, prot } => {
            if !fits(addr, len) {
                return Ok(ranges);
            }
            guard_all(alloc, ranges.as_slice(), addr, addr + whole(len), prot)
        }
        Request::Load { .. } | Request::Store { .. } | Request::Fetch { .. } => Ok(ranges),
    }
}

/// How many bytes these have, at most 2^64 - 1.
pub fn bytes_of(ranges: &[MappedRange]) -> u64
    ensures { result ≡ bytes_of ranges.now }
{
    let mut count = 0u64;
    let mut at = ranges.len();
    'each: while at > 0 {
        at -= 1;
        count = count.saturating_add(ranges[at].len);
    }
    count
}
