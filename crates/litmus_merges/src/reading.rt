//! What the map that steps make shows at one place.
ghost use Rattle.std.specs.Prelude.{◌≡◌, ◌<◌, Option};
ghost use Rattle.vm_base.specs.Plain.{PageEntry, back_bytes, file_bytes};
ghost use Rattle.slot_lock.specs.Plan.{IsSoundChange};
ghost use Rattle.litmus_merges.specs.Seen.{byte_at, own_copied, seen_change, seen_copied, shown, shown_byte, stored_byte};
ghost use Rattle.litmus_merges.specs.Steps.{AreSound, IsSoundStep, after, map_of};

use crate::change::MapChange;
use crate::seen::{Seen, Spot, fresh, protected, with_byte};
use frames::Objects;
use slot_lock::Change;
use std::alloc::Allocator;
use vm_base::Back;

/// A byte of a file's page after a step, if there is such a page.
fn stored_byte(step: MapChange, file: u32, spot: Spot, byte: u8) -> u8
    ensures { result ≡ stored_byte step file spot.page spot.offset byte }
{
    match step {
        MapChange::File {
            file: other,
            page,
            offset,
            byte: stored,
        } => {
            if file == other && spot.page == page && spot.offset == offset {
                stored
            } else {
                byte
            }
        }
        MapChange::Change(_) | MapChange::Copy { .. } | MapChange::Own { .. } => byte,
    }
}

/// A byte of a file's page, if there is such a page.
pub(crate) fn file_byte<A: Allocator>(
    objects: &Objects<A>,
    steps: &[MapChange],
    file: u32,
    spot: Spot,
) -> Option<u8>
    requires { spot.offset < 4096 }
    ensures { result ≡ byte_at (file_bytes ((map_of objects.now steps.now).file file) spot.page) spot.offset }
{
    if objects.is_past_end(file, spot.page) {
        return None;
    }
    let mut byte = objects.byte(file, spot.page, spot.offset as usize);
    'steps: for at in 0..steps.len() {
        let step = steps[at];
        byte = stored_byte(step, file, spot, byte);
    }
    Some(byte)
}

/// The byte that a page without own bytes shows, if there is one.
fn back_byte<A: Allocator>(
    objects: &Objects<A>,
    steps: &[MapChange],
    back: Back,
    offset: u64,
) -> Option<u8>
    requires { offset < 4096 }
    ensures { result ≡ byte_at (back_bytes (map_of objects.now steps.now).file back) offset }
{
    match back {
        Back::Anon => None,
        Back::Shared { file, page } => file_byte(objects, steps, file, Spot { page, offset }),
        Back::Private { file, page } => file_byte(objects, steps, file, Spot { page, offset }),
    }
}

/// The byte that a place shows, if there is one.
pub(crate) fn shown_byte<A: Allocator>(
    objects: &Objects<A>,
    steps: &[MapChange],
    seen: Option<Seen>,
    offset: u64,
) -> Option<u8>
    requires { offset < 4096 }
    ensures { (o : Option PageEntry) → seen ≡ shown offset o
        → result ≡ shown_byte (map_of objects.now steps.now).file o offset }
{
    let Some(seen) = seen else {
        return None;
    };
    match seen.own {
        Some(byte) => Some(byte),
        None => back_byte(objects, steps, seen.back, offset),
    }
}

/// The own byte of a page once it has a copy of what it shows, if it is a private one without.
fn own_copied(back: Back, own: Option<u8>, byte: Option<u8>) -> Option<u8>
    ensures { result ≡ own_copied back own byte }
{
    match back {
        Back::Private { .. } => match own {
            None => byte,
            Some(_) => own,
        },
        Back::Anon | Back::Shared { .. } => own,
    }
}

/// What a place shows once its page has a copy, where one is due; it has shown this byte.
fn copied(seen: Option<Seen>, byte: Option<u8>) -> Option<Seen>
    ensures { result ≡ seen_copied seen byte }
{
    match seen {
        None => None,
        Some(seen) => Some(Seen {
            own: own_copied(seen.back, seen.own, byte),
            ..seen
        }),
    }
}

/// What a place of a page shows after a change.
fn seen_changed(change: Change, page: u64, seen: Option<Seen>) -> Option<Seen>
    requires { IsSoundChange change }
    ensures { result ≡ seen_change change page seen }
{
    match change {
        Change::Put { range, meta } => {
            if range.contains(page) {
                Some(fresh(meta.advanced(page - range.first)))
            } else {
                seen
            }
        }
        Change::Clear { range } => { if range.contains(page) { None } else { seen } }
        Change::Protect { range, prot } => {
            if range.contains(page) {
                protected(seen, prot)
            } else {
                seen
            }
        }
    }
}

/// What a place shows after a step.
fn seen_after<A: Allocator>(
    objects: &Objects<A>,
    before: &[MapChange],
    step: MapChange,
    spot: Spot,
    seen: Option<Seen>,
) -> Option<Seen>
    requires offset { spot.offset < 4096 }
    requires sound { IsSoundStep step }
    requires seen { seen ≡ shown spot.offset ((map_of objects.now before.now).entry spot.page) }
    ensures { result ≡ shown spot.offset ((after (map_of objects.now before.now) step).entry spot.page) }
{
    match step {
        MapChange::Change(change) => seen_changed(change, spot.page, seen),
        MapChange::Copy { page } => {
            if spot.page != page {
                return seen;
            }
            let byte = shown_byte(objects, before, seen, spot.offset);
            copied(seen, byte)
        }
        MapChange::Own { page, offset, byte } => {
            if spot.page != page {
                return seen;
            }
            if spot.offset != offset {
                return seen;
            }
            with_byte(seen, byte)
        }
        MapChange::File { .. } => seen,
    }
}

/// What a place shows, if its page is mapped.
pub(crate) fn look<A: Allocator>(
    objects: &Objects<A>,
    steps: &[MapChange],
    spot: Spot,
) -> Option<Seen>
    requires offset { spot.offset < 4096 }
    requires sound { AreSound steps.now }
    ensures { result ≡ shown spot.offset ((map_of objects.now steps.now).entry spot.page) }
{
    let mut seen = None;
    'steps: for at in 0..steps.len() {
        let step = steps[at];
        seen = seen_after(objects, &steps[..at], step, spot, seen);
    }
    seen
}
