//! Whether the pages of a range may get another protection.
ghost use Rattle.std.specs.Prelude.{◌≡◌, ◌↔◌, IsTrue};
ghost use Rattle.vm_base.specs.Apply.{HasPage, is_absent, is_read_only, is_read_only_back};
ghost use Rattle.frames.specs.Files.{files_of};
ghost use Rattle.litmus_merges.specs.Steps.{AreSound, map_of};

use crate::change::MapChange;
use crate::reading::look;
use crate::runs::run_end;
use crate::seen::Spot;
use frames::Objects;
use std::alloc::Allocator;
use vm_base::{Back, PageRange};

/// Tells whether a page isn't mapped.
fn is_absent<A: Allocator>(objects: &Objects<A>, steps: &[MapChange], page: u64) -> bool
    requires { AreSound steps.now }
    ensures { result ≡ is_absent ((map_of objects.now steps.now).entry page) }
{
    match look(objects, steps, Spot { page, offset: 0 }) {
        None => true,
        Some(_) => false,
    }
}

/// Tells whether some page of the range isn't mapped.
pub(crate) fn has_absent<A: Allocator>(
    objects: &Objects<A>,
    steps: &[MapChange],
    range: PageRange,
) -> bool
    requires { AreSound steps.now }
    ensures { IsTrue result ↔ HasPage is_absent (map_of objects.now steps.now).entry range }
{
    let mut page = range.first;
    'pages: while page < range.end {
        if is_absent(objects, steps, page) {
            return true;
        }
        page = run_end(steps, page, range.end);
    }
    false
}

/// Tells whether a page that is backed so is a shared one of a file that isn't open for writing.
fn is_read_only_back<A: Allocator>(objects: &Objects<A>, back: Back) -> bool
    ensures { result ≡ is_read_only_back (files_of objects.now) back }
{
    let Back::Shared { file, .. } = back else {
        return false;
    };
    match objects.mode(u64::from(file)) {
        Some(mode) => !mode.can_write(),
        None => false,
    }
}

/// Tells whether a page is a shared one of a file that isn't open for writing.
fn is_read_only<A: Allocator>(objects: &Objects<A>, steps: &[MapChange], page: u64) -> bool
    requires { AreSound steps.now }
    ensures { result ≡ is_read_only (map_of objects.now steps.now).file ((map_of objects.now steps.now).entry page) }
{
    match look(objects, steps, Spot { page, offset: 0 }) {
        None => false,
        Some(seen) => is_read_only_back(objects, seen.back),
    }
}

/// Tells whether some page of the range is a shared one of a file that isn't open for writing.
pub(crate) fn has_read_only<A: Allocator>(
    objects: &Objects<A>,
    steps: &[MapChange],
    range: PageRange,
) -> bool
    requires { AreSound steps.now }
    ensures { IsTrue result ↔ HasPage (is_read_only (map_of objects.now steps.now).file)
        (map_of objects.now steps.now).entry range }
{
    let mut page = range.first;
    'pages: while page < range.end {
        if is_read_only(objects, steps, page) {
            return true;
        }
        page = run_end(steps, page, range.end);
    }
    false
}
