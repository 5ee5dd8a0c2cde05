//! What an access finds at its page, and the frame that caches its file page.
ghost use Rattle.std.specs.Prelude.{◌≡◌, ◌↔◌, ℕ, IfSome, IsTrue, None, Option, option_copied};
ghost use Rattle.frames.specs.Files.{files_of};
ghost use Rattle.std.specs.Sync.Mutex.{mutex_guard_value};
ghost use Rattle.vm_base.specs.declared.info.Back.TheVariants.{Shared};
ghost use Rattle.machine_model.specs.Accesses.{is_past_end};
ghost use Rattle.machine_model.specs.Files.{back_of};
ghost use Rattle.vm_calls.specs.Settling.{settled};
ghost use Rattle.seats.specs.Notes.{CanNote};
ghost use Rattle.live_pages.specs.Cached.{IsPageOf, LocksPageOf, cached_in, place_in};
ghost use Rattle.live_pages.specs.Steps.{StepsOnce};

use crate::pieces::{FilePage, Pieces};
use live_levels::level::Stepper;
use machine_model::answers::{back_of, is_past_end};
use seats::Seat;
use slot_lock::Touch;
use std::alloc::Allocator;
use std::sync::{Mutex, MutexGuard, Wait};
use vm_base::{Back, PageInfo};
use vm_calls::{Settled, settle};

/// What an access finds at its page, which is held and has this: one step, under the lock of its
/// file page, where it has one. None, and then nothing was noted, where another file page stands in
/// that one's place, which never comes.
pub fn settle_page<R: Wait, A: Allocator + Clone>(
    rt: &R,
    pieces: &Pieces<'_, A>,
    seat: &mut Seat<A>,
    touch: Touch,
    info: &Option<PageInfo>,
) -> Option<Settled>
    requires { CanNote seat.old }
    ensures noted { IfSome result (λ _. StepsOnce seat.old seat.new) }
    ensures found { IfSome result (λ found. (cached : Option ℕ) × (found ≡ settled info.now touch.access
        (is_past_end (files_of pieces.now.objects.now) info.now) cached)) }
    ensures none { result ≡ None → seat.new ≡ seat.old }
{
    let Some(cached) = lock_cached(rt, pieces, back_of(info)) else {
        return None;
    };
    Some(settle_with(pieces, &cached, seat, touch, info))
}

// The step: it is noted, and looks at the page and at the frame that caches its file page, which is
// locked where there is one.
fn settle_with<A: Allocator + Clone>(
    pieces: &Pieces<'_, A>,
    cached: &Option<MutexGuard<'_, FilePage>>,
    seat: &mut Seat<A>,
    touch: Touch,
    info: &Option<PageInfo>,
) -> Settled
    requires step { CanNote seat.old }
    requires lock { LocksPageOf pieces.now.pages.now (back_of info.now) cached.now }
    ensures noted { StepsOnce seat.old seat.new }
    ensures found { result ≡ settled info.now touch.access
        (is_past_end (files_of pieces.now.objects.now) info.now) (cached_in cached.now) }
{
    let past_end = is_past_end(pieces.objects, info);
    let _ticket = seat.step();
    settle(*info, touch.access, past_end, frame_in(cached))
}

/// Where a file page stands; none for a page that isn't one, or lies past the end of its file.
pub fn place_of<'a, A: Allocator + Clone>(
    pieces: &Pieces<'a, A>,
    back: Back,
) -> Option<&'a Mutex<FilePage>>
    ensures { option_copied result ≡ place_in pieces.now.pages.now back }
{
    match back {
        Back::Anon => None,
        Back::Shared { file, page } | Back::Private { file, page } => {
            let pages = pieces.pages.get(file as usize)?;
            pages.as_slice().get(page as usize)
        }
    }
}

/// Locks the file page, which says itself which it is, where there is such a page. It waits while
/// another thread has it locked. None where another file page stands in its place, which never comes.
pub(crate) fn lock_cached<'a, R: Wait, A: Allocator + Clone>(
    rt: &R,
    pieces: &Pieces<'a, A>,
    back: Back,
) -> Option<Option<MutexGuard<'a, FilePage>>>
    ensures { IfSome result (LocksPageOf pieces.now.pages.now back) }
{
    let Some(place) = place_of(pieces, back) else {
        return Some(None);
    };
    let page = place.lock(rt);
    if !is_page_of(&page, back) {
        return None;
    }
    Some(Some(page))
}

/// The same of a page of a file, which is there.
pub(crate) fn lock_file_page<'a, R: Wait, A: Allocator + Clone>(
    rt: &R,
    pieces: &Pieces<'a, A>,
    file: u32,
    page: u64,
) -> Option<MutexGuard<'a, FilePage>>
    ensures { IfSome result (λ guard. IsPageOf (Shared file page) (mutex_guard_value guard)) }
{
    match lock_cached(rt, pieces, Back::Shared { file, page }) {
        Some(page) => page,
        None => None,
    }
}

// Tells whether this is the file page.
fn is_page_of(at: &FilePage, back: Back) -> bool
    ensures { IsTrue result ↔ IsPageOf back at.now }
{
    match back {
        Back::Anon => false,
        Back::Shared { file, page } | Back::Private { file, page } => {
            at.file == file && at.page == page
        }
    }
}

/// The frame that caches the file page that is locked, if there is such a page and a frame caches
/// it.
pub(crate) fn frame_in(cached: &Option<MutexGuard<'_, FilePage>>) -> Option<u32>
    ensures { result ≡ cached_in cached.now }
{
    match cached {
        Some(page) => page.cached.get(),
        None => None,
    }
}
