//! How a page gets its frame: a new one of zeros, the one that caches its file page, or a new one
//! with the bytes of its file page.
ghost use Rattle.std.specs.Prelude.{◌≡◌, ◌≢◌, None, Some, All, IfSome, is_some, pos, true};
ghost use Rattle.vm_base.specs.Plain.{file_bytes, zeros};
ghost use Rattle.frames.specs.Files.{files_of};
ghost use Rattle.live_levels.specs.declared.act.Act.TheVariants.{Frame};
ghost use Rattle.seats.specs.Notes.{CanNote};
ghost use Rattle.machine_model.specs.Files.{back_of};
ghost use Rattle.live_tree.specs.Held.{CanTake};
ghost use Rattle.live_tree.specs.Shown.{shown};
ghost use Rattle.live_pages.specs.Cached.{BacksPage};
ghost use Rattle.live_pages.specs.Counts.{Begins, BeginsFrom};
ghost use Rattle.live_pages.specs.Frames.{IsFilePage, MayGet};
ghost use Rattle.live_pages.specs.Free.{Gives, GivesFree, free_in};
ghost use Rattle.live_pages.specs.HeldFrames.{CanMakeWay, Copies, CountsShown, GivesOwn, IsHeld, state_in};
ghost use Rattle.live_pages.specs.Steps.{Stays, StepsWith};

use crate::beginning::{begin_page, begin_zeros};
use crate::frames_held::{FramesHeld, Place, lock_place, lock_these};
use crate::free_frames::FreeFrames;
use crate::pieces::{CoreState, FilePage, Pieces, lock_core, number_of};
use crate::settling::lock_file_page;
use frames::Objects;
use live_levels::act::Act;
use live_levels::level::Stepper;
use live_tree::held::Held;
use machine_model::answers::back_of;
use seats::Seat;
use slot_lock::Touch;
use std::alloc::Allocator;
use std::sync::{MutexGuard, Wait};
use vm_base::{Access, Back};

/// The page, which is held, gets its frame, by what backs it and by the access: one step, under the
/// locks of its file page, of the core and of the frames. The frame `own` is one that the call
/// took, if it took one; where another one caches the page's file page, `own` is given back.
/// Answers the page's frame; `None`, and then nothing was noted and the slots stay, where a frame
/// is missing or a count can't be taken, which never comes.
pub fn fill<R: Wait, A: Allocator + Clone>(
    rt: &R,
    pieces: &Pieces<'_, A>,
    seat: &mut Seat<A>,
    held: &mut Held<'_, A>,
    touch: Touch,
    own: Option<u32>,
) -> Option<u32>
    requires { CanNote seat.old }
    ensures some { IfSome result (λ f. StepsWith (Frame f) seat.old held.old seat.new held.new) }
    ensures own { IfSome result (MayGet own (back_of ((shown held.old.slots).info touch.page)) touch.access) }
    ensures none { result ≡ None → Stays seat.old held.old seat.new held.new }
{
    let back = back_of(&held.page(touch.page));
    match back {
        Back::Anon => fill_zeros(rt, pieces, seat, held, own),
        Back::Shared { file, page } => show(rt, pieces, seat, held, own, touch.page, file, page),
        Back::Private { file, page } => match touch.access {
            Access::Store => fill_copy(rt, pieces, seat, held, own, touch.page, file, page),
            Access::Load | Access::Fetch => {
                show(rt, pieces, seat, held, own, touch.page, file, page)
            }
        },
    }
}

// The page gets the frame that the call took, with zeros.
fn fill_zeros<R: Wait, A: Allocator + Clone>(
    rt: &R,
    pieces: &Pieces<'_, A>,
    seat: &mut Seat<A>,
    held: &mut Held<'_, A>,
    own: Option<u32>,
) -> Option<u32>
    requires { CanNote seat.old }
    ensures some { IfSome result (λ f. StepsWith (Frame f) seat.old held.old seat.new held.new) }
    ensures own { IfSome result (λ f. own ≡ Some f) }
    ensures none { result ≡ None → Stays seat.old held.old seat.new held.new }
{
    let Some(number) = own else {
        return None;
    };
    let Some(mut place) = lock_place(rt, pieces.frames, number) else {
        return None;
    };
    let number = place.number;
    if !held.can_take(Act::Frame(number)) {
        return None;
    }
    give_zeros(&mut place, seat, held);
    Some(number)
}

// The step: the locked frame gets zeros and is counted once, it is noted, and the held page gets
// the frame.
fn give_zeros<A: Allocator + Clone>(
    place: &mut Place<'_, A>,
    seat: &mut Seat<A>,
    held: &mut Held<'_, A>,
)
    requires step { CanNote seat.old }
    requires locked { (state_in place.old).number ≡ place.old.number }
    requires each { All (CanTake (Frame place.old.number)) held.old.slots }
    ensures step { StepsWith (Frame place.old.number) seat.old held.old seat.new held.new }
    ensures number { place.new.number ≡ place.old.number }
    ensures frame { Begins zeros 1 (state_in place.old) (state_in place.new) }
{
    let ticket = seat.step();
    begin_zeros(&mut place.frame);
    held.change_each(ticket, Act::Frame(place.number));
}

// The page `at` shows its file page, by the frame that caches it, or else by the one that the call
// took, which caches it from then on.
fn show<R: Wait, A: Allocator + Clone>(
    rt: &R,
    pieces: &Pieces<'_, A>,
    seat: &mut Seat<A>,
    held: &mut Held<'_, A>,
    own: Option<u32>,
    at: u64,
    file: u32,
    page: u64,
) -> Option<u32>
    requires step { CanNote seat.old }
    requires backed { IsFilePage (back_of ((shown held.old.slots).info at)) file page }
    ensures some { IfSome result (λ f. StepsWith (Frame f) seat.old held.old seat.new held.new) }
    ensures none { result ≡ None → Stays seat.old held.old seat.new held.new }
{
    let Some(mut backing) = lock_file_page(rt, pieces, file, page) else {
        return None;
    };
    match backing.cached.get() {
        Some(shown) => share(rt, pieces, seat, held, own, at, &backing, shown),
        None => cache(rt, pieces, seat, held, own, at, &mut backing),
    }
}

// The page `at` gets a frame of its own with the bytes of its file page as they now are.
fn fill_copy<R: Wait, A: Allocator + Clone>(
    rt: &R,
    pieces: &Pieces<'_, A>,
    seat: &mut Seat<A>,
    held: &mut Held<'_, A>,
    own: Option<u32>,
    at: u64,
    file: u32,
    page: u64,
) -> Option<u32>
    requires step { CanNote seat.old }
    requires backed { IsFilePage (back_of ((shown held.old.slots).info at)) file page }
    ensures some { IfSome result (λ f. StepsWith (Frame f) seat.old held.old seat.new held.new) }
    ensures own { IfSome result (λ f. own ≡ Some f) }
    ensures none { result ≡ None → Stays seat.old held.old seat.new held.new }
{
    let Some(backing) = lock_file_page(rt, pieces, file, page) else {
        return None;
    };
    match backing.cached.get() {
        Some(shown) => copy_shown(rt, pieces, seat, held, own, at, &backing, shown),
        None => fill_bytes(rt, pieces, seat, held, own, at, &backing),
    }
}

// The page `at` gets the frame that the call took, with the file's own bytes. Its file page is locked,
// and no frame caches it.
fn fill_bytes<R: Wait, A: Allocator + Clone>(
    rt: &R,
    pieces: &Pieces<'_, A>,
    seat: &mut Seat<A>,
    held: &mut Held<'_, A>,
    own: Option<u32>,
    at: u64,
    backing: &FilePage,
) -> Option<u32>
    requires step { CanNote seat.old }
    requires backed { BacksPage held.old at backing.now }
    requires uncached { backing.now.cached ≡ None }
    ensures some { IfSome result (λ f. StepsWith (Frame f) seat.old held.old seat.new held.new) }
    ensures own { IfSome result (λ f. own ≡ Some f) }
    ensures none { result ≡ None → Stays seat.old held.old seat.new held.new }
{
    let Some(mut place) = lock_own(rt, pieces, held, own, backing) else {
        return None;
    };
    let number = place.number;
    give_bytes(&mut place, pieces.objects, seat, held, at, backing);
    Some(number)
}

// The same, and the frame caches the file page from then on.
fn cache<R: Wait, A: Allocator + Clone>(
    rt: &R,
    pieces: &Pieces<'_, A>,
    seat: &mut Seat<A>,
    held: &mut Held<'_, A>,
    own: Option<u32>,
    at: u64,
    backing: &mut FilePage,
) -> Option<u32>
    requires step { CanNote seat.old }
    requires backed { BacksPage held.old at backing.old }
    requires uncached { backing.old.cached ≡ None }
    ensures some { IfSome result (λ f. StepsWith (Frame f) seat.old held.old seat.new held.new) }
    ensures own { IfSome result (λ f. own ≡ Some f) }
    ensures cached { backing.new ≡ record backing.old { cached = result } }
    ensures none { result ≡ None → Stays seat.old held.old seat.new held.new }
{
    let Some(mut place) = lock_own(rt, pieces, held, own, backing) else {
        return None;
    };
    let number = place.number;
    give_cached(&mut place, backing, pieces.objects, seat, held, at);
    Some(number)
}

// The frame that the call took, which is locked. None where it took none, the file doesn't have the
// page, or the held page can't take the frame.
fn lock_own<'a, R: Wait, A: Allocator + Clone>(
    rt: &R,
    pieces: &Pieces<'a, A>,
    held: &Held<'_, A>,
    own: Option<u32>,
    backing: &FilePage,
) -> Option<Place<'a, A>>
    ensures own { IfSome result (λ p. own ≡ Some p.number) }
    ensures locked { IfSome result (λ p. (state_in p).number ≡ p.number) }
    ensures each { IfSome result (λ p. All (CanTake (Frame p.number)) held.now.slots) }
    ensures page { IfSome result
        (λ p. is_some (file_bytes (files_of pieces.now.objects.now backing.now.file) backing.now.page) ≡ true) }
{
    let Some(number) = own else {
        return None;
    };
    if pieces.objects.is_past_end(backing.file, backing.page) {
        return None;
    }
    let Some(place) = lock_place(rt, pieces.frames, number) else {
        return None;
    };
    if !held.can_take(Act::Frame(place.number)) {
        return None;
    }
    Some(place)
}

// The step: the locked frame gets the file's own bytes of the held page's file page and is counted
// once, it is noted, and the held page gets the frame.
fn give_bytes<A: Allocator + Clone>(
    place: &mut Place<'_, A>,
    objects: &Objects<A>,
    seat: &mut Seat<A>,
    held: &mut Held<'_, A>,
    _at: u64,
    backing: &FilePage,
)
    requires step { CanNote seat.old }
    requires locked { (state_in place.old).number ≡ place.old.number }
    requires backed { BacksPage held.old _at backing.now }
    requires uncached { backing.now.cached ≡ None }
    requires each { All (CanTake (Frame place.old.number)) held.old.slots }
    requires page { is_some (file_bytes (files_of objects.now backing.now.file) backing.now.page) ≡ true }
    ensures step { StepsWith (Frame place.old.number) seat.old held.old seat.new held.new }
    ensures number { place.new.number ≡ place.old.number }
    ensures frame { BeginsFrom (files_of objects.now) backing.now.file backing.now.page 1
        (state_in place.old) (state_in place.new) }
{
    let ticket = seat.step();
    begin_page(&mut place.frame, objects, backing.file, backing.page, 1);
    held.change_each(ticket, Act::Frame(place.number));
}

// The same with a frame that caches the file page from then on, and so is counted twice.
fn give_cached<A: Allocator + Clone>(
    place: &mut Place<'_, A>,
    backing: &mut FilePage,
    objects: &Objects<A>,
    seat: &mut Seat<A>,
    held: &mut Held<'_, A>,
    _at: u64,
)
    requires step { CanNote seat.old }
    requires locked { (state_in place.old).number ≡ place.old.number }
    requires backed { BacksPage held.old _at backing.old }
    requires uncached { backing.old.cached ≡ None }
    requires each { All (CanTake (Frame place.old.number)) held.old.slots }
    requires page { is_some (file_bytes (files_of objects.now backing.old.file) backing.old.page) ≡ true }
    ensures step { StepsWith (Frame place.old.number) seat.old held.old seat.new held.new }
    ensures number { place.new.number ≡ place.old.number }
    ensures frame { BeginsFrom (files_of objects.now) backing.old.file backing.old.page 2
        (state_in place.old) (state_in place.new) }
    ensures cached { backing.new ≡ record backing.old { cached = Some place.old.number } }
{
    let ticket = seat.step();
    begin_page(&mut place.frame, objects, backing.file, backing.page, 2);
    backing.cached.set(place.number);
    held.change_each(ticket, Act::Frame(place.number));
}

// The page gets the frame that the call took, with the bytes of the frame that caches its file
// page, which is locked.
fn copy_shown<R: Wait, A: Allocator + Clone>(
    rt: &R,
    pieces: &Pieces<'_, A>,
    seat: &mut Seat<A>,
    held: &mut Held<'_, A>,
    own: Option<u32>,
    at: u64,
    backing: &FilePage,
    shown: u32,
) -> Option<u32>
    requires step { CanNote seat.old }
    requires backed { BacksPage held.old at backing.now }
    requires caches { backing.now.cached ≡ Some shown }
    ensures some { IfSome result (λ f. StepsWith (Frame f) seat.old held.old seat.new held.new) }
    ensures own { IfSome result (λ f. own ≡ Some f) }
    ensures none { result ≡ None → Stays seat.old held.old seat.new held.new }
{
    let Some(number) = own else {
        return None;
    };
    if number == shown || !held.can_take(Act::Frame(number)) {
        return None;
    }
    let Some(mut frames) = lock_these(rt, pieces, &[Some(number), Some(shown)]) else {
        return None;
    };
    give_copy(&mut frames, seat, held, at, backing, shown, number);
    Some(number)
}

// The step: a locked frame gets the bytes of another one and is counted once, it is noted, and the
// held page gets the frame.
fn give_copy<A: Allocator + Clone>(
    frames: &mut FramesHeld<'_, A>,
    seat: &mut Seat<A>,
    held: &mut Held<'_, A>,
    _at: u64,
    _backing: &FilePage,
    from: u32,
    to: u32,
)
    requires step { CanNote seat.old }
    requires each { All (CanTake (Frame to)) held.old.slots }
    requires source { IsHeld from frames.old }
    requires target { IsHeld to frames.old }
    requires other { from ≢ to }
    requires backed { BacksPage held.old _at _backing.now }
    requires caches { _backing.now.cached ≡ Some from }
    ensures step { StepsWith (Frame to) seat.old held.old seat.new held.new }
    ensures frames { Copies from to frames.old frames.new }
{
    let ticket = seat.step();
    frames.copy(from, to);
    held.change_each(ticket, Act::Frame(to));
}

// The page shows the frame that caches its file page, which is locked, and is counted there; a
// frame that the call took goes back.
fn share<R: Wait, A: Allocator + Clone>(
    rt: &R,
    pieces: &Pieces<'_, A>,
    seat: &mut Seat<A>,
    held: &mut Held<'_, A>,
    own: Option<u32>,
    at: u64,
    backing: &FilePage,
    shown: u32,
) -> Option<u32>
    requires step { CanNote seat.old }
    requires backed { BacksPage held.old at backing.now }
    requires caches { backing.now.cached ≡ Some shown }
    ensures some { IfSome result (λ f. StepsWith (Frame f) seat.old held.old seat.new held.new) }
    ensures shown { IfSome result (λ f. backing.now.cached ≡ Some f) }
    ensures none { result ≡ None → Stays seat.old held.old seat.new held.new }
{
    let Some(mut core) = lock_core(rt, pieces.cores, seat.core()) else {
        return None;
    };
    let mut free = pieces.free_for(rt, own);
    share_by(
        rt, pieces, seat, held, own, at, backing, shown, &mut core, &mut free,
    )
}

// The same under the locks of the core and of the free frames, if a frame goes back.
fn share_by<R: Wait, A: Allocator + Clone>(
    rt: &R,
    pieces: &Pieces<'_, A>,
    seat: &mut Seat<A>,
    held: &mut Held<'_, A>,
    own: Option<u32>,
    at: u64,
    backing: &FilePage,
    shown: u32,
    core: &mut CoreState<A>,
    free: &mut Option<MutexGuard<'_, FreeFrames<A>>>,
) -> Option<u32>
    requires step { CanNote seat.old }
    requires backed { BacksPage held.old at backing.now }
    requires caches { backing.now.cached ≡ Some shown }
    requires core { core.old.inbox.core ≡ seat.old.core }
    requires free { is_some free.old ≡ is_some own }
    ensures some { IfSome result (λ f. StepsWith (Frame f) seat.old held.old seat.new held.new) }
    ensures shown { IfSome result (λ f. backing.now.cached ≡ Some f) }
    ensures none { result ≡ None → Stays seat.old held.old seat.new held.new }
{
    let evicted = core.counts.in_the_way(shown, 1);
    let Some(mut frames) = lock_these(rt, pieces, &[own, evicted]) else {
        return None;
    };
    if !frames.can_evict(core, evicted) || !held.can_take(Act::Frame(shown)) {
        return None;
    }
    let epochs = pieces.epoch_for(rt, evicted);
    give_shown(
        core,
        &mut frames,
        free,
        seat,
        held,
        own,
        at,
        backing,
        shown,
        number_of(&epochs),
    );
    Some(shown)
}

// The step: the core counts the shown frame up, and the frame that the call took, if it took one,
// goes back; it is noted, and the held page gets the shown frame.
fn give_shown<A: Allocator + Clone>(
    core: &mut CoreState<A>,
    frames: &mut FramesHeld<'_, A>,
    free: &mut Option<MutexGuard<'_, FreeFrames<A>>>,
    seat: &mut Seat<A>,
    held: &mut Held<'_, A>,
    own: Option<u32>,
    _at: u64,
    _backing: &FilePage,
    shown: u32,
    epoch: u64,
)
    requires step { CanNote seat.old }
    requires each { All (CanTake (Frame shown)) held.old.slots }
    requires way { CanMakeWay shown (pos 1) core.old.counts frames.old }
    requires own { IfSome own (λ number. IsHeld number frames.old) }
    requires free { is_some free.old ≡ is_some own }
    requires backed { BacksPage held.old _at _backing.now }
    requires caches { _backing.now.cached ≡ Some shown }
    requires core { core.old.inbox.core ≡ seat.old.core }
    ensures step { StepsWith (Frame shown) seat.old held.old seat.new held.new }
    ensures counts { CountsShown own shown epoch core.old.counts core.new.counts frames.old frames.new }
    ensures free { GivesFree own (free_in free.old) (free_in free.new) }
    ensures rest { core.new ≡ record core.old { counts = core.new.counts } }
{
    let ticket = seat.step();
    frames.count(core, shown, 1, epoch);
    give_back(frames, free, own);
    held.change_each(ticket, Act::Frame(shown));
}

// The frame of this number is given back, if there is a number.
fn give_back<A: Allocator + Clone>(
    frames: &mut FramesHeld<'_, A>,
    free: &mut Option<MutexGuard<'_, FreeFrames<A>>>,
    own: Option<u32>,
)
    requires own { IfSome own (λ number. IsHeld number frames.old) }
    requires free { is_some free.old ≡ is_some own }
    ensures frames { GivesOwn own frames.old frames.new }
    ensures free { GivesFree own (free_in free.old) (free_in free.new) }
{
    let Some(number) = own else {
        return;
    };
    frames.give(number);
    give_free(free, number);
}

// The frame is one of the free ones, which are locked.
fn give_free<A: Allocator>(free: &mut Option<MutexGuard<'_, FreeFrames<A>>>, number: u32)
    requires { is_some free.old ≡ true }
    ensures { Gives number (free_in free.old) (free_in free.new) }
{
    match free {
        Some(free) => free.give(number),
        None => unreachable!(),
    }
}
