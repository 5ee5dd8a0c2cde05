//! How a step finds a free frame for a page and takes it, and gives it back.
ghost use Rattle.std.specs.Prelude.{◌≡◌, ◌+◌, ◌<◌, ◌≤◌, ◌^◌, ◌||◌, false, true, is_some};
ghost use Rattle.seats.specs.Growing.{GivesUp};
ghost use Rattle.seats.specs.Notes.{CanNote};
ghost use Rattle.frames.specs.Parts.{cell_bytes};
ghost use Rattle.live_pages.specs.Free.{Gives, GivesFree, TakesNext, TakesOne, free_frames, freed_by};
ghost use Rattle.live_pages.specs.HeldFrames.{IsGiven, frame_at};
ghost use Rattle.live_pages.specs.Steps.{Takes, Wants};

use crate::frames_held::{Place, lock_place};
use crate::free_frames::FreeFrames;
use crate::pieces::{FrameState, Pieces, lock_frame};
use live_levels::level::Stepper;
use machine_model::{Event, Outcome};
use refcache::Review;
use seats::Seat;
use std::alloc::Allocator;
use std::sync::{Mutex, Wait};

/// The result of the search for a free frame.
#[derive(Clone, Copy)]
pub enum FrameSearch {
    /// This frame was taken.
    Taken(u32),
    /// No frame is free.
    NoFrame,
    /// The free frame isn't there, or is taken, and nothing was noted. It never comes; the call gives
    /// up.
    Lost,
}

/// Takes a free frame: the first from where the core looks next, round all frames. The free frames
/// are locked, so that they are all that are free when the step is noted.
pub fn want<R: Wait, A: Allocator + Clone>(
    rt: &R,
    pieces: &Pieces<'_, A>,
    seat: &mut Seat<A>,
) -> FrameSearch
    requires { CanNote seat.old }
    ensures { Wants seat.old seat.new result }
{
    let from = looks_from(pieces, seat, count_of(pieces.frames));
    let mut free = pieces.free.lock(rt);
    want_next(rt, pieces.frames, &mut free, seat, from)
}

// How many frames there are.
fn count_of<A: Allocator>(frames: &[Mutex<FrameState<A>>]) -> u32
    ensures { result < 2 ^ 32 }
{
    u32::try_from(frames.len()).unwrap_or(u32::MAX)
}

// From which of so many frames on the core looks: after the one that it took last, and before that
// from its own part of the frames on, so that cores don't meet.
fn looks_from<A: Allocator + Clone>(pieces: &Pieces<'_, A>, seat: &Seat<A>, count: u32) -> u32
    ensures { result ≤ count }
{
    let next = seat.next_frame();
    if next > 0 {
        return next.min(count);
    }
    let cores = pieces.cores.len().max(1) as u64;
    let own = u64::from(seat.core().index()) * u64::from(count) / cores;
    own.min(u64::from(count)) as u32
}

// Takes the next free frame of those that are lent, from this one on, or notes that none is free.
fn want_next<R: Wait, A: Allocator + Clone>(
    rt: &R,
    frames: &[Mutex<FrameState<A>>],
    free: &mut FreeFrames<A>,
    seat: &mut Seat<A>,
    from: u32,
) -> FrameSearch
    requires { CanNote seat.old }
    ensures noted { Wants seat.old seat.new result }
    ensures free { TakesNext from free.old free.new result }
{
    let Some(number) = free.next(from) else {
        let _ticket = seat.step();
        return FrameSearch::NoFrame;
    };
    if take_at(rt, frames, free, seat, number) {
        FrameSearch::Taken(number)
    } else {
        FrameSearch::Lost
    }
}

// Takes a free frame, under its lock. False where it isn't there, or is taken, which never comes.
fn take_at<R: Wait, A: Allocator + Clone>(
    rt: &R,
    frames: &[Mutex<FrameState<A>>],
    free: &mut FreeFrames<A>,
    seat: &mut Seat<A>,
    number: u32,
) -> bool
    requires step { CanNote seat.old }
    requires number { number + 1 < 2 ^ 32 }
    requires free { free_frames free.old number ≡ true }
    ensures taken { result ≡ true → Takes seat.old number seat.new }
    ensures not { result ≡ false → seat.new ≡ seat.old }
    ensures one { result ≡ true → TakesOne number free.old free.new }
    ensures none { result ≡ false → free.new ≡ free.old }
{
    let Some(mut frame) = lock_frame(rt, frames, number) else {
        return false;
    };
    take_free(&mut frame, free, seat, number)
}

// Takes the frame, which is locked, if it is free.
fn take_free<A: Allocator>(
    frame: &mut FrameState<A>,
    free: &mut FreeFrames<A>,
    seat: &mut Seat<A>,
    number: u32,
) -> bool
    requires step { CanNote seat.old }
    requires number { number + 1 < 2 ^ 32 }
    requires own { frame.old.number ≡ number }
    requires free { free_frames free.old number ≡ true }
    ensures result { result ≡ frame.old.cell.is_free }
    ensures taken { result ≡ true → Takes seat.old number seat.new }
    ensures not { result ≡ false → seat.new ≡ seat.old }
    ensures one { result ≡ true → TakesOne number free.old free.new }
    ensures none { result ≡ false → free.new ≡ free.old }
    ensures free { frame.new.cell.is_free ≡ false }
    ensures rest { (cell_bytes frame.new.cell ≡ cell_bytes frame.old.cell) × (frame.new.count ≡ frame.old.count) }
{
    if !frame.cell.is_free() {
        return false;
    }
    let _ticket = seat.note(
        Event::Frame(seat.core(), u64::from(number)),
        Outcome::Stepped,
    );
    seat.set_next_frame(number + 1);
    free.take(number);
    frame.cell.take();
    true
}

/// Gives the core's call up, and the frame back that it took and that no page has: one step under
/// the locks of the free frames and of the frame.
pub fn give_up_with<R: Wait, A: Allocator + Clone>(
    rt: &R,
    pieces: &Pieces<'_, A>,
    seat: &mut Seat<A>,
    own: u32,
)
    requires { CanNote seat.old }
    ensures { GivesUp seat.old seat.new }
{
    let mut free = pieces.free.lock(rt);
    match lock_place(rt, pieces.frames, own) {
        Some(mut place) => give_up_in(&mut place, &mut free, seat),
        None => {
            let _ticket = seat.note(Event::GiveUp(seat.core()), Outcome::Stepped);
        }
    }
}

// The step: the locked frame is free again, and it is noted that the call is given up.
fn give_up_in<A: Allocator>(place: &mut Place<'_, A>, free: &mut FreeFrames<A>, seat: &mut Seat<A>)
    requires { CanNote seat.old }
    ensures noted { GivesUp seat.old seat.new }
    ensures frame { IsGiven (frame_at place.old) (frame_at place.new) }
    ensures free { Gives place.old.number free.old free.new }
{
    let _ticket = seat.note(Event::GiveUp(seat.core()), Outcome::Stepped);
    free.give(place.number);
    place.frame.cell.give();
}

/// The frame that a review freed is free again, if it freed one. The free frames are locked, and the
/// frame that was reviewed.
pub fn give_reviewed<A: Allocator>(
    review: &Review,
    free: &mut FreeFrames<A>,
    frame: &mut FrameState<A>,
)
    ensures free { GivesFree (freed_by review.now) free.old free.new }
    ensures frame { frame.new.cell.is_free ≡ (is_some (freed_by review.now) || frame.old.cell.is_free) }
    ensures rest { (cell_bytes frame.new.cell ≡ cell_bytes frame.old.cell) × (frame.new.count ≡ frame.old.count) }
{
    match review {
        Review::Freed(number) => {
            free.give(*number);
            frame.cell.give();
        }
        Review::Idle | Review::Dropped(_) | Review::Requeued(_) => {}
    }
}
