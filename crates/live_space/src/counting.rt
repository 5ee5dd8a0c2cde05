//! One flush and one review of a seat's core: each is one step, taken while the locks of the core,
//! of the frame and of the epoch are held.
ghost use Rattle.std.specs.Prelude.{◌≡◌, ◌<◌, ◌||◌, ℕ, None, true, false, is_some, IfOk, IfErr};
ghost use Rattle.vm_base.specs.Cores.{members};
ghost use Rattle.machine_model.specs.declared.event.Event.TheVariants as EventOf;
ghost use Rattle.refcache.specs.Epochs.{Marks};
ghost use Rattle.refcache.specs.declared.reports.Queued.{Queued};
ghost use Rattle.refcache.specs.Pieces.{IsFront, IsLeast, ReviewsPiece};
ghost use Rattle.refcache.specs.Places.{entries};
ghost use Rattle.live_pages.specs.Free.{GivesFree, freed_by};
ghost use Rattle.seats.specs.Growing.{NotesIf};
ghost use Rattle.seats.specs.Notes.{CanNote};
ghost use Rattle.live_space.specs.Calls.{IsIdle, LacksRoom};
ghost use Rattle.live_space.specs.Counting.{EvictsEntry, NotesOneIf, has_flushed, has_reviewed};
ghost use Rattle.live_space.specs.Space.{IsOf};

use crate::fault::{LiveFault, reserve_notes};
use crate::space::Live;
use live_pages::frame::give_reviewed;
use live_pages::free_frames::FreeFrames;
use live_pages::pieces::{CoreState, FrameState, lock_core, lock_frame};
use machine_model::{Event, Outcome};
use refcache::{Epochs, Flush, Review};
use seats::Seat;
use std::alloc::Allocator;
use std::sync::{Mutex, Wait};

impl<A: Allocator + Clone> Live<A> {
    /// One flush by the seat's core, noted as a step of its own. It evicts the core's entry of the
    /// least object; a core without entries is marked for the epoch, which ends with the last mark.
    /// False where the core is marked already, or the last epoch would end: then nothing changes,
    /// and nothing is noted. It waits while another thread has the core, the frame or the epoch
    /// locked. After a fault nothing was begun.
    pub fn flush<R: Wait>(&self, rt: &R, seat: &mut Seat<A>) -> Result<bool, LiveFault>
        requires { IsOf self.now seat.old }
        ensures own { IsOf self.now seat.new }
        ensures noted { IfOk result
            (λ is_noted. NotesOneIf (EventOf.Flush seat.old.core) seat.old is_noted seat.new) }
        ensures fault { IfErr result (LacksRoom 1 seat.old) }
        ensures idle { IfErr result (λ fault. IsIdle seat.old seat.new) }
    {
        reserve_notes(seat, 1)?;
        let Some(mut core) = lock_core(rt, &self.cores, seat.core()) else {
            return Ok(false);
        };
        let is_noted = flush_core(rt, &mut core, self.frames.as_slice(), &self.epochs, seat);
        Ok(is_noted)
    }

    /// One review by the seat's core, noted as a step of its own. The object at the front of its
    /// queue leaves it, or is queued anew; a frame that is freed may be taken again. False where
    /// the queue is empty, or its front isn't due: then nothing changes, and nothing is noted. It
    /// waits while another thread has the core, the free frames, the frame or the epoch locked. After
    /// a fault nothing was begun.
    pub fn review<R: Wait>(&self, rt: &R, seat: &mut Seat<A>) -> Result<bool, LiveFault>
        requires { IsOf self.now seat.old }
        ensures own { IsOf self.now seat.new }
        ensures noted { IfOk result
            (λ is_noted. NotesOneIf (EventOf.Review seat.old.core) seat.old is_noted seat.new) }
        ensures fault { IfErr result (LacksRoom 1 seat.old) }
        ensures idle { IfErr result (λ fault. IsIdle seat.old seat.new) }
    {
        reserve_notes(seat, 1)?;
        let frames = self.frames.as_slice();
        let Some(mut core) = lock_core(rt, self.cores.as_slice(), seat.core()) else {
            return Ok(false);
        };
        let is_noted = review_core(rt, &mut core, &self.free, frames, &self.epochs, seat);
        Ok(is_noted)
    }
}

// Evicts the entry of the least object of the seat's core, which is locked, or marks a core without
// entries for the epoch.
fn flush_core<R: Wait, A: Allocator + Clone>(
    rt: &R,
    core: &mut CoreState<A>,
    frames: &[Mutex<FrameState<A>>],
    epochs: &Mutex<Epochs>,
    seat: &mut Seat<A>,
) -> bool
    requires own { core.old.inbox.core ≡ seat.old.core }
    requires step { CanNote seat.old }
    ensures { NotesIf seat.old (EventOf.Flush seat.old.core) result seat.new }
{
    match core.counts.least() {
        Some(object) => flush_entry(rt, core, object, frames, epochs, seat),
        None => mark(rt, core, epochs, seat),
    }
}

// Evicts the core's entry of its least object. False where it can't be, which never comes.
fn flush_entry<R: Wait, A: Allocator + Clone>(
    rt: &R,
    core: &mut CoreState<A>,
    object: u32,
    frames: &[Mutex<FrameState<A>>],
    epochs: &Mutex<Epochs>,
    seat: &mut Seat<A>,
) -> bool
    requires step { CanNote seat.old }
    requires least { IsLeast (entries core.old.counts.places) object }
    ensures { NotesIf seat.old (EventOf.Flush seat.old.core) result seat.new }
{
    let Some(mut frame) = lock_frame(rt, frames, object) else {
        return false;
    };
    let epochs = epochs.lock(rt);
    evict_least(core, object, &mut frame, &epochs, seat)
}

// The step: the entry of the core's least object goes into the frame, which is locked as the epoch is. False where it can't
// be, and then nothing changes.
fn evict_least<A: Allocator + Clone>(
    core: &mut CoreState<A>,
    object: u32,
    frame: &mut FrameState<A>,
    epochs: &Epochs,
    seat: &mut Seat<A>,
) -> bool
    requires step { CanNote seat.old }
    requires least { IsLeast (entries core.old.counts.places) object }
    requires own { frame.old.number ≡ object }
    ensures noted { NotesIf seat.old (EventOf.Flush seat.old.core) result seat.new }
    ensures evicts { result ≡ true → EvictsEntry object epochs.now.number core.old.counts core.new.counts
        frame.old.count frame.new.count }
    ensures not { result ≡ false → (core.new ≡ core.old) × (frame.new ≡ frame.old) }
    ensures core { core.new ≡ record core.old { counts = core.new.counts } }
    ensures frame { frame.new ≡ record frame.old { count = frame.new.count } }
{
    if !core.counts.can_evict(&frame.count, object) {
        return false;
    }
    let _ticket = seat.note(Event::Flush(seat.core()), Outcome::Stepped);
    core.counts.evict(&mut frame.count, object, epochs.number());
    true
}

// Marks a core without entries, which is locked, for the epoch.
fn mark<R: Wait, A: Allocator + Clone>(
    rt: &R,
    _core: &CoreState<A>,
    epochs: &Mutex<Epochs>,
    seat: &mut Seat<A>,
) -> bool
    requires step { CanNote seat.old }
    requires clear { (o : ℕ) → entries _core.now.counts.places o ≡ None }
    ensures { NotesIf seat.old (EventOf.Flush seat.old.core) result seat.new }
{
    let mut epochs = epochs.lock(rt);
    has_flushed(&mark_in(&mut epochs, seat))
}

// The step: the core is marked in the epoch, which is locked.
fn mark_in<A: Allocator>(epochs: &mut Epochs, seat: &mut Seat<A>) -> Flush
    requires { CanNote seat.old }
    ensures noted { NotesIf seat.old (EventOf.Flush seat.old.core) (has_flushed result) seat.new }
    ensures marks { Marks epochs.old.cores epochs.old.number (members epochs.old.flushed) seat.old.core result
        epochs.new.number (members epochs.new.flushed) }
    ensures cores { epochs.new.cores ≡ epochs.old.cores }
{
    let flush = epochs.mark(seat.core());
    if has_flushed(&flush) {
        let _ticket = seat.note(Event::Flush(seat.core()), Outcome::Stepped);
    }
    flush
}

// Tells whether the flush did something.
fn has_flushed(flush: &Flush) -> bool
    ensures { result ≡ has_flushed flush.now }
{
    match flush {
        Flush::Idle => false,
        Flush::Evicted(_) | Flush::Flushed | Flush::EpochEnded => true,
    }
}

// Reviews the front of the queue of the seat's core, which is locked. False where there is none, or
// where it isn't due.
fn review_core<R: Wait, A: Allocator + Clone>(
    rt: &R,
    core: &mut CoreState<A>,
    free: &Mutex<FreeFrames<A>>,
    frames: &[Mutex<FrameState<A>>],
    epochs: &Mutex<Epochs>,
    seat: &mut Seat<A>,
) -> bool
    requires own { core.old.inbox.core ≡ seat.old.core }
    requires step { CanNote seat.old }
    ensures { NotesIf seat.old (EventOf.Review seat.old.core) result seat.new }
{
    let Some(front) = core.counts.front() else {
        return false;
    };
    let mut free = free.lock(rt);
    let Some(mut frame) = lock_frame(rt, frames, front.object) else {
        return false;
    };
    let epochs = epochs.lock(rt);
    has_reviewed(&review_front(core, &mut free, &mut frame, &epochs, seat))
}

// The step: the front of the core's queue is reviewed, whose frame is locked as the free frames and the epoch are.
fn review_front<A: Allocator + Clone>(
    core: &mut CoreState<A>,
    free: &mut FreeFrames<A>,
    frame: &mut FrameState<A>,
    epochs: &Epochs,
    seat: &mut Seat<A>,
) -> Review
    requires step { CanNote seat.old }
    requires own { (front : Queued) × IsFront core.old.counts.queue front × (frame.old.number ≡ front.object) }
    ensures noted { NotesIf seat.old (EventOf.Review seat.old.core) (has_reviewed result) seat.new }
    ensures reviews { ReviewsPiece core.old.counts.queue epochs.now.number frame.old.count result frame.new.count
        core.new.counts.queue }
    ensures free { GivesFree (freed_by result) free.old free.new }
    ensures frame { frame.new.cell.is_free ≡ (is_some (freed_by result) || frame.old.cell.is_free) }
    ensures places { core.new.counts.places ≡ core.old.counts.places }
    ensures core { core.new ≡ record core.old { counts = core.new.counts } }
{
    let review = core.counts.review(&mut frame.count, epochs.number());
    give_reviewed(&review, free, frame);
    if has_reviewed(&review) {
        let _ticket = seat.note(Event::Review(seat.core()), Outcome::Stepped);
    }
    review
}

// Tells whether the review did something.
fn has_reviewed(review: &Review) -> bool
    ensures { result ≡ has_reviewed review.now }
{
    match review {
        Review::Idle => false,
        Review::Dropped(_) | Review::Freed(_) | Review::Requeued(_) => true,
    }
}
