//! The copy of a private page that shows its file page, for a store: no core may go on translating
//! it by the old frame.
ghost use Rattle.std.specs.Prelude.{◌≡◌, ◌≢◌, All, false, neg_ℤ, pos, true};
ghost use Rattle.live_levels.specs.declared.act.Act.TheVariants.{Copy};
ghost use Rattle.seats.specs.Notes.{CanNote};
ghost use Rattle.live_tree.specs.Held.{CanTake};
ghost use Rattle.live_tree.specs.Shown.{shown};
ghost use Rattle.live_pages.specs.Acking.{OthersHaveAcked};
ghost use Rattle.live_pages.specs.HeldFrames.{CanMakeWay, CountsCopied, IsHeld};
ghost use Rattle.live_pages.specs.Steps.{Stays, StepsWith};

use crate::frames_held::{FramesHeld, lock_these};
use crate::pieces::{CoreState, Pieces, lock_core, number_of};
use crate::telling::Acked;
use live_levels::act::Act;
use live_levels::level::Stepper;
use live_tree::held::Held;
use seats::Seat;
use std::alloc::Allocator;
use std::sync::Wait;

/// The held page, which has the frame `from`, gets a copy of it in the frame that the call took,
/// and no core is recorded on it any more; the old frame is counted down by the core. It is one
/// step, under the locks of the core and of the frames, taken once all other cores that are recorded
/// on the page have acknowledged. False, and then nothing was noted and the slots stay, where a frame is missing or
/// a count can't be taken, which never comes.
pub fn copy_page<R: Wait, A: Allocator + Clone>(
    rt: &R,
    pieces: &Pieces<'_, A>,
    seat: &mut Seat<A>,
    held: &mut Held<'_, A>,
    _page: u64,
    _acked: &Acked,
    from: u32,
    own: u32,
) -> bool
    requires step { CanNote seat.old }
    requires acked { OthersHaveAcked seat.old.core _page ((shown held.old.slots).info _page) _acked.now }
    ensures done { result ≡ true → StepsWith (Copy own) seat.old held.old seat.new held.new }
    ensures not { result ≡ false → Stays seat.old held.old seat.new held.new }
{
    if from == own {
        return false;
    }
    let Some(mut core) = lock_core(rt, pieces.cores, seat.core()) else {
        return false;
    };
    copy_by(rt, pieces, seat, held, &mut core, from, own)
}

// The same under the lock of the core.
fn copy_by<R: Wait, A: Allocator + Clone>(
    rt: &R,
    pieces: &Pieces<'_, A>,
    seat: &mut Seat<A>,
    held: &mut Held<'_, A>,
    core: &mut CoreState<A>,
    shown: u32,
    own: u32,
) -> bool
    requires step { CanNote seat.old }
    requires other { shown ≢ own }
    requires core { core.old.inbox.core ≡ seat.old.core }
    ensures done { result ≡ true → StepsWith (Copy own) seat.old held.old seat.new held.new }
    ensures not { result ≡ false → Stays seat.old held.old seat.new held.new }
{
    let evicted = core.counts.in_the_way(shown, -1);
    let Some(mut frames) = lock_these(rt, pieces, &[Some(shown), Some(own), evicted]) else {
        return false;
    };
    if !frames.can_evict(core, evicted) || !held.can_take(Act::Copy(own)) {
        return false;
    }
    let epochs = pieces.epoch_for(rt, evicted);
    give_copied(
        core,
        &mut frames,
        seat,
        held,
        shown,
        own,
        number_of(&epochs),
    );
    true
}

// The step: a locked frame gets the bytes of the shown one and is counted once, the core counts
// that one down, it is noted, and the held page gets the copy.
fn give_copied<A: Allocator + Clone>(
    core: &mut CoreState<A>,
    frames: &mut FramesHeld<'_, A>,
    seat: &mut Seat<A>,
    held: &mut Held<'_, A>,
    shown: u32,
    own: u32,
    epoch: u64,
)
    requires step { CanNote seat.old }
    requires each { All (CanTake (Copy own)) held.old.slots }
    requires way { CanMakeWay shown (neg_ℤ (pos 1)) core.old.counts frames.old }
    requires source { IsHeld shown frames.old }
    requires target { IsHeld own frames.old }
    requires other { shown ≢ own }
    requires core { core.old.inbox.core ≡ seat.old.core }
    ensures step { StepsWith (Copy own) seat.old held.old seat.new held.new }
    ensures counts { CountsCopied shown own epoch core.old.counts core.new.counts frames.old frames.new }
    ensures rest { core.new ≡ record core.old { counts = core.new.counts } }
{
    let ticket = seat.step();
    frames.copy(shown, own);
    frames.count(core, shown, -1, epoch);
    held.change_each(ticket, Act::Copy(own));
}
