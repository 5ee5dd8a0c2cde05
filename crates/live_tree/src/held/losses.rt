//! What held pages lose by a change that takes their frames, read where the slots are.
ghost use Rattle.std.specs.Prelude.{◌≡◌, ℕ, ◌≤◌, ◌++◌, [], map, All, IfSome, IsSome, IsTrue};
ghost use Rattle.std.specs.Prelude.{option_to_list};
ghost use Rattle.vm_base.specs.Cores.{either, members};
ghost use Rattle.vm_base.specs.Info.{frame_of, is_recorded};
ghost use Rattle.live_tree.specs.Guards.{slot_of};
ghost use Rattle.live_tree.specs.Held.{Covers, SideBySide};
ghost use Rattle.live_tree.specs.Losing.{AreLost, IsAlone, content_in};
ghost use Rattle.live_tree.specs.Shown.{shown};

use crate::held::{Guards, Held};
use live_levels::slot::SlotState;
use smallvec::SmallVec;
use std::alloc::Allocator;
use std::sync::MutexGuard;
use vm_base::info::recorded_cores;
use vm_base::{CoreSet, PageInfo, PageRange};

/// Frames that pages have, in order of pages. A few take no memory.
pub type FrameList<'a, A> = SmallVec<u32, 8, &'a A>;

/// What pages lose by a change that takes their frames.
#[derive(Drop)]
pub struct FramesLost<'a, A: Allocator> {
    /// The cores that are recorded on some of the pages.
    pub cores: CoreSet,
    /// The frames that the pages have, in order of pages.
    pub frames: FrameList<'a, A>,
}

impl<'a, A: Allocator + Clone> Held<'a, A> {
    /// What these pages lose, which are held. Each slot is read where it is, and only the list takes
    /// memory. `None` where that is refused.
    pub fn losses<'b>(&self, alloc: &'b A, range: PageRange) -> Option<FramesLost<'b, A>>
        requires { Covers self.now range }
        ensures { IfSome result
            (λ lost. AreLost (shown self.now.slots) range lost.cores lost.frames.items) }
    {
        let mut lost = FramesLost {
            cores: CoreSet::empty(),
            frames: SmallVec::new(alloc),
        };
        if !lose_all(&mut lost, &self.guards, range) {
            return None;
        }
        Some(lost)
    }
}

// Adds what the slots of all guards lose in the range to no losses, and tells whether memory was
// there.
fn lose_all<'a, A: Allocator>(
    lost: &mut FramesLost<'_, A>,
    guards: &Guards<'a, A>,
    range: PageRange,
) -> bool
    requires none { (lost.old.cores ≡ 0) × (lost.old.frames.items ≡ []) }
    requires some { All IsSome guards.now.items }
    ensures { IsTrue result → (first : ℕ) (end : ℕ)
        → SideBySide first end (map slot_of guards.now.items) → first ≤ range.first → range.end ≤ end
        → AreLost (shown (map slot_of guards.now.items)) range lost.new.cores lost.new.frames.items }
{
    'guards: for guard in guards.as_slice() {
        if !lose(lost, guard, range) {
            return false;
        }
    }
    true
}

// Adds what the slot of a guard, which is there, loses in the range, and tells whether memory was
// there.
fn lose<A: Allocator>(
    lost: &mut FramesLost<'_, A>,
    guard: &Option<MutexGuard<'_, SlotState<A>>>,
    range: PageRange,
) -> bool
    requires { IsSome guard.now }
    ensures cores { members lost.new.cores
        ≡ either (members lost.old.cores) (is_recorded (content_in range (slot_of guard.now))) }
    ensures frames { IsTrue result → lost.new.frames.items ≡ lost.old.frames.items
        ++ option_to_list (frame_of (content_in range (slot_of guard.now))) }
    ensures alone { IsAlone (slot_of guard.now) }
{
    let Some(slot) = guard else {
        unreachable!();
    };
    let content = content_in(slot, range);
    lost.cores = lost.cores.union(recorded_cores(&content));
    add_frame(&mut lost.frames, frame_of(&content))
}

/// Adds the frame, if there is one. False where memory is refused.
pub fn add_frame<'a, A: Allocator>(frames: &mut FrameList<'a, A>, frame: Option<u32>) -> bool
    ensures { IsTrue result → frames.new.items ≡ frames.old.items ++ option_to_list frame }
{
    match frame {
        Some(frame) => frames.push(frame).is_ok(),
        None => true,
    }
}

// The frame of a page that has this, if it has one.
pub(crate) fn frame_of(info: &Option<PageInfo>) -> Option<u32>
    ensures { result ≡ frame_of info.now }
{
    match info {
        Some(info) => info.frame,
        None => None,
    }
}

// What the slot's first page has, if it lies in the range.
fn content_in<A: Allocator>(slot: &SlotState<A>, range: PageRange) -> Option<PageInfo>
    ensures content { result ≡ content_in range slot.now }
    ensures alone { IsAlone slot.now }
{
    let first = slot.first();
    let _count = slot.count();
    let content = slot.content();
    if range.first <= first && first < range.end {
        content
    } else {
        None
    }
}
