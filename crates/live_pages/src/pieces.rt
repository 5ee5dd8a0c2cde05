//! What lies under the locks of a space, and how it is lent to a step.
ghost use Rattle.std.specs.Prelude.{◌≡◌, ◌<◌, length, is_some, IfSome};
ghost use Rattle.std.specs.Sync.Mutex.{mutex_guard_value};
ghost use Rattle.live_pages.specs.Frames.{epoch_of};

use crate::free_frames::FreeFrames;
use crossbeam_utils::CachePadded;
use frames::{CachedFrame, FrameCell, Objects};
use mmu::{Cpu, Inbox};
use refcache::{CoreCounts, Epochs, ObjectCount};
use std::alloc::Allocator;
use std::sync::{Mutex, MutexGuard, Wait};
use vm_base::CoreId;

/// What a core has: its part of the counts, its inbox, its tables and its TLB.
#[derive(Drop)]
pub struct CoreState<A: Allocator + Clone> {
    pub counts: CoreCounts<A>,
    pub inbox: Inbox,
    pub cpu: Cpu<A>,
}

/// What a frame has: its number, its bytes, whether it is free, and its count.
#[derive(Drop)]
pub struct FrameState<A: Allocator> {
    pub number: u32,
    pub cell: FrameCell<A>,
    pub count: ObjectCount,
}

/// What a file page has: of which file it is, which of its pages, and the frame that caches it.
#[derive(Drop)]
pub struct FilePage {
    pub file: u32,
    pub page: u64,
    pub cached: CachedFrame,
}

/// The pieces of a space, as they are lent to a step.
#[derive(Drop)]
pub struct Pieces<'a, A: Allocator + Clone> {
    /// Where a step takes memory.
    pub alloc: &'a A,
    /// The files, which never change.
    pub objects: &'a Objects<A>,
    /// Of each file its pages.
    pub pages: &'a [Vec<Mutex<FilePage>, A>],
    /// The cores.
    pub cores: &'a [CachePadded<Mutex<CoreState<A>>>],
    /// Which frames are free.
    pub free: &'a Mutex<FreeFrames<A>>,
    /// The frames.
    pub frames: &'a [Mutex<FrameState<A>>],
    /// The epoch.
    pub epochs: &'a Mutex<Epochs>,
}

impl<'a, A: Allocator + Clone> Pieces<'a, A> {
    /// Locks the free frames for a step that gives a frame back, if it gives one.
    pub fn free_for<R: Wait>(
        &self,
        rt: &R,
        given: Option<u32>,
    ) -> Option<MutexGuard<'a, FreeFrames<A>>>
        ensures { is_some result ≡ is_some given }
    {
        match given {
            Some(_) => Some(self.free.lock(rt)),
            None => None,
        }
    }

    /// Locks the epoch for a step that evicts an entry, if it evicts one.
    pub fn epoch_for<R: Wait>(&self, rt: &R, evicted: Option<u32>) -> Option<MutexGuard<'a, Epochs>>
        ensures { is_some result ≡ is_some evicted }
    {
        match evicted {
            Some(_) => Some(self.epochs.lock(rt)),
            None => None,
        }
    }
}

/// Locks a core, which its inbox names. It waits while another thread has it locked. None where there
/// is no such core, or another one stands in its place, which never comes.
#[inline(always)]
pub fn lock_core<'a, R: Wait, A: Allocator + Clone>(
    rt: &R,
    cores: &'a [CachePadded<Mutex<CoreState<A>>>],
    core: CoreId,
) -> Option<MutexGuard<'a, CoreState<A>>>
    ensures { IfSome result (λ guard. (mutex_guard_value guard).inbox.core ≡ core) }
{
    let Some(place) = cores.get(core.index() as usize) else {
        return None;
    };
    let state = place.lock(rt);
    if state.inbox.core().index() != core.index() {
        return None;
    }
    Some(state)
}

/// Locks the frame of that number, which says it itself. It waits while another thread has it locked.
/// None where there is no such frame, or another one stands in its place, which never comes.
pub fn lock_frame<'a, R: Wait, A: Allocator>(
    rt: &R,
    frames: &'a [Mutex<FrameState<A>>],
    number: u32,
) -> Option<MutexGuard<'a, FrameState<A>>>
    ensures own { IfSome result (λ guard. (mutex_guard_value guard).number ≡ number) }
    ensures there { IfSome result (λ _. number < length frames.now) }
{
    let Some(place) = frames.get(number as usize) else {
        return None;
    };
    let frame = place.lock(rt);
    if frame.number != number {
        return None;
    }
    Some(frame)
}

/// The number of an epoch that is locked; 0 where none is.
pub fn number_of(epochs: &Option<MutexGuard<'_, Epochs>>) -> u64
    ensures { result ≡ epoch_of epochs.now }
{
    match epochs {
        Some(epochs) => epochs.number(),
        None => 0,
    }
}
