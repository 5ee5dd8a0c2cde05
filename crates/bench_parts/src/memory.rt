//! Frames whose bytes are set and read, that are filled and copied, and references that one core
//! counts, flushes and reviews.
ghost use Rattle.std.specs.Prelude.{◌≡◌, neg_ℤ, pos, ◌≤ℤ◌};

use crate::timing::Part;
use frames::Frames;
use refcache::{CoreCounts, ObjectCount, Review};
use std::alloc::Global;

const FRAMES: u32 = 1024;

/// What is done with a frame in each round.
#[derive(Clone, Copy)]
pub enum Deed {
    /// A byte of it is set, and one of another frame read.
    SetByte,
    /// It gets 3,000 bytes, and zeros after them.
    Fill,
    /// It is copied to another.
    Copy,
}

/// Frames, each of which was written to.
#[derive(Drop)]
pub struct Written {
    frames: Frames<Global>,
    bytes: [u8; 3000],
    deed: Deed,
    ghost count: { frames.count ≡ 1024 },
}

pub fn frames_with(alloc: Global, deed: Deed) -> Option<Written> {
    let mut frames = Frames::new(alloc, FRAMES).ok()?;
    'all: for frame in 0..FRAMES {
        frames.set_byte(frame, 0, 1);
    }
    let bytes = [7u8; 3000];
    Some(Written {
        frames,
        bytes,
        deed,
    })
}

impl Part for Written {
    fn round(&mut self, place: u64) -> bool {
        let frame = (place % 1024) as u32;
        let other = FRAMES - 1 - frame;
        match self.deed {
            Deed::SetByte => {
                self.frames.set_byte(frame, 7, (frame % 256) as u8);
                self.frames.byte(other, 0) == 1
            }
            Deed::Fill => {
                self.frames.fill(frame, &self.bytes);
                true
            }
            Deed::Copy => {
                self.frames.copy(frame, other);
                true
            }
        }
    }
}

const OBJECTS: u32 = 64;

/// A core, and the global counts of the objects. An object is counted up and down, and then flushed
/// and reviewed two epochs later, or only counted.
#[derive(Drop)]
pub struct Counts {
    core: CoreCounts<Global>,
    globals: Vec<ObjectCount, Global>,
    is_flushed: bool,
    epoch: u64,
}

pub fn objects(alloc: Global, is_flushed: bool) -> Option<Counts> {
    let core = CoreCounts::new(alloc, OBJECTS).ok()?;
    let mut globals = Vec::new(alloc);
    'objects: for _ in 0..OBJECTS {
        globals.push(ObjectCount::new()).ok()?;
    }
    Some(Counts {
        core,
        globals,
        is_flushed,
        epoch: 0,
    })
}

impl Counts {
    /// Counts an object by 1 or -1 on the core, where nothing is in the way; tells whether it did.
    fn count(&mut self, object: u32, by: i64) -> bool
        requires { (neg_ℤ (pos 1) ≤ℤ by) × (by ≤ℤ pos 1) }
    {
        if let Some(_) = self.core.in_the_way(object, by) {
            return false;
        }
        self.core.add(object, by);
        true
    }

    /// Evicts the core's least entry; tells whether it did.
    fn flush(&mut self, epoch: u64) -> bool {
        let Some(object) = self.core.least() else {
            return false;
        };
        let at = object as usize;
        if at >= self.globals.len() || !self.core.can_evict(&self.globals[at], object) {
            return false;
        }
        self.core.evict(&mut self.globals[at], object, epoch);
        true
    }

    /// Looks at the front of the core's queue; tells whether it was freed.
    fn review(&mut self, epoch: u64) -> bool {
        let Some(front) = self.core.front() else {
            return false;
        };
        let at = front.object as usize;
        if at >= self.globals.len() {
            return false;
        }
        matches!(
            self.core.review(&mut self.globals[at], epoch),
            Review::Freed(_)
        )
    }
}

impl Part for Counts {
    fn round(&mut self, place: u64) -> bool {
        let object = (place % 64) as u32;
        if !self.count(object, 1) || !self.count(object, -1) {
            return false;
        }
        if !self.is_flushed {
            return true;
        }
        self.epoch = self.epoch.wrapping_add(1);
        self.flush(self.epoch) && self.review(self.epoch.saturating_add(2))
    }
}
