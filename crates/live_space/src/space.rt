//! The space that threads share: what lies under its locks, and how it is lent to a step.
ghost use Rattle.std.specs.Prelude.{◌≡◌, length};
ghost use Rattle.live_space.specs.Space.{LiveView};

use crossbeam_utils::CachePadded;
use frames::Objects;
use live_pages::free_frames::FreeFrames;
use live_pages::pieces::{CoreState, FilePage, FrameState, Pieces};
use live_tree::tree::SharedTree;
use refcache::Epochs;
use std::alloc::Allocator;
use std::marker::Model;
use std::sync::Mutex;

/// One address space that threads share: the tree of slots, and what lies under the locks of file
/// pages, cores, the free frames, frames and the epoch. The bytes of its files never change. A clause sees the tree's
/// word, from which tickets are drawn and which names the space, how many cores and frames there are,
/// the files, and how many calls each seat may begin.
#[derive(Drop)]
pub struct Live<A: Allocator + Clone> {
    pub(crate) tree: SharedTree<A>,
    pub(crate) objects: Objects<A>,
    pub(crate) pages: Vec<Vec<Mutex<FilePage>, A>, A>,
    pub(crate) cores: Vec<CachePadded<Mutex<CoreState<A>>>, A>,
    pub(crate) free: CachePadded<Mutex<FreeFrames<A>>>,
    pub(crate) frames: Vec<Mutex<FrameState<A>>, A>,
    pub(crate) epochs: CachePadded<Mutex<Epochs>>,
    pub(crate) share: u64,
}

impl<A: Allocator + Clone> Model for Live<A> {
    ghost use Rattle.std.specs.Prelude.{length};
    ghost use Rattle.std.specs.Arc.{arc_value};
    ghost use Rattle.live_space.specs.Space.{LiveView};

    ghost Value = { LiveView };

    ghost view = { λ l. record {
      word = arc_value l.tree.tickets;
      cores = length l.cores.items;
      frames = length l.frames.items;
      files = l.objects;
      share = l.share;
    } };
}

impl<A: Allocator + Clone> Live<A> {
    /// How many cores there are.
    pub fn cores(&self) -> usize
        ensures { result ≡ self.now.cores }
    {
        self.cores.len()
    }

    /// How many frames there are.
    pub fn frames(&self) -> usize
        ensures { result ≡ self.now.frames }
    {
        self.frames.len()
    }

    /// The pieces, as they are lent to a step.
    pub(crate) fn pieces(&self) -> Pieces<'_, A>
        ensures files { result.objects.now ≡ self.now.files }
        ensures cores { length result.cores.now ≡ self.now.cores }
        ensures frames { length result.frames.now ≡ self.now.frames }
    {
        Pieces {
            alloc: self.tree.alloc(),
            objects: &self.objects,
            pages: self.pages.as_slice(),
            cores: self.cores.as_slice(),
            free: &self.free,
            frames: self.frames.as_slice(),
            epochs: &self.epochs,
        }
    }

    /// How many calls each seat may begin.
    pub fn share(&self) -> u64
        ensures { result ≡ self.now.share }
    {
        self.share
    }
}
