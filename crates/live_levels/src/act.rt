//! One change of what a slot's pages have, and what they have after it: the entries of a slot's
//! history.
ghost use Rattle.std.specs.Prelude.{◌≡◌, ◌↔◌, ◌≤◌, ◌^◌, IsTrue};
ghost use Rattle.live_levels.specs.Replay.{after};
ghost use Rattle.live_levels.specs.Slots.{Suits};

use vm_base::{Back, CoreId, CoreSet, Meta, PageInfo, Prot};

/// What a step does to a slot's pages. A slot that is unmapped stays so except for `Put`.
#[derive(Clone, Copy)]
pub enum Act {
    /// The pages are mapped anew, the first as said, without frames and without recorded cores.
    Put(Meta),
    /// The pages are unmapped.
    Clear,
    /// The protection changes, and no core is recorded any more.
    Protect(Prot),
    /// The page gets this frame.
    Frame(u32),
    /// The page gets this frame with a copy of its bytes, and no core is recorded any more.
    Copy(u32),
    /// The core is recorded.
    Record(CoreId),
}

/// A change of a slot, under the ticket of its step.
#[derive(Clone, Copy)]
pub struct SlotChange {
    pub ticket: u64,
    pub act: Act,
}

/// What a slot's first page has after the act.
pub fn after(info: Option<PageInfo>, act: &Act) -> Option<PageInfo>
    ensures { result ≡ after info act.now }
{
    if let Act::Put(meta) = act {
        return Some(PageInfo::unused(*meta));
    }
    let Some(info) = info else {
        return None;
    };
    match act {
        Act::Put(_) | Act::Clear => None,
        Act::Protect(prot) => Some(PageInfo {
            meta: Meta {
                prot: *prot,
                ..info.meta
            },
            cores: CoreSet::empty(),
            ..info
        }),
        Act::Frame(frame) => Some(PageInfo {
            frame: Some(*frame),
            ..info
        }),
        Act::Copy(frame) => Some(PageInfo {
            frame: Some(*frame),
            cores: CoreSet::empty(),
            ..info
        }),
        Act::Record(core) => Some(PageInfo {
            cores: info.cores.with(*core),
            ..info
        }),
    }
}

/// Tells whether the act can be done to a slot of this many pages.
pub fn suits(act: &Act, count: u64) -> bool
    ensures { IsTrue result ↔ Suits act.now count }
{
    match act {
        Act::Put(meta) => match meta.back {
            Back::Anon => count <= 1 << 36,
            Back::Shared { page, .. } | Back::Private { page, .. } => {
                count <= 1 << 36 && page <= (1 << 36) - count
            }
        },
        Act::Clear | Act::Protect(_) => true,
        Act::Frame(_) | Act::Copy(_) | Act::Record(_) => count == 1,
    }
}
