//! Pages are changed as a call of one core changes them: it holds their slots, which are cut to the
//! range, and lets them go. There is no other core, so that nothing is held in between.
ghost use Rattle.std.specs.Prelude.{◌≡◌, ◌+◌, ◌<◌, ◌≤◌, OnOk, OnErr};
ghost use Rattle.vm_base.specs.Pages.{IsPage, IsPageRange};
ghost use Rattle.slot_lock.specs.Slots.{IsSlot};
ghost use Rattle.audit.specs.Keeping.{NobodyHolds, HeldFrom};

use slot_lock::{Got, SlotMap};
use vm_base::{CoreId, NoMemory, PageRange};

/// The core that changes all pages.
pub fn only_core() -> CoreId
    ensures { result ≡ 0 }
{
    CoreId::new(0)
}

// Lets slots that begin at `first` and end by `end` go, one after another, as many as the map finds side by side.
fn let_run_go<M: SlotMap>(map: &mut M, first: u64, end: u64) -> u64
    requires some { first < end }
    requires held { HeldFrom (M.slots map.old) first end }
    ensures held { HeldFrom (M.slots map.new) result end }
    ensures info { (M.slots map.new).info ≡ (M.slots map.old).info }
    ensures edges { (M.slots map.new).edge ≡ (M.slots map.old).edge }
    ensures low { first ≤ result }
    ensures high { result ≤ end }
{
    map.unlock_run(only_core(), first, end, u64::MAX).upto
}

/// Lets the pages from `first` up to `end`, which are the only ones that are held, go.
pub fn let_go<M: SlotMap>(map: &mut M, first: u64, end: u64)
    requires held { HeldFrom (M.slots map.old) first end }
    ensures free { NobodyHolds (M.slots map.new) }
    ensures info { (M.slots map.new).info ≡ (M.slots map.old).info }
    ensures edges { (M.slots map.new).edge ≡ (M.slots map.old).edge }
{
    let mut cursor = first;
    'slots: while cursor < end {
        let next = let_run_go(map, cursor, end);
        cursor = if next < end {
            map.unlock_next(only_core(), next, end)
        } else {
            next
        };
    }
}

// Holds free slots of the range, one after another from the cursor on, as many as the map finds side by side.
fn hold_run<M: SlotMap>(map: &mut M, range: PageRange, cursor: u64) -> u64
    requires range { IsPageRange range }
    requires some { (range.first ≤ cursor) × (cursor < range.end) }
    requires held { HeldFrom (M.slots map.old) range.first cursor }
    ensures held { HeldFrom (M.slots map.new) range.first result }
    ensures info { (M.slots map.new).info ≡ (M.slots map.old).info }
    ensures edges { (M.slots map.new).edge ≡ (M.slots map.old).edge }
    ensures low { cursor ≤ result }
    ensures high { result ≤ range.end }
{
    map.lock_run(only_core(), cursor, range.end, u64::MAX).upto
}

/// Holds the pages of the range, and cuts slots at its edges. A refusal for memory leaves every page
/// as it was, and none held.
pub fn hold<M: SlotMap>(map: &mut M, range: PageRange) -> Result<(), NoMemory>
    requires range { IsPageRange range }
    requires free { NobodyHolds (M.slots map.old) }
    ensures held { OnOk result (HeldFrom (M.slots map.new) range.first range.end) }
    ensures info { (M.slots map.new).info ≡ (M.slots map.old).info }
    ensures err { OnErr result (NobodyHolds (M.slots map.new)) }
{
    let mut cursor = range.first;
    'slots: while cursor < range.end {
        cursor = hold_run(map, range, cursor);
        if cursor == range.end {
            return Ok(());
        }
        match map.lock_next(only_core(), cursor, range.end) {
            Ok(Got::Locked(upto)) => cursor = upto,
            Ok(Got::Split) => {}
            Ok(Got::Held(_)) => unreachable!(),
            Err(no_memory) => {
                let_go(map, range.first, cursor);
                return Err(no_memory);
            }
        }
    }
    Ok(())
}

/// Makes the page a slot of its own. A refusal for memory leaves every page as it was.
pub fn set_apart<M: SlotMap>(map: &mut M, page: u64) -> Result<(), NoMemory>
    requires page { IsPage page }
    requires free { NobodyHolds (M.slots map.old) }
    ensures ok { OnOk result (IsSlot (M.slots map.new) page (page + 1)) }
    ensures info { (M.slots map.new).info ≡ (M.slots map.old).info }
    ensures free { NobodyHolds (M.slots map.new) }
{
    if map.free_page(page).is_some() {
        return Ok(());
    }
    let range = PageRange {
        first: page,
        end: page + 1,
    };
    hold(map, range)?;
    let_go(map, range.first, range.end);
    Ok(())
}
