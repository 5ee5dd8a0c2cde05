//! Whether moves that are given are an order of a history by the kernels' rule.
ghost use Rattle.std.specs.Prelude.{◌≡◌, Ok, length, true};
ghost use Rattle.audit.specs.Auditor.{plain_of};
ghost use Rattle.audit.specs.Placing.{rule_of};
ghost use Rattle.orders.specs.Orders.{EachOnce};
ghost use Rattle.loose_orders.specs.Kernel.{IsKernelOrder};

use crate::keeping::Use;
use crate::kernel::all_lead;
use crate::moves::{Move, items};
use audit::Auditor;
use orders::{Item, Timed, each_once, keeps_time};
use slot_lock::SlotMap;
use std::alloc::Allocator;
use vm_base::NoMemory;

// Tells whether the items have each call of a history once.
fn has_each<A: Allocator + Clone + Drop>(
    alloc: &A,
    history: &[Timed],
    items: &[Item],
) -> Result<bool, NoMemory>
    ensures { result ≡ Ok true → EachOnce (length history.now) items.now }
{
    let mut marks = vec![in alloc.clone()?; false; history.len()]?;
    Ok(each_once(&mut marks, items))
}

// The access of a move that goes late, and the place of the change.
fn late_to(one: Move) -> Option<(u32, u32)> {
    match one {
        Move::Late { call, place } | Move::LateCopy { call, place } => Some((call, place)),
        Move::Reply(_) | Move::Part { .. } | Move::Copy(_) => None,
    }
}

// Which accesses go as before which calls, sorted: only for them what these calls replace is kept.
fn uses_of<A: Allocator + Clone + Drop>(
    alloc: &A,
    moves: &[Move],
) -> Result<Vec<Use, A>, NoMemory> {
    let mut pairs = Vec::new(alloc.clone()?);
    for at in 0..moves.len() {
        if let Some((by, place)) = late_to(moves[at]) {
            if let Some(change) = moves.get(place as usize) {
                pairs.push((change.call(), by))?;
            }
        }
    }
    pairs.sort_unstable();
    let mut uses = Vec::with_capacity(alloc.clone()?, pairs.len())?;
    for at in 0..pairs.len() {
        let (of, by) = pairs[at];
        uses.push(Use { of, by })?;
    }
    Ok(uses)
}

/// Tells whether the moves are an order of the history's calls by the kernels' rule, from the auditor's plain page map
/// on; with `moving`, threads may move between cores. `false` says nothing: behind `mprotect` a refusal is taken to
/// bind its core though it may have begun before the page was seen new, and no access is followed behind an `mprotect`
/// that was refused. `Err` says that memory was refused. The auditor is used up.
pub fn obey<M: SlotMap, A: Allocator + Clone + Drop>(
    alloc: A,
    auditor: &mut Auditor<M, A>,
    moving: bool,
    history: &[Timed],
    moves: &[Move],
) -> Result<bool, NoMemory>
    ensures { result ≡ Ok true
        → IsKernelOrder (rule_of auditor.old.any_place) moving (plain_of auditor.old) history.now moves.now }
{
    let all = items(&alloc, moves)?;
    let items = all.as_slice();
    let once = has_each(&alloc, history, items)?;
    if !once {
        return Ok(false);
    }
    if !keeps_time(history, items) {
        return Ok(false);
    }
    let made = uses_of(&alloc, moves)?;
    let uses = made.as_slice();
    let goes = all_lead(alloc, auditor, moving, history, uses, moves)?;
    Ok(goes)
}
