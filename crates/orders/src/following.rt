//! Whether an order that is given is one of a history.
ghost use Rattle.std.specs.Prelude.{◌≡◌, Ok, false, true};
ghost use Rattle.audit.specs.Auditor.{plain_of};
ghost use Rattle.audit.specs.Placing.{rule_of};
ghost use Rattle.orders.specs.Orders.{IsOrder};

use crate::history::{Item, Timed};
use crate::leading::lead_all;
use crate::timing::{each_once, keeps_time};
use audit::Auditor;
use slot_lock::SlotMap;
use std::alloc::Allocator;
use vm_base::NoMemory;

/// Tells whether the items are an order of the history's calls, from the auditor's plain page map on: they keep time, each call
/// takes effect once, and each reply is the plain page map's. `false` says that this order is none, and not that there is none.
/// `Err` says that memory was refused. The auditor is used up: its map is where the items led.
pub fn follow<M: SlotMap, A: Allocator + Drop>(
    alloc: A,
    auditor: &mut Auditor<M, A>,
    history: &[Timed],
    items: &[Item],
) -> Result<bool, NoMemory>
    ensures yes { result ≡ Ok true → IsOrder (rule_of auditor.old.any_place) (plain_of auditor.old) history.now items.now }
    ensures no { result ≡ Ok false → ¬ IsOrder (rule_of auditor.old.any_place) (plain_of auditor.old) history.now items.now }
{
    let mut marks = vec![in alloc; false; history.len()]?;
    if !each_once(&mut marks, items) {
        return Ok(false);
    }
    if !keeps_time(history, items) {
        return Ok(false);
    }
    lead_all(auditor, history, items)
}
