//! What the rule that kernels keep says of calls that have no order at one moment.
ghost use Rattle.std.specs.Prelude.{◌≡◌, ◌≤◌, IfErr, IfOk, length};
ghost use Rattle.trace_io.specs.Lines.{lines_of};
ghost use Rattle.slot_lock.specs.Slots.{IsNew};
ghost use Rattle.orders_text.specs.Faults.{IsAtFault};
ghost use Rattle.orders_text.specs.Steps.{HasPlaces, read_of};
ghost use Rattle.loosely.specs.Besides.{Holds, IsFound, besides_text};

use crate::kernel::{is_order, search_history};
use orders_text::{History, HistoryFault, read_history};
use slot_lock::SlotMap;
use std::alloc::Allocator;
use trace_io::IoFault;
use vm_base::NoMemory;

/// By which rule calls are legal that have no order at one moment.
#[derive(Clone, Copy)]
pub enum Besides {
    /// By none that was found.
    Nothing,
    /// By the rule that kernels keep.
    Kernel,
    /// By it, if threads may move between cores.
    Moving,
}

impl Besides {
    /// The line that tells it.
    pub fn text(self) -> &'static str
        ensures { result.now ≡ besides_text self }
    {
        match self {
            Besides::Nothing => "",
            Besides::Kernel => "legal by --kernel\n",
            Besides::Moving => "legal by --kernel --moving: did threads move?\n",
        }
    }
}

// By which rule that kernels keep a history's calls have an order that was found and checked.
#[tactic(auto, using(crate::proofs::BesidesLemmas::kernel_found, crate::proofs::BesidesLemmas::moving_found, crate::proofs::BesidesLemmas::nothing_found))]
fn found_by<M: SlotMap + Drop, A: Allocator + Clone + Drop>(
    alloc: &A,
    map: M,
    other: M,
    history: &History<A>,
    any_place: bool,
) -> Result<Besides, NoMemory>
    requires new { IsNew (M.slots map) }
    requires other { IsNew (M.slots other) }
    requires few { length history.now.declaration.files.items ≤ 16 }
    requires places { HasPlaces history.now }
    ensures { IfOk result (λ besides. IsFound any_place (read_of history.now) besides) }
{
    let tried = search_history(alloc, history, any_place)?;
    let calls = tried.calls.as_slice();
    let moves = tried.moves.as_slice();
    let files = history.declaration.files.as_slice();
    let stays = is_order(alloc, map, files, any_place, false, calls, moves)?;
    if stays {
        return Ok(Besides::Kernel);
    }
    let moves_between = is_order(alloc, other, files, any_place, true, calls, moves)?;
    if moves_between {
        return Ok(Besides::Moving);
    }
    Ok(Besides::Nothing)
}

/// By which rule that kernels keep the calls of a text have an order that was found and checked; or why the text is
/// that of no history. Neither map has anything mapped.
#[tactic(auto, using(crate::proofs::BesidesLemmas::holds_there))]
pub fn besides_of<M: SlotMap + Drop, A: Allocator + Clone + Drop>(
    alloc: &A,
    map: M,
    other: M,
    text: &[u8],
    any_place: bool,
) -> Result<Besides, HistoryFault>
    requires new { IsNew (M.slots map) }
    requires other { IsNew (M.slots other) }
    ensures ok { IfOk result (λ besides. Holds any_place (lines_of text.now) besides) }
    ensures err { IfErr result (λ f. IsAtFault (lines_of text.now) f) }
{
    let history = match read_history(alloc, text) {
        Ok(history) => history,
        Err(fault) => return Err(fault),
    };
    match found_by(alloc, map, other, &history, any_place) {
        Ok(besides) => Ok(besides),
        Err(_) => Err(HistoryFault::Io(IoFault::NoMemory)),
    }
}
