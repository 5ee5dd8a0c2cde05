//! Judging a text of calls that overlap by the rule that kernels keep.
ghost use Rattle.std.specs.Prelude.{◌≡◌, ◌≤◌, Bool as BoolType, IfErr, IfOk, IfSome, Ok, length, slice_get, true};
ghost use Rattle.trace_io.specs.Lines.{lines_of};
ghost use Rattle.slot_lock.specs.Slots.{IsNew};
ghost use Rattle.vm_base.specs.Plain.{nothing_mapped};
ghost use Rattle.frames.specs.Given.{given_files};
ghost use Rattle.audit.specs.Placing.{rule_of};
ghost use Rattle.orders_text.specs.Faults.{IsAtFault};
ghost use Rattle.orders_text.specs.History.{IsHistory, completed, replies_in};
ghost use Rattle.orders_text.specs.Steps.{HasPlaces, read_of};
ghost use Rattle.loose_orders.specs.Kernel.{HasKernelOrder};
ghost use Rattle.loosely.specs.Kernel.{IsCoreByKernel, IsExplainedByKernel, IsTold};
ghost use Rattle.loosely.specs.Rulings.{IsRuling};

use crate::waiting::{effects, none_waits};
use audit::Auditor;
use core_text::core_text;
use cores::{Core, find_core};
use frames::{FileSpec, Objects};
use loose_orders::{Move, none_is_part, obey, taken};
use no_order::files_again;
use order_search::{Found, Kernel, find_by_kernel};
use orders::{Item, Timed};
use orders_text::{History, HistoryFault, completed, read_history};
use overlapping::{Ruled, Ruling, Told, bare};
use slot_lock::SlotMap;
use std::alloc::Allocator;
use trace_io::IoFault;
use vm_base::{NoMemory, Reply, Request, page_of};

/// No call, and no place.
const NONE: u32 = 0xffff_ffff;

/// No count.
const UNCHANGED: u64 = u64::MAX;

// The calls of a history, the replies of those that wait at its end, and what a search finds of them: moves, or that
// none gets to the end of a call.
#[derive(Drop)]
pub(crate) struct Tried<A: Allocator> {
    pub replies: Vec<Reply, A>,
    pub calls: Vec<Timed, A>,
    pub moves: Vec<Move, A>,
    pub is_found: bool,
    pub stuck: usize,
}

// A place as a number.
fn numbered(at: usize) -> u32 {
    if at < 0xffff_ffff { at as u32 } else { NONE }
}

// Where each call takes effect.
fn places_of<A: Allocator + Clone + Drop>(
    alloc: &A,
    items: &[Item],
    count: usize,
) -> Result<Vec<u32, A>, NoMemory> {
    let mut places = vec![in alloc.clone()?; NONE; count]?;
    for at in 0..items.len() {
        if let Item::Reply(call) = items[at] {
            if let Some(place) = places.get_mut(call as usize) {
                *place = numbered(at);
            }
        }
    }
    Ok(places)
}

// Before which call each access goes.
fn lags_of<A: Allocator + Clone + Drop>(
    alloc: &A,
    kernel: &Kernel<A>,
    count: usize,
) -> Result<Vec<u32, A>, NoMemory> {
    let mut behind = vec![in alloc.clone()?; NONE; count]?;
    for lag in kernel.lags.as_slice() {
        if let Some(one) = behind.get_mut(lag.access as usize) {
            *one = lag.behind;
        }
    }
    Ok(behind)
}

// How many pages each refused call has changed.
fn fronts_of<A: Allocator + Clone + Drop>(
    alloc: &A,
    kernel: &Kernel<A>,
    count: usize,
) -> Result<Vec<u64, A>, NoMemory> {
    let mut counts = vec![in alloc.clone()?; UNCHANGED; count]?;
    for front in kernel.fronts.as_slice() {
        if let Some(one) = counts.get_mut(front.call as usize) {
            *one = front.count;
        }
    }
    Ok(counts)
}

// The first page of an `mprotect`.
fn first_page(calls: &[Timed], call: u32) -> u64 {
    match calls.get(call as usize) {
        Some(timed) => match timed.call.request {
            Request::Mprotect { addr, .. } => page_of(addr),
            _ => 0,
        },
        None => 0,
    }
}

// The move of an item, where these are the places of all calls, what accesses go before, and how much refused calls
// have changed.
fn move_of(item: Item, calls: &[Timed], places: &[u32], behind: &[u32], counts: &[u64]) -> Move {
    let Item::Reply(call) = item else {
        return Move::Copy(item.call());
    };
    let lag = behind.get(call as usize).copied().unwrap_or(NONE);
    if lag != NONE {
        let place = places.get(lag as usize).copied().unwrap_or(NONE);
        return Move::Late { call, place };
    }
    let count = counts.get(call as usize).copied().unwrap_or(UNCHANGED);
    if count != UNCHANGED {
        let page = first_page(calls, call).saturating_add(count);
        return Move::Part { call, count, page };
    }
    Move::Reply(call)
}

// The moves of items.
fn moves_of<A: Allocator + Clone + Drop>(
    alloc: &A,
    items: &[Item],
    kernel: &Kernel<A>,
    calls: &[Timed],
) -> Result<Vec<Move, A>, NoMemory> {
    let places = places_of(alloc, items, calls.len())?;
    let behind = lags_of(alloc, kernel, calls.len())?;
    let counts = fronts_of(alloc, kernel, calls.len())?;
    let mut moves = Vec::with_capacity(alloc.clone()?, items.len())?;
    for at in 0..items.len() {
        let one = move_of(
            items[at],
            calls,
            places.as_slice(),
            behind.as_slice(),
            counts.as_slice(),
        );
        moves.push(one)?;
    }
    Ok(moves)
}

// What a search finds of calls: moves, and whether it found some; else the call to whose end it didn't get.
fn sought<A: Allocator + Clone + Drop>(
    alloc: &A,
    files: &[FileSpec<A>],
    any_place: bool,
    calls: &[Timed],
) -> Result<(Vec<Move, A>, bool, usize), NoMemory>
    requires { length files.now ≤ 16 }
{
    let again = files_again(alloc, files)?;
    let objects = Objects::new(alloc.clone()?, again)?;
    let mut kernel = Kernel::new(alloc)?;
    match find_by_kernel(alloc, &objects, any_place, calls, &mut kernel)? {
        Found::Order(items, _cores) => {
            let moves = moves_of(alloc, items.as_slice(), &kernel, calls)?;
            Ok((moves, true, 0))
        }
        Found::Stuck(call) | Found::Full(call) => Ok((Vec::new(alloc.clone()?), false, call)),
    }
}

// Searches an order of a history's calls, where those that wait take effect, or don't.
fn try_with<A: Allocator + Clone + Drop>(
    alloc: &A,
    history: &History<A>,
    any_place: bool,
    take_effect: bool,
) -> Result<Tried<A>, NoMemory>
    requires few { length history.now.declaration.files.items ≤ 16 }
    requires places { HasPlaces history.now }
    ensures { IfOk result (λ tried. tried.calls.items ≡ completed (replies_in tried.replies.items) (read_of history.now)) }
{
    let replies = effects(alloc, history.waiting.as_slice(), take_effect)?;
    let calls = completed(alloc, history, replies.as_slice())?;
    let files = history.declaration.files.as_slice();
    let (moves, is_found, stuck) = sought(alloc, files, any_place, calls.as_slice())?;
    Ok(Tried {
        replies,
        calls,
        moves,
        is_found,
        stuck,
    })
}

// Searches an order of a history's calls.
pub(crate) fn search_history<A: Allocator + Clone + Drop>(
    alloc: &A,
    history: &History<A>,
    any_place: bool,
) -> Result<Tried<A>, NoMemory>
    requires few { length history.now.declaration.files.items ≤ 16 }
    requires places { HasPlaces history.now }
    ensures { IfOk result (λ tried. tried.calls.items ≡ completed (replies_in tried.replies.items) (read_of history.now)) }
{
    let tried = try_with(alloc, history, any_place, true)?;
    if tried.is_found || none_waits(history.waiting.as_slice()) {
        return Ok(tried);
    }
    let other = try_with(alloc, history, any_place, false)?;
    Ok(other)
}

// Tells whether the moves are an order by the kernels' rule of these calls of a space with these files.
pub(crate) fn is_order<M: SlotMap + Drop, A: Allocator + Clone + Drop>(
    alloc: &A,
    map: M,
    files: &[FileSpec<A>],
    any_place: bool,
    moving: bool,
    calls: &[Timed],
    moves: &[Move],
) -> Result<bool, NoMemory>
    requires new { IsNew (M.slots map) }
    requires few { length files.now ≤ 16 }
    ensures { result ≡ Ok true
        → HasKernelOrder (rule_of any_place) moving (nothing_mapped (given_files files.now)) calls.now }
{
    let again = files_again(alloc, files)?;
    let mut auditor = Auditor::new(alloc.clone()?, map, again, any_place)?;
    obey(alloc.clone()?, &mut auditor, moving, calls, moves)
}

// A few calls that have no order at one moment though none of them may be late, if such are found among the calls of a
// history. None was found until the end of this one.
fn core_without_late<A: Allocator + Clone + Drop>(
    alloc: &A,
    any_place: bool,
    calls: &[Timed],
    stuck: usize,
) -> Result<Option<Core<A>>, NoMemory>
    ensures { IfOk result (λ found. IfSome found (λ core. IsCoreByKernel any_place calls.now core)) }
{
    if !none_is_part(calls) {
        return Ok(None);
    }
    match taken(alloc, calls, stuck)? {
        Some(left) => {
            let core = find_core(alloc, any_place, left.as_slice(), stuck)?;
            Ok(core)
        }
        None => Ok(None),
    }
}

// The line of the call at this place of a history, if there is one.
fn line_at(lines: &[u64], place: usize) -> Option<u64>
    ensures { result ≡ slice_get lines.now place }
{
    lines.get(place).copied()
}

// The call of a history at this place, if there is one.
fn call_at(calls: &[Timed], place: usize) -> Option<Timed>
    ensures { result ≡ slice_get calls.now place }
{
    calls.get(place).copied()
}

// What is told of a history of which no order was found until the end of the call at this place: that there is none
// where that is shown.
#[tactic(auto, using(crate::proofs::KernelLemmas::undecided_told))]
fn rule_without<A: Allocator + Clone + Drop>(
    alloc: &A,
    text: &[u8],
    history: &History<A>,
    any_place: bool,
    place: usize,
) -> Result<Told<A>, NoMemory>
    ensures { (moving : BoolType) → IfOk result (IsTold any_place moving (lines_of text.now) (read_of history.now)) }
{
    let lines = history.lines.as_slice();
    let Some(line) = line_at(lines, place) else {
        return bare(alloc, Ruling::Undecided(0));
    };
    let Some(timed) = call_at(history.calls.as_slice(), place) else {
        return bare(alloc, Ruling::Undecided(line));
    };
    let reply = timed.call.reply;
    if !none_waits(history.waiting.as_slice()) {
        return bare(alloc, Ruling::Undecided(line));
    }
    match core_without_late(alloc, any_place, history.calls.as_slice(), place)? {
        None => bare(alloc, Ruling::Undecided(line)),
        Some(core) => {
            // (so it is: calls are looked at until then)
            if core.cut != timed.end {
                return bare(alloc, Ruling::Undecided(line));
            }
            let explanation = core_text(alloc, text, lines, &core)?;
            let ruling = Ruling::NoOrder { line, reply };
            Ok(Told {
                ruling,
                explanation,
            })
        }
    }
}

// What is told of a history: that it is legal where the order that was found is checked; that it has no order where
// that is shown; and else that it is undecided.
#[tactic(auto, using(crate::proofs::KernelLemmas::legal_told))]
fn rule<M: SlotMap + Drop, A: Allocator + Clone + Drop>(
    alloc: &A,
    map: M,
    text: &[u8],
    history: &History<A>,
    any_place: bool,
    moving: bool,
) -> Result<Told<A>, NoMemory>
    requires new { IsNew (M.slots map) }
    requires few { length history.now.declaration.files.items ≤ 16 }
    requires places { HasPlaces history.now }
    ensures { IfOk result (IsTold any_place moving (lines_of text.now) (read_of history.now)) }
{
    let tried = search_history(alloc, history, any_place)?;
    let calls = tried.calls.as_slice();
    let files = history.declaration.files.as_slice();
    let is_one = is_order(
        alloc,
        map,
        files,
        any_place,
        moving,
        calls,
        tried.moves.as_slice(),
    )?;
    if is_one {
        return bare(alloc, Ruling::Legal(history.calls.len() as u64));
    }
    let last = history.calls.len().saturating_sub(1);
    let place = if tried.is_found {
        last
    } else {
        tried.stuck.min(last)
    };
    rule_without(alloc, text, history, any_place, place)
}

// The same, beside which no order stands.
fn ruled<M: SlotMap + Drop, A: Allocator + Clone + Drop>(
    alloc: &A,
    map: M,
    text: &[u8],
    history: &History<A>,
    any_place: bool,
    moving: bool,
) -> Result<Ruled<A>, NoMemory>
    requires new { IsNew (M.slots map) }
    requires few { length history.now.declaration.files.items ≤ 16 }
    requires places { HasPlaces history.now }
    requires text { IsHistory (lines_of text.now) (read_of history.now) }
    ensures ruling { IfOk result (λ ruled. IsRuling (HasKernelOrder
        (rule_of any_place) moving) (lines_of text.now) ruled.ruling) }
    ensures explained { IfOk result (λ ruled. IsExplainedByKernel any_place
        (lines_of text.now) ruled.ruling ruled.explanation.items) }
{
    let told = rule(alloc, map, text, history, any_place, moving)?;
    let order = Vec::new(alloc.clone()?);
    Ok(Ruled {
        ruling: told.ruling,
        order,
        explanation: told.explanation,
    })
}

/// Judges a text by the rule that kernels keep: it is that of a history, whose calls have an order by it, or have none,
/// or of which none was found; or it isn't, and why. Beside the ruling that there is none stands what explains it.
pub fn judge_by_rule<M: SlotMap + Drop, A: Allocator + Clone + Drop>(
    alloc: &A,
    map: M,
    text: &[u8],
    any_place: bool,
    moving: bool,
) -> Result<Ruled<A>, HistoryFault>
    requires new { IsNew (M.slots map) }
    ensures ok { IfOk result (λ ruled. IsRuling (HasKernelOrder
        (rule_of any_place) moving) (lines_of text.now) ruled.ruling) }
    ensures explained { IfOk result (λ ruled. IsExplainedByKernel any_place
        (lines_of text.now) ruled.ruling ruled.explanation.items) }
    ensures err { IfErr result (λ f. IsAtFault (lines_of text.now) f) }
{
    let history = match read_history(alloc, text) {
        Ok(history) => history,
        Err(fault) => return Err(fault),
    };
    match ruled(alloc, map, text, &history, any_place, moving) {
        Ok(ruled) => Ok(ruled),
        Err(_) => Err(HistoryFault::Io(IoFault::NoMemory)),
    }
}
