//! Judging a text of calls that overlap.
ghost use Rattle.std.specs.Prelude.{◌≡◌, ◌≤◌, ◌⊎◌, ℕ, List, [], IfErr, IfOk, IfSome, Ok, Some, length, slice_get, true};
ghost use Rattle.trace_io.specs.Lines.{lines_of};
ghost use Rattle.slot_lock.specs.Slots.{IsNew};
ghost use Rattle.vm_base.specs.Plain.{nothing_mapped};
ghost use Rattle.frames.specs.Given.{given_files};
ghost use Rattle.audit.specs.Placing.{rule_of};
ghost use Rattle.audit_text.specs.Legal.{first_map};
ghost use Rattle.orders.specs.Orders.{HasOrder, IsOrder};
ghost use Rattle.orders_text.specs.Faults.{IsAtFault};
ghost use Rattle.orders_text.specs.History.{IsHistory, completed, replies_in};
ghost use Rattle.orders_text.specs.Steps.{HasPlaces, read_of};
ghost use Rattle.overlapping.specs.Rulings.{HasNone, IsRuling};
ghost use Rattle.overlapping.specs.Explained.{IsDisorder, IsExplained, IsTold, IsWhole, IsWholeOrLong, ShowsNone};

use crate::found::{Order, search, waiting_core};
use crate::given::given_order;
use crate::order_text::order_text;
use crate::story::story;
use audit::Auditor;
use core_text::core_text;
use cores::{Core, find_core};
use frames::FileSpec;
use no_order::{Answer, search_all};
use orders::{Item, Timed, follow};
use orders_text::{History, HistoryFault, completed, read_history};
use slot_lock::SlotMap;
use std::alloc::Allocator;
use trace_io::IoFault;
use vm_base::{NoMemory, Reply};

/// So many beginnings of orders are tried at most.
const BEGINNINGS: u32 = 10_000;

/// So many lines are told at most of a history that has no order as a whole.
const FEW: usize = 12;

/// What is told of a history.
#[derive(Clone, Copy)]
pub enum Ruling {
    /// The calls that were answered, which are this many, have an order, with those that wait at the end as far as they took effect.
    Legal(u64),
    /// They have none. An order of the calls by the end of this line's was not found, whose reply this is.
    NoOrder { line: u64, reply: Reply },
    /// No order of its calls was found by the end of the call of this line. It may have one.
    Undecided(u64),
}

/// How an order is come by.
#[derive(Clone, Copy)]
pub enum By<'a> {
    /// It is searched.
    Search,
    /// This text has it.
    Given(&'a [u8]),
}

/// A ruling, the text of the order that it rests on, and lines that explain it.
#[derive(Drop)]
pub struct Ruled<A: Allocator> {
    pub ruling: Ruling,
    pub order: Vec<u8, A>,
    pub explanation: Vec<u8, A>,
}

// Tells whether the items are an order of these calls of a space with these files.
fn judge<M: SlotMap + Drop, A: Allocator + Clone + Drop>(
    alloc: &A,
    map: M,
    files: Vec<FileSpec<A>, A>,
    any_place: bool,
    calls: &[Timed],
    items: &[Item],
) -> Result<bool, NoMemory>
    requires new { IsNew (M.slots map) }
    requires few { length files.items ≤ 16 }
    ensures { result ≡ Ok true
        → IsOrder (rule_of any_place) (nothing_mapped (given_files files.items)) calls.now items.now }
{
    let mut auditor = Auditor::new(alloc.clone()?, map, files, any_place)?;
    follow(alloc.clone()?, &mut auditor, calls, items)
}

/// Tells whether the items are an order of the history's calls, and of those that wait at its end with these replies.
#[tactic(auto, using(crate::proofs::RuleLemmas::order_there, crate::proofs::RuleLemmas::order_of_all))]
pub(crate) fn is_order<M: SlotMap + Drop, A: Allocator + Clone + Drop>(
    alloc: &A,
    map: M,
    history: History<A>,
    any_place: bool,
    items: &[Item],
    replies: &[Reply],
) -> Result<bool, NoMemory>
    requires new { IsNew (M.slots map) }
    requires few { length history.declaration.files.items ≤ 16 }
    requires places { HasPlaces history }
    ensures { result ≡ Ok true → HasOrder (rule_of any_place) (first_map (read_of history).declared)
        (completed (replies_in replies.now) (read_of history)) }
{
    match waiting_core(history.waiting.as_slice()) {
        Some(_core) => {
            let calls = completed(alloc, &history, replies)?;
            let files = history.declaration.files;
            judge(alloc, map, files, any_place, calls.as_slice(), items)
        }
        // then they aren't copied, which would be much
        None => {
            let files = history.declaration.files;
            let calls = history.calls;
            judge(alloc, map, files, any_place, calls.as_slice(), items)
        }
    }
}

// The place of a line among those of a history's calls.
fn place_of(lines: &[u64], line: u64) -> Option<usize>
    ensures { IfSome result (λ place. slice_get lines.now place ≡ Some line) }
{
    'lines: for at in 0..lines.len() {
        let other = lines[at];
        if other == line {
            return Some(at);
        }
    }
    None
}

// The call of a history at this place, if there is one.
fn call_at(calls: &[Timed], place: usize) -> Option<Timed>
    ensures { result ≡ slice_get calls.now place }
{
    calls.get(place).copied()
}

// Tells whether it was shown by all orders of these calls of a space with these files that they have none.
fn lacks_all<A: Allocator + Clone + Drop>(
    alloc: &A,
    files: &[FileSpec<A>],
    any_place: bool,
    calls: &[Timed],
) -> Result<bool, NoMemory>
    requires { length files.now ≤ 16 }
    ensures { result ≡ Ok true → ¬ HasOrder (rule_of any_place) (nothing_mapped (given_files files.now)) calls.now }
{
    match search_all(alloc, files, any_place, calls, BEGINNINGS)? {
        Answer::NoOrder => Ok(true),
        Answer::Order | Answer::Limit => Ok(false),
    }
}

/// By what it was shown that calls have no order.
#[derive(Drop)]
pub enum Shown<A: Allocator> {
    Nothing,
    All,
    Few(Core<A>),
}

// Shows by some of these calls of a space with these files, or by all orders of them, that they have none. None was found until the end
// of this one.
fn show_none<A: Allocator + Clone + Drop>(
    alloc: &A,
    files: &[FileSpec<A>],
    any_place: bool,
    calls: &[Timed],
    stuck: usize,
) -> Result<Shown<A>, NoMemory>
    requires { length files.now ≤ 16 }
    ensures { IfOk result (λ shown. ShowsNone any_place (given_files files.now) calls.now shown) }
{
    if let Some(core) = find_core(alloc, any_place, calls, stuck)? {
        return Ok(Shown::Few(core));
    }
    let none = lacks_all(alloc, files, any_place, calls)?;
    if none {
        return Ok(Shown::All);
    }
    Ok(Shown::Nothing)
}

// Shows that the calls of a history have none, with whatever replies of those that wait at its end. None was found until the end of
// this one.
fn show_disorder<A: Allocator + Clone + Drop>(
    alloc: &A,
    history: &History<A>,
    any_place: bool,
    stuck: usize,
) -> Result<Shown<A>, NoMemory>
    requires { length history.now.declaration.files.items ≤ 16 }
    ensures { IfOk result (λ shown. IsDisorder any_place (read_of history.now) shown) }
{
    match waiting_core(history.waiting.as_slice()) {
        Some(_core) => Ok(Shown::Nothing),
        None => {
            let files = history.declaration.files.as_slice();
            let calls = history.calls.as_slice();
            let shown = show_none(alloc, files, any_place, calls, stuck)?;
            Ok(shown)
        }
    }
}

/// A ruling, and what explains it: nothing, or the lines of some calls that have no order by themselves.
#[derive(Drop)]
pub struct Told<A: Allocator> {
    pub ruling: Ruling,
    pub explanation: Vec<u8, A>,
}

/// A ruling that nothing explains.
pub fn bare<A: Allocator + Clone + Drop>(alloc: &A, ruling: Ruling) -> Result<Told<A>, NoMemory>
    ensures { IfOk result (λ told. (told.ruling ≡ ruling) × (told.explanation.items ≡ [])) }
{
    let explanation = Vec::new(alloc.clone()?);
    Ok(Told {
        ruling,
        explanation,
    })
}

// What explains that a history has no order as a whole: its mappings and its lines, or nothing, where these are more than 12.
#[tactic(auto, using(crate::proofs::RuleLemmas::whole_there, crate::proofs::RuleLemmas::long_there))]
fn whole_text<A: Allocator + Clone + Drop>(
    alloc: &A,
    text: &[u8],
    history: &History<A>,
    any_place: bool,
) -> Result<Vec<u8, A>, NoMemory>
    requires { length history.now.declaration.files.items ≤ 16 }
    ensures { IfOk result (λ told. IsWholeOrLong any_place (lines_of text.now) (read_of history.now) told.items) }
{
    let files = history.declaration.files.as_slice();
    let calls = history.calls.as_slice();
    let numbers = history.lines.as_slice();
    match story(alloc, files, any_place, text, calls, numbers, FEW)? {
        Some(explanation) => Ok(explanation),
        None => Ok(Vec::new(alloc.clone()?)),
    }
}

/// The same for other rules: its mappings and its lines, or nothing, where these aren't few.
#[tactic(auto, using(crate::proofs::RuleLemmas::whole_or_nothing))]
pub fn explain_whole<A: Allocator + Clone + Drop>(
    alloc: &A,
    text: &[u8],
    history: &History<A>,
    any_place: bool,
) -> Result<Vec<u8, A>, NoMemory>
    requires { length history.now.declaration.files.items ≤ 16 }
    ensures { IfOk result (λ told.
        (told.items ≡ []) ⊎ IsWhole any_place (lines_of text.now) (read_of history.now) told.items) }
{
    let told = whole_text(alloc, text, history, any_place)?;
    Ok(told)
}

// The ruling where no order was found by the end of this line's call.
#[tactic(auto, using(crate::proofs::RuleLemmas::undecided_bare, crate::proofs::RuleLemmas::unordered_whole, crate::proofs::RuleLemmas::unordered_by))]
fn rule_without<A: Allocator + Clone + Drop>(
    alloc: &A,
    text: &[u8],
    history: &History<A>,
    any_place: bool,
    line: u64,
) -> Result<Told<A>, NoMemory>
    requires { length history.now.declaration.files.items ≤ 16 }
    ensures { IfOk result (λ told. IsTold any_place (lines_of text.now) (read_of history.now) told) }
{
    let Some(place) = place_of(history.lines.as_slice(), line) else {
        return bare(alloc, Ruling::Undecided(line));
    };
    let Some(timed) = call_at(history.calls.as_slice(), place) else {
        return bare(alloc, Ruling::Undecided(line));
    };
    let reply = timed.call.reply;
    match show_disorder(alloc, history, any_place, place)? {
        Shown::Nothing => bare(alloc, Ruling::Undecided(line)),
        Shown::All => {
            let explanation = whole_text(alloc, text, history, any_place)?;
            Ok(Told {
                ruling: Ruling::NoOrder { line, reply },
                explanation,
            })
        }
        Shown::Few(core) => {
            // (so it is: calls are looked at until then)
            if core.cut != timed.end {
                return bare(alloc, Ruling::Undecided(line));
            }
            let explanation = core_text(alloc, text, history.lines.as_slice(), &core)?;
            Ok(Told {
                ruling: Ruling::NoOrder { line, reply },
                explanation,
            })
        }
    }
}

// The ruling by the order that was found, or in a text of one.
#[tactic(auto, using(crate::proofs::RuleLemmas::legal_there, crate::proofs::RuleLemmas::legal_bare, crate::proofs::RuleLemmas::undecided_bare))]
fn rule_by<M: SlotMap + Drop, A: Allocator + Clone + Drop>(
    alloc: &A,
    map: M,
    text: &[u8],
    history: History<A>,
    any_place: bool,
    order: &Order<A>,
    is_found: bool,
) -> Result<Told<A>, NoMemory>
    requires new { IsNew (M.slots map) }
    requires few { length history.declaration.files.items ≤ 16 }
    requires places { HasPlaces history }
    ensures { IfOk result (λ told. IsTold any_place (lines_of text.now) (read_of history) told) }
{
    let count = history.calls.len() as u64;
    match order {
        Order::Of {
            items,
            replies,
            line,
        } => {
            let replies = replies.as_slice();
            if is_order(alloc, map, history, any_place, items.as_slice(), replies)? {
                bare(alloc, Ruling::Legal(count))
            } else {
                bare(alloc, Ruling::Undecided(*line))
            }
        }
        Order::None(line) if is_found => rule_without(alloc, text, &history, any_place, *line),
        Order::None(line) => bare(alloc, Ruling::Undecided(*line)),
    }
}

// Judges a history that was read from the text.
fn rule<M: SlotMap + Drop, A: Allocator + Clone + Drop>(
    alloc: &A,
    map: M,
    text: &[u8],
    history: History<A>,
    any_place: bool,
    by: By<'_>,
    is_wanted: bool,
) -> Result<Ruled<A>, NoMemory>
    requires new { IsNew (M.slots map) }
    requires few { length history.declaration.files.items ≤ 16 }
    requires places { HasPlaces history }
    requires text { IsHistory (lines_of text.now) (read_of history) }
    ensures ruling { IfOk result (λ ruled. IsRuling any_place (lines_of text.now) ruled.ruling) }
    ensures explained { IfOk result (λ ruled. IsExplained any_place (lines_of text.now) ruled.ruling ruled.explanation.items) }
{
    let order = match by {
        By::Search => search(alloc, &history, any_place)?,
        By::Given(given) => given_order(alloc, &history, given)?,
    };
    let is_found = matches!(by, By::Search);
    let told = rule_by(alloc, map, text, history, any_place, &order, is_found)?;
    let order = if is_wanted {
        order_text(alloc, text, &order)?
    } else {
        Vec::new(alloc.clone()?)
    };
    Ok(Ruled {
        ruling: told.ruling,
        order,
        explanation: told.explanation,
    })
}

/// Judges a text: it is that of a history, whose calls have an order, or of which none was found; or it isn't, and why. Beside a
/// ruling that it is legal stands the text of the order, if it is wanted.
pub fn judge_text<M: SlotMap + Drop, A: Allocator + Clone + Drop>(
    alloc: &A,
    map: M,
    text: &[u8],
    any_place: bool,
    by: By<'_>,
    is_wanted: bool,
) -> Result<Ruled<A>, HistoryFault>
    requires new { IsNew (M.slots map) }
    ensures ok { IfOk result (λ ruled. IsRuling any_place (lines_of text.now) ruled.ruling) }
    ensures explained { IfOk result (λ ruled. IsExplained any_place (lines_of text.now) ruled.ruling ruled.explanation.items) }
    ensures err { IfErr result (λ f. IsAtFault (lines_of text.now) f) }
{
    let history = match read_history(alloc, text) {
        Ok(history) => history,
        Err(fault) => return Err(fault),
    };
    match rule(alloc, map, text, history, any_place, by, is_wanted) {
        Ok(ruled) => Ok(ruled),
        Err(_) => Err(HistoryFault::Io(IoFault::NoMemory)),
    }
}
