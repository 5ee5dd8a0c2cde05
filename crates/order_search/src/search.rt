//! The search itself.
ghost use Rattle.std.specs.Prelude.{◌≡◌, ◌≤◌, IfOk, length};
ghost use Rattle.order_search.specs.Founds.{IsFound};

use crate::configs::Config;
use crate::leading::{Ending, Reach, Ways};
use crate::trail::Mark;
use crate::under::{Mapped, Under, mapped_by};
use frames::Objects;
use orders::{Item, Timed, each_once};
use std::alloc::Allocator;
use vm_base::{CoreSet, NoMemory};

/// What a search comes to. That it is right isn't claimed.
#[derive(Drop)]
pub enum Found<A: Allocator> {
    /// An order of the calls: each of them once, and copies before them. The open calls of these cores, which stand
    /// last, don't have their replies in it, but found no memory.
    Order(Vec<Item, A>, CoreSet),
    /// No order of the calls so far gets to the end of this one.
    Stuck(usize),
    /// At the end of this one there were more configurations than the limit.
    Full(usize),
}

/// An access that may have gone as before a call that hadn't ended, by the numbers of both.
#[derive(Clone, Copy)]
pub struct Lag {
    /// The call.
    pub behind: u32,
    /// The access.
    pub access: u32,
}

/// An `mprotect` that was refused, and has changed so many pages.
#[derive(Clone, Copy)]
pub struct Front {
    /// The call.
    pub call: u32,
    /// How many pages, from the first on.
    pub count: u64,
}

/// What an order has by the kernels' rule besides.
#[derive(Drop)]
pub struct Kernel<A: Allocator> {
    /// Which accesses go as before which calls.
    pub lags: Vec<Lag, A>,
    /// Which calls have changed a part of their range.
    pub fronts: Vec<Front, A>,
}

impl<A: Allocator + Clone> Kernel<A> {
    /// Nothing.
    pub fn new(alloc: &A) -> Result<Kernel<A>, NoMemory> {
        let lags = Vec::new(alloc.clone()?);
        let fronts = Vec::new(alloc.clone()?);
        Ok(Kernel { lags, fronts })
    }
}

/// Calls, each of which takes effect as a whole, as though its parts did one behind another.
#[derive(Drop)]
pub struct Wholes<A: Allocator> {
    /// The calls.
    pub calls: Vec<Timed, A>,
    /// The number of the first part of each.
    pub firsts: Vec<usize, A>,
    /// Whether each may be lost.
    pub unsure: Vec<bool, A>,
    /// Whether each may lag.
    pub late: Vec<bool, A>,
    /// How many parts there are.
    pub count: usize,
}

// The parts of calls: the number of the first one of each call, and how many there are. Where no number is given each
// call is one part.
#[derive(Clone, Copy)]
struct Parts<'p> {
    firsts: &'p [usize],
    count: usize,
}

/// So many calls that no order gets to are passed over by a search of whole calls.
const MOST_STUCK: usize = 64;

// The state of a search between two begins or ends.
#[derive(Drop)]
struct Search<'a, A: Allocator> {
    objects: &'a Objects<A>,
    mapped: Mapped,
    answered: usize,
    unsure: &'a [bool],
    parts: Parts<'a>,
    // Whether all accesses may lag, whether that goes by the kernels' rule, and which of the calls may where not all do.
    may_lag: bool,
    by_kernel: bool,
    late: &'a [bool],
    // So many calls that no order gets to are passed over, and which ones were.
    may_pass: usize,
    passed: Vec<usize, A>,
    fronts: Vec<Front, A>,
    ways: Ways<'a, A>,
    under: Vec<Under, A>,
    configs: Vec<Config, A>,
}

// Each of so many calls is one part.
fn each_alone(count: usize) -> Parts<'static> {
    Parts { firsts: &[], count }
}

// The number of a call in an order.
fn item_number(call: usize) -> u32 {
    if call < 0xffff_ffff {
        call as u32
    } else {
        0xffff_ffff
    }
}

impl Parts<'_> {
    // The number of a call, or of its first part.
    fn first(&self, call: usize) -> usize {
        match self.firsts.get(call) {
            Some(first) => *first,
            None => call,
        }
    }

    // How many parts a call has.
    fn of(&self, call: usize) -> u32 {
        if self.firsts.is_empty() {
            return 1;
        }
        let end = match self.firsts.get(call.saturating_add(1)) {
            Some(next) => *next,
            None => self.count,
        };
        item_number(end.saturating_sub(self.first(call)))
    }
}

impl<'a, A: Allocator + Clone + Drop> Search<'a, A> {
    // Nothing has begun. So many calls end, and the others are open. Those that aren't sure may be lost.
    fn new(
        alloc: &A,
        objects: &'a Objects<A>,
        any_place: bool,
        history: &[Timed],
        answered: usize,
        unsure: &'a [bool],
        parts: Parts<'a>,
    ) -> Result<Search<'a, A>, NoMemory> {
        let mut configs = Vec::new(alloc.clone()?);
        configs.push(Config::first())?;
        let passed = Vec::new(alloc.clone()?);
        let fronts = Vec::new(alloc.clone()?);
        let under = Vec::new(alloc.clone()?);
        let ways = Ways::new(alloc, objects, any_place, history.len())?;
        Ok(Search {
            objects,
            mapped: mapped_by(history),
            answered,
            unsure,
            parts,
            may_lag: false,
            by_kernel: false,
            late: &[],
            may_pass: 0,
            passed,
            fronts,
            ways,
            under,
            configs,
        })
    }

    // A bit that no call under way has: this one, if it is free.
    fn free_bit(&self, wanted: u64) -> Option<u64> {
        let mut taken = 0u64;
        for under in self.under.as_slice() {
            taken |= under.bit;
        }
        if taken & wanted == 0 {
            return Some(wanted);
        }
        let lowest = !taken & taken.wrapping_add(1);
        if lowest == 0 { None } else { Some(lowest) }
    }

    // A call begins. `false` says that too many are under way.
    fn begin(&mut self, history: &[Timed], call: usize) -> Result<bool, NoMemory> {
        let Some(timed) = history.get(call).copied() else {
            return Ok(true);
        };
        let mut under = Under::new(
            self.objects,
            item_number(self.parts.first(call)),
            &timed,
            call >= self.answered,
            self.mapped.has_copies,
        )
        .with_parts(self.parts.of(call));
        let Some(bit) = self.free_bit(under.bit) else {
            return Ok(false);
        };
        under.bit = bit;
        under.is_unsure = matches!(self.unsure.get(call), Some(true));
        under.may_lag = self.may_lag || matches!(self.late.get(call), Some(true));
        if self.by_kernel {
            under = under.by_kernel();
        }
        if !under.is_late {
            let calls = self.under.as_slice();
            self.ways.settle(calls, &mut self.configs, &under)?;
        }
        self.note_rivals(&mut under);
        self.under.push(under)?;
        Ok(true)
    }

    // Passes over a call that none of the configurations reaches, if the search goes on behind it: what follows is no
    // order then, but other such calls may show up.
    fn pass_by(&mut self, under: &Under) -> Result<bool, NoMemory> {
        if self.passed.len() >= self.may_pass {
            return Ok(false);
        }
        self.passed.push(under.number as usize)?;
        self.ways.pass_over(&mut self.configs, under)?;
        Ok(true)
    }

    // Notes which calls under way are a call's rivals, and it as theirs.
    fn note_rivals(&mut self, under: &mut Under) {
        for at in 0..self.under.len() {
            if self.under[at].is_rival(under, self.mapped) {
                self.under[at].rivals |= under.bit;
                under.rivals |= self.under[at].bit;
            }
        }
    }

    // Tells whether a core's call has taken effect in all configurations.
    fn is_done(&self, bit: u64) -> bool {
        for config in self.configs.as_slice() {
            if config.done & bit == 0 {
                return false;
            }
        }
        true
    }

    // The call under way at this place isn't any more.
    fn forget(&mut self, at: usize, bit: u64) {
        if at < self.under.len() {
            let _ = self.under.remove(at);
        }
        for at in 0..self.under.len() {
            self.under[at].rivals &= !bit;
        }
        for at in 0..self.configs.len() {
            self.configs[at].done &= !bit;
            self.configs[at].free &= !bit;
        }
    }

    // The place of the call under way that ends first, if it ends before this time, or if none is given. Open calls
    // don't end.
    fn first_end(&self, time: Option<u64>) -> Option<usize> {
        let mut first = None;
        let mut end = u64::MAX;
        for at in 0..self.under.len() {
            let under = &self.under[at];
            if !under.is_open && (first.is_none() || under.end < end) {
                first = Some(at);
                end = under.end;
            }
        }
        match time {
            Some(time) if end >= time => None,
            _ => first,
        }
    }

    // The calls end that end before this time, or all, if none is given. It tells the first that none of them reaches.
    fn end_all(
        &mut self,
        alloc: &A,
        time: Option<u64>,
    ) -> Result<Option<(Reach, usize)>, NoMemory> {
        for _ in 0..self.under.len() {
            let Some(at) = self.first_end(time) else {
                return Ok(None);
            };
            let Some(under) = self.under.get(at) else {
                return Ok(None);
            };
            let (number, ends) = (under.number, *under);
            let reach = self.end(alloc, at, &ends)?;
            if reach != Reach::Reached {
                return Ok(Some((reach, number as usize)));
            }
        }
        Ok(None)
    }

    // This call under way, which is at this place, ends.
    fn end(&mut self, alloc: &A, at: usize, ends: &Under) -> Result<Reach, NoMemory> {
        let bit = ends.bit;
        if ends.keeps_old() || !self.is_done(bit) {
            let ending = Ending {
                under: self.under.as_slice(),
                bit,
            };
            let reach = self.ways.reach(ending, ends, &mut self.configs)?;
            if reach == Reach::Full || (reach == Reach::Stuck && !self.pass_by(ends)?) {
                return Ok(reach);
            }
        }
        self.forget(at, bit);
        self.ways.drop_olds(&mut self.configs, ends)?;
        self.ways.unite(&mut self.configs)?;
        self.ways.shorten(alloc, &mut self.configs)?;
        Ok(Reach::Reached)
    }

    // Goes through all begins and ends, and tells the first call that isn't reached.
    fn run(&mut self, alloc: &A, history: &[Timed]) -> Result<Option<(Reach, usize)>, NoMemory> {
        let begins = begins(alloc, history)?;
        for at in 0..begins.len() {
            let (begin, call) = begins[at];
            // at one time begins come before ends
            let stop = self.end_all(alloc, Some(begin))?;
            if stop.is_some() {
                return Ok(stop);
            }
            if !self.begin(history, call)? {
                return Ok(Some((Reach::Full, self.parts.first(call))));
            }
        }
        self.end_all(alloc, None)
    }

    // Appends the items of the open calls that haven't taken effect in a configuration.
    fn push_lost(&self, config: &Config, order: &mut Vec<Item, A>) -> Result<(), NoMemory> {
        for under in self.under.as_slice() {
            if (config.done | config.free) & under.bit == 0 {
                order.push(Item::Reply(under.number))?;
            }
        }
        Ok(())
    }

    // Their cores.
    fn lost_cores(&self, config: &Config) -> CoreSet {
        let mut cores = CoreSet::empty();
        for under in self.under.as_slice() {
            if (config.done | config.free) & under.bit == 0 {
                cores = cores.with(under.core);
            }
        }
        cores
    }

    // The order of the first configuration, and the cores whose open calls haven't taken effect in it: these stand
    // last. What lags is told, and noted what of their range refused calls have changed.
    fn order(
        &mut self,
        alloc: &A,
        lags: &mut Vec<Lag, A>,
    ) -> Result<(Vec<Item, A>, CoreSet), NoMemory> {
        let Some(config) = self.configs.get(0).copied() else {
            return Ok((Vec::new(alloc.clone()?), CoreSet::empty()));
        };
        let mut fronts = Vec::new(alloc.clone()?);
        let mut order = items_of(
            alloc,
            self.ways.order_of(alloc, &config)?,
            lags,
            &mut fronts,
        )?;
        self.fronts = fronts;
        self.push_lost(&config, &mut order)?;
        Ok((order, self.lost_cores(&config)))
    }

    // Goes through these calls, of so many parts, and tells what that comes to. What lags is told.
    fn find(
        &mut self,
        alloc: &A,
        history: &[Timed],
        count: usize,
        lags: &mut Vec<Lag, A>,
    ) -> Result<Found<A>, NoMemory>
        requires { 1 ≤ count }
        ensures { IfOk result (λ found. IsFound count found) }
    {
        if let Some((reach, call)) = self.run(alloc, history)? {
            return Ok(stopped(count, reach, call));
        }
        found_by(alloc, count, self.order(alloc, lags)?)
    }

    // The same where calls that no order gets to are passed over: `stuck` tells their first parts, and that of a call
    // behind which the search didn't go.
    fn find_passing(
        &mut self,
        alloc: &A,
        history: &[Timed],
        count: usize,
        lags: &mut Vec<Lag, A>,
        stuck: &mut Vec<usize, A>,
    ) -> Result<Found<A>, NoMemory>
        requires { 1 ≤ count }
        ensures { IfOk result (λ found. IsFound count found) }
    {
        let stop = self.run(alloc, history)?;
        stuck.extend_from_slice(self.passed.as_slice())?;
        if let Some(part) = stuck.get(0) {
            return Ok(stopped(count, Reach::Stuck, *part));
        }
        if let Some((reach, part)) = stop {
            stuck.push(part)?;
            return Ok(stopped(count, reach, part));
        }
        found_by(alloc, count, self.order(alloc, lags)?)
    }
}

// The items of marks, but of those that say what isn't needed. What lags is told.
fn items_of<A: Allocator + Clone + Drop>(
    alloc: &A,
    marks: &[Mark],
    lags: &mut Vec<Lag, A>,
    fronts: &mut Vec<Front, A>,
) -> Result<Vec<Item, A>, NoMemory> {
    let done = done_in(alloc, marks)?;
    let mut items = Vec::with_capacity(alloc.clone()?, marks.len())?;
    for mark in marks {
        if !is_needless(done.as_slice(), *mark) {
            items.push(mark.item())?;
        }
        if let Mark::Late { access, behind } = *mark {
            lags.push(Lag { behind, access })?;
        }
        if let Mark::Front { call, count } = *mark {
            fronts.push(Front { call, count })?;
        }
    }
    Ok(items)
}

// Which calls take effect where that is certain.
fn done_in<A: Allocator + Clone + Drop>(
    alloc: &A,
    marks: &[Mark],
) -> Result<Vec<bool, A>, NoMemory> {
    // (an open call that is lost has no mark, so that a number may be greater than their count)
    let mut count = marks.len();
    for mark in marks {
        if let Mark::Reply(call) = *mark {
            count = count.max((call as usize).saturating_add(1));
        }
    }
    let mut done = vec![in alloc.clone()?; false; count]?;
    for at in 0..marks.len() {
        if let Mark::Reply(call) = marks[at] {
            if let Some(is_done) = done.get_mut(call as usize) {
                *is_done = true;
            }
        }
    }
    Ok(done)
}

// Tells whether a mark says that a call may have taken effect that did elsewhere.
fn is_needless(done: &[bool], mark: Mark) -> bool {
    match mark {
        Mark::Maybe(call) => matches!(done.get(call as usize), Some(true)),
        _ => false,
    }
}

// The begins of calls by their times.
fn begins<A: Allocator + Clone>(
    alloc: &A,
    history: &[Timed],
) -> Result<Vec<(u64, usize), A>, NoMemory> {
    let mut begins = Vec::with_capacity(alloc.clone()?, history.len())?;
    for call in 0..history.len() {
        begins.push((history[call].begin, call))?;
    }
    begins.sort_unstable();
    Ok(begins)
}

// What the search comes to that went no further than a call of so many.
fn stopped<A: Allocator>(count: usize, reach: Reach, call: usize) -> Found<A>
    requires { 1 ≤ count }
    ensures { IsFound count result }
{
    // (it is one of the calls)
    let call = call.min(count - 1);
    match reach {
        Reach::Full => Found::Full(call),
        Reach::Stuck | Reach::Reached => Found::Stuck(call),
    }
}

// What the search comes to that led to these items: an order, if they have each of so many calls once.
fn found_by<A: Allocator + Clone + Drop>(
    alloc: &A,
    count: usize,
    found: (Vec<Item, A>, CoreSet),
) -> Result<Found<A>, NoMemory>
    requires { 1 ≤ count }
    ensures { IfOk result (λ found. IsFound count found) }
{
    let (items, lost) = found;
    let mut marks = vec![in alloc.clone()?; false; count]?;
    if each_once(&mut marks, items.as_slice()) {
        return Ok(Found::Order(items, lost));
    }
    // (this never comes, since all calls have taken effect at their ends)
    Ok(Found::Stuck(count - 1))
}

// What the search of no calls comes to.
#[tactic(auto, using(crate::proofs::NoCalls::none_found))]
fn found_none<A: Allocator + Clone>(alloc: &A, count: usize) -> Result<Found<A>, NoMemory>
    requires { count ≡ 0 }
    ensures { IfOk result (λ found. IsFound count found) }
{
    Ok(Found::Order(Vec::new(alloc.clone()?), CoreSet::empty()))
}

// Searches an order of these calls, of which there are some.
fn find_some<A: Allocator + Clone + Drop>(
    alloc: &A,
    objects: &Objects<A>,
    any_place: bool,
    history: &[Timed],
    answered: usize,
    unsure: &[bool],
) -> Result<Found<A>, NoMemory>
    requires { 1 ≤ length history.now }
    ensures { IfOk result (λ found. IsFound (length history.now) found) }
{
    let parts = each_alone(history.len());
    let mut lags = Vec::new(alloc.clone()?);
    let mut search = Search::new(alloc, objects, any_place, history, answered, unsure, parts)?;
    let found = search.find(alloc, history, history.len(), &mut lags);
    drop(search);
    found
}

/// Searches an order of the calls of a space with these files, from the map on in which nothing is mapped. The first
/// calls, so many, have their replies; of the others, which are open and of different cores, each may take effect with
/// its reply, or find no memory. The items that it answers have each call once; whether they are an order is the
/// caller's to judge. `Err` says that memory was wanting.
pub fn find_order<A: Allocator + Clone + Drop>(
    alloc: &A,
    objects: &Objects<A>,
    any_place: bool,
    history: &[Timed],
    answered: usize,
) -> Result<Found<A>, NoMemory>
    ensures { IfOk result (λ found. IsFound (length history.now) found) }
{
    if history.is_empty() {
        return found_none(alloc, history.len());
    }
    find_some(alloc, objects, any_place, history, answered, &[])
}

/// The same where all calls have their replies, but some may be lost: such a call may as well have changed nothing.
/// Where it did, an item `Copy` of it stands right before its reply. Calls of one core may overlap.
pub fn find_choice<A: Allocator + Clone + Drop>(
    alloc: &A,
    objects: &Objects<A>,
    any_place: bool,
    history: &[Timed],
    unsure: &[bool],
) -> Result<Found<A>, NoMemory>
    ensures { IfOk result (λ found. IsFound (length history.now) found) }
{
    if history.is_empty() {
        return found_none(alloc, history.len());
    }
    find_some(alloc, objects, any_place, history, history.len(), unsure)
}

/// Searches as `find_choice` does, where accesses may lag: each may go as before a call that hasn't ended. `lags` tells
/// which do.
pub fn find_lagging<A: Allocator + Clone + Drop>(
    alloc: &A,
    objects: &Objects<A>,
    any_place: bool,
    history: &[Timed],
    unsure: &[bool],
    lags: &mut Vec<Lag, A>,
) -> Result<Found<A>, NoMemory>
    ensures { IfOk result (λ found. IsFound (length history.now) found) }
{
    lags.clear();
    if history.is_empty() {
        return found_none(alloc, history.len());
    }
    let count = history.len();
    let parts = each_alone(count);
    let mut search = Search::new(alloc, objects, any_place, history, count, unsure, parts)?;
    search.may_lag = true;
    let found = search.find(alloc, history, count, lags);
    drop(search);
    found
}

/// Searches as `find_choice` does, where each call takes effect as a whole, as though its parts did one behind another.
/// An `mprotect` that met a page that isn't mapped may have changed all pages in front of it: each part behind its
/// first has an item `Copy` where it is lost. The numbers of the items are those of the parts. Some accesses may lag,
/// as for `find_lagging`. Where no order is found, `stuck` tells the first parts that none gets to, as though those
/// before were passed over.
pub fn find_whole<'w, A: Allocator + Clone + Drop>(
    alloc: &A,
    objects: &'w Objects<A>,
    any_place: bool,
    wholes: &'w Wholes<A>,
    lags: &mut Vec<Lag, A>,
    stuck: &mut Vec<usize, A>,
) -> Result<Found<A>, NoMemory>
    ensures { IfOk result (λ found. IsFound wholes.now.count found) }
{
    lags.clear();
    stuck.clear();
    let count = wholes.count;
    if count == 0 {
        return found_none(alloc, count);
    }
    let calls = wholes.calls.as_slice();
    let unsure = wholes.unsure.as_slice();
    let firsts = wholes.firsts.as_slice();
    let parts = Parts { firsts, count };
    let mut search = Search::new(alloc, objects, any_place, calls, calls.len(), unsure, parts)?;
    search.late = wholes.late.as_slice();
    search.may_pass = MOST_STUCK;
    let found = search.find_passing(alloc, calls, count, lags, stuck);
    drop(search);
    found
}

/// Searches an order of the calls by the kernels' rule: each takes effect as a whole, and accesses may lag behind `munmap` and `mprotect`. `kernel`
/// tells which do. Which accesses have seen a page new isn't looked at: whether the items are an order is the caller's to judge.
pub fn find_by_kernel<A: Allocator + Clone + Drop>(
    alloc: &A,
    objects: &Objects<A>,
    any_place: bool,
    history: &[Timed],
    kernel: &mut Kernel<A>,
) -> Result<Found<A>, NoMemory>
    ensures { IfOk result (λ found. IsFound (length history.now) found) }
{
    kernel.lags.clear();
    kernel.fronts.clear();
    if history.is_empty() {
        return found_none(alloc, history.len());
    }
    let count = history.len();
    let parts = each_alone(count);
    let mut search = Search::new(alloc, objects, any_place, history, count, &[], parts)?;
    search.may_lag = true;
    search.by_kernel = true;
    let found = search.find(alloc, history, count, &mut kernel.lags);
    kernel.fronts.extend_from_slice(search.fronts.as_slice())?;
    drop(search);
    found
}
