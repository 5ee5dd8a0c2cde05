//! The machine as its users see it: it is made, given events and calls, and asked what it has.
ghost use Rattle.machine_model.specs.Sound.{IsReached};
ghost use Rattle.core_steps.specs.State.{world};

mod counted;
mod told;

use crate::at_once::starting::Started;
use crate::engine::Engine;
use machine_log::ledger::kept::KeepsAll;
use machine_log::ledger::logged_entries::LoggedEntries;
use machine_log::ledger::{Ledger, Opening};
use machine_model::setup::{CallLimit, Setup, SetupFault};
use machine_model::{Event, Outcome, Phase};
use mmu::{Cpu, Hardware};
use slot_lock::{MapLine, SlotMap, all_lines, next_line};
use std::alloc::Allocator;
use vm_base::{CoreId, CoreSet, Entry, NoMemory, PageInfo, PageRange, Request};

/// How many steps finish a call at the most.
const FINISH_LIMIT: u64 = 1 << 40;

/// The result of finishing a call.
#[derive(Clone, Copy)]
pub enum Finished {
    /// The outcome that ended it.
    Last(Outcome),
    /// Each of 2^40 steps was Stepped.
    Stuck,
}

/// One address space over a slot map, which events move step by step. What becomes of its log's
/// entries, its ledger says.
#[derive(Drop)]
pub struct Machine<M: SlotMap, A: Allocator + Clone, L: Ledger>
where
    Cpu<A>: Hardware,
{
    engine: Engine<M, Cpu<A>, A, L>,
    ghost reached: { ∥ IsReached (world M.slots engine) ∥₁ },
}

impl<M: SlotMap + Drop, A: Allocator + Clone + Drop, L: Opening<A> + Drop> Machine<M, A, L> {
    ghost use Rattle.std.specs.Prelude.{◌≡◌, IfOk, IfErr, OnErr, None};
    ghost use Rattle.slot_lock.specs.Slots.{IsNew};
    ghost use Rattle.machine_model.specs.World.{new_world};
    ghost use Rattle.machine_model.specs.Setups.{fault_of, fault_within, made_of};
    ghost use Rattle.machine_model.specs.Setups.{IsFirstFault, IsFirstWithin, Fits};
    ghost use Rattle.core_steps.specs.Machine.{state};

    /// A machine over a new slot map, of a setup that may ask for 1,048,576 calls. Its ledger has room
    /// for the reply of each call, so that logging one takes no memory. The bytes of the files are
    /// moved, not copied. Of several faults the first is reported, in the order of `SetupFault`.
    pub fn new(alloc: A, map: M, setup: Setup<A>) -> Result<Machine<M, A, L>, SetupFault>
        requires { IsNew (M.slots map) }
        ensures opening { IfOk result (λ machine. state machine ≡ new_world (made_of setup) (M.slots map)) }
        ensures sound { IfOk result (λ machine. fault_of setup ≡ None) }
        ensures first { IfErr result (λ fault. IsFirstFault setup fault) }
    {
        Machine::new_within(CallLimit::Usual, alloc, map, setup)
    }

    /// A machine as `new` makes it, of a setup that may ask for as many calls as this limit says. The
    /// longer one, of 2^40, is only for a ledger that keeps nothing, such as `Forgotten`.
    pub fn new_within(
        limit: CallLimit,
        alloc: A,
        map: M,
        setup: Setup<A>,
    ) -> Result<Machine<M, A, L>, SetupFault>
        requires new { IsNew (M.slots map) }
        requires fits { Fits L.keeps limit }
        ensures opening { IfOk result (λ machine. state machine ≡ new_world (made_of setup) (M.slots map)) }
        ensures sound { IfOk result (λ machine. fault_within limit setup ≡ None) }
        ensures first { IfErr result (λ fault. IsFirstWithin limit setup fault) }
    {
        if let Some(fault) = setup.fault_within(limit) {
            return Err(fault);
        }
        let Ok(engine) = Engine::new(alloc, map, setup) else {
            return Err(SetupFault::NoMemory);
        };
        Ok(Machine { engine })
    }
}

impl<M: SlotMap, A: Allocator + Clone, L: Ledger> Machine<M, A, L> {
    ghost use Rattle.std.specs.Prelude.{◌≡◌, ◌≤◌, ◌<◌, false, true, IfOk, OnErr, IfSome, IfNone};
    ghost use Rattle.frames.specs.Bits.{count_below};
    ghost use Rattle.mmu.specs.Inboxes.{awaited};
    ghost use Rattle.vm_base.specs.Cores.{members};
    ghost use Rattle.vm_base.specs.Functions.{has};
    ghost use Rattle.vm_base.specs.Pages.{is_page};
    ghost use Rattle.slot_lock.specs.Slots.{IsSlot};
    ghost use Rattle.mmu.specs.Tables.{word_of};
    ghost use Rattle.machine_model.specs.declared.event.Event.{Event};
    ghost use Rattle.machine_model.specs.Step.{Step, StepsTo};
    ghost use Rattle.machine_model.specs.World.{World};
    ghost use Rattle.machine_model.specs.Sound.{IsSoundStep};
    ghost use Rattle.core_steps.specs.Changing.{may_change};
    ghost use Rattle.core_steps.specs.Moving.{JoinsAsMap, MayWant, Tries};
    ghost use Rattle.core_steps.specs.Dividing.{DividesAsMap, StepsAsMap};
    ghost use Rattle.core_steps.specs.Finishing.{Calls, CallsAsMap, Finishes, FinishesAsMap, finish_limit};
    ghost use Rattle.core_steps.specs.Finishing.{IsCallRefused, IsRefused};
    ghost use Rattle.core_steps.specs.Machine.{state, IsLegal};
    ghost use Rattle.machine_log.specs.Packing.{listed};
    ghost use Rattle.core_steps.specs.MapLines.{HasNoMap, IsLineStart, IsNextMap, ListsMaps};

    /// One event. A refusal for memory leaves the machine unchanged, and comes only at a step of a call
    /// at which a slot has to be divided, which installs the first entry of a table of the last level,
    /// or which makes a private page's copy where the log keeps its entries. Slots are joined just where
    /// the map can join them, and one that has to be locked or cut is divided just where it crosses an
    /// edge, as the map divides it. The state that is left is one of a plain page map's (POSIX.1-2017,
    /// mmap, munmap and mprotect). The step's log entry, if it made one, was due, a frame became free
    /// only by a review or by the call that had taken it and gave it to no page, and what is waited for
    /// is there.
    #[inline(always)]
    pub fn step(&mut self, event: Event) -> Result<Outcome, NoMemory>
        ensures step { Tries (Step (state self.old) event)
            (MayWant L.keeps (state self.old) event)
            (state self.old) result (state self.new) }
        ensures joins { IfOk result
            (λ outcome. JoinsAsMap M.can_fold M.folds (state self.old) event outcome (state self.new)) }
        ensures divides { IfOk result
            (λ outcome. DividesAsMap M.parts (state self.old) event outcome (state self.new)) }
        ensures sound { IfOk result (λ outcome. ∥ IsSoundStep (state self.old) event outcome
            (state self.new) ∥₁) }
        ensures legal { IsLegal (state self.new) }
    {
        self.engine.step(event)
    }

    // Steps of the core's call until one isn't Stepped, where this many plain ones were made before, at
    // most 2^40 with them.
    fn go_on(&mut self, core: CoreId, steps: u64) -> Result<Finished, NoMemory>
        requires { steps < finish_limit }
        ensures ends { IfOk result (λ finished. (was : World) → StepsTo was core steps (state self.old)
            → Finishes was core finished (state self.new)) }
        ensures err { OnErr result ((was : World) → StepsTo was core steps (state self.old)
            → IsRefused L.keeps was core (state self.new)) }
        ensures divides { (was : World) → StepsAsMap M.parts was core steps (state self.old)
            → FinishesAsMap M.parts was core result (state self.new) }
        ensures legal { IsLegal (state self.new) }
    {
        let mut n = steps;
        'steps: while n < FINISH_LIMIT {
            n += self.engine.steps_at_once(core, FINISH_LIMIT - 1 - n);
            let outcome = match self.step(Event::Go(core)) {
                Ok(outcome) => outcome,
                Err(refused) => return Err(refused),
            };
            if outcome != Outcome::Stepped {
                return Ok(Finished::Last(outcome));
            }
            n += 1;
        }
        Ok(Finished::Stuck)
    }

    /// Steps of the core's call until one isn't Stepped, at most 2^40. After a refusal for memory the
    /// steps before it stand. Slots are divided as by `step`.
    pub fn finish(&mut self, core: CoreId) -> Result<Finished, NoMemory>
        ensures ends { IfOk result (λ finished. Finishes (state self.old) core finished (state self.new)) }
        ensures err { OnErr result (IsRefused L.keeps (state self.old) core (state self.new)) }
        ensures divides { FinishesAsMap M.parts (state self.old) core result (state self.new) }
        ensures legal { IsLegal (state self.new) }
    {
        self.go_on(core, 0)
    }

    /// A call, and if it begins its steps until one isn't Stepped, at most 2^40: what `step` with the
    /// call's event does, and then `finish`. A call that doesn't begin has told why: Idle or Full.
    /// After a refusal for memory the steps before it stand. Slots are divided as by `step`.
    #[inline(always)]
    pub fn call(&mut self, core: CoreId, request: Request) -> Result<Finished, NoMemory>
        ensures ends { IfOk result (λ finished. Calls (state self.old) core request finished (state self.new)) }
        ensures err { OnErr result (IsCallRefused L.keeps (state self.old) core request (state self.new)) }
        ensures divides { CallsAsMap M.parts (state self.old) core request result (state self.new) }
        ensures legal { IsLegal (state self.new) }
    {
        match self.engine.start(core, request) {
            Started::Ended(outcome) => Ok(Finished::Last(outcome)),
            Started::Begun { steps } => self.go_on(core, steps),
        }
    }

    /// All mappings, in order: those of the plain page map to which the log leads (POSIX.1-2017, mmap,
    /// munmap and mprotect). Neighbouring pages are one where the protection is the same and the
    /// backing goes on. The error says that memory ran out, and some page is mapped.
    pub fn plain_maps<B: Allocator>(&self, alloc: B) -> Result<Vec<MapLine, B>, NoMemory>
        ensures lines { IfOk result (λ lines. ListsMaps (state self.now) lines.items) }
        ensures err_only { OnErr result (¬ HasNoMap (state self.now) 1) }
        ensures legal { IsLegal (state self.now) }
    {
        all_lines(&self.engine.map, alloc)
    }

    /// The first of these mappings that begins at the page `from` or above, where none goes across that
    /// page: it is 1, or the end of another. It takes no memory.
    pub fn next_map_line(&self, from: u64) -> Option<MapLine>
        requires from { 1 ≤ from }
        requires begins { IsLineStart (state self.now) from }
        ensures some { IfSome result (IsNextMap (state self.now) from) }
        ensures none { IfNone result (HasNoMap (state self.now) from) }
        ensures legal { IsLegal (state self.now) }
    {
        next_line(&self.engine.map, from)
    }

    /// The entries made so far, where the ledger keeps them, as `log` gives them.
    pub fn kept_log(&self) -> Option<LoggedEntries<'_>>
        ensures some { IfSome result (λ entries. listed entries ≡ (state self.now).calls.log) }
        ensures none { IfNone result (L.keeps ≡ false) }
        ensures legal { IsLegal (state self.now) }
    {
        self.engine.calls.ledger.kept()
    }

    /// How many cores the machine has.
    pub fn cores(&self) -> usize
        ensures { result ≡ (state self.now).made.cores }
    {
        self.engine.calls.phases.len()
    }

    /// Where the core's call stands.
    pub fn phase(&self, core: CoreId) -> Phase
        requires { core < (state self.now).made.cores }
        ensures { result ≡ (state self.now).calls.phase core }
    {
        self.engine.phase_of(core)
    }

    /// The other cores that have not acknowledged the core's message yet.
    pub fn awaited(&self, core: CoreId) -> CoreSet
        ensures { members result ≡ awaited (state self.now).hardware.inbox core }
    {
        self.engine.cores.waiting(core)
    }

    /// How many frames the machine has.
    pub fn frames(&self) -> u32
        ensures { result ≡ (state self.now).made.frames }
    {
        self.engine.frames.count()
    }

    /// How many frames are free.
    pub fn free_frames(&self) -> u32
        ensures { result ≡ count_below (state self.now).memory.is_free (state self.now).made.frames }
    {
        self.engine.frames.free_count()
    }

    /// The present epoch.
    pub fn epoch(&self) -> u64
        ensures { result ≡ (state self.now).memory.counts.epoch }
    {
        self.engine.counts.epoch()
    }

    /// The 64 bits of the entry that the core's tables have of the page (Intel SDM volume 3A, 4-level
    /// paging, format of a page-table entry that maps a 4-KByte page).
    pub fn entry(&self, core: CoreId, page: u64) -> Option<u64>
        requires here { core < (state self.now).made.cores }
        requires page { is_page page ≡ true }
        ensures { result ≡ word_of ((state self.now).hardware.table core page) }
    {
        self.engine.cores.entry(core, page)
    }

    /// What the page has, if it is mapped.
    pub fn page(&self, page: u64) -> Option<PageInfo>
        requires { is_page page ≡ true }
        ensures { result ≡ (state self.now).slots.info page }
    {
        self.engine.map.page(page)
    }

    /// The slot that has the page.
    pub fn slot(&self, page: u64) -> PageRange
        requires { is_page page ≡ true }
        ensures slot { IsSlot (state self.now).slots result.first result.end }
        ensures has { has result page ≡ true }
    {
        self.engine.map.slot(page)
    }

    /// Outside of these pages the event changes nothing of what pages have: those that the next step
    /// of its core's call may change. Most events have none.
    pub fn may_change(&self, event: Event) -> Option<PageRange>
        ensures { result ≡ may_change (state self.now) event }
    {
        match event {
            Event::Go(core) | Event::Frame(core, _) => self.engine.next_changes(core),
            _ => None,
        }
    }
}

impl<M: SlotMap, A: Allocator + Clone> Machine<M, A, KeepsAll<A>> {
    ghost use Rattle.std.specs.Prelude.{◌≡◌};
    ghost use Rattle.core_steps.specs.Machine.{state, IsLegal};

    /// The entries made so far, in order. They are those of a plain page map (POSIX.1-2017, mmap,
    /// munmap and mprotect), applied one after another to the requests that `requests` gives.
    pub fn log(&self) -> &[Entry]
        ensures entries { result.now ≡ (state self.now).calls.log }
        ensures legal { IsLegal (state self.now) }
    {
        &self.engine.calls.ledger.entries.items
    }

    /// The requests of the calls begun, in order: an entry's call is the one with that number, from 1.
    /// So the log can be replayed.
    pub fn requests(&self) -> &[Request]
        ensures requests { result.now ≡ (state self.now).calls.requests }
        ensures legal { IsLegal (state self.now) }
    {
        &self.engine.calls.ledger.requests
    }
}
