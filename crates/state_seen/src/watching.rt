//! A mirror watches each step.
ghost use Rattle.std.specs.Prelude.{◌≡◌, ℕ, ◌<◌, cond, length, slice_index_or, true};
ghost use Rattle.vm_base.specs.Functions.{put};
ghost use Rattle.core_steps.specs.Machine.{state};
ghost use Rattle.machine_model.specs.declared.phase.Phase.TheVariants.{Free};
ghost use Rattle.state_seen.specs.Held.{done, held};
ghost use Rattle.state_seen.specs.Shown.{Follows, after_step, is_of, phase_at, phase_in};

use crate::deed::HardwareStep;
use crate::edit::TableStep;
use crate::held::{CoreHeld, act_at, tell_all};
use crate::mirror::{CORES, Mirror};
use crate::reading::{deed_of, edit_of};
use crate::tables::edit_tables;
use crate::used::follow;
use core_steps::Machine;
use machine_log::Ledger;
use machine_model::{Event, Outcome, Phase};
use slot_lock::SlotMap;
use std::alloc::Allocator;
use vm_base::{CoreId, NoMemory, PageRange};
use watched::Watch;

// What the deed does to all; false where there was no room for a message.
fn do_deed<A: Allocator>(all: &mut Vec<CoreHeld, A>, deed: &HardwareStep) -> bool
    requires { length all.old.items ≡ 64 }
    ensures cores { length all.new.items ≡ length all.old.items }
    ensures done { result ≡ true → (c : ℕ) → c < 64 → held all.new.items c ≡ done deed.now (held all.old.items) c }
{
    match deed {
        HardwareStep::Nothing => true,
        HardwareStep::Translate { core, .. } => {
            act_at(all, *core, deed);
            true
        }
        HardwareStep::Take(core) => {
            act_at(all, *core, deed);
            true
        }
        HardwareStep::Walk { core, .. } => {
            act_at(all, *core, deed);
            true
        }
        HardwareStep::Evict { core, .. } => {
            act_at(all, *core, deed);
            true
        }
        HardwareStep::Shoot { core, set, range } => {
            act_at(all, *core, deed);
            tell_all(all, *core, set.without(*core), *range)
        }
    }
}

// What a step does to all by its deed; false where there was no room for a message.
fn do_step<A: Allocator>(all: &mut Vec<CoreHeld, A>, deed: &HardwareStep, outcome: &Outcome) -> bool
    requires { length all.old.items ≡ 64 }
    ensures cores { length all.new.items ≡ length all.old.items }
    ensures done { result ≡ true → (c : ℕ) → c < 64
        → held all.new.items c ≡ after_step outcome.now deed.now (held all.old.items) c }
{
    match outcome {
        Outcome::Stepped => do_deed(all, deed),
        Outcome::Wait(_) | Outcome::Idle | Outcome::Answered(_) | Outcome::Full => true,
    }
}

// Whether both hold.
fn both(one: bool, other: bool) -> bool
    ensures one { result ≡ true → one ≡ true }
    ensures other { result ≡ true → other ≡ true }
{
    one && other
}

// Where the core's call stands; a core that isn't there has none.
fn phase_in<M: SlotMap, A: Allocator + Clone, L: Ledger>(
    machine: &Machine<M, A, L>,
    core: CoreId,
) -> Phase
    ensures { result ≡ phase_in (state machine.now) core }
{
    if usize::from(core.index()) >= machine.cores() {
        return Phase::Free;
    }
    machine.phase(core)
}

// The machine tells where the core's call stands.
fn look_at<M: SlotMap, A: Allocator + Clone, L: Ledger>(
    machine: &Machine<M, A, L>,
    phases: &mut [Phase; CORES],
    core: CoreId,
)
    ensures { (c : ℕ) → c < 64 → slice_index_or phases.new c Free
        ≡ put (λ d. slice_index_or phases.old d Free) core (phase_in (state machine.now) core) c }
{
    phases[usize::from(core.index())] = phase_in(machine, core);
}

// The machine tells where the call of the event's core stands.
fn look_for<M: SlotMap, A: Allocator + Clone, L: Ledger>(
    machine: &Machine<M, A, L>,
    phases: &mut [Phase; CORES],
    event: &Event,
)
    ensures { (c : ℕ) → c < 64 → slice_index_or phases.new c Free
        ≡ cond (is_of event.now c) (phase_in (state machine.now) c) (slice_index_or phases.old c Free) }
{
    match event.core() {
        Some(core) => look_at(machine, phases, core),
        None => {}
    }
}

impl<B: Allocator> Mirror<B> {
    ghost use Rattle.std.specs.Prelude.{◌≡◌, ℕ, ◌<◌, cond, true};
    ghost use Rattle.vm_base.specs.Functions.{across};
    ghost use Rattle.core_steps.specs.Machine.{state};
    ghost use Rattle.machine_model.specs.Holding.{some_has};
    ghost use Rattle.state_seen.specs.Lists.{at_page};
    ghost use Rattle.state_seen.specs.Edits.{after_edit, table_at};
    ghost use Rattle.state_seen.specs.Held.{held};
    ghost use Rattle.state_seen.specs.Shown.{after_step, inboxes, is_of, phase_at, phase_in};
    ghost use Rattle.state_seen.specs.Used.{used_in};

    // The tables have what the step, which had this edit and led to the machine, leaves them.
    fn follow_tables<M: SlotMap, A: Allocator + Clone, L: Ledger>(
        &mut self,
        machine: &Machine<M, A, L>,
        edit: &TableStep,
        outcome: &Outcome,
    )
        ensures whole { self.new.whole ≡ true → self.old.whole ≡ true }
        ensures phases { self.new.phases ≡ self.old.phases }
        ensures cores { self.new.cores ≡ self.old.cores }
        ensures tables { self.new.whole ≡ true → (c p : ℕ) → table_at self.new.tables c p
            ≡ after_edit outcome.now edit.now (inboxes self.old.cores) (state machine.now).hardware.table
            (table_at self.old.tables) c p }
        ensures pages { self.new.pages ≡ self.old.pages }
    {
        let room = edit_tables(
            machine,
            &mut self.tables,
            self.cores.as_slice(),
            edit,
            outcome,
        );
        self.whole = both(self.whole, room);
    }

    // The cores hold what the step, which had this deed, leaves them.
    fn follow(&mut self, deed: &HardwareStep, outcome: &Outcome)
        ensures whole { self.new.whole ≡ true → self.old.whole ≡ true }
        ensures phases { self.new.phases ≡ self.old.phases }
        ensures held { self.new.whole ≡ true → (c : ℕ) → c < 64
            → held self.new.cores c ≡ after_step outcome.now deed.now (held self.old.cores) c }
        ensures tables { self.new.tables ≡ self.old.tables }
        ensures pages { self.new.pages ≡ self.old.pages }
    {
        let room = do_step(&mut self.cores, deed, outcome);
        self.whole = both(self.whole, room);
    }

    // The pages of the range have what the machine's have now.
    fn follow_pages<M: SlotMap, A: Allocator + Clone, L: Ledger>(
        &mut self,
        machine: &Machine<M, A, L>,
        range: Option<PageRange>,
    )
        ensures whole { self.new.whole ≡ true → self.old.whole ≡ true }
        ensures phases { self.new.phases ≡ self.old.phases }
        ensures cores { self.new.cores ≡ self.old.cores }
        ensures tables { self.new.tables ≡ self.old.tables }
        ensures pages { self.new.whole ≡ true → (p : ℕ) → at_page self.new.pages p
            ≡ across (at_page self.old.pages) (some_has range) (used_in (state machine.now)) p }
    {
        let room = follow(machine, &mut self.pages, range);
        self.whole = both(self.whole, room);
    }

    // The machine tells where the call of the event's core stands, and its epoch.
    fn look<M: SlotMap, A: Allocator + Clone, L: Ledger>(
        &mut self,
        machine: &Machine<M, A, L>,
        event: &Event,
    )
        ensures whole { self.new.whole ≡ self.old.whole }
        ensures cores { self.new.cores ≡ self.old.cores }
        ensures tables { self.new.tables ≡ self.old.tables }
        ensures pages { self.new.pages ≡ self.old.pages }
        ensures phases { (c : ℕ) → c < 64 → phase_at self.new c
            ≡ cond (is_of event.now c) (phase_in (state machine.now) c) (phase_at self.old c) }
        ensures epoch { self.new.epoch ≡ (state machine.now).memory.counts.epoch }
    {
        look_for(machine, &mut self.phases, event);
        self.epoch = machine.epoch();
    }
}

impl<B: Allocator> Watch for Mirror<B> {
    ghost after = { Follows };

    fn step<M: SlotMap, A: Allocator + Clone, L: Ledger>(
        &mut self,
        machine: &mut Machine<M, A, L>,
        event: Event,
    ) -> Result<Outcome, NoMemory> {
        let deed = deed_of(machine, &event);
        let edit = edit_of(machine, &event);
        let range = machine.may_change(event);
        let outcome = match machine.step(event) {
            Ok(outcome) => outcome,
            Err(refused) => return Err(refused),
        };
        self.follow_tables(machine, &edit, &outcome);
        self.follow(&deed, &outcome);
        self.follow_pages(machine, range);
        self.look(machine, &event);
        Ok(outcome)
    }
}
