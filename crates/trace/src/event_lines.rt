//! Lines of events: each moves the machine, and its text tells the outcome.
ghost use Rattle.std.specs.Prelude.{◌≡◌, ◌⊎◌, IfErr, OnErr, OnOk, IsSomeAnd, true, false};
ghost use Rattle.core_steps.specs.Machine.{state};
ghost use Rattle.core_steps.specs.Moving.{MayWant};
ghost use Rattle.trace_words.specs.Events.{event_of};
ghost use Rattle.trace.specs.Gives.{Gives, Wants, WantsFinish, is_event, TellsFinish, TellsFold, TellsStep};
ghost use Rattle.trace.specs.EventRuns.{Asks, AsksFinish, AsksOne};
ghost use Rattle.trace.specs.Seen.{Sees};
ghost use Rattle.trace_text.specs.Front.{access_asked, step_asked};
ghost use Rattle.vm_base.specs.declared.requests.Request.TheVariants.{Load, Store};

use crate::finished_text::write_finished;
use core_steps::Machine;
use machine_log::Ledger;
use machine_model::{Event, Outcome};
use slot_lock::SlotMap;
use std::alloc::Allocator;
use trace_text::{Action, AskedAccess, AskedStep, Line, LineText};
use trace_words::events::event_of;
use trace_words::fault::TraceFault;
use trace_words::outcome_text::write_outcome;
use vm_base::{CoreId, NoMemory, Request};
use watched::{Unwatched, Watch};

// One step.
fn tell_step<M: SlotMap, A: Allocator + Clone, L: Ledger, X: Watch>(
    machine: &mut Machine<M, A, L>,
    watch: &mut X,
    event: Event,
    text: &mut LineText,
) -> Result<(), NoMemory>
    ensures ok { OnOk result (TellsStep (state machine.old) event (state machine.new) text.new.bytes) }
    ensures seen { OnOk result (Sees X.after watch.old (state machine.old) (AsksOne event)
        (state machine.new) watch.new text.new.bytes) }
    ensures err { OnErr result (MayWant L.keeps (state machine.old) event) }
{
    let outcome = watch.step(machine, event)?;
    write_outcome(text, outcome);
    Ok(())
}

// One step, which the core is to do.
fn tell_act<M: SlotMap, A: Allocator + Clone, L: Ledger, X: Watch>(
    machine: &mut Machine<M, A, L>,
    watch: &mut X,
    core: CoreId,
    action: Action,
    text: &mut LineText,
) -> Result<(), NoMemory>
    ensures ok { OnOk result (Gives M.can_fold M.folds (state machine.old) (Line.Act core action)
        (state machine.new) text.new.bytes) }
    ensures seen { OnOk result (Sees X.after watch.old (state machine.old) (Asks (Line.Act core action))
        (state machine.new) watch.new text.new.bytes) }
    ensures err { OnErr result (Wants L.keeps (state machine.old) (Line.Act core action)) }
{
    tell_step(machine, watch, event_of(core, action), text)
}

/// One step that the core is to make, known by its word, which no line is made of.
#[inline(always)]
pub(crate) fn tell_asked<M: SlotMap, A: Allocator + Clone, L: Ledger, X: Watch>(
    machine: &mut Machine<M, A, L>,
    watch: &mut X,
    core: CoreId,
    step: AskedStep,
    text: &mut LineText,
) -> Result<(), NoMemory>
    ensures ok { OnOk result (Gives M.can_fold M.folds (state machine.old) (Line.Act core (step_asked step))
        (state machine.new) text.new.bytes) }
    ensures seen { OnOk result (Sees X.after watch.old (state machine.old) (Asks (Line.Act core (step_asked step)))
        (state machine.new) watch.new text.new.bytes) }
    ensures err { OnErr result (Wants L.keeps (state machine.old) (Line.Act core (step_asked step))) }
{
    match step {
        AskedStep::Take => tell_step(machine, watch, Event::Take(core), text),
        AskedStep::Flush => tell_step(machine, watch, Event::Flush(core), text),
        AskedStep::Review => tell_step(machine, watch, Event::Review(core), text),
    }
}

// A fold at the page.
fn tell_fold<M: SlotMap, A: Allocator + Clone, L: Ledger, X: Watch>(
    machine: &mut Machine<M, A, L>,
    watch: &mut X,
    page: u64,
    text: &mut LineText,
) -> Result<(), NoMemory>
    ensures ok { OnOk result (TellsFold M.can_fold M.folds (state machine.old) page
        (state machine.new) text.new.bytes) }
    ensures seen { OnOk result (Sees X.after watch.old (state machine.old) (Asks (Line.Fold page))
        (state machine.new) watch.new text.new.bytes) }
    ensures err { OnErr result (Wants L.keeps (state machine.old) (Line.Fold page)) }
{
    let outcome = watch.step(machine, Event::Fold(page))?;
    write_outcome(text, outcome);
    Ok(())
}

// All steps of the core's call.
fn tell_finish<M: SlotMap, A: Allocator + Clone, L: Ledger, X: Watch>(
    machine: &mut Machine<M, A, L>,
    watch: &mut X,
    core: CoreId,
    text: &mut LineText,
) -> Result<(), NoMemory>
    ensures ok { OnOk result (TellsFinish (state machine.old) core (state machine.new) text.new.bytes) }
    ensures seen { OnOk result (Sees X.after watch.old (state machine.old) (AsksFinish core)
        (state machine.new) watch.new text.new.bytes) }
    ensures err { OnErr result (WantsFinish L.keeps (state machine.old) core) }
{
    let finished = watch.finish(machine, core)?;
    write_finished(text, finished);
    Ok(())
}

/// A call, which is finished if it could begin.
#[inline(never)]
pub(crate) fn tell_call<M: SlotMap, A: Allocator + Clone, L: Ledger, X: Watch>(
    machine: &mut Machine<M, A, L>,
    watch: &mut X,
    core: CoreId,
    request: Request,
    text: &mut LineText,
) -> Result<(), NoMemory>
    ensures ok { OnOk result (Gives M.can_fold M.folds (state machine.old) (Line.Now core request)
        (state machine.new) text.new.bytes) }
    ensures seen { OnOk result (Sees X.after watch.old (state machine.old) (Asks (Line.Now core request))
        (state machine.new) watch.new text.new.bytes) }
    ensures err { OnErr result (Wants L.keeps (state machine.old) (Line.Now core request)) }
{
    let finished = watch.call(machine, core, request)?;
    write_finished(text, finished);
    Ok(())
}

// A load, which is finished if it could begin. It stands by itself, as a store does: each is compiled with no more than it needs of
// what a call may be.
#[inline(never)]
fn tell_load<M: SlotMap, A: Allocator + Clone, L: Ledger, X: Watch>(
    machine: &mut Machine<M, A, L>,
    watch: &mut X,
    core: CoreId,
    addr: u64,
    text: &mut LineText,
) -> Result<(), NoMemory>
    ensures ok { OnOk result (Gives M.can_fold M.folds (state machine.old) (Line.Now core (Load addr))
        (state machine.new) text.new.bytes) }
    ensures seen { OnOk result (Sees X.after watch.old (state machine.old) (Asks (Line.Now core (Load addr)))
        (state machine.new) watch.new text.new.bytes) }
    ensures err { OnErr result (Wants L.keeps (state machine.old) (Line.Now core (Load addr))) }
{
    let finished = watch.call(machine, core, Request::Load { addr })?;
    write_finished(text, finished);
    Ok(())
}

// A store, which is finished if it could begin.
#[inline(never)]
fn tell_store<M: SlotMap, A: Allocator + Clone, L: Ledger, X: Watch>(
    machine: &mut Machine<M, A, L>,
    watch: &mut X,
    core: CoreId,
    addr: u64,
    byte: u8,
    text: &mut LineText,
) -> Result<(), NoMemory>
    ensures ok { OnOk result (Gives M.can_fold M.folds (state machine.old) (Line.Now core (Store addr byte))
        (state machine.new) text.new.bytes) }
    ensures seen { OnOk result (Sees X.after watch.old (state machine.old) (Asks (Line.Now core (Store addr byte)))
        (state machine.new) watch.new text.new.bytes) }
    ensures err { OnErr result (Wants L.keeps (state machine.old) (Line.Now core (Store addr byte))) }
{
    let finished = watch.call(machine, core, Request::Store { addr, byte })?;
    write_finished(text, finished);
    Ok(())
}

/// A load or a store, known by its numbers, which no line is made of.
#[inline(always)]
pub(crate) fn tell_access<M: SlotMap, A: Allocator + Clone, L: Ledger, X: Watch>(
    machine: &mut Machine<M, A, L>,
    watch: &mut X,
    core: CoreId,
    access: AskedAccess,
    text: &mut LineText,
) -> Result<(), NoMemory>
    ensures ok { OnOk result (Gives M.can_fold M.folds (state machine.old) (Line.Now core (access_asked access))
        (state machine.new) text.new.bytes) }
    ensures seen { OnOk result (Sees X.after watch.old (state machine.old) (Asks (Line.Now core (access_asked access)))
        (state machine.new) watch.new text.new.bytes) }
    ensures err { OnErr result (Wants L.keeps (state machine.old) (Line.Now core (access_asked access))) }
{
    if access.is_store {
        return tell_store(machine, watch, core, access.addr, access.byte, text);
    }
    tell_load(machine, watch, core, access.addr, text)
}

/// Moves the machine as the line says, beside one who watches its steps, and replaces the text by what it gives. A line
/// that is bad, or the line of a space or of a file, is a bad line here, and nothing
/// changes. At `NoMemory` the steps before the refused one stand.
#[inline(always)]
pub(crate) fn watch_line<M: SlotMap, A: Allocator + Clone, L: Ledger, X: Watch>(
    machine: &mut Machine<M, A, L>,
    watch: &mut X,
    line: Option<Line>,
    number: u64,
    text: &mut LineText,
) -> Result<(), TraceFault>
    ensures ok { OnOk result
        (IsSomeAnd line (λ l. Gives M.can_fold M.folds (state machine.old) l (state machine.new) text.new.bytes)) }
    ensures seen { OnOk result (IsSomeAnd line (λ l. Sees X.after watch.old (state machine.old) (Asks l)
        (state machine.new) watch.new text.new.bytes)) }
    ensures err { IfErr result
        (λ f. ((f ≡ TraceFault.NoMemory) × IsSomeAnd line (λ l. Wants L.keeps (state machine.old) l))
        ⊎ ((is_event line ≡ false) × (f ≡ TraceFault.BadLine number))) }
{
    let Some(line) = line else {
        return Err(TraceFault::BadLine(number));
    };
    let done = match line {
        Line::Act(core, action) => tell_act(machine, watch, core, action, text),
        Line::Fold(page) => tell_fold(machine, watch, page, text),
        Line::Finish(core) => tell_finish(machine, watch, core, text),
        Line::Now(core, request) => tell_call(machine, watch, core, request, text),
        Line::Blank | Line::Space { .. } | Line::File { .. } => return Err(TraceFault::BadLine(
            number,
        )),
    };
    match done {
        Ok(()) => Ok(()),
        Err(_) => Err(TraceFault::NoMemory),
    }
}

/// Moves the machine as the line says, as `watch_line`, where nobody watches.
pub fn run_line<M: SlotMap, A: Allocator + Clone, L: Ledger>(
    machine: &mut Machine<M, A, L>,
    line: Option<Line>,
    number: u64,
    text: &mut LineText,
) -> Result<(), TraceFault>
    ensures ok { OnOk result
        (IsSomeAnd line (λ l. Gives M.can_fold M.folds (state machine.old) l (state machine.new) text.new.bytes)) }
    ensures err { IfErr result
        (λ f. ((f ≡ TraceFault.NoMemory) × IsSomeAnd line (λ l. Wants L.keeps (state machine.old) l))
        ⊎ ((is_event line ≡ false) × (f ≡ TraceFault.BadLine number))) }
{
    let mut nobody = Unwatched;
    watch_line(machine, &mut nobody, line, number, text)
}
