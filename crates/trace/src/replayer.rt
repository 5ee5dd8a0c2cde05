//! A replay between two lines, and what one line does to it.
ghost use Rattle.std.specs.Prelude.{◌≡◌, ◌≤◌, ◌⊎◌, ℕ, List, [], Bool, false, option_map, None, Some, IfOk};
ghost use Rattle.machine_model.specs.Setups.{Fits};
ghost use Rattle.std.specs.Prelude.{IfErr, IfNone, IfSome, OnOk, IsSomeAnd};
ghost use Rattle.core_steps.specs.Machine.{state};
ghost use Rattle.machine_log.specs.Packing.{listed};
ghost use Rattle.machine_model.specs.declared.setup.CallLimit.TheVariants.{Usual};
ghost use Rattle.trace_text.specs.Front.{access_asked, step_asked};
ghost use Rattle.trace_text.specs.Words.{words_of};
ghost use Rattle.trace.specs.Stage.{Stage, Start, Declared, stage_of, Opens, OpenFails, CanOpen, Acts};
ghost use Rattle.trace.specs.Stage.{BadFails, EventActs, EventFails, EventWants, FileFails, LateFails};
ghost use Rattle.trace.specs.Stage.{LineActs, LineFails, LineWants, SpaceFails};
ghost use Rattle.trace_words.specs.Kinds.{kind_of};
ghost use Rattle.trace.specs.Seen.{Grows, SeesAll, SeesEvent};
ghost use Rattle.trace.specs.Shown.{HasNoneAt, IsNextAt, IsStartAt, log_at};

use crate::event_lines::{tell_access, tell_asked, tell_call, watch_line};
use core_steps::Machine;
use machine_log::{Ledger, LoggedEntries, Opening};
use machine_model::{CallLimit, SetupFault};
use mmu::{Cpu, Hardware};
use radix_range::RadixMap;
use slot_lock::{MapLine, SlotMap};
use std::alloc::Allocator;
use trace_text::{
    AskedAccess, AskedStep, Line, LineText, first_word_is_file, first_word_is_vm,
    is_printable_line, read_access, read_call, read_line, read_step,
};
use trace_words::declaration::{Declaration, FileLine};
use trace_words::fault::TraceFault;
use vm_base::{CoreId, Request};
use watched::Watch;

/// What acts on the lines of a trace, one at a time.
pub trait Staged {
    // How far the trace has come.
    ghost stage: { Self → Stage };
    // Whether its log can be read.
    ghost keeps: { Bool };
    // What was seen of these lines, which gave this text, from the one state on to the other.
    ghost saw: { Self → Self → List (List ℕ) → List ℕ → Type 0 };

    /// Acts on the line with this number, and replaces the text by what it gives. A fault that
    /// isn't want of memory is the line's first. After a fault no other line is acted on.
    fn act(&mut self, number: u64, line: &[u8], text: &mut LineText) -> Result<(), TraceFault>
        ensures ok { OnOk result (Acts (stage self.old) line.now (stage self.new) text.new.bytes) }
        ensures seen { OnOk result (Grows saw self.old line.now self.new text.new.bytes) }
        ensures err { IfErr result (λ f.
            ((f ≡ TraceFault.NoMemory) × LineWants keeps (stage self.old) line.now)
            ⊎ LineFails (stage self.old) number line.now f) };

    /// Ends the trace: a machine is made where no line has made one yet.
    fn finish(&self) -> Result<(), TraceFault>
        ensures ok { OnOk result (CanOpen (stage self.now)) }
        ensures err { IfErr result (λ f. OpenFails (stage self.now) f) };

    /// The log of the machine, where it is kept; up to the first event it is empty.
    fn log(&self) -> Option<LoggedEntries<'_>>
        ensures some { IfSome result (λ log. listed log ≡ log_at (stage self.now)) }
        ensures none { IfNone result (keeps ≡ false) };

    /// The first mapping that begins at the page `from` or above, where none goes across
    /// that page; up to the first event there is none.
    fn next_map_line(&self, from: u64) -> Option<MapLine>
        requires low { 1 ≤ from }
        requires begins { IsStartAt (stage self.now) from }
        ensures some { IfSome result (IsNextAt (stage self.now) from) }
        ensures none { IfNone result (HasNoneAt (stage self.now) from) };
}

/// A replay between two lines. Up to the `vm` line it has neither a declaration nor a machine, then
/// a declaration, and from the first line of an event on a machine, whose log goes to the ledger, and
/// whose steps may be watched.
#[derive(Drop)]
pub struct Replayer<A: Allocator + Clone, L: Ledger, X: Watch>
where
    RadixMap<A>: SlotMap,
    Cpu<A>: Hardware,
{
    alloc: A,
    /// How many calls the `vm` line may ask for.
    limit: CallLimit,
    declaration: Option<Declaration>,
    machine: Option<Machine<RadixMap<A>, A, L>>,
    watch: X,
    ghost fits: { Fits L.keeps limit },
}

// The machine that is asked for, within the limit of calls. Its own faults come before want of
// memory for the bytes of files, and that before want of memory for the machine.
fn made<A: Allocator + Clone + Drop, L: Opening<A> + Drop>(
    alloc: &A,
    limit: CallLimit,
    declaration: &Option<Declaration>,
) -> Result<Machine<RadixMap<A>, A, L>, TraceFault>
    requires { Fits L.keeps limit }
    ensures ok { IfOk result (λ m. Opens (stage_of limit declaration.now None) (state m)) }
    ensures err { IfErr result (λ f. OpenFails (stage_of limit declaration.now None) f) }
{
    let Some(declaration) = declaration else {
        return Err(TraceFault::NoVmLine);
    };
    if let Some(fault) = declaration.fault_within(limit) {
        return Err(TraceFault::Setup(fault));
    }
    let Ok(for_files) = alloc.clone() else {
        return Err(TraceFault::Setup(SetupFault::NoMemory));
    };
    let Ok(setup) = declaration.setup_as_asked(for_files) else {
        return Err(TraceFault::NoMemory);
    };
    let Ok(for_map) = alloc.clone() else {
        return Err(TraceFault::Setup(SetupFault::NoMemory));
    };
    let Ok(map) = RadixMap::new(for_map) else {
        return Err(TraceFault::Setup(SetupFault::NoMemory));
    };
    let Ok(for_machine) = alloc.clone() else {
        return Err(TraceFault::Setup(SetupFault::NoMemory));
    };
    match Machine::new_within(limit, for_machine, map, setup) {
        Ok(machine) => Ok(machine),
        Err(fault) => Err(TraceFault::Setup(fault)),
    }
}

// What is reported of a bad line at which a machine is made: why none can be, or else
// that the line is bad.
#[tactic(auto, using(crate::proofs::Acting::late_err, crate::proofs::Acting::late_ok))]
fn late_fault<A: Allocator + Clone + Drop, L: Opening<A> + Drop>(
    alloc: &A,
    limit: CallLimit,
    declaration: &Option<Declaration>,
    number: u64,
) -> TraceFault
    requires { Fits L.keeps limit }
    ensures { IfSome declaration.now (λ a. LateFails limit a number result) }
{
    match made::<A, L>(alloc, limit, declaration) {
        Ok(_) => TraceFault::BadLine(number),
        Err(fault) => fault,
    }
}

impl<A: Allocator + Clone + Drop, L: Opening<A> + Drop, X: Watch + Drop> Replayer<A, L, X> {
    /// A replay before the first line, whose steps this one watches.
    pub fn new(alloc: A, watch: X) -> Replayer<A, L, X>
        ensures stage { ⟦<Self as Staged>⟧.stage result ≡ Start Usual }
        ensures watch { result.watch ≡ watch }
    {
        Replayer::within(CallLimit::Usual, alloc, watch)
    }

    /// A replay before the first line, of a trace that may ask for as many calls as this limit says.
    pub fn within(limit: CallLimit, alloc: A, watch: X) -> Replayer<A, L, X>
        requires { Fits L.keeps limit }
        ensures stage { ⟦<Self as Staged>⟧.stage result ≡ Start limit }
        ensures watch { result.watch ≡ watch }
    {
        Replayer {
            alloc,
            limit,
            declaration: None,
            machine: None,
            watch,
        }
    }

    /// Who watched the steps.
    pub(crate) fn into_watch(self) -> X
        ensures { result ≡ self.watch }
    {
        self.watch
    }

    /// Who watched the steps, and the machine, if a line has made one.
    pub(crate) fn into_parts(self) -> (X, Option<Machine<RadixMap<A>, A, L>>)
        ensures watch { result.0 ≡ self.watch }
        ensures machine { result.1 ≡ self.machine }
    {
        (self.watch, self.machine)
    }

    // Takes in the `vm` line.
    #[tactic(auto, using(crate::proofs::Acting::space_late, crate::proofs::Acting::space_running, crate::proofs::Acting::space_taken))]
    fn act_on_space(
        &mut self,
        number: u64,
        cores: u64,
        frames: u64,
        calls: u64,
        text: &mut LineText,
    ) -> Result<(), TraceFault>
        ensures ok { OnOk result (LineActs (⟦<Self as Staged>⟧.stage self.old)
            (Line.Space cores frames calls) (⟦<Self as Staged>⟧.stage self.new) text.new.bytes) }
        ensures watch { self.new.watch ≡ self.old.watch }
        ensures err { IfErr result (λ f. SpaceFails (⟦<Self as Staged>⟧.stage self.old) number f) }
    {
        if self.machine.is_some() {
            return Err(TraceFault::BadLine(number));
        }
        if self.declaration.is_some() {
            return Err(late_fault::<A, L>(&self.alloc, self.limit, &self.declaration, number));
        }
        self.declaration = Some(Declaration::new(cores, frames, calls));
        text.clear();
        Ok(())
    }

    // What is reported of a line that says nothing that a trace may say.
    #[tactic(auto, using(crate::proofs::Acting::bad_file, crate::proofs::Acting::bad_late, crate::proofs::Acting::bad_other, crate::proofs::Acting::bad_running, crate::proofs::Acting::bad_space))]
    fn fault_of_bad(&self, number: u64, line: &[u8]) -> TraceFault
        ensures { BadFails (⟦<Self as Staged>⟧.stage self.now) number (kind_of (words_of line.now)) result }
    {
        if self.machine.is_some() {
            return TraceFault::BadLine(number);
        }
        if self.declaration.is_none() {
            if first_word_is_vm(line) {
                return TraceFault::BadLine(number);
            }
            return TraceFault::NoVmLine;
        }
        if first_word_is_file(line) {
            return TraceFault::BadLine(number);
        }
        late_fault::<A, L>(&self.alloc, self.limit, &self.declaration, number)
    }

    // Takes in the line of a file.
    fn act_on_file(
        &mut self,
        number: u64,
        next: u64,
        file: FileLine,
        text: &mut LineText,
    ) -> Result<(), TraceFault>
        ensures ok { OnOk result (LineActs (⟦<Self as Staged>⟧.stage self.old)
            (Line.File next file.mode file.len file.seed) (⟦<Self as Staged>⟧.stage self.new) text.new.bytes) }
        ensures watch { self.new.watch ≡ self.old.watch }
        ensures err { IfErr result (λ f. FileFails (⟦<Self as Staged>⟧.stage self.old) number next f) }
    {
        if self.machine.is_some() {
            return Err(TraceFault::BadLine(number));
        }
        let Some(declaration) = &mut self.declaration else {
            return Err(TraceFault::NoVmLine);
        };
        if !declaration.add(next, file) {
            return Err(TraceFault::BadLine(number));
        }
        text.clear();
        Ok(())
    }

    // Acts on the first line of an event, which needs a machine: it is made. It stands by
    // itself, so that the lines after it have no room for a machine on their stack, which
    // would be cleared for each.
    #[inline(never)]
    fn act_on_first_event(
        &mut self,
        number: u64,
        line: Option<Line>,
        text: &mut LineText,
    ) -> Result<(), TraceFault>
        requires { self.old.machine ≡ None }
        ensures ok { OnOk result
            (IsSomeAnd line (λ l. EventActs (⟦<Self as Staged>⟧.stage self.old) l
            (⟦<Self as Staged>⟧.stage self.new) text.new.bytes)) }
        ensures seen { OnOk result (IsSomeAnd line (λ l. SeesEvent X.after (⟦<Self as Staged>⟧.stage self.old)
            self.old.watch l (⟦<Self as Staged>⟧.stage self.new) self.new.watch text.new.bytes)) }
        ensures err { IfErr result
            (λ f. ((f ≡ TraceFault.NoMemory)
            × IsSomeAnd line (λ l. EventWants L.keeps (⟦<Self as Staged>⟧.stage self.old) l))
            ⊎ EventFails (⟦<Self as Staged>⟧.stage self.old) number line f) }
    {
        let mut machine = match made(&self.alloc, self.limit, &self.declaration) {
            Ok(machine) => machine,
            Err(fault) => return Err(fault),
        };
        let done = watch_line(&mut machine, &mut self.watch, line, number, text);
        self.machine = Some(machine);
        done
    }

    // Acts on a line that isn't the `vm` line or one of a file, and has words.
    #[inline(always)]
    fn act_on_event(
        &mut self,
        number: u64,
        line: Option<Line>,
        text: &mut LineText,
    ) -> Result<(), TraceFault>
        ensures ok { OnOk result
            (IsSomeAnd line (λ l. EventActs (⟦<Self as Staged>⟧.stage self.old) l
            (⟦<Self as Staged>⟧.stage self.new) text.new.bytes)) }
        ensures seen { OnOk result (IsSomeAnd line (λ l. SeesEvent X.after (⟦<Self as Staged>⟧.stage self.old)
            self.old.watch l (⟦<Self as Staged>⟧.stage self.new) self.new.watch text.new.bytes)) }
        ensures err { IfErr result
            (λ f. ((f ≡ TraceFault.NoMemory)
            × IsSomeAnd line (λ l. EventWants L.keeps (⟦<Self as Staged>⟧.stage self.old) l))
            ⊎ EventFails (⟦<Self as Staged>⟧.stage self.old) number line f) }
    {
        match &mut self.machine {
            Some(machine) => watch_line(machine, &mut self.watch, line, number, text),
            None => self.act_on_first_event(number, line, text),
        }
    }

    // Acts on the line of a load or a store.
    #[inline(always)]
    fn act_on_access(
        &mut self,
        number: u64,
        core: CoreId,
        access: AskedAccess,
        text: &mut LineText,
    ) -> Result<(), TraceFault>
        ensures ok { OnOk result (EventActs (⟦<Self as Staged>⟧.stage self.old) (Line.Now core (access_asked access))
            (⟦<Self as Staged>⟧.stage self.new) text.new.bytes) }
        ensures seen { OnOk result (SeesEvent X.after (⟦<Self as Staged>⟧.stage self.old) self.old.watch
            (Line.Now core (access_asked access)) (⟦<Self as Staged>⟧.stage self.new) self.new.watch text.new.bytes) }
        ensures err { IfErr result
            (λ f. ((f ≡ TraceFault.NoMemory) × EventWants L.keeps (⟦<Self as Staged>⟧.stage self.old)
            (Line.Now core (access_asked access)))
            ⊎ EventFails (⟦<Self as Staged>⟧.stage self.old) number (Some (Line.Now core (access_asked access))) f) }
    {
        match &mut self.machine {
            Some(machine) => match tell_access(machine, &mut self.watch, core, access, text) {
                Ok(()) => Ok(()),
                Err(_) => Err(TraceFault::NoMemory),
            },
            None => {
                let line = Line::Now(core, access.request());
                self.act_on_first_event(number, Some(line), text)
            }
        }
    }

    // Acts on the line of another call.
    #[inline(always)]
    fn act_on_call(
        &mut self,
        number: u64,
        core: CoreId,
        request: Request,
        text: &mut LineText,
    ) -> Result<(), TraceFault>
        ensures ok { OnOk result (EventActs (⟦<Self as Staged>⟧.stage self.old) (Line.Now core request)
            (⟦<Self as Staged>⟧.stage self.new) text.new.bytes) }
        ensures seen { OnOk result (SeesEvent X.after (⟦<Self as Staged>⟧.stage self.old) self.old.watch
            (Line.Now core request) (⟦<Self as Staged>⟧.stage self.new) self.new.watch text.new.bytes) }
        ensures err { IfErr result
            (λ f. ((f ≡ TraceFault.NoMemory) × EventWants L.keeps (⟦<Self as Staged>⟧.stage self.old)
            (Line.Now core request))
            ⊎ EventFails (⟦<Self as Staged>⟧.stage self.old) number (Some (Line.Now core request)) f) }
    {
        match &mut self.machine {
            Some(machine) => match tell_call(machine, &mut self.watch, core, request, text) {
                Ok(()) => Ok(()),
                Err(_) => Err(TraceFault::NoMemory),
            },
            None => {
                let line = Line::Now(core, request);
                self.act_on_first_event(number, Some(line), text)
            }
        }
    }

    // Acts on a line that tells a core one step by its word.
    #[inline(always)]
    fn act_on_step(
        &mut self,
        number: u64,
        core: CoreId,
        step: AskedStep,
        text: &mut LineText,
    ) -> Result<(), TraceFault>
        ensures ok { OnOk result (EventActs (⟦<Self as Staged>⟧.stage self.old) (Line.Act core (step_asked step))
            (⟦<Self as Staged>⟧.stage self.new) text.new.bytes) }
        ensures seen { OnOk result (SeesEvent X.after (⟦<Self as Staged>⟧.stage self.old) self.old.watch
            (Line.Act core (step_asked step)) (⟦<Self as Staged>⟧.stage self.new) self.new.watch text.new.bytes) }
        ensures err { IfErr result
            (λ f. ((f ≡ TraceFault.NoMemory) × EventWants L.keeps (⟦<Self as Staged>⟧.stage self.old)
            (Line.Act core (step_asked step)))
            ⊎ EventFails (⟦<Self as Staged>⟧.stage self.old) number (Some (Line.Act core (step_asked step))) f) }
    {
        match &mut self.machine {
            Some(machine) => match tell_asked(machine, &mut self.watch, core, step, text) {
                Ok(()) => Ok(()),
                Err(_) => Err(TraceFault::NoMemory),
            },
            None => {
                let line = Line::Act(core, step.action());
                self.act_on_first_event(number, Some(line), text)
            }
        }
    }

    // Acts on a line that is neither a load nor a store nor one step, or that is written in a rarer form. It stands by itself,
    // so that the commonest lines have no room for what any line may say.
    #[inline(never)]
    fn act_on_other(
        &mut self,
        number: u64,
        line: &[u8],
        text: &mut LineText,
    ) -> Result<(), TraceFault>
        ensures ok { OnOk result (Acts (⟦<Self as Staged>⟧.stage self.old) line.now (⟦<Self as Staged>⟧.stage self.new) text.new.bytes) }
        ensures seen { OnOk result (Grows (⟦<Self as Staged>⟧.saw) self.old line.now self.new text.new.bytes) }
        ensures err { IfErr result (λ f.
            ((f ≡ TraceFault.NoMemory) × LineWants L.keeps (⟦<Self as Staged>⟧.stage self.old) line.now)
            ⊎ LineFails (⟦<Self as Staged>⟧.stage self.old) number line.now f) }
    {
        if let Some(begun) = read_call(line) {
            return self.act_on_call(number, begun.0, begun.1, text);
        }
        let said = read_line(line);
        if !is_printable_line(line, &said) {
            return Err(TraceFault::BadLine(number));
        }
        let Some(said) = said else {
            return Err(self.fault_of_bad(number, line));
        };
        match said {
            Line::Blank => {
                text.clear();
                Ok(())
            }
            Line::Space {
                cores,
                frames,
                calls,
            } => self.act_on_space(number, cores, frames, calls, text),
            Line::File {
                number: next,
                mode,
                len,
                seed,
            } => self.act_on_file(number, next, FileLine { mode, len, seed }, text),
            Line::Act(..) | Line::Fold(_) | Line::Finish(_) | Line::Now(..) => {
                self.act_on_event(number, Some(said), text)
            }
        }
    }
}

impl<A: Allocator + Clone + Drop, L: Opening<A> + Drop, X: Watch + Drop> Staged
    for Replayer<A, L, X> {
    ghost stage = { λ r. stage_of r.limit r.declaration (option_map state r.machine) };

    ghost keeps = { L.keeps };

    ghost saw = { λ first now lines text. SeesAll X.after first.watch
        (stage_of now.limit now.declaration (option_map state now.machine)) lines text now.watch };

    // It is inlined although several words replay: a call for each line costs a tenth of a hit.
    #[inline(always)]
    fn act(&mut self, number: u64, line: &[u8], text: &mut LineText) -> Result<(), TraceFault> {
        if let Some(begun) = read_access(line) {
            return self.act_on_access(number, begun.0, begun.1, text);
        }
        if let Some(told) = read_step(line) {
            return self.act_on_step(number, told.0, told.1, text);
        }
        self.act_on_other(number, line, text)
    }

    fn finish(&self) -> Result<(), TraceFault> {
        match &self.machine {
            Some(_) => Ok(()),
            None => match made::<A, L>(&self.alloc, self.limit, &self.declaration) {
                Ok(_) => Ok(()),
                Err(fault) => Err(fault),
            },
        }
    }

    fn log(&self) -> Option<LoggedEntries<'_>> {
        match &self.machine {
            Some(machine) => machine.kept_log(),
            None => Some(LoggedEntries::of(&[])),
        }
    }

    fn next_map_line(&self, from: u64) -> Option<MapLine> {
        match &self.machine {
            Some(machine) => machine.next_map_line(from),
            None => None,
        }
    }
}
