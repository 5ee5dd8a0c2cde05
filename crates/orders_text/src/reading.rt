//! The history of a text.
ghost use Rattle.std.specs.Prelude.{◌≡◌, ◌↔◌, ◌≤◌, IfErr, IfOk, IsTrue, OnOk, length};
ghost use Rattle.trace_io.specs.Lines.{lines_of};
ghost use Rattle.orders_text.specs.Faults.{IsAtFault};
ghost use Rattle.orders_text.specs.History.{IsHistory, Leads, unread};
ghost use Rattle.orders_text.specs.Lines.{Tells};
ghost use Rattle.orders_text.specs.Steps.{ComesTo, HasPlaces, SaysNothing, TellsOverlap, read_of};

use crate::apart::find_overlap;
use crate::clock::{Clock, PendingCall, between, none_waits};
use crate::faults::{HistoryFault, LINE_LIMIT};
use crate::lines::{HistoryLine, read_told};
use audit::Call;
use audit_text::declaring::{AuditHead, Declares};
use audit_text::reading::Said;
use orders::Timed;
use std::alloc::{AllocError, Allocator};
use trace_io::IoFault;
use trace_io::lines::front_line;
use vm_base::{CoreId, NoMemory, Reply, Request};

/// A history: what its text declares, and its calls.
#[derive(Drop)]
pub struct History<A: Allocator> {
    /// The space and its files.
    pub declaration: AuditHead<A>,
    /// By which clock the calls have their times.
    pub clock: Clock,
    /// The call of each core that waits for its reply, where lines are the clock.
    pub waiting: Vec<Option<PendingCall>, A>,
    /// The calls that have a reply, with their times, in the order of their lines.
    pub calls: Vec<Timed, A>,
    /// The number of the line of each call: of its reply, where lines are the clock.
    pub lines: Vec<u64, A>,
}

impl<A: Allocator + Clone> History<A> {
    ghost use Rattle.std.specs.Prelude.{◌≡◌, ◌≢◌, ◌≤◌, IfErr, IfOk, OnOk, Some, false, length, true};
    ghost use Rattle.orders_text.specs.History.{begun, by_lines, event_after, may_event, read_after, unread, with_call, with_waiting};
    ghost use Rattle.orders_text.specs.Lines.{needs_space};
    ghost use Rattle.orders_text.specs.Steps.{HasPlaces, Refuses, Unfit, read_of};
    ghost use Rattle.orders_text.specs.declared.lines.HistoryLine.TheVariants.{Event, Part, Timed as TimedCall};

    // Nothing is read yet, and there is room for so many calls.
    fn new(alloc: &A, room: usize) -> Result<History<A>, AllocError>
        ensures read { IfOk result (λ h. read_of h ≡ unread) }
        ensures few { IfOk result (λ h. length h.declaration.files.items ≤ 16) }
        ensures places { IfOk result (λ h. HasPlaces h) }
    {
        let waiting = none_waits(alloc.clone()?)?;
        let calls = Vec::with_capacity(alloc.clone()?, room)?;
        let lines = Vec::with_capacity(alloc.clone()?, room)?;
        let declaration = AuditHead::new(alloc.clone()?);
        Ok(History {
            declaration,
            clock: Clock::Unset,
            waiting,
            calls,
            lines,
        })
    }

    // Takes in the line of a declaration, which has this number, behind no call.
    #[tactic(auto, using(crate::proofs::ReadLemmas::declared_ok, crate::proofs::ReadLemmas::declared_err, crate::proofs::ReadLemmas::other_refused))]
    fn declare(&mut self, alloc: &A, number: u64, said: &Said) -> Result<(), HistoryFault>
        requires front { self.old.clock ≡ Clock.Unset }
        requires some { said.now ≢ Said.Blank }
        requires space { needs_space (Part said.now) ≡ true → self.old.declaration.has_space ≡ true }
        requires few { length self.old.declaration.files.items ≤ 16 }
        ensures ok { OnOk result (read_after number (read_of self.old) (Part said.now) ≡ Some (read_of self.new)) }
        ensures err { IfErr result (λ f. Refuses number (read_of self.old) (Part said.now) f) }
        ensures few { OnOk result (length self.new.declaration.files.items ≤ 16) }
        ensures waiting { self.new.waiting ≡ self.old.waiting }
    {
        match said {
            Said::Space { cores, .. } => come_to(self.declaration.add_space(*cores), number),
            Said::File {
                number: file,
                mode,
                len,
                seed,
            } => {
                let Ok(for_file) = alloc.clone() else {
                    return Err(HistoryFault::Io(IoFault::NoMemory));
                };
                match self
                    .declaration
                    .add_file(for_file, *file, *mode, *len, *seed)
                {
                    Ok(declares) => come_to(declares, number),
                    Err(_) => Err(HistoryFault::Io(IoFault::NoMemory)),
                }
            }
            _ => Err(HistoryFault::BadLine(number)),
        }
    }

    // Tells whether no space is declared behind which alone the line of a declaration may stand.
    fn lacks_space(&self, said: &Said) -> bool
        ensures yes { result ≡ true
            → (self.now.declaration.has_space ≡ false) × (needs_space (Part said.now) ≡ true) }
        ensures no { result ≡ false
            → needs_space (Part said.now) ≡ true → self.now.declaration.has_space ≡ true }
    {
        match said {
            Said::File { .. } => !self.declaration.has_space,
            _ => false,
        }
    }

    // Takes in the line of a declaration, or one that says nothing, which has this number.
    #[tactic(auto, using(crate::proofs::ReadLemmas::late_refused))]
    fn add_part(&mut self, alloc: &A, number: u64, said: &Said) -> Result<(), HistoryFault>
        requires few { length self.old.declaration.files.items ≤ 16 }
        ensures ok { OnOk result (read_after number (read_of self.old) (Part said.now) ≡ Some (read_of self.new)) }
        ensures err { IfErr result (λ f. Refuses number (read_of self.old) (Part said.now) f) }
        ensures few { OnOk result (length self.new.declaration.files.items ≤ 16) }
        ensures waiting { self.new.waiting ≡ self.old.waiting }
    {
        if is_blank(said) {
            return Ok(());
        }
        if self.lacks_space(said) {
            return Err(HistoryFault::NoVmLine);
        }
        if !self.clock.is_unset() {
            return Err(HistoryFault::BadLine(number));
        }
        self.declare(alloc, number, said)
    }

    // Takes in a call with its times, by this clock, whose line has this number.
    fn push_call(&mut self, clock: Clock, number: u64, timed: Timed) -> Result<(), NoMemory>
        ensures ok { OnOk result (read_of self.new ≡ with_call clock number (read_of self.old) timed) }
        ensures files { self.new.declaration ≡ self.old.declaration }
        ensures waiting { self.new.waiting ≡ self.old.waiting }
    {
        self.calls.push(timed)?;
        self.lines.push(number)?;
        self.clock = clock;
        Ok(())
    }

    // Takes in the line of a call with its times, which has this number.
    #[tactic(auto, using(crate::proofs::ReadLemmas::call_read, crate::proofs::ReadLemmas::call_late))]
    fn add_call(&mut self, number: u64, timed: Timed) -> Result<(), HistoryFault>
        ensures ok { OnOk result (read_after number (read_of self.old) (TimedCall timed) ≡ Some (read_of self.new)) }
        ensures err { IfErr result (λ f. Refuses number (read_of self.old) (TimedCall timed) f) }
        ensures files { self.new.declaration ≡ self.old.declaration }
        ensures waiting { self.new.waiting ≡ self.old.waiting }
    {
        if !self.declaration.has_space {
            return Err(HistoryFault::NoVmLine);
        }
        if timed.begin >= timed.end {
            return Err(HistoryFault::Backwards(number));
        }
        if !self.clock.may_stamp() {
            return Err(HistoryFault::BadLine(number));
        }
        let Ok(()) = self.push_call(Clock::Stamps, number, timed) else {
            return Err(HistoryFault::Io(IoFault::NoMemory));
        };
        Ok(())
    }

    // The call of a core that waits.
    fn begun(&self, core: CoreId) -> Option<PendingCall>
        requires { HasPlaces self.now }
        ensures { result ≡ begun (read_of self.now) core }
    {
        self.waiting[core.index() as usize]
    }

    // Takes in which call of a core waits, if one does.
    fn put(&mut self, core: CoreId, waits: Option<PendingCall>)
        requires places { HasPlaces self.old }
        ensures read { read_of self.new ≡ with_waiting (read_of self.old) core waits }
        ensures files { self.new.declaration ≡ self.old.declaration }
        ensures places { HasPlaces self.new }
    {
        self.waiting[core.index() as usize] = waits;
        self.clock = Clock::Lines;
    }

    // Takes in an answered call that begins and ends in the line with this number.
    #[tactic(auto, using(crate::proofs::EventLemmas::answered_bad, crate::proofs::EventLemmas::answered_ok))]
    fn answer(&mut self, number: u64, call: Call) -> Result<(), HistoryFault>
        requires places { HasPlaces self.old }
        ensures ok { OnOk result (
            event_after number (read_of self.old) (Said.Answered call) ≡ Some (read_of self.new)) }
        ensures err { IfErr result (λ f. Unfit number (read_of self.old) (Said.Answered call) f) }
        ensures files { self.new.declaration ≡ self.old.declaration }
        ensures places { HasPlaces self.new }
    {
        if self.begun(call.core).is_some() {
            return Err(HistoryFault::BadLine(number));
        }
        let Some(timed) = between(number, number, call) else {
            // (this never comes, since no text has so many lines)
            return Err(HistoryFault::Io(IoFault::NoMemory));
        };
        let Ok(()) = self.push_call(Clock::Lines, number, timed) else {
            return Err(HistoryFault::Io(IoFault::NoMemory));
        };
        Ok(())
    }

    // Takes in a call that begins to wait in the line with this number.
    #[tactic(auto, using(crate::proofs::EventLemmas::waits_bad, crate::proofs::EventLemmas::waits_ok))]
    fn wait(&mut self, number: u64, core: CoreId, request: Request) -> Result<(), HistoryFault>
        requires places { HasPlaces self.old }
        ensures ok { OnOk result (
            event_after number (read_of self.old) (Said.Waits core request) ≡ Some (read_of self.new)) }
        ensures err { IfErr result (λ f. Unfit number (read_of self.old) (Said.Waits core request) f) }
        ensures files { self.new.declaration ≡ self.old.declaration }
        ensures places { HasPlaces self.new }
    {
        if self.begun(core).is_some() {
            return Err(HistoryFault::BadLine(number));
        }
        self.put(
            core,
            Some(PendingCall {
                line: number,
                request,
            }),
        );
        Ok(())
    }

    // Takes in the reply, in the line with this number, of the core's call that waits.
    fn end(&mut self, number: u64, core: CoreId, reply: Reply) -> Result<(), HistoryFault>
        requires places { HasPlaces self.old }
        ensures ok { OnOk result (
            event_after number (read_of self.old) (Said.Ends core reply) ≡ Some (read_of self.new)) }
        ensures err { IfErr result (λ f. Unfit number (read_of self.old) (Said.Ends core reply) f) }
        ensures files { self.new.declaration ≡ self.old.declaration }
        ensures places { HasPlaces self.new }
    {
        let Some(waits) = self.begun(core) else {
            return Err(HistoryFault::BadLine(number));
        };
        let call = Call {
            core,
            request: waits.request,
            reply,
        };
        let Some(timed) = between(waits.line, number, call) else {
            // (this never comes, since no text has so many lines)
            return Err(HistoryFault::Io(IoFault::NoMemory));
        };
        self.put(core, None);
        let Ok(()) = self.push_call(Clock::Lines, number, timed) else {
            return Err(HistoryFault::Io(IoFault::NoMemory));
        };
        Ok(())
    }

    // Takes in the line with this number, of an event that changes nothing, if it may stand here.
    fn pass(&mut self, number: u64, may: bool) -> Result<(), HistoryFault>
        ensures ok { OnOk result ((may ≡ true) × (read_of self.new ≡ by_lines (read_of self.old))) }
        ensures err { IfErr result (λ f. (may ≡ false) × (f ≡ HistoryFault.BadLine number)) }
        ensures files { self.new.declaration ≡ self.old.declaration }
        ensures waiting { self.new.waiting ≡ self.old.waiting }
    {
        if !may {
            return Err(HistoryFault::BadLine(number));
        }
        self.clock = Clock::Lines;
        Ok(())
    }

    // Takes in what the line of an event tells, which has this number.
    fn take(&mut self, number: u64, said: &Said) -> Result<(), HistoryFault>
        requires places { HasPlaces self.old }
        ensures ok { OnOk result (event_after number (read_of self.old) said.now ≡ Some (read_of self.new)) }
        ensures err { IfErr result (λ f. Unfit number (read_of self.old) said.now f) }
        ensures files { self.new.declaration ≡ self.old.declaration }
        ensures places { HasPlaces self.new }
    {
        match said {
            Said::Answered(call) => self.answer(number, *call),
            Said::Waits(core, request) => self.wait(number, *core, *request),
            Said::Ends(core, reply) => self.end(number, *core, *reply),
            Said::StillWaits(core) => {
                let may = self.begun(*core).is_some();
                self.pass(number, may)
            }
            Said::Passes => self.pass(number, true),
            Said::Blank | Said::Space { .. } | Said::File { .. } | Said::Copies(_) => Err(
                HistoryFault::BadLine(number),
            ),
        }
    }

    // Takes in the line of an event, which has this number.
    fn add_event(&mut self, number: u64, said: &Said) -> Result<(), HistoryFault>
        requires places { HasPlaces self.old }
        ensures ok { OnOk result (read_after number (read_of self.old) (Event said.now) ≡ Some (read_of self.new)) }
        ensures err { IfErr result (λ f. Refuses number (read_of self.old) (Event said.now) f) }
        ensures files { self.new.declaration ≡ self.old.declaration }
        ensures places { HasPlaces self.new }
    {
        if !self.declaration.has_space {
            return Err(HistoryFault::NoVmLine);
        }
        if !self.clock.may_event() {
            return Err(HistoryFault::BadLine(number));
        }
        self.take(number, said)
    }

    // Takes in what the line with this number says.
    fn add(&mut self, alloc: &A, number: u64, told: &HistoryLine) -> Result<(), HistoryFault>
        requires few { length self.old.declaration.files.items ≤ 16 }
        requires places { HasPlaces self.old }
        ensures ok { OnOk result (read_after number (read_of self.old) told.now ≡ Some (read_of self.new)) }
        ensures err { IfErr result (λ f. Refuses number (read_of self.old) told.now f) }
        ensures few { OnOk result (length self.new.declaration.files.items ≤ 16) }
        ensures places { HasPlaces self.new }
    {
        match told {
            HistoryLine::Part(said) => self.add_part(alloc, number, said),
            HistoryLine::Timed(timed) => self.add_call(number, *timed),
            HistoryLine::Event(said) => self.add_event(number, said),
        }
    }
}

// What taking in the line of a declaration comes to, which has this number.
fn come_to(declares: Declares, number: u64) -> Result<(), HistoryFault>
    ensures { ComesTo declares number result }
{
    match declares {
        Declares::Part => Ok(()),
        Declares::Bad => Err(HistoryFault::BadLine(number)),
        Declares::Ended => Err(HistoryFault::NoVmLine),
    }
}

// Tells whether a line says nothing.
fn is_blank(said: &Said) -> bool
    ensures { IsTrue result ↔ (said.now ≡ Said.Blank) }
{
    matches!(said, Said::Blank)
}

// What the line says, which has this number. The fault is its own.
fn told_at(line: &[u8], number: u64) -> Result<HistoryLine, HistoryFault>
    ensures ok { IfOk result (λ told. (length line.now ≤ 512) × Tells told line.now) }
    ensures err { IfErr result (λ f. SaysNothing line.now number f) }
{
    if line.len() > LINE_LIMIT {
        return Err(HistoryFault::TooLong(number));
    }
    match read_told(line) {
        Some(told) => Ok(told),
        None => Err(HistoryFault::BadLine(number)),
    }
}

// How many lines a text may have: so many newlines, and one more.
fn line_count(text: &[u8]) -> usize {
    let mut count = 1usize;
    for byte in text {
        if *byte == b'\n' {
            count = count.wrapping_add(1);
        }
    }
    count
}

// Takes in all lines of a text.
fn read_lines<A: Allocator + Clone>(
    history: &mut History<A>,
    alloc: &A,
    text: &[u8],
) -> Result<(), HistoryFault>
    requires fresh { read_of history.old ≡ unread }
    requires few { length history.old.declaration.files.items ≤ 16 }
    requires places { HasPlaces history.old }
    ensures ok { OnOk result (Leads 1 unread (lines_of text.now) (read_of history.new)) }
    ensures few { OnOk result (length history.new.declaration.files.items ≤ 16) }
    ensures places { OnOk result (HasPlaces history.new) }
    ensures err { IfErr result (λ f. IsAtFault (lines_of text.now) f) }
{
    // this says that lines are fewer than 2^64
    let _most = text.len();
    let mut rest = text;
    let mut number = 0u64;
    'lines: loop {
        if rest.is_empty() {
            return Ok(());
        }
        number += 1;
        let (line, more) = front_line(rest);
        let told = told_at(line, number)?;
        rest = more;
        history.add(alloc, number, &told)?;
    }
}

// The fault that these calls overlap, by the numbers of their lines.
fn overlap_fault(lines: &[u64], one: usize, other: usize) -> HistoryFault
    ensures { TellsOverlap lines.now one other result }
{
    let Some(number) = lines.get(one).copied() else {
        // (this never comes, since each call has a line)
        return HistoryFault::Io(IoFault::NoMemory);
    };
    match lines.get(other).copied() {
        Some(before) => HistoryFault::Overlap(number, before),
        None => HistoryFault::Io(IoFault::NoMemory),
    }
}

// Reads a text whole, and tells why it is no history, if it is none.
fn read_whole<A: Allocator + Clone + Drop>(
    history: &mut History<A>,
    alloc: &A,
    text: &[u8],
) -> Result<(), HistoryFault>
    requires fresh { read_of history.old ≡ unread }
    requires few { length history.old.declaration.files.items ≤ 16 }
    requires places { HasPlaces history.old }
    ensures ok { OnOk result (IsHistory (lines_of text.now) (read_of history.new)) }
    ensures few { OnOk result (length history.new.declaration.files.items ≤ 16) }
    ensures places { OnOk result (HasPlaces history.new) }
    ensures err { IfErr result (λ f. IsAtFault (lines_of text.now) f) }
{
    if let Err(fault) = read_lines(history, alloc, text) {
        return Err(fault);
    }
    let lacks_space = !history.declaration.has_space;
    if lacks_space {
        return Err(HistoryFault::NoVmLine);
    }
    match find_overlap(alloc, history.calls.as_slice()) {
        Ok(None) => Ok(()),
        Ok(Some((one, other))) => Err(overlap_fault(history.lines.as_slice(), one, other)),
        Err(_) => Err(HistoryFault::Io(IoFault::NoMemory)),
    }
}

/// Reads a text whole: the history that it is, or why it is none, by the first line that may not stand where it is. The lines of calls
/// with their times may stand in any order behind those of the space and its files. In a text of events, as `audit` reads it, a call is
/// under way from the line in which it begins to that of its reply.
pub fn read_history<A: Allocator + Clone + Drop>(
    alloc: &A,
    text: &[u8],
) -> Result<History<A>, HistoryFault>
    ensures ok { IfOk result (λ h. IsHistory (lines_of text.now) (read_of h)) }
    ensures few { IfOk result (λ h. length h.declaration.files.items ≤ 16) }
    ensures places { IfOk result (λ h. HasPlaces h) }
    ensures err { IfErr result (λ f. IsAtFault (lines_of text.now) f) }
{
    let Ok(mut history) = History::new(alloc, line_count(text)) else {
        return Err(HistoryFault::Io(IoFault::NoMemory));
    };
    match read_whole(&mut history, alloc, text) {
        Ok(()) => Ok(history),
        Err(fault) => {
            drop(history);
            Err(fault)
        }
    }
}
