//! Whether the notes of a text are a run of the machine.
ghost use Rattle.std.specs.Prelude.{◌≡◌, ◌⊎◌, [], ◌∷◌, Err, IfErr, IfOk, IsSomeAnd, None, option_copied, true};
ghost use Rattle.certifier.specs.Order.{AreNumbered};
ghost use Rattle.certifier.specs.Standings.{AreStandings};
ghost use Rattle.machine_model.specs.Setups.{fault_of, made_of};
ghost use Rattle.seats.specs.Packing.{shown};
ghost use Rattle.trace_io.specs.Io.{read_from, written_to};
ghost use Rattle.trace_io.specs.Source.{HasStopped, Reads};
ghost use Rattle.trace_words.specs.Declarations.{DeclarationView, asked_fault, made_by};
ghost use Rattle.trace_words.specs.Faults.{TellsFaults};
ghost use Rattle.trace_words.specs.declared.fault.TraceFault.TheVariants.{ReadFailed, WriteFailed};
ghost use Rattle.notes_text.specs.CertifyEnds.{Certifies, FindsVerdict};
ghost use Rattle.notes_text.specs.Verdicts.{Judges};

use crate::kept_notes::KeptNotes;
use crate::noted_line::NoteLines;
use crate::verdict::{NotesVerdict, write_verdict};
use certifier::order::{Standing, standings};
use certifier::{CertifyFault, certify_standing};
use live_tree::histories::Histories;
use machine_model::Setup;
use radix_range::RadixMap;
use seats::{NoteList, Noted, Notes};
use slot_lock::SlotMap;
use std::alloc::Allocator;
use trace_io::sink::Sink;
use trace_io::source::Source;
use trace_words::collecting::collect;
use trace_words::collector::Collector;
use trace_words::declaration::Declaration;
use trace_words::fault::TraceFault;
use vm_base::NoMemory;

// A text has no histories of slots.
fn no_histories<'a, A: Allocator>() -> Option<&'a Histories<A>>
    ensures { option_copied result ≡ None }
{
    None
}

// The result of certifying these notes, where it is known how each ticket stands. So memory is refused only where each
// stands once.
fn judge<A: Allocator + Clone + Drop>(
    alloc: A,
    setup: Setup<A>,
    notes: &Notes<'_>,
    standings: &[Standing],
) -> Result<NotesVerdict, NoMemory>
    requires sound { fault_of setup ≡ None }
    requires standings { AreStandings (shown notes.now ∷ []) standings.now }
    ensures ok { IfOk result (λ verdict. (asked : DeclarationView) → made_of setup ≡ made_by asked → Judges A
        ⟦<RadixMap<A> as SlotMap>⟧.parts ⟦<RadixMap<A> as SlotMap>⟧.can_fold
        ⟦<RadixMap<A> as SlotMap>⟧.folds asked (shown notes.now) verdict) }
    ensures err { IfErr result (λ _. AreNumbered (shown notes.now)) }
{
    match certify_standing(alloc, setup, &[*notes], standings, no_histories()) {
        Ok(done) => Ok(NotesVerdict::Certified(done.calls)),
        Err(CertifyFault::Ticket(ticket)) => Ok(NotesVerdict::Ticket(ticket)),
        Err(
            CertifyFault::Differs {
                ticket,
                noted,
                expected,
            },
        ) => Ok(NotesVerdict::Differs {
            ticket,
            noted,
            expected,
        }),
        // (the setup has no fault, and no histories are handed in)
        Err(CertifyFault::Setup(_)) => Err(NoMemory),
        Err(CertifyFault::Slot { .. }) => Err(NoMemory),
        Err(CertifyFault::NoMemory) => Err(NoMemory),
    }
}

// The result of certifying the notes of a space with this declaration. Memory is refused for the setup, for how each
// ticket stands, or as `judge` says.
fn judge_declared<A: Allocator + Clone + Drop>(
    alloc: A,
    declaration: &Declaration,
    notes: &Notes<'_>,
) -> Result<NotesVerdict, NoMemory>
    requires { asked_fault declaration.now ≡ None }
    ensures { IfOk result (λ verdict. Judges A ⟦<RadixMap<A> as SlotMap>⟧.parts
        ⟦<RadixMap<A> as SlotMap>⟧.can_fold ⟦<RadixMap<A> as SlotMap>⟧.folds declaration.now (shown notes.now) verdict) }
{
    let Ok(for_files) = alloc.clone() else {
        return Err(NoMemory);
    };
    let Ok(setup) = declaration.setup(for_files) else {
        return Err(NoMemory);
    };
    let Ok(for_order) = alloc.clone() else {
        return Err(NoMemory);
    };
    let Ok(standings) = standings(for_order, &[*notes]) else {
        return Err(NoMemory);
    };
    match judge(alloc, setup, notes, &standings) {
        Ok(verdict) => Ok(verdict),
        Err(_) => Err(NoMemory),
    }
}

// The result of certifying the collected notes.
fn judge_collected<A: Allocator + Clone + Drop>(
    alloc: A,
    collected: &Collector<Noted, KeptNotes<A>>,
) -> Result<NotesVerdict, TraceFault>
    requires { IsSomeAnd collected.now.asked (λ asked. asked_fault asked ≡ None) }
    ensures ok { IfOk result (λ verdict. IsSomeAnd collected.now.asked (λ asked. Judges A
        ⟦<RadixMap<A> as SlotMap>⟧.parts ⟦<RadixMap<A> as SlotMap>⟧.can_fold
        ⟦<RadixMap<A> as SlotMap>⟧.folds asked collected.now.items verdict)) }
    ensures err { IfErr result (λ f. f ≡ TraceFault.NoMemory) }
{
    // (there is a declaration)
    let Some(declaration) = collected.declaration() else {
        return Err(TraceFault::NoMemory);
    };
    let notes = collected.items().list.notes();
    match judge_declared(alloc, declaration, &notes) {
        Ok(verdict) => Ok(verdict),
        Err(_) => Err(TraceFault::NoMemory),
    }
}

// Reads the notes, and finds their verdict. Memory may be refused once all lines were read, too.
fn find_verdict<A: Allocator + Clone + Drop, S: Source>(
    alloc: A,
    reader: &mut S,
) -> Result<NotesVerdict, TraceFault>
    ensures finds { Reads (S.stream reader.old) (S.stream reader.new) (λ input unread.
        FindsVerdict A ⟦<RadixMap<A> as SlotMap>⟧.parts ⟦<RadixMap<A> as SlotMap>⟧.can_fold
        ⟦<RadixMap<A> as SlotMap>⟧.folds input unread result) }
    ensures read { result ≡ Err ReadFailed → HasStopped (S.failed reader.new) (S.reads reader.new) }
{
    let Ok(for_text) = alloc.clone() else {
        return Err(TraceFault::NoMemory);
    };
    let Ok(for_notes) = alloc.clone() else {
        return Err(TraceFault::NoMemory);
    };
    let Ok(for_full) = alloc.clone() else {
        return Err(TraceFault::NoMemory);
    };
    let list = NoteList::new(for_notes, for_full);
    let notes = KeptNotes { list };
    let collected = match collect::<NoteLines, Noted, KeptNotes<A>, A, S>(for_text, notes, reader) {
        Ok(collected) => collected,
        Err(fault) => return Err(fault),
    };
    let judged = judge_collected(alloc, &collected);
    judged
}

// The same, and writes the line that tells it.
fn certify_lines<A: Allocator + Clone + Drop, S: Source, W: Sink>(
    alloc: A,
    reader: &mut S,
    writer: &mut W,
) -> Result<bool, TraceFault>
    ensures ends { Reads (S.stream reader.old) (S.stream reader.new) (λ input unread.
        Certifies A ⟦<RadixMap<A> as SlotMap>⟧.parts ⟦<RadixMap<A> as SlotMap>⟧.can_fold
        ⟦<RadixMap<A> as SlotMap>⟧.folds input unread (W.contents writer.old) (W.contents writer.new) result) }
    ensures read { result ≡ Err ReadFailed → HasStopped (S.failed reader.new) (S.reads reader.new) }
    ensures write { result ≡ Err WriteFailed → W.failed writer.new ≡ true }
    ensures kept { (result ≡ Err WriteFailed) ⊎ (W.failed writer.new ≡ W.failed writer.old) }
{
    let verdict = match find_verdict(alloc, reader) {
        Ok(verdict) => verdict,
        Err(fault) => return Err(fault),
    };
    if let Err(_) = write_verdict(writer, verdict) {
        return Err(TraceFault::WriteFailed);
    }
    Ok(verdict.is_certified())
}

/// Reads notes, in any order of their tickets, and writes one line: `certified CALLS` where in order of tickets they
/// are a run of the machine with just the noted outcomes, with this many answered calls; `refused C1 TICKET` where a ticket
/// below their number doesn't stand once, the least of them; or `refused C2 TICKET: noted OUTCOME, expected OUTCOME` where the
/// machine's outcome is another. Answers whether they are certified. What is written goes out at the end; a write or a
/// flush that fails is reported even where another fault came first. Nothing is written where a fault is reported, or, where it is that
/// of a write, a front of the line.
pub fn certify_text<A: Allocator + Clone + Drop, S: Source, W: Sink>(
    alloc: A,
    reader: &mut S,
    writer: &mut W,
) -> Result<bool, TraceFault>
    ensures ends { Reads (S.stream reader.old) (S.stream reader.new) (λ input unread.
        Certifies A ⟦<RadixMap<A> as SlotMap>⟧.parts ⟦<RadixMap<A> as SlotMap>⟧.can_fold
        ⟦<RadixMap<A> as SlotMap>⟧.folds input unread (W.contents writer.old) (W.contents writer.new) result) }
    ensures told { TellsFaults result (read_from S.Source reader.old reader.new) (written_to W.Sink writer.old writer.new) }
{
    let done = certify_lines(alloc, reader, writer);
    match writer.flush() {
        Ok(()) => done,
        Err(_) => Err(TraceFault::WriteFailed),
    }
}
