//! The lines of a text, taken in one by one until it ends.
ghost use Rattle.std.specs.Prelude.{◌≡◌, [], ◌+◌, ◌^◌, ◌<◌, Err, Some, None, IfErr, IfOk, OnOk, IsSomeAnd, true};
ghost use Rattle.trace_io.specs.Source.{HasStopped, Reads};
ghost use Rattle.trace_io.specs.Window.{left, budget, opening};
ghost use Rattle.trace_words.specs.Declarations.{DeclarationView, asked_fault};
ghost use Rattle.trace_words.specs.declared.fault.TraceFault.TheVariants.{ReadFailed};
ghost use Rattle.trace_words.specs.Collected.{nothing};
ghost use Rattle.trace_words.specs.Ends.{Collects, Stops};
ghost use Rattle.trace_words.specs.Turns.{Turns, Scene};

use crate::collector::{Collector, LineOf};
use crate::fault::TraceFault;
use crate::kept::Collection;
use std::alloc::Allocator;
use trace_io::lines::{LineReader, NextLine, NoLine, line_reader};
use trace_io::sink::Nowhere;
use trace_io::source::Source;

// Takes in the next line, or answers false where there is none.
fn turn<L: LineOf<T>, T: Copy + Drop, K: Collection<T> + Drop, A: Allocator, S: Source>(
    lines: &mut LineReader<A>,
    reader: &mut S,
    nowhere: &mut Nowhere,
    collector: &mut Collector<T, K>,
    number: u64,
) -> Result<bool, TraceFault>
    requires few { number + 1 < 2 ^ 64 }
    ensures turns { Reads (S.stream reader.old) (S.stream reader.new) (λ xs ys. Turns L.needs_calls L.names
        (record { left = left xs lines.old; unread = xs; collected = collector.old })
        (record { left = left ys lines.new; unread = ys; collected = collector.new })
        number result) }
    ensures budget { IfOk result (λ more. more ≡ true
        → budget (S.reads reader.new) lines.new < budget (S.reads reader.old) lines.old) }
    ensures read { result ≡ Err ReadFailed → HasStopped (S.failed reader.new) (S.reads reader.new) }
{
    match lines.next_line(reader, nowhere) {
        Err(NoLine::ReadFailed) => Err(TraceFault::ReadFailed),
        // (this never comes, since a flush of what goes nowhere doesn't fail)
        Err(NoLine::WriteFailed) => Err(TraceFault::ReadFailed),
        Ok(NextLine::End) => Ok(false),
        Ok(NextLine::TooLong) => Err(TraceFault::TooLong(number + 1)),
        Ok(NextLine::Line) => {
            if let Err(fault) = collector.take::<L>(number + 1, lines.line()) {
                return Err(fault);
            }
            Ok(true)
        }
    }
}

// Takes in the lines until the text ends.
fn collect_lines<L: LineOf<T>, T: Copy + Drop, K: Collection<T> + Drop, A: Allocator, S: Source>(
    lines: &mut LineReader<A>,
    reader: &mut S,
    collector: &mut Collector<T, K>,
) -> Result<(), TraceFault>
    requires fresh { lines.old ≡ opening }
    requires start { collector.old ≡ nothing }
    ensures ok { IfOk result (λ done. Reads (S.stream reader.old) (S.stream reader.new) (λ input unread. (asked : DeclarationView)
        × (collector.new.asked ≡ Some asked) × Collects L.needs_calls L.names input asked collector.new.items)) }
    ensures sound { OnOk result (IsSomeAnd collector.new.asked (λ asked. asked_fault asked ≡ None)) }
    ensures err { IfErr result (λ f. Reads (S.stream reader.old) (S.stream reader.new) (λ input unread.
        Stops L.needs_calls L.names input unread f)) }
    ensures read { result ≡ Err ReadFailed → HasStopped (S.failed reader.new) (S.reads reader.new) }
{
    let mut number = 0u64;
    let mut nowhere = Nowhere::new();
    'lines: loop {
        match turn::<L, T, K, A, S>(lines, reader, &mut nowhere, collector, number) {
            Ok(true) => number += 1,
            Ok(false) => return collector.finish(),
            Err(fault) => return Err(fault),
        }
    }
}

/// What the text declares and names, in order of its lines, in the list, which is empty at first. Where it can't be read whole,
/// the first fault is told: a line can't be taken, no space can be made of the declaration, a read failed, or memory was
/// refused. 64 KiB for a chunk of lines are taken before anything is read.
pub fn collect<
    L: LineOf<T>,
    T: Copy + Drop,
    K: Collection<T> + Drop,
    A: Allocator + Clone,
    S: Source,
>(alloc: A, items: K, reader: &mut S) -> Result<Collector<T, K>, TraceFault>
    requires { K.kept items ≡ [] }
    ensures ok { IfOk result (λ collected. Reads (S.stream reader.old) (S.stream reader.new) (λ input unread. (asked : DeclarationView)
        × (collected.asked ≡ Some asked) × Collects L.needs_calls L.names input asked collected.items)) }
    ensures sound { IfOk result (λ collected. IsSomeAnd collected.asked (λ asked. asked_fault asked ≡ None)) }
    ensures err { IfErr result (λ f. Reads (S.stream reader.old) (S.stream reader.new) (λ input unread.
        Stops L.needs_calls L.names input unread f)) }
    ensures read { result ≡ Err ReadFailed → HasStopped (S.failed reader.new) (S.reads reader.new) }
{
    let Some(mut lines) = line_reader(&alloc) else {
        return Err(TraceFault::NoMemory);
    };
    let mut collector = Collector::new(items);
    match collect_lines::<L, T, K, A, S>(&mut lines, reader, &mut collector) {
        Ok(()) => Ok(collector),
        Err(fault) => Err(fault),
    }
}
