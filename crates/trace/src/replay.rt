//! The lines of a trace, acted on one by one.
ghost use Rattle.std.specs.Prelude.{◌≡◌, ◌+◌, ◌^◌, ◌<◌, ◌⊎◌, Err, IfErr, IfOk, OnOk, [], false, true};
ghost use Rattle.trace_io.specs.Io.{TellsIo, read_from, written_to};
ghost use Rattle.trace_io.specs.Source.{HasStopped, Reads};
ghost use Rattle.trace_io.specs.Window.{left, budget, opening};
ghost use Rattle.trace_words.specs.declared.fault.TraceFault.TheVariants.{ReadFailed, WriteFailed};
ghost use Rattle.trace_words.specs.declared.show.Show.TheVariants.{OutcomesAndLog};
ghost use Rattle.trace.specs.Turns.{Turns, scene};
ghost use Rattle.trace.specs.Stage.{Start};
ghost use Rattle.trace.specs.Ends.{Ends};
ghost use Rattle.trace_words.specs.Faults.{TellsFaults, fault_named};
ghost use Rattle.trace.specs.Seen.{AdvancesSeen, IsSeen, Writes};
ghost use Rattle.watched.specs.Sums.{nothing_counted, summed};
ghost use Rattle.watched.specs.Watching.{makes};
ghost use Rattle.trace.specs.Shown.{Closes, CloseFails, keeps_log, limit_for};
ghost use Rattle.machine_model.specs.Setups.{Fits};
ghost use Rattle.machine_model.specs.declared.setup.CallLimit.{CallLimit};
ghost use Rattle.machine_model.specs.declared.setup.CallLimit.TheVariants.{Usual};

use crate::replayer::{Replayer, Staged};
use crate::shown::{Showing, write_log, write_maps};
use machine_log::{KeepsLog, KeepsNone, Opening};
use machine_model::CallLimit;
use std::alloc::Allocator;
use std::io::Write;
use trace_io::lines::{LineReader, NextLine, NoLine, line_reader};
use trace_io::sink::Sink;
use trace_io::source::Source;
use trace_text::LineText;
use trace_words::fault::{TraceFault, status_of_fault};
use trace_words::show::Show;
use watched::{Summary, Unwatched, Watch};

/// Acts on the next line and writes what is shown of it, or answers false where there is none.
pub fn turn<A: Allocator, S: Source, W: Sink, R: Staged, H: Showing>(
    lines: &mut LineReader<A>,
    reader: &mut S,
    writer: &mut W,
    replayer: &mut R,
    number: u64,
    show: &H,
    text: &mut LineText,
) -> Result<bool, TraceFault>
    requires few { number + 1 < 2 ^ 64 }
    ensures turns { Reads (S.stream reader.old) (S.stream reader.new) (λ xs ys. Turns R.keeps (H.shown show.now)
        (scene (left xs lines.old) xs (R.stage replayer.old) (W.contents writer.old))
        (scene (left ys lines.new) ys (R.stage replayer.new) (W.contents writer.new)) number result) }
    ensures seen { IfOk result (λ more. more ≡ true
        → Reads (S.stream reader.old) (S.stream reader.new) (λ xs ys. AdvancesSeen R.saw (H.shown show.now) replayer.old replayer.new
        (scene (left xs lines.old) xs (R.stage replayer.old) (W.contents writer.old))
        (scene (left ys lines.new) ys (R.stage replayer.new) (W.contents writer.new)))) }
    ensures over { IfOk result (λ more. more ≡ false → replayer.new ≡ replayer.old) }
    ensures budget { IfOk result (λ more. more ≡ true
        → budget (S.reads reader.new) lines.new < budget (S.reads reader.old) lines.old) }
    ensures told { TellsIo fault_named result (read_from S.Source reader.old reader.new) (written_to W.Sink writer.old writer.new) }
{
    match lines.next_line(reader, writer) {
        Err(NoLine::ReadFailed) => Err(TraceFault::ReadFailed),
        Err(NoLine::WriteFailed) => Err(TraceFault::WriteFailed),
        Ok(NextLine::End) => Ok(false),
        Ok(NextLine::TooLong) => Err(TraceFault::TooLong(number + 1)),
        Ok(NextLine::Line) => {
            let line = lines.line();
            if let Err(fault) = replayer.act(number + 1, line, text) {
                return Err(fault);
            }
            if let Err(_) = show.write_line(writer, line, text) {
                return Err(TraceFault::WriteFailed);
            }
            Ok(true)
        }
    }
}

// Ends the trace, and writes what follows the text of its lines. A log that is
// shown is kept.
fn close<W: Sink, R: Staged>(
    writer: &mut W,
    replayer: &R,
    show: &Show,
    text: &mut LineText,
) -> Result<(), TraceFault>
    requires { show.now ≡ OutcomesAndLog → R.keeps ≡ true }
    ensures ok { OnOk result (Closes show.now (R.stage replayer.now) (W.contents writer.old) (W.contents writer.new)) }
    ensures err { IfErr result (λ f. CloseFails show.now (R.stage replayer.now)
        (W.contents writer.old) (W.contents writer.new) f) }
    ensures write { result ≡ Err WriteFailed → W.failed writer.new ≡ true }
    ensures kept { (result ≡ Err WriteFailed) ⊎ (W.failed writer.new ≡ W.failed writer.old) }
{
    if let Err(fault) = replayer.finish() {
        return Err(fault);
    }
    let done = match show {
        Show::Outcomes => Ok(()),
        Show::OutcomesAndLog => match replayer.log() {
            Some(log) => write_log(writer, &log, text),
            // this never comes, since the log is kept
            None => Ok(()),
        },
        Show::Maps => write_maps(writer, replayer, text),
    };
    if let Err(_) = done {
        return Err(TraceFault::WriteFailed);
    }
    Ok(())
}

/// Acts on the lines until the text ends.
pub(crate) fn replay_lines<A: Allocator, S: Source, W: Sink, R: Staged>(
    lines: &mut LineReader<A>,
    reader: &mut S,
    writer: &mut W,
    replayer: &mut R,
    show: &Show,
    text: &mut LineText,
) -> Result<(), TraceFault>
    requires fresh { lines.old ≡ opening }
    requires keeps { R.keeps ≡ keeps_log show.now }
    requires begins { R.saw replayer.old replayer.old [] [] }
    ensures ends { (limit : CallLimit) → R.stage replayer.old ≡ Start limit
        → Reads (S.stream reader.old) (S.stream reader.new) (λ input unread.
        Ends limit show.now input unread (W.contents writer.old) (W.contents writer.new) result) }
    ensures seen { IfOk result (λ u. Reads (S.stream reader.old) (S.stream reader.new) (λ input unread.
        Writes (R.saw replayer.old replayer.new) (R.stage replayer.new) show.now input
        (W.contents writer.old) (W.contents writer.new))) }
    ensures read { result ≡ Err ReadFailed → HasStopped (S.failed reader.new) (S.reads reader.new) }
    ensures write { result ≡ Err WriteFailed → W.failed writer.new ≡ true }
    ensures kept { (result ≡ Err WriteFailed) ⊎ (W.failed writer.new ≡ W.failed writer.old) }
{
    let mut number = 0u64;
    'lines: loop {
        match turn(lines, reader, writer, replayer, number, show, text) {
            Ok(true) => number += 1,
            Ok(false) => return close(writer, replayer, show, text),
            Err(fault) => return Err(fault),
        }
    }
}

// How a replay ended, and who watched it.
#[derive(Drop)]
struct WatchEnd<X> {
    ended: Result<(), TraceFault>,
    watch: X,
}

// Acts on all lines, over a ledger of this kind.
fn replay_over<
    L: Opening<A> + Drop,
    A: Allocator + Clone + Drop,
    S: Source,
    W: Sink,
    X: Watch + Drop,
>(
    alloc: A,
    lines: &mut LineReader<A>,
    reader: &mut S,
    writer: &mut W,
    show: Show,
    limit: CallLimit,
    watch: X,
) -> WatchEnd<X>
    requires fresh { lines.old ≡ opening }
    requires keeps { L.keeps ≡ keeps_log show }
    requires fits { Fits L.keeps limit }
    ensures ends { Reads (S.stream reader.old) (S.stream reader.new) (λ input unread.
        Ends limit show input unread (W.contents writer.old) (W.contents writer.new) result.ended) }
    ensures seen { IfOk result.ended (λ u. Reads (S.stream reader.old) (S.stream reader.new) (λ input unread.
        IsSeen X.after watch result.watch show input (W.contents writer.old) (W.contents writer.new))) }
    ensures told { TellsIo fault_named result.ended (read_from S.Source reader.old reader.new) (written_to W.Sink writer.old writer.new) }
{
    let mut replayer = Replayer::<A, L, X>::within(limit, alloc, watch);
    let mut text = LineText::new();
    let ended = replay_lines(lines, reader, writer, &mut replayer, &show, &mut text);
    WatchEnd {
        ended,
        watch: replayer.into_watch(),
    }
}

// Acts on all lines. The log is kept only where it is shown, and then the usual limit of calls
// holds.
fn replay_text<A: Allocator + Clone + Drop, S: Source, W: Sink, X: Watch + Drop>(
    alloc: A,
    lines: &mut LineReader<A>,
    reader: &mut S,
    writer: &mut W,
    show: Show,
    limit: CallLimit,
    watch: X,
) -> WatchEnd<X>
    requires fresh { lines.old ≡ opening }
    ensures ends { Reads (S.stream reader.old) (S.stream reader.new) (λ input unread.
        Ends (limit_for show limit) show input unread (W.contents writer.old) (W.contents writer.new) result.ended) }
    ensures seen { IfOk result.ended (λ u. Reads (S.stream reader.old) (S.stream reader.new) (λ input unread.
        IsSeen X.after watch result.watch show input (W.contents writer.old) (W.contents writer.new))) }
    ensures told { TellsIo fault_named result.ended (read_from S.Source reader.old reader.new) (written_to W.Sink writer.old writer.new) }
{
    match show {
        Show::OutcomesAndLog => replay_over::<KeepsLog<A>, A, S, W, X>(
            alloc,
            lines,
            reader,
            writer,
            show,
            CallLimit::Usual,
            watch,
        ),
        Show::Outcomes | Show::Maps => replay_over::<KeepsNone, A, S, W, X>(
            alloc, lines, reader, writer, show, limit, watch,
        ),
    }
}

/// How a replay ended, and the lines that it read.
#[derive(Drop)]
pub struct Replayed<A: Allocator> {
    pub ended: Result<(), TraceFault>,
    /// None where no memory was there for them. After a bad line they give that line.
    pub lines: Option<LineReader<A>>,
}

impl<A: Allocator> Replayed<A> {
    ghost use Rattle.std.specs.Prelude.{◌≡◌, ◌≤◌};
    ghost use Rattle.trace_words.specs.Status.{status_of};

    /// Prints the fault that ended the replay, if one did, as `radixvm: ` and its text, and answers the status: 0, or that of
    /// the fault.
    pub fn tell<E: Write>(&self, errors: &mut E) -> u8
        ensures value { result ≡ status_of self.now.ended }
        ensures within { result ≤ 3 }
    {
        let Err(fault) = self.ended else {
            return 0;
        };
        let _ = writeln!(errors, "radixvm: {fault}");
        status_of_fault(fault)
    }
}

/// A replay, and who watched its steps.
#[derive(Drop)]
pub struct Beside<A: Allocator, X> {
    /// How it ended, and its lines.
    pub replayed: Replayed<A>,
    /// Who watched it.
    pub watch: X,
}

// Acts on all lines. Memory for a chunk of them is taken before anything is read.
fn replay_read<A: Allocator + Clone + Drop, S: Source, W: Sink, X: Watch + Drop>(
    alloc: A,
    reader: &mut S,
    writer: &mut W,
    show: Show,
    limit: CallLimit,
    watch: X,
) -> Beside<A, X>
    ensures ends { Reads (S.stream reader.old) (S.stream reader.new) (λ input unread.
        Ends (limit_for show limit) show input unread (W.contents writer.old) (W.contents writer.new) result.replayed.ended) }
    ensures seen { IfOk result.replayed.ended (λ u. Reads (S.stream reader.old) (S.stream reader.new) (λ input unread.
        IsSeen X.after watch result.watch show input (W.contents writer.old) (W.contents writer.new))) }
    ensures told { TellsIo fault_named result.replayed.ended (read_from S.Source reader.old reader.new)
        (written_to W.Sink writer.old writer.new) }
{
    let Some(mut lines) = line_reader(&alloc) else {
        return Beside {
            replayed: Replayed {
                ended: Err(TraceFault::NoMemory),
                lines: None,
            },
            watch,
        };
    };
    let end = replay_text(alloc, &mut lines, reader, writer, show, limit, watch);
    Beside {
        replayed: Replayed {
            ended: end.ended,
            lines: Some(lines),
        },
        watch: end.watch,
    }
}

/// As `replay_telling`, step by step where one watches who sees each step, and hands out who watched: at the end of a
/// trace without fault what the steps, one after another, made of it.
pub fn replay_watched<A: Allocator + Clone + Drop, S: Source, W: Sink, X: Watch + Drop>(
    alloc: A,
    reader: &mut S,
    writer: &mut W,
    show: Show,
    limit: CallLimit,
    watch: X,
) -> Beside<A, X>
    ensures ends { Reads (S.stream reader.old) (S.stream reader.new) (λ input unread.
        Ends (limit_for show limit) show input unread (W.contents writer.old) (W.contents writer.new) result.replayed.ended) }
    ensures seen { IfOk result.replayed.ended (λ u. Reads (S.stream reader.old) (S.stream reader.new) (λ input unread.
        IsSeen X.after watch result.watch show input (W.contents writer.old) (W.contents writer.new))) }
    ensures told { TellsFaults result.replayed.ended (read_from S.Source reader.old reader.new)
        (written_to W.Sink writer.old writer.new) }
{
    let beside = replay_read(alloc, reader, writer, show, limit, watch);
    match writer.flush() {
        Ok(()) => beside,
        Err(_) => Beside {
            replayed: Replayed {
                ended: Err(TraceFault::WriteFailed),
                lines: beside.replayed.lines,
            },
            watch: beside.watch,
        },
    }
}

/// As `replay`, of a trace that may ask for as many calls as this limit says; where the log is shown,
/// the usual one holds. Hands out the lines that were read, of which the last tells more of a fault.
pub fn replay_telling<A: Allocator + Clone + Drop, S: Source, W: Sink>(
    alloc: A,
    reader: &mut S,
    writer: &mut W,
    show: Show,
    limit: CallLimit,
) -> Replayed<A>
    ensures ends { Reads (S.stream reader.old) (S.stream reader.new) (λ input unread.
        Ends (limit_for show limit) show input unread (W.contents writer.old) (W.contents writer.new) result.ended) }
    ensures told { TellsFaults result.ended (read_from S.Source reader.old reader.new) (written_to W.Sink writer.old writer.new) }
{
    replay_watched(alloc, reader, writer, show, limit, Unwatched).replayed
}

/// As `replay_telling`, step by step, and puts the summary of all steps in place of what it was. After a
/// fault the numbers are those of no whole trace, and no clause speaks of them.
pub fn replay_summing<A: Allocator + Clone + Drop, S: Source, W: Sink>(
    alloc: A,
    reader: &mut S,
    writer: &mut W,
    show: Show,
    limit: CallLimit,
    summary: &mut Summary,
) -> Replayed<A>
    ensures ends { Reads (S.stream reader.old) (S.stream reader.new) (λ input unread.
        Ends (limit_for show limit) show input unread (W.contents writer.old) (W.contents writer.new) result.ended) }
    ensures sums { IfOk result.ended (λ u. Reads (S.stream reader.old) (S.stream reader.new) (λ input unread.
        IsSeen (makes summed) nothing_counted summary.new show input (W.contents writer.old) (W.contents writer.new))) }
    ensures told { TellsFaults result.ended (read_from S.Source reader.old reader.new) (written_to W.Sink writer.old writer.new) }
{
    let beside = replay_watched(alloc, reader, writer, show, limit, Summary::new());
    *summary = beside.watch;
    beside.replayed
}

/// Acts on each line as it is read, and writes its text before the next line is acted on;
/// at the end of the trace, if no fault came, the log follows the text, or the list
/// of mappings in place of it, where it is shown. What is written goes out before
/// each read that a line has to wait for, and at the end, after a fault too. A write or a
/// flush that fails ends the replay, and is reported even where another fault came first.
///
/// Up to the first line that takes a call apart (`call`, `go`) or begins one while another waits, what
/// is written is what a plain page map gives: `laws::traces_are_plain` says it in words.
pub fn replay<A: Allocator + Clone + Drop, S: Source, W: Sink>(
    alloc: A,
    reader: &mut S,
    writer: &mut W,
    show: Show,
) -> Result<(), TraceFault>
    // What was written, that it is the plain page map's, and which fault it is, by the bytes that
    // the reader gave: a text that begins with them, whatever comes after them.
    ensures ends { Reads (S.stream reader.old) (S.stream reader.new) (λ input unread.
        Ends Usual show input unread (W.contents writer.old) (W.contents writer.new) result) }
    ensures told { TellsFaults result (read_from S.Source reader.old reader.new) (written_to W.Sink writer.old writer.new) }
{
    replay_telling(alloc, reader, writer, show, CallLimit::Usual).ended
}
