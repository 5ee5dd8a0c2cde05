//! What `maps` does where files are named.
ghost use Rattle.std.specs.Prelude.{◌≡◌, ◌≢◌, ◌⊎◌, Err, IfErr, IfOk, true};
ghost use Rattle.std.specs.Io.KnownBytes.{Keeps};
ghost use Rattle.word_pictures.specs.Lists.{named_list};
ghost use Rattle.word_pictures.specs.Listing.{FailsToList, Lists, Listed, lacking_nothing};
ghost use Rattle.word_pictures.specs.Picture.{ShowsText, TextEnds};
ghost use Rattle.trace_words.specs.declared.fault.TraceFault.TheVariants as Of;
ghost use Rattle.trace_io.specs.Sink.{AppendsFront};

use crate::lists::put_named;
use crate::picturing::in_memory;
use machine_model::CallLimit;
use std::alloc::Global;
use trace::replay::replay_telling;
use trace_io::sink::{Sink, write_all};
use trace_io::source::Counted;
use trace_words::fault::TraceFault;
use trace_words::show::Show;
use word_parts::held::Held;

// The mappings at the trace's end, as `maps` lists them.
fn list(alloc: Global, trace: &[u8], limit: CallLimit) -> Result<Vec<u8>, TraceFault>
    ensures ends { Lists limit trace.now result }
    ensures read { result ≢ Err Of.ReadFailed }
    ensures unwritten { result ≢ Err Of.WriteFailed }
{
    let mut reader = Counted::new(trace);
    let bytes = Vec::new(alloc);
    let mut held = Held::new(bytes);
    let replayed = replay_telling(alloc, &mut reader, &mut held, Show::Maps, limit);
    match replayed.ended {
        Ok(()) => Ok(held.bytes),
        Err(fault) => Err(in_memory(fault)),
    }
}

// Writes the list with the names of files. No step is lacking.
fn write_named<W: Sink>(
    alloc: Global,
    trace: &[u8],
    list: &[u8],
    out: &mut W,
) -> Result<Option<u64>, TraceFault>
    ensures ok { IfOk result (λ x. (x ≡ lacking_nothing list.now)
        × ShowsText x (named_list trace.now list.now) (W.contents out.old) (W.contents out.new)) }
    ensures err { IfErr result (λ f. ((f ≡ Of.NoMemory) × Keeps (W.contents out.old) (W.contents out.new))
        ⊎ ((f ≡ Of.WriteFailed)
        × AppendsFront (W.contents out.old) (W.contents out.new) (named_list trace.now list.now))) }
    ensures write { result ≡ Err Of.WriteFailed → W.failed out.new ≡ true }
    ensures kept { (result ≡ Err Of.WriteFailed) ⊎ (W.failed out.new ≡ W.failed out.old) }
{
    let mut text = Vec::new(alloc);
    if put_named(&mut text, trace, list).is_err() {
        return Err(TraceFault::NoMemory);
    }
    if write_all(out, text.as_slice()).is_err() {
        return Err(TraceFault::WriteFailed);
    }
    Ok(None)
}

/// Replays the trace, and writes the mappings at its end, each with the name of its file, where a comment of the trace tells that.
pub(crate) fn list_named<W: Sink>(
    alloc: Global,
    trace: &[u8],
    out: &mut W,
    limit: CallLimit,
) -> Result<Option<u64>, TraceFault>
    ensures ends { TextEnds (Listed limit trace.now) (FailsToList limit trace.now) lacking_nothing (named_list trace.now)
        (W.contents out.old) (W.contents out.new) result }
    ensures read { result ≢ Err Of.ReadFailed }
    ensures write { result ≡ Err Of.WriteFailed → W.failed out.new ≡ true }
    ensures kept { (result ≡ Err Of.WriteFailed) ⊎ (W.failed out.new ≡ W.failed out.old) }
{
    match list(alloc, trace, limit) {
        Ok(list) => write_named(alloc, trace, list.as_slice(), out),
        Err(fault) => Err(fault),
    }
}
