//! What `state --diff` does: two states of a trace are told apart, and what is said of a page or sought in all states.
ghost use Rattle.std.specs.Prelude.{◌≡◌, ◌≢◌, ◌⊎◌, Err, IfErr, IfOk, true};
ghost use Rattle.trace_words.specs.declared.fault.TraceFault.TheVariants as Of;
ghost use Rattle.word_pictures.specs.Picture.{TextEnds};
ghost use Rattle.word_pictures.specs.Saying.{FailsBetween, SaysBetween, lacking_said, text_said};

use crate::saying::{Say, write_said};
use crate::stating::text_at;
use state_changes::marks::difference_text;
use state_text::fronts::lacking_line;
use std::alloc::Global;
use trace_io::sink::Sink;
use trace_words::fault::TraceFault;
use word_parts::asked::LinePair;

// What differs between the states behind two lines.
fn say_between(alloc: Global, trace: &[u8], pair: LinePair) -> Result<Say, TraceFault>
    ensures ok { IfOk result (SaysBetween pair trace.now) }
    ensures err { IfErr result (FailsBetween pair trace.now) }
    ensures read { result ≢ Err Of.ReadFailed }
    ensures unwritten { result ≢ Err Of.WriteFailed }
{
    let old = match text_at(alloc, trace, Some(pair.before)) {
        Ok(old) => old,
        Err(fault) => return Err(fault),
    };
    let new = match text_at(alloc, trace, Some(pair.after)) {
        Ok(new) => new,
        Err(fault) => return Err(fault),
    };
    let lacking = lacking_line(trace, Some(pair.before.max(pair.after)));
    match difference_text(alloc, old.as_slice(), new.as_slice()) {
        Ok(text) => Ok(Say { text, lacking }),
        Err(_) => Err(TraceFault::NoMemory),
    }
}

/// Replays the trace up to each of the two lines, and writes which lines of the state go, and which come, from the one to the other; or
/// tells how many lines there are, where one of the two is behind them all.
pub(crate) fn draw_between<W: Sink>(
    alloc: Global,
    trace: &[u8],
    out: &mut W,
    pair: LinePair,
) -> Result<Option<u64>, TraceFault>
    ensures ends { TextEnds (SaysBetween pair trace.now) (FailsBetween pair trace.now) lacking_said text_said
        (W.contents out.old) (W.contents out.new) result }
    ensures read { result ≢ Err Of.ReadFailed }
    ensures write { result ≡ Err Of.WriteFailed → W.failed out.new ≡ true }
    ensures kept { (result ≡ Err Of.WriteFailed) ⊎ (W.failed out.new ≡ W.failed out.old) }
{
    match say_between(alloc, trace, pair) {
        Ok(say) => write_said(&say, out),
        Err(fault) => Err(fault),
    }
}
