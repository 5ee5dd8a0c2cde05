//! What `picture --history` does: the calls of a history are drawn.
ghost use Rattle.std.specs.Prelude.{◌≡◌, ◌≢◌, ◌⊎◌, Err, IfErr, IfOk, true};
ghost use Rattle.std.specs.Io.KnownBytes.{Keeps};
ghost use Rattle.trace_io.specs.Sink.{AppendsFront};
ghost use Rattle.trace_words.specs.declared.fault.TraceFault.TheVariants as Of;
ghost use Rattle.word_pictures.specs.Changing.{as_it_is};
ghost use Rattle.word_pictures.specs.Picture.{IsHistory, LacksMemory, TextEnds, lacking_calls};
ghost use Rattle.word_pictures.specs.Saying.{lacking_said, text_said};

use crate::saying::{Say, write_said};
use draw_lives::calls::has_calls;
use draw_lives::histories::draw_history;
use std::alloc::{AllocError, Global};
use trace_io::sink::Sink;
use trace_words::fault::TraceFault;

// How many lines there are to show, where none tells a call.
fn lacking_in(text: &[u8]) -> Option<u64>
    ensures { result ≡ lacking_calls text.now text.now }
{
    if has_calls(text) { None } else { Some(0) }
}

// The picture of a history, where it has calls.
fn say_history(alloc: Global, text: &[u8]) -> Result<Say, AllocError>
    ensures text { IfOk result (λ say. IsHistory text.now (text_said say)) }
    ensures lacking { IfOk result (λ say. lacking_said say ≡ lacking_calls text.now (text_said say)) }
{
    let lacking = lacking_in(text);
    let drawn = draw_history(alloc, text)?;
    Ok(Say {
        text: drawn,
        lacking,
    })
}

/// Writes the picture of a history; or tells that it has no call.
pub(crate) fn draw_calls<W: Sink>(
    alloc: Global,
    text: &[u8],
    out: &mut W,
) -> Result<Option<u64>, TraceFault>
    ensures ends { TextEnds (IsHistory text.now) LacksMemory (lacking_calls text.now) as_it_is (W.contents out.old) (W.contents out.new) result }
    ensures read { result ≢ Err Of.ReadFailed }
    ensures write { result ≡ Err Of.WriteFailed → W.failed out.new ≡ true }
    ensures kept { (result ≡ Err Of.WriteFailed) ⊎ (W.failed out.new ≡ W.failed out.old) }
{
    match say_history(alloc, text) {
        Ok(say) => write_said(&say, out),
        Err(_) => Err(TraceFault::NoMemory),
    }
}
