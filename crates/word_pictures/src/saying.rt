//! What is said of a trace's states in place of a picture, and how it is written.
ghost use Rattle.std.specs.Prelude.{◌≡◌, ◌≢◌, ◌⊎◌, Err, IfErr, IfOk, true};
ghost use Rattle.trace_io.specs.Sink.{AppendsFront};
ghost use Rattle.trace_words.specs.declared.fault.TraceFault.TheVariants as Of;
ghost use Rattle.std.specs.Io.KnownBytes.{Keeps};
ghost use Rattle.word_pictures.specs.Picture.{ShowsText};
ghost use Rattle.word_pictures.specs.Saying.{lacking_said, text_said};

use trace_io::sink::{Sink, write_all};
use trace_words::fault::TraceFault;

/// A text, or how many lines there are, where what is asked for is lacking.
#[derive(Drop)]
pub(crate) struct Say {
    /// The text.
    pub(crate) text: Vec<u8>,
    /// How many lines there are, where that is said.
    pub(crate) lacking: Option<u64>,
}

/// Writes the text, where nothing is lacking.
pub(crate) fn write_said<W: Sink>(say: &Say, out: &mut W) -> Result<Option<u64>, TraceFault>
    ensures ok { IfOk result (λ x. (x ≡ lacking_said say.now) × ShowsText x (text_said say.now) (W.contents out.old) (W.contents out.new)) }
    ensures err { IfErr result (λ f. ((f ≡ Of.NoMemory) × Keeps (W.contents out.old) (W.contents out.new))
        ⊎ ((f ≡ Of.WriteFailed) × AppendsFront (W.contents out.old) (W.contents out.new) (text_said say.now))) }
    ensures read { result ≢ Err Of.ReadFailed }
    ensures write { result ≡ Err Of.WriteFailed → W.failed out.new ≡ true }
    ensures kept { (result ≡ Err Of.WriteFailed) ⊎ (W.failed out.new ≡ W.failed out.old) }
{
    if let Some(lines) = say.lacking {
        return Ok(Some(lines));
    }
    if write_all(out, say.text.as_slice()).is_err() {
        return Err(TraceFault::WriteFailed);
    }
    Ok(None)
}
