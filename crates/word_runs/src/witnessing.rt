//! The picture of a witness of a litmus test.
ghost use Rattle.std.specs.Prelude.{◌≡◌, ◌≤◌};
ghost use Rattle.word_pictures.specs.Words.{picture_status};
ghost use Rattle.word_runs.specs.Witness.{PicturesWitness, WitnessEnds};
ghost use Rattle.trace_io.specs.Io.{read_from, written_to};

use crate::litmus_tests::{TestEnded, refuse};
use litmus::{Listing, TestFault, tell_litmus};
use litmus_text::LitmusFault;
use std::alloc::Global;
use std::io::Write;
use trace_io::IoFault;
use trace_io::sink::Sink;
use trace_io::source::{Source, read_all};
use trace_words::fault::TraceFault;
use word_parts::asked::{Drawing, WitnessPicture};
use word_pictures::picturing::{draw_text, tell_end};

// Why a picture isn't there, where that isn't printed here: the text that was read isn't that of the witness.
fn fault_of<E: Write>(drawn: Result<Option<u64>, TraceFault>, errors: &mut E) -> Option<TestFault> {
    let Err(fault) = drawn else {
        return None;
    };
    match fault {
        TraceFault::WriteFailed => Some(TestFault::Text(LitmusFault::Io(IoFault::WriteFailed))),
        TraceFault::NoMemory => Some(TestFault::Text(LitmusFault::Io(IoFault::NoMemory))),
        _ => {
            let _ = writeln!(errors, "radixvm: {fault}");
            None
        }
    }
}

// Tells how the picture ended.
fn tell_drawn<E: Write>(
    drawn: Result<Option<u64>, TraceFault>,
    drawing: Drawing,
    errors: &mut E,
) -> TestEnded
    ensures value { result.status ≡ picture_status drawing drawn }
    ensures within { result.status ≤ 3 }
{
    let ended = tell_end(drawn, drawing, errors);
    TestEnded {
        status: ended.status,
        fault: fault_of(drawn, errors),
    }
}

// Pictures a witness of the test with this name and text.
fn draw_witness<W: Sink, E: Write>(
    alloc: Global,
    name: &str,
    text: &[u8],
    out: &mut W,
    errors: &mut E,
    asked: WitnessPicture,
) -> TestEnded
    ensures ends { WitnessEnds asked text.now (written_to W.Sink out.old out.new) result.status }
    ensures within { result.status ≤ 3 }
{
    let view = Listing::Witness(asked.number);
    let told = match tell_litmus(&alloc, name.as_bytes(), text, view, asked.limit as usize) {
        Ok(told) => told,
        Err(fault) => return refuse(fault),
    };
    let drawn = draw_text(alloc, told.text.as_slice(), out, errors, asked.drawing);
    match out.flush() {
        Ok(()) => tell_drawn(drawn, asked.drawing, errors),
        Err(_) => tell_drawn(Err(TraceFault::WriteFailed), asked.drawing, errors),
    }
}

/// Pictures a witness of a litmus test with this name, and answers how that ended: with the status of `picture`, or, where there is no such witness, that of `litmus`. There is no picture then.
pub fn picture_witness<S: Source, W: Sink, E: Write>(
    alloc: Global,
    name: &str,
    reader: &mut S,
    out: &mut W,
    errors: &mut E,
    asked: WitnessPicture,
) -> TestEnded
    ensures does { PicturesWitness asked
        (read_from S.Source reader.old reader.new) (written_to W.Sink out.old out.new) result.status }
    ensures within { result.status ≤ 3 }
{
    match read_all(alloc, reader) {
        Ok(text) => draw_witness(alloc, name, text.as_slice(), out, errors, asked),
        Err(fault) => refuse(TestFault::Text(LitmusFault::Io(fault))),
    }
}
