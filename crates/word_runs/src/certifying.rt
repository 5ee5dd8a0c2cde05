//! What the command `certify` does.
ghost use Rattle.std.specs.Prelude.{◌≤◌};
ghost use Rattle.word_runs.specs.Words.{CertifiesNotes};
ghost use Rattle.trace_io.specs.Io.{read_from, written_to};

use notes_text::certify_text;
use radix_range::RadixMap;
use slot_lock::SlotMap;
use std::alloc::Allocator;
use trace_io::sink::Sink;
use trace_io::source::Source;
use trace_words::fault::status_of_fault;
use word_parts::ended::{Ended, Trouble};

/// Certifies the notes, and answers how that ended: with 0 where they are certified, 1 where they are refused, or the status of an error.
pub fn certify<A: Allocator + Clone + Drop, S: Source, W: Sink>(
    alloc: A,
    reader: &mut S,
    out: &mut W,
) -> Ended
    ensures ends { CertifiesNotes A
        ⟦<RadixMap<A> as SlotMap>⟧.parts ⟦<RadixMap<A> as SlotMap>⟧.can_fold ⟦<RadixMap<A> as SlotMap>⟧.folds
        (read_from S.Source reader.old reader.new) (written_to W.Sink out.old out.new) result.status }
    ensures within { result.status ≤ 3 }
{
    match certify_text(alloc, reader, out) {
        Ok(true) => Ended {
            status: 0,
            trouble: Trouble::Nothing,
        },
        Ok(false) => Ended {
            status: 1,
            trouble: Trouble::Nothing,
        },
        Err(fault) => Ended {
            status: status_of_fault(fault),
            trouble: Trouble::Fault(fault),
        },
    }
}
