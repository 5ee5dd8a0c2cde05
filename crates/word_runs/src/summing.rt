//! The numbers of a replay, or of a script that was run, told after it.

use live_script::Sums;
use std::io::Write;
use watched::{Replies, Summary};

// One number, after its name.
fn tell<E: Write>(errors: &mut E, name: &str, number: u64) {
    let _ = writeln!(errors, "{name} {number}");
}

// How many calls had each reply.
fn tell_replies<E: Write>(replies: &Replies, errors: &mut E) {
    tell(errors, "calls mapped", replies.mapped);
    tell(errors, "calls done", replies.done);
    tell(errors, "calls byte", replies.byte);
    tell(errors, "calls refused", replies.refused);
    tell(errors, "calls segv", replies.segv);
    tell(errors, "calls bus", replies.bus);
    tell(errors, "calls noframe", replies.no_frame);
    tell(errors, "calls nomemory", replies.no_memory);
}

/// Prints the numbers, each on a line, as `help outcomes` explains them.
pub(crate) fn tell_summary<E: Write>(summary: &Summary, errors: &mut E) {
    tell_replies(&summary.replies, errors);
    tell(errors, "faults", summary.faults);
    tell(errors, "fills", summary.fills);
    tell(errors, "shootdowns", summary.shootdowns);
    let told = summary.told;
    let others = summary.others;
    let _ = writeln!(errors, "told {told} of {others}");
    tell(errors, "frames", summary.most_in_use);
    tell(errors, "epochs", summary.epoch);
}

/// Prints the numbers of what threads noted, each on a line, as `help threads` explains them.
pub(crate) fn tell_sums<E: Write>(sums: &Sums, errors: &mut E) {
    tell(errors, "requests mmap", sums.requests.mmap);
    tell(errors, "requests munmap", sums.requests.munmap);
    tell(errors, "requests mprotect", sums.requests.mprotect);
    tell(errors, "requests load", sums.requests.load);
    tell(errors, "requests store", sums.requests.store);
    tell(errors, "requests fetch", sums.requests.fetch);
    tell_replies(&sums.replies, errors);
    tell(errors, "segv maperr", sums.segvs.maperr);
    tell(errors, "segv accerr", sums.segvs.accerr);
    tell(errors, "takes", sums.takes);
    // (the tickets of all notes are the numbers below that of all notes, each once)
    tell(errors, "tickets", sums.notes);
    tell(errors, "notes", sums.notes);
}
