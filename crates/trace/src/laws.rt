//! The results of the lines of a trace, one after another.
ghost use Rattle.trace.specs.EventRuns.{AllTracesAreRuns};
ghost use Rattle.trace.specs.PlainLaw.{AllTracesArePlain};

/// The lines that a replay acted on are one run of a machine: its events are those that
/// the lines ask for, each line's text is that of its last outcome, the run's log is that
/// of a plain page map (POSIX.1-2017, mmap, munmap and mprotect), and each reply that was
/// handed out stands once in it, between its call and its answer.
pub fn traces_are_runs()
    ensures { AllTracesAreRuns }
{}

/// A trace gives, up to the first line that takes a call apart or begins one while another waits, the
/// text of the plain page map with the files that its lines open: line for line the reply of that
/// map's next state, or `wait acks` with just the cores that use a page whose users that reply drops,
/// and later the reply, once each of them has taken twice; never `stuck`. A mapping that leaves its
/// place open is at its hint, if that is free, else at the least room of its core's window. A private
/// page shows its file until it gets a copy before the first store to it that is done; that store
/// drops the page's other users. No part of the machine is needed to tell it, but that walks,
/// evictions, flushes and reviews of the setup's cores, and folds, may be `step` or `idle`.
///
/// Behind the text come, where they are shown, the lines of the log, whose replies are those of
/// the lines before, in order, and which leads to the plain page map that the lines reach; or the
/// list of all mappings of that map. A trace without the line of an event has an empty log, and no
/// mapping.
///
/// "No frame" may stand for an access that the map would serve only where more accesses were made
/// than there are frames, in place of a `wait acks` too, and changes nothing. From the first `call`
/// or `go` on nothing is said, nor from the first call beside one that waits, nor from the first
/// `giveup` of a store that waits for no core any more, nor of a trace with 2^64 - 1 events, where
/// the machine stops counting.
pub fn traces_are_plain()
    ensures { AllTracesArePlain }
{}
