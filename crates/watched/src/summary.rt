//! The numbers of a run, and what one step adds to them.
ghost use Rattle.std.specs.Prelude.{◌≡◌, cond};
ghost use Rattle.watched.specs.Sums.{added, counted, is_fault, is_fill, more, nothing_counted, replies_after, told};

use crate::look::{Sight, Stand};
use machine_model::Outcome;
use vm_base::Reply;

/// How many calls were answered so.
#[derive(Clone, Copy)]
pub struct Replies {
    /// A mapping's address.
    pub mapped: u64,
    /// Done: unmapped, protected or stored.
    pub done: u64,
    /// A byte.
    pub byte: u64,
    /// An error of POSIX.
    pub refused: u64,
    /// SIGSEGV.
    pub segv: u64,
    /// SIGBUS.
    pub bus: u64,
    /// No frame was free.
    pub no_frame: u64,
    /// The call was given up.
    pub no_memory: u64,
}

/// The numbers of a run. A number that would pass 2^64 - 1 stays there.
#[derive(Clone, Copy)]
pub struct Summary {
    /// The calls that were answered, by reply.
    pub replies: Replies,
    /// Accesses that their core's TLB and tables didn't allow, each time.
    pub faults: u64,
    /// Pages that got a frame.
    pub fills: u64,
    /// Messages that told other cores to drop their translations.
    pub shootdowns: u64,
    /// The cores that these told.
    pub told: u64,
    /// The cores that they could have told: all but the one that tells.
    pub others: u64,
    /// The most frames that were in use at once.
    pub most_in_use: u64,
    /// The epoch after the last step.
    pub epoch: u64,
}

// One more, where that is so.
fn count_if(count: u64, is: bool) -> u64
    ensures { result ≡ cond is (more count 1) count }
{
    if is { count.saturating_add(1) } else { count }
}

// Whether an access that stood so faulted.
fn is_fault(before: Stand, after: Stand) -> bool
    ensures { result ≡ is_fault before after }
{
    match before {
        Stand::Trying => match after {
            Stand::Locking => true,
            Stand::Trying | Stand::Filling | Stand::Installing | Stand::Elsewhere => false,
        },
        Stand::Locking | Stand::Filling | Stand::Installing | Stand::Elsewhere => false,
    }
}

// Whether its page got a frame.
fn is_fill(before: Stand, after: Stand) -> bool
    ensures { result ≡ is_fill before after }
{
    match before {
        Stand::Filling => match after {
            Stand::Installing => true,
            Stand::Trying | Stand::Locking | Stand::Filling | Stand::Elsewhere => false,
        },
        Stand::Trying | Stand::Locking | Stand::Installing | Stand::Elsewhere => false,
    }
}

// How many cores the step told: all that are awaited, where none was.
fn told(before: &Sight, after: &Sight) -> u64
    ensures { result ≡ told before.now after.now }
{
    if before.awaited == 0 {
        after.awaited
    } else {
        0
    }
}

impl Replies {
    // One reply more.
    fn count(&mut self, reply: Reply)
        ensures { self.new ≡ counted self.old reply }
    {
        match reply {
            Reply::Mapped(_) => self.mapped = self.mapped.saturating_add(1),
            Reply::Done => self.done = self.done.saturating_add(1),
            Reply::Byte(_) => self.byte = self.byte.saturating_add(1),
            Reply::Refused(_) => self.refused = self.refused.saturating_add(1),
            Reply::Segv(_) => self.segv = self.segv.saturating_add(1),
            Reply::Bus => self.bus = self.bus.saturating_add(1),
            Reply::NoFrame => self.no_frame = self.no_frame.saturating_add(1),
            Reply::NoMemory => self.no_memory = self.no_memory.saturating_add(1),
        }
    }
}

impl Summary {
    /// The numbers before the first step.
    pub fn new() -> Summary
        ensures { result ≡ nothing_counted }
    {
        Summary {
            replies: Replies {
                mapped: 0,
                done: 0,
                byte: 0,
                refused: 0,
                segv: 0,
                bus: 0,
                no_frame: 0,
                no_memory: 0,
            },
            faults: 0,
            fills: 0,
            shootdowns: 0,
            told: 0,
            others: 0,
            most_in_use: 0,
            epoch: 0,
        }
    }

    // The reply of an answered call.
    fn count_outcome(&mut self, outcome: &Outcome)
        ensures { self.new ≡ record self.old { replies = replies_after self.old.replies outcome.now } }
    {
        match outcome {
            Outcome::Answered(reply) => self.replies.count(*reply),
            Outcome::Stepped | Outcome::Wait(_) | Outcome::Idle | Outcome::Full => (),
        }
    }

    /// Adds what one step did, of which this was seen before and after it.
    pub fn add(&mut self, before: &Sight, outcome: &Outcome, after: &Sight)
        ensures { self.new ≡ added self.old before.now outcome.now after.now }
    {
        self.count_outcome(outcome);
        let told = told(before, after);
        self.faults = count_if(self.faults, is_fault(before.stand, after.stand));
        self.fills = count_if(self.fills, is_fill(before.stand, after.stand));
        self.shootdowns = count_if(self.shootdowns, told > 0);
        self.told = self.told.saturating_add(told);
        self.others = self
            .others
            .saturating_add(if told > 0 { after.others } else { 0 });
        self.most_in_use = self.most_in_use.max(after.in_use);
        self.epoch = after.epoch;
    }
}
