//! A recorder, and what it keeps of each step.
ghost use Rattle.std.specs.Prelude.{◌≡◌, ◌≤◌, IfOk, vec_capacity, vec_len};
ghost use Rattle.draw_records.specs.Recording.{Recording, made};

use draw_steps::moments::{Deed, Moment, Pass, Recorded};
use slot_lock::Change;
use std::alloc::{AllocError, Allocator};
use std::marker::Model;
use vm_base::{CoreId, CoreSet, Reply, Request};

/// How many moments are kept at the most: eight of each of 2,000 steps or columns, and the begin of each core's call that began
/// before them.
const ROOM: usize = 16064;

/// A call that isn't answered yet.
#[derive(Clone, Copy)]
pub struct Pending {
    /// Its number.
    pub call: u64,
    /// The step in which it began.
    pub step: u64,
    /// The core that asks.
    pub core: CoreId,
    /// What it asks for.
    pub request: Request,
}

/// What a change makes of its pages.
pub fn moment_of(change: &Change) -> Moment
    ensures { result ≡ made change.now }
{
    match change {
        Change::Put { range, meta } => Moment::Mapped {
            pages: *range,
            prot: meta.prot,
            back: Some(meta.back),
        },
        Change::Clear { range } => Moment::Unmapped { pages: *range },
        Change::Protect { range, prot } => Moment::Mapped {
            pages: *range,
            prot: *prot,
            back: None,
        },
    }
}

/// Records what happens in the steps of a range, 2,000 at most. Its memory is taken when it is made. A clause sees it as
/// `Recording`.
#[derive(Drop)]
pub struct Recorder<A: Allocator> {
    first: u64,
    last: u64,
    cores: u64,
    step: u64,
    calls: u64,
    pending: [Option<Pending>; 64],
    told: [u64; 64],
    moments: Vec<Recorded, A>,
}

impl<A: Allocator> Model for Recorder<A> {
    ghost Value = { Recording };

    ghost view = { λ r. record {
      first = r.first;
      last = r.last;
      cores = r.cores;
      step = r.step;
      calls = r.calls;
      pending = r.pending;
      told = r.told;
      moments = r.moments.items;
    } };

    ghost invariant = { λ r. 16064 ≤ vec_capacity r.moments };
}

impl<A: Allocator> Recorder<A> {
    ghost use Rattle.std.specs.Prelude.{◌≡◌, ◌<◌, IfOk, None, length, slice_index_or};
    ghost use Rattle.draw_records.specs.Recording.{advanced, answered, begun, change_made, deed_done, is_kept, nothing_recorded, noted};
    ghost use Rattle.draw_records.specs.Recording.{all_pushed, begin_pushed, opened, pushed, told_others};

    /// A recorder of the steps from `first` to `last`, or of the first 2,000 of them, before the first step of a run.
    /// Steps are numbered from 1. An error is a refusal of memory.
    pub fn new(alloc: A, first: u64, last: u64) -> Result<Recorder<A>, AllocError>
        ensures { IfOk result (λ made. made ≡ nothing_recorded first last) }
    {
        let moments = Vec::with_capacity(alloc, ROOM)?;
        Ok(Recorder {
            first,
            last: last.min(first.saturating_add(1999)),
            cores: 0,
            step: 0,
            calls: 0,
            pending: [None; 64],
            told: [0; 64],
            moments,
        })
    }

    /// What was recorded.
    pub fn moments(&self) -> &[Recorded]
        ensures { result.now ≡ self.now.moments }
    {
        self.moments.as_slice()
    }

    /// Whether what happens now is kept.
    pub fn keeps(&self) -> bool
        ensures { result ≡ is_kept self.now }
    {
        self.first <= self.step && self.last >= self.step && self.moments.len() < ROOM
    }

    /// The first step of the range.
    pub fn first(&self) -> u64
        ensures { result ≡ self.now.first }
    {
        self.first
    }

    /// How many cores the machine had at the last step, or 0 before the first.
    pub fn cores(&self) -> u64
        ensures { result ≡ self.now.cores }
    {
        self.cores
    }

    /// How many steps there were.
    pub fn steps(&self) -> u64
        ensures { result ≡ self.now.step }
    {
        self.step
    }

    /// In which step each core told others last, or 0.
    pub fn told(&self) -> &[u64; 64]
        ensures { result.now ≡ self.now.told }
    {
        &self.told
    }

    // One moment more, where it is in the range and there is room.
    fn push(&mut self, recorded: Recorded)
        ensures { self.new ≡ pushed self.old recorded }
    {
        if self.first <= self.step && self.step <= self.last && self.moments.len() < ROOM {
            self.moments.push_reserved(recorded);
        }
    }

    // One moment more, of this step.
    fn note(&mut self, moment: Moment)
        ensures { self.new ≡ noted self.old moment }
    {
        self.push(Recorded {
            step: self.step,
            moment,
        });
    }

    // That this call began, if there is one.
    fn push_begin(&mut self, pending: Option<Pending>)
        ensures { self.new ≡ begin_pushed self.old pending }
    {
        if let Some(call) = pending {
            self.push(Recorded {
                step: call.step,
                moment: Moment::Begins {
                    call: call.call,
                    core: call.core,
                    request: call.request,
                },
            });
        }
    }

    // The call of the core with this number, if it isn't answered yet.
    fn pending_at(&self, at: usize) -> Option<Pending>
        requires { at < 64 }
        ensures value { result ≡ slice_index_or self.now.pending at None }
        ensures all { length self.now.pending ≡ 64 }
    {
        self.pending[at]
    }

    // The calls that aren't answered yet, each at the step in which it began.
    fn push_pending(&mut self)
        ensures { self.new ≡ all_pushed self.old self.old.pending }
    {
        let mut at = 0usize;
        'calls: while at < 64 {
            let pending = self.pending_at(at);
            self.push_begin(pending);
            at += 1;
        }
    }

    /// The next step begins, of a machine with this many cores. In the first one of the range the calls are recorded that
    /// aren't answered yet.
    pub fn advance(&mut self, cores: u64)
        ensures { self.new ≡ advanced self.old cores }
    {
        self.cores = cores;
        self.step = self.step.saturating_add(1);
        if self.step == self.first {
            self.push_pending();
        }
    }

    /// The range begins with the next step, and has 2,000.
    pub fn open(&mut self)
        ensures { self.new ≡ opened self.old }
    {
        self.first = self.step.saturating_add(1);
        self.last = self.step.saturating_add(2000);
    }

    /// The core begins a call.
    pub fn begin(&mut self, core: CoreId, request: Request)
        ensures { self.new ≡ begun self.old core request }
    {
        let call = self.calls.saturating_add(1);
        self.calls = call;
        self.pending[core.index() as usize] = Some(Pending {
            call,
            step: self.step,
            core,
            request,
        });
        self.note(Moment::Begins {
            call,
            core,
            request,
        });
    }

    /// The core's call is answered, if it has one.
    pub fn answer(&mut self, core: CoreId, reply: Reply)
        ensures { self.new ≡ answered self.old core reply }
    {
        let pending = self.pending[core.index() as usize];
        if let Some(call) = pending {
            self.pending[core.index() as usize] = None;
            self.note(Moment::Answers {
                call: call.call,
                reply,
            });
        }
    }

    /// The core told these, if there are any.
    pub fn tell(&mut self, core: CoreId, cores: CoreSet)
        ensures { self.new ≡ told_others self.old core cores }
    {
        if !cores.is_empty() {
            self.told[core.index() as usize] = self.step;
            self.note(Moment::Told { core, cores });
        }
    }

    /// The core did this.
    pub fn deed(&mut self, core: CoreId, deed: Deed)
        ensures { self.new ≡ deed_done self.old core deed }
    {
        self.note(Moment::Did { core, deed });
    }

    /// The change is made.
    pub fn make(&mut self, change: &Change)
        ensures { self.new ≡ change_made self.old change.now }
    {
        self.note(moment_of(change));
    }

    /// The core made this take of the sender's message.
    pub fn take_of(&mut self, core: CoreId, sender: CoreId, pass: Pass)
        ensures { self.new ≡ noted self.old (Moment.Took core sender pass) }
    {
        self.note(Moment::Took { core, sender, pass });
    }
}
