//! The numbers of what seats noted.
ghost use Rattle.std.specs.Prelude.{◌≡◌, ◌∷◌, ◌++◌, [], List, map};
ghost use Rattle.seats.specs.declared.noted.Noted.{Noted as NotedOf};
ghost use Rattle.seats.specs.Packing.{shown};
ghost use Rattle.certifier.specs.Order.{all_notes};
ghost use Rattle.live_script.specs.Sums.{is_take, one_if, replies_after, requests_after, segvs_after, sums_of, with_reply};
ghost use Rattle.live_script.specs.Sums.{with_request, with_segv};

use machine_model::{Event, Outcome};
use seats::{Noted, Notes};
use vm_base::{Reply, Request, SegvCode};
use watched::Replies;

/// How many calls asked for what.
#[derive(Clone, Copy)]
pub struct Requests {
    pub mmap: u64,
    pub munmap: u64,
    pub mprotect: u64,
    pub load: u64,
    pub store: u64,
    pub fetch: u64,
}

/// How many accesses got SIGSEGV, and why.
#[derive(Clone, Copy)]
pub struct Segvs {
    /// The page wasn't mapped.
    pub maperr: u64,
    /// Its protection forbade the access.
    pub accerr: u64,
}

/// The numbers of notes. A number that would pass 2^64 - 1 stays there.
#[derive(Clone, Copy)]
pub struct Sums {
    /// The calls that began, by request.
    pub requests: Requests,
    /// The calls that were answered, by reply.
    pub replies: Replies,
    /// Those that were answered with SIGSEGV, by its reason.
    pub segvs: Segvs,
    /// The messages that were acted on.
    pub takes: u64,
    /// All notes.
    pub notes: u64,
}

// One request more.
fn count_request(requests: &mut Requests, request: &Request)
    ensures { requests.new ≡ with_request requests.old request.now }
{
    match request {
        Request::Mmap { .. } => requests.mmap = requests.mmap.saturating_add(1),
        Request::Munmap { .. } => requests.munmap = requests.munmap.saturating_add(1),
        Request::Mprotect { .. } => requests.mprotect = requests.mprotect.saturating_add(1),
        Request::Load { .. } => requests.load = requests.load.saturating_add(1),
        Request::Store { .. } => requests.store = requests.store.saturating_add(1),
        Request::Fetch { .. } => requests.fetch = requests.fetch.saturating_add(1),
    }
}

// One reply more.
fn count_reply(replies: &mut Replies, reply: &Reply)
    ensures { replies.new ≡ with_reply replies.old reply.now }
{
    match reply {
        Reply::Mapped(_) => replies.mapped = replies.mapped.saturating_add(1),
        Reply::Done => replies.done = replies.done.saturating_add(1),
        Reply::Byte(_) => replies.byte = replies.byte.saturating_add(1),
        Reply::Refused(_) => replies.refused = replies.refused.saturating_add(1),
        Reply::Segv(_) => replies.segv = replies.segv.saturating_add(1),
        Reply::Bus => replies.bus = replies.bus.saturating_add(1),
        Reply::NoFrame => replies.no_frame = replies.no_frame.saturating_add(1),
        Reply::NoMemory => replies.no_memory = replies.no_memory.saturating_add(1),
    }
}

// The reason of SIGSEGV, where that is the reply.
fn count_segv(segvs: &mut Segvs, reply: &Reply)
    ensures { segvs.new ≡ with_segv segvs.old reply.now }
{
    match reply {
        Reply::Segv(SegvCode::MapErr) => segvs.maperr = segvs.maperr.saturating_add(1),
        Reply::Segv(SegvCode::AccErr) => segvs.accerr = segvs.accerr.saturating_add(1),
        Reply::Mapped(_) | Reply::Done | Reply::Byte(_) | Reply::Refused(_) => (),
        Reply::Bus | Reply::NoFrame | Reply::NoMemory => (),
    }
}

impl Sums {
    // The numbers of no notes.
    fn new() -> Sums
        ensures { result ≡ sums_of [] }
    {
        Sums {
            requests: Requests {
                mmap: 0,
                munmap: 0,
                mprotect: 0,
                load: 0,
                store: 0,
                fetch: 0,
            },
            replies: Replies {
                mapped: 0,
                done: 0,
                byte: 0,
                refused: 0,
                segv: 0,
                bus: 0,
                no_frame: 0,
                no_memory: 0,
            },
            segvs: Segvs {
                maperr: 0,
                accerr: 0,
            },
            takes: 0,
            notes: 0,
        }
    }

    // What a note's event adds.
    fn count_event(&mut self, event: &Event)
        ensures { self.new ≡ record self.old {
          requests = requests_after self.old.requests event.now;
          takes = one_if (is_take event.now) self.old.takes;
        } }
    {
        match event {
            Event::Call(_, request) => count_request(&mut self.requests, request),
            Event::Take(_) => self.takes = self.takes.saturating_add(1),
            Event::Go(_) | Event::Frame(..) | Event::Guess(..) | Event::Whole(_) => (),
            Event::Walk(..) | Event::Evict(..) | Event::Flush(_) | Event::Review(_) => (),
            Event::Fold(_) | Event::GiveUp(_) => (),
        }
    }

    // What its outcome adds.
    fn count_outcome(&mut self, outcome: &Outcome)
        ensures { self.new ≡ record self.old {
          replies = replies_after self.old.replies outcome.now;
          segvs = segvs_after self.old.segvs outcome.now;
        } }
    {
        match outcome {
            Outcome::Answered(reply) => {
                count_reply(&mut self.replies, reply);
                count_segv(&mut self.segvs, reply);
            }
            Outcome::Stepped | Outcome::Wait(_) | Outcome::Idle | Outcome::Full => (),
        }
    }

    // The numbers of these notes become those of one more.
    fn count(&mut self, note: &Noted)
        ensures { (before : List NotedOf) → self.old ≡ sums_of before → self.new ≡ sums_of (before ++ note.now ∷ []) }
    {
        self.count_event(&note.event);
        self.count_outcome(&note.outcome);
        self.notes = self.notes.saturating_add(1);
    }
}

// The notes of one seat more.
fn count_notes(sums: &mut Sums, notes: &Notes<'_>)
    ensures { (before : List NotedOf) → sums.old ≡ sums_of before → sums.new ≡ sums_of (before ++ shown notes.now) }
{
    'notes: for at in 0..notes.len() {
        let note = notes.get(at);
        sums.count(&note);
    }
}

/// The numbers of all that seats noted.
pub fn sums_of(seats: &[Notes<'_>]) -> Sums
    ensures { result ≡ sums_of (all_notes (map shown seats.now)) }
{
    let mut sums = Sums::new();
    'seats: for at in 0..seats.len() {
        let notes = seats[at];
        count_notes(&mut sums, &notes);
    }
    sums
}
