//! The calls of a log with their replies: what one more call adds.
ghost use Rattle.std.specs.Prelude.{◌≡◌, ◌≤◌, ◌^◌, ◌++◌, IfOk, OnOk, None, length};
ghost use Rattle.import_forms.specs.Replies.{is_fixed_move};
ghost use Rattle.import_steps.specs.Taking.{rounded};
ghost use Rattle.import_lackey.specs.Replies.{answered, break_replied, common, covers, end_moved, failure_replied, first_half, half_times, heap_replied, if_done, if_mapped};
ghost use Rattle.import_lackey.specs.Replies.{known_after, mapped_at, mapping_fate, mapping_replied, move_replied, moved_replied, nothing_replied, outside, pages_asked};
ghost use Rattle.import_lackey.specs.Replies.{protect_replied, range_at, range_changed, range_mapped, range_within, replied_so_far, request_replied};
ghost use Rattle.import_lackey.specs.Replies.{rights_replied, said_replied, second_half, some_half, uncovered, unmapped_at, with_range, without};

use import_forms::replies::{RefusedCall, is_fixed_move, read_asked, read_refused};
use import_forms::said::{Lost, Said};
use import_steps::taking::{ADDRESS_END, Fate, LineChange, Reason, place_of};
use std::alloc::{AllocError, Global};
use vm_base::{CoreId, Flags, Prot, Reply, Request};

/// A range of addresses, in whole pages.
#[derive(Clone, Copy)]
pub struct PageRange {
    /// The first.
    pub start: u64,
    /// The first after the last.
    pub end: u64,
}

/// When a call was made, by some clock.
#[derive(Clone, Copy)]
pub struct Interval {
    /// It began after this.
    pub begin: u64,
    /// It ended before this.
    pub end: u64,
}

/// When a call was made.
#[derive(Clone, Copy)]
pub struct CallTimes {
    /// By the log's lines.
    pub lines: Interval,
    /// In nanoseconds, where the log says so.
    pub times: Option<Interval>,
}

/// A call with its reply.
#[derive(Clone, Copy)]
pub struct RepliedCall {
    /// The core that made it.
    pub core: CoreId,
    /// When that was.
    pub at: CallTimes,
    /// What it asked for.
    pub request: Request,
    /// What it was answered.
    pub reply: Reply,
}

/// The calls so far.
#[derive(Drop)]
pub struct Replies {
    /// The threads, in the order of their first calls.
    pub threads: Vec<u64>,
    /// Where the heap ends, once a line has said so.
    pub heap_end: Option<u64>,
    /// The ranges that calls mapped. None has a page of another.
    pub known: Vec<PageRange>,
    /// The calls.
    pub calls: Vec<RepliedCall>,
}

// The pages of this many bytes from an address on, where both are numbers that a program may have.
fn range_at(addr: u64, len: u64) -> Option<PageRange>
    ensures { result ≡ range_at addr len }
{
    if addr > ADDRESS_END || len > ADDRESS_END {
        return None;
    }
    Some(PageRange {
        start: addr,
        end: (addr + len + 4095) / 4096 * 4096,
    })
}

// Appends a range, if it isn't empty.
fn push_range(ranges: &mut Vec<PageRange>, start: u64, end: u64) -> Result<(), AllocError>
    ensures { OnOk result (ranges.new.items ≡ ranges.old.items ++ range_within start end) }
{
    if start < end {
        ranges.push(PageRange { start, end })?;
    }
    Ok(())
}

// Appends what of a range is outside of another.
fn push_outside(
    ranges: &mut Vec<PageRange>,
    gone: PageRange,
    range: PageRange,
) -> Result<(), AllocError>
    ensures { OnOk result (ranges.new.items ≡ ranges.old.items ++ outside gone range) }
{
    push_range(ranges, range.start, range.end.min(gone.start))?;
    push_range(ranges, range.start.max(gone.end), range.end)?;
    Ok(())
}

// What of these ranges is outside of another.
#[tactic(auto, using(crate::proofs::RangeLemmas::flat_added))]
fn without(
    alloc: Global,
    known: &[PageRange],
    gone: PageRange,
) -> Result<Vec<PageRange>, AllocError>
    ensures { IfOk result (λ rest. rest.items ≡ without (Some gone) known.now) }
{
    let mut rest: Vec<PageRange> = Vec::new(alloc);
    let mut at = 0;
    'known: while at < known.len() {
        let range = known[at];
        push_outside(&mut rest, gone, range)?;
        at += 1;
    }
    Ok(rest)
}

// The range in which an `mmap` of this many bytes has mapped.
fn if_mapped(len: u64, reply: Reply) -> Option<PageRange>
    ensures { result ≡ if_mapped len reply }
{
    match reply {
        Reply::Mapped(at) => range_at(at, len),
        Reply::Done
        | Reply::Byte(_)
        | Reply::Refused(_)
        | Reply::Segv(_)
        | Reply::Bus
        | Reply::NoFrame
        | Reply::NoMemory => None,
    }
}

// The range that a `munmap` has unmapped.
fn if_done(addr: u64, len: u64, reply: Reply) -> Option<PageRange>
    ensures { result ≡ if_done addr len reply }
{
    match reply {
        Reply::Done => range_at(addr, len),
        Reply::Mapped(_)
        | Reply::Byte(_)
        | Reply::Refused(_)
        | Reply::Segv(_)
        | Reply::Bus
        | Reply::NoFrame
        | Reply::NoMemory => None,
    }
}

// The range that a call unmaps, or in which it maps.
fn range_changed(request: Request, reply: Reply) -> Option<PageRange>
    ensures { result ≡ range_changed request reply }
{
    match request {
        Request::Mmap { len, .. } => if_mapped(len, reply),
        Request::Munmap { addr, len } => if_done(addr, len, reply),
        Request::Mprotect { .. }
        | Request::Load { .. }
        | Request::Store { .. }
        | Request::Fetch { .. } => None,
    }
}

// The range in which a call maps.
fn range_mapped(request: Request, reply: Reply) -> Option<PageRange>
    ensures { result ≡ range_mapped request reply }
{
    match request {
        Request::Mmap { len, .. } => if_mapped(len, reply),
        Request::Munmap { .. }
        | Request::Mprotect { .. }
        | Request::Load { .. }
        | Request::Store { .. }
        | Request::Fetch { .. } => None,
    }
}

// Leaves a range out of those that are known, if there is one.
fn forget(
    alloc: Global,
    known: &mut Vec<PageRange>,
    gone: Option<PageRange>,
) -> Result<(), AllocError>
    ensures { OnOk result (known.new.items ≡ without gone known.old.items) }
{
    let Some(gone) = gone else {
        return Ok(());
    };
    *known = without(alloc, known.as_slice(), gone)?;
    Ok(())
}

// Adds a range to those that are known, if there is one.
fn note(known: &mut Vec<PageRange>, range: Option<PageRange>) -> Result<(), AllocError>
    ensures { OnOk result (known.new.items ≡ with_range known.old.items range) }
{
    if let Some(range) = range {
        known.push(range)?;
    }
    Ok(())
}

// Notes what a call mapped or unmapped.
fn learn(
    alloc: Global,
    known: &mut Vec<PageRange>,
    request: Request,
    reply: Reply,
) -> Result<(), AllocError>
    ensures { OnOk result (known.new.items ≡ known_after known.old.items request reply) }
{
    forget(alloc, known, range_changed(request, reply))?;
    note(known, range_mapped(request, reply))?;
    Ok(())
}

// How many bytes two ranges have in common.
fn common(one: PageRange, other: PageRange) -> u64
    ensures { result ≡ common one other }
{
    one.end
        .min(other.end)
        .saturating_sub(one.start.max(other.start))
}

// How many of this many bytes of a range are left without those that are known.
fn uncovered(range: PageRange, count: u64, known: &[PageRange]) -> u64
    ensures { result ≡ uncovered range count known.now }
{
    let mut left = count;
    let mut at = 0;
    'known: while at < known.len() {
        left = left.saturating_sub(common(range, known[at]));
        at += 1;
    }
    left
}

// Tells whether all pages of a range are known, if there is one.
fn covers(known: &[PageRange], range: Option<PageRange>) -> bool
    ensures { result ≡ covers known.now range }
{
    match range {
        Some(range) => uncovered(range, range.end.saturating_sub(range.start), known) == 0,
        None => false,
    }
}

/// Adds a call of this thread with its reply.
pub fn answer(
    alloc: Global,
    replies: &mut Replies,
    thread: u64,
    at: CallTimes,
    request: Request,
    reply: Reply,
) -> Result<(), AllocError>
    ensures { OnOk result (replied_so_far replies.new ≡ answered (replied_so_far replies.old) thread at request reply) }
{
    let place = place_of(replies.threads.as_slice(), thread);
    if place == replies.threads.len() {
        replies.threads.push(thread)?;
    }
    learn(alloc, &mut replies.known, request, reply)?;
    replies.calls.push(RepliedCall {
        core: CoreId::new((place % 64) as u8),
        at,
        request,
        reply,
    })?;
    Ok(())
}

// The first half of a time.
fn first_half(time: Interval) -> Interval
    ensures { result ≡ first_half time }
{
    Interval {
        begin: time.begin,
        end: time.begin + time.end.saturating_sub(time.begin) / 2,
    }
}

// The second half of a time.
fn second_half(time: Interval) -> Interval
    ensures { result ≡ second_half time }
{
    let middle = time.begin + time.end.saturating_sub(time.begin) / 2;
    Interval {
        begin: middle.saturating_add(1),
        end: time.end,
    }
}

// The first halves of a call's times.
fn first_halves(at: CallTimes) -> CallTimes
    ensures { result ≡ half_times first_half at }
{
    let times = match at.times {
        Some(time) => Some(first_half(time)),
        None => None,
    };
    CallTimes {
        lines: first_half(at.lines),
        times,
    }
}

// The second halves of a call's times.
fn second_halves(at: CallTimes) -> CallTimes
    ensures { result ≡ half_times second_half at }
{
    let times = match at.times {
        Some(time) => Some(second_half(time)),
        None => None,
    };
    CallTimes {
        lines: second_half(at.lines),
        times,
    }
}

// New pages of no file.
fn pages_asked(addr: u64, len: u64, fixed: bool) -> Request
    ensures { result ≡ pages_asked addr len fixed }
{
    Request::Mmap {
        addr,
        len,
        prot: Prot {
            read: true,
            write: true,
            exec: false,
        },
        flags: Flags {
            private: true,
            shared: false,
            fixed,
            anon: true,
        },
        file: 0,
        off: 0,
    }
}

// Adds that new pages were mapped.
fn map_pages(
    alloc: Global,
    replies: &mut Replies,
    thread: u64,
    at: CallTimes,
    addr: u64,
    len: u64,
    fixed: bool,
) -> Result<(), AllocError>
    ensures { OnOk result (replied_so_far replies.new
        ≡ mapped_at (replied_so_far replies.old) thread at addr len fixed) }
{
    let request = pages_asked(addr, len, fixed);
    answer(alloc, replies, thread, at, request, Reply::Mapped(addr))
}

// Adds that pages were unmapped.
fn unmap_pages(
    alloc: Global,
    replies: &mut Replies,
    thread: u64,
    at: CallTimes,
    addr: u64,
    len: u64,
) -> Result<(), AllocError>
    ensures { OnOk result (replied_so_far replies.new ≡ unmapped_at (replied_so_far replies.old) thread at addr len) }
{
    let request = Request::Munmap { addr, len };
    answer(alloc, replies, thread, at, request, Reply::Done)
}

// Adds what became of pages whose end was at one address and is at another.
fn move_end(
    alloc: Global,
    replies: &mut Replies,
    thread: u64,
    at: CallTimes,
    change: LineChange,
    old: u64,
    new: u64,
) -> Result<Fate, AllocError>
    ensures { IfOk result (λ fate. (replied_so_far replies.new, fate)
        ≡ end_moved (Fate.Changed change) (replied_so_far replies.old) thread at old new) }
{
    if old < new {
        map_pages(alloc, replies, thread, at, old, new - old, false)?;
        return Ok(Fate::Changed(change));
    }
    if new < old {
        unmap_pages(alloc, replies, thread, at, new, old - new)?;
        return Ok(Fate::Changed(change));
    }
    Ok(Fate::Left(Reason::Still))
}

// The number rounded up to whole pages.
fn rounded(number: u64) -> u64
    requires { number ≤ 2 ^ 47 }
    ensures value { result ≡ rounded number }
    ensures small { result ≤ 2 ^ 47 }
{
    (number + 4095) / 4096 * 4096
}

// Adds what became of the heap, which ends at this address now.
fn move_break(
    alloc: Global,
    replies: &mut Replies,
    thread: u64,
    at: CallTimes,
    to: u64,
) -> Result<Fate, AllocError>
    ensures { IfOk result (λ fate. (replied_so_far replies.new, fate)
        ≡ break_replied (replied_so_far replies.old) thread at to) }
{
    if to > ADDRESS_END {
        return Ok(Fate::Left(Reason::Unread));
    }
    let end = rounded(to);
    let was = replies.heap_end;
    replies.heap_end = Some(end);
    match was {
        Some(old) => move_end(alloc, replies, thread, at, LineChange::Heap, old, end),
        None => Ok(Fate::Left(Reason::Still)),
    }
}

/// A mapping that moves, or grows or shrinks.
#[derive(Clone, Copy)]
pub struct Movement {
    /// Where it was.
    pub from: u64,
    /// How many bytes it had.
    pub old: u64,
    /// Where it is.
    pub to: u64,
    /// How many bytes it has.
    pub new: u64,
    /// Whether its old place stays mapped.
    pub stays: bool,
    /// Whether it takes the place of what was there.
    pub fixed: bool,
}

// Adds what became of a mapping that moves, in whole pages.
fn move_pages(
    alloc: Global,
    replies: &mut Replies,
    thread: u64,
    at: CallTimes,
    moves: Movement,
) -> Result<Fate, AllocError>
    requires from { moves.from ≤ 2 ^ 47 }
    requires old { moves.old ≤ 2 ^ 47 }
    requires new { moves.new ≤ 2 ^ 47 }
    ensures { IfOk result (λ fate. (replied_so_far replies.new, fate)
        ≡ moved_replied (replied_so_far replies.old) thread at
        moves.from moves.old moves.to moves.new moves.stays moves.fixed) }
{
    let Movement {
        from,
        old,
        to,
        new,
        stays,
        fixed,
    } = moves;
    if stays {
        map_pages(alloc, replies, thread, at, to, new, fixed)?;
        return Ok(Fate::Changed(LineChange::Move));
    }
    if from == to {
        return move_end(
            alloc,
            replies,
            thread,
            at,
            LineChange::Move,
            from + old,
            from + new,
        );
    }
    unmap_pages(alloc, replies, thread, first_halves(at), from, old)?;
    map_pages(alloc, replies, thread, second_halves(at), to, new, fixed)?;
    Ok(Fate::Changed(LineChange::Move))
}

// Adds what became of a mapping that moves.
fn move_mapping(
    alloc: Global,
    replies: &mut Replies,
    thread: u64,
    at: CallTimes,
    moves: Movement,
) -> Result<Fate, AllocError>
    ensures { IfOk result (λ fate. (replied_so_far replies.new, fate)
        ≡ move_replied (replied_so_far replies.old) thread at
        moves.from moves.old moves.to moves.new moves.stays moves.fixed) }
{
    let Movement {
        from,
        old,
        to,
        new,
        stays,
        fixed,
    } = moves;
    if from > ADDRESS_END || old > ADDRESS_END || to > ADDRESS_END || new > ADDRESS_END {
        return Ok(Fate::Left(Reason::Unread));
    }
    let whole = Movement {
        from,
        old: rounded(old),
        to,
        new: rounded(new),
        stays,
        fixed,
    };
    move_pages(alloc, replies, thread, at, whole)
}

// What becomes of the line of a mapping with these flags.
fn mapping_fate(flags: Flags) -> Fate
    ensures { result ≡ mapping_fate flags }
{
    if flags.anon {
        Fate::Kept
    } else {
        Fate::Changed(LineChange::File)
    }
}

// Adds an `mmap` that gave this address, if it is known what it asked for.
fn reply_mapping(
    alloc: Global,
    replies: &mut Replies,
    thread: u64,
    at: CallTimes,
    addr: u64,
    fate: Fate,
    request: Option<Request>,
) -> Result<Fate, AllocError>
    ensures { IfOk result (λ f. (replied_so_far replies.new, f)
        ≡ mapping_replied (replied_so_far replies.old) thread at addr fate request) }
{
    let Some(request) = request else {
        return Ok(Fate::Left(Reason::Unread));
    };
    answer(alloc, replies, thread, at, request, Reply::Mapped(addr))?;
    Ok(fate)
}

// Adds a change of rights, if it is of pages that calls mapped.
fn reply_protect(
    alloc: Global,
    replies: &mut Replies,
    thread: u64,
    at: CallTimes,
    request: Request,
    fate: Fate,
    is_known: bool,
) -> Result<Fate, AllocError>
    ensures { IfOk result (λ f. (replied_so_far replies.new, f)
        ≡ protect_replied (replied_so_far replies.old) thread at request fate is_known) }
{
    if !is_known {
        return Ok(Fate::Left(Reason::Unmapped));
    }
    answer(alloc, replies, thread, at, request, Reply::Done)?;
    Ok(fate)
}

// Adds a change of rights.
fn reply_rights(
    alloc: Global,
    replies: &mut Replies,
    thread: u64,
    at: CallTimes,
    request: Request,
    fate: Fate,
) -> Result<Fate, AllocError>
    ensures { IfOk result (λ f. (replied_so_far replies.new, f)
        ≡ rights_replied (replied_so_far replies.old) thread at request fate) }
{
    match request {
        Request::Mprotect { addr, len, .. } => {
            let is_known = covers(replies.known.as_slice(), range_at(addr, len));
            reply_protect(alloc, replies, thread, at, request, fate, is_known)
        }
        Request::Mmap { .. }
        | Request::Munmap { .. }
        | Request::Load { .. }
        | Request::Store { .. }
        | Request::Fetch { .. } => Ok(Fate::Left(Reason::Other)),
    }
}

// Adds a request that succeeded, which has this text.
fn reply_request(
    alloc: Global,
    replies: &mut Replies,
    thread: u64,
    at: CallTimes,
    text: &[u8],
    request: Request,
) -> Result<Fate, AllocError>
    ensures { IfOk result (λ f. (replied_so_far replies.new, f)
        ≡ request_replied (replied_so_far replies.old) thread at text.now request) }
{
    match request {
        Request::Mmap { addr, flags, .. } => {
            let fate = mapping_fate(flags);
            reply_mapping(alloc, replies, thread, at, addr, fate, read_asked(text))
        }
        Request::Munmap { addr, len } => {
            unmap_pages(alloc, replies, thread, at, addr, len)?;
            Ok(Fate::Kept)
        }
        Request::Mprotect { .. }
        | Request::Load { .. }
        | Request::Store { .. }
        | Request::Fetch { .. } => { reply_rights(alloc, replies, thread, at, request, Fate::Kept) }
    }
}

// Adds a call that was refused, where only the mappings decide about that.
fn reply_failure(
    alloc: Global,
    replies: &mut Replies,
    thread: u64,
    at: CallTimes,
    refused: Option<RefusedCall>,
) -> Result<Fate, AllocError>
    ensures { IfOk result (λ f. (replied_so_far replies.new, f)
        ≡ failure_replied (replied_so_far replies.old) thread at refused) }
{
    let Some(refused) = refused else {
        return Ok(Fate::Left(Reason::Failed));
    };
    answer(
        alloc,
        replies,
        thread,
        at,
        refused.request,
        Reply::Refused(refused.errno),
    )?;
    Ok(Fate::Kept)
}

/// Adds the thread's call with this text, which says this, and answers what becomes of its line. A program that begins
/// has a new address space, so what there was before is forgotten, except for what is there at the start.
pub fn reply_said(
    alloc: Global,
    start: &Replies,
    replies: &mut Replies,
    thread: u64,
    at: CallTimes,
    text: &[u8],
    said: Said,
) -> Result<Fate, AllocError>
    ensures { IfOk result (λ f. (replied_so_far replies.new, f)
        ≡ said_replied (replied_so_far start.now) (replied_so_far replies.old) thread at text.now said) }
{
    match said {
        Said::Asks(request) => reply_request(alloc, replies, thread, at, text, request),
        Said::Keyed(request) => {
            let fate = Fate::Changed(LineChange::Key);
            reply_rights(alloc, replies, thread, at, request, fate)
        }
        Said::Breaks(to) => move_break(alloc, replies, thread, at, to),
        Said::Moves {
            from,
            old,
            to,
            new,
            stays,
        } => {
            let fixed = is_fixed_move(text);
            let moves = Movement {
                from,
                old,
                to,
                new,
                stays,
                fixed,
            };
            move_mapping(alloc, replies, thread, at, moves)
        }
        Said::Begins => {
            *replies = start.copy(alloc)?;
            Ok(Fate::Left(Reason::Begins))
        }
        Said::Fails => reply_failure(alloc, replies, thread, at, read_refused(text)),
        Said::Attaches { .. } => Ok(Fate::Left(Reason::Lost(Lost::Attach))),
        Said::Detaches(_) => Ok(Fate::Left(Reason::Lost(Lost::Detach))),
        Said::Clears { .. } => Ok(Fate::Left(Reason::Lost(Lost::Drops))),
        Said::Loses(lost) => Ok(Fate::Left(Reason::Lost(lost))),
        Said::Unread => Ok(Fate::Left(Reason::Unread)),
        Said::Makes { .. } | Said::Sizes { .. } | Said::Ends | Said::Other => {
            Ok(Fate::Left(Reason::Other))
        }
    }
}

impl Replies {
    /// No call yet.
    pub fn new(alloc: Global) -> Replies
        ensures { replied_so_far result ≡ nothing_replied None }
    {
        Replies {
            threads: Vec::new(alloc),
            heap_end: None,
            known: Vec::new(alloc),
            calls: Vec::new(alloc),
        }
    }

    /// The same once more.
    pub fn copy(&self, alloc: Global) -> Result<Replies, AllocError>
        ensures { IfOk result (λ copy. replied_so_far copy ≡ replied_so_far self.now) }
    {
        let threads = Vec::from_slice(alloc, self.threads.as_slice())?;
        let known = Vec::from_slice(alloc, self.known.as_slice())?;
        let calls = Vec::from_slice(alloc, self.calls.as_slice())?;
        Ok(Replies {
            threads,
            heap_end: self.heap_end,
            known,
            calls,
        })
    }
}
