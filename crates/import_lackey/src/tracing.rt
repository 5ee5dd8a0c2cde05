//! What a line of lackey becomes: requests of a trace, a change, or a reason for which it is left out.
ghost use Rattle.std.specs.Prelude.{◌≡◌, ◌+◌, ◌*◌, ◌/◌, ◌<◌, ◌≤◌, ◌^◌, IfOk, OnOk, length};
ghost use Rattle.trace_io.specs.Lines.{lines_of};
ghost use Rattle.import_steps.specs.Counts.{total};
ghost use Rattle.import_steps.specs.Taking.{so_far};
ghost use Rattle.import_lackey.specs.Heard.{heard_of};
ghost use Rattle.import_lackey.specs.Tracing.{accessed, asked_for, call_taken, covers, heard_taken, is_mapped, is_whole, mmap_taken, page_of, placed};
ghost use Rattle.import_lackey.specs.Tracing.{state_of, there, touch_taken, touched, touched_at, trace_of};

use crate::heard::{Heard, LackeyAccess, LackeyTouch, read_heard};
use import_forms::said::Said;
use import_steps::counts::LineCounts;
use import_steps::taking::{ADDRESS_END, Fate, Mapping, Reason, Taken, ask, take, take_file};
use std::alloc::{AllocError, Global};
use trace_io::lines::front_line;
use trace_text::number_text;
use vm_base::{Flags, Prot, Request};

// The thread whose all requests are: accesses don't say of which thread they are.
const THREAD: u64 = 1;

// How many bytes a page has, and the first address that a program may have.
const PAGE: u64 = 4096;

/// A range that the trace has mapped.
#[derive(Clone, Copy)]
pub struct Mapped {
    /// Its first address.
    pub addr: u64,
    /// How many bytes it has.
    pub len: u64,
}

/// What was taken of the lines so far.
#[derive(Drop)]
pub struct Traced {
    /// The requests, the files and the heap's end.
    pub taken: Taken,
    /// All that was mapped at some time.
    pub mapped: Vec<Mapped>,
}

/// What was taken of a log, and how many of its lines became what.
#[derive(Drop)]
pub struct Traces {
    /// What was taken.
    pub traced: Traced,
    /// How many lines were kept, changed and left out.
    pub counts: LineCounts,
}

// The first address of the page.
fn page_of(addr: u64) -> u64
    ensures value { result ≡ page_of addr }
    ensures within { result ≤ addr }
{
    addr / PAGE * PAGE
}

// Tells whether some byte of the page is in the range.
fn covers(range: Mapped, page: u64) -> bool
    requires { page < 2 ^ 48 }
    ensures { result ≡ covers page range }
{
    if range.addr >= page + PAGE {
        return false;
    }
    page < range.addr || page - range.addr < range.len
}

// Tells whether some byte of the page was mapped at some time.
fn is_mapped(mapped: &[Mapped], page: u64) -> bool
    requires { page < 2 ^ 48 }
    ensures { result ≡ is_mapped page mapped.now }
{
    let mut at = 0;
    'mappings: while at < mapped.len() {
        if covers(mapped[at], page) {
            return true;
        }
        at += 1;
    }
    false
}

// The mapping of a page that was there before the first line.
fn there(page: u64) -> Request
    ensures { result ≡ there page }
{
    Request::Mmap {
        addr: page,
        len: PAGE,
        prot: Prot {
            read: true,
            write: true,
            exec: true,
        },
        flags: Flags {
            private: true,
            shared: false,
            fixed: true,
            anon: true,
        },
        file: 0,
        off: 0,
    }
}

// Maps the page if no line has, since it was there before the first then.
fn touch_page(traced: &mut Traced, page: u64) -> Result<(), AllocError>
    requires { page < 2 ^ 48 }
    ensures { OnOk result (state_of traced.new ≡ touched (state_of traced.old) page) }
{
    if is_mapped(traced.mapped.as_slice(), page) {
        return Ok(());
    }
    ask(&mut traced.taken, THREAD, there(page))?;
    traced.mapped.push(Mapped {
        addr: page,
        len: PAGE,
    })?;
    Ok(())
}

// The request of a byte's access; of one that reads and writes, that which writes.
fn asked_for(access: LackeyAccess, addr: u64) -> Request
    ensures { result ≡ asked_for access addr }
{
    match access {
        LackeyAccess::Fetch => Request::Fetch { addr },
        LackeyAccess::Load => Request::Load { addr },
        LackeyAccess::Store | LackeyAccess::Modify => Request::Store { addr, byte: 0 },
    }
}

// Adds the access of a byte.
fn touch_at(traced: &mut Traced, access: LackeyAccess, addr: u64) -> Result<(), AllocError>
    requires { addr < 2 ^ 48 }
    ensures { OnOk result (state_of traced.new ≡ touched_at (state_of traced.old) access addr) }
{
    touch_page(traced, page_of(addr))?;
    ask(&mut traced.taken, THREAD, asked_for(access, addr))
}

// Adds the accesses of the first byte in each page.
fn access(traced: &mut Traced, access: LackeyAccess, addr: u64, size: u64) -> Result<(), AllocError>
    requires addr { addr < 2 ^ 47 }
    requires size { size ≤ 4096 }
    ensures { OnOk result (state_of traced.new ≡ accessed (state_of traced.old) access addr size) }
{
    touch_at(traced, access, addr)?;
    let next = page_of(addr) + PAGE;
    if next < addr + size {
        touch_at(traced, access, next)?;
    }
    Ok(())
}

// Tells whether there are bytes, at most a page, and all within the addresses of a trace.
fn is_whole(touch: LackeyTouch) -> bool
    ensures { result ≡ is_whole touch }
{
    if touch.size == 0 || touch.size > PAGE {
        return false;
    }
    touch.addr >= PAGE && touch.addr < ADDRESS_END && touch.size <= ADDRESS_END - touch.addr
}

// Adds an access.
fn take_touch(traced: &mut Traced, touch: LackeyTouch) -> Result<Fate, AllocError>
    ensures { IfOk result (λ fate. (state_of traced.new, fate) ≡ touch_taken (state_of traced.old) touch) }
{
    if !is_whole(touch) {
        return Ok(Fate::Left(Reason::Unread));
    }
    if touch.access == LackeyAccess::Modify {
        access(traced, LackeyAccess::Load, touch.addr, touch.size)?;
        access(traced, LackeyAccess::Store, touch.addr, touch.size)?;
    } else {
        access(traced, touch.access, touch.addr, touch.size)?;
    }
    Ok(Fate::Kept)
}

// What a call maps, where the heap ended at this address before.
fn placed(heap_end: Option<u64>, said: Said) -> Option<Mapped>
    ensures { result ≡ placed heap_end said }
{
    match said {
        Said::Asks(Request::Mmap { addr, len, .. }) => Some(Mapped { addr, len }),
        Said::Breaks(to) => match heap_end {
            Some(addr) => Some(Mapped {
                addr,
                len: to.saturating_sub(addr),
            }),
            None => None,
        },
        Said::Moves { to, new, .. } => Some(Mapped { addr: to, len: new }),
        Said::Asks(_)
        | Said::Makes { .. }
        | Said::Begins
        | Said::Keyed(_)
        | Said::Sizes { .. }
        | Said::Attaches { .. }
        | Said::Detaches(_)
        | Said::Clears { .. }
        | Said::Loses(_)
        | Said::Ends
        | Said::Fails
        | Said::Unread
        | Said::Other => None,
    }
}

// Adds a mapping of no file, or of the file of this descriptor.
fn take_mmap(
    alloc: Global,
    taken: &mut Taken,
    mapping: Mapping,
    descriptor: u64,
) -> Result<Fate, AllocError>
    ensures { IfOk result (λ fate. (so_far taken.new, fate) ≡ mmap_taken (so_far taken.old)
        mapping.addr mapping.len mapping.prot mapping.flags descriptor mapping.off) }
{
    if mapping.flags.anon {
        let request = Request::Mmap {
            addr: mapping.addr,
            len: mapping.len,
            prot: mapping.prot,
            flags: mapping.flags,
            file: 0,
            off: mapping.off,
        };
        ask(taken, THREAD, request)?;
        return Ok(Fate::Kept);
    }
    let name = number_text(descriptor);
    take_file(alloc, taken, THREAD, name.as_str().as_bytes(), mapping)
}

// Adds what a call says.
fn take_said(alloc: Global, taken: &mut Taken, said: Said) -> Result<Fate, AllocError>
    ensures { IfOk result (λ fate. (so_far taken.new, fate) ≡ call_taken (so_far taken.old) said) }
{
    match said {
        Said::Asks(
            Request::Mmap {
                addr,
                len,
                prot,
                flags,
                file,
                off,
            },
        ) => {
            let mapping = Mapping {
                addr,
                len,
                prot,
                flags,
                off,
            };
            take_mmap(alloc, taken, mapping, file)
        }
        Said::Begins => Ok(Fate::Left(Reason::Other)),
        Said::Asks(_)
        | Said::Breaks(_)
        | Said::Moves { .. }
        | Said::Makes { .. }
        | Said::Keyed(_)
        | Said::Sizes { .. }
        | Said::Attaches { .. }
        | Said::Detaches(_)
        | Said::Clears { .. }
        | Said::Loses(_)
        | Said::Ends
        | Said::Fails
        | Said::Unread
        | Said::Other => {
            let start = Taken::new(alloc);
            take(alloc, &start, taken, THREAD, b"".as_slice(), said)
        }
    }
}

// Adds what a call says, and what it maps.
fn take_call(alloc: Global, traced: &mut Traced, said: Said) -> Result<Fate, AllocError>
    ensures { IfOk result (λ fate. (state_of traced.new, fate) ≡ heard_taken (state_of traced.old) (Heard.Calls said)) }
{
    if let Some(range) = placed(traced.taken.heap_end, said) {
        traced.mapped.push(range)?;
    }
    take_said(alloc, &mut traced.taken, said)
}

// Adds what a line says.
fn take_heard(alloc: Global, traced: &mut Traced, heard: Heard) -> Result<Fate, AllocError>
    ensures { IfOk result (λ fate. (state_of traced.new, fate) ≡ heard_taken (state_of traced.old) heard) }
{
    match heard {
        Heard::Touches(touch) => take_touch(traced, touch),
        Heard::Calls(said) => take_call(alloc, traced, said),
    }
}

/// What is taken of a log of lackey. Each line is counted once.
pub fn trace_lines(alloc: Global, log: &[u8]) -> Result<Traces, AllocError>
    ensures value { IfOk result (λ t. (state_of t.traced, t.counts) ≡ trace_of log.now) }
    ensures total { IfOk result (λ t. total t.counts ≡ length (lines_of log.now)) }
    ensures few { IfOk result (λ t. total t.counts < 2 ^ 64) }
{
    let mut traced = Traced {
        taken: Taken::new(alloc),
        mapped: Vec::new(alloc),
    };
    let mut counts = LineCounts::new();
    let mut rest = log;
    let mut left = log.len();
    'lines: while left > 0 {
        let (line, more) = front_line(rest);
        let fate = take_heard(alloc, &mut traced, read_heard(line))?;
        counts = counts.and(fate);
        rest = more;
        left = rest.len();
    }
    Ok(Traces { traced, counts })
}
