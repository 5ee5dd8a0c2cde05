//! What a call becomes: requests of a trace, a change, or a reason for which it is left out.
ghost use Rattle.std.specs.Prelude.{◌≡◌, ◌≤◌, ◌^◌, IfOk, OnOk, Some, length, map};
ghost use Rattle.std.specs.Str.{bytes_eq};
ghost use Rattle.import_steps.specs.Taking.{after_break, after_file, after_mapping, after_request, after_said, anonymous, asked_by};
ghost use Rattle.import_steps.specs.Taking.{asked_named, asked_of};
ghost use Rattle.import_steps.specs.Taking.{file_place, files_with, heap_moved, in_place, nothing_taken, place_named, place_of};
ghost use Rattle.import_steps.specs.Shared.{len_of};
ghost use Rattle.import_steps.specs.Taking.{as_shared, attached_with, detached_with, in_shared, reaches, rounded, so_far, use_of, widened};
ghost use Rattle.import_steps.specs.Taking.{keyed_with, sized_with};

use crate::moving::{take_clear, take_move};
use crate::names::note_name;
use crate::shared::{SharedSegment, len_of, memory_name};
use import_forms::said::{Lost, Said};
use import_maps::names::{NO_NAME, Name};
use import_maps::steps::{TraceRequest, TraceRequests};
use std::alloc::{AllocError, Global};
use vm_base::limits::{FILE_BYTES, FILE_COUNT};
use vm_base::{CoreId, Flags, Prot, Request};

/// The first address that no program has: 2^47.
pub const ADDRESS_END: u64 = 140_737_488_355_328;

/// A file that mappings name.
#[derive(Drop)]
pub struct FileUse {
    /// Its path, or its descriptor.
    pub name: Vec<u8>,
    /// How many of its bytes mappings reach.
    pub len: u64,
}

/// What was taken of the lines so far.
#[derive(Drop)]
pub struct Taken {
    /// The threads that made a request, in the order of their first.
    pub threads: Vec<u64>,
    /// The files, by their numbers.
    pub files: Vec<FileUse>,
    /// Where the heap ends, once a line has said so.
    pub heap_end: Option<u64>,
    /// Shared memory by its numbers; of several that have one number the last counts.
    pub pieces: Vec<SharedSegment>,
    /// Shared memory by the addresses at which it was attached, of no bytes where their number isn't known; the last
    /// counts.
    pub attached: Vec<SharedSegment>,
    /// The names of files that became anonymous pages, one after another.
    pub names: Vec<u8>,
    /// The requests.
    pub steps: TraceRequests,
}

/// A mapping that a line asks for, where the kernel placed it.
#[derive(Clone, Copy)]
pub struct Mapping {
    /// Its first address.
    pub addr: u64,
    /// How many bytes it has.
    pub len: u64,
    /// Its rights.
    pub prot: Prot,
    /// Its flags.
    pub flags: Flags,
    /// Where it begins in its file, in bytes.
    pub off: u64,
}

/// How a line is changed.
#[derive(Clone, Copy)]
pub enum LineChange {
    /// `brk`, as `mmap` or `munmap` of the pages between.
    Heap,
    /// `mremap`, as `munmap` and `mmap`s: bytes of private pages are lost.
    Move,
    /// A mapping of a file, as one of anonymous pages: the file is the 17th or a later one, or the mapping reaches
    /// past its first 1,048,576 bytes.
    File,
    /// `pkey_mprotect`, as `mprotect`: the key is lost.
    Key,
    /// `shmat` and `shmdt`, as `mmap` of a shared file and `munmap`.
    Shared,
    /// `madvise` with `MADV_DONTNEED`, as `mmap` of the private pages, as they were mapped.
    Clear,
}

/// Why a line is left out.
#[derive(Clone, Copy)]
pub enum Reason {
    /// The other half of a call: it acts in another line, or is none of those that are looked at.
    Half,
    /// A call that failed.
    Failed,
    /// It is of another process, which has an address space of its own.
    Elsewhere,
    /// A call in a form that isn't read, or of which the log has the beginning alone.
    Unread,
    /// `brk` or `mremap` by which no page comes or goes.
    Still,
    /// `mprotect` or `mremap` of pages that no call mapped before.
    Unmapped,
    /// A call that changes the address space in a way that no trace has.
    Lost(Lost),
    /// Any other call, an event, or nothing.
    Other,
    /// A program begins: what stands before it is left out too.
    Begins,
}

/// What becomes of a line.
#[derive(Clone, Copy)]
pub enum Fate {
    /// It is a request, with its numbers.
    Kept,
    /// It is changed.
    Changed(LineChange),
    /// It is left out.
    Left(Reason),
}

const READ_WRITE: Prot = Prot {
    read: true,
    write: true,
    exec: false,
};

const SHARED: Flags = Flags {
    private: false,
    shared: true,
    fixed: true,
    anon: false,
};

const ANONYMOUS: Flags = Flags {
    private: true,
    shared: false,
    fixed: true,
    anon: true,
};

/// The number rounded up to whole pages.
pub(crate) fn rounded(number: u64) -> u64
    requires { number ≤ 2 ^ 47 }
    ensures value { result ≡ rounded number }
    ensures small { result ≤ 2 ^ 47 }
{
    (number + 4095) / 4096 * 4096
}

/// Where the thread stands among these, or would stand after them.
pub fn place_of(threads: &[u64], thread: u64) -> usize
    ensures value { result ≡ place_of thread threads.now }
    ensures within { result ≤ length threads.now }
{
    let mut at = 0;
    'threads: while at < threads.len() && threads[at] != thread {
        at += 1;
    }
    at
}

// Tells whether the file has this name.
fn is_named(file: &FileUse, name: &[u8]) -> bool
    ensures { result ≡ bytes_eq (use_of file.now).0 name.now }
{
    file.name.as_slice() == name
}

// Where the file of this name stands among these, or would stand after them.
fn place_named(files: &[FileUse], name: &[u8]) -> usize
    ensures value { result ≡ place_named name.now (map use_of files.now) }
    ensures within { result ≤ length files.now }
{
    let mut at = 0;
    'files: while at < files.len() {
        if is_named(&files[at], name) {
            return at;
        }
        at += 1;
    }
    at
}

/// Adds a request of this thread.
pub fn ask(taken: &mut Taken, thread: u64, request: Request) -> Result<(), AllocError>
    ensures { OnOk result (so_far taken.new ≡ asked_by (so_far taken.old) thread request) }
{
    ask_of(taken, thread, NO_NAME, request)
}

// Adds a request of this thread, of pages whose file has this name.
fn ask_named(
    taken: &mut Taken,
    thread: u64,
    name: &[u8],
    request: Request,
) -> Result<(), AllocError>
    ensures { OnOk result (so_far taken.new ≡ asked_named (so_far taken.old) thread name.now request) }
{
    let name = note_name(&mut taken.names, name)?;
    ask_of(taken, thread, name, request)
}

/// Adds a request of this thread, of pages whose file's name stands here.
pub(crate) fn ask_of(
    taken: &mut Taken,
    thread: u64,
    name: Name,
    request: Request,
) -> Result<(), AllocError>
    ensures { OnOk result (so_far taken.new ≡ asked_of (so_far taken.old) thread name request) }
{
    let place = place_of(taken.threads.as_slice(), thread);
    if place == taken.threads.len() {
        taken.threads.push(thread)?;
    }
    let core = CoreId::new((place % 64) as u8);
    taken.steps.push(TraceRequest {
        core,
        name,
        request,
    })?;
    Ok(())
}

// The same files once more.
fn copy_files(alloc: Global, files: &[FileUse]) -> Result<Vec<FileUse>, AllocError>
    ensures { IfOk result (λ copies. map use_of copies.items ≡ map use_of files.now) }
{
    let mut copies: Vec<FileUse> = Vec::new(alloc);
    let mut at = 0;
    'files: while at < files.len() {
        let file = copy_file(alloc, &files[at])?;
        copies.push(file)?;
        at += 1;
    }
    Ok(copies)
}

// The same file once more.
fn copy_file(alloc: Global, file: &FileUse) -> Result<FileUse, AllocError>
    ensures { IfOk result (λ copy. use_of copy ≡ use_of file.now) }
{
    let name = Vec::from_slice(alloc, file.name.as_slice())?;
    Ok(FileUse {
        name,
        len: file.len,
    })
}

// A mapping of the file reaches this many bytes.
fn widen(file: &mut FileUse, reach: u64)
    ensures { use_of file.new ≡ widened (use_of file.old) reach }
{
    if file.len < reach {
        file.len = reach;
    }
}

/// The number of the file of this name, of which a mapping reaches this many bytes; `None` where it would be the 17th.
/// Where there is no memory the files stay as they are.
pub fn use_file(
    alloc: Global,
    files: &mut Vec<FileUse>,
    name: &[u8],
    reach: u64,
) -> Result<Option<u64>, AllocError>
    ensures number { IfOk result (λ n. n ≡ file_place (map use_of files.old.items) name.now) }
    ensures files { OnOk result (map use_of files.new.items ≡ files_with (map use_of files.old.items) name.now reach) }
{
    let place = place_named(files.as_slice(), name);
    if place as u64 >= FILE_COUNT {
        return Ok(None);
    }
    if place == files.len() {
        let name = Vec::from_slice(alloc, name)?;
        files.push(FileUse { name, len: reach })?;
        return Ok(Some(place as u64));
    }
    widen(&mut files[place], reach);
    Ok(Some(place as u64))
}

/// Tells whether the mapping ends within the bytes that a file of a trace may have.
pub fn reaches(off: u64, len: u64) -> bool
    ensures { result ≡ reaches off len }
{
    off <= FILE_BYTES && len <= FILE_BYTES - off
}

// These flags, but of anonymous pages.
fn anonymous(flags: Flags) -> Flags
    ensures { result ≡ anonymous flags }
{
    Flags {
        private: flags.private,
        shared: flags.shared,
        fixed: flags.fixed,
        anon: true,
    }
}

/// Adds a mapping of the file of this name, or of anonymous pages where the trace hasn't it.
pub fn take_file(
    alloc: Global,
    taken: &mut Taken,
    thread: u64,
    name: &[u8],
    mapping: Mapping,
) -> Result<Fate, AllocError>
    ensures { IfOk result (λ fate. (so_far taken.new, fate) ≡ after_file (so_far taken.old) thread name.now
        mapping.addr mapping.len mapping.prot mapping.flags mapping.off) }
{
    let Mapping {
        addr,
        len,
        prot,
        flags,
        off,
    } = mapping;
    if reaches(off, len) {
        if let Some(file) = use_file(alloc, &mut taken.files, name, off + len)? {
            ask(
                taken,
                thread,
                Request::Mmap {
                    addr,
                    len,
                    prot,
                    flags,
                    file,
                    off,
                },
            )?;
            return Ok(Fate::Kept);
        }
    }
    let flags = anonymous(flags);
    ask_named(
        taken,
        thread,
        name,
        Request::Mmap {
            addr,
            len,
            prot,
            flags,
            file: 0,
            off,
        },
    )?;
    Ok(Fate::Changed(LineChange::File))
}

// Adds a mapping, of the file of this name where it is of one.
fn take_mapping(
    alloc: Global,
    taken: &mut Taken,
    thread: u64,
    name: &[u8],
    mapping: Mapping,
) -> Result<Fate, AllocError>
    ensures { IfOk result (λ fate. (so_far taken.new, fate) ≡ after_mapping (so_far taken.old) thread name.now
        mapping.addr mapping.len mapping.prot mapping.flags mapping.off) }
{
    let Mapping {
        addr,
        len,
        prot,
        flags,
        off,
    } = mapping;
    if flags.anon {
        ask(
            taken,
            thread,
            Request::Mmap {
                addr,
                len,
                prot,
                flags,
                file: 0,
                off,
            },
        )?;
        return Ok(Fate::Kept);
    }
    take_file(alloc, taken, thread, name, mapping)
}

// Adds pages, which are anonymous, and may be read and written.
fn ask_pages(taken: &mut Taken, thread: u64, addr: u64, len: u64) -> Result<(), AllocError>
    ensures { OnOk result (so_far taken.new ≡ asked_by (so_far taken.old) thread (in_place addr len)) }
{
    let request = Request::Mmap {
        addr,
        len,
        prot: READ_WRITE,
        flags: ANONYMOUS,
        file: 0,
        off: 0,
    };
    ask(taken, thread, request)
}

// Adds what became of the heap, whose end was at one address and is at another, in whole pages.
fn take_heap(taken: &mut Taken, thread: u64, old: u64, new: u64) -> Result<Fate, AllocError>
    ensures { IfOk result (λ fate. (so_far taken.new, fate) ≡ heap_moved (so_far taken.old) thread old new) }
{
    if old < new {
        ask_pages(taken, thread, old, new - old)?;
        return Ok(Fate::Changed(LineChange::Heap));
    }
    if new < old {
        ask(
            taken,
            thread,
            Request::Munmap {
                addr: new,
                len: old - new,
            },
        )?;
        return Ok(Fate::Changed(LineChange::Heap));
    }
    Ok(Fate::Left(Reason::Still))
}

// Adds what became of the heap, which ends at this address now.
fn take_break(taken: &mut Taken, thread: u64, to: u64) -> Result<Fate, AllocError>
    ensures { IfOk result (λ fate. (so_far taken.new, fate) ≡ after_break (so_far taken.old) thread to) }
{
    if to > ADDRESS_END {
        return Ok(Fate::Left(Reason::Unread));
    }
    let end = rounded(to);
    let was = taken.heap_end;
    taken.heap_end = Some(end);
    match was {
        Some(old) => take_heap(taken, thread, old, end),
        None => Ok(Fate::Left(Reason::Still)),
    }
}

// Notes that the shared memory of this number has this many bytes.
fn take_size(taken: &mut Taken, number: u64, len: u64) -> Result<Fate, AllocError>
    ensures { IfOk result (λ fate. (so_far taken.new, fate) ≡ sized_with (so_far taken.old) number len) }
{
    taken.pieces.push(SharedSegment { key: number, len })?;
    Ok(Fate::Left(Reason::Other))
}

// What becomes of shared memory that is attached, of whose mapping as one of a file this became.
fn as_shared(fate: Fate) -> Fate
    ensures { result ≡ as_shared fate }
{
    match fate {
        Fate::Kept => Fate::Changed(LineChange::Shared),
        Fate::Changed(change) => Fate::Changed(change),
        Fate::Left(reason) => Fate::Left(reason),
    }
}

// Adds a mapping of the shared memory of this number, which has this many bytes.
fn take_memory(
    alloc: Global,
    taken: &mut Taken,
    thread: u64,
    number: u64,
    mapping: Mapping,
) -> Result<Fate, AllocError>
    requires flags { mapping.flags ≡ in_shared }
    requires off { mapping.off ≡ 0 }
    ensures { IfOk result (λ fate. (so_far taken.new, fate)
        ≡ attached_with (so_far taken.old) thread number mapping.addr mapping.prot (Some mapping.len)) }
{
    let name = memory_name(alloc, number)?;
    taken.attached.push(SharedSegment {
        key: mapping.addr,
        len: mapping.len,
    })?;
    let fate = take_file(alloc, taken, thread, name.as_slice(), mapping)?;
    Ok(as_shared(fate))
}

// Adds a mapping of the shared memory of this number, if the log has said how many bytes it has.
fn take_attach(
    alloc: Global,
    taken: &mut Taken,
    thread: u64,
    number: u64,
    addr: u64,
    prot: Prot,
) -> Result<Fate, AllocError>
    ensures { IfOk result (λ fate. (so_far taken.new, fate)
        ≡ attached_with (so_far taken.old) thread number addr prot (len_of number (so_far taken.old).pieces)) }
{
    match len_of(taken.pieces.as_slice(), number) {
        Some(len) => {
            let mapping = Mapping {
                addr,
                len,
                prot,
                flags: SHARED,
                off: 0,
            };
            take_memory(alloc, taken, thread, number, mapping)
        }
        None => {
            taken.attached.push(SharedSegment { key: addr, len: 0 })?;
            Ok(Fate::Left(Reason::Lost(Lost::Attach)))
        }
    }
}

// Takes away a mapping of shared memory, if it is known how many bytes that has.
fn take_detach(taken: &mut Taken, thread: u64, addr: u64) -> Result<Fate, AllocError>
    ensures { IfOk result (λ fate. (so_far taken.new, fate)
        ≡ detached_with (so_far taken.old) thread addr (len_of addr (so_far taken.old).attached)) }
{
    match len_of(taken.attached.as_slice(), addr) {
        Some(len) => {
            if len == 0 {
                return Ok(Fate::Left(Reason::Lost(Lost::Detach)));
            }
            ask(taken, thread, Request::Munmap { addr, len })?;
            Ok(Fate::Changed(LineChange::Shared))
        }
        None => Ok(Fate::Left(Reason::Lost(Lost::Detach))),
    }
}

// Adds a request of rights with a key.
fn take_keyed(taken: &mut Taken, thread: u64, request: Request) -> Result<Fate, AllocError>
    ensures { IfOk result (λ fate. (so_far taken.new, fate) ≡ keyed_with (so_far taken.old) thread request) }
{
    ask(taken, thread, request)?;
    Ok(Fate::Changed(LineChange::Key))
}

// Adds a request as it stands, except for a mapping's file.
fn take_request(
    alloc: Global,
    taken: &mut Taken,
    thread: u64,
    name: &[u8],
    request: Request,
) -> Result<Fate, AllocError>
    ensures { IfOk result (λ fate. (so_far taken.new, fate)
        ≡ after_request (so_far taken.old) thread name.now request) }
{
    if let Request::Mmap {
        addr,
        len,
        prot,
        flags,
        file: _,
        off,
    } = request
    {
        let mapping = Mapping {
            addr,
            len,
            prot,
            flags,
            off,
        };
        return take_mapping(alloc, taken, thread, name, mapping);
    }
    ask(taken, thread, request)?;
    Ok(Fate::Kept)
}

/// Takes what the thread's call says, of the file of this name where it maps one, and answers what becomes of its
/// line. A program that begins has a new address space, so what was taken before is forgotten, except for what is
/// there at the start.
pub fn take(
    alloc: Global,
    start: &Taken,
    taken: &mut Taken,
    thread: u64,
    name: &[u8],
    said: Said,
) -> Result<Fate, AllocError>
    ensures { IfOk result (λ fate. (so_far taken.new, fate)
        ≡ after_said (so_far start.now) (so_far taken.old) thread name.now said) }
{
    match said {
        Said::Asks(request) => take_request(alloc, taken, thread, name, request),
        Said::Breaks(to) => take_break(taken, thread, to),
        Said::Moves {
            from,
            old,
            to,
            new,
            stays,
        } => take_move(alloc, taken, thread, from, old, to, new, stays),
        Said::Begins => {
            *taken = start.copy(alloc)?;
            Ok(Fate::Left(Reason::Begins))
        }
        Said::Makes { .. } | Said::Ends | Said::Other => Ok(Fate::Left(Reason::Other)),
        Said::Clears { addr, len } => take_clear(alloc, taken, thread, addr, len),
        Said::Keyed(request) => take_keyed(taken, thread, request),
        Said::Sizes { number, len } => take_size(taken, number, len),
        Said::Attaches { number, addr, prot } => {
            take_attach(alloc, taken, thread, number, addr, prot)
        }
        Said::Detaches(addr) => take_detach(taken, thread, addr),
        Said::Loses(lost) => Ok(Fate::Left(Reason::Lost(lost))),
        Said::Fails => Ok(Fate::Left(Reason::Failed)),
        Said::Unread => Ok(Fate::Left(Reason::Unread)),
    }
}

impl Taken {
    /// Nothing yet.
    pub fn new(alloc: Global) -> Taken
        ensures { so_far result ≡ nothing_taken }
    {
        Taken {
            threads: Vec::new(alloc),
            files: Vec::new(alloc),
            heap_end: None,
            pieces: Vec::new(alloc),
            attached: Vec::new(alloc),
            names: Vec::new(alloc),
            steps: TraceRequests::new(alloc),
        }
    }

    /// The same once more.
    pub fn copy(&self, alloc: Global) -> Result<Taken, AllocError>
        ensures { IfOk result (λ copy. so_far copy ≡ so_far self.now) }
    {
        let threads = Vec::from_slice(alloc, self.threads.as_slice())?;
        let files = copy_files(alloc, self.files.as_slice())?;
        let pieces = Vec::from_slice(alloc, self.pieces.as_slice())?;
        let attached = Vec::from_slice(alloc, self.attached.as_slice())?;
        let names = Vec::from_slice(alloc, self.names.as_slice())?;
        let steps = self.steps.copy(alloc)?;
        Ok(Taken {
            threads,
            files,
            heap_end: self.heap_end,
            pieces,
            attached,
            names,
            steps,
        })
    }
}
