//! The making of a space: the word and the seats, the files and their pages, the frames and the cores.
ghost use Rattle.std.specs.Prelude.{◌≡◌, ℕ, ◌+◌, ◌<◌, ◌≤◌, [], None, IfOk, IfErr, length, All, false, true, nat_lt, pos, vec_capacity, vec_len};
ghost use Rattle.std.specs.Arc.{arc_value};
ghost use Rattle.seats.specs.Gathered.{AreAll};
ghost use Rattle.seats.specs.Tickets.{IsNew};
ghost use Rattle.frames.specs.Files.{files_of};
ghost use Rattle.frames.specs.Given.{given_files};
ghost use Rattle.frames.specs.Parts.{cell_bytes};
ghost use Rattle.refcache.specs.Pieces.{IsNewCore};
ghost use Rattle.vm_base.specs.Plain.{zeros};
ghost use Rattle.live_pages.specs.Free.{free_frames};
ghost use Rattle.vm_base.specs.Pages.{page_count};
ghost use Rattle.machine_model.specs.Setups.{IsFirstFault, fault_of};
ghost use Rattle.live_space.specs.Space.{AreFresh, IsMade, IsOf};

use crate::space::Live;
use crossbeam_utils::CachePadded;
use frames::{CachedFrame, FileSpec, FrameCell, Objects};
use live_pages::free_frames::FreeFrames;
use live_pages::pieces::{CoreState, FilePage, FrameState};
use live_tree::tree::SharedTree;
use machine_model::{Setup, SetupFault};
use mmu::{Cpu, Hardware, Inbox};
use refcache::{CoreCounts, Epochs, ObjectCount};
use seats::{Seat, Ticketer, Tickets};
use std::alloc::Allocator;
use std::sync::{Arc, Mutex};
use vm_base::page::PAGE_SIZE;
use vm_base::{CoreId, NoMemory};

impl<A: Allocator + Clone> Live<A> {
    /// A space in which nothing is mapped, and a seat for each of its cores, in their order, which
    /// has noted nothing: these are all seats of the space. The bytes of the files are moved, not
    /// copied. Of several faults the first is reported, in the order of `SetupFault`.
    pub fn new(alloc: A, setup: Setup<A>) -> Result<(Live<A>, Vec<Seat<A>, A>), SetupFault>
        ensures made { IfOk result (λ t. IsMade setup t.0 t.1.items) }
        ensures own { IfOk result (λ t. All (IsOf t.0) t.1.items) }
        ensures first { IfErr result (λ fault. IsFirstFault setup fault) }
    {
        if let Some(fault) = setup.fault() {
            return Err(fault);
        }
        let Ok(made) = make(alloc, setup) else {
            return Err(SetupFault::NoMemory);
        };
        Ok(made)
    }
}

// The space and its seats, where the setup has no fault.
fn make<A: Allocator + Clone>(
    alloc: A,
    setup: Setup<A>,
) -> Result<(Live<A>, Vec<Seat<A>, A>), NoMemory>
    requires { fault_of setup ≡ None }
    ensures made { IfOk result (λ t. IsMade setup t.0 t.1.items) }
    ensures own { IfOk result (λ t. All (IsOf t.0) t.1.items) }
{
    let Setup {
        cores,
        frames,
        files,
        calls,
    } = setup;
    let count = cores as u8;
    let number = frames as u32;
    let share = calls / cores;
    let opened = open_files(&alloc, files)?;
    let seating = new_seating(&alloc, count)?;
    let states = new_cores(&alloc, count, number)?;
    let cells = new_frames(&alloc, number)?;
    let free = behind_lock(FreeFrames::all(alloc.clone()?, number)?, number);
    let Opened { objects, pages } = opened;
    let Seating { tree, seats } = seating;
    let live = Live {
        tree,
        objects,
        pages,
        cores: states,
        free,
        frames: cells,
        epochs: CachePadded::new(Mutex::new(Epochs::new(count))),
        share,
    };
    Ok((live, seats))
}

// The files as they are opened, and the pages of each.
#[derive(Drop)]
struct Opened<A: Allocator> {
    objects: Objects<A>,
    pages: Vec<Vec<Mutex<FilePage>, A>, A>,
}

// Opens the files, none of whose pages a frame caches. Their bytes are moved, not copied.
fn open_files<A: Allocator + Clone>(
    alloc: &A,
    files: Vec<FileSpec<A>, A>,
) -> Result<Opened<A>, NoMemory>
    requires { length files.items ≤ 16 }
    ensures files { IfOk result (λ opened. files_of opened.objects ≡ given_files files.items) }
    ensures pages { IfOk result (λ opened. length opened.pages.items ≡ length files.items) }
{
    let pages = new_pages(alloc, &files)?;
    let objects = Objects::new(alloc.clone()?, files)?;
    Ok(Opened { objects, pages })
}

// A tree, and the seats that draw from its word.
#[derive(Drop)]
struct Seating<A: Allocator> {
    tree: SharedTree<A>,
    seats: Vec<Seat<A>, A>,
}

// A new tree, and all seats of its word, this many, which have noted nothing, by their cores.
fn new_seating<A: Allocator + Clone>(alloc: &A, count: u8) -> Result<Seating<A>, NoMemory>
    requires { (1 ≤ count) × (count ≤ 64) }
    ensures fresh { IfOk result (λ made. AreFresh (arc_value made.tree.tickets) count made.seats.items) }
    ensures all { IfOk result (λ made. AreAll (arc_value made.tree.tickets) made.seats.items) }
{
    let (tree, first) = SharedTree::new(alloc.clone()?)?;
    let seats = new_seats(alloc, tree.tickets(), first, count)?;
    Ok(Seating { tree, seats })
}

// All seats of one word, this many, which have noted nothing, by their cores.
fn new_seats<A: Allocator + Clone>(
    alloc: &A,
    tickets: &Arc<Tickets<A>, A>,
    mut first: Ticketer,
    count: u8,
) -> Result<Vec<Seat<A>, A>, NoMemory>
    requires new { IsNew (arc_value tickets.now) 63 first }
    requires count { (1 ≤ count) × (count ≤ 64) }
    ensures fresh { IfOk result (λ v. AreFresh (arc_value tickets.now) count v.items) }
    ensures all { IfOk result (λ v. AreAll (arc_value tickets.now) v.items) }
{
    let mut seats = Vec::with_capacity(alloc.clone()?, usize::from(count))?;
    let last = count - 1;
    'seats: for core in 0..last {
        let own = tickets.split(&mut first);
        let word = Arc::try_clone(tickets)?;
        seats.push_reserved(Seat::new(
            alloc.clone()?,
            alloc.clone()?,
            CoreId::new(core),
            word,
            own,
        ));
    }
    let word = Arc::try_clone(tickets)?;
    seats.push_reserved(Seat::new(
        alloc.clone()?,
        alloc.clone()?,
        CoreId::new(last),
        word,
        first,
    ));
    Ok(seats)
}

// Of each file its pages, none of which a frame caches.
fn new_pages<A: Allocator + Clone>(
    alloc: &A,
    files: &[FileSpec<A>],
) -> Result<Vec<Vec<Mutex<FilePage>, A>, A>, NoMemory>
    requires { length files.now ≤ 16 }
    ensures { IfOk result (λ v. length v.items ≡ length files.now) }
{
    let mut pages = Vec::with_capacity(alloc.clone()?, files.len())?;
    'files: for file in files {
        let number = pages.len() as u32;
        let own = new_file_pages(alloc, pages.as_slice(), number, file.bytes.len())?;
        pages.push_reserved(own);
    }
    Ok(pages)
}

// The pages of the file behind these, which has this many bytes: no frame caches one of them.
fn new_file_pages<A: Allocator + Clone>(
    alloc: &A,
    _before: &[Vec<Mutex<FilePage>, A>],
    file: u32,
    bytes: usize,
) -> Result<Vec<Mutex<FilePage>, A>, NoMemory>
    requires { file ≡ length _before.now }
    ensures { IfOk result (λ v. length v.items ≡ page_count bytes) }
{
    let count = bytes.div_ceil(PAGE_SIZE as usize);
    let mut pages = Vec::with_capacity(alloc.clone()?, count)?;
    'pages: for page in 0..count as u64 {
        let cached = CachedFrame::none();
        put_page(&mut pages, FilePage { file, page, cached }, file);
    }
    Ok(pages)
}

// One page of the file more, under its own number and a lock. No frame caches it.
fn put_page<A: Allocator>(pages: &mut Vec<Mutex<FilePage>, A>, page: FilePage, _file: u32)
    requires room { vec_len pages.old < vec_capacity pages.old }
    requires own { (page.file ≡ _file) × (page.page ≡ vec_len pages.old) }
    requires uncached { page.cached ≡ None }
    ensures count { vec_len pages.new ≡ vec_len pages.old + 1 }
    ensures room { vec_capacity pages.new ≡ vec_capacity pages.old }
{
    pages.push_reserved(Mutex::new(page));
}

// This many frames, all free.
fn new_frames<A: Allocator + Clone>(
    alloc: &A,
    count: u32,
) -> Result<Vec<Mutex<FrameState<A>>, A>, NoMemory>
    ensures { IfOk result (λ v. length v.items ≡ count) }
{
    let mut frames = Vec::with_capacity(alloc.clone()?, count as usize)?;
    'frames: for number in 0..count {
        let cell = FrameCell::new(alloc.clone()?)?;
        let count = ObjectCount::new();
        put_frame(
            &mut frames,
            FrameState {
                number,
                cell,
                count,
            },
        );
    }
    Ok(frames)
}

// One frame more, under its own number and a lock: it is free, has zeros, and nothing counts it.
fn put_frame<A: Allocator + Clone>(frames: &mut Vec<Mutex<FrameState<A>>, A>, frame: FrameState<A>)
    requires room { vec_len frames.old < vec_capacity frames.old }
    requires own { frame.number ≡ vec_len frames.old }
    requires free { frame.cell.is_free ≡ true }
    requires bytes { cell_bytes frame.cell ≡ zeros }
    requires count { frame.count ≡ record { global = pos 0; is_queued = false; is_dirty = false } }
    ensures count { vec_len frames.new ≡ vec_len frames.old + 1 }
    ensures room { vec_capacity frames.new ≡ vec_capacity frames.old }
{
    frames.push_reserved(Mutex::new(frame));
}

// The free frames, which are all that there are, under their lock.
fn behind_lock<A: Allocator>(free: FreeFrames<A>, _frames: u32) -> CachePadded<Mutex<FreeFrames<A>>>
    requires { free_frames free ≡ (λ f. nat_lt f _frames) }
{
    CachePadded::new(Mutex::new(free))
}

// This many cores without entries, messages and translations.
fn new_cores<A: Allocator + Clone>(
    alloc: &A,
    count: u8,
    frames: u32,
) -> Result<Vec<CachePadded<Mutex<CoreState<A>>>, A>, NoMemory>
    requires { count ≤ 64 }
    ensures { IfOk result (λ v. length v.items ≡ count) }
{
    let mut cores = Vec::with_capacity(alloc.clone()?, usize::from(count))?;
    'cores: for core in 0..count {
        let counts = CoreCounts::new(alloc.clone()?, frames)?;
        let inbox = Inbox::new(CoreId::new(core));
        let cpu = Cpu::new(alloc.clone()?)?;
        put_core(&mut cores, CoreState { counts, inbox, cpu }, frames);
    }
    Ok(cores)
}

// One core more, under its own number and a lock: it has no entries, messages and translations.
fn put_core<A: Allocator + Clone>(
    cores: &mut Vec<CachePadded<Mutex<CoreState<A>>>, A>,
    state: CoreState<A>,
    _frames: u32,
)
    requires room { vec_len cores.old < vec_capacity cores.old }
    requires own { state.inbox.core ≡ vec_len cores.old }
    requires messages { state.inbox.messages ≡ [] }
    requires counts { IsNewCore (_frames + 1) state.counts }
    requires table { (p : ℕ) → ⟦<Cpu<A> as Hardware>⟧.table state.cpu p ≡ None }
    requires tlb { ⟦<Cpu<A> as Hardware>⟧.tlb state.cpu ≡ [] }
    ensures count { vec_len cores.new ≡ vec_len cores.old + 1 }
    ensures room { vec_capacity cores.new ≡ vec_capacity cores.old }
{
    cores.push_reserved(CachePadded::new(Mutex::new(state)));
}
