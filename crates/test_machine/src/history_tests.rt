//! Histories of slots beside the notes of a run: of a tree of which a test changes pages under the
//! tickets that it wants.
ghost use Rattle.std.specs.Prelude.{◌<◌, ◌^◌};

use crate::noting::notes_of_lines;
use crate::starved::AMPLE;
use certifier::{Certified, CertifyFault, certify};
use linked_list_allocator::LocalHeap;
use live_levels::act::Act;
use live_levels::level::Stepper;
use live_tree::held::{Held, HoldStep};
use live_tree::histories::Histories;
use live_tree::tree::SharedTree;
use machine_model::Setup;
use seats::{Noted, Notes};
use std::alloc::{Allocator, Global};
use std::sync::Wait;
use std::test::Fail;
use test_support::heaps::fill;
use vm_base::{Back, CoreId, Meta, NoMemory, Prot};

/// A page is mapped, and unmapped again, each at once. The steps of the first call have the tickets 0
/// to 10: it begins, is checked, divides three slots until one is the page alone, under 2, 3 and 4,
/// locks it, decides, asks no core, maps the page under 8, unlocks it and answers. The second divides
/// none, and unmaps the page under 16 of 11 to 18.
const CALLS: &str = "\
vm 1 4 8
c0! mmap 0x10000 4096 rw- pfa
c0! munmap 0x10000 4096
";

/// Gives one ticket after another.
#[derive(Drop)]
struct Dealer {
    next: u64,
}

impl Stepper for Dealer {
    ghost can_step = { λ _. Unit {0} };

    ghost stepped = { λ _ _ _. Unit {0} };

    fn step(&mut self) -> u64 {
        let ticket = self.next;
        self.next = self.next.saturating_add(1);
        ticket
    }
}

/// What a change of a page does.
#[derive(Clone, Copy)]
enum Does {
    Maps,
    Unmaps,
}

/// A change of a page under a ticket.
#[derive(Clone, Copy)]
struct PageChange {
    page: u64,
    does: Does,
    ticket: u64,
}

fn maps(page: u64, ticket: u64) -> PageChange {
    PageChange {
        page,
        does: Does::Maps,
        ticket,
    }
}

fn unmaps(page: u64, ticket: u64) -> PageChange {
    PageChange {
        page,
        does: Does::Unmaps,
        ticket,
    }
}

/// The act of a change: the mapping is that of the calls above.
fn act_of(does: Does) -> Act {
    match does {
        Does::Maps => Act::Put(Meta {
            back: Back::Anon,
            prot: Prot {
                read: true,
                write: true,
                exec: false,
            },
        }),
        Does::Unmaps => Act::Clear,
    }
}

/// Locks the page's slot, dividing larger ones under the dealer's next tickets; tells whether it did.
fn lock_page<'a, A: Allocator + Clone, R: Wait>(
    rt: &R,
    tree: &'a SharedTree<A>,
    dealer: &mut Dealer,
    held: &mut Held<'a, A>,
    page: u64,
) -> bool
    requires { page < 2 ^ 36 }
{
    'steps: for _ in 0..5u32 {
        if held.end() > page {
            return true;
        }
        match held.lock_next(rt, tree, dealer, CoreId::new(0), page + 1, 1) {
            HoldStep::Locked | HoldStep::Split => {}
            HoldStep::Owned(_) | HoldStep::Unseen | HoldStep::NoMemory | HoldStep::Lost =>
                return false,
        }
    }
    false
}

/// Makes the change in the held slots, if they can take it; tells whether they could.
fn change_held<A: Allocator + Clone>(held: &mut Held<'_, A>, ticket: u64, act: &Act) -> bool {
    let can_take = held.can_take(*act);
    if can_take {
        held.change_each(ticket, *act);
    }
    can_take
}

/// Makes the change in the tree.
fn make<A: Allocator + Clone, R: Wait>(
    rt: &R,
    tree: &SharedTree<A>,
    dealer: &mut Dealer,
    change: &PageChange,
) -> Option<()> {
    if change.page >= 1 << 36 {
        return None;
    }
    let mut held = Held::new(tree.alloc(), change.page);
    let is_made = lock_page(rt, tree, dealer, &mut held, change.page)
        && change_held(&mut held, change.ticket, &act_of(change.does));
    held.letting().unlock_all(dealer);
    if is_made { Some(()) } else { None }
}

/// The histories of a tree in which these changes were made, where slots are divided from ticket 2 on.
fn histories<A: Allocator + Clone, R: Wait>(
    rt: &R,
    alloc: A,
    changes: &[PageChange],
) -> Option<Histories<A>> {
    let (mut tree, _first) = SharedTree::new(alloc).ok()?;
    let mut dealer = Dealer { next: 2 };
    for change in changes {
        make(rt, &tree, &mut dealer, change)?;
    }
    tree.histories()
}

fn setup<A: Allocator>(alloc: A) -> Setup<A> {
    Setup {
        cores: 1,
        frames: 4,
        files: Vec::new(alloc),
        calls: 8,
    }
}

/// What the notes of the calls come to beside a tree with these changes; none where memory is wanting.
fn told<R: Wait>(
    rt: &R,
    alloc: Global,
    changes: &[PageChange],
) -> Option<Result<Certified, CertifyFault>> {
    let notes = notes_of_lines(alloc, CALLS).ok()?;
    let histories = histories(rt, alloc, changes)?;
    let seat = Notes::of(notes.as_slice());
    Some(certify(alloc, setup(alloc), &[seat], Some(&histories)))
}

/// Whether the notes are certified beside a tree with these changes.
fn goes_along<R: Wait>(rt: &R, alloc: Global, changes: &[PageChange]) -> bool {
    told(rt, alloc, changes) == Some(Ok(Certified { calls: 2 }))
}

/// Whether the slot that begins at this page, or has it as its first valid page, is told.
fn strays_at<R: Wait>(rt: &R, alloc: Global, changes: &[PageChange], page: u64) -> bool {
    told(rt, alloc, changes) == Some(Err(CertifyFault::Slot { page }))
}

#[test]
fn a_page_that_is_mapped_and_unmapped(rt: HostRuntime) -> Result<(), Fail> {
    let changes = [maps(16, 8), unmaps(16, 16)];
    assert!(rt; goes_along(&rt, rt.alloc(), &changes));
    Ok(())
}

// Each slot of a tree that was never used has no change, and so is beside the whole run.
#[test]
fn a_tree_that_was_never_used(rt: HostRuntime) -> Result<(), Fail> {
    assert!(rt; strays_at(&rt, rt.alloc(), &[], 1));
    Ok(())
}

/// The page that is changed, the tickets under which it is mapped and unmapped, and the page that is
/// told: one ticket late or early, other pages, and tickets that don't rise. The pages up to 512 are
/// slots of their own once one of them is; the last page isn't a valid one, and leaves them one slot
/// with page 1.
const STRAYING: [[u64; 4]; 10] = [
    [16, 9, 16, 16],
    [16, 7, 16, 16],
    [16, 8, 15, 16],
    [16, 8, 17, 16],
    [15, 8, 16, 15],
    [17, 8, 16, 16],
    [0, 8, 16, 16],
    [16, 8, 8, 16],
    [16, 16, 8, 16],
    [0x8_0000_0000, 8, 16, 1],
];

/// How many of these rows are told otherwise.
fn told_otherwise<R: Wait>(rt: &R, alloc: Global, rows: &[[u64; 4]]) -> u64 {
    let mut count = 0u64;
    for row in rows {
        let changes = [maps(row[0], row[1]), unmaps(row[0], row[2])];
        if !strays_at(rt, alloc, &changes, row[3]) {
            count = count.saturating_add(1);
        }
    }
    count
}

#[test]
fn changes_at_other_tickets_and_pages(rt: HostRuntime) -> Result<(), Fail> {
    assert_eq!(rt; told_otherwise(&rt, rt.alloc(), &STRAYING), 0);
    Ok(())
}

/// The page is unmapped once more, under a ticket.
fn unmapped_again(ticket: u64) -> [PageChange; 3] {
    [maps(16, 8), unmaps(16, 16), unmaps(16, ticket)]
}

// The last of the 19 notes has the ticket 18.
#[test]
fn tickets_past_the_last_note(rt: HostRuntime) -> Result<(), Fail> {
    assert!(rt; goes_along(&rt, rt.alloc(), &unmapped_again(18)));
    assert!(rt; strays_at(&rt, rt.alloc(), &unmapped_again(19), 16));
    Ok(())
}

// Of page 0, which is no valid page, nothing is asked.
#[test]
fn page_0_is_not_looked_at(rt: HostRuntime) -> Result<(), Fail> {
    let changes = [maps(0, 30), maps(16, 8), unmaps(16, 16)];
    assert!(rt; goes_along(&rt, rt.alloc(), &changes));
    Ok(())
}

/// What notes come to in a heap, beside histories in the same heap.
fn in_heap<'h>(
    heap: &'h LocalHeap,
    notes: &[Noted],
    histories: &Histories<&'h LocalHeap>,
) -> Result<Certified, CertifyFault> {
    certify(heap, setup(heap), &[Notes::of(notes)], Some(histories))
}

/// Whether the notes are certified in a heap that is full first, and is given back bit by bit until
/// there is memory enough; how often there wasn't; and whether all memory is free again at the end.
fn starved<'h>(
    alloc: Global,
    heap: &'h LocalHeap,
    notes: &[Noted],
    histories: &Histories<&'h LocalHeap>,
) -> Result<(bool, u64, bool), NoMemory> {
    let mut taken = Vec::new(alloc);
    fill(heap, &mut taken)?;
    let pieces = taken.len();
    let mut refusals = 0u64;
    for _piece in 0..pieces {
        let result = in_heap(heap, notes, histories);
        if result != Err(CertifyFault::NoMemory) {
            let is_certified = result == Ok(Certified { calls: 2 });
            taken.clear();
            fill(heap, &mut taken)?;
            return Ok((is_certified, refusals, taken.len() == pieces));
        }
        refusals = refusals.saturating_add(1);
        taken.pop();
    }
    Err(NoMemory)
}

fn calls_starved<R: Wait>(rt: &R, alloc: Global) -> Option<(bool, u64, bool)> {
    let notes = notes_of_lines(alloc, CALLS).ok()?;
    let heap = LocalHeap::new(alloc, AMPLE).ok()?;
    let changes = [maps(16, 8), unmaps(16, 16)];
    let histories = histories(rt, &heap, &changes)?;
    starved(alloc, &heap, &notes, &histories).ok()
}

#[test]
fn each_want_of_memory_beside_histories(rt: HostRuntime) -> Result<(), Fail> {
    let (is_certified, refusals, is_free) = calls_starved(&rt, rt.alloc()).ok_or(NoMemory)?;
    assert!(rt; is_certified);
    assert!(rt; refusals > 20);
    assert!(rt; is_free);
    Ok(())
}
