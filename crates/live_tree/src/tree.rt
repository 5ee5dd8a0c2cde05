//! The shared tree: four levels of slots, from its making to its end.
ghost use Rattle.std.specs.Prelude.{◌≡◌, ℕ, ◌+◌, ◌<◌, ◌≤◌, ◌^◌, IfOk, IfSome, Some, map};
ghost use Rattle.std.specs.Arc.{arc_value};
ghost use Rattle.std.specs.Sync.Mutex.{mutex_guard_value};
ghost use Rattle.live_levels.specs.Histories.{AreSlots, history_of, past_of};
ghost use Rattle.live_levels.specs.Nexts.{Answers, Cuts, Folds};
ghost use Rattle.live_levels.specs.Parts.{AreUnused};
ghost use Rattle.live_levels.specs.Slots.{HasPage};
ghost use Rattle.slot_lock.specs.Slots.{IsNew};
ghost use Rattle.seats.specs.Tickets.{IsNew as IsNewTicketer};
ghost use Rattle.live_tree.specs.Named.{BearWord};
ghost use Rattle.live_tree.specs.Shown.{shown};

use crate::histories::Histories;
use crate::room::Room;
use live_levels::close::{Kept, histories_of};
use live_levels::fold::JoinedSlots;
use live_levels::inner::Inner;
use live_levels::leaves::Leaves;
use live_levels::level::{Level, Next, SlotCut, Stepper};
use live_levels::parts::side_by_side;
use live_levels::slot::SlotState;
use seats::{Ticketer, Tickets};
use std::alloc::Allocator;
use std::sync::{Arc, MutexGuard, Wait};
use vm_base::{CoreId, NoMemory};

/// The first level: a slot has 2^27 pages, a slot of the levels below 2^18, 2^9 and 1.
type Root<A> = Inner<Inner<Inner<Leaves<A>, A>, A>, A>;

// Pages of a slot of the first level.
const ROOT_PAGES: u64 = 1 << 27;

// The page after the last slot.
const END: u64 = 512 * ROOT_PAGES;

/// The slots of all pages, as threads share them, and the word from which the tickets of their steps
/// are drawn. Each tree makes its own word, so that it names the tree, and the tree's histories.
#[derive(Drop)]
pub struct SharedTree<A: Allocator> {
    alloc: A,
    root: Root<A>,
    tickets: Arc<Tickets<A>, A>,
}

impl<A: Allocator + Clone> SharedTree<A> {
    /// All pages unmapped and unheld, in the 512 slots of the first level, with no history; and the
    /// right to draw tickets from the tree's word, of which none is drawn yet.
    pub fn new(alloc: A) -> Result<(SharedTree<A>, Ticketer), NoMemory>
        ensures { IfOk result (λ t. IsNewTicketer (arc_value t.0.tickets) 63 t.1) }
    {
        let slots = SharedTree::first_slots(&alloc)?;
        SharedTree::over(alloc, slots)
    }

    /// The slots with which a tree begins, before any thread shares them: the 512 of the first
    /// level, which have all pages below 2^36. Nothing is mapped, nothing is held, and there is no
    /// history.
    pub fn first_slots(alloc: &A) -> Result<Vec<SlotState<A>, A>, NoMemory>
        ensures slots { IfOk result (λ slots. AreUnused 0 (2 ^ 27) slots.items) }
        ensures pages { IfOk result (λ slots. IsNew (shown slots.items)) }
    {
        let slots = side_by_side(alloc, 0, ROOT_PAGES)?;
        Ok(slots)
    }

    /// A tree that begins with these slots, and the right to draw tickets from its word. What the
    /// slots are from then on no clause knows, since threads change them.
    pub fn over(
        alloc: A,
        mut slots: Vec<SlotState<A>, A>,
    ) -> Result<(SharedTree<A>, Ticketer), NoMemory>
        requires { AreUnused 0 (2 ^ 27) slots.items }
        ensures { IfOk result (λ t. IsNewTicketer (arc_value t.0.tickets) 63 t.1) }
    {
        let (tickets, ticketer) = SharedTree::new_word(&alloc)?;
        let root = SharedTree::root_over(&alloc, &mut slots)?;
        Ok((
            SharedTree {
                alloc,
                root,
                tickets,
            },
            ticketer,
        ))
    }

    // A word, and the right to draw its tickets.
    fn new_word(alloc: &A) -> Result<(Arc<Tickets<A>, A>, Ticketer), NoMemory>
        ensures { IfOk result (λ t. IsNewTicketer (arc_value t.0) 63 t.1) }
    {
        let (tickets, ticketer) = Tickets::new(alloc.clone()?)?;
        let tickets = Arc::new(alloc.clone()?, tickets)?;
        Ok((tickets, ticketer))
    }

    // The first level, with these slots.
    fn root_over(alloc: &A, slots: &mut Vec<SlotState<A>, A>) -> Result<Root<A>, NoMemory> {
        let mut root = Root::new(alloc.clone()?, 0, ROOT_PAGES)?;
        root.fill(slots);
        Ok(root)
    }

    /// Where the tree grows, and held slots get room.
    pub fn alloc(&self) -> &A {
        &self.alloc
    }

    /// The tree's word.
    pub fn tickets(&self) -> &Arc<Tickets<A>, A>
        ensures { result.now ≡ self.now.tickets }
    {
        &self.tickets
    }

    /// One step of the core towards holding the pages from the cursor up to the end: the deepest
    /// slot that has the cursor is locked, where it begins there and ends by the end; else it is
    /// divided into 512, which is noted. It waits while another thread has the slot locked. Want of
    /// memory changes nothing.
    pub fn lock_next<'a, R: Wait, S: Stepper>(
        &'a self,
        rt: &R,
        stepper: &mut S,
        core: CoreId,
        cursor: u64,
        end: u64,
    ) -> Next<'a, A>
        requires range { cursor < end }
        requires stepper { S.can_step stepper.old }
        ensures { Answers S.stepped stepper.old stepper.new core cursor end result }
    {
        self.root
            .lock_next(rt, &self.alloc, stepper, core, cursor, end)
    }

    /// Locks the deepest slot that has the page, whoever is to lock it first. It waits while
    /// another thread has it locked. `None` where a slot was in a wrong place, or no slot has the
    /// page.
    pub fn lock_at<'a, R: Wait>(&'a self, rt: &R, page: u64) -> Option<MutexGuard<'a, SlotState<A>>>
        ensures { IfSome result (λ guard. HasPage (mutex_guard_value guard) page) }
    {
        self.root.lock_at(rt, page)
    }

    /// Divides a slot that the core holds, and lends, into 512, which is noted. The core is to lock
    /// them first: others that come before it let go again. The slot itself has no meaning from
    /// then on. Want of memory changes nothing.
    pub fn cut<S: Stepper>(&self, stepper: &mut S, core: CoreId, slot: &SlotState<A>) -> SlotCut
        requires { S.can_step stepper.old }
        ensures { Cuts S.stepped stepper.old stepper.new (Some core) slot.now result }
    {
        self.root.cut(&self.alloc, stepper, core, slot)
    }

    /// Makes one slot of the deepest level that has the page, where that isn't the first level and
    /// its slots can be one: none is divided, no core is to lock one first, they have no frame and
    /// no recorded core, and the mapping goes on from slot to slot. The slot begins its history
    /// anew with one change under the ticket of the step, which is noted. `None` where nothing
    /// changed. It takes no memory.
    pub fn fold<S: Stepper>(&mut self, stepper: &mut S, page: u64) -> Option<JoinedSlots>
        requires { S.can_step stepper.old }
        ensures folds { Folds S.stepped stepper.old stepper.new page result }
        ensures word { self.new.tickets ≡ self.old.tickets }
    {
        self.root.fold(stepper, page)
    }

    /// The first of this many unmapped pages side by side, from the page `from` on and up to `end`.
    /// The slots are locked one after another, each alone, whoever holds their pages, until enough
    /// are found: of a page that was unmapped then, another thread may make what it likes since.
    /// `None` where there are no such pages, or a slot was in a wrong place. It takes no memory.
    pub fn find_room<R: Wait>(&self, rt: &R, from: u64, end: u64, n: u64) -> Option<Room>
        ensures within { IfSome result (λ room. (from ≤ room.first) × (room.first + n ≤ end)) }
        ensures room { IfSome result (λ room. room.first + n ≤ room.end) }
    {
        let mut room = Room::at(from);
        'slots: for _ in from..end {
            if room.end() >= end {
                return None;
            }
            let slot = self.lock_at(rt, room.end())?;
            if slot.content().is_some() {
                room = Room::at(slot.first() + slot.count());
            } else {
                room = room.with(&slot);
                if end.min(room.end()) - room.first() >= n {
                    return Some(room);
                }
            }
        }
        None
    }

    /// The histories of all slots that aren't divided, in the order of their pages, which are all
    /// pages below 2^36, with the tree's word. `None` where memory ran out, or a slot was in a wrong
    /// place.
    pub fn histories(&mut self) -> Option<Histories<A>>
        ensures word { IfSome result (BearWord (arc_value self.old.tickets)) }
        ensures same { self.new.tickets ≡ self.old.tickets }
    {
        let Ok(own) = self.alloc.clone() else {
            return None;
        };
        let Ok(tickets) = Arc::try_clone(&self.tickets) else {
            return None;
        };
        let mut kept = Vec::new(own);
        let end = self.root.gather(&mut kept, 0)?;
        if end != END {
            return None;
        }
        hand_out(&self.alloc, &kept, tickets)
    }
}

// The histories of these slots, which lie under the locks of the word's tree and have all pages.
// None where memory ran out.
fn hand_out<A: Allocator + Clone>(
    alloc: &A,
    kept: &[Kept<'_, A>],
    tickets: Arc<Tickets<A>, A>,
) -> Option<Histories<A>>
    requires { AreSlots 0 (2 ^ 36) kept.now }
    ensures word { IfSome result (BearWord (arc_value tickets)) }
    ensures own { IfSome result (λ h. map past_of h.slots.items ≡ map history_of kept.now) }
{
    let slots = histories_of(alloc, kept)?;
    Some(Histories::new(slots, tickets))
}
