//! What only a call that owns the space does: slots of the shared tree are joined, and the space
//! ends.
ghost use Rattle.std.specs.Prelude.{◌≡◌, IfOk, IfErr, Option, is_some, map};
ghost use Rattle.live_levels.specs.declared.fold.JoinedSlots.{JoinedSlots};
ghost use Rattle.live_levels.specs.Nexts.{Folds};
ghost use Rattle.machine_model.specs.declared.event.Event.TheVariants as EventOf;
ghost use Rattle.live_tree.specs.Named.{BearWord};
ghost use Rattle.seats.specs.Gathered.{AreAll, AreWhole};
ghost use Rattle.seats.specs.Growing.{NotesIf, Steps};
ghost use Rattle.seats.specs.Notes.{CanNote};
ghost use Rattle.live_space.specs.Calls.{IsIdle, LacksRoom};
ghost use Rattle.live_space.specs.Counting.{NotesOneIf};
ghost use Rattle.live_space.specs.Space.{IsOf};

use crate::fault::{LiveFault, reserve_notes};
use crate::space::Live;
use live_tree::histories::Histories;
use live_tree::tree::SharedTree;
use seats::{NoteList, Seat, gather};
use std::alloc::Allocator;
use vm_base::is_valid;

impl<A: Allocator + Clone> Live<A> {
    /// Makes one slot of the deepest node of the tree that has the page, and notes it as one fold by
    /// no core. False where there is nothing to join, as where a slot of the node is held, mapped
    /// otherwise than its neighbours go on, or has a frame, and at a page that isn't valid: then
    /// nothing changes, and nothing is noted. It takes `rt` like the other calls with a seat, and
    /// waits for nobody. After a fault nothing was begun. Only the tree is lent to it, so cores, frames
    /// and file pages stay; a clause tells that of the space's word, files and sizes, since none sees
    /// what lies under locks.
    pub fn trim<R>(&mut self, _rt: &R, seat: &mut Seat<A>, page: u64) -> Result<bool, LiveFault>
        requires { IsOf self.old seat.old }
        ensures own { IsOf self.new seat.new }
        ensures noted { IfOk result
            (λ is_noted. NotesOneIf (EventOf.Fold page) seat.old is_noted seat.new) }
        ensures fault { IfErr result (LacksRoom 1 seat.old) }
        ensures idle { IfErr result (λ fault. IsIdle seat.old seat.new) }
        ensures space { self.new ≡ self.old }
    {
        reserve_notes(seat, 1)?;
        if !is_valid(page) {
            return Ok(false);
        }
        seat.set_plain_fold(page);
        let is_noted = fold(&mut self.tree, seat, page);
        seat.set_plain_go();
        Ok(is_noted)
    }

    /// Takes all seats of the space back, and hands out what they noted, a list for each, in their
    /// order: the tickets of each list rise, and those of all lists are the numbers below that of all
    /// notes, each once. Where memory is refused the seats come back.
    pub fn gather(&self, seats: Vec<Seat<A>, A>) -> Result<Vec<NoteList<A>, A>, Vec<Seat<A>, A>>
        requires { AreAll self.now.word seats.items }
        ensures notes { IfOk result (λ all. map (λ list. list.notes) all.items
            ≡ map (λ s. s.notes) seats.items) }
        ensures whole { IfOk result (λ all. AreWhole (map (λ list. list.notes) all.items)) }
        ensures back { IfErr result (λ back. back.items ≡ seats.items) }
    {
        let Ok(own) = self.tree.alloc().clone() else {
            return Err(seats);
        };
        gather(own, self.tree.tickets(), seats)
    }

    /// Ends the space, and hands out the histories of its slots, which lie side by side and have all
    /// valid pages: those of the space's word, and so of no other space. Where memory is refused, or
    /// a slot was in a wrong place, which never comes, the space comes back, with the same word, files
    /// and sizes; its slots were only read.
    pub fn close(mut self) -> Result<Histories<A>, Live<A>>
        ensures word { IfOk result (BearWord self.word) }
        ensures back { IfErr result (λ live. live ≡ self) }
    {
        match self.tree.histories() {
            Some(histories) => Ok(histories),
            None => Err(self),
        }
    }
}

// Joins slots at the page, which the seat notes as a plain step; tells whether it could.
fn fold<A: Allocator + Clone>(tree: &mut SharedTree<A>, seat: &mut Seat<A>, page: u64) -> bool
    requires room { CanNote seat.old }
    requires plain { seat.old.plain ≡ EventOf.Fold page }
    ensures noted { NotesIf seat.old (EventOf.Fold page) result seat.new }
    ensures folds { (joined : Option JoinedSlots) × (result ≡ is_some joined) × Folds Steps seat.old seat.new page joined }
    ensures word { tree.new.tickets ≡ tree.old.tickets }
{
    match tree.fold(seat, page) {
        Some(_) => true,
        None => false,
    }
}
