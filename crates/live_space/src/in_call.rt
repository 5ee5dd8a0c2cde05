//! A call in flight: what its steps have in hand.
ghost use Rattle.std.specs.Prelude.{◌≡◌, [], IsTrue};
ghost use Rattle.live_space.specs.InFlight.{GoesOn, HasStepsLeft};

use crate::gate::{Gate, Point};
use crate::locking::let_go;
use crate::space::Live;
use live_levels::level::Stepper;
use live_tree::held::Held;
use seats::Seat;
use std::alloc::Allocator;
use std::mem::replace;
use std::sync::Wait;

/// A call, with all that its steps need. Its seat has room to note of each slot that it holds that it
/// is let go, to give the call up, and to answer it.
pub(crate) struct InCall<'c, 's, 'r, 'g, R, G, A: Allocator + Clone> {
    /// Where its steps are noted.
    pub seat: &'s mut Seat<A>,
    /// The slots that it holds.
    pub held: Held<'c, A>,
    /// The space.
    pub space: &'c Live<A>,
    /// What waits for locks.
    pub rt: &'r R,
    /// Where a test may hold it.
    pub gate: &'g G,
    ghost room: { HasStepsLeft 0 held seat.now },
}

impl<'c, R: Wait, G: Gate, A: Allocator + Clone> InCall<'c, '_, '_, '_, R, G, A> {
    /// The call has reached this point.
    pub fn at(&self, point: Point) {
        self.gate.at(self.rt, self.seat.core(), point);
    }

    /// Makes room for this many steps more; tells whether it could.
    pub fn has_room(&mut self, steps: usize) -> bool
        ensures goes { GoesOn self.old.seat self.new.seat }
        ensures held { self.new.held ≡ self.old.held }
        ensures space { self.new.space ≡ self.old.space }
        ensures room { IsTrue result → HasStepsLeft steps self.new.held self.new.seat.now }
    {
        let count = self.held.len().saturating_add(2).saturating_add(steps);
        self.seat.reserve(count)
    }

    /// One step of the call, if there is room for it; tells whether there was.
    pub fn step(&mut self) -> bool
        ensures goes { GoesOn self.old.seat self.new.seat }
        ensures held { self.new.held ≡ self.old.held }
        ensures space { self.new.space ≡ self.old.space }
    {
        if !self.has_room(1) {
            return false;
        }
        let _ticket = self.seat.step();
        true
    }

    /// Lets all slots go, each in a step of its own, from left to right. The next slot that it holds
    /// is to begin at the page.
    pub fn hold_from(&mut self, page: u64)
        ensures goes { GoesOn self.old.seat self.new.seat }
        ensures held { self.new.held ≡ record { first = page; end = page; slots = [] } }
        ensures space { self.new.space ≡ self.old.space }
    {
        let space = self.space;
        let held = replace(&mut self.held, Held::new(space.tree.alloc(), page));
        let_go(held, self.seat, None);
    }
}
