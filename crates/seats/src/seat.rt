//! A seat: a core's right to draw tickets, with what was noted under each.
ghost use Rattle.std.specs.Prelude.{◌≡◌, ◌+◌, ◌-◌, ◌^◌, ◌<◌, ◌≤◌, ◌↔◌, [], map, length, All, IsTrue};
ghost use Rattle.std.specs.Arc.{arc_value};
ghost use Rattle.seats.specs.Tickets.{Rises};
ghost use Rattle.machine_model.specs.declared.event.Event.TheVariants.{Call, Fold, Go};
ghost use Rattle.machine_model.specs.declared.event.Outcome.TheVariants.{Stepped};
ghost use Rattle.seats.specs.Notes.{noted, ticket_of, with_note};
ghost use Rattle.seats.specs.Packing.{shown};

use crate::note_list::{NoteList, Notes};
use crate::noted::Noted;
use crate::tickets::{Ticketer, Tickets};
use live_levels::level::Stepper;
use machine_model::{Event, Outcome};
use std::alloc::Allocator;
use std::marker::Model;
use std::sync::Arc;
use vm_base::{CoreId, Request};

/// A core's right to draw tickets, with the steps that were noted under each. The tickets of its
/// notes are just those that it drew, and rise from note to note.
#[derive(Drop)]
pub struct Seat<A: Allocator> {
    core: CoreId,
    tickets: Arc<Tickets<A>, A>,
    ticketer: Ticketer,
    notes: NoteList<A>,
    begun: u64,
    plain: Event,
    next_frame: u32,
    next_page: u64,
}

impl<A: Allocator> Model for Seat<A> {
    ghost use Rattle.std.specs.Prelude.{◌≡◌, ◌+◌, ◌^◌, ◌≤◌, length, map};
    ghost use Rattle.std.specs.Arc.{arc_value};
    ghost use Rattle.seats.specs.Tickets.{Rises};
    ghost use Rattle.seats.specs.Notes.{SeatView, ticket_of};

    ghost Value = { SeatView };

    ghost view = { λ s. record {
      word = s.ticketer.word;
      tickets = s.ticketer.tickets;
      spare = s.ticketer.spare;
      core = s.core;
      notes = s.notes.notes;
      room = s.notes.room;
      begun = s.begun;
      plain = s.plain;
      next_frame = s.next_frame;
      next_page = s.next_page;
    } };

    ghost invariant = { λ s. (arc_value s.tickets ≡ s.ticketer.word)
        × (s.ticketer.tickets ≡ map ticket_of s.notes.notes)
        × Rises (map ticket_of s.notes.notes) × (s.begun ≤ length s.notes.notes)
        × (s.notes.room + length s.notes.notes ≤ 2 ^ 32) };
}

// What a seat is made of: the right to draw tickets, and what was noted under each that was drawn.
#[derive(Drop)]
pub(crate) struct Parts<A: Allocator> {
    pub(crate) ticketer: Ticketer,
    pub(crate) notes: NoteList<A>,
}

impl<A: Allocator> Seat<A> {
    /// A seat of the core that has noted nothing, whose plain steps are those of the core's call. Of the two allocators
    /// one is for notes that stand in full.
    pub fn new(
        alloc: A,
        for_full: A,
        core: CoreId,
        tickets: Arc<Tickets<A>, A>,
        ticketer: Ticketer,
    ) -> Seat<A>
        requires word { arc_value tickets ≡ ticketer.word }
        requires new { ticketer.tickets ≡ [] }
        ensures word { (result.word ≡ ticketer.word) × (result.core ≡ core) }
        ensures nothing { (result.notes ≡ []) × (result.tickets ≡ []) × (result.begun ≡ 0) }
        ensures spare { result.spare ≡ ticketer.spare }
        ensures plain { result.plain ≡ Go core }
        ensures next { (result.next_frame ≡ 0) × (result.next_page ≡ 0) }
    {
        Seat {
            core,
            tickets,
            ticketer,
            notes: NoteList::new(alloc, for_full),
            begun: 0,
            plain: Event::Go(core),
            next_frame: 0,
            next_page: 0,
        }
    }

    /// The seat's core.
    pub fn core(&self) -> CoreId
        ensures { result ≡ self.now.core }
    {
        self.core
    }

    /// How many calls were begun.
    pub fn begun(&self) -> u64
        ensures begun { result ≡ self.now.begun }
        ensures noted { result ≤ length self.now.notes }
    {
        self.begun
    }

    /// The notes so far. Their tickets are those that the seat drew, and rise.
    pub fn noted(&self) -> Notes<'_>
        ensures notes { shown result ≡ self.now.notes }
        ensures tickets { map ticket_of (shown result) ≡ self.now.tickets }
        ensures rising { Rises self.now.tickets }
    {
        self.notes.notes()
    }

    /// The right to draw tickets, and the notes so far.
    pub(crate) fn into_parts(self) -> Parts<A>
        ensures ticketer { result.ticketer
            ≡ record { word = self.word; tickets = map ticket_of self.notes; spare = self.spare } }
        ensures notes { result.notes.notes ≡ self.notes }
        ensures rising { Rises (map ticket_of self.notes) }
    {
        let Seat {
            ticketer,
            notes,
            ..
        } = self;
        Parts { ticketer, notes }
    }

    /// Tells whether this many more notes stay within the limit of 2^32.
    pub fn is_within_limit(&self, count: usize) -> bool
        ensures { IsTrue result ↔ length self.now.notes + count ≤ 2 ^ 32 }
    {
        self.notes.is_within_limit(count)
    }

    /// Makes room for this many more notes, and tells whether it could: not where room is missing and
    /// they would pass the limit, or there is no memory.
    pub fn reserve(&mut self, count: usize) -> bool
        ensures room { IsTrue result → count ≤ self.new.room }
        ensures missing { ¬ IsTrue result → self.old.room < count }
        ensures same { self.new ≡ record self.old { room = self.new.room } }
        ensures kept { self.old.room ≤ self.new.room }
        ensures small { self.new.room ≤ 2 ^ 32 }
    {
        self.notes.reserve(count)
    }

    /// Draws a ticket, and notes the event and its outcome under it, in room that was made before;
    /// answers the ticket, which is above all that the seat drew before. Whoever calls it holds the
    /// locks of all that the step touches.
    #[inline(always)]
    pub fn note(&mut self, event: Event, outcome: Outcome) -> u64
        requires { 0 < self.old.room }
        ensures noted { self.new ≡ with_note self.old (noted result event outcome) }
        ensures later { All (λ t. t < result) self.old.tickets }
        ensures small { result < 2 ^ 39 }
    {
        let ticket = self.tickets.draw(&mut self.ticketer);
        self.notes.push_reserved(Noted {
            ticket,
            event,
            outcome,
        });
        ticket
    }

    /// Notes that the core begins a call, in room that was made before; answers the ticket.
    pub fn begin(&mut self, request: Request) -> u64
        requires { 0 < self.old.room }
        ensures { self.new ≡ record (with_note self.old
            (noted result (Call self.old.core request) Stepped)) { begun = self.old.begun + 1 } }
    {
        let ticket = self.note(Event::Call(self.core, request), Outcome::Stepped);
        self.begun += 1;
        ticket
    }

    /// From now on a plain step notes that the core's call goes one step on, as from the beginning.
    pub fn set_plain_go(&mut self)
        ensures { self.new ≡ record self.old { plain = Go self.old.core } }
    {
        self.plain = Event::Go(self.core);
    }

    /// From now on a plain step notes that slots are joined at the page.
    pub fn set_plain_fold(&mut self, page: u64)
        ensures { self.new ≡ record self.old { plain = Fold page } }
    {
        self.plain = Event::Fold(page);
    }

    /// From which frame on the core looks for a free one, as it was set last; 0 at first.
    pub fn next_frame(&self) -> u32
        ensures { result ≡ self.now.next_frame }
    {
        self.next_frame
    }

    /// The core looks for a free frame from this one on.
    pub fn set_next_frame(&mut self, frame: u32)
        ensures { self.new ≡ record self.old { next_frame = frame } }
    {
        self.next_frame = frame;
    }

    /// From which page on the core looks for a place, as it was set last; 0 at first.
    pub fn next_page(&self) -> u64
        ensures { result ≡ self.now.next_page }
    {
        self.next_page
    }

    /// The core looks for a place from this page on.
    pub fn set_next_page(&mut self, page: u64)
        ensures { self.new ≡ record self.old { next_page = page } }
    {
        self.next_page = page;
    }
}

impl<A: Allocator> Stepper for Seat<A> {
    ghost use Rattle.seats.specs.Growing.{Steps};
    ghost use Rattle.seats.specs.Notes.{CanNote};

    ghost can_step = { CanNote };

    ghost stepped = { Steps };

    fn step(&mut self) -> u64 {
        self.note(self.plain, Outcome::Stepped)
    }
}
