//! The engine's calls: where that of each core stands, the calls begun, and the log.
ghost use Rattle.std.specs.Prelude.{◌≡◌, ◌+◌, ◌≤◌, length};
ghost use Rattle.machine_model.specs.Orderly.{answer_count};

use machine_log::ledger::Ledger;
use machine_model::Phase;
use std::alloc::Allocator;
use vm_base::{CoreId, Entry, NoMemory};

/// Where the call of each core stands, the calls begun, and the log.
#[derive(Drop)]
pub(crate) struct CallTable<A: Allocator, L: Ledger> {
    /// Of each core: where its call stands.
    pub phases: Vec<Phase, A>,
    /// Of each core: the number of its latest call, from 1; 0 before its first.
    pub numbers: Vec<u64, A>,
    /// How many may begin.
    pub limit: u64,
    /// The requests of the calls begun, and the replies fixed and copies made so far, both in order. Room
    /// for the request and the reply of each call is kept.
    pub ledger: L,
    /// How many events were taken.
    pub events: u64,
    ghost numbered: { length numbers.items ≡ length phases.items },
    ghost few: { length phases.items ≤ 64 },
    ghost room: { L.calls ledger ≡ limit },
    ghost logged: { L.limit ledger + answer_count (L.entries ledger) ≡ limit + length (L.entries ledger) },
}

impl<A: Allocator, L: Ledger> CallTable<A, L> {
    ghost use Rattle.std.specs.Prelude.{◌<◌, ◌++◌, ◌∷◌, [], true, not, nat_lt, OnOk, OnErr};
    ghost use Rattle.vm_base.specs.declared.log.Entry.TheVariants.{Detach};
    ghost use Rattle.machine_model.specs.Step.{event_limit};
    ghost use Rattle.core_steps.specs.State.{number_at, calls_in};

    /// Tells whether as many calls began as may.
    pub fn is_full(&self) -> bool
        ensures { result ≡ not (nat_lt (length (L.requests self.now.ledger)) self.now.limit) }
    {
        self.ledger.begun() >= self.limit
    }

    /// It is logged that the core's call has made a copy of its own for the page. The
    /// room for replies stays. A refusal for memory, which comes only where the log keeps its
    /// entries, changes nothing.
    pub fn log_detach(&mut self, core: CoreId, page: u64) -> Result<(), NoMemory>
        requires { core < length self.old.phases.items }
        ensures ok { OnOk result (calls_in self.new ≡ record (calls_in self.old) {
          log = L.entries self.old.ledger
              ++ Detach self.old.events (number_at self.old.numbers.items core) page ∷ [];
        }) }
        ensures err { OnErr result (calls_in self.new ≡ calls_in self.old) }
        ensures err_only { OnErr result (L.keeps ≡ true) }
        ensures cores { length self.new.phases.items ≡ length self.old.phases.items }
        ensures limit { self.new.limit ≡ self.old.limit }
    {
        self.ledger.push_beyond(Entry::Detach {
            step: self.events,
            call: self.numbers[core.index() as usize],
            page,
        })?;
        Ok(())
    }

    /// There is memory for the entry of a copy. Nothing else changes. A refusal comes only where the log
    /// keeps its entries.
    pub fn make_room(&mut self) -> Result<(), NoMemory>
        ensures room { OnOk result (L.limit self.new.ledger < L.fits self.new.ledger) }
        ensures same { calls_in self.new ≡ calls_in self.old }
        ensures err_only { OnErr result (L.keeps ≡ true) }
        ensures cores { length self.new.phases.items ≡ length self.old.phases.items }
        ensures limit { self.new.limit ≡ self.old.limit }
    {
        self.ledger.make_room()?;
        Ok(())
    }

    /// It is logged that the core's call makes a copy of its own for the page, at the event this many
    /// later. The room for replies stays.
    pub fn log_copy(&mut self, core: CoreId, page: u64, later: u64)
        requires here { core < length self.old.phases.items }
        requires room { L.limit self.old.ledger < L.fits self.old.ledger }
        requires events { self.old.events + later < event_limit }
        ensures log { calls_in self.new ≡ record (calls_in self.old) {
          log = L.entries self.old.ledger
              ++ Detach (self.old.events + later) (number_at self.old.numbers.items core) page ∷ [];
        } }
        ensures cores { length self.new.phases.items ≡ length self.old.phases.items }
        ensures limit { self.new.limit ≡ self.old.limit }
    {
        self.ledger.push_made(Entry::Detach {
            step: self.events + later,
            call: self.numbers[core.index() as usize],
            page,
        });
    }
}
