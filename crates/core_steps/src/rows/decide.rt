//! The decision of a change whose pages are held, and the message to the cores that may
//! have translations of them.
ghost use Rattle.std.specs.Prelude.{◌≡◌, ℕ, true, false};
ghost use Rattle.vm_base.specs.Apply.{forbids_write};
ghost use Rattle.slot_lock.specs.Plan.{IsSoundChange, range_of};
ghost use Rattle.frames.specs.Files.{files_of};
ghost use Rattle.vm_calls.specs.Decisions.{DecidesChange, IsReadable};
ghost use Rattle.machine_model.specs.Step.{Goes};
ghost use Rattle.core_steps.specs.State.{world};
ghost use Rattle.core_steps.specs.Moving.{IsAt};

use crate::engine::Engine;
use frames::Objects;
use machine_log::ledger::Ledger;
use machine_model::{Outcome, Phase};
use mmu::Hardware;
use slot_lock::{Change, Goal, SlotMap, SlotRead};
use std::alloc::Allocator;
use vm_base::{CoreId, CoreSet, Prot, Reply};
use vm_calls::{Decision, decide};

/// Tells whether each open file is open for writing.
fn are_writable<A: Allocator>(objects: &Objects<A>) -> bool
    ensures { result ≡ true → (file : ℕ) → forbids_write (files_of objects.now file) ≡ false }
{
    // files are numbered from 0 on
    let mut file = 0u64;
    'files: while let Some(mode) = objects.mode(file) {
        if !mode.can_write() {
            return false;
        }
        file += 1;
    }
    true
}

/// What a change comes to whose pages are held. Where each file is open for writing, no page can
/// refuse to be made writable, and so none is asked.
fn decide_change<M: SlotRead, A: Allocator>(
    map: &M,
    objects: &Objects<A>,
    change: Change,
) -> Decision
    requires sound { IsSoundChange change }
    requires readable { IsReadable (λ p. M.reads map.now p) (M.slots map.now) (range_of change) }
    ensures { DecidesChange (files_of objects.now) (M.slots map.now) change result }
{
    if let Change::Protect { range, prot } = change
        && prot.write
        && are_writable(objects)
    {
        let prot = Prot {
            write: false,
            ..prot
        };
        return decide(map, objects, Goal::Change(Change::Protect { range, prot }));
    }
    decide(map, objects, Goal::Change(change))
}

impl<M: SlotMap, H: Hardware, A: Allocator, L: Ledger> Engine<M, H, A, L> {
    /// All pages are held: the change may be made, or is refused.
    pub fn go_decide(&mut self, core: CoreId, change: Change) -> Outcome
        requires { IsAt (world M.slots self.old) core (Phase.Decide change) }
        ensures { Goes (world M.slots self.old) core (Phase.Decide change) result (world M.slots self.new) }
    {
        match decide_change(&self.map, &self.objects, change) {
            Decision::Refuse(errno) => {
                self.reply(core, Some(change.range()), Reply::Refused(errno));
            }
            Decision::Act { shoot, .. } => self.go_to(core, Phase::Post { change, shoot }),
            Decision::Again => {}
        }
        Outcome::Stepped
    }

    /// The core drops its own translations of the pages, and the other recorded cores are
    /// asked to drop theirs.
    pub fn go_post(&mut self, core: CoreId, change: Change, shoot: CoreSet) -> Outcome
        requires { IsAt (world M.slots self.old) core (Phase.Post change shoot) }
        ensures { Goes (world M.slots self.old) core (Phase.Post change shoot) result
            (world M.slots self.new) }
    {
        self.cores.shoot(core, shoot, change.range());
        let goal = Goal::Change(change);
        self.go_to(core, Phase::Acks { goal, change });
        Outcome::Stepped
    }
}
