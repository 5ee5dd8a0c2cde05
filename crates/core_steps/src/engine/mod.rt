//! The state of the machine: its parts, each with what it does by itself. Nothing here is a step; where
//! a part is of another crate, as the slot map, frames, counts and files, its steps are there.
ghost use Rattle.std.specs.Prelude.{◌≡◌, length};
ghost use Rattle.core_steps.specs.Parts.{parts};

pub mod call_table;
pub mod calls;
pub mod cores;
mod stores;

use crate::engine::call_table::new_calls;
use crate::engine::calls::CallTable;
use crate::engine::cores::{Bare, Cores};
use crate::engine::stores::{Stores, new_stores};
use frames::{Frames, Objects};
use machine_log::ledger::{Ledger, Opening};
use machine_model::Phase;
use machine_model::setup::Setup;
use mmu::Hardware;
use refcache::Refcache;
use slot_lock::SlotMap;
use std::alloc::Allocator;
use vm_base::{CoreId, NoMemory};

/// The machine's parts.
#[derive(Drop)]
pub(crate) struct Engine<M: SlotMap, H: Hardware, A: Allocator, L: Ledger> {
    /// The slot map.
    pub map: M,
    /// The cores' tables, TLBs and inboxes.
    pub cores: Cores<H, A>,
    /// The frames of physical memory.
    pub frames: Frames<A>,
    /// How many pages have each frame.
    pub counts: Refcache<A>,
    /// The open files.
    pub objects: Objects<A>,
    /// The calls.
    pub calls: CallTable<A, L>,
    ghost same_cores: { (parts cores).count ≡ length calls.phases.items },
}

impl<M: SlotMap, H: Hardware, A: Allocator, L: Ledger> Engine<M, H, A, L> {
    ghost use Rattle.std.specs.Prelude.{◌≡◌, ◌<◌, length};
    ghost use Rattle.machine_model.specs.Actions.{to};
    ghost use Rattle.core_steps.specs.Moving.{IsAt, IsOf};
    ghost use Rattle.core_steps.specs.State.{phase_of, world};

    /// Where the call of a core stands.
    pub fn phase_of(&self, core: CoreId) -> Phase
        requires { core < length self.now.calls.phases.items }
        ensures { result ≡ phase_of self.now core }
    {
        self.calls.phases[core.index() as usize]
    }

    /// The same of a core whose call is to make a step, with what is known of it there.
    #[inline(always)]
    pub fn stands(&self, core: CoreId) -> &Phase
        requires { IsOf (world M.slots self.now) core }
        ensures { IsAt (world M.slots self.now) core result.now }
    {
        &self.calls.phases[core.index() as usize]
    }

    /// The call of a core goes on in a phase.
    pub fn go_to(&mut self, core: CoreId, phase: Phase)
        requires { core < length self.old.calls.phases.items }
        ensures { world M.slots self.new ≡ to core phase (world M.slots self.old) }
    {
        self.calls.phases[core.index() as usize] = phase;
    }
}

impl<M: SlotMap + Drop, H: Bare<A>, A: Allocator + Clone + Drop, L: Opening<A> + Drop> Engine<
    M,
    H,
    A,
    L,
> {
    ghost use Rattle.std.specs.Prelude.{◌≡◌, ◌≤◌, IfOk, None, true};
    ghost use Rattle.slot_lock.specs.Slots.{IsNew};
    ghost use Rattle.machine_model.specs.World.{new_world};
    ghost use Rattle.machine_model.specs.Setups.{fault_within, made_of, most_calls};
    ghost use Rattle.core_steps.specs.State.{world};
    ghost use Rattle.machine_model.specs.declared.setup.CallLimit.TheVariants.{Long, Usual};

    /// An engine over a new slot map. The bytes of the files are moved, not copied.
    pub fn new(alloc: A, map: M, setup: Setup<A>) -> Result<Engine<M, H, A, L>, NoMemory>
        requires new { IsNew (M.slots map) }
        requires sound { fault_within Long setup ≡ None }
        requires kept { L.keeps ≡ true → setup.calls ≤ most_calls Usual }
        ensures { IfOk result (λ engine. world M.slots engine ≡ new_world (made_of setup) (M.slots map)) }
    {
        let Setup {
            cores,
            frames,
            files,
            calls,
        } = setup;
        let Ok(for_stores) = alloc.clone() else {
            return Err(NoMemory);
        };
        let Ok(stores) = new_stores(for_stores, files, cores as u8, frames as u32) else {
            return Err(NoMemory);
        };
        let Ok(calling) = new_calls(alloc, cores as u8, calls) else {
            drop(stores);
            return Err(NoMemory);
        };
        let (table, cores) = calling;
        let Stores {
            objects,
            counts,
            frames,
        } = stores;
        Ok(Engine {
            map,
            cores,
            frames,
            counts,
            objects,
            calls: table,
        })
    }
}
