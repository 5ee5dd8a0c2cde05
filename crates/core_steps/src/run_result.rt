//! The result of running a list of events.
use crate::machine::Machine;
use machine_log::ledger::Ledger;
use machine_model::Outcome;
use machine_model::setup::SetupFault;
use mmu::{Cpu, Hardware};
use slot_lock::SlotMap;
use std::alloc::Allocator;

/// A run of all events of a list.
#[derive(Drop)]
pub struct Run<M: SlotMap, A: Allocator + Clone, L: Ledger>
where
    Cpu<A>: Hardware,
{
    /// The outcome of each event, in order.
    pub outcomes: Vec<Outcome, A>,
    /// The machine after the last event.
    pub machine: Machine<M, A, L>,
}

/// Why a run ended early.
#[derive(Clone, Copy, PartialEq, Eq)]
pub enum RunFault {
    /// The setup makes no machine.
    Setup(SetupFault),
    /// The event with this index, from 0, was refused for memory. Where it is the number
    /// of events, the list of outcomes found no room, and no event was run.
    NoMemory { at: usize },
}
