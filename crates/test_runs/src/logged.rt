//! Machines over a tree that keep their log.
use core_steps::Machine;
use machine_model::Setup;
use radix_range::RadixMap;
use shared_script::Tree;
use std::alloc::Global;

/// One of so many cores and calls, with so many frames. It has no files.
pub fn machine(alloc: Global, cores: u64, frames: u64, calls: u64) -> Option<Tree> {
    let map = RadixMap::new(alloc).ok()?;
    let setup = Setup {
        cores,
        frames,
        files: Vec::new(alloc),
        calls,
    };
    let machine = Machine::new(alloc, map, setup).ok()?;
    Some(Tree { machine })
}
