//! The making of a machine that C holds.
ghost use Rattle.std.specs.Prelude.{◌≡◌};
ghost use Rattle.coded.specs.Holding.{state_in, OpensIn};

use crate::handle::Handle;
use coded::batch::refusal_of;
use coded::holding::open_held;
use coded::opening::{RawFile, RawSetup, Refusal};
use machine_model::SetupFault;
use std::alloc::Global;

/// A new machine in an empty handle. After a refusal the handle is as it was.
pub fn open_in(
    alloc: Global,
    setup: &RawSetup,
    files: &[RawFile],
    bytes: &[u8],
    handle: &mut Handle,
) -> Result<(), Refusal>
    ensures { OpensIn setup.now files.now bytes.now (state_in handle.old.value) result
        (state_in handle.new.value) }
{
    if handle.is_open() {
        return Err(Refusal::InUse);
    }
    if let Some(refusal) = refusal_of(files.len(), bytes.len(), 0, 0) {
        return Err(refusal);
    }
    let held = open_held(alloc, setup, files, bytes)?;
    let Ok(held) = Box::new(alloc, held) else {
        return Err(Refusal::Setup(SetupFault::NoMemory));
    };
    handle.put(held);
    Ok(())
}
