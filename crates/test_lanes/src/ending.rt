//! Spaces that are made and that end, and whether what was noted in them is a run of the machine.
ghost use Rattle.std.specs.Prelude.{All, IfOk};
ghost use Rattle.live_space.specs.Space.{IsOf};

use crate::script::setup_of;
use certifier::{Certified, CertifyFault, certify};
use live_space::space::Live;
use live_tree::histories::Histories;
use seats::{Notes, Seat};
use std::alloc::Allocator;
use vm_base::NoMemory;

/// The space that a script declares, with a seat for each core; a fault is want of memory.
pub fn made<A: Allocator + Clone>(
    alloc: A,
    script: &str,
) -> Result<(Live<A>, Vec<Seat<A>, A>), NoMemory>
    ensures { IfOk result (λ t. All (IsOf t.0) t.1.items) }
{
    let setup = setup_of(alloc.clone()?, script)?;
    let Ok(made) = Live::new(alloc, setup) else {
        return Err(NoMemory);
    };
    Ok(made)
}

/// Ends the space of a script, and certifies what its seats noted beside the histories of its slots.
pub fn certified<A: Allocator + Clone + Drop>(
    alloc: A,
    script: &str,
    live: Live<A>,
    seats: &[Seat<A>],
) -> Result<Certified, CertifyFault> {
    let Ok(histories) = live.close() else {
        return Err(CertifyFault::NoMemory);
    };
    certified_beside(alloc, script, seats, &histories)
}

/// Certifies what these seats of a script noted beside these histories.
pub fn certified_beside<A: Allocator + Clone + Drop>(
    alloc: A,
    script: &str,
    seats: &[Seat<A>],
    histories: &Histories<A>,
) -> Result<Certified, CertifyFault> {
    match told_beside(alloc, script, seats, histories) {
        Ok(told) => told,
        Err(_) => Err(CertifyFault::NoMemory),
    }
}

fn told_beside<A: Allocator + Clone + Drop>(
    alloc: A,
    script: &str,
    seats: &[Seat<A>],
    histories: &Histories<A>,
) -> Result<Result<Certified, CertifyFault>, NoMemory> {
    let setup = setup_of(alloc.clone()?, script)?;
    let mut notes: Vec<Notes<'_>, A> = Vec::new(alloc.clone()?);
    for seat in seats {
        notes.push(seat.noted())?;
    }
    Ok(certify(alloc, setup, notes.as_slice(), Some(histories)))
}
