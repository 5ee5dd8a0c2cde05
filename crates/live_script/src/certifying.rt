//! Whether what threads noted of a script is a run of the machine.
ghost use Rattle.std.specs.Prelude.{IfErr, IfOk, map};
ghost use Rattle.seats.specs.Packing.{shown};
ghost use Rattle.certifier.specs.Order.{AreNumbered, all_notes};
ghost use Rattle.live_script.specs.Certified.{IsCertifiedRun, IsNoTicket, FailsRun};

use certifier::{Certified, CertifyFault, certify};
use live_tree::histories::Histories;
use radix_range::RadixMap;
use seats::Notes;
use slot_lock::SlotMap;
use std::alloc::Allocator;
use trace_words::Script;

/// Certifies notes of a space in which the script was run beside histories of its slots, those that `Ran::end` hands out.
/// A setup that makes no machine is reported first, then a ticket that doesn't stand once, an outcome that differs, and a
/// slot; memory may be wanted at any time. No ticket is reported for notes that all seats of a space made.
pub fn certify_ran<A: Allocator + Clone + Drop>(
    alloc: A,
    script: &Script<A>,
    notes: &[Notes<'_>],
    histories: &Histories<A>,
) -> Result<Certified, CertifyFault>
    ensures ok { IfOk result (λ done. IsCertifiedRun A ⟦<RadixMap<A> as SlotMap>⟧.parts
        ⟦<RadixMap<A> as SlotMap>⟧.can_fold ⟦<RadixMap<A> as SlotMap>⟧.folds script.now.asked
        (all_notes (map shown notes.now)) histories.now.slots.items done.calls) }
    ensures err { IfErr result (λ fault. FailsRun A ⟦<RadixMap<A> as SlotMap>⟧.parts
        ⟦<RadixMap<A> as SlotMap>⟧.can_fold ⟦<RadixMap<A> as SlotMap>⟧.folds script.now.asked
        (all_notes (map shown notes.now)) histories.now.slots.items fault) }
    ensures numbered { IfErr result (λ fault. AreNumbered (all_notes (map shown notes.now))
        → IsNoTicket fault) }
{
    let declaration = script.declaration();
    if let Some(fault) = declaration.fault() {
        return Err(CertifyFault::Setup(fault));
    }
    let Ok(for_files) = alloc.clone() else {
        return Err(CertifyFault::NoMemory);
    };
    let Ok(setup) = declaration.setup(for_files) else {
        return Err(CertifyFault::NoMemory);
    };
    certify(alloc, setup, notes, Some(histories))
}
