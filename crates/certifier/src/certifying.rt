//! The face of the crate: whether the notes of all seats are a run of the machine.
ghost use Rattle.std.specs.Prelude.{◌≡◌, IfOk, IfErr, None, map, option_copied};
ghost use Rattle.frames.specs.Given.{given_files};
ghost use Rattle.machine_model.specs.Setups.{fault_of};
ghost use Rattle.seats.specs.Packing.{shown};
ghost use Rattle.certifier.specs.Following.{ComesNumbered, IsCertified, Fails, ReadPlainly, slots_in};
ghost use Rattle.certifier.specs.Histories.{AreInOrder};
ghost use Rattle.certifier.specs.Laws.{RulesOut};
ghost use Rattle.certifier.specs.Order.{all_notes};
ghost use Rattle.certifier.specs.Standings.{AreStandings};

use crate::following::follow;
use crate::order::{Standing, first_amiss, standings};
use crate::result::{Certified, CertifyFault};
use live_levels::close::SlotHistory;
use live_tree::histories::Histories;
use machine_log::KeepsNone;
use machine_model::Setup;
use radix_range::RadixMap;
use seats::Notes;
use slot_lock::SlotMap;
use std::alloc::Allocator;

/// The slots whose histories are handed in.
fn slots_of<A: Allocator>(histories: Option<&Histories<A>>) -> &[SlotHistory<A>]
    ensures are { result.now ≡ slots_in (option_copied histories.entry) }
    ensures order { AreInOrder result.now }
{
    match histories {
        Some(histories) => histories.slots(),
        None => &[],
    }
}

/// What `certify` answers for a setup without a fault, where it is known how each ticket stands. So a ticket that doesn't
/// stand once is always told: memory is wanted for a run alone.
#[tactic(auto, using(crate::proofs::Notes::amiss, crate::proofs::Notes::all_numbered, crate::proofs::Notes::any_numbered))]
pub fn certify_standing<A: Allocator + Clone + Drop>(
    alloc: A,
    setup: Setup<A>,
    seats: &[Notes<'_>],
    standings: &[Standing],
    slots: Option<&Histories<A>>,
) -> Result<Certified, CertifyFault>
    requires sound { fault_of setup ≡ None }
    requires standings { AreStandings (map shown seats.now) standings.now }
    ensures ok { IfOk result (λ done. IsCertified ⟦<RadixMap<A> as SlotMap>⟧.parts
        ⟦<RadixMap<A> as SlotMap>⟧.can_fold
        ⟦<RadixMap<A> as SlotMap>⟧.folds setup (all_notes (map shown seats.now))
        (slots_in (option_copied slots.entry)) done.calls) }
    ensures err { IfErr result (λ fault. Fails ⟦<RadixMap<A> as SlotMap>⟧.parts
        ⟦<RadixMap<A> as SlotMap>⟧.can_fold
        ⟦<RadixMap<A> as SlotMap>⟧.folds setup (all_notes (map shown seats.now))
        (slots_in (option_copied slots.entry)) fault) }
    ensures numbered { IfErr result (ComesNumbered (all_notes (map shown seats.now))) }
{
    if let Some(ticket) = first_amiss(standings) {
        return Err(CertifyFault::Ticket(ticket));
    }
    let Ok(for_map) = alloc.clone() else {
        return Err(CertifyFault::NoMemory);
    };
    let Ok(map) = RadixMap::new(for_map) else {
        return Err(CertifyFault::NoMemory);
    };
    let histories = slots_of(slots);
    follow::<RadixMap<A>, A, KeepsNone>(alloc, map, setup, seats, standings, histories)
}

/// Certifies the notes of all seats of a space: in order of their tickets, which are those below their
/// number, each once, they are a run of the machine over the tree of slots that comes to just the
/// noted outcomes. So what holds of all runs holds of them: their log is that of a plain page map
/// (POSIX.1-2017, mmap, munmap and mprotect), and each reply stands in it between its call and its
/// answer.
///
/// Where the histories of the space's slots are handed in, they went along with the run: the tickets of
/// each slot rise, and from its first change on each of its valid pages had after each note just what
/// its changes up to then come to. Page 0 and pages from 2^35 on aren't looked at.
///
/// A setup that makes no machine is reported first, then a ticket that doesn't stand once, then an
/// outcome that differs, and then a slot. What is reported is ruled out: notes of which an outcome
/// differs are, in order of tickets, no run of such a machine, and histories of which a slot is reported are
/// those of none that they are. Besides the notes it takes 12 bytes a note, a look of some 80 bytes for
/// each slot that has a history, and the machine.
pub fn certify<A: Allocator + Clone + Drop>(
    alloc: A,
    setup: Setup<A>,
    seats: &[Notes<'_>],
    slots: Option<&Histories<A>>,
) -> Result<Certified, CertifyFault>
    ensures ok { IfOk result (λ done. IsCertified ⟦<RadixMap<A> as SlotMap>⟧.parts
        ⟦<RadixMap<A> as SlotMap>⟧.can_fold
        ⟦<RadixMap<A> as SlotMap>⟧.folds setup (all_notes (map shown seats.now))
        (slots_in (option_copied slots.entry)) done.calls) }
    ensures err { IfErr result (λ fault. Fails ⟦<RadixMap<A> as SlotMap>⟧.parts
        ⟦<RadixMap<A> as SlotMap>⟧.can_fold
        ⟦<RadixMap<A> as SlotMap>⟧.folds setup (all_notes (map shown seats.now))
        (slots_in (option_copied slots.entry)) fault) }
    ensures plain { IfOk result (λ done. ReadPlainly (given_files setup.files.items)
        (all_notes (map shown seats.now)) done.calls) }
    ensures exact { IfErr result (RulesOut setup (all_notes (map shown seats.now))
        (slots_in (option_copied slots.entry))) }
{
    if let Some(fault) = setup.fault() {
        return Err(CertifyFault::Setup(fault));
    }
    let Ok(for_order) = alloc.clone() else {
        return Err(CertifyFault::NoMemory);
    };
    let Ok(standings) = standings(for_order, seats) else {
        return Err(CertifyFault::NoMemory);
    };
    certify_standing(alloc, setup, seats, &standings, slots)
}
