//! Notes in order of their tickets, given to a machine one after another, whose outcomes must be the
//! noted ones.
ghost use Rattle.std.specs.Prelude.{◌≡◌, ◌≢◌, ◌≤◌, ◌<◌, ℕ, true, false, IfOk, IfErr, None, Option, length, map, get_or};
ghost use Rattle.vm_base.specs.declared.info.PageInfo.{PageInfo};
ghost use Rattle.core_steps.specs.Machine.{state};
ghost use Rattle.machine_model.specs.declared.setup.Setup.{Setup};
ghost use Rattle.machine_model.specs.Setups.{fault_of};
ghost use Rattle.seats.specs.Packing.{shown};
ghost use Rattle.certifier.specs.declared.order.Standing.TheVariants as StandingOf;
ghost use Rattle.certifier.specs.Following.{IsCertified, IsNewTree, IsOpening, Fails, Leads, Refuses, answers_call, one_if};
ghost use Rattle.certifier.specs.Histories.{AreInOrder};
ghost use Rattle.certifier.specs.Looks.{AreLooked};
ghost use Rattle.certifier.specs.Order.{all_notes};
ghost use Rattle.certifier.specs.Standings.{AreStandings, is_once};

use crate::looks::Look;
use crate::order::{Standing, note_of};
use crate::result::{Certified, CertifyFault};
use crate::visits::{first_astray, first_looks, look_before};
use core_steps::Machine;
use live_levels::close::SlotHistory;
use machine_log::{Ledger, Opening};
use machine_model::{Outcome, Setup};
use seats::{Noted, Notes};
use slot_lock::SlotMap;
use std::alloc::Allocator;

/// How many replies the note hands out, one or none.
fn answers(note: &Noted) -> u64
    ensures one { result ≡ one_if (answers_call note.now) }
    ensures few { result ≤ 1 }
{
    match note.outcome {
        Outcome::Answered(_) => 1,
        _ => 0,
    }
}

/// Tells whether the machine's outcome is the one that was noted.
fn is_same(noted: &Outcome, outcome: &Outcome) -> bool
    ensures yes { result ≡ true → outcome.now ≡ noted.now }
    ensures no { result ≡ false → outcome.now ≢ noted.now }
{
    noted == outcome
}

/// Gives the machine the event of the note with this ticket, and answers how many replies that hands
/// out, where it comes to what was noted.
fn take_note<M: SlotMap, A: Allocator + Clone, L: Ledger>(
    machine: &mut Machine<M, A, L>,
    note: &Noted,
    ticket: u64,
) -> Result<u64, CertifyFault>
    ensures ok { IfOk result (λ calls. (calls ≡ one_if (answers_call note.now))
        × Leads M.parts M.can_fold M.folds (state machine.old) (note.now).event (note.now).outcome (state machine.new)) }
    ensures few { IfOk result (λ calls. calls ≤ 1) }
    ensures err { IfErr result (Refuses M.parts M.can_fold M.folds (state machine.old) note.now ticket) }
{
    let outcome = match machine.step(note.event) {
        Ok(outcome) => outcome,
        Err(_) => return Err(CertifyFault::NoMemory),
    };
    if !is_same(&note.outcome, &outcome) {
        return Err(CertifyFault::Differs {
            ticket,
            noted: note.outcome,
            expected: outcome,
        });
    }
    Ok(answers(note))
}

/// Gives each noted event, in order of tickets, to the machine, and looks at the slots beside it. Tells
/// whether the notes are certified for the setups of which it is a new machine.
fn follow_notes<M: SlotMap, A: Allocator + Clone, L: Ledger>(
    machine: &mut Machine<M, A, L>,
    looks: &mut Vec<Look, A>,
    seats: &[Notes<'_>],
    standings: &[Standing],
    histories: &[SlotHistory<A>],
) -> Result<Certified, CertifyFault>
    requires standings { AreStandings (map shown seats.now) standings.now }
    requires once { (t : ℕ) → t < length standings.now
        → is_once (get_or standings.now t StandingOf.No) ≡ true }
    requires order { AreInOrder histories.now }
    requires looks { (maps : ℕ → ℕ → Option PageInfo) (now : ℕ → Option PageInfo)
        → AreLooked (length standings.now) maps now 0 histories.now looks.old.items }
    ensures ok { IfOk result (λ done. (setup : Setup A) → IsOpening setup (state machine.old)
        → IsCertified M.parts M.can_fold M.folds setup
        (all_notes (map shown seats.now)) histories.now done.calls) }
    ensures err { IfErr result (λ fault. (setup : Setup A) → IsOpening setup (state machine.old)
        → Fails M.parts M.can_fold M.folds setup
        (all_notes (map shown seats.now)) histories.now fault) }
{
    let mut calls = 0u64;
    'tickets: for at in 0..standings.len() {
        // (each stands once, so that this doesn't come)
        let Standing::Once(place) = standings[at] else {
            return Err(CertifyFault::NoMemory);
        };
        let note = note_of(seats, place);
        look_before(machine, histories, looks, note.event, at as u64);
        calls += match take_note(machine, &note, at as u64) {
            Ok(few) => few,
            Err(fault) => return Err(fault),
        };
    }
    match first_astray(machine, histories, looks, standings.len() as u64) {
        Some(page) => Err(CertifyFault::Slot { page }),
        None => Ok(Certified { calls }),
    }
}

/// Gives each noted event, in order of tickets, to a new machine over a new tree of slots. The notes are
/// certified where each ticket stands once, each event has exactly the outcome that was noted, and
/// the slots went along.
pub fn follow<M: SlotMap + Drop, A: Allocator + Clone + Drop, L: Opening<A> + Drop>(
    alloc: A,
    slots: M,
    setup: Setup<A>,
    seats: &[Notes<'_>],
    standings: &[Standing],
    histories: &[SlotHistory<A>],
) -> Result<Certified, CertifyFault>
    requires new { IsNewTree (M.slots slots) }
    requires sound { fault_of setup ≡ None }
    requires standings { AreStandings (map shown seats.now) standings.now }
    requires once { (t : ℕ) → t < length standings.now
        → is_once (get_or standings.now t StandingOf.No) ≡ true }
    requires order { AreInOrder histories.now }
    ensures ok { IfOk result (λ done. IsCertified M.parts M.can_fold M.folds setup
        (all_notes (map shown seats.now)) histories.now done.calls) }
    ensures err { IfErr result (λ fault. Fails M.parts M.can_fold M.folds setup
        (all_notes (map shown seats.now)) histories.now fault) }
{
    let Ok(own) = alloc.clone() else {
        return Err(CertifyFault::NoMemory);
    };
    let Ok(mut looks) = first_looks(own, histories, standings.len() as u64) else {
        return Err(CertifyFault::NoMemory);
    };
    let mut machine = match Machine::<M, A, L>::new(alloc, slots, setup) {
        Ok(machine) => machine,
        Err(_) => return Err(CertifyFault::NoMemory),
    };
    follow_notes(&mut machine, &mut looks, seats, standings, histories)
}
