//! What steps do to the tables of all cores.
ghost use Rattle.std.specs.Prelude.{◌≡◌, ℕ, None, length, true};
ghost use Rattle.vm_base.specs.Functions.{has, over, put};
ghost use Rattle.mmu.specs.Messages.{asked};
ghost use Rattle.core_steps.specs.Machine.{state};
ghost use Rattle.state_seen.specs.Edits.{after_edit, edited, table_at, taken_from};
ghost use Rattle.state_seen.specs.Shown.{inboxes};

use crate::PageList;
use crate::edit::TableStep;
use crate::held::CoreHeld;
use crate::reading::entry_of;
use core_steps::Machine;
use machine_log::Ledger;
use machine_model::Outcome;
use mmu::Message;
use mmu::entry::Translation;
use slot_lock::SlotMap;
use std::alloc::Allocator;
use vm_base::{CoreId, PageRange};

// The core's tables lose the range.
fn clear_at<B: Allocator>(
    tables: &mut Vec<PageList<Translation, B>, B>,
    core: CoreId,
    range: PageRange,
)
    requires { length tables.old.items ≡ 64 }
    ensures cores { length tables.new.items ≡ length tables.old.items }
    ensures tables { (c p : ℕ) → table_at tables.new.items c p
        ≡ put (table_at tables.old.items) core (over (table_at tables.old.items core) (has range) None) c p }
{
    tables[core.index() as usize].clear(range);
}

// The core's tables get this entry of the page; false where there was no room.
fn set_at<B: Allocator>(
    tables: &mut Vec<PageList<Translation, B>, B>,
    core: CoreId,
    page: u64,
    entry: Option<Translation>,
) -> bool
    requires { length tables.old.items ≡ 64 }
    ensures cores { length tables.new.items ≡ length tables.old.items }
    ensures tables { result ≡ true → (c p : ℕ) → table_at tables.new.items c p
        ≡ put (table_at tables.old.items) core (put (table_at tables.old.items core) page entry) c p }
{
    tables[core.index() as usize].set(page, entry)
}

// The core acts on the oldest of these messages: at the first take its tables lose the pages.
fn take_at<B: Allocator>(
    tables: &mut Vec<PageList<Translation, B>, B>,
    core: CoreId,
    inbox: &[Message],
)
    requires { length tables.old.items ≡ 64 }
    ensures cores { length tables.new.items ≡ length tables.old.items }
    ensures tables { (c p : ℕ) → table_at tables.new.items c p
        ≡ put (table_at tables.old.items) core (taken_from (asked inbox.now) (table_at tables.old.items core)) c p }
{
    let Some(message) = inbox.first() else { return };
    if !message.is_cleared {
        clear_at(tables, core, message.range);
    }
}

// The core's tables get the entry that the machine's have of the page; false where there was no room.
fn install_at<M: SlotMap, A: Allocator + Clone, L: Ledger, B: Allocator>(
    machine: &Machine<M, A, L>,
    tables: &mut Vec<PageList<Translation, B>, B>,
    core: CoreId,
    page: u64,
) -> bool
    requires { length tables.old.items ≡ 64 }
    ensures cores { length tables.new.items ≡ length tables.old.items }
    ensures tables { result ≡ true → (c p : ℕ) → table_at tables.new.items c p
        ≡ put (table_at tables.old.items) core
        (put (table_at tables.old.items core) page ((state machine.now).hardware.table core page)) c p }
{
    if usize::from(core.index()) >= machine.cores() {
        return false;
    }
    let entry = entry_of(machine, core, page);
    set_at(tables, core, page, entry)
}

// What the edit does to all; false where there was no room for an entry. The cores held this before, and the machine is past the
// step.
fn do_edit<M: SlotMap, A: Allocator + Clone, L: Ledger, B: Allocator>(
    machine: &Machine<M, A, L>,
    tables: &mut Vec<PageList<Translation, B>, B>,
    cores: &[CoreHeld],
    edit: &TableStep,
) -> bool
    requires tables { length tables.old.items ≡ 64 }
    requires cores { length cores.now ≡ 64 }
    ensures cores { length tables.new.items ≡ length tables.old.items }
    ensures tables { result ≡ true → (c p : ℕ) → table_at tables.new.items c p ≡ edited edit.now (inboxes cores.now)
        (state machine.now).hardware.table (table_at tables.old.items) c p }
{
    match edit {
        TableStep::Nothing => true,
        TableStep::Clear { core, range } => {
            clear_at(tables, *core, *range);
            true
        }
        TableStep::Take(core) => {
            take_at(tables, *core, cores[core.index() as usize].inbox());
            true
        }
        TableStep::Install { core, page } => install_at(machine, tables, *core, *page),
    }
}

/// What a step does to the tables of all by its edit; false where there was no room for an entry. The cores held this before, and the
/// machine is past the step.
pub(crate) fn edit_tables<M: SlotMap, A: Allocator + Clone, L: Ledger, B: Allocator>(
    machine: &Machine<M, A, L>,
    tables: &mut Vec<PageList<Translation, B>, B>,
    cores: &[CoreHeld],
    edit: &TableStep,
    outcome: &Outcome,
) -> bool
    requires tables { length tables.old.items ≡ 64 }
    requires cores { length cores.now ≡ 64 }
    ensures cores { length tables.new.items ≡ length tables.old.items }
    ensures tables { result ≡ true → (c p : ℕ) → table_at tables.new.items c p ≡ after_edit outcome.now edit.now (inboxes cores.now)
        (state machine.now).hardware.table (table_at tables.old.items) c p }
{
    match outcome {
        Outcome::Stepped => do_edit(machine, tables, cores, edit),
        Outcome::Wait(_) | Outcome::Idle | Outcome::Answered(_) | Outcome::Full => true,
    }
}
