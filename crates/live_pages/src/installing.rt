//! The step that enters a page in a core's tables, and records the core on it.
ghost use Rattle.std.specs.Prelude.{◌≡◌, ℕ, Option, Some, All, true, false};
ghost use Rattle.vm_base.specs.Functions.{put};
ghost use Rattle.vm_base.specs.Pages.{is_page};
ghost use Rattle.slot_lock.specs.Plan.{IsSoundTouch};
ghost use Rattle.live_levels.specs.declared.act.Act.TheVariants.{Record};
ghost use Rattle.live_tree.specs.Held.{CanTake};
ghost use Rattle.machine_model.specs.Files.{file_frame};
ghost use Rattle.machine_model.specs.Translating.{entry_of_page};
ghost use Rattle.seats.specs.Notes.{CanNote};
ghost use Rattle.live_pages.specs.Cached.{LocksPageOf, cached_in};
ghost use Rattle.live_pages.specs.Steps.{Stays, StepsWith};

use crate::pieces::{CoreState, FilePage, Pieces, lock_core};
use crate::settling::{frame_in, lock_cached};
use live_levels::act::Act;
use live_levels::level::Stepper;
use live_tree::held::Held;
use machine_model::answers::prot_with;
use mmu::{Cpu, Hardware, has_right};
use seats::Seat;
use slot_lock::Touch;
use std::alloc::Allocator;
use std::sync::{MutexGuard, Wait};
use vm_base::PageInfo;

/// The core's tables get the page's entry, and the core is recorded on the page, which is held: one
/// step, under the locks of its file page and of the core. False, and then nothing was noted and
/// the slots stay, where there was no memory for the entry.
pub fn install<R: Wait, A: Allocator + Clone>(
    rt: &R,
    pieces: &Pieces<'_, A>,
    seat: &mut Seat<A>,
    held: &mut Held<'_, A>,
    touch: Touch,
) -> bool
    requires step { CanNote seat.old }
    requires touch { IsSoundTouch touch }
    ensures done { result ≡ true → StepsWith (Record seat.old.core) seat.old held.old seat.new held.new }
    ensures not { result ≡ false → Stays seat.old held.old seat.new held.new }
{
    let Some(info) = held.page(touch.page) else {
        return false;
    };
    let Some(cached) = lock_cached(rt, pieces, info.meta.back) else {
        return false;
    };
    install_with(rt, pieces, &cached, seat, held, touch, &info)
}

// The same with the page known, whose file page is locked where there is one.
fn install_with<R: Wait, A: Allocator + Clone>(
    rt: &R,
    pieces: &Pieces<'_, A>,
    cached: &Option<MutexGuard<'_, FilePage>>,
    seat: &mut Seat<A>,
    held: &mut Held<'_, A>,
    touch: Touch,
    info: &PageInfo,
) -> bool
    requires step { CanNote seat.old }
    requires touch { IsSoundTouch touch }
    requires lock { LocksPageOf pieces.now.pages.now info.now.meta.back cached.now }
    ensures done { result ≡ true → StepsWith (Record seat.old.core) seat.old held.old seat.new held.new }
    ensures not { result ≡ false → Stays seat.old held.old seat.new held.new }
{
    let own = seat.core();
    if !held.can_take(Act::Record(own)) {
        return false;
    }
    let Some(mut core) = lock_core(rt, pieces.cores, own) else {
        return false;
    };
    enter(&mut core, cached, seat, held, touch.page, info)
}

// The step: the core's tables get the page's entry, it is noted, and the core is recorded on the
// page. False, and then nothing changes, where the page has no frame or gives no right, or there
// was no memory for the entry.
fn enter<A: Allocator + Clone>(
    core: &mut CoreState<A>,
    cached: &Option<MutexGuard<'_, FilePage>>,
    seat: &mut Seat<A>,
    held: &mut Held<'_, A>,
    page: u64,
    info: &PageInfo,
) -> bool
    requires step { CanNote seat.old }
    requires page { is_page page ≡ true }
    requires own { core.old.inbox.core ≡ seat.old.core }
    requires each { All (CanTake (Record seat.old.core)) held.old.slots }
    ensures done { result ≡ true → StepsWith (Record seat.old.core) seat.old held.old seat.new held.new }
    ensures entry { result ≡ true → (c : ℕ → ℕ → Option ℕ)
        → file_frame c info.now.meta.back ≡ cached_in cached.now → ⟦<Cpu<A> as Hardware>⟧.table core.new.cpu
        ≡ put (⟦<Cpu<A> as Hardware>⟧.table core.old.cpu) page (entry_of_page c (Some info.now)) }
    ensures not { result ≡ false → Stays seat.old held.old seat.new held.new }
    ensures table { result ≡ false → ⟦<Cpu<A> as Hardware>⟧.table core.new.cpu
        ≡ ⟦<Cpu<A> as Hardware>⟧.table core.old.cpu }
    ensures tlb { ⟦<Cpu<A> as Hardware>⟧.tlb core.new.cpu ≡ ⟦<Cpu<A> as Hardware>⟧.tlb core.old.cpu }
    ensures rest { (core.new.counts ≡ core.old.counts) × (core.new.inbox ≡ core.old.inbox) }
{
    if !enter_page(&mut core.cpu, page, info, frame_in(cached)) {
        return false;
    }
    let own = seat.core();
    let ticket = seat.step();
    held.change_each(ticket, Act::Record(own));
    true
}

// The tables get the entry of a page that has this, and whose file page this frame caches, if one
// does.
fn enter_page<H: Hardware>(cpu: &mut H, page: u64, info: &PageInfo, cached: Option<u32>) -> bool
    requires { is_page page ≡ true }
    ensures entry { result ≡ true → (c : ℕ → ℕ → Option ℕ) → file_frame c info.now.meta.back ≡ cached
        → H.table cpu.new ≡ put (H.table cpu.old) page (entry_of_page c (Some info.now)) }
    ensures not { result ≡ false → H.table cpu.new ≡ H.table cpu.old }
    ensures tlb { H.tlb cpu.new ≡ H.tlb cpu.old }
{
    let Some(frame) = info.frame else {
        return false;
    };
    let prot = prot_with(info, cached);
    if !has_right(prot) {
        return false;
    }
    cpu.install(page, frame, prot).is_ok()
}
