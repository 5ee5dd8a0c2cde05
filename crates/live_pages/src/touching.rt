//! The access of a byte, by the translations of a core.
ghost use Rattle.std.specs.Prelude.{◌≡◌, ◌<◌, ◌≤◌, IfSome};
ghost use Rattle.vm_base.specs.Apply.{byte_reply};
ghost use Rattle.slot_lock.specs.Plan.{IsSoundTouch};
ghost use Rattle.frames.specs.Parts.{cell_bytes};
ghost use Rattle.machine_model.specs.Translating.{frame_reached};
ghost use Rattle.mmu.specs.Tables.{tlb_after, translated};
ghost use Rattle.mmu.specs.Tlb.{tlb_at};
ghost use Rattle.seats.specs.Notes.{CanNote};
ghost use Rattle.live_pages.specs.Bytes.{after_access};
ghost use Rattle.live_pages.specs.HeldFrames.{frame_at};
ghost use Rattle.live_pages.specs.Reaching.{Reaches};
ghost use Rattle.live_pages.specs.Steps.{StepsAndAnswers, Tries};

use crate::answering::answer;
use crate::frames_held::{Place, lock_place};
use crate::pieces::{CoreState, FrameState, Pieces, lock_core};
use frames::FrameCell;
use live_levels::level::Stepper;
use machine_model::answers::byte_reply;
use mmu::{Cpu, Hardware, Translated};
use seats::Seat;
use slot_lock::Touch;
use std::alloc::Allocator;
use std::sync::Wait;
use vm_base::{Access, Reply};

/// The result of the try of an access.
#[derive(Clone, Copy)]
pub enum Tried {
    /// The byte was read or written, and this is the answer, which is noted too.
    Served(Reply),
    /// There was a fault.
    Fault,
    /// The core or the frame isn't there, and nothing was noted. It never comes; the call gives up.
    Lost,
}

/// Translates the page by the core's TLB and tables, and reads or writes the byte in its frame: one
/// step under the locks of the core and of the frame, under which the answer is noted right after
/// it. At a fault no frame is locked.
pub fn try_touch<R: Wait, A: Allocator + Clone>(
    rt: &R,
    pieces: &Pieces<'_, A>,
    seat: &mut Seat<A>,
    touch: Touch,
) -> Tried
    requires room { 2 ≤ seat.old.room }
    requires step { CanNote seat.old }
    requires touch { IsSoundTouch touch }
    ensures { Tries touch seat.old seat.new result }
{
    let Some(mut core) = lock_core(rt, pieces.cores, seat.core()) else {
        return Tried::Lost;
    };
    match translate(&mut core.cpu, touch) {
        Some(number) => touch_frame(rt, pieces, seat, &core, touch, number),
        None => {
            let _ticket = seat.step();
            Tried::Fault
        }
    }
}

// The frame to which the core's TLB and tables lead the access, if it is no fault.
fn translate<H: Hardware>(cpu: &mut H, touch: Touch) -> Option<u32>
    requires { IsSoundTouch touch }
    ensures frame { result ≡ frame_reached (translated
        (tlb_at (H.tlb cpu.old) touch.page) (H.table cpu.old touch.page) touch.access) }
    ensures tlb { H.tlb cpu.new ≡ tlb_after (translated
        (tlb_at (H.tlb cpu.old) touch.page) (H.table cpu.old touch.page) touch.access) touch.page (H.table cpu.old touch.page) (H.tlb cpu.old) }
    ensures table { H.table cpu.new ≡ H.table cpu.old }
    ensures reaches { IfSome result (Reaches (H.table cpu.new) (H.tlb cpu.new) touch) }
{
    match cpu.translate(touch.page, touch.access) {
        Translated::Hit(number) | Translated::Fill(number) => Some(number),
        Translated::Fault => None,
    }
}

// Reads or writes the byte in the frame, under its lock. The seat's core is locked, and reaches the
// frame.
fn touch_frame<R: Wait, A: Allocator + Clone>(
    rt: &R,
    pieces: &Pieces<'_, A>,
    seat: &mut Seat<A>,
    core: &CoreState<A>,
    touch: Touch,
    number: u32,
) -> Tried
    requires room { 2 ≤ seat.old.room }
    requires touch { IsSoundTouch touch }
    requires own { core.now.inbox.core ≡ seat.old.core }
    requires reaches { Reaches (⟦<Cpu<A> as Hardware>⟧.table core.now.cpu)
        (⟦<Cpu<A> as Hardware>⟧.tlb core.now.cpu) touch number }
    ensures { Tries touch seat.old seat.new result }
{
    match lock_place(rt, pieces.frames, number) {
        Some(mut place) => Tried::Served(serve(&mut place, seat, core, touch)),
        None => Tried::Lost,
    }
}

// The step: the byte is read or written in the locked frame, which the core reaches, it is noted,
// and so is the answer.
fn serve<A: Allocator + Clone>(
    place: &mut Place<'_, A>,
    seat: &mut Seat<A>,
    _core: &CoreState<A>,
    touch: Touch,
) -> Reply
    requires room { 2 ≤ seat.old.room }
    requires touch { IsSoundTouch touch }
    requires reaches { Reaches (⟦<Cpu<A> as Hardware>⟧.table _core.now.cpu)
        (⟦<Cpu<A> as Hardware>⟧.tlb _core.now.cpu) touch place.old.number }
    ensures reply { result ≡ byte_reply touch.access (cell_bytes (frame_at place.old).cell touch.offset) }
    ensures noted { StepsAndAnswers seat.old result seat.new }
    ensures bytes { cell_bytes (frame_at place.new).cell
        ≡ after_access touch.access touch.offset touch.byte (cell_bytes (frame_at place.old).cell) }
    ensures free { (frame_at place.new).cell.is_free ≡ (frame_at place.old).cell.is_free }
    ensures count { (frame_at place.new).count ≡ (frame_at place.old).count }
{
    // The byte comes first, so that the draws of the two tickets stand back to back, and other threads
    // wait for the tickets' cache line once. Both tickets are drawn while the frame is locked, as the
    // byte is read and written, so the steps that touch the frame have their tickets in the order of
    // its locks, whether a draw stands before or behind the byte.
    let reply = touch_cell(&mut place.frame, touch);
    let _ticket = seat.step();
    answer(seat, reply);
    reply
}

// The same of the frame alone.
fn touch_cell<A: Allocator>(frame: &mut FrameState<A>, touch: Touch) -> Reply
    requires { touch.offset < 4096 }
    ensures reply { result ≡ byte_reply touch.access (cell_bytes frame.old.cell touch.offset) }
    ensures bytes { cell_bytes frame.new.cell
        ≡ after_access touch.access touch.offset touch.byte (cell_bytes frame.old.cell) }
    ensures free { frame.new.cell.is_free ≡ frame.old.cell.is_free }
    ensures count { frame.new.count ≡ frame.old.count }
{
    touch_byte(&mut frame.cell, touch)
}

/// Reads or writes the byte, and tells what the access answers.
pub fn touch_byte<A: Allocator>(cell: &mut FrameCell<A>, touch: Touch) -> Reply
    requires { touch.offset < 4096 }
    ensures reply { result ≡ byte_reply touch.access (cell_bytes cell.old touch.offset) }
    ensures bytes { cell_bytes cell.new
        ≡ after_access touch.access touch.offset touch.byte (cell_bytes cell.old) }
    ensures free { cell.new.is_free ≡ cell.old.is_free }
{
    let byte = cell.byte(touch.offset as usize);
    if touch.access == Access::Store {
        cell.set_byte(touch.offset as usize, touch.byte);
    }
    byte_reply(touch.access, byte)
}
