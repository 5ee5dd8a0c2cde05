//! The text of the counts.
ghost use Rattle.std.specs.Prelude.{◌≡◌, ◌<◌, ◌++◌, [], cond, option_map, OnOk};
ghost use Rattle.std.specs.List.{flat_map};
ghost use Rattle.core_steps.specs.Machine.{state};
ghost use Rattle.state_seen.specs.PageTexts.{texts_below};
ghost use Rattle.state_text.specs.Counts.{IsUsedEnd, core_counts, counts_at, counts_text, delta_line, delta_text, dirty_word, flushed_line};
ghost use Rattle.state_text.specs.Counts.{flushed_text, frame_counts, frame_line, minus, queue_line, sign, used_text};

use crate::form::{Form, core_word, end_word};
use core_steps::Machine;
use machine_log::Ledger;
use refcache::Queued;
use slot_lock::SlotMap;
use std::alloc::{AllocError, Allocator};
use trace_text::pieces::{Piece, put_all};
use vm_base::CoreId;

// What stands before a number's digits.
fn minus(number: i64) -> &'static str
    ensures { result.now ≡ minus number }
{
    if number < 0 { "-" } else { "" }
}

// The same where what is no less than 0 has a sign, too.
fn sign(number: i64) -> &'static str
    ensures { result.now ≡ sign number }
{
    if number < 0 { "-" } else { "+" }
}

// Appends what a core has to add to the frame's global count.
#[tactic(auto, unfolding(crate::specs::Counts::delta_line))]
fn put_delta_line(
    out: &mut Vec<u8>,
    form: Form,
    core: CoreId,
    frame: u32,
    delta: i64,
) -> Result<(), AllocError>
    ensures { OnOk result (out.new.items ≡ out.old.items ++ delta_line form core frame delta) }
{
    match form {
        Form::Text => put_all(
            out,
            &[
                Piece::Words("core "),
                Piece::Core(core),
                Piece::Words(" count frame "),
                Piece::Number(u64::from(frame)),
                Piece::Words(" "),
                Piece::Words(sign(delta)),
                Piece::Number(delta.unsigned_abs()),
                Piece::Words("\n"),
            ],
        ),
        Form::Json => put_all(
            out,
            &[
                Piece::Words("{\"core\":"),
                Piece::Core(core),
                Piece::Words(",\"count\":"),
                Piece::Words(minus(delta)),
                Piece::Number(delta.unsigned_abs()),
                Piece::Words(",\"frame\":"),
                Piece::Number(u64::from(frame)),
                Piece::Words("}\n"),
            ],
        ),
    }
}

// The same where it has something to add.
fn put_delta(
    out: &mut Vec<u8>,
    form: Form,
    core: CoreId,
    frame: u32,
    delta: Option<i64>,
) -> Result<(), AllocError>
    ensures { OnOk result (out.new.items ≡ out.old.items ++ delta_text form core frame delta) }
{
    match delta {
        None => Ok(()),
        Some(delta) => put_delta_line(out, form, core, frame, delta),
    }
}

// Appends what the core has to add to the count of the frame, if the frame is in use.
fn put_used_delta<M: SlotMap, A: Allocator + Clone, L: Ledger>(
    out: &mut Vec<u8>,
    form: Form,
    machine: &Machine<M, A, L>,
    core: CoreId,
    frame: u32,
) -> Result<(), AllocError>
    requires core { core < (state machine.now).made.cores }
    requires frame { frame < (state machine.now).made.frames }
    ensures { OnOk result (out.new.items ≡ out.old.items ++ cond ((state machine.now).memory.is_free frame) []
        (delta_text form core frame ((state machine.now).memory.counts.delta core frame))) }
{
    if machine.is_free(frame) {
        return Ok(());
    }
    put_delta(out, form, core, frame, machine.delta(core, frame))
}

// The end of the frames in use: the frames from there on are free. No more frames are looked at.
fn used_end<M: SlotMap, A: Allocator + Clone, L: Ledger>(machine: &Machine<M, A, L>) -> u32
    ensures { IsUsedEnd (state machine.now) result }
{
    let frames = machine.frames();
    let mut free = machine.free_frames();
    'frames: for frame in 0..frames {
        if free == frames - frame {
            return frame;
        }
        if machine.is_free(frame) {
            free -= 1;
        }
    }
    frames
}

// Appends what the core has to add to counts of frames, where these are the frames in use.
fn put_deltas<M: SlotMap, A: Allocator + Clone, L: Ledger>(
    out: &mut Vec<u8>,
    form: Form,
    machine: &Machine<M, A, L>,
    core: CoreId,
    end: u32,
) -> Result<(), AllocError>
    requires core { core < (state machine.now).made.cores }
    requires end { IsUsedEnd (state machine.now) end }
    ensures { OnOk result (out.new.items ≡ out.old.items ++ used_text (state machine.now)
        (λ f. delta_text form core f ((state machine.now).memory.counts.delta core f))) }
{
    'frames: for frame in 0..end {
        put_used_delta(out, form, machine, core, frame)?;
    }
    Ok(())
}

// Appends a frame that the core is to review.
fn put_queued(
    out: &mut Vec<u8>,
    form: Form,
    core: CoreId,
    queued: &Queued,
) -> Result<(), AllocError>
    ensures { OnOk result (out.new.items ≡ out.old.items ++ queue_line form core queued.now) }
{
    let (words, since) = match form {
        Form::Text => (" queue frame ", " epoch "),
        Form::Json => (",\"queue\":", ",\"epoch\":"),
    };
    put_all(
        out,
        &[
            Piece::Words(core_word(form)),
            Piece::Core(core),
            Piece::Words(words),
            Piece::Number(u64::from(queued.object)),
            Piece::Words(since),
            Piece::Number(queued.epoch),
            Piece::Words(end_word(form)),
        ],
    )
}

// Appends frames that the core is to review.
fn put_queue(
    out: &mut Vec<u8>,
    form: Form,
    core: CoreId,
    queue: &[Queued],
) -> Result<(), AllocError>
    ensures { OnOk result (out.new.items ≡ out.old.items ++ flat_map (queue_line form core) queue.now) }
{
    let mut at = 0;
    'queued: while at < queue.len() {
        put_queued(out, form, core, &queue[at])?;
        at += 1;
    }
    Ok(())
}

// Appends all frames that the core is to review.
fn put_reviews<M: SlotMap, A: Allocator + Clone, L: Ledger>(
    out: &mut Vec<u8>,
    form: Form,
    machine: &Machine<M, A, L>,
    core: CoreId,
) -> Result<(), AllocError>
    requires { core < (state machine.now).made.cores }
    ensures { OnOk result (out.new.items ≡ out.old.items
        ++ flat_map (queue_line form core) ((state machine.now).memory.counts.queue core)) }
{
    let (first, rest) = machine.queue(core);
    put_queue(out, form, core, first)?;
    put_queue(out, form, core, rest)?;
    Ok(())
}

// Appends that the core has flushed, if it has.
#[tactic(auto, unfolding(crate::specs::Counts::flushed_line))]
fn put_flushed(
    out: &mut Vec<u8>,
    form: Form,
    core: CoreId,
    has_flushed: bool,
) -> Result<(), AllocError>
    ensures { OnOk result (out.new.items ≡ out.old.items ++ flushed_text form core has_flushed) }
{
    if !has_flushed {
        return Ok(());
    }
    let flushed = match form {
        Form::Text => " flushed\n",
        Form::Json => ",\"flushed\":true}\n",
    };
    put_all(
        out,
        &[
            Piece::Words(core_word(form)),
            Piece::Core(core),
            Piece::Words(flushed),
        ],
    )
}

// Appends the counts of a core, where these are the frames in use.
fn put_core<M: SlotMap, A: Allocator + Clone, L: Ledger>(
    out: &mut Vec<u8>,
    form: Form,
    machine: &Machine<M, A, L>,
    core: CoreId,
    end: u32,
) -> Result<(), AllocError>
    requires core { core < (state machine.now).made.cores }
    requires end { IsUsedEnd (state machine.now) end }
    ensures { OnOk result (out.new.items ≡ out.old.items ++ core_counts form (state machine.now) core) }
{
    let has_flushed = machine.flushed().contains(core);
    put_deltas(out, form, machine, core, end)?;
    put_reviews(out, form, machine, core)?;
    put_flushed(out, form, core, has_flushed)?;
    Ok(())
}

// Appends the counts of all cores, where these are the frames in use.
fn put_cores<M: SlotMap, A: Allocator + Clone, L: Ledger>(
    out: &mut Vec<u8>,
    form: Form,
    machine: &Machine<M, A, L>,
    end: u32,
) -> Result<(), AllocError>
    requires { IsUsedEnd (state machine.now) end }
    ensures { OnOk result (out.new.items ≡ out.old.items
        ++ texts_below (core_counts form (state machine.now)) (state machine.now).made.cores) }
{
    let cores = machine.cores() as u8;
    'cores: for core in 0..cores {
        put_core(out, form, machine, CoreId::new(core), end)?;
    }
    Ok(())
}

// The end of a frame's line.
fn dirty_word(form: Form, is_dirty: bool) -> &'static str
    ensures { result.now ≡ dirty_word form is_dirty }
{
    match (form, is_dirty) {
        (Form::Text, true) => " dirty\n",
        (Form::Text, false) => "\n",
        (Form::Json, true) => ",\"dirty\":true}\n",
        (Form::Json, false) => "}\n",
    }
}

// Appends a frame with its true and its global count.
#[tactic(auto, unfolding(crate::specs::Counts::frame_line))]
fn put_frame_line(
    out: &mut Vec<u8>,
    form: Form,
    frame: u32,
    count: i64,
    global: i64,
    is_dirty: bool,
) -> Result<(), AllocError>
    ensures { OnOk result (out.new.items ≡ out.old.items ++ frame_line form frame count global is_dirty) }
{
    let (front, counted, known) = match form {
        Form::Text => ("frame ", " count ", " global "),
        Form::Json => ("{\"frame\":", ",\"count\":", ",\"global\":"),
    };
    put_all(
        out,
        &[
            Piece::Words(front),
            Piece::Number(u64::from(frame)),
            Piece::Words(counted),
            Piece::Words(minus(count)),
            Piece::Number(count.unsigned_abs()),
            Piece::Words(known),
            Piece::Words(minus(global)),
            Piece::Number(global.unsigned_abs()),
            Piece::Words(dirty_word(form, is_dirty)),
        ],
    )
}

// Appends the counts of a frame, if it is in use.
fn put_frame<M: SlotMap, A: Allocator + Clone, L: Ledger>(
    out: &mut Vec<u8>,
    form: Form,
    machine: &Machine<M, A, L>,
    frame: u32,
) -> Result<(), AllocError>
    requires { frame < (state machine.now).made.frames }
    ensures { OnOk result (out.new.items ≡ out.old.items ++ cond ((state machine.now).memory.is_free frame) []
        (frame_counts form (state machine.now) frame)) }
{
    if machine.is_free(frame) {
        return Ok(());
    }
    let count = machine.true_count(frame);
    let global = machine.global_count(frame);
    let is_dirty = machine.is_dirty(frame);
    put_frame_line(out, form, frame, count, global, is_dirty)
}

// Appends the counts of the frames in use, which end there.
fn put_frames<M: SlotMap, A: Allocator + Clone, L: Ledger>(
    out: &mut Vec<u8>,
    form: Form,
    machine: &Machine<M, A, L>,
    end: u32,
) -> Result<(), AllocError>
    requires { IsUsedEnd (state machine.now) end }
    ensures { OnOk result (out.new.items ≡ out.old.items
        ++ used_text (state machine.now) (frame_counts form (state machine.now))) }
{
    'frames: for frame in 0..end {
        put_frame(out, form, machine, frame)?;
    }
    Ok(())
}

/// Appends the counts of the machine: of each core what it has yet to add to the counts of frames in use, what it is to review, the
/// next frame first, and whether it has flushed in this epoch; and of each frame in use its true and its global count, and whether it
/// is dirty. An error is a refusal of memory.
pub fn put_counts<M: SlotMap, A: Allocator + Clone, L: Ledger>(
    out: &mut Vec<u8>,
    form: Form,
    machine: &Machine<M, A, L>,
) -> Result<(), AllocError>
    ensures { OnOk result (out.new.items ≡ out.old.items ++ counts_text form (state machine.now)) }
{
    let end = used_end(machine);
    put_cores(out, form, machine, end)?;
    put_frames(out, form, machine, end)?;
    Ok(())
}

/// The same of a machine, if there is one.
pub fn put_counts_at<M: SlotMap, A: Allocator + Clone, L: Ledger>(
    out: &mut Vec<u8>,
    form: Form,
    machine: &Option<Machine<M, A, L>>,
) -> Result<(), AllocError>
    ensures { OnOk result (out.new.items ≡ out.old.items ++ counts_at form (option_map state machine.now)) }
{
    match machine {
        None => Ok(()),
        Some(machine) => put_counts(out, form, machine),
    }
}
