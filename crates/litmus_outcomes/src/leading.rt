//! The plain page map to which a log leads, by its changes.
ghost use Rattle.std.specs.Prelude.{◌≡◌, ◌≢◌, ◌++◌, ◌∷◌, [], ℕ, IfNone, IfOk, IfSome, OnOk, Some, true, false};
ghost use Rattle.vm_base.specs.declared.log.Entry.{Entry as EntryOf};
ghost use Rattle.vm_base.specs.declared.log.Entry.TheVariants.{Answer as AnswerOf};
ghost use Rattle.vm_base.specs.declared.replies.Reply.TheVariants as ReplyOf;
ghost use Rattle.vm_base.specs.declared.requests.Request.{Request as RequestOf};
ghost use Rattle.vm_base.specs.Log.{nth};
ghost use Rattle.vm_base.specs.Plain.{Plain};
ghost use Rattle.vm_base.specs.Requests.{is_placed};
ghost use Rattle.litmus_merges.specs.declared.change.MapChange.TheVariants as StepOf;
ghost use Rattle.litmus_merges.specs.Steps.{AreSound, map_of};
ghost use Rattle.litmus_outcomes.specs.Leading.{AreOfLog, LeadsToOne, LeavesOne};

use frames::Objects;
use litmus_merges::{MapChange, lead};
use std::alloc::Allocator;
use vm_base::{CoreId, Entry, Flags, NoMemory, Reply, Request};

// Whether the request is a mapping that leaves its place open.
fn is_placed(request: Request) -> bool
    ensures { result ≡ is_placed request }
{
    match request {
        Request::Mmap { flags, .. } => !flags.fixed,
        Request::Munmap { .. }
        | Request::Mprotect { .. }
        | Request::Load { .. }
        | Request::Store { .. }
        | Request::Fetch { .. } => false,
    }
}

// Whether the reply is that of a call that changed nothing for want of a frame or of memory.
fn is_wanting(reply: Reply) -> bool
    ensures no { result ≡ false → (reply ≢ ReplyOf.NoFrame) × (reply ≢ ReplyOf.NoMemory) }
    ensures yes { result ≡ true → (t : Plain) (core : ℕ) (request : RequestOf) → LeavesOne t core request reply t }
{
    match reply {
        Reply::NoFrame | Reply::NoMemory => true,
        Reply::Mapped(_)
        | Reply::Done
        | Reply::Byte(_)
        | Reply::Refused(_)
        | Reply::Segv(_)
        | Reply::Bus => false,
    }
}

// Whether it is mapped there.
fn is_mapped_at(got: Option<Reply>, addr: u64) -> bool
    ensures { result ≡ true → got ≡ Some (ReplyOf.Mapped addr) }
{
    match got {
        Some(Reply::Mapped(at)) => at == addr,
        _ => false,
    }
}

// Leads a request that names its place.
fn lead_named<A: Allocator>(
    objects: &Objects<A>,
    steps: &mut Vec<MapChange, A>,
    core: CoreId,
    request: Request,
    reply: Reply,
) -> Result<(), NoMemory>
    requires named { is_placed request ≡ false }
    requires frame { reply ≢ ReplyOf.NoFrame }
    requires memory { reply ≢ ReplyOf.NoMemory }
    requires sound { AreSound steps.old.items }
    ensures one { OnOk result (LeavesOne (map_of objects.now steps.old.items) core request reply
        (map_of objects.now steps.new.items)) }
    ensures sound { AreSound steps.new.items }
{
    let _reply = lead(objects, steps, core, request)?;
    Ok(())
}

// Leads a mapping that got its place there, as the one that names it. `false` where it can't be led, which never comes.
fn lead_placed<A: Allocator>(
    objects: &Objects<A>,
    steps: &mut Vec<MapChange, A>,
    core: CoreId,
    request: Request,
    addr: u64,
) -> Result<bool, NoMemory>
    requires placed { is_placed request ≡ true }
    requires sound { AreSound steps.old.items }
    ensures one { IfOk result (λ led. led ≡ true → LeavesOne (map_of objects.now steps.old.items) core request
        (ReplyOf.Mapped addr) (map_of objects.now steps.new.items)) }
    ensures sound { AreSound steps.new.items }
{
    match request {
        Request::Mmap {
            addr: _,
            len,
            prot,
            flags,
            file,
            off,
        } => {
            let flags = Flags {
                fixed: true,
                ..flags
            };
            let there = Request::Mmap {
                addr,
                len,
                prot,
                flags,
                file,
                off,
            };
            let got = lead(objects, steps, core, there)?;
            Ok(is_mapped_at(got, addr))
        }
        Request::Munmap { .. }
        | Request::Mprotect { .. }
        | Request::Load { .. }
        | Request::Store { .. }
        | Request::Fetch { .. } => Ok(false),
    }
}

// Where it was mapped, if it was.
fn place_of(reply: Reply) -> Option<u64>
    ensures some { IfSome result (λ addr. reply ≡ ReplyOf.Mapped addr) }
    ensures none { IfNone result ((addr : ℕ) → reply ≢ ReplyOf.Mapped addr) }
{
    match reply {
        Reply::Mapped(addr) => Some(addr),
        Reply::Done
        | Reply::Byte(_)
        | Reply::Refused(_)
        | Reply::Segv(_)
        | Reply::Bus
        | Reply::NoFrame
        | Reply::NoMemory => None,
    }
}

// Leads a mapping that leaves its place open.
fn lead_open<A: Allocator>(
    objects: &Objects<A>,
    steps: &mut Vec<MapChange, A>,
    core: CoreId,
    request: Request,
    reply: Reply,
) -> Result<bool, NoMemory>
    requires placed { is_placed request ≡ true }
    requires frame { reply ≢ ReplyOf.NoFrame }
    requires memory { reply ≢ ReplyOf.NoMemory }
    requires sound { AreSound steps.old.items }
    ensures one { IfOk result (λ led. led ≡ true → LeavesOne (map_of objects.now steps.old.items) core request
        reply (map_of objects.now steps.new.items)) }
    ensures sound { AreSound steps.new.items }
{
    let Some(addr) = place_of(reply) else {
        return Ok(true);
    };
    let led = lead_placed(objects, steps, core, request, addr)?;
    Ok(led)
}

// Leads a request that has this reply.
fn lead_answer<A: Allocator>(
    objects: &Objects<A>,
    steps: &mut Vec<MapChange, A>,
    core: CoreId,
    request: Request,
    reply: Reply,
) -> Result<bool, NoMemory>
    requires sound { AreSound steps.old.items }
    ensures one { IfOk result (λ led. led ≡ true → LeavesOne (map_of objects.now steps.old.items) core request
        reply (map_of objects.now steps.new.items)) }
    ensures sound { AreSound steps.new.items }
{
    if is_wanting(reply) {
        return Ok(true);
    }
    if is_placed(request) {
        return lead_open(objects, steps, core, request, reply);
    }
    lead_named(objects, steps, core, request, reply)?;
    Ok(true)
}

// Leads the copy of a page.
fn lead_copy<A: Allocator>(steps: &mut Vec<MapChange, A>, page: u64) -> Result<(), NoMemory>
    requires { AreSound steps.old.items }
    ensures items { OnOk result (steps.new.items ≡ steps.old.items ++ StepOf.Copy page ∷ []) }
    ensures sound { AreSound steps.new.items }
{
    steps.push(MapChange::Copy { page })?;
    Ok(())
}

// The request of the call with this number, from 1.
fn request_of(requests: &[Request], call: u64) -> Option<Request>
    ensures { result ≡ nth requests.now call }
{
    let at = call.checked_sub(1)?;
    let at = usize::try_from(at).ok()?;
    requests.get(at).copied()
}

// Leads the entry that a call has this reply.
fn lead_reply<A: Allocator>(
    objects: &Objects<A>,
    requests: &[Request],
    steps: &mut Vec<MapChange, A>,
    call: u64,
    core: CoreId,
    reply: Reply,
) -> Result<bool, NoMemory>
    requires sound { AreSound steps.old.items }
    ensures one { (entry : EntryOf) (step : ℕ) → entry ≡ AnswerOf step call core reply → IfOk result (λ led. led ≡ true
        → LeadsToOne requests.now (map_of objects.now steps.old.items) entry (map_of objects.now steps.new.items)) }
    ensures sound { AreSound steps.new.items }
{
    let Some(request) = request_of(requests, call) else {
        return Ok(true);
    };
    let led = lead_answer(objects, steps, core, request, reply)?;
    Ok(led)
}

// Leads an entry of a log.
fn lead_entry<A: Allocator>(
    objects: &Objects<A>,
    requests: &[Request],
    steps: &mut Vec<MapChange, A>,
    entry: Entry,
) -> Result<bool, NoMemory>
    requires sound { AreSound steps.old.items }
    ensures one { IfOk result (λ led. led ≡ true → LeadsToOne requests.now (map_of objects.now steps.old.items)
        entry (map_of objects.now steps.new.items)) }
    ensures sound { AreSound steps.new.items }
{
    match entry {
        Entry::Answer {
            step: _,
            call,
            core,
            reply,
        } => lead_reply(objects, requests, steps, call, core, reply),
        Entry::Detach {
            step: _,
            call: _,
            page,
        } => {
            lead_copy(steps, page)?;
            Ok(true)
        }
    }
}

/// The steps of the plain page map to which the log leads, with the requests of the calls begun. `None` where they can't be found,
/// which never comes. `Err` says that memory was refused.
pub(crate) fn lead_log<A: Allocator>(
    objects: &Objects<A>,
    requests: &[Request],
    log: &[Entry],
    alloc: A,
) -> Result<Option<Vec<MapChange, A>>, NoMemory>
    ensures { IfOk result (λ led. IfSome led (λ steps. AreOfLog objects.now requests.now log.now steps.items)) }
{
    let mut steps = Vec::new(alloc);
    'entries: for k in 0..log.len() {
        let entry = log[k];
        let led = lead_entry(objects, requests, &mut steps, entry)?;
        if !led {
            return Ok(None);
        }
    }
    Ok(Some(steps))
}
