//! Orders that a search finds.

ghost use Rattle.std.specs.Prelude.{IfNone};
ghost use Rattle.orders_text.specs.Steps.{HasPlaces};
ghost use Rattle.overlapping.specs.Waiting.{NoneWaits};

use frames::{FileSpec, Objects};
use order_search::{Found, find_order};
use orders::Item;
use orders_text::clock::PendingCall;
use orders_text::{History, completed};
use std::alloc::Allocator;
use vm_base::{CoreSet, NoMemory, Reply, Request};

/// How many cores a space may have.
const CORES: usize = 64;

/// An order that may be one of a history, with the replies that each core's call may have that waits at its end, and the line that is told
/// where it is none; or just that line.
#[derive(Drop)]
pub(crate) enum Order<A: Allocator> {
    Of {
        items: Vec<Item, A>,
        replies: Vec<Reply, A>,
        line: u64,
    },
    None(u64),
}

// The files of a history once more.
fn objects_of<A: Allocator + Clone + Drop>(
    alloc: &A,
    history: &History<A>,
) -> Result<Objects<A>, NoMemory> {
    let mut files = Vec::new(alloc.clone()?);
    for file in history.declaration.files.as_slice() {
        if files.len() < 16 {
            let mut bytes = Vec::new(alloc.clone()?);
            bytes.extend_from_slice(file.bytes.as_slice())?;
            files.push(FileSpec {
                mode: file.mode,
                bytes,
            })?;
        }
    }
    let objects = Objects::new(alloc.clone()?, files)?;
    Ok(objects)
}

/// The number of a call's line.
pub(crate) fn line_of<A: Allocator>(history: &History<A>, call: usize) -> u64 {
    match history.lines.get(call) {
        Some(line) => *line,
        None => 0,
    }
}

// The reply of a call that takes effect, as far as its request tells it.
fn effect_of(request: Request) -> Reply {
    match request {
        Request::Mmap { addr, .. } => Reply::Mapped(addr),
        Request::Munmap { .. } | Request::Mprotect { .. } | Request::Store { .. } => Reply::Done,
        Request::Load { .. } | Request::Fetch { .. } => Reply::NoMemory,
    }
}

/// No reply is known of any core's call that waits: it finds no memory.
pub(crate) fn no_replies<A: Allocator>(alloc: A) -> Result<Vec<Reply, A>, NoMemory> {
    let replies = vec![in alloc; Reply::NoMemory; CORES]?;
    Ok(replies)
}

// The replies of the calls that wait, if they take effect.
fn effects<A: Allocator + Clone + Drop>(
    alloc: &A,
    history: &History<A>,
) -> Result<Vec<Reply, A>, NoMemory> {
    let mut replies = no_replies(alloc.clone()?)?;
    for core in 0..CORES {
        if let Some(Some(begun)) = history.waiting.get(core).copied() {
            if let Some(place) = replies.get_mut(core) {
                *place = effect_of(begun.request);
            }
        }
    }
    Ok(replies)
}

// The calls of these cores found no memory.
fn lose(replies: &mut [Reply], lost: CoreSet) {
    let mut left = lost;
    for _ in 0..64u8 {
        let Some(core) = left.first() else {
            return;
        };
        if let Some(place) = replies.get_mut(usize::from(core.index())) {
            *place = Reply::NoMemory;
        }
        left = left.without(core);
    }
}

/// A core whose call waits at a history's end, if there is one.
pub(crate) fn waiting_core(waiting: &[Option<PendingCall>]) -> Option<usize>
    ensures { IfNone result (NoneWaits waiting.now) }
{
    'cores: for core in 0..waiting.len() {
        if waiting[core].is_some() {
            return Some(core);
        }
    }
    None
}

// What a search finds of a history's calls, and those that wait at its end, which have these replies where they take effect. The calls
// are copied only where some wait: they are most of what a history takes.
fn find<A: Allocator + Clone + Drop>(
    alloc: &A,
    history: &History<A>,
    any_place: bool,
    replies: &[Reply],
) -> Result<Found<A>, NoMemory>
    requires { HasPlaces history.now }
{
    let objects = objects_of(alloc, history)?;
    let answered = history.calls.len();
    if waiting_core(history.waiting.as_slice()).is_none() {
        return find_order(
            alloc,
            &objects,
            any_place,
            history.calls.as_slice(),
            answered,
        );
    }
    let calls = completed(alloc, history, replies)?;
    find_order(alloc, &objects, any_place, calls.as_slice(), answered)
}

/// Searches an order of a history's calls, and of those that wait at its end as far as they took effect.
pub(crate) fn search<A: Allocator + Clone + Drop>(
    alloc: &A,
    history: &History<A>,
    any_place: bool,
) -> Result<Order<A>, NoMemory>
    requires { HasPlaces history.now }
{
    let mut replies = effects(alloc, history)?;
    match find(alloc, history, any_place, replies.as_slice())? {
        Found::Order(items, lost) => {
            lose(&mut replies, lost);
            Ok(Order::Of {
                items,
                replies,
                line: line_of(history, history.calls.len().saturating_sub(1)),
            })
        }
        Found::Stuck(call) | Found::Full(call) => Ok(Order::None(line_of(history, call))),
    }
}
