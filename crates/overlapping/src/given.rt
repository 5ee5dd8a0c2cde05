//! An order that a text has: lines `cC! REQ = REPLY`, and `cC copy ADDR` for copies, as `audit` judges them. Those of one core are its
//! calls in the order of their begins. A call that waits at the history's end has a line only where it took effect, with its reply there.
ghost use Rattle.orders_text.specs.Steps.{HasPlaces};

use crate::found::{Order, line_of, no_replies};
use audit::Call;
use audit_text::reading::read_declared;
use audit_text::replies::read_reply;
use orders::{Item, Timed};
use orders_text::{History, completed};
use std::alloc::Allocator;
use trace_text::number::read_number;
use trace_text::sign::halves;
use trace_text::words::next_word;
use trace_text::{Line, read_words};
use vm_base::{CoreId, NoMemory, Reply};

/// How many cores a space may have.
const CORES: usize = 64;

// The calls of each core by their begins, and which of them is its next.
#[derive(Drop)]
struct Queues<A: Allocator> {
    calls: Vec<(u8, u64, usize), A>,
    next: Vec<usize, A>,
}

impl<A: Allocator + Clone + Drop> Queues<A> {
    // All calls, none of which was taken.
    fn new(alloc: &A, calls: &[Timed]) -> Result<Queues<A>, NoMemory> {
        let mut sorted = Vec::new(alloc.clone()?);
        for at in 0..calls.len() {
            sorted.push((calls[at].call.core.index(), calls[at].begin, at))?;
        }
        sorted.sort_unstable();
        let mut next = vec![in alloc.clone()?; 0usize; CORES]?;
        for back in 0..sorted.len() {
            let at = sorted.len() - 1 - back;
            let (core, _, _) = sorted[at];
            if let Some(place) = next.get_mut(usize::from(core)) {
                *place = at;
            }
        }
        Ok(Queues {
            calls: sorted,
            next,
        })
    }

    // The next call of a core.
    fn first(&self, core: CoreId) -> Option<usize> {
        let at = *self.next.get(usize::from(core.index()))?;
        match self.calls.get(at) {
            Some((of, _, call)) if *of == core.index() => Some(*call),
            _ => None,
        }
    }

    // Takes the next call of a core.
    fn take(&mut self, core: CoreId) {
        if let Some(place) = self.next.get_mut(usize::from(core.index())) {
            *place = place.saturating_add(1);
        }
    }

    // The item that a line tells, if it is one of the next calls. So many were answered; the others wait, and their replies are noted.
    fn item(
        &mut self,
        history: &[Timed],
        answered: usize,
        replies: &mut [Reply],
        line: &[u8],
    ) -> Option<Item> {
        if let Some(core) = read_copy(line) {
            let call = self.first(core)?;
            return Some(Item::Copy(item_number(call)));
        }
        let call = read_call(line)?;
        let first = self.first(call.core)?;
        let timed = history.get(first).copied()?;
        if (first < answered && timed.call != call) || timed.call.request != call.request {
            return None;
        }
        if first >= answered {
            if let Some(place) = replies.get_mut(usize::from(call.core.index())) {
                *place = call.reply;
            }
        }
        self.take(call.core);
        Some(Item::Reply(item_number(first)))
    }

    // Adds the calls that are left of those that wait.
    fn finish<B: Allocator>(
        &self,
        answered: usize,
        items: &mut Vec<Item, B>,
    ) -> Result<(), NoMemory> {
        for core in 0..64u8 {
            if let Some(call) = self.first(CoreId::new(core)) {
                if call >= answered {
                    items.push(Item::Reply(item_number(call)))?;
                }
            }
        }
        Ok(())
    }
}

// The core that a word names.
fn core_of(word: &[u8]) -> Option<CoreId> {
    let [b'c', digits @ ..] = word else {
        return None;
    };
    let number = read_number(digits)?;
    if number < 64 {
        return Some(CoreId::new(number as u8));
    }
    None
}

// The core for whose call a line tells a copy.
fn read_copy(line: &[u8]) -> Option<CoreId> {
    let (name, rest) = next_word(line)?;
    let (word, _) = next_word(rest)?;
    if word == b"copy".as_slice() {
        return core_of(name);
    }
    None
}

// The call that a line tells.
fn read_call(line: &[u8]) -> Option<Call> {
    let (front, text) = halves(line)?;
    let Line::Now(core, request) = read_words(front)? else {
        return None;
    };
    let reply = read_reply(text)?;
    Some(Call {
        core,
        request,
        reply,
    })
}

// The number of a call in an order.
fn item_number(call: usize) -> u32 {
    if call < 0xffff_ffff {
        call as u32
    } else {
        0xffff_ffff
    }
}

// Tells whether a line tells nothing of calls.
fn is_front(line: &[u8]) -> bool {
    read_declared(line).is_some()
}

/// The order that a text has of a history's calls, as far as its lines tell calls of it.
pub(crate) fn given_order<A: Allocator + Clone + Drop>(
    alloc: &A,
    history: &History<A>,
    text: &[u8],
) -> Result<Order<A>, NoMemory>
    requires { HasPlaces history.now }
{
    let answered = history.calls.len();
    let mut replies = no_replies(alloc.clone()?)?;
    let all = completed(alloc, history, replies.as_slice())?;
    let calls = all.as_slice();
    let mut queues = Queues::new(alloc, calls)?;
    let mut items = Vec::new(alloc.clone()?);
    let mut last = 0usize;
    for line in text.split(|byte| *byte == b'\n') {
        if is_front(line) {
            continue;
        }
        let Some(item) = queues.item(calls, answered, &mut replies, line) else {
            return Ok(Order::None(line_of(history, last)));
        };
        let call = item.call() as usize;
        if call < answered {
            last = call;
        }
        items.push(item)?;
    }
    queues.finish(answered, &mut items)?;
    Ok(Order::Of {
        items,
        replies,
        line: line_of(history, last),
    })
}
