//! The text of an order, which `audit` judges.

use crate::found::Order;
use audit_text::reading::{Said, read_declared, read_said};
use orders::Item;
use std::alloc::Allocator;
use trace_text::sign::halves;
use trace_text::words::next_word;
use trace_text::{Action, Line, LineText, push_address, push_reply, read_words};
use vm_base::page::PAGE_SIZE;
use vm_base::{CoreId, CoreSet, NoMemory, Reply, Request, page_of};

/// How many cores a space may have.
const CORES: usize = 64;

// A call as its text tells it: its core's word and its request, and behind its line's sign, or that of another line, its reply.
#[derive(Clone, Copy)]
struct Call<'a> {
    request: &'a [u8],
    reply: &'a [u8],
}

// The bytes without the spaces in front.
fn without_spaces(bytes: &[u8]) -> &[u8] {
    for at in 0..bytes.len() {
        if bytes[at] != b' ' {
            return &bytes[at..];
        }
    }
    bytes
}

// What stands behind the first word.
fn behind_word(line: &[u8]) -> &[u8] {
    match next_word(line) {
        Some((_, rest)) => without_spaces(rest),
        None => line,
    }
}

// The parts of a line on both sides of its sign.
fn call_of(line: &[u8]) -> Call<'_> {
    match halves(line) {
        Some((request, reply)) => Call { request, reply },
        None => Call {
            request: line,
            reply: line,
        },
    }
}

// The calls of a text so far, and the cores whose call waits, with the requests of each core's last call that did.
#[derive(Drop)]
struct Calls<'a, A: Allocator> {
    calls: Vec<Call<'a>, A>,
    open: CoreSet,
    waiting: Vec<&'a [u8], A>,
}

impl<'a, A: Allocator + Clone + Drop> Calls<'a, A> {
    // None, with a text that is another's.
    fn new(alloc: &A, none: &'a [u8]) -> Result<Calls<'a, A>, NoMemory> {
        Ok(Calls {
            calls: Vec::new(alloc.clone()?),
            open: CoreSet::empty(),
            waiting: vec![in alloc.clone()?; none; CORES]?,
        })
    }

    // A core's call begins to wait in this line.
    fn wait(&mut self, core: CoreId, line: &'a [u8]) {
        self.open = self.open.with(core);
        if let Some(place) = self.waiting.get_mut(usize::from(core.index())) {
            *place = call_of(line).request;
        }
    }

    // One call more.
    fn push(&mut self, call: Call<'a>) -> Result<(), NoMemory> {
        self.calls.push(call)?;
        Ok(())
    }

    // A core's call that waited has its reply in this line.
    fn end(&mut self, core: CoreId, line: &'a [u8]) -> Result<(), NoMemory> {
        let request = match self.waiting.get(usize::from(core.index())) {
            Some(request) => *request,
            None => line,
        };
        let reply = call_of(line).reply;
        self.open = self.open.without(core);
        self.push(Call { request, reply })
    }

    // The core of the call that waits of this number among those that do, and what it asks for.
    fn open_call(&self, number: usize) -> Option<(CoreId, &'a [u8])> {
        let mut left = self.open;
        for _ in 0..number {
            left = left.without(left.first()?);
        }
        let core = left.first()?;
        let request = *self.waiting.get(usize::from(core.index()))?;
        Some((core, request))
    }

    // Takes in the line of an event.
    fn add_event(&mut self, said: &Said, line: &'a [u8]) -> Result<(), NoMemory> {
        match said {
            Said::Answered(_) => self.push(call_of(line)),
            Said::Ends(core, _) => self.end(*core, line),
            Said::Waits(core, _) => {
                self.wait(*core, line);
                Ok(())
            }
            _ => Ok(()),
        }
    }

    // Takes in the line of a call or of an event.
    fn add(&mut self, line: &'a [u8]) -> Result<(), NoMemory> {
        match read_said(line) {
            Some(said) => self.add_event(&said, line),
            None => self.push(call_of(behind_word(behind_word(line)))),
        }
    }
}

// The calls of a text, in the order of their lines. Those in front go out.
fn split<'a, A: Allocator + Clone + Drop>(
    alloc: &A,
    out: &mut Vec<u8, A>,
    text: &'a [u8],
) -> Result<Calls<'a, A>, NoMemory> {
    let mut calls = Calls::new(alloc, text)?;
    for line in text.split(|byte| *byte == b'\n') {
        if read_declared(line).is_none() {
            calls.add(line)?;
        } else if !line.is_empty() {
            out.extend_from_slice(line)?;
            out.extend_from_slice(b"\n")?;
        }
    }
    Ok(calls)
}

// The word of a core without the mark that its call is finished.
fn without_mark(name: &[u8]) -> &[u8] {
    let count = name.len();
    if count > 0 && name[count - 1] == b'!' {
        return &name[..count - 1];
    }
    name
}

// The word of a call's core, and what it asks for, without the word `call`.
fn parts(request: &[u8]) -> (&[u8], &[u8]) {
    let Some((name, rest)) = next_word(request) else {
        return (request, request);
    };
    if let Some((word, args)) = next_word(rest) {
        if word == b"call".as_slice() {
            return (without_mark(name), without_spaces(args));
        }
    }
    (without_mark(name), without_spaces(rest))
}

// Appends the line of a call.
fn push_call<A: Allocator>(out: &mut Vec<u8, A>, call: &Call<'_>) -> Result<(), NoMemory> {
    let (name, asked) = parts(call.request);
    out.extend_from_slice(name)?;
    out.extend_from_slice(b"! ")?;
    out.extend_from_slice(asked)?;
    out.extend_from_slice(b" = ")?;
    out.extend_from_slice(call.reply)?;
    out.extend_from_slice(b"\n")?;
    Ok(())
}

// The page that a call stores to.
fn page_stored(call: &Call<'_>) -> Option<u64> {
    match read_words(call.request)? {
        Line::Now(_, Request::Store { addr, .. }) => Some(page_of(addr)),
        Line::Act(_, Action::Call(Request::Store { addr, .. })) => Some(page_of(addr)),
        _ => None,
    }
}

// Appends the line of a copy for a call.
fn push_copy<A: Allocator>(out: &mut Vec<u8, A>, call: &Call<'_>) -> Result<(), NoMemory> {
    let Some(page) = page_stored(call) else {
        return Ok(());
    };
    let (name, _) = parts(call.request);
    let mut line = LineText::new();
    line.push_str(" copy");
    push_address(&mut line, page.wrapping_mul(PAGE_SIZE));
    line.push_str("\n");
    out.extend_from_slice(name)?;
    out.extend_from_slice(line.as_str().as_bytes())?;
    Ok(())
}

// Appends the line of a call that waits and took effect with this reply. Where it found no memory it has no line.
fn push_open<A: Allocator>(
    out: &mut Vec<u8, A>,
    request: &[u8],
    reply: Reply,
) -> Result<(), NoMemory> {
    if matches!(reply, Reply::NoMemory) {
        return Ok(());
    }
    let mut told = LineText::new();
    push_reply(&mut told, reply);
    push_call(
        out,
        &Call {
            request,
            reply: told.as_str().as_bytes(),
        },
    )
}

// Appends the line of an item, of so many calls that were answered and others that wait, which have these replies.
fn push_item<A: Allocator + Clone + Drop>(
    out: &mut Vec<u8, A>,
    calls: &Calls<'_, A>,
    item: Item,
    replies: &[Reply],
) -> Result<(), NoMemory> {
    let number = item.call() as usize;
    let answered = calls.calls.len();
    if number >= answered {
        let Some((core, request)) = calls.open_call(number - answered) else {
            return Ok(());
        };
        let reply = replies.get(usize::from(core.index())).copied();
        return match item {
            Item::Reply(_) => push_open(out, request, reply.unwrap_or(Reply::NoMemory)),
            Item::Copy(_) => push_copy(
                out,
                &Call {
                    request,
                    reply: request,
                },
            ),
        };
    }
    let Some(call) = calls.calls.get(number) else {
        return Ok(());
    };
    match item {
        Item::Reply(_) => push_call(out, call),
        Item::Copy(_) => push_copy(out, call),
    }
}

/// The text of an order of the calls of a text, if there is one.
pub(crate) fn order_text<A: Allocator + Clone + Drop>(
    alloc: &A,
    text: &[u8],
    order: &Order<A>,
) -> Result<Vec<u8, A>, NoMemory> {
    let mut out = Vec::new(alloc.clone()?);
    if let Order::Of { items, replies, .. } = order {
        let calls = split(alloc, &mut out, text)?;
        for item in items.as_slice() {
            push_item(&mut out, &calls, *item, replies.as_slice())?;
        }
    }
    Ok(out)
}
