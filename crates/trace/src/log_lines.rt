//! The lines of a log, one behind another, in a buffer of fixed size that is handed on when it is full.
//!
//! Steps and calls are numbered in order, so that most numbers begin as the one before: the digits
//! before the last two are kept, and copied as this many bytes whatever their number is.
ghost use Rattle.std.specs.Prelude.{◌≡◌, ◌+◌, ◌*◌, ◌/◌, ◌%◌, ◌<◌, ◌≤◌, [], ◌∷◌, ◌++◌, decimal, length, take};
ghost use Rattle.trace_text.specs.Printing.{text_of};

use trace_text::lists::write_detach;
use trace_text::printing::{LineText, push_reply};
use vm_base::{Entry, Reply};

/// How many bytes there is room for: more than a writer's buffer has, which then copies none of them.
const ROOM: usize = 16384;

/// How many of them are left free for one more line.
const LONGEST_LINE: usize = 256;

/// How many digits a number has at the most.
const MOST_DIGITS: usize = 20;

// The two decimal digits of each number below 100, one number behind another.
const PAIRS: [u8; 200] = [
    48, 48, 48, 49, 48, 50, 48, 51, 48, 52, 48, 53, 48, 54, 48, 55, 48, 56, 48, 57, 49, 48, 49, 49,
    49, 50, 49, 51, 49, 52, 49, 53, 49, 54, 49, 55, 49, 56, 49, 57, 50, 48, 50, 49, 50, 50, 50, 51,
    50, 52, 50, 53, 50, 54, 50, 55, 50, 56, 50, 57, 51, 48, 51, 49, 51, 50, 51, 51, 51, 52, 51, 53,
    51, 54, 51, 55, 51, 56, 51, 57, 52, 48, 52, 49, 52, 50, 52, 51, 52, 52, 52, 53, 52, 54, 52, 55,
    52, 56, 52, 57, 53, 48, 53, 49, 53, 50, 53, 51, 53, 52, 53, 53, 53, 54, 53, 55, 53, 56, 53, 57,
    54, 48, 54, 49, 54, 50, 54, 51, 54, 52, 54, 53, 54, 54, 54, 55, 54, 56, 54, 57, 55, 48, 55, 49,
    55, 50, 55, 51, 55, 52, 55, 53, 55, 54, 55, 55, 55, 56, 55, 57, 56, 48, 56, 49, 56, 50, 56, 51,
    56, 52, 56, 53, 56, 54, 56, 55, 56, 56, 56, 57, 57, 48, 57, 49, 57, 50, 57, 51, 57, 52, 57, 53,
    57, 54, 57, 55, 57, 56, 57, 57,
];

// Writes the piece at the place, and answers the place after it.
#[inline(always)]
fn put(bytes: &mut [u8], at: usize, piece: &[u8]) -> usize
    requires { at + length piece.now ≤ length bytes.old }
    ensures text { take result bytes.new ≡ take at bytes.old ++ piece.now }
    ensures end { result ≡ at + length piece.now }
{
    let end = at + piece.len();
    bytes[at..end].copy_from_slice(piece);
    end
}

// Writes the byte in decimal digits.
#[inline(always)]
fn put_byte(bytes: &mut [u8], at: usize, byte: u8) -> usize
    requires { at + 3 ≤ length bytes.old }
    ensures text { take result bytes.new ≡ take at bytes.old ++ decimal byte }
    ensures end { result ≤ at + 3 }
{
    if byte >= 100 {
        let digits = [b'0' + byte / 100, b'0' + byte / 10 % 10, b'0' + byte % 10];
        put(bytes, at, &digits)
    } else if byte >= 10 {
        let digits = [b'0' + byte / 10, b'0' + byte % 10];
        put(bytes, at, &digits)
    } else {
        put(bytes, at, &[b'0' + byte])
    }
}

// Writes the two decimal digits of a number below 100.
#[inline(always)]
fn put_pair(bytes: &mut [u8], at: usize, number: u64) -> usize
    requires room { at + 2 ≤ length bytes.old }
    requires below { number < 100 }
    ensures text { take result bytes.new ≡ take at bytes.old ++ (48 + number / 10) ∷ (48 + number % 10) ∷ [] }
    ensures end { result ≡ at + 2 }
{
    let pair = 2 * number as usize;
    let tens = PAIRS[pair];
    let ones = PAIRS[pair + 1];
    bytes[at] = tens;
    bytes[at + 1] = ones;
    at + 2
}

// The digits of numbers before their last two, at the front of an array that is copied whole.
#[derive(Clone, Copy)]
struct Leading {
    number: u64,
    /// The least number that has these before its last two.
    first: u64,
    digits: [u8; MOST_DIGITS],
    len: usize,
    ghost hundreds: { first ≡ 100 * number },
    ghost fits: { len ≤ 20 },
    ghost spelled: { take len digits ≡ decimal number },
}

impl Leading {
    // Those of this number.
    fn of(whole: u64) -> Leading
        ensures { result.number ≡ whole / 100 }
    {
        let number = whole / 100;
        let mut buffer = itoa::Buffer::new();
        let text = buffer.format(number);
        let mut digits = [0; MOST_DIGITS];
        let len = put(&mut digits, 0, text.as_bytes());
        Leading {
            number,
            first: 100 * number,
            digits,
            len,
        }
    }

    // Has those of this number from now on.
    #[inline(never)]
    fn renew(&mut self, whole: u64)
        ensures { self.new.number ≡ whole / 100 }
    {
        *self = Leading::of(whole);
    }

    // Has those of this number from now on, which may begin as the one before, and answers what its last two digits say. That
    // one test is enough takes a number above those.
    #[inline(always)]
    fn last_two(&mut self, whole: u64) -> u64
        requires { 100 ≤ whole }
        ensures leading { self.new.number ≡ whole / 100 }
        ensures last { result ≡ whole % 100 }
    {
        let last = whole.wrapping_sub(self.first);
        if last < 100 {
            return last;
        }
        self.renew(whole);
        whole - self.first
    }

    // Writes the digits, and whatever follows them in the array.
    #[inline(always)]
    fn put_into(&self, bytes: &mut [u8], at: usize) -> usize
        requires { at + 20 ≤ length bytes.old }
        ensures text { take result bytes.new ≡ take at bytes.old ++ decimal self.now.number }
        ensures end { result ≤ at + 20 }
    {
        let _ = put(bytes, at, &self.digits);
        at + self.len
    }
}

// Writes the number in decimal digits, where one before may have begun with the same.
#[inline(always)]
fn put_number(bytes: &mut [u8], at: usize, leading: &mut Leading, number: u64) -> usize
    requires { at + 22 ≤ length bytes.old }
    ensures text { take result bytes.new ≡ take at bytes.old ++ decimal number }
    ensures end { result ≤ at + 22 }
{
    if number < 100 {
        return put_byte(bytes, at, number as u8);
    }
    let last = leading.last_two(number);
    let end = leading.put_into(bytes, at);
    put_pair(bytes, end, last)
}

// Writes a reply that isn't looked for first.
#[inline(never)]
fn put_other_reply(bytes: &mut [u8], at: usize, reply: Reply, text: &mut LineText) -> usize
    requires { at + 20 ≤ length bytes.old }
    ensures text { take result bytes.new ≡ take at bytes.old ++ text_of reply }
    ensures end { result ≤ at + 20 }
{
    text.clear();
    push_reply(text, reply);
    put(bytes, at, text.as_str().as_bytes())
}

// Writes the reply as a trace's output has it.
#[inline(always)]
fn put_reply(bytes: &mut [u8], at: usize, reply: Reply, text: &mut LineText) -> usize
    requires { at + 20 ≤ length bytes.old }
    ensures text { take result bytes.new ≡ take at bytes.old ++ text_of reply }
    ensures end { result ≤ at + 20 }
{
    match reply {
        Reply::Byte(byte) => put_byte(bytes, at, byte),
        Reply::Done => put(bytes, at, b"done"),
        _ => put_other_reply(bytes, at, reply, text),
    }
}

/// Lines of the log that were not handed on yet.
#[derive(Drop)]
pub struct LogLines {
    bytes: [u8; ROOM],
    len: usize,
    /// The last step, without its last two digits.
    steps: Leading,
    /// The same of the last call.
    calls: Leading,
    ghost fits: { len ≤ 16384 },
}

// Zeros, where lines will be.
fn blank() -> [u8; ROOM] {
    [0; ROOM]
}

impl LogLines {
    ghost use Rattle.std.specs.Prelude.{◌≡◌, ◌++◌, [], false};
    ghost use Rattle.trace_text.specs.Lists.{answer_line, entry_text};
    ghost use Rattle.trace.specs.LogLines.{HasRoom, so_far};

    /// No line yet.
    pub fn new() -> LogLines
        ensures text { so_far result ≡ [] }
        ensures room { HasRoom result }
    {
        LogLines {
            bytes: blank(),
            len: 0,
            steps: Leading::of(0),
            calls: Leading::of(0),
        }
    }

    /// Whether they have to be handed on before one more is added.
    #[inline(always)]
    pub fn is_full(&self) -> bool
        ensures { result ≡ false → HasRoom self.now }
    {
        self.len + LONGEST_LINE > ROOM
    }

    /// The lines.
    pub fn as_bytes(&self) -> &[u8]
        ensures { result.now ≡ so_far self.now }
    {
        &self.bytes[..self.len]
    }

    /// Forgets the lines.
    pub fn clear(&mut self)
        ensures text { so_far self.new ≡ [] }
        ensures room { HasRoom self.new }
    {
        self.len = 0;
    }

    // The line of an answer.
    #[inline(always)]
    fn push_answer(&mut self, step: u64, call: u64, reply: Reply, text: &mut LineText)
        requires { HasRoom self.old }
        ensures { so_far self.new ≡ so_far self.old ++ answer_line step call reply }
    {
        let step_at = put(&mut self.bytes, self.len, b"log ");
        let step_end = put_number(&mut self.bytes, step_at, &mut self.steps, step);
        let call_at = put(&mut self.bytes, step_end, b" call ");
        let call_end = put_number(&mut self.bytes, call_at, &mut self.calls, call);
        let reply_at = put(&mut self.bytes, call_end, b" ");
        let reply_end = put_reply(&mut self.bytes, reply_at, reply, text);
        self.len = put(&mut self.bytes, reply_end, b"\n");
    }

    /// Adds the line of an entry, for which there is room. The text is where rare ones are made.
    #[inline(always)]
    pub fn push(&mut self, entry: Entry, text: &mut LineText)
        requires { HasRoom self.old }
        ensures { so_far self.new ≡ so_far self.old ++ entry_text entry }
    {
        match entry {
            Entry::Answer {
                step,
                call,
                reply,
                ..
            } => self.push_answer(step, call, reply, text),
            Entry::Detach { step, page, .. } => {
                write_detach(text, step, page);
                self.len = put(&mut self.bytes, self.len, text.as_str().as_bytes());
            }
        }
    }
}
