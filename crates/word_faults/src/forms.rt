//! The forms of lines, and how far a line is one of them. The grammar isn't told anew: the reader of lines is asked whether some line
//! goes on from the first words.
ghost use Rattle.std.specs.Prelude.{◌<◌, ◌≤◌};

use trace_text::read_line;
use word_parts::pointing::{Text, behind, front, word_at, word_start, words_in};

/// Which lines a text has.
#[derive(Clone, Copy)]
pub enum TextKind {
    /// Those of a trace.
    Trace,
    /// Those of a script.
    Script,
    /// Notes.
    Notes,
    /// Calls with their replies.
    Replies,
    /// The same, but that each line is a call of a history, after its times.
    Timed,
}

// The lines of a trace: the names of their words as help has them, and such a line.
const FORMS: &str = "\
vm CORES FRAMES CALLS = vm 1 1 1
file N MODE LEN SEED = file 0 r 0 0
fold ADDR = fold 0
cC! mmap ADDR LEN PROT FLAGS FILE OFF = c0! mmap 0 0 --- - 0 0
cC! munmap ADDR LEN = c0! munmap 0 0
cC! mprotect ADDR LEN PROT = c0! mprotect 0 0 ---
cC! load ADDR = c0! load 0
cC! store ADDR BYTE = c0! store 0 0
cC! fetch ADDR = c0! fetch 0
cC call mmap ADDR LEN PROT FLAGS FILE OFF = c0 call mmap 0 0 --- - 0 0
cC call munmap ADDR LEN = c0 call munmap 0 0
cC call mprotect ADDR LEN PROT = c0 call mprotect 0 0 ---
cC call load ADDR = c0 call load 0
cC call store ADDR BYTE = c0 call store 0 0
cC call fetch ADDR = c0 call fetch 0
cC go = c0 go
cC finish = c0 finish
cC take = c0 take
cC flush = c0 flush
cC review = c0 review
cC walk ADDR = c0 walk 0
cC evict ADDR = c0 evict 0
cC frame F = c0 frame 0
cC guess ADDR = c0 guess 0
cC whole = c0 whole
cC giveup = c0 giveup";

// How many words a line has at most.
const MOST_WORDS: usize = 9;

// What the names of words stand for, where the name isn't the word.
const MEANINGS: &str = "\
CORES: a number below 2^64, decimal, or hexadecimal after 0x
FRAMES: a number below 2^64, decimal, or hexadecimal after 0x
CALLS: a number below 2^64, decimal, or hexadecimal after 0x
N: the file's number, decimal, or hexadecimal after 0x
MODE: r, w or rw
LEN: a number below 2^64, decimal, or hexadecimal after 0x
SEED: a number up to 255
cC: C is a core's number, 0 to 63, without leading zeros
ADDR: a number below 2^64, decimal, or hexadecimal after 0x
PROT: rwx, with - in place of each right that isn't given
FLAGS: - or letters of p, s, f and a, each at most once
FILE: a file's number; only where FLAGS has a may FILE and OFF be left out
OFF: a number below 2^64, decimal, or hexadecimal after 0x
BYTE: a number up to 255
F: a frame's number, decimal, or hexadecimal after 0x";

// What the forms begin with that declare a space.
const DECLARED: &[&str] = &["vm", "file"];

// What the forms of events begin with that texts of these kinds have.
const OF_SCRIPTS: &[&str] = &["cC!", "cC flush", "cC review"];

const OF_HISTORIES: &[&str] = &["cC!"];

const OF_NOTES: &[&str] = &[
    "fold",
    "cC call",
    "cC go",
    "cC take",
    "cC flush",
    "cC review",
    "cC walk",
    "cC evict",
    "cC frame",
    "cC guess",
    "cC whole",
    "cC giveup",
];

// Whether the form begins with one of these.
fn begins_with(form: &str, fronts: &[&str]) -> bool {
    for front in fronts {
        if form.starts_with(*front) {
            return true;
        }
    }
    false
}

// Whether a text of this kind may have events of this form, or lines that declare a space.
fn may_have(kind: TextKind, form: &str) -> bool {
    match kind {
        TextKind::Trace | TextKind::Replies => true,
        TextKind::Script => begins_with(form, DECLARED) || begins_with(form, OF_SCRIPTS),
        TextKind::Timed => begins_with(form, OF_HISTORIES),
        TextKind::Notes => begins_with(form, OF_NOTES),
    }
}

// Whether the first words are those of some line: the example's other words are put after them.
fn goes_on(line: &[u8], count: usize, example: &[u8]) -> bool {
    let mut text = Text::new();
    let is_whole = text
        .try_extend_from_slice(front(line, word_start(line, count)))
        .is_ok()
        && text.try_push(b' ').is_ok()
        && text
            .try_extend_from_slice(behind(example, word_start(example, count)))
            .is_ok();
    is_whole && read_line(&text).is_some()
}

// The names and the example of a form.
fn parts_of(form: &str) -> (&[u8], &[u8]) {
    match form.split_once(" = ") {
        Some((names, example)) => (names.as_bytes(), example.as_bytes()),
        None => (b"", b""),
    }
}

// Whether the word with this index may stand in the form: one that has no other name is the form's own.
fn fits(line: &[u8], index: usize, names: &[u8], example: &[u8]) -> bool
    requires { index < 9 }
{
    let word = word_at(line, index);
    let shown = word_at(example, index);
    let is_own = word_at(names, index) == shown;
    !word.is_empty()
        && !shown.is_empty()
        && (!is_own || word == shown)
        && goes_on(line, index + 1, example)
}

// How many of the first words are right in this form.
fn reach_of(line: &[u8], form: &str) -> usize
    ensures { result ≤ 9 }
{
    let (names, example) = parts_of(form);
    for index in 0..MOST_WORDS {
        if !fits(line, index, names, example) {
            return index;
        }
    }
    MOST_WORDS
}

/// How many of the first words are right in a text of this kind.
pub fn reach(kind: TextKind, line: &[u8]) -> usize {
    let mut most = 0;
    for form in FORMS.split('\n') {
        if may_have(kind, form) {
            most = most.max(reach_of(line, form));
        }
    }
    most
}

/// Whether it is a whole line of a text of this kind, if nothing more is to stand after it.
pub fn is_line(kind: TextKind, line: &[u8]) -> bool {
    read_line(line).is_some() && reach(kind, line) == words_in(line)
}

// The name, and what it stands for.
fn meaning_of(name: &[u8]) -> &[u8] {
    if name.is_empty() {
        return b"no more words";
    }
    for row in MEANINGS.split('\n') {
        if row.as_bytes().starts_with(name) && row.as_bytes().get(name.len()) == Some(&b':') {
            return row.as_bytes();
        }
    }
    name
}

/// Adds what may stand in place of the word with this index, each but once.
pub fn add_expected(text: &mut Text, kind: TextKind, line: &[u8], index: usize) {
    let mut is_first = true;
    for form in FORMS.split('\n') {
        let (names, _) = parts_of(form);
        let meaning = meaning_of(word_at(names, index));
        if may_have(kind, form) && reach_of(line, form) == index && !text.ends_with(meaning) {
            if !is_first {
                let _ = text.try_extend_from_slice(b", ");
            }
            let _ = text.try_extend_from_slice(meaning);
            is_first = false;
        }
    }
}
