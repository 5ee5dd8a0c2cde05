//! Each read that fails is told, and each write that fails, takes no byte, or isn't handed on; what went out before is a front of
//! what goes out where none fails.
use crate::streams::{AMPLE, Limits, Ran, run_words, text_of};
use std::alloc::Global;
use std::sync::Wait;
use std::thread::Threads;
use word_help::{Topic, page};
use word_parts::input::Files;

// Words, and below them what they read, with `; ` between its lines.
const TEXTS: &str = "\
radixvm run
vm 1 4; c0! mmap 0x10000 4096 rw- pfa; c0! load 0x10000

radixvm run --log
vm 1 4; c0! mmap 0x10000 4096 rw- pfa; c0! load 0x10000

radixvm run --echo
vm 1 4; c0! mmap 0x10000 4096 rw- pfa; c0! load 0x10000

radixvm run --summary
vm 1 4; c0! load 0

radixvm run --brief
vm 1 4; c0! load 0

radixvm maps
vm 1 4; c0! mmap 0x10000 4096 rw- pfa; c0! mmap 0x20000 4096 rw- pfa

radixvm certify
vm 1 1 4096; 0 c0 call load 0x0 = step; 1 c0 go = step; 2 c0 go = segv maperr

radixvm certify
vm 1 1 4096; 0 c0 call load 0x0 = step; 1 c0 go = step; 2 c0 go = done

radixvm live
vm 1 1; c0! load 0

radixvm live --certify
vm 1 1; c0! load 0

radixvm live --shared
vm 1 1; c0! load 0

radixvm import --from-empty
10  mmap(NULL, 8192, PROT_READ, MAP_PRIVATE|MAP_ANONYMOUS, -1, 0) = 0x7f0000000000; 10  brk(NULL) = 0x5568290e4000

radixvm import --lackey
I  00401000,3;  M 00500010,8

radixvm audit
vm 1 4; c0! mmap 0x10000 4096 rw- pfa = 0x10000; c0! store 0x10004 41 = done

radixvm audit
vm 1 4; c0! mmap 0x10000 4096 rw- pfa = 0x10000; c0! load 0x10004 = 40

radixvm picture
vm 1 4; c0! mmap 0x10000 4096 rw- pfa; c0! load 0x10000

radixvm picture --lives
vm 1 4; c0! mmap 0x10000 4096 rw- pfa

radixvm litmus --picture 1
vm 1 4; together; c0! load 0x10000";

// Words that read nothing.
const WORDS: &str = "\
radixvm --help
radixvm --version
radixvm help trace";

// Whether this fault is told, with this status, and a front of all that goes out has gone out.
fn tells(ran: &Ran, fault: &[u8], status: u8, all: &Ran) -> bool {
    ran.errors.as_slice() == fault && ran.status == status && all.out.starts_with(&ran.out)
}

// What is told of a read that fails, which the streams let fail for no reason that has a name.
const READ_FAILED: &[u8] = b"radixvm: standard input: read failed: other error\n";

// What is told of a write that fails or takes no byte. Of a reader that has gone nothing is.
fn write_failed(limits: Limits) -> &'static [u8] {
    if limits.is_closed {
        return b"";
    }
    if limits.fails {
        return b"radixvm: standard output: write failed: no storage space\n";
    }
    b"radixvm: standard output: write failed\n"
}

// Whether each read that fails is told, that of the end too.
fn tells_of_reads<T: Files + Threads + Wait + Sync>(
    (alloc, rt): (Global, &T),
    words: &str,
    input: &[u8],
) -> bool {
    let all = run_words((alloc, rt), &alloc, words, input, AMPLE);
    for reads in 0..=input.len() as u64 {
        let limits = Limits { reads, ..AMPLE };
        let ran = run_words((alloc, rt), &alloc, words, input, limits);
        if !tells(&ran, READ_FAILED, 3, &all) {
            return false;
        }
    }
    all.status < 2
}

// Whether a write that isn't taken is told.
fn tells_of_write<T: Files + Threads + Wait + Sync>(
    (alloc, rt): (Global, &T),
    words: &str,
    input: &[u8],
    limits: Limits,
    all: &Ran,
) -> bool {
    let ran = run_words((alloc, rt), &alloc, words, input, limits);
    let status = if limits.is_closed { 141 } else { 3 };
    tells(&ran, write_failed(limits), status, all)
}

// Whether each write that isn't taken is told, and a failing flush.
fn tells_of_writes<T: Files + Threads + Wait + Sync>(
    (alloc, rt): (Global, &T),
    words: &str,
    input: &[u8],
) -> bool {
    let all = run_words((alloc, rt), &alloc, words, input, AMPLE);
    for at in 0..all.writes.saturating_mul(2) {
        let limits = Limits {
            writes: at / 2,
            fails: at % 2 == 0,
            ..AMPLE
        };
        if !tells_of_write((alloc, rt), words, input, limits, &all) {
            return false;
        }
    }
    let closed = Limits {
        is_closed: true,
        ..AMPLE
    };
    all.status < 2 && all.writes > 0 && tells_of_write((alloc, rt), words, input, closed, &all)
}

// Whether reads that fail are told of the row's text, and writes.
fn is_told<T: Files + Threads + Wait + Sync>((alloc, rt): (Global, &T), row: &str) -> bool {
    let Some((words, text)) = row.split_once('\n') else {
        return false;
    };
    match text_of(alloc, text) {
        Some(input) => {
            tells_of_reads((alloc, rt), words, &input)
                && tells_of_writes((alloc, rt), words, &input)
        }
        None => false,
    }
}

#[test]
fn failing_streams(rt: HostRuntime) {
    for row in TEXTS.split("\n\n") {
        assert!(rt; is_told((rt.alloc(), &rt), row));
    }
}

#[test]
fn help_unwritten(rt: HostRuntime) {
    for words in WORDS.split('\n') {
        assert!(rt; tells_of_writes((rt.alloc(), &rt), words, b""));
    }
}

fn is_narrow(page: &str) -> bool {
    for line in page.split('\n') {
        if line.len() > 79 {
            return false;
        }
    }
    true
}

#[test]
fn help_fits_into_79_columns(rt: HostRuntime) {
    for topic in [
        Topic::Overview,
        Topic::Run,
        Topic::Trace,
        Topic::Outcomes,
        Topic::Log,
        Topic::Maps,
        Topic::Faults,
        Topic::Cores,
        Topic::Notes,
        Topic::Threads,
        Topic::Import,
        Topic::Audit,
        Topic::Picture,
        Topic::State,
        Topic::Page,
        Topic::Litmus,
    ] {
        assert!(rt; is_narrow(page(topic)));
    }
}
