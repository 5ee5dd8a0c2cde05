//! Cases of data: what the program writes for words and an input, and its status.
//!
//! The rows stand in the files of data/ that this program's words name. Each is run through the program's own
//! library; told are how many there are, and which come to something else.
//!
//! - `row`, `text`: a row is run and compared; `heap_tests`: heaps that are too small; `stream_tests`, `streams`:
//!   streams that fail.
//!
//! A file is lines of ASCII, the first a comment. Empty lines, and those that begin with `#!`, say nothing. A row begins with
//! a line `== WORDS`, of the words of a command line, or of several (`== run == maps`), which have to come to the same. The
//! lines behind it are standard input. Then come parts, each behind a line of its own; what no part names is nothing, or 0:
//!
//! - `-- out` or `-- err`, and the lines of standard output or error; `-- out begins`, and the lines that it begins with;
//! - `-- out has N TEXT`, where TEXT stands in it just N times, and `-- err has N TEXT`;
//! - `-- status N`.
//!
//! In all of these `\xHH` is a byte, and `\.` nothing, so that `\.` alone is an empty line or word. A line that ends with `\c`
//! has no newline. A line `\*N TEXT` is TEXT N times. Words name files of data/, too. Of the words, `@input`, `@output` and `@errors` aren't
//! the program's: they say that standard input, output or error is a terminal, and `@NO_COLOR` that this variable is set.
//!
//! The tests run words where a read, a write or an allocation fails, each in turn.
#![tactic(auto)]

#[cfg(test)]
mod heap_tests;
mod row;
#[cfg(test)]
mod stream_tests;
#[cfg(test)]
mod streams;
mod text;

use crate::row::run_row;
use std::alloc::Global;
use std::env;
use std::io::Write;
use std::process::ExitCode;
use std::sync::Wait;
use std::thread::Threads;
use trace_io::source::{Counted, read_all};
use word_parts::input::Files;

// The text of the file of this name, if it can be read.
fn bytes_of<F: Files>(files: &F, alloc: Global, name: &str) -> Option<Vec<u8>> {
    let Ok(file) = files.open(name) else {
        return None;
    };
    let mut file = Counted::new(file);
    match read_all(alloc, &mut file) {
        Ok(bytes) => Some(bytes),
        Err(_) => None,
    }
}

// How many lines these are.
fn lines_in(text: &str) -> u64 {
    let mut count = 0u64;
    for _line in text.split('\n') {
        count = count.saturating_add(1);
    }
    count
}

// Runs each row of a file, tells which are wrong and how many there are, and answers whether all are right.
fn run_rows<F: Files, T: Threads + Wait + Sync, W: Write>(
    host: (&F, &T, Global),
    out: &mut W,
    name: &str,
    text: &str,
) -> bool {
    // The text in front of the first row is a comment.
    let mut is_right = text.starts_with("#!");
    let mut line = 1u64;
    let mut count = 0u64;
    for row in text.split("\n==") {
        if line > 1 {
            count = count.saturating_add(1);
            if !run_row(host, out, row) {
                is_right = false;
                let _ = writeln!(out, "{name}: the row of line {line} is wrong");
            }
        }
        line = line.saturating_add(lines_in(row));
    }
    let _ = writeln!(out, "{name}: {count} rows");
    is_right
}

// The same of the file of this name.
fn run_file<F: Files, T: Threads + Wait + Sync, W: Write>(
    host: (&F, &T, Global),
    out: &mut W,
    name: &str,
) -> bool {
    let (files, _, alloc) = host;
    let Some(bytes) = bytes_of(files, alloc, name) else {
        let _ = writeln!(out, "{name} can't be read");
        return false;
    };
    match str::from_utf8(&bytes) {
        Ok(text) => run_rows(host, out, name, text),
        Err(_) => false,
    }
}

fn main(rt: HostRuntime) -> ExitCode {
    let mut out = rt.stdout();
    let Ok(names) = env::args(&rt) else {
        return ExitCode::FAILURE;
    };
    let mut is_right = true;
    for (at, name) in names.enumerate() {
        if at > 0 && !run_file((&rt, &rt, rt.alloc()), &mut out, name.as_str()) {
            is_right = false;
        }
    }
    if is_right {
        ExitCode::SUCCESS
    } else {
        ExitCode::FAILURE
    }
}
