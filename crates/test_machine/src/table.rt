//! Tables of rows, as `rows` has them.
use crate::machines::{Over, lines_from, told_over};
use crate::starved::{Marks, text_in_a_full_heap, text_of_starved};
use std::alloc::Global;
use trace_text::number::read_number;
use vm_base::NoMemory;

/// A row of a table.
#[derive(Clone, Copy)]
struct Row<'a> {
    name: &'a str,
    trace: &'a str,
    text: &'a str,
}

/// What is compared of a row.
#[derive(Clone, Copy)]
pub enum Compared {
    /// The entries of the cores' tables behind a trace.
    Entries,
    /// What a machine gives whose memory is full before each event.
    Starved(Over, Marks),
    /// What one gives whose tree has no room to grow.
    FullHeap,
}

/// How many rows were compared, and the names and texts of those that gave something else.
#[derive(Drop)]
pub struct Found {
    pub rows: u64,
    pub wrong: String<Global>,
}

impl Found {
    /// None so far.
    pub fn new(alloc: Global) -> Found {
        Found {
            rows: 0,
            wrong: String::new(alloc),
        }
    }
}

/// Appends a line, so many times as it says, with newlines.
fn push_line(out: &mut String<Global>, line: &str) -> Result<(), NoMemory> {
    let (line, times) = match line.split_once(" x") {
        Some((line, times)) => (line, read_number(times.as_bytes()).unwrap_or(0)),
        None => (line, 1),
    };
    for _time in 0..times {
        out.push_str(line)?;
        out.push_str("\n")?;
    }
    Ok(())
}

/// The lines that a row's trace or text stands for.
fn lines_of(alloc: Global, row: &str) -> Result<String<Global>, NoMemory> {
    let lines = row.replace(alloc, "; ", "\n")?;
    let mut out = String::new(alloc);
    for line in lines.lines() {
        push_line(&mut out, line)?;
    }
    Ok(out)
}

/// The entries of the cores' tables behind a trace.
fn entries_of(alloc: Global, trace: &str) -> Result<String<Global>, NoMemory> {
    let told = told_over(alloc, Over::Tree, trace)?;
    lines_from(alloc, &told.state, "c")
}

/// What is compared of a trace.
fn text_of(alloc: Global, compared: Compared, trace: &str) -> Result<String<Global>, NoMemory> {
    match compared {
        Compared::Entries => entries_of(alloc, trace),
        Compared::Starved(over, marks) => text_of_starved(alloc, over, trace, marks),
        Compared::FullHeap => text_in_a_full_heap(alloc, trace),
    }
}

/// Compares a row.
fn compare(
    alloc: Global,
    found: &mut Found,
    row: Row<'_>,
    compared: Compared,
) -> Result<(), NoMemory> {
    let trace = lines_of(alloc, row.trace)?;
    let text = text_of(alloc, compared, &trace)?;
    found.rows = found.rows.saturating_add(1);
    if text.as_str() != lines_of(alloc, row.text)?.as_str() {
        found.wrong.push_str(row.name)?;
        found.wrong.push_str("\n")?;
        found.wrong.push_str(&text)?;
    }
    Ok(())
}

/// Compares all rows of a table.
pub fn compare_all(
    alloc: Global,
    found: &mut Found,
    table: &str,
    compared: Compared,
) -> Result<(), NoMemory> {
    let mut row = Row {
        name: "",
        trace: "",
        text: "",
    };
    for (at, line) in table.lines().enumerate() {
        match at % 4 {
            0 => row.name = line,
            1 => row.trace = line,
            2 => {
                row.text = line;
                compare(alloc, found, row, compared)?;
            }
            _ => {}
        }
    }
    Ok(())
}
