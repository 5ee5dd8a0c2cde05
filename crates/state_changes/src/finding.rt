//! The next part of a difference.
ghost use Rattle.std.specs.Prelude.{◌≡◌, ◌+◌, ◌<◌, ◌≤◌, take, length};
ghost use Rattle.state_changes.specs.Applied.{IsNext};

use crate::marks::stands_in;
use crate::part::DiffOp;
use memchr::memchr;
use trace_io::lines::front_line;

// How many bytes the first line has, with its newline, where both texts begin with it, or 0.
fn same_line(old: &[u8], new: &[u8]) -> usize
    ensures old { result ≤ length old.now }
    ensures new { result ≤ length new.now }
    ensures same { take result old.now ≡ take result new.now }
{
    match memchr(b'\n', old) {
        Some(end) if end < new.len() => {
            let (line, _) = old.split_at(end + 1);
            let (other, _) = new.split_at(end + 1);
            if line == other { end + 1 } else { 0 }
        }
        _ => 0,
    }
}

// How many bytes the first lines have that are the same in both texts.
fn same_lines(old: &[u8], new: &[u8]) -> usize
    ensures old { result ≤ length old.now }
    ensures new { result ≤ length new.now }
    ensures same { take result old.now ≡ take result new.now }
{
    let mut at = 0;
    'lines: loop {
        let (_, left) = old.split_at(at);
        let (_, right) = new.split_at(at);
        let count = same_line(left, right);
        if count == 0 {
            return at;
        }
        at += count;
    }
}

// How many bytes the first line has, with its newline.
fn line_len(text: &[u8]) -> usize
    requires { 0 < length text.now }
    ensures within { result ≤ length text.now }
    ensures some { 0 < result }
{
    match memchr(b'\n', text) {
        Some(end) => end + 1,
        None => text.len(),
    }
}

// What becomes of two lines that differ: that of the old text goes, unless it comes later in the new one.
fn other_part(old: &[u8], new: &[u8]) -> DiffOp
    requires { 0 < length old.now + length new.now }
    ensures { IsNext result old.now new.now }
{
    if old.is_empty() {
        return DiffOp::Add(new.len());
    }
    if new.is_empty() {
        return DiffOp::Skip(old.len());
    }
    let (line, _) = front_line(old);
    if stands_in(line, new) {
        DiffOp::Add(line_len(new))
    } else {
        DiffOp::Skip(line_len(old))
    }
}

/// The part by which the rest of the old text begins to become that of the new one.
pub(crate) fn next_part(old: &[u8], new: &[u8]) -> DiffOp
    requires { 0 < length old.now + length new.now }
    ensures { IsNext result old.now new.now }
{
    let count = same_lines(old, new);
    if count > 0 {
        return DiffOp::Keep(count);
    }
    other_part(old, new)
}
