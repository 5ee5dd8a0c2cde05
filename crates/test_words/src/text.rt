//! The bytes that the lines of a row stand for.
use std::alloc::Global;

// Adds these bytes.
fn push_all(bytes: &mut Vec<u8>, more: &[u8]) -> Option<()> {
    match bytes.extend_from_slice(more) {
        Ok(()) => Some(()),
        Err(_) => None,
    }
}

// The number that a hexadecimal digit stands for.
fn digit_of(digit: u8) -> Option<u8> {
    match digit {
        b'0'..=b'9' => Some(digit - b'0'),
        b'a'..=b'f' => Some(digit - b'a' + 10),
        _ => None,
    }
}

// Adds the byte of two hexadecimal digits, and what stands behind them.
fn push_byte(bytes: &mut Vec<u8>, digits: &[u8]) -> Option<()> {
    let (high, rest) = digits.split_first()?;
    let (low, rest) = rest.split_first()?;
    let byte = digit_of(*high)?.wrapping_mul(16) | digit_of(*low)?;
    push_all(bytes, &[byte])?;
    push_all(bytes, rest)
}

// Adds what stands behind a backslash.
fn push_escape(bytes: &mut Vec<u8>, escape: &[u8]) -> Option<()> {
    let (kind, rest) = escape.split_first()?;
    match *kind {
        b'.' => push_all(bytes, rest),
        b'x' => push_byte(bytes, rest),
        _ => None,
    }
}

/// Adds the bytes that a text stands for: `\xHH` is a byte, and `\.` nothing.
pub fn push_text(bytes: &mut Vec<u8>, text: &str) -> Option<()> {
    for (at, piece) in text.split('\\').enumerate() {
        if at == 0 {
            push_all(bytes, piece.as_bytes())?;
        } else {
            push_escape(bytes, piece.as_bytes())?;
        }
    }
    Some(())
}

// Adds a text, or where it begins with `\*N ` what is behind that, N times.
fn push_repeated(bytes: &mut Vec<u8>, text: &str) -> Option<()> {
    let Some(repeated) = text.strip_prefix("\\*") else {
        return push_text(bytes, text);
    };
    let (times, text) = repeated.split_once(' ')?;
    let Ok(times) = times.parse::<u32>() else {
        return None;
    };
    for _time in 0..times {
        push_text(bytes, text)?;
    }
    Some(())
}

// Adds a line with its newline, or where it ends with `\c` without.
fn push_line(bytes: &mut Vec<u8>, line: &str) -> Option<()> {
    match line.strip_suffix("\\c") {
        Some(text) => push_repeated(bytes, text),
        None => {
            push_repeated(bytes, line)?;
            push_all(bytes, b"\n")
        }
    }
}

/// Adds the bytes of all lines but comments and empty ones.
pub fn push_lines(bytes: &mut Vec<u8>, lines: &str) -> Option<()> {
    for line in lines.split('\n') {
        if !line.is_empty() && !line.starts_with("#!") {
            push_line(bytes, line)?;
        }
    }
    Some(())
}

/// Adds the program's name and these words, but those that begin with `@`, with a zero byte between them.
pub fn push_words(bytes: &mut Vec<u8>, words: &str) -> Option<()> {
    push_all(bytes, b"radixvm")?;
    for word in words.split(' ') {
        if !word.is_empty() && !word.starts_with('@') {
            push_all(bytes, b"\0")?;
            push_text(bytes, word)?;
        }
    }
    Some(())
}
