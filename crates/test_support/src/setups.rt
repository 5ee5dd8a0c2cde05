//! What a text of lines asks for.
use trace_text::{Line, read_line};
use trace_words::declaration::{Declaration, FileLine};

/// What the `vm` and `file` lines of a trace or a script ask for.
pub fn declared(text: &str) -> Declaration {
    let mut declared = Declaration::new(1, 0, 0);
    for line in text.lines() {
        match read_line(line.as_bytes()) {
            Some(
                Line::Space {
                    cores,
                    frames,
                    calls,
                },
            ) => declared = Declaration::new(cores, frames, calls),
            Some(
                Line::File {
                    number,
                    mode,
                    len,
                    seed,
                },
            ) => {
                declared.add(number, FileLine { mode, len, seed });
            }
            _ => {}
        }
    }
    declared
}
