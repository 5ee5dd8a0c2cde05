//! What is declared, as text: the line of the space, and those of its files.
ghost use Rattle.std.specs.Prelude.{◌≡◌, ◌+◌, ◌≤◌, ◌∷◌, ◌++◌, [], decimal, length};
ghost use Rattle.trace_io.specs.Io.{IsWritten, written_to};
ghost use Rattle.trace_text.specs.Spelling.{mode_text};
ghost use Rattle.trace_words.specs.Written.{declared_text, file_text, files_text, space_text, spaced};

use crate::declaration::{Declaration, FileLine};
use trace_io::sink::{Sink, WriteFailed, write_all};
use trace_text::{LineText, push_count, push_word};
use vm_base::Mode;

// The word of what a file is open for.
fn mode_word(mode: Mode) -> &'static str
    ensures value { result.now ≡ mode_text mode }
    ensures short { length result.now ≤ 2 }
{
    match mode {
        Mode::R => "r",
        Mode::W => "w",
        Mode::RW => "rw",
    }
}

// Replaces the text by the line of the space.
fn put_space(text: &mut LineText, declaration: &Declaration)
    ensures { text.new.bytes ≡ space_text declaration.now }
{
    text.clear();
    text.push_str("vm");
    push_count(text, declaration.cores());
    push_count(text, declaration.frames());
    push_count(text, declaration.calls());
    text.push_str("\n");
}

// Appends what a file is open for, its length and its first byte, each after a space.
fn push_contents(text: &mut LineText, file: FileLine)
    requires { length text.old.bytes + 45 ≤ 256 }
    ensures bytes { text.new.bytes
        ≡ text.old.bytes ++ spaced (mode_text file.mode ∷ decimal file.len ∷ decimal file.seed ∷ []) }
    ensures short { length text.new.bytes ≤ length text.old.bytes + 45 }
{
    push_word(text, mode_word(file.mode));
    push_count(text, file.len);
    push_count(text, u64::from(file.seed));
}

// Replaces the text by the line of a file.
fn put_file(text: &mut LineText, number: u64, file: FileLine)
    ensures { text.new.bytes ≡ file_text number file }
{
    text.clear();
    text.push_str("file");
    push_count(text, number);
    push_contents(text, file);
    text.push_str("\n");
}

// Writes a line of each file.
fn write_files<W: Sink>(writer: &mut W, files: &[FileLine]) -> Result<(), WriteFailed>
    ensures { IsWritten result (written_to W.Sink writer.old writer.new) (files_text 0 files.now) }
{
    let mut text = LineText::new();
    let mut at = 0;
    'files: while at < files.len() {
        let file = files[at];
        put_file(&mut text, at as u64, file);
        if let Err(failed) = write_all(writer, text.as_str().as_bytes()) {
            return Err(failed);
        }
        at += 1;
    }
    Ok(())
}

/// Writes the lines of what is declared: the `vm` line, always with CALLS, and the `file` lines. At an `Err` a front of them was
/// written.
pub fn write_declaration<W: Sink>(
    writer: &mut W,
    declaration: &Declaration,
) -> Result<(), WriteFailed>
    ensures { IsWritten result (written_to W.Sink writer.old writer.new) (declared_text declaration.now) }
{
    let mut text = LineText::new();
    put_space(&mut text, declaration);
    if let Err(failed) = write_all(writer, text.as_str().as_bytes()) {
        return Err(failed);
    }
    write_files(writer, declaration.files())
}
