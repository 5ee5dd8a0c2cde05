//! What is said about a place of a text: where it is, the line with a caret, and what was expected.
ghost use Rattle.std.specs.Prelude.{◌≡◌, ◌≤◌, ◌++◌, OnOk, codes, decimal, drop, length, min, take};
ghost use Rattle.std.specs.Io.KnownBytes.{Appends};
ghost use Rattle.word_parts.specs.Place.{place_text, spot_text};

use arrayvec::ArrayVec;
use std::io;
use std::io::Write;
use trace_text::number_text;
use trace_text::words::next_word;

/// A line that is shown, or one that is tried. A line of any text has at most 512 bytes.
pub type Text = ArrayVec<u8, 640>;

// What makes a terminal show what follows in red (ECMA-48, select graphic rendition), and what ends it.
const RED: &[u8] = b"\x1b[1;31m";

const PLAIN: &[u8] = b"\x1b[0m";

/// Where the word with this index begins, counted from 0; the length where there are fewer words.
pub fn word_start(line: &[u8], index: usize) -> usize
    ensures { result ≤ length line.now }
{
    let mut before = index;
    let mut inside = false;
    for (at, byte) in line.iter().enumerate() {
        if *byte == b' ' {
            inside = false;
        } else if !inside {
            if before == 0 {
                return at;
            }
            before -= 1;
            inside = true;
        }
    }
    line.len()
}

/// What stands from this place on; nothing where the line ends before it.
pub fn behind(line: &[u8], at: usize) -> &[u8]
    ensures { result.now ≡ drop (min at (length line.now)) line.now }
{
    let (_, rest) = line.split_at(at.min(line.len()));
    rest
}

/// What stands before this place.
pub fn front(line: &[u8], at: usize) -> &[u8]
    ensures { result.now ≡ take (min at (length line.now)) line.now }
{
    let (front, _) = line.split_at(at.min(line.len()));
    front
}

/// The word with this index; empty where there are fewer.
pub fn word_at(line: &[u8], index: usize) -> &[u8] {
    match next_word(behind(line, word_start(line, index))) {
        Some((word, _)) => word,
        None => b"",
    }
}

/// How many words the line has.
pub fn words_in(line: &[u8]) -> usize {
    let mut count = 0usize;
    let mut inside = false;
    for byte in line {
        if *byte == b' ' {
            inside = false;
        } else if !inside {
            count = count.saturating_add(1);
            inside = true;
        }
    }
    count
}

/// Writes a line. One that can't be written isn't told of: the fault itself was.
pub fn write_text<E: Write>(text: &mut Text, errors: &mut E) {
    let _ = text.try_push(b'\n');
    let _ = errors.write_all(text);
}

/// Writes a line after two spaces. One that can't be written isn't told of.
pub fn tell<E: Write>(what: &str, errors: &mut E) {
    let _ = writeln!(errors, "  {what}");
}

/// Writes what was expected.
pub fn expect<E: Write>(what: &str, errors: &mut E) {
    let _ = writeln!(errors, "  expected {what}");
}

/// Writes the line, each byte that can't be shown as a question mark.
pub fn show_line<E: Write>(line: &[u8], errors: &mut E) {
    let mut text = Text::new();
    let _ = text.try_extend_from_slice(b"  ");
    for byte in line {
        let shown = if *byte >= 0x20 && *byte <= 0x7e {
            *byte
        } else {
            b'?'
        };
        let _ = text.try_push(shown);
    }
    write_text(&mut text, errors);
}

// Writes a caret below this place of the line.
fn show_caret<E: Write>(at: usize, coloured: bool, errors: &mut E) {
    let mut text = Text::new();
    let _ = text.try_extend_from_slice(b"  ");
    for _ in 0..at {
        let _ = text.try_push(b' ');
    }
    if coloured {
        let _ = text.try_extend_from_slice(RED);
    }
    let _ = text.try_push(b'^');
    if coloured {
        let _ = text.try_extend_from_slice(PLAIN);
    }
    write_text(&mut text, errors);
}

/// Writes where an error is and what it is, as `radixvm: NAME:LINE:COLUMN: WHAT`: the column where the line is known, the line where it is.
pub fn tell_place<E: Write>(
    name: &str,
    line: Option<u64>,
    column: Option<u64>,
    what: &str,
    errors: &mut E,
) -> io::Result<()>
    ensures { OnOk result (Appends (E.contents errors.old) (E.contents errors.new)
        (place_text name.now line column what.now)) }
{
    errors.write_all(b"radixvm: ")?;
    errors.write_all(name.as_bytes())?;
    write_spot(line, column, errors)?;
    errors.write_all(b": ")?;
    errors.write_all(what.as_bytes())?;
    errors.write_all(b"\n")?;
    Ok(())
}

// Writes a line's number and a column, as far as they are known.
fn write_spot<E: Write>(line: Option<u64>, column: Option<u64>, errors: &mut E) -> io::Result<()>
    ensures { OnOk result (Appends (E.contents errors.old) (E.contents errors.new) (spot_text line column)) }
{
    match (line, column) {
        (Some(line), Some(column)) => {
            write_number(line, errors)?;
            write_number(column, errors)?;
            Ok(())
        }
        (Some(line), None) => {
            write_number(line, errors)?;
            Ok(())
        }
        (None, _) => Ok(()),
    }
}

// Writes a colon and a number.
fn write_number<E: Write>(number: u64, errors: &mut E) -> io::Result<()>
    ensures { OnOk result (Appends (E.contents errors.old) (E.contents errors.new) (codes ":" ++ decimal number)) }
{
    errors.write_all(b":")?;
    errors.write_all(number_text(number).as_str().as_bytes())?;
    Ok(())
}

/// What is said about a place of a text: first the place and what is wrong there, once, as `radixvm: NAME:LINE:COLUMN: WHAT`; then the line
/// with a caret, and what was expected. Columns are bytes, counted from 1.
#[derive(Drop)]
pub struct Report<'a, E> {
    errors: &'a mut E,
    name: &'a str,
    line: Option<u64>,
    what: &'a str,
    is_coloured: bool,
    is_begun: bool,
}

impl<'a, E: Write> Report<'a, E> {
    /// Nothing is said yet, of the text with this name and of its line with this number, where one is known.
    pub fn new(
        errors: &'a mut E,
        name: &'a str,
        line: Option<u64>,
        what: &'a str,
        is_coloured: bool,
    ) -> Report<'a, E> {
        Report {
            errors,
            name,
            line,
            what,
            is_coloured,
            is_begun: false,
        }
    }

    // Says the place and what is wrong there, where that isn't said yet.
    fn begin(&mut self, column: Option<usize>) {
        if self.is_begun {
            return;
        }
        self.is_begun = true;
        let column = column.map(|column| column as u64);
        let _ = tell_place(self.name, self.line, column, self.what, self.errors);
    }

    /// The line's number, where none is known.
    pub fn is_at(&mut self, line: u64) {
        if self.line.is_none() {
            self.line = Some(line);
        }
    }

    /// Says the place, which is here in its line, and what is wrong there, where that isn't said yet.
    pub fn begin_at(&mut self, at: usize) {
        self.begin(Some(at.saturating_add(1)));
    }

    /// Shows the line, with a caret below this place.
    pub fn point(&mut self, line: &[u8], at: usize) {
        self.begin_at(at);
        show_line(line, self.errors);
        show_caret(at, self.is_coloured, self.errors);
    }

    /// Shows a line.
    pub fn show(&mut self, line: &[u8]) {
        self.begin(None);
        show_line(line, self.errors);
    }

    /// Says something after two spaces.
    pub fn tell(&mut self, what: &str) {
        self.begin(None);
        tell(what, self.errors);
    }

    /// Says what was expected.
    pub fn expect(&mut self, what: &str) {
        self.begin(None);
        expect(what, self.errors);
    }

    /// Writes a line.
    pub fn write(&mut self, text: &mut Text) {
        self.begin(None);
        write_text(text, self.errors);
    }

    /// Says what isn't said yet.
    pub fn end(&mut self) {
        self.begin(None);
    }
}
