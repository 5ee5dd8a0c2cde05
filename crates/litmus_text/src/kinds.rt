//! What the first word of a line of a litmus test says that it is.
ghost use Rattle.std.specs.Prelude.{◌≡◌};
ghost use Rattle.trace_io.specs.Lines.{lines_of};
ghost use Rattle.trace_text.specs.Words.{words_of};
ghost use Rattle.litmus_text.specs.Kinds.{args_of, has_none, has_together, is_maps, is_together, kind_named, kind_of};

use trace_io::lines::front_line;
use trace_text::words::next_word;

/// Of which outcomes a clause speaks.
#[derive(Clone, Copy)]
pub enum Quantifier {
    /// There is an outcome of which the condition holds.
    Exists,
    /// There is none.
    Never,
    /// It holds of each outcome.
    Forall,
}

/// What a line is, by its first word.
#[derive(Clone, Copy)]
pub enum LineKind {
    /// `vm CORES FRAMES CALLS`
    Space,
    /// `file N MODE LEN SEED`
    File,
    /// `together`: the lists come behind it.
    Together,
    /// `final ADDR`: what a load of the address would show in the end belongs to an outcome. `final maps`: so do the mappings.
    Final,
    /// `exists C`, `never C` or `forall C`.
    Clause(Quantifier),
    /// An event of the opening, or a call of a core's list.
    Event,
}

// What a line is that begins with this word.
fn kind_named(name: &[u8]) -> LineKind
    ensures { result ≡ kind_named name.now }
{
    if name == b"vm".as_slice() {
        LineKind::Space
    } else if name == b"file".as_slice() {
        LineKind::File
    } else if name == b"together".as_slice() {
        LineKind::Together
    } else if name == b"final".as_slice() {
        LineKind::Final
    } else if name == b"exists".as_slice() {
        LineKind::Clause(Quantifier::Exists)
    } else if name == b"never".as_slice() {
        LineKind::Clause(Quantifier::Never)
    } else if name == b"forall".as_slice() {
        LineKind::Clause(Quantifier::Forall)
    } else {
        LineKind::Event
    }
}

/// What a line is, by its first word.
pub fn kind_of(line: &[u8]) -> LineKind
    ensures { result ≡ kind_of (words_of line.now) }
{
    match next_word(line) {
        Some((name, _)) => kind_named(name),
        None => LineKind::Event,
    }
}

/// What stands behind the first word.
pub(crate) fn args_of(line: &[u8]) -> &[u8]
    ensures { words_of result.now ≡ args_of (words_of line.now) }
{
    match next_word(line) {
        Some((_, args)) => args,
        None => line,
    }
}

/// Tells whether there is no word.
pub(crate) fn has_none(words: &[u8]) -> bool
    ensures { result ≡ has_none (words_of words.now) }
{
    next_word(words).is_none()
}

/// Tells whether the word `maps` stands there alone.
pub(crate) fn is_maps(words: &[u8]) -> bool
    ensures { result ≡ is_maps (words_of words.now) }
{
    match next_word(words) {
        Some((name, args)) => name == b"maps".as_slice() && has_none(args),
        None => false,
    }
}

// Tells whether this is the line `together`.
fn is_together(line: &[u8]) -> bool
    ensures { result ≡ is_together (words_of line.now) }
{
    match next_word(line) {
        Some((name, args)) => name == b"together".as_slice() && has_none(args),
        None => false,
    }
}

/// Tells whether a line of the text is `together`.
pub fn has_together(text: &[u8]) -> bool
    ensures { result ≡ has_together (lines_of text.now) }
{
    let mut rest = text;
    'lines: while !rest.is_empty() {
        let (line, more) = front_line(rest);
        if is_together(line) {
            return true;
        }
        rest = more;
    }
    false
}
