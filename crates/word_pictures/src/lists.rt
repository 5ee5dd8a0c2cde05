//! A list of mappings with the names of the files that back them.
ghost use Rattle.std.specs.Prelude.{◌≡◌, ◌++◌, OnOk};
ghost use Rattle.trace_text.specs.Words.{words_of};
ghost use Rattle.word_pictures.specs.Lists.{file_in, name_words, named_line, named_list};

use draw_steps::names::name_of;
use std::alloc::AllocError;
use trace_io::lines::front_line;
use trace_text::number::next_number;
use trace_text::words::next_word;

// The number of the file that backs the pages of a line: its fourth word, where it has one.
#[tactic(auto, unfolding(crate::specs::Lists::file_in))]
fn file_in(line: &[u8]) -> Option<u64>
    ensures { result ≡ file_in (words_of line.now) }
{
    let (_range, rest) = next_word(line)?;
    let (_rights, rest) = next_word(rest)?;
    let (_kind, rest) = next_word(rest)?;
    let (number, _offset) = next_number(rest)?;
    Some(number)
}

// Appends a name behind a space, where there is one.
fn put_name(out: &mut Vec<u8>, name: &[u8]) -> Result<(), AllocError>
    ensures { OnOk result (out.new.items ≡ out.old.items ++ name_words name.now) }
{
    if name.len() == 0 {
        return Ok(());
    }
    out.push(b' ')?;
    out.extend_from_slice(name)?;
    Ok(())
}

// Appends a line with the name of its file.
fn put_line(out: &mut Vec<u8>, trace: &[u8], line: &[u8]) -> Result<(), AllocError>
    ensures { OnOk result (out.new.items ≡ out.old.items ++ named_line trace.now line.now) }
{
    out.extend_from_slice(line)?;
    if let Some(number) = file_in(line) {
        put_name(out, name_of(trace, number))?;
    }
    out.push(b'\n')?;
    Ok(())
}

/// Appends a list of mappings, each line with the name of its file behind it, where the comments of the trace tell that.
pub fn put_named(out: &mut Vec<u8>, trace: &[u8], list: &[u8]) -> Result<(), AllocError>
    ensures { OnOk result (out.new.items ≡ out.old.items ++ named_list trace.now list.now) }
{
    let mut rest = list;
    'lines: while !rest.is_empty() {
        let (line, more) = front_line(rest);
        put_line(out, trace, line)?;
        rest = more;
    }
    Ok(())
}
