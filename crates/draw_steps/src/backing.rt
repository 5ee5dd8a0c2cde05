//! What backs pages, in the words of a list of mappings.
ghost use Rattle.std.specs.Prelude.{◌≡◌, ◌++◌, OnOk, codes};
ghost use Rattle.std.specs.List.{flat_map};
ghost use Rattle.draw_steps.specs.Backing.{backing_words, name_behind, name_words, shown};
ghost use Rattle.trace_text.specs.Lists.{back_text, file_text};

use crate::names::name_of;
use std::alloc::AllocError;
use trace_text::pieces::{Piece, put, put_all};
use vm_base::Back;

// Appends a byte as SVG has it in a text.
fn put_byte(out: &mut Vec<u8>, byte: u8) -> Result<(), AllocError>
    ensures { OnOk result (out.new.items ≡ out.old.items ++ shown byte) }
{
    if byte == 38 {
        return put(out, "&amp;");
    }
    if byte == 60 {
        return put(out, "&lt;");
    }
    if byte == 62 {
        return put(out, "&gt;");
    }
    if byte < 32 || byte > 126 {
        return put(out, "?");
    }
    out.push(byte)?;
    Ok(())
}

// Appends bytes as SVG has them in a text.
fn put_shown(out: &mut Vec<u8>, bytes: &[u8]) -> Result<(), AllocError>
    ensures { OnOk result (out.new.items ≡ out.old.items ++ flat_map shown bytes.now) }
{
    'bytes: for byte in bytes {
        put_byte(out, *byte)?;
    }
    Ok(())
}

// Appends a name behind a space, where there is one.
fn put_name(out: &mut Vec<u8>, name: &[u8]) -> Result<(), AllocError>
    ensures { OnOk result (out.new.items ≡ out.old.items ++ name_words name.now) }
{
    if name.len() == 0 {
        return Ok(());
    }
    put(out, " ")?;
    put_shown(out, name)?;
    Ok(())
}

// Appends a file's number, and the offset of its page in bytes.
fn put_file(out: &mut Vec<u8>, file: u32, page: u64) -> Result<(), AllocError>
    ensures { OnOk result (out.new.items ≡ out.old.items ++ file_text file page) }
{
    put_all(
        out,
        &[
            Piece::Words(" "),
            Piece::Number(u64::from(file)),
            Piece::Words(" "),
            Piece::Start(page),
        ],
    )
}

// Appends what backs pages, as `maps` shows it.
fn put_back(out: &mut Vec<u8>, back: Back) -> Result<(), AllocError>
    ensures { OnOk result (out.new.items ≡ out.old.items ++ back_text back) }
{
    match back {
        Back::Anon => put(out, "anon"),
        Back::Shared { file, page } => {
            put(out, "shared")?;
            put_file(out, file, page)?;
            Ok(())
        }
        Back::Private { file, page } => {
            put(out, "private")?;
            put_file(out, file, page)?;
            Ok(())
        }
    }
}

// Appends the name of a file that backs pages, where the text of the trace has one.
fn put_name_behind(out: &mut Vec<u8>, text: &[u8], back: Back) -> Result<(), AllocError>
    ensures { OnOk result (out.new.items ≡ out.old.items ++ name_behind text.now back) }
{
    match back {
        Back::Anon => Ok(()),
        Back::Shared { file, .. } => put_name(out, name_of(text, u64::from(file))),
        Back::Private { file, .. } => put_name(out, name_of(text, u64::from(file))),
    }
}

/// Appends what backs pages, if that is known, behind a space: as `maps` shows it, and the name of a file where the text of the trace
/// has one.
pub fn put_backing(out: &mut Vec<u8>, text: &[u8], back: Option<Back>) -> Result<(), AllocError>
    ensures { OnOk result (out.new.items ≡ out.old.items ++ backing_words text.now back) }
{
    match back {
        Some(back) => {
            put(out, " ")?;
            put_back(out, back)?;
            put_name_behind(out, text, back)?;
            Ok(())
        }
        None => Ok(()),
    }
}
