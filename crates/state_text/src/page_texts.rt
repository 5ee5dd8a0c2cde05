//! The text of the pages that were used, and of mappings, in either form.
ghost use Rattle.frames.specs.Bits.{count_below};
ghost use Rattle.std.specs.Prelude.{◌≡◌, ◌+◌, ◌≤◌, ◌++◌, IfOk, OnOk, decimal, length};
ghost use Rattle.std.specs.List.{flat_map};
ghost use Rattle.state_seen.specs.Lists.{at_page};
ghost use Rattle.state_seen.specs.PageTexts.{pages_text};
ghost use Rattle.state_text.specs.PageTexts.{comma, cores_text, entry_line, frame_text, mapping_json, mappings_text, member_text, members_text, page_front};
ghost use Rattle.state_text.specs.PageTexts.{used_line};
ghost use Rattle.trace_io.specs.Lines.{lines_of};
ghost use Rattle.vm_base.specs.Cores.{members};

use crate::form::{Form, end_word};
use state_seen::{OfPage, PageList, Used};
use std::alloc::{AllocError, Allocator};
use trace_io::lines::front_line;
use trace_text::pieces::{Piece, put, put_all};
use vm_base::{CoreId, CoreSet};

// Appends a frame, if there is one.
fn put_frame(out: &mut Vec<u8>, form: Form, frame: Option<u32>) -> Result<(), AllocError>
    ensures { OnOk result (out.new.items ≡ out.old.items ++ frame_text form frame) }
{
    let Some(frame) = frame else {
        return Ok(());
    };
    let words = match form {
        Form::Text => " frame ",
        Form::Json => ",\"frame\":",
    };
    put_all(out, &[Piece::Words(words), Piece::Number(u64::from(frame))])
}

// What stands before a core of a list, where so many are before it.
fn comma(form: Form, before: u64) -> &'static str
    ensures { result.now ≡ comma form before }
{
    match form {
        Form::Text => " ",
        Form::Json => { if before == 0 { "" } else { "," } }
    }
}

// Appends a core of the set, where so many are before it.
fn put_one(out: &mut Vec<u8>, form: Form, core: CoreId, before: u64) -> Result<(), AllocError>
    ensures { OnOk result (out.new.items ≡ out.old.items ++ (comma form before ++ decimal core)) }
{
    let comma = comma(form, before);
    put(out, comma)?;
    put_all(out, &[Piece::Core(core)])?;
    Ok(())
}

// Appends the core, if it is in the set, where so many of the set are before it; how many there are with it.
fn put_member(
    out: &mut Vec<u8>,
    form: Form,
    cores: CoreSet,
    core: CoreId,
    before: u64,
) -> Result<u64, AllocError>
    requires count { before ≡ count_below (members cores) core }
    requires few { before ≤ core }
    ensures text { OnOk result (out.new.items ≡ out.old.items ++ member_text form cores core) }
    ensures count { IfOk result (λ n. n ≡ count_below (members cores) (core + 1)) }
    ensures few { IfOk result (λ n. n ≤ core + 1) }
{
    if !cores.contains(core) {
        return Ok(before);
    }
    put_one(out, form, core, before)?;
    Ok(before + 1)
}

// Appends the cores of the set.
fn put_members(out: &mut Vec<u8>, form: Form, cores: CoreSet) -> Result<(), AllocError>
    ensures { OnOk result (out.new.items ≡ out.old.items ++ members_text form cores) }
{
    let mut before = 0u64;
    'cores: for index in 0..64u8 {
        before = put_member(out, form, cores, CoreId::new(index), before)?;
    }
    Ok(())
}

// Appends the cores that are recorded, if there are some.
fn put_recorded(out: &mut Vec<u8>, form: Form, cores: CoreSet) -> Result<(), AllocError>
    ensures { OnOk result (out.new.items ≡ out.old.items ++ cores_text form cores) }
{
    if cores.is_empty() {
        return Ok(());
    }
    let (front, end) = match form {
        Form::Text => (" cores", ""),
        Form::Json => (",\"cores\":[", "]"),
    };
    put(out, front)?;
    put_members(out, form, cores)?;
    put(out, end)?;
    Ok(())
}

// Appends which page it is.
#[tactic(auto, unfolding(crate::specs::PageTexts::page_front))]
fn put_page(out: &mut Vec<u8>, form: Form, page: u64) -> Result<(), AllocError>
    ensures { OnOk result (out.new.items ≡ out.old.items ++ page_front form page) }
{
    let (front, behind) = match form {
        Form::Text => ("page ", ""),
        Form::Json => ("{\"page\":\"", "\""),
    };
    put_all(
        out,
        &[
            Piece::Words(front),
            Piece::Start(page),
            Piece::Words(behind),
        ],
    )
}

// Appends the line of a page.
fn put_used(out: &mut Vec<u8>, form: Form, page: u64, used: &Used) -> Result<(), AllocError>
    ensures { OnOk result (out.new.items ≡ out.old.items ++ used_line form page used.now) }
{
    let end = end_word(form);
    put_page(out, form, page)?;
    put_frame(out, form, used.frame)?;
    put_recorded(out, form, used.cores)?;
    put(out, end)?;
    Ok(())
}

// Appends the line of each entry.
fn put_entries(out: &mut Vec<u8>, form: Form, entries: &[OfPage<Used>]) -> Result<(), AllocError>
    ensures { OnOk result (out.new.items ≡ out.old.items ++ flat_map (entry_line form) entries.now) }
{
    let mut at = 0;
    'entries: while at < entries.len() {
        put_used(out, form, entries[at].page, &entries[at].value)?;
        at += 1;
    }
    Ok(())
}

/// Appends the lines of the pages, the lowest first.
pub(crate) fn put_pages<A: Allocator>(
    out: &mut Vec<u8>,
    form: Form,
    list: &PageList<Used, A>,
) -> Result<(), AllocError>
    ensures { OnOk result (out.new.items ≡ out.old.items ++ pages_text (used_line form) (at_page list.now)) }
{
    put_entries(out, form, list.entries())?;
    Ok(())
}

// Appends these bytes.
fn put_bytes(out: &mut Vec<u8>, bytes: &[u8]) -> Result<(), AllocError>
    ensures { OnOk result (out.new.items ≡ out.old.items ++ bytes.now) }
{
    out.extend_from_slice(bytes)
}

// Appends the object of a mapping, which is written so.
fn put_mapping(out: &mut Vec<u8>, line: &[u8]) -> Result<(), AllocError>
    ensures { OnOk result (out.new.items ≡ out.old.items ++ mapping_json line.now) }
{
    put(out, "{\"mapping\":\"")?;
    put_bytes(out, line)?;
    put(out, "\"}\n")?;
    Ok(())
}

// Appends an object for each of these lines.
fn put_objects(out: &mut Vec<u8>, maps: &[u8]) -> Result<(), AllocError>
    ensures { OnOk result (out.new.items ≡ out.old.items ++ flat_map mapping_json (lines_of maps.now)) }
{
    let mut rest = maps;
    'lines: while !rest.is_empty() {
        let (line, more) = front_line(rest);
        put_mapping(out, line)?;
        rest = more;
    }
    Ok(())
}

/// Appends these lines of mappings, which have no quotes.
pub(crate) fn put_mappings(out: &mut Vec<u8>, form: Form, maps: &[u8]) -> Result<(), AllocError>
    ensures { OnOk result (out.new.items ≡ out.old.items ++ mappings_text form maps.now) }
{
    match form {
        Form::Text => put_bytes(out, maps),
        Form::Json => put_objects(out, maps),
    }
}
