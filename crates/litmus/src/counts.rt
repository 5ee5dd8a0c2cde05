//! How often texts came.
ghost use Rattle.std.specs.Prelude.{◌≡◌, ◌≤◌, ◌++◌, [], IfOk, OnOk, if◌then◌else◌, length, map};
ghost use Rattle.litmus_report.specs.Counts.{bytes_of};
ghost use Rattle.litmus.specs.Counts.{count_line, is_among, lines_behind, often};

use std::alloc::Global;
use trace_text::number_text;
use vm_base::NoMemory;

// Tells whether the text is one of these.
fn is_among(texts: &[Vec<u8>], text: &[u8]) -> bool
    ensures { result ≡ is_among (map bytes_of texts.now) text.now }
{
    for other in texts {
        if other.as_slice() == text {
            return true;
        }
    }
    false
}

// 1 where it is so, and else none.
fn one_if(is_so: bool) -> usize
    ensures { result ≡ (if is_so then 1 else 0) }
{
    if is_so { 1 } else { 0 }
}

// How often the text stands among these.
fn often(texts: &[Vec<u8>], text: &[u8]) -> usize
    ensures { result ≡ often (map bytes_of texts.now) text.now }
{
    let mut count = 0usize;
    for other in texts {
        count += one_if(other.as_slice() == text);
    }
    count
}

// Appends a count of a text.
fn add_count(out: &mut Vec<u8>, count: usize, text: &[u8]) -> Result<(), NoMemory>
    ensures { OnOk result (out.new.items ≡ out.old.items ++ count_line count text.now) }
{
    let digits = number_text(count as u64);
    out.extend_from_slice(digits.as_str().as_bytes())?;
    out.extend_from_slice(": ".as_bytes())?;
    out.extend_from_slice(text)?;
    out.extend_from_slice("\n".as_bytes())?;
    Ok(())
}

// Appends the count of a text that stands first among texts, unless it stands among those before.
fn add_first(
    out: &mut Vec<u8>,
    before: &[Vec<u8>],
    from: &[Vec<u8>],
    text: &[u8],
) -> Result<(), NoMemory>
    ensures { OnOk result (out.new.items ≡ out.old.items
        ++ (if is_among (map bytes_of before.now) text.now then [] else count_line (often (map bytes_of from.now) text.now) text.now)) }
{
    if is_among(before, text) {
        return Ok(());
    }
    add_count(out, often(from, text), text)
}

/// The counts of texts: each once, at its first place.
pub(crate) fn counts_of(alloc: Global, texts: &[Vec<u8>]) -> Result<Vec<u8>, NoMemory>
    ensures { IfOk result (λ text. text.items ≡ lines_behind [] (map bytes_of texts.now)) }
{
    let mut out = Vec::new(alloc);
    'texts: for at in 0..texts.len() {
        let (before, from) = texts.split_at(at);
        add_first(&mut out, before, from, texts[at].as_slice())?;
    }
    Ok(out)
}
