//! The lines that tell a verdict.
ghost use Rattle.std.specs.Prelude.{◌≡◌, ◌+◌, ◌≤◌, ◌++◌, IfOk, OnOk, Some, codes, decimal, length};
ghost use Rattle.audit_text.specs.declared.item.AuditItem.TheVariants.{Answer};
ghost use Rattle.std.specs.List.{flat_map};
ghost use Rattle.audit_text.specs.Ends.{head_text, lacking_text, mapping_text, some_lacking, verdict_text, wrong_text};

use crate::item::AuditItem;
use crate::judging::Verdict;
use audit::Call;
use slot_lock::MapLine;
use std::alloc::{AllocError, Allocator};
use trace_text::{LineText, push_number, push_reply, write_map_line};
use vm_base::Reply;

// Appends how many calls found no frame or no memory.
fn push_some(text: &mut LineText, lacking: u64)
    requires { length text.old.bytes + 37 ≤ 256 }
    ensures bytes { text.new.bytes ≡ text.old.bytes ++ some_lacking lacking }
    ensures short { length text.new.bytes ≤ length text.old.bytes + 37 }
{
    text.push_str(", ");
    push_number(text, lacking);
    text.push_str(" without memory");
}

// The same, if any did.
fn push_lacking(text: &mut LineText, lacking: u64)
    requires { length text.old.bytes + 37 ≤ 256 }
    ensures bytes { text.new.bytes ≡ text.old.bytes ++ lacking_text lacking }
    ensures short { length text.new.bytes ≤ length text.old.bytes + 37 }
{
    if lacking > 0 {
        push_some(text, lacking);
    }
}

// Replaces the text by the line that tells how many replies are legal.
fn write_legal(text: &mut LineText, calls: u64, lacking: u64)
    ensures { text.new.bytes ≡ codes "legal " ++ decimal calls ++ lacking_text lacking ++ codes "\n" }
{
    text.clear();
    text.push_str("legal ");
    push_number(text, calls);
    push_lacking(text, lacking);
    text.push_str("\n");
}

// Replaces the text by the line that begins with this word and tells the first reply that isn't.
fn write_reply(text: &mut LineText, word: &str, line: u64, call: &Call, due: Reply)
    requires { length word.now ≤ 10 }
    ensures { text.new.bytes ≡ wrong_text word.now line (Answer call.now) (Some due) }
{
    text.clear();
    text.push_str(word);
    push_number(text, line);
    text.push_str(": replied ");
    push_reply(text, call.reply);
    text.push_str(", due ");
    push_reply(text, due);
    text.push_str("\n");
}

// Replaces the text by the line that begins with this word and tells the first copy that may not be.
fn write_copy(text: &mut LineText, word: &str, line: u64)
    requires { length word.now ≤ 10 }
    ensures { text.new.bytes ≡ word.now ++ decimal line ++ codes ": copied, due no copy\n" }
{
    text.clear();
    text.push_str(word);
    push_number(text, line);
    text.push_str(": copied, due no copy\n");
}

// Replaces the text by the line of either.
fn write_wrong(text: &mut LineText, word: &str, line: u64, item: &AuditItem, due: Option<Reply>)
    requires { length word.now ≤ 10 }
    ensures { text.new.bytes ≡ wrong_text word.now line item.now due }
{
    match item {
        AuditItem::Answer(call) => match due {
            Some(due) => write_reply(text, word, line, call, due),
            None => write_copy(text, word, line),
        },
        AuditItem::Copy(_) => write_copy(text, word, line),
    }
}

/// Replaces the text by the verdict's own line.
pub(crate) fn write_head(text: &mut LineText, verdict: &Verdict)
    ensures { text.new.bytes ≡ head_text verdict.now }
{
    match verdict {
        Verdict::Legal { calls, lacking, .. } => write_legal(text, *calls, *lacking),
        Verdict::Illegal { line, item, due } => write_wrong(text, "illegal ", *line, item, *due),
        Verdict::Undecided { line, item, due } => write_wrong(
            text,
            "undecided ",
            *line,
            item,
            *due,
        ),
    }
}

// Appends the lines of the mappings.
fn push_mappings<A: Allocator>(all: &mut Vec<u8, A>, around: &[MapLine]) -> Result<(), AllocError>
    ensures { OnOk result (all.new.items ≡ all.old.items ++ flat_map mapping_text around.now) }
{
    let mut text = LineText::new();
    let mut at = 0;
    'lines: while at < around.len() {
        let mapping = around[at];
        write_map_line(&mut text, mapping.range, mapping.prot, mapping.back);
        all.extend_from_slice(text.as_str().as_bytes())?;
        at += 1;
    }
    Ok(())
}

/// The line of the verdict, `legal CALLS`, `illegal LINE: replied TEXT, due TEXT` or `undecided ..` so, and then one for each mapping.
pub fn verdict_text<A: Allocator>(
    alloc: A,
    verdict: &Verdict,
    around: &[MapLine],
) -> Result<Vec<u8, A>, AllocError>
    ensures { IfOk result (λ text. text.items ≡ verdict_text verdict.now around.now) }
{
    let mut line = LineText::new();
    write_head(&mut line, verdict);
    let mut all = Vec::new(alloc);
    all.extend_from_slice(line.as_str().as_bytes())?;
    push_mappings(&mut all, around)?;
    Ok(all)
}
