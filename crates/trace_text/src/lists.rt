//! The lines of the log and of the list of mappings, in a buffer of fixed size.
ghost use Rattle.std.specs.Prelude.{◌≡◌, ◌+◌, ◌≤◌, ◌++◌, decimal, length};
ghost use Rattle.trace_text.specs.Lists.{answer_line, back_text, detach_line};
ghost use Rattle.trace_text.specs.Lists.{file_text, map_line, start_of};
ghost use Rattle.trace_text.specs.Spelling.{mark, rights_text};

use crate::printing::{LineText, address_text, push_number, push_reply};
use vm_base::{Back, PageRange, Prot, Reply};

/// Appends the address at which the page begins, as `address_text` has addresses. It may lie past
/// 2^64: three digits of 0 behind those of the page's number are 4096 times it.
pub fn push_start(text: &mut LineText, page: u64)
    requires { length text.old.bytes + 23 ≤ 256 }
    ensures bytes { text.new.bytes ≡ text.old.bytes ++ start_of page }
    ensures short { length text.new.bytes ≤ length text.old.bytes + 23 }
{
    text.push_str(address_text(page).as_str());
    if page > 0 {
        text.push_str("000");
    }
}

// Appends a right's letter, or a dash where it isn't given.
fn push_right(text: &mut LineText, is_given: bool, letter: &str)
    requires room { length text.old.bytes + 1 ≤ 256 }
    requires one { length letter.now ≤ 1 }
    ensures bytes { text.new.bytes ≡ text.old.bytes ++ mark is_given letter.now }
    ensures short { length text.new.bytes ≤ length text.old.bytes + 1 }
{
    if is_given {
        text.push_str(letter);
    } else {
        text.push_str("-");
    }
}

/// Appends the three rights, each a letter or a dash, as in `rw-`.
pub fn push_rights(text: &mut LineText, prot: Prot)
    requires { length text.old.bytes + 3 ≤ 256 }
    ensures bytes { text.new.bytes ≡ text.old.bytes ++ rights_text prot }
    ensures short { length text.new.bytes ≤ length text.old.bytes + 3 }
{
    push_right(text, prot.read, "r");
    push_right(text, prot.write, "w");
    push_right(text, prot.exec, "x");
}

// Appends the file's number, and the offset of its page in bytes.
fn push_file(text: &mut LineText, file: u32, file_page: u64)
    requires { length text.old.bytes + 45 ≤ 256 }
    ensures bytes { text.new.bytes ≡ text.old.bytes ++ file_text file file_page }
    ensures short { length text.new.bytes ≤ length text.old.bytes + 45 }
{
    text.push_str(" ");
    push_number(text, u64::from(file));
    text.push_str(" ");
    push_start(text, file_page);
}

// Appends what backs the first page of a range.
fn push_back(text: &mut LineText, back: Back)
    requires { length text.old.bytes + 52 ≤ 256 }
    ensures bytes { text.new.bytes ≡ text.old.bytes ++ back_text back }
    ensures short { length text.new.bytes ≤ length text.old.bytes + 52 }
{
    match back {
        Back::Anon => text.push_str("anon"),
        Back::Shared { file, page } => {
            text.push_str("shared");
            push_file(text, file, page);
        }
        Back::Private { file, page } => {
            text.push_str("private");
            push_file(text, file, page);
        }
    }
}

/// Replaces the text by the log's line of an answer, with its newline: from the event
/// with the number `step` on, the call with the number `call` has the reply.
pub fn write_answer(text: &mut LineText, step: u64, call: u64, reply: Reply)
    ensures { text.new.bytes ≡ answer_line step call reply }
{
    text.clear();
    text.push_str("log ");
    push_number(text, step);
    text.push_str(" call ");
    push_number(text, call);
    text.push_str(" ");
    push_reply(text, reply);
    text.push_str("\n");
}

/// Replaces the text by the log's line of a private page that got a copy of its own, with
/// its newline: it has it from the event with the number `step` on.
pub fn write_detach(text: &mut LineText, step: u64, page: u64)
    ensures { text.new.bytes ≡ detach_line step page }
{
    text.clear();
    text.push_str("log ");
    push_number(text, step);
    text.push_str(" detach ");
    push_start(text, page);
    text.push_str("\n");
}

/// Replaces the text by the line of a range of pages with one mapping, with its newline.
/// `back` is what backs the range's first page.
pub fn write_map_line(text: &mut LineText, range: PageRange, prot: Prot, back: Back)
    ensures { text.new.bytes ≡ map_line range prot back }
{
    text.clear();
    push_start(text, range.first);
    text.push_str("-");
    push_start(text, range.end);
    text.push_str(" ");
    push_rights(text, prot);
    text.push_str(" ");
    push_back(text, back);
    text.push_str("\n");
}
