//! All lines of a text, heard one after another, also after replies that are wrong.
ghost use Rattle.std.specs.Prelude.{◌≡◌, ◌+◌, ◌≤◌, ◌<◌, ◌^◌, ◌∷◌, ◌++◌, [], IfErr, IfOk, List, ℕ, OnOk, Some, length};
ghost use Rattle.trace_io.specs.Lines.{lines_of};
ghost use Rattle.audit.specs.Auditor.{plain_of};
ghost use Rattle.audit_text.specs.Heard.{Declared, heard_after, lacking_by, with_item};
ghost use Rattle.audit_text.specs.Reviewed.{GoesOnBy, IsReviewed, IsTextAtFault, wrong_at};
ghost use Rattle.audit_text.specs.Reviewing.{IsBefore, TurnsOutSo};
ghost use Rattle.audit_text.specs.Steps.{IsCounted, count_of, heard_of, terms_of};

use crate::going_on::go_on_by;
use crate::hearing::{Hearing, Turn};
use crate::input::{AuditFault, said_at};
use crate::item::AuditItem;
use crate::judging::Verdict;
use crate::reading::Said;
use slot_lock::SlotMap;
use std::alloc::Allocator;
use trace_io::IoFault;
use trace_io::lines::front_line;
use vm_base::Reply;

// What is said about a wrong reply, or of a copy that may not be.
fn wrong_at(line: u64, item: &AuditItem, due: Option<Reply>, certain: bool) -> Verdict
    ensures { result ≡ wrong_at line item.now due certain }
{
    if certain {
        Verdict::Illegal {
            line,
            item: *item,
            due,
        }
    } else {
        Verdict::Undecided {
            line,
            item: *item,
            due,
        }
    }
}

// Tells it, and goes on.
fn tell_wrong<M: SlotMap + Drop, A: Allocator + Drop, B: Allocator>(
    hearing: &mut Hearing<M, A>,
    found: &mut Vec<Verdict, B>,
    line: u64,
    item: AuditItem,
    due: Option<Reply>,
    certain: bool,
) -> Result<(), AuditFault>
    requires counted { IsCounted hearing.old }
    requires room { count_of hearing.old + 1 < 2 ^ 64 }
    ensures goes { OnOk result (GoesOnBy (terms_of hearing.old) (plain_of hearing.old.auditor) item due (plain_of hearing.new.auditor)) }
    ensures heard { OnOk result (heard_of hearing.new ≡ with_item (heard_of hearing.old) certain item) }
    ensures found { OnOk result (found.new.items ≡ found.old.items ++ wrong_at line item due certain ∷ []) }
    ensures err { IfErr result (λ f. f ≡ AuditFault.Io IoFault.NoMemory) }
    ensures counted { OnOk result (IsCounted hearing.new) }
    ensures few { OnOk result (count_of hearing.new ≤ count_of hearing.old + 1) }
    ensures terms { OnOk result (terms_of hearing.new ≡ terms_of hearing.old) }
{
    let Ok(()) = found.push(wrong_at(line, &item, due, certain)) else {
        return Err(AuditFault::Io(IoFault::NoMemory));
    };
    let Ok(()) = go_on_by(hearing, &item, due) else {
        return Err(AuditFault::Io(IoFault::NoMemory));
    };
    hearing.note(certain, &item);
    Ok(())
}

// Hears what the line with this number says, and goes on if its reply is wrong.
fn turn<M: SlotMap + Drop, A: Allocator + Drop, B: Allocator>(
    hearing: &mut Hearing<M, A>,
    found: &mut Vec<Verdict, B>,
    said: Said,
    line: u64,
) -> Result<(), AuditFault>
    requires counted { IsCounted hearing.old }
    requires room { count_of hearing.old + 1 < 2 ^ 64 }
    ensures turns { TurnsOutSo (terms_of hearing.old) (heard_of hearing.old) (plain_of hearing.old.auditor) said line found.old.items result
        (heard_of hearing.new) (plain_of hearing.new.auditor) found.new.items }
    ensures counted { OnOk result (IsCounted hearing.new) }
    ensures few { OnOk result (count_of hearing.new ≤ count_of hearing.old + 1) }
    ensures terms { OnOk result (terms_of hearing.new ≡ terms_of hearing.old) }
{
    match hearing.hear(said) {
        Ok(Turn::Legal) => Ok(()),
        Ok(Turn::Bad) => Err(AuditFault::BadLine(line)),
        Ok(Turn::Illegal(item, due, certain)) => {
            tell_wrong(hearing, found, line, item, due, certain)
        }
        Err(_) => Err(AuditFault::Io(IoFault::NoMemory)),
    }
}

/// Hears what the line with this number says, and then the lines after it, and tells each wrong reply.
pub(crate) fn review_lines<M: SlotMap + Drop, A: Allocator + Drop, B: Allocator>(
    hearing: &mut Hearing<M, A>,
    found: &mut Vec<Verdict, B>,
    first: Said,
    number: u64,
    text: &[u8],
) -> Result<(), AuditFault>
    requires counted { IsCounted hearing.old }
    requires few { count_of hearing.old + 1 ≤ number }
    requires room { number + length text.now < 2 ^ 64 }
    ensures ok { OnOk result ((lines : List (List ℕ)) (d : Declared)
        → IsBefore (terms_of hearing.old) lines d (heard_of hearing.old) (plain_of hearing.old.auditor) found.old.items first number
        (lines_of text.now) → IsReviewed (terms_of hearing.old) lines found.new.items hearing.new.judged
        (lacking_by (terms_of hearing.old) (heard_of hearing.new))) }
    ensures counted { OnOk result (IsCounted hearing.new) }
    ensures terms { OnOk result (terms_of hearing.new ≡ terms_of hearing.old) }
    ensures err { IfErr result (λ f. (lines : List (List ℕ)) (d : Declared)
        → IsBefore (terms_of hearing.old) lines d (heard_of hearing.old) (plain_of hearing.old.auditor) found.old.items first number
        (lines_of text.now) → IsTextAtFault lines f) }
{
    let mut said = first;
    let mut line = number;
    let mut rest = text;
    'lines: loop {
        turn(hearing, found, said, line)?;
        if rest.is_empty() {
            return Ok(());
        }
        line += 1;
        let (front, more) = front_line(rest);
        said = said_at(front, line)?;
        rest = more;
    }
}
