//! The lines of a text, heard one after another, up to the first reply that no plain page map gives.
ghost use Rattle.std.specs.Prelude.{◌≡◌, ◌+◌, ◌≤◌, ◌<◌, ◌^◌, Err, List, ℕ, IfErr, IfOk, OnOk, length};
ghost use Rattle.trace_io.specs.Lines.{lines_of};
ghost use Rattle.audit.specs.Auditor.{plain_of};
ghost use Rattle.audit_text.specs.Ends.{IsAtFault};
ghost use Rattle.audit_text.specs.Heard.{Declared};
ghost use Rattle.audit_text.specs.Steps.{IsCall, IsCounted, IsFound, IsWanting, TurnsOut, count_of, heard_of, terms_of};

use crate::hearing::{Hearing, Turn};
use crate::input::{AuditFault, said_at};
use crate::item::AuditItem;
use crate::reading::Said;
use slot_lock::SlotMap;
use std::alloc::Allocator;
use trace_io::IoFault;
use trace_io::lines::front_line;
use vm_base::Reply;

/// The result of judging the replies of a text.
#[derive(Clone, Copy)]
pub enum Verdict {
    /// They are the plain page map's.
    Legal {
        /// How many calls were judged.
        calls: u64,
        /// How many of them found no frame or no memory.
        lacking: u64,
        /// How many lines were passed over.
        passed: u64,
    },
    /// The first that isn't, or a copy before it that may not be.
    Illegal {
        /// The number of its line, from 1.
        line: u64,
        /// The call, with what the text says that it was answered, or the copy.
        item: AuditItem,
        /// What a plain page map would give; `None` for a copy.
        due: Option<Reply>,
    },
    /// The same, but another order of calls that overlapped, or another map, may be after the lines up to this one.
    Undecided {
        /// The number of its line, from 1.
        line: u64,
        /// The call, with what the text says that it was answered, or the copy.
        item: AuditItem,
        /// What a plain page map would give; `None` for a copy.
        due: Option<Reply>,
    },
}

// Hears what the line with this number says. A verdict is that its reply is none. Memory is wanted only for a legal reply.
fn turn<M: SlotMap + Drop, A: Allocator + Drop>(
    hearing: &mut Hearing<M, A>,
    said: Said,
    line: u64,
) -> Result<Option<Verdict>, AuditFault>
    requires counted { IsCounted hearing.old }
    requires room { count_of hearing.old + 1 < 2 ^ 64 }
    ensures turns { TurnsOut (terms_of hearing.old) (heard_of hearing.old) (plain_of hearing.old.auditor) said line result
        (heard_of hearing.new) (plain_of hearing.new.auditor) }
    ensures terms { terms_of hearing.new ≡ terms_of hearing.old }
    ensures counted { OnOk result (IsCounted hearing.new) }
    ensures few { OnOk result (count_of hearing.new ≤ count_of hearing.old + 1) }
{
    match hearing.hear(said) {
        Ok(Turn::Legal) => Ok(None),
        Ok(Turn::Bad) => Err(AuditFault::BadLine(line)),
        Ok(Turn::Illegal(item, due, true)) => Ok(Some(Verdict::Illegal { line, item, due })),
        Ok(Turn::Illegal(item, due, false)) => Ok(Some(Verdict::Undecided { line, item, due })),
        Err(_) => Err(AuditFault::Io(IoFault::NoMemory)),
    }
}

/// Hears what the line with this number says, and then the lines after it. Memory is wanted only for a legal reply.
pub(crate) fn hear_lines<M: SlotMap + Drop, A: Allocator + Drop>(
    hearing: &mut Hearing<M, A>,
    first: Said,
    number: u64,
    text: &[u8],
) -> Result<Verdict, AuditFault>
    requires counted { IsCounted hearing.old }
    requires few { count_of hearing.old + 1 ≤ number }
    requires room { number + length text.now < 2 ^ 64 }
    ensures ok { IfOk result (λ verdict. (lines : List (List ℕ)) (d : Declared)
        → IsCall (terms_of hearing.old) lines d (heard_of hearing.old) (plain_of hearing.old.auditor) first number (lines_of text.now)
        → IsFound (terms_of hearing.old) lines verdict (plain_of hearing.new.auditor)) }
    ensures err { IfErr result (λ f. (lines : List (List ℕ)) (d : Declared)
        → IsCall (terms_of hearing.old) lines d (heard_of hearing.old) (plain_of hearing.old.auditor) first number (lines_of text.now)
        → IsAtFault (terms_of hearing.old) lines f) }
    ensures want { result ≡ Err (AuditFault.Io IoFault.NoMemory) → (lines : List (List ℕ)) (d : Declared)
        → IsCall (terms_of hearing.old) lines d (heard_of hearing.old) (plain_of hearing.old.auditor) first number (lines_of text.now)
        → IsWanting (terms_of hearing.old) lines }
{
    let mut said = first;
    let mut line = number;
    let mut rest = text;
    'lines: loop {
        if let Some(verdict) = turn(hearing, said, line)? {
            return Ok(verdict);
        }
        if rest.is_empty() {
            return Ok(Verdict::Legal {
                calls: hearing.judged,
                lacking: hearing.lacking_told(),
                passed: hearing.passed,
            });
        }
        line += 1;
        let (front, more) = front_line(rest);
        said = said_at(front, line)?;
        rest = more;
    }
}
