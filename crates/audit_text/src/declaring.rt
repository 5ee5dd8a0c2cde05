//! What the lines in front of the calls declare.
ghost use Rattle.std.specs.Prelude.{◌≡◌, ◌+◌, ◌≤◌, IfErr, IfOk, IfSome, OnOk, length};
ghost use Rattle.trace_io.specs.Lines.{lines_of};
ghost use Rattle.audit_text.specs.Ends.{IsAtFault};
ghost use Rattle.audit_text.specs.Heard.{undeclared};
ghost use Rattle.audit_text.specs.Steps.{EndsFront, declared_of};
ghost use Rattle.audit_text.specs.declared.allowing.Terms.{Terms};

use crate::input::{AuditFault, said_at};
use crate::reading::Said;
use frames::FileSpec;
use std::alloc::Allocator;
use trace_io::IoFault;
use trace_io::lines::front_line;
use trace_text::file_line::file_bytes;
use vm_base::limits::{FILE_BYTES, FILE_COUNT};
use vm_base::{Mode, NoMemory};

/// What the lines so far declare.
#[derive(Drop)]
pub struct AuditHead<A: Allocator> {
    /// Whether a space is declared.
    pub has_space: bool,
    /// Its files, by their numbers.
    pub files: Vec<FileSpec<A>, A>,
}

/// What a line is to a declaration.
#[derive(Clone, Copy)]
pub enum Declares {
    /// It says a part of it, or nothing.
    Part,
    /// It may not stand here.
    Bad,
    /// It is no part of one: the declaration has ended.
    Ended,
}

/// What follows a declaration.
#[derive(Clone, Copy)]
pub struct Behind<'a> {
    /// What the first line says that is no part of it, if there is one.
    pub said: Option<Said>,
    /// That line's number, or how many lines there are.
    pub number: u64,
    /// The lines after that one.
    pub rest: &'a [u8],
}

impl<A: Allocator + Clone> AuditHead<A> {
    ghost use Rattle.std.specs.Prelude.{◌≡◌, ◌≤◌, IfOk, OnErr, OnOk, None, Some, false, length, true};
    ghost use Rattle.vm_base.specs.Plain.{file_with};
    ghost use Rattle.trace_text.specs.Line.{seeded};
    ghost use Rattle.audit_text.specs.Heard.{undeclared, with_file, with_space};
    ghost use Rattle.audit_text.specs.Steps.{Adds, declared_of};
    ghost use Rattle.audit_text.specs.declared.declaring.Declares.TheVariants as Is;

    /// Nothing is declared yet. It takes no memory.
    pub fn new(alloc: A) -> AuditHead<A>
        ensures declared { declared_of result ≡ undeclared }
        ensures few { length result.files.items ≤ 16 }
    {
        AuditHead {
            has_space: false,
            files: Vec::new(alloc),
        }
    }

    /// Takes in the line of a space of so many cores.
    pub fn add_space(&mut self, cores: u64) -> Declares
        ensures part { result ≡ Is.Part → with_space (declared_of self.old) cores ≡ Some (declared_of self.new) }
        ensures bad { result ≡ Is.Bad → with_space (declared_of self.old) cores ≡ None }
        ensures ended { result ≡ Is.Ended → ⊥ }
        ensures refused { result ≡ Is.Bad → declared_of self.new ≡ declared_of self.old }
        ensures same { self.new.files ≡ self.old.files }
    {
        if self.has_space || cores == 0 || cores > 64 {
            return Declares::Bad;
        }
        self.has_space = true;
        Declares::Part
    }

    /// Takes in the line of a file. `Err`, where there is no memory for its bytes, leaves the declaration as it was.
    pub fn add_file(
        &mut self,
        alloc: A,
        number: u64,
        mode: Mode,
        len: u64,
        seed: u8,
    ) -> Result<Declares, NoMemory>
        requires few { length self.old.files.items ≤ 16 }
        ensures part { IfOk result (λ r. r ≡ Is.Part
            → with_file (declared_of self.old) number (file_with mode (seeded len seed)) len ≡ Some (declared_of self.new)) }
        ensures bad { IfOk result (λ r. r ≡ Is.Bad
            → with_file (declared_of self.old) number (file_with mode (seeded len seed)) len ≡ None) }
        ensures space { IfOk result (λ r. r ≡ Is.Bad → self.old.has_space ≡ true) }
        ensures refused { IfOk result (λ r. r ≡ Is.Bad → declared_of self.new ≡ declared_of self.old) }
        ensures err { OnErr result (declared_of self.new ≡ declared_of self.old) }
        ensures ended { IfOk result (λ r. r ≡ Is.Ended
            → (self.old.has_space ≡ false) × (declared_of self.new ≡ declared_of self.old)) }
        ensures few { OnOk result (length self.new.files.items ≤ 16) }
    {
        let next = self.files.len() as u64;
        if !self.has_space {
            return Ok(Declares::Ended);
        }
        if number != next || next >= FILE_COUNT || len > FILE_BYTES {
            return Ok(Declares::Bad);
        }
        let bytes = file_bytes(alloc, len, seed)?;
        self.files.push(FileSpec { mode, bytes })?;
        Ok(Declares::Part)
    }

    // Takes in what a line says.
    fn add(&mut self, alloc: &A, said: &Said) -> Result<Declares, NoMemory>
        requires few { length self.old.files.items ≤ 16 }
        ensures adds { IfOk result (λ r. Adds (declared_of self.old) said.now r (declared_of self.new)) }
        ensures few { OnOk result (length self.new.files.items ≤ 16) }
    {
        match said {
            Said::Blank => Ok(Declares::Part),
            Said::Space { cores, .. } => Ok(self.add_space(*cores)),
            Said::File {
                number,
                mode,
                len,
                seed,
            } => self.add_file(alloc.clone()?, *number, *mode, *len, *seed),
            _ => Ok(Declares::Ended),
        }
    }
}

/// Takes in the lines up to the first that is no part of a declaration.
pub(crate) fn declare<'a, A: Allocator + Clone>(
    declaration: &mut AuditHead<A>,
    alloc: &A,
    text: &'a [u8],
) -> Result<Behind<'a>, AuditFault>
    requires fresh { declared_of declaration.old ≡ undeclared }
    requires few { length declaration.old.files.items ≤ 16 }
    ensures ok { IfOk result (λ b.
        EndsFront (lines_of text.now) (declared_of declaration.new) b.said b.number (lines_of b.rest.now)) }
    ensures room { IfOk result (λ b. b.number + length b.rest.now ≤ length text.now) }
    ensures from_1 { IfOk result (λ b. IfSome b.said (λ said. 1 ≤ b.number)) }
    ensures few { OnOk result (length declaration.new.files.items ≤ 16) }
    ensures err { IfErr result (λ f. (terms : Terms) → IsAtFault terms (lines_of text.now) f) }
{
    // this says that lines are fewer than 2^64
    let _most = text.len();
    let mut rest = text;
    let mut number = 0u64;
    'lines: while !rest.is_empty() {
        number += 1;
        let (line, more) = front_line(rest);
        let said = said_at(line, number)?;
        rest = more;
        match declaration.add(alloc, &said) {
            Ok(Declares::Part) => {}
            Ok(Declares::Bad) => return Err(AuditFault::BadLine(number)),
            Ok(Declares::Ended) => return Ok(Behind {
                said: Some(said),
                number,
                rest,
            }),
            Err(_) => return Err(AuditFault::Io(IoFault::NoMemory)),
        }
    }
    Ok(Behind {
        said: None,
        number,
        rest,
    })
}
