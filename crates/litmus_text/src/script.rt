//! A litmus test as text: what is declared, an opening, a list of calls for each core, and clauses.
ghost use Rattle.std.specs.Prelude.{◌≡◌, ◌≢◌, ◌⊎◌, ◌++◌, ◌==◌, ◌^◌, ◌<◌, Some, None, IfErr, IfOk, OnErr, OnOk, Ok, Err, length, map, not, option_map, true};
ghost use Rattle.std.specs.List.{list_any};
ghost use Rattle.trace_io.specs.Lines.{lines_of};
ghost use Rattle.trace_text.specs.Action.{number_alone};
ghost use Rattle.trace_text.specs.Line.{line_of};
ghost use Rattle.trace_text.specs.Words.{words_of};
ghost use Rattle.vm_base.specs.Requests.{is_placed};
ghost use Rattle.litmus_text.specs.Kinds.{has_together};
ghost use Rattle.litmus_text.specs.Scripts.{Comes, by_core, calls_fault, claim_of, claims_fault, cores_of, fact_fault, is_blank, lines_after, litmus_of};
ghost use Rattle.litmus_text.specs.Scripts.{read_of, terms_fault, unmade, unread, whole, with_calls, with_line};

use crate::facts::{Fact, Term, read_terms};
use crate::faults::LitmusFault;
use crate::kinds::{LineKind, Quantifier, args_of, has_none, has_together, is_maps, kind_of};
use crate::places::{by_core, call_at};
use litmus_merges::Asked;
use std::alloc::Allocator;
use trace_io::IoFault;
use trace_io::lines::{LINE_LIMIT, front_line};
use trace_text::number::next_number;
use trace_text::words::next_word;
use trace_text::{Line, is_printable, read_line};
use trace_words::declaration::{Declaration, FileLine};
use vm_base::{CoreId, NoMemory, Request};

/// A clause of a litmus test.
#[derive(Drop)]
pub struct Clause<A: Allocator> {
    /// The number of its line.
    pub line: u64,
    /// Of which outcomes it speaks.
    pub quantifier: Quantifier,
    /// What it says of them.
    pub terms: Vec<Term, A>,
}

/// A litmus test, or what its lines so far say.
#[derive(Drop)]
pub struct LitmusTest<A: Allocator> {
    /// The space and its files, where they are declared.
    pub declaration: Option<Declaration>,
    /// Whether a line stands behind the declaration.
    pub begun: bool,
    /// Whether the lists have begun, or the text has no opening.
    pub together: bool,
    /// The lines of the declaration and of the opening, as they stand, each with a newline.
    pub front: Vec<u8, A>,
    /// What the lines of the opening say.
    pub opening: Vec<Line, A>,
    /// The calls of the lists: each core makes its own in their order.
    pub calls: Vec<Asked, A>,
    /// The addresses of the `final` lines, in the order of these.
    pub finals: Vec<u64, A>,
    /// Whether a line `final maps` asks for the mappings.
    pub maps: bool,
    /// The clauses, in the order of their lines.
    pub clauses: Vec<Clause<A>, A>,
}

// Tells whether a line says nothing.
fn is_blank(said: &Option<Line>) -> bool
    ensures { result ≡ is_blank said.now }
{
    matches!(said, Some(Line::Blank))
}

// Tells whether a request leaves its place open.
fn is_placed(request: Request) -> bool
    ensures { result ≡ is_placed request }
{
    match request {
        Request::Mmap { flags, .. } => !flags.fixed,
        Request::Munmap { .. }
        | Request::Mprotect { .. }
        | Request::Load { .. }
        | Request::Store { .. }
        | Request::Fetch { .. } => false,
    }
}

// The number that is the last word.
#[tactic(auto, unfolding(trace_text::specs::Action::number_alone))]
fn read_alone(args: &[u8]) -> Option<u64>
    ensures { result ≡ number_alone (words_of args.now) }
{
    let (number, rest) = next_number(args)?;
    if next_word(rest).is_some() {
        return None;
    }
    Some(number)
}

// Why no machine is made of what is declared.
fn unmade(declaration: &Option<Declaration>) -> Option<LitmusFault>
    ensures { result ≡ unmade declaration.now }
{
    let Some(declared) = declaration else {
        return Some(LitmusFault::NoVmLine);
    };
    match declared.fault() {
        Some(fault) => Some(LitmusFault::Setup(fault)),
        None => None,
    }
}

// How many cores are declared.
fn cores_of(declaration: &Option<Declaration>) -> u64
    ensures { result ≡ cores_of declaration.now }
{
    match declaration {
        Some(declared) => declared.cores(),
        None => 0,
    }
}

// Keeps a line as it stands.
fn keep_line<A: Allocator>(front: &mut Vec<u8, A>, line: &[u8]) -> Result<(), NoMemory>
    ensures { OnOk result (front.new.items ≡ with_line front.old.items line.now) }
{
    front.extend_from_slice(line)?;
    front.extend_from_slice(b"\n")?;
    Ok(())
}

const NO_MEMORY: LitmusFault = LitmusFault::Io(IoFault::NoMemory);

impl<A: Allocator + Clone> LitmusTest<A> {
    ghost use Rattle.std.specs.Prelude.{◌≡◌, ◌≢◌, ◌++◌, ◌∷◌, [], IfOk, OnErr, OnOk, Some, None, Ok, Err, true};
    ghost use Rattle.trace_text.specs.Action.{number_alone};
    ghost use Rattle.trace_text.specs.Line.{line_of};
    ghost use Rattle.trace_text.specs.Words.{words_of};
    ghost use Rattle.trace_words.specs.Declarations.{DeclarationView};
    ghost use Rattle.litmus_text.specs.Facts.{terms_of};
    ghost use Rattle.litmus_text.specs.Kinds.{args_of, kind_of};
    ghost use Rattle.litmus_text.specs.Scripts.{Comes, call_after, clause_after, declares, ends_after, event_after, file_after, final_after, goes_on, kind_after, maps_after};
    ghost use Rattle.litmus_text.specs.Scripts.{line_after, listed_after, opened_after, opens, read_of, space_after, together_after, unless, unmade, unread, with_line};

    // Nothing is read yet.
    fn new(alloc: &A, together: bool) -> Result<LitmusTest<A>, NoMemory>
        ensures { IfOk result (λ s. read_of s ≡ unread together) }
    {
        Ok(LitmusTest {
            declaration: None,
            begun: false,
            together,
            front: Vec::new(alloc.clone()?),
            opening: Vec::new(alloc.clone()?),
            calls: Vec::new(alloc.clone()?),
            finals: Vec::new(alloc.clone()?),
            maps: false,
            clauses: Vec::new(alloc.clone()?),
        })
    }

    // Takes in the `vm` line.
    fn take_space(&mut self, number: u64, line: &[u8]) -> Result<(), LitmusFault>
        ensures { Comes result (read_of self.new) (space_after number (read_of self.old) line.now self.old.declaration (line_of line.now)) }
    {
        if self.declaration.is_some() {
            return Err(match unmade(&self.declaration) {
                Some(fault) => fault,
                None => LitmusFault::BadLine(number),
            });
        }
        let Some(
            Line::Space {
                cores,
                frames,
                calls,
            },
        ) = read_line(line)
        else {
            return Err(LitmusFault::BadLine(number));
        };
        let Ok(()) = keep_line(&mut self.front, line) else {
            return Err(NO_MEMORY);
        };
        self.declaration = Some(Declaration::new(cores, frames, calls));
        Ok(())
    }

    // Takes in the line of a file.
    fn take_file(&mut self, number: u64, line: &[u8]) -> Result<(), LitmusFault>
        ensures { Comes result (read_of self.new) (file_after number (read_of self.old) line.now self.old.declaration (line_of line.now)) }
    {
        let begun = self.begun;
        let Some(declaration) = &mut self.declaration else {
            return Err(LitmusFault::NoVmLine);
        };
        let Some(
            Line::File {
                number: next,
                mode,
                len,
                seed,
            },
        ) = read_line(line)
        else {
            return Err(LitmusFault::BadLine(number));
        };
        if begun || !declaration.add(next, FileLine { mode, len, seed }) {
            return Err(LitmusFault::BadLine(number));
        }
        let Ok(()) = keep_line(&mut self.front, line) else {
            return Err(NO_MEMORY);
        };
        Ok(())
    }

    // Takes in the line that begins the lists.
    fn take_together(&mut self, number: u64, args: &[u8]) -> Result<(), LitmusFault>
        ensures { Comes result (read_of self.new) (together_after number (read_of self.old) (words_of args.now)) }
    {
        if self.together || !has_none(args) {
            return Err(LitmusFault::BadLine(number));
        }
        self.begun = true;
        self.together = true;
        Ok(())
    }

    // Takes in an address.
    fn take_final(&mut self, number: u64, args: &[u8]) -> Result<(), LitmusFault>
        ensures { Comes result (read_of self.new) (final_after number (read_of self.old) (number_alone (words_of args.now))) }
    {
        let Some(addr) = read_alone(args) else {
            return Err(LitmusFault::BadLine(number));
        };
        if !self.together {
            return Err(LitmusFault::BadLine(number));
        }
        let Ok(()) = self.finals.push(addr) else {
            return Err(NO_MEMORY);
        };
        self.begun = true;
        Ok(())
    }

    // Takes in that the mappings are asked for.
    fn take_maps(&mut self, number: u64) -> Result<(), LitmusFault>
        ensures { Comes result (read_of self.new) (maps_after number (read_of self.old)) }
    {
        if !self.together {
            return Err(LitmusFault::BadLine(number));
        }
        self.begun = true;
        self.maps = true;
        Ok(())
    }

    // Takes in what the end is asked for.
    fn take_end(&mut self, number: u64, args: &[u8]) -> Result<(), LitmusFault>
        ensures { Comes result (read_of self.new) (ends_after number (read_of self.old) (words_of args.now)) }
    {
        if is_maps(args) {
            return self.take_maps(number);
        }
        self.take_final(number, args)
    }

    // Takes in a clause.
    fn take_clause(
        &mut self,
        alloc: &A,
        number: u64,
        quantifier: Quantifier,
        args: &[u8],
    ) -> Result<(), LitmusFault>
        ensures { Comes result (read_of self.new) (clause_after number (read_of self.old) quantifier (terms_of (words_of args.now))) }
    {
        let Ok(for_terms) = alloc.clone() else {
            return Err(NO_MEMORY);
        };
        let Ok(read) = read_terms(for_terms, args) else {
            return Err(NO_MEMORY);
        };
        let Some(terms) = read else {
            return Err(LitmusFault::BadLine(number));
        };
        if !self.together {
            return Err(LitmusFault::BadLine(number));
        }
        let Ok(()) = self.clauses.push(Clause {
            line: number,
            quantifier,
            terms,
        })
        else {
            return Err(NO_MEMORY);
        };
        self.begun = true;
        Ok(())
    }

    // Takes in a call of a core's list.
    fn take_call(&mut self, number: u64, core: CoreId, request: Request) -> Result<(), LitmusFault>
        requires { self.old.together ≡ true }
        ensures { Comes result (read_of self.new) (call_after number (read_of self.old) core request) }
    {
        if u64::from(core.index()) >= cores_of(&self.declaration) {
            return Err(LitmusFault::BadLine(number));
        }
        if is_placed(request) {
            return Err(LitmusFault::Placed(number));
        }
        let Ok(()) = self.calls.push(Asked { core, request }) else {
            return Err(NO_MEMORY);
        };
        self.begun = true;
        Ok(())
    }

    // Takes in a line behind the opening that should be a call's.
    fn take_listed(&mut self, number: u64, said: &Option<Line>) -> Result<(), LitmusFault>
        requires { self.old.together ≡ true }
        ensures { Comes result (read_of self.new) (listed_after number (read_of self.old) said.now) }
    {
        match said {
            Some(Line::Now(core, request)) => self.take_call(number, *core, *request),
            _ => Err(LitmusFault::BadLine(number)),
        }
    }

    // Keeps a line of the opening.
    fn open(&mut self, line: &[u8], said: Line) -> Result<(), LitmusFault>
        ensures { Comes result (read_of self.new) (Ok (opens (read_of self.old) said line.now)) }
    {
        let Ok(()) = keep_line(&mut self.front, line) else {
            return Err(NO_MEMORY);
        };
        let Ok(()) = self.opening.push(said) else {
            return Err(NO_MEMORY);
        };
        self.begun = true;
        Ok(())
    }

    // Takes in a line of the opening that should be an event's.
    fn take_opened(
        &mut self,
        number: u64,
        line: &[u8],
        said: Option<Line>,
    ) -> Result<(), LitmusFault>
        ensures { Comes result (read_of self.new) (opened_after number (read_of self.old) line.now said) }
    {
        let Some(told) = said else {
            return Err(LitmusFault::BadLine(number));
        };
        match told {
            Line::Act(..) | Line::Fold(_) | Line::Finish(_) | Line::Now(..) => self.open(
                line, told,
            ),
            Line::Blank | Line::Space { .. } | Line::File { .. } => Err(LitmusFault::BadLine(
                number,
            )),
        }
    }

    // Takes in the line of an event, or of a call of a list.
    fn take_event(&mut self, number: u64, line: &[u8]) -> Result<(), LitmusFault>
        ensures { Comes result (read_of self.new) (event_after number (read_of self.old) line.now (line_of line.now)) }
    {
        let said = read_line(line);
        if self.together {
            return self.take_listed(number, &said);
        }
        self.take_opened(number, line, said)
    }

    // Takes in a line that has words, by what it is, where a machine can be made.
    fn take_made(
        &mut self,
        alloc: &A,
        number: u64,
        line: &[u8],
        kind: LineKind,
    ) -> Result<(), LitmusFault>
        requires made { unmade self.old.declaration ≡ None }
        requires space { kind ≢ LineKind.Space }
        requires file { kind ≢ LineKind.File }
        ensures { Comes result (read_of self.new) (kind_after number (read_of self.old) line.now kind) }
    {
        match kind {
            LineKind::Together => self.take_together(number, args_of(line)),
            LineKind::Final => self.take_end(number, args_of(line)),
            LineKind::Clause(quantifier) => self.take_clause(
                alloc,
                number,
                quantifier,
                args_of(line),
            ),
            // (a line of a declaration never comes here)
            LineKind::Event | LineKind::Space | LineKind::File => self.take_event(number, line),
        }
    }

    // Takes in a line that has words, by what it is.
    fn take_kind(
        &mut self,
        alloc: &A,
        number: u64,
        line: &[u8],
        kind: LineKind,
    ) -> Result<(), LitmusFault>
        ensures { Comes result (read_of self.new) (kind_after number (read_of self.old) line.now kind) }
    {
        if let LineKind::Space = kind {
            return self.take_space(number, line);
        }
        if let LineKind::File = kind {
            return self.take_file(number, line);
        }
        if let Some(fault) = unmade(&self.declaration) {
            return Err(fault);
        }
        self.take_made(alloc, number, line, kind)
    }

    // Takes in a line, which has this number.
    fn take(&mut self, alloc: &A, number: u64, line: &[u8]) -> Result<(), LitmusFault>
        ensures { Comes result (read_of self.new) (line_after number (read_of self.old) line.now) }
    {
        if line.len() > LINE_LIMIT {
            return Err(LitmusFault::TooLong(number));
        }
        if !is_printable(line) {
            return Err(LitmusFault::BadLine(number));
        }
        let said = read_line(line);
        if is_blank(&said) {
            return Ok(());
        }
        self.take_kind(alloc, number, line, kind_of(line))
    }
}

// Takes in all lines of a text.
#[tactic(auto, using(crate::proofs::LineLemmas::lines_more, crate::proofs::LineLemmas::lines_stop, crate::proofs::LineLemmas::lines_end, audit_text::proofs::TextLemmas::lines_empty, audit_text::proofs::TextLemmas::some_left))]
fn take_lines<A: Allocator + Clone>(
    script: &mut LitmusTest<A>,
    alloc: &A,
    text: &[u8],
) -> Result<(), LitmusFault>
    ensures { Comes result (read_of script.new) (lines_after 1 (read_of script.old) (lines_of text.now)) }
{
    // this says that lines are fewer than 2^64
    let _most = text.len();
    let mut rest = text;
    let mut number = 0u64;
    'lines: while !rest.is_empty() {
        number += 1;
        let (line, more) = front_line(rest);
        rest = more;
        if let Err(fault) = script.take(alloc, number, line) {
            return Err(fault);
        }
    }
    Ok(())
}

// Tells whether an address is among these.
fn has_addr(addrs: &[u64], addr: u64) -> bool
    ensures { result ≡ list_any (λ a. a == addr) addrs.now }
{
    for other in addrs {
        if *other == addr {
            return true;
        }
    }
    false
}

// Why a fact of the line's clause names nothing that is there.
fn fact_fault(calls: &[Asked], finals: &[u64], line: u64, fact: Fact) -> Option<LitmusFault>
    ensures { result ≡ fact_fault calls.now finals.now line fact }
{
    match fact {
        Fact::Has(core, number, _) | Fact::Lacks(core, number, _) => {
            if call_at(calls, core, number).is_some() {
                return None;
            }
            Some(LitmusFault::NoCall(line))
        }
        Fact::Shows(addr, _) => {
            if has_addr(finals, addr) {
                return None;
            }
            Some(LitmusFault::NoFinal(line))
        }
    }
}

// The first fault of the line's clause.
fn terms_fault(calls: &[Asked], finals: &[u64], line: u64, terms: &[Term]) -> Option<LitmusFault>
    ensures { result ≡ terms_fault calls.now finals.now line terms.now }
{
    for term in terms {
        let fault = fact_fault(calls, finals, line, term.fact);
        if fault.is_some() {
            return fault;
        }
    }
    None
}

// The first fault of the clauses.
fn claims_fault<A: Allocator>(
    calls: &[Asked],
    finals: &[u64],
    clauses: &[Clause<A>],
) -> Option<LitmusFault>
    ensures { result ≡ claims_fault calls.now finals.now (map claim_of clauses.now) }
{
    for clause in clauses {
        let fault = terms_fault(calls, finals, clause.line, clause.terms.as_slice());
        if fault.is_some() {
            return fault;
        }
    }
    None
}

// Why what all lines say is no litmus test, where a machine can be made.
fn calls_fault(calls: &[Asked]) -> Option<LitmusFault>
    ensures { result ≡ calls_fault calls.now }
{
    if calls.is_empty() {
        return Some(LitmusFault::NoCalls);
    }
    None
}

// The litmus test that all lines make.
fn make_whole<A: Allocator + Clone + Drop>(
    script: &mut LitmusTest<A>,
    alloc: &A,
) -> Result<(), LitmusFault>
    ensures { Comes result (read_of script.new) (whole (read_of script.old)) }
{
    if let Some(fault) = unmade(&script.declaration) {
        return Err(fault);
    }
    if let Some(fault) = calls_fault(script.calls.as_slice()) {
        return Err(fault);
    }
    let Ok(for_calls) = alloc.clone() else {
        return Err(NO_MEMORY);
    };
    let Ok(calls) = by_core(for_calls, script.calls.as_slice()) else {
        return Err(NO_MEMORY);
    };
    if let Some(fault) = claims_fault(
        calls.as_slice(),
        script.finals.as_slice(),
        script.clauses.as_slice(),
    ) {
        return Err(fault);
    }
    script.calls = calls;
    Ok(())
}

/// Reads a litmus test: the `vm` and `file` lines; lines of events up to the line `together`, which are the opening; and behind it calls
/// `cC! REQ`, addresses `final ADDR`, `final maps` and clauses, in any order; a second
/// `final maps` changes nothing. A text without `together` has no opening. The calls are one core's after
/// another's. A fault is the first of a line; or else of what all lines come to: of the declaration, that there is no call, or of
/// the first clause that names a call or an address that isn't there. Or it is want of memory.
#[tactic(auto, using(crate::proofs::LineLemmas::litmus_whole, crate::proofs::LineLemmas::litmus_stops))]
pub fn read_litmus<A: Allocator + Clone + Drop>(
    alloc: &A,
    text: &[u8],
) -> Result<LitmusTest<A>, LitmusFault>
    ensures ok { IfOk result (λ script. litmus_of (lines_of text.now) ≡ Ok (read_of script)) }
    ensures err { IfErr result (λ f. (f ≡ LitmusFault.Io IoFault.NoMemory) ⊎ (litmus_of (lines_of text.now) ≡ Err f)) }
{
    let Ok(mut script) = LitmusTest::new(alloc, !has_together(text)) else {
        return Err(NO_MEMORY);
    };
    if let Err(fault) = take_lines(&mut script, alloc, text) {
        return Err(fault);
    }
    if let Err(fault) = make_whole(&mut script, alloc) {
        return Err(fault);
    }
    Ok(script)
}
