//! A text with a declaration in front, between two lines: what was declared, and an item of each line
//! after that.
ghost use Rattle.std.specs.Prelude.{◌≡◌, ◌≢◌, ◌==◌, ◌⊎◌, ℕ, List, [], Bool, true, false, Option, None, Some, OnOk, IfErr, IfOk, length};
ghost use Rattle.trace_text.specs.Words.{Word, words_of};
ghost use Rattle.trace_text.specs.Line.{are_printable, line_of};
ghost use Rattle.trace_text.specs.declared.line.Line.TheVariants.{Blank};
ghost use Rattle.trace_words.specs.Declarations.{asked_fault};
ghost use Rattle.trace_words.specs.Kinds.{OfSpace, OfFile, OfEvents, kind_of};
ghost use Rattle.trace_words.specs.Collected.{Collected, nothing, late, Takes, Refuses, Wants};

use crate::declaration::{Declaration, FileLine};
use crate::fault::TraceFault;
use crate::kept::Collection;
use machine_model::SetupFault;
use std::marker::{Model, PhantomData};
use trace_text::words::next_word;
use trace_text::{Line, first_word_is_file, first_word_is_vm, is_printable_line, read_line};

/// What a line after the declaration names.
pub trait LineOf<T> {
    ghost use Rattle.std.specs.Prelude.{◌≡◌, ℕ, List, Bool, IfSome, IfNone};
    ghost use Rattle.trace_text.specs.Words.{Word, words_of};

    /// Whether the `vm` line has to say how many calls may begin.
    ghost needs_calls: { Bool };

    /// The words of a line name this, in a space of this many cores.
    ghost names: { ℕ → T → List Word → Type 0 };

    /// Tells whether the `vm` line has to say how many calls may begin.
    fn needs_calls() -> bool
        ensures { result ≡ needs_calls };

    /// What the line names in a space of this many cores, `None` where it names nothing.
    fn read(cores: u64, line: &[u8]) -> Option<T>
        ensures some { IfSome result (λ item. names cores item (words_of line.now)) }
        ensures none { IfNone result ((item : T) → names cores item (words_of line.now) → ⊥) };
}

/// What the lines so far declare, and what they name.
#[derive(Drop)]
pub struct Collector<T, K: Collection<T>> {
    declaration: Option<Declaration>,
    items: K,
    of: PhantomData<T>,
}

impl<T, K: Collection<T>> Model for Collector<T, K> {
    ghost use Rattle.trace_words.specs.Collected.{Collected};

    ghost Value = { Collected T };

    ghost view = { λ s. record { asked = s.declaration; items = K.kept s.items } };
}

// Tells whether the line has four words.
fn has_four_words(line: &[u8]) -> bool
    ensures { result ≡ (length (words_of line.now) == 4) }
{
    let mut rest = line;
    'words: for _count in 0..4u8 {
        let Some((_, others)) = next_word(rest) else {
            return false;
        };
        rest = others;
    }
    next_word(rest).is_none()
}

// Tells whether the `vm` line says how many calls may begin, where it has to.
fn says_enough<T, L: LineOf<T>>(line: &[u8]) -> bool
    ensures yes { result ≡ true → L.needs_calls ≡ true → length (words_of line.now) ≡ 4 }
    ensures no { result ≡ false → (L.needs_calls ≡ true) × (length (words_of line.now) ≢ 4) }
{
    if L::needs_calls() {
        return has_four_words(line);
    }
    true
}

// Why no space can be made of the declaration, or else that the line with this number is bad.
fn late_fault(declaration: &Declaration, number: u64) -> TraceFault
    ensures { result ≡ late (asked_fault declaration.now) number }
{
    match declaration.fault() {
        Some(fault) => TraceFault::Setup(fault),
        None => TraceFault::BadLine(number),
    }
}

impl<T: Copy + Drop, K: Collection<T> + Drop> Collector<T, K> {
    ghost use Rattle.std.specs.Prelude.{◌≡◌, ◌≢◌, ◌⊎◌, [], Some, None, OnOk, IfErr, IfOk, OnErr};
    ghost use Rattle.trace_text.specs.Words.{words_of};
    ghost use Rattle.trace_text.specs.Line.{are_printable, line_of};
    ghost use Rattle.trace_text.specs.declared.line.Line.TheVariants.{Blank};
    ghost use Rattle.trace_words.specs.Kinds.{OfSpace, OfFile, OfEvents, kind_of};
    ghost use Rattle.trace_words.specs.Collected.{nothing, Takes, Refuses, Wants};
    ghost use Rattle.trace_words.specs.Ends.{CannotMake};
    ghost use Rattle.std.specs.Prelude.{option_map, IsSomeAnd};
    ghost use Rattle.trace_words.specs.Declarations.{DeclarationView, asked_fault};

    /// Nothing is declared yet. Items come after those of the list. It takes no memory.
    pub fn new(items: K) -> Collector<T, K>
        ensures { result ≡ record { asked = None; items = K.kept items } }
    {
        Collector {
            declaration: None,
            items,
            of: PhantomData,
        }
    }

    // Takes in the `vm` line.
    fn take_space<L: LineOf<T>>(
        &mut self,
        number: u64,
        line: &[u8],
        said: Option<Line>,
    ) -> Result<(), TraceFault>
        requires printable { are_printable line.now ≡ true }
        requires said { said ≡ line_of line.now }
        requires some { said ≢ Some Blank }
        requires kind { kind_of (words_of line.now) ≡ OfSpace }
        ensures ok { OnOk result (Takes L.needs_calls L.names self.old line.now self.new) }
        ensures err { IfErr result (λ f. Refuses L.needs_calls L.names self.old number line.now f) }
    {
        if let Some(declaration) = &self.declaration {
            return Err(late_fault(declaration, number));
        }
        let Some(told) = said else {
            return Err(TraceFault::BadLine(number));
        };
        let Line::Space {
            cores,
            frames,
            calls,
        } = told
        else {
            return Err(TraceFault::BadLine(number));
        };
        if says_enough::<T, L>(line) {
            self.declaration = Some(Declaration::new(cores, frames, calls));
            return Ok(());
        }
        Err(TraceFault::BadLine(number))
    }

    // Takes in the line of a file.
    fn take_file<L: LineOf<T>>(
        &mut self,
        number: u64,
        line: &[u8],
        said: Option<Line>,
    ) -> Result<(), TraceFault>
        requires printable { are_printable line.now ≡ true }
        requires said { said ≡ line_of line.now }
        requires some { said ≢ Some Blank }
        requires kind { kind_of (words_of line.now) ≡ OfFile }
        ensures ok { OnOk result (Takes L.needs_calls L.names self.old line.now self.new) }
        ensures err { IfErr result (λ f. Refuses L.needs_calls L.names self.old number line.now f) }
    {
        let is_first = self.items.has_none();
        let Some(declaration) = &mut self.declaration else {
            return Err(TraceFault::NoVmLine);
        };
        let Some(told) = said else {
            return Err(TraceFault::BadLine(number));
        };
        let Line::File {
            number: next,
            mode,
            len,
            seed,
        } = told
        else {
            return Err(TraceFault::BadLine(number));
        };
        if is_first && declaration.add(next, FileLine { mode, len, seed }) {
            return Ok(());
        }
        Err(TraceFault::BadLine(number))
    }

    // Takes in the line of an item.
    fn take_item<L: LineOf<T>>(&mut self, number: u64, line: &[u8]) -> Result<(), TraceFault>
        requires printable { are_printable line.now ≡ true }
        requires some { line_of line.now ≢ Some Blank }
        requires kind { kind_of (words_of line.now) ≡ OfEvents }
        ensures ok { OnOk result (Takes L.needs_calls L.names self.old line.now self.new) }
        ensures err { IfErr result (λ f.
            ((f ≡ TraceFault.NoMemory) × Wants L.needs_calls L.names self.old line.now)
            ⊎ Refuses L.needs_calls L.names self.old number line.now f) }
    {
        let Some(declaration) = &self.declaration else {
            return Err(TraceFault::NoVmLine);
        };
        if let Some(fault) = declaration.fault() {
            return Err(TraceFault::Setup(fault));
        }
        let Some(item) = L::read(declaration.cores(), line) else {
            return Err(TraceFault::BadLine(number));
        };
        if self.items.keep(item).is_err() {
            return Err(TraceFault::NoMemory);
        }
        Ok(())
    }

    /// Takes in the line with this number. A fault that isn't want of memory says why the line can't be taken;
    /// nothing changes then. After want of memory no other line is taken.
    pub fn take<L: LineOf<T>>(&mut self, number: u64, line: &[u8]) -> Result<(), TraceFault>
        ensures ok { OnOk result (Takes L.needs_calls L.names self.old line.now self.new) }
        ensures err { IfErr result (λ f.
            ((f ≡ TraceFault.NoMemory) × Wants L.needs_calls L.names self.old line.now)
            ⊎ Refuses L.needs_calls L.names self.old number line.now f) }
    {
        let said = read_line(line);
        if !is_printable_line(line, &said) {
            return Err(TraceFault::BadLine(number));
        }
        if let Some(Line::Blank) = said {
            return Ok(());
        }
        if first_word_is_vm(line) {
            return self.take_space::<L>(number, line, said);
        }
        if first_word_is_file(line) {
            return self.take_file::<L>(number, line, said);
        }
        self.take_item::<L>(number, line)
    }

    /// Tells whether a space can be made of what was declared, and why not.
    pub fn finish(&self) -> Result<(), TraceFault>
        ensures ok { OnOk result (IsSomeAnd self.now.asked (λ asked. asked_fault asked ≡ None)) }
        ensures err { IfErr result (λ f. CannotMake self.now.asked f) }
    {
        let Some(declaration) = &self.declaration else {
            return Err(TraceFault::NoVmLine);
        };
        match declaration.fault() {
            Some(fault) => Err(TraceFault::Setup(fault)),
            None => Ok(()),
        }
    }

    /// What was declared.
    pub fn declaration(&self) -> Option<&Declaration>
        ensures { option_map (λ d. d.now) result ≡ self.now.asked }
    {
        self.declaration.as_ref()
    }

    /// What was declared, and the items, in order of their lines.
    pub fn into_parts(self) -> (Option<Declaration>, K)
        ensures asked { result.0 ≡ self.asked }
        ensures items { K.kept result.1 ≡ self.items }
    {
        (self.declaration, self.items)
    }

    /// The items, in order of their lines.
    pub fn items(&self) -> &K
        ensures { K.kept result.now ≡ self.now.items }
    {
        &self.items
    }
}
