//! What few lines say, and the texts and names that are kept of lines.

use crate::line::Line;
use import_forms::said::Said;
use import_maps::names::Name;
use import_steps::names::{name_at, note_name};
use std::alloc::{AllocError, Global};
use std::marker::Model;

/// What is kept of a line beside its entry.
#[derive(Clone, Copy)]
pub(crate) struct Seldom {
    half: bool,
    said: Said,
    name: Name,
}

/// What is kept of such lines, in order.
#[derive(Drop)]
pub(crate) struct Rares {
    list: Vec<Seldom>,
    texts: Vec<u8>,
}

impl Model for Rares {
    ghost use Rattle.std.specs.Prelude.{◌≡◌, All, List, map};
    ghost use Rattle.import_lines.specs.Lines.{IsNamed, Kept, seldom_of};

    ghost Value = { List Kept };

    ghost view = { λ s. map (seldom_of s.texts.items) s.list.items };

    ghost invariant = { λ s. All (IsNamed s.texts.items) s.list.items };
}

impl Rares {
    ghost use Rattle.std.specs.Prelude.{◌≡◌, ◌<◌, ◌++◌, ◌∷◌, [], OnErr, OnOk, length, slice_index_or};
    ghost use Rattle.import_forms.specs.declared.said.Said.TheVariants as Says;
    ghost use Rattle.import_lines.specs.Lines.{kept_of, kept_said};

    /// None.
    pub(crate) fn new(alloc: Global) -> Rares
        ensures { result ≡ [] }
    {
        Rares {
            list: Vec::new(alloc),
            texts: Vec::new(alloc),
        }
    }

    /// How many there are.
    #[tactic(auto, using(crate::proofs::LineLemmas::map_long))]
    pub(crate) fn len(&self) -> usize
        ensures { result ≡ length self.now }
    {
        self.list.len()
    }

    /// Adds what is kept of a line. Where there is no memory they stay as they are.
    pub(crate) fn push<'a>(&mut self, line: Line<'a>) -> Result<(), AllocError>
        ensures ok { OnOk result (self.new ≡ self.old ++ kept_of line.entry ∷ []) }
        ensures err { OnErr result (self.new ≡ self.old) }
    {
        let name = note_name(&mut self.texts, line.name)?;
        self.list.push(Seldom {
            half: line.half,
            said: line.said,
            name,
        })?;
        Ok(())
    }

    /// What is kept at this place.
    pub(crate) fn line(&self, place: usize) -> Line<'_>
        requires { place < length self.now }
        ensures { kept_of result ≡ slice_index_or self.now place (kept_said Says.Other []) }
    {
        let rare = self.list[place];
        Line {
            half: rare.half,
            said: rare.said,
            name: name_at(self.texts.as_slice(), rare.name),
        }
    }
}
