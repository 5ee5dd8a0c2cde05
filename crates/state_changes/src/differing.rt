//! The difference of two texts.
ghost use Rattle.std.specs.Prelude.{◌≡◌, IfOk};
ghost use Rattle.state_changes.specs.Applied.{applied};

use crate::applying::apply_to;
use crate::finding::next_part;
use crate::part::DiffOp;
use std::alloc::{AllocError, Global};
use std::marker::Model;

/// How one text becomes another. A clause sees it as `Differs`.
#[derive(Drop)]
pub struct Difference {
    parts: Vec<DiffOp>,
    added: Vec<u8>,
}

impl Model for Difference {
    ghost use Rattle.state_changes.specs.Applied.{Differs};

    ghost Value = { Differs };

    ghost view = { λ d. record { parts = d.parts.items; added = d.added.items } };
}

impl Difference {
    ghost use Rattle.std.specs.Prelude.{◌≡◌, IfOk};
    ghost use Rattle.state_changes.specs.Applied.{applied};

    /// Its parts, from front to back.
    pub fn parts(&self) -> &[DiffOp]
        ensures { result.now ≡ self.now.parts }
    {
        self.parts.as_slice()
    }

    /// The bytes that are added, from front to back.
    pub fn added(&self) -> &[u8]
        ensures { result.now ≡ self.now.added }
    {
        self.added.as_slice()
    }

    /// What the text becomes.
    pub fn apply(&self, alloc: Global, text: &[u8]) -> Result<Vec<u8>, AllocError>
        ensures { IfOk result (λ other. other.items ≡ applied self.now.parts self.now.added text.now) }
    {
        let mut other = Vec::new(alloc);
        apply_to(
            &mut other,
            self.parts.as_slice(),
            self.added.as_slice(),
            text,
        )?;
        Ok(other)
    }
}

/// How the text becomes the other one.
pub fn difference_of(alloc: Global, before: &[u8], after: &[u8]) -> Result<Difference, AllocError>
    ensures { IfOk result (λ d. applied d.parts d.added before.now ≡ after.now) }
{
    let mut parts = Vec::new(alloc);
    let mut added = Vec::new(alloc);
    let mut old = before;
    let mut new = after;
    'parts: while !old.is_empty() || !new.is_empty() {
        let part = next_part(old, new);
        let (line, _) = new.split_at(part.fresh());
        let (_, old_rest) = old.split_at(part.taken());
        let (_, new_rest) = new.split_at(part.given());
        parts.push(part)?;
        added.extend_from_slice(line)?;
        old = old_rest;
        new = new_rest;
    }
    Ok(Difference { parts, added })
}
