//! What stands at the columns of a picture: the number of the line of each, and which calls wait in them.
ghost use Rattle.std.specs.Prelude.{◌≡◌, ◌≤◌, IfOk, vec_capacity};
ghost use Rattle.draw_records.specs.Columns.{Margins, headed, no_margins, waiting};

use draw_lines::waits::Waited;
use std::alloc::{AllocError, Allocator};
use std::marker::Model;

/// How many of each there are at the most.
const MOST: usize = 2000;

/// The lines of columns, and the waits in them, up to 2,000 each. Its memory is taken when it is made. A clause sees it as `Margins`.
#[derive(Drop)]
pub struct Margin<A: Allocator> {
    heads: Vec<u64, A>,
    waits: Vec<Waited, A>,
}

impl<A: Allocator> Model for Margin<A> {
    ghost Value = { Margins };

    ghost view = { λ r. record {
      heads = r.heads.items;
      waits = r.waits.items;
    } };

    ghost invariant = { λ r. (2000 ≤ vec_capacity r.heads) × (2000 ≤ vec_capacity r.waits) };
}

impl<A: Allocator> Margin<A> {
    ghost use Rattle.std.specs.Prelude.{◌≡◌, IfOk};
    ghost use Rattle.draw_records.specs.Columns.{headed, no_margins, waiting};

    /// Nothing yet. An error is a refusal of memory.
    pub fn new(for_heads: A, for_waits: A) -> Result<Margin<A>, AllocError>
        ensures { IfOk result (λ made. made ≡ no_margins) }
    {
        let heads = Vec::with_capacity(for_heads, MOST)?;
        let waits = Vec::with_capacity(for_waits, MOST)?;
        Ok(Margin { heads, waits })
    }

    /// The numbers of the lines.
    pub fn heads(&self) -> &[u64]
        ensures { result.now ≡ self.now.heads }
    {
        self.heads.as_slice()
    }

    /// The waits.
    pub fn waits(&self) -> &[Waited]
        ensures { result.now ≡ self.now.waits }
    {
        self.waits.as_slice()
    }

    /// A column more, whose first step is of the line with this number, if there is room.
    pub fn head(&mut self, number: u64)
        ensures { self.new ≡ headed self.old number }
    {
        if self.heads.len() < MOST {
            self.heads.push_reserved(number);
        }
    }

    /// A wait more, if there is room.
    pub fn wait(&mut self, waited: Waited)
        ensures { self.new ≡ waiting self.old waited }
    {
        if self.waits.len() < MOST {
            self.waits.push_reserved(waited);
        }
    }
}
