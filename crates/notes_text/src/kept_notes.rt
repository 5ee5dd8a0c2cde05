//! Packed notes, as the items of a text are kept in them.
ghost use Rattle.std.specs.Prelude.{◌≡◌, ◌++◌, ◌∷◌, ◌==◌, [], List, OnErr, OnOk, length};

use seats::{NoteList, Noted};
use std::alloc::Allocator;
use trace_words::kept::Collection;
use vm_base::NoMemory;

/// The notes of a text.
#[derive(Drop)]
pub struct KeptNotes<A: Allocator> {
    pub list: NoteList<A>,
}

impl<A: Allocator> Collection<Noted> for KeptNotes<A> {
    ghost kept = { λ notes. notes.list.notes };

    fn has_none(&self) -> bool {
        self.list.len() == 0
    }

    fn keep(&mut self, item: Noted) -> Result<(), NoMemory> {
        match self.list.push(item) {
            Ok(()) => Ok(()),
            Err(_) => Err(NoMemory),
        }
    }
}
