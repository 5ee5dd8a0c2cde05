//! What the items of a text are kept in: a vector, or a list that another crate has.
ghost use Rattle.std.specs.Prelude.{◌≡◌, ◌++◌, ◌∷◌, ◌==◌, [], List, OnErr, OnOk, length};

use std::alloc::Allocator;
use vm_base::NoMemory;

/// A list that grows at its end.
pub trait Collection<T> {
    /// What is in it, in order.
    ghost kept: { Self → List T };

    /// Tells whether nothing is in it.
    fn has_none(&self) -> bool
        ensures { result ≡ (length (kept self.now) == 0) };

    /// Adds the item at the end. Where memory is refused nothing is added.
    fn keep(&mut self, item: T) -> Result<(), NoMemory>
        ensures ok { OnOk result (kept self.new ≡ kept self.old ++ item ∷ []) }
        ensures err { OnErr result (kept self.new ≡ kept self.old) };
}

impl<T: Drop, A: Allocator> Collection<T> for Vec<T, A> {
    ghost kept = { λ all. all.items };

    fn has_none(&self) -> bool {
        self.is_empty()
    }

    fn keep(&mut self, item: T) -> Result<(), NoMemory> {
        self.push(item)?;
        Ok(())
    }
}
