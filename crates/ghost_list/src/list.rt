//! A list that only proofs read. It takes no memory, and its methods do nothing at run time.
ghost use Rattle.std.specs.Prelude.{◌≡◌, List, [], ◌∷◌, ◌++◌};
ghost use Rattle.std.specs.Borrow.{ftrue};

use std::marker::{Model, PhantomData};

/// What came so far, in order. A clause reads it as `items`.
#[derive(Drop)]
pub struct GhostList<T> {
    of: PhantomData<T>,
    pub ghost items: { List T },
}

// It owns nothing.
unsafe impl<T: Send> Send for GhostList<T> {}

impl<T> Model for GhostList<T> {
    ghost also_owns = { λ _. ftrue };
}

impl<T> GhostList<T> {
    /// A list of nothing.
    pub fn new() -> GhostList<T>
        ensures { result.items ≡ [] }
    {
        GhostList { of: PhantomData }
    }

    /// The list and one more.
    pub fn and(&self, last: &T) -> GhostList<T>
        ensures { result.items ≡ self.now.items ++ last.now ∷ [] }
    {
        GhostList { of: PhantomData }
    }

    /// The list and some more, in order.
    pub fn and_all(&self, more: &[T]) -> GhostList<T>
        ensures { result.items ≡ self.now.items ++ more.now }
    {
        GhostList { of: PhantomData }
    }
}
