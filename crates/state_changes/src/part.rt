//! A part of a difference.
/// What becomes of the next bytes of a text.
#[derive(Clone, Copy)]
pub enum DiffOp {
    /// So many of them stay.
    Keep(usize),
    /// So many of them go.
    Skip(usize),
    /// So many bytes, the next of those that are added, come before them.
    Add(usize),
}

impl DiffOp {
    ghost use Rattle.std.specs.Prelude.{◌≡◌};
    ghost use Rattle.state_changes.specs.Applied.{fresh, given, kept, taken};

    // How many bytes of the one text it passes.
    pub(crate) fn taken(self) -> usize
        ensures { result ≡ taken self }
    {
        match self {
            DiffOp::Keep(count) | DiffOp::Skip(count) => count,
            DiffOp::Add(_) => 0,
        }
    }

    // How many of these stay.
    pub(crate) fn kept(self) -> usize
        ensures { result ≡ kept self }
    {
        match self {
            DiffOp::Keep(count) => count,
            DiffOp::Skip(_) | DiffOp::Add(_) => 0,
        }
    }

    // How many bytes of the other it makes.
    pub(crate) fn given(self) -> usize
        ensures { result ≡ given self }
    {
        match self {
            DiffOp::Keep(count) | DiffOp::Add(count) => count,
            DiffOp::Skip(_) => 0,
        }
    }

    /// How many of these are added.
    pub fn fresh(self) -> usize
        ensures { result ≡ fresh self }
    {
        match self {
            DiffOp::Add(count) => count,
            DiffOp::Keep(_) | DiffOp::Skip(_) => 0,
        }
    }
}
