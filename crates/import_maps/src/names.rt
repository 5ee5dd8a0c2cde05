//! Where the name of a mapping's file is.

/// Where a name stands among several, one after another.
#[derive(Clone, Copy)]
pub struct Name {
    /// How many bytes stand before it.
    pub from: usize,
    /// How many it has: 0 where there is none.
    pub len: usize,
}

/// No name.
pub const NO_NAME: Name = Name { from: 0, len: 0 };
