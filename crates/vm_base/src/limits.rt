//! What an address space has at the most, by the project's own choice.

/// How many files may be open in it.
pub const FILE_COUNT: u64 = 16;

/// How many bytes a file may have.
pub const FILE_BYTES: u64 = 1_048_576;
