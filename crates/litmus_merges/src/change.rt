//! Changes of a plain page map, one after another.
use slot_lock::Change;

/// One change of a plain page map. A list of them is a map: what they make, in order, of one in which nothing is
/// mapped.
#[derive(Clone, Copy, PartialEq, Eq)]
pub enum MapChange {
    /// Each page of a range is mapped anew, unmapped, or protected.
    Change(Change),
    /// A private page that shows its file's page gets a copy of it.
    Copy {
        /// The page's number.
        page: u64,
    },
    /// A page's own bytes get another one.
    Own {
        /// The page's number.
        page: u64,
        /// Where in the page, in bytes.
        offset: u64,
        /// The new byte.
        byte: u8,
    },
    /// A file gets another byte.
    File {
        /// The file's number.
        file: u32,
        /// The number of its page.
        page: u64,
        /// Where in the page, in bytes.
        offset: u64,
        /// The new byte.
        byte: u8,
    },
}
