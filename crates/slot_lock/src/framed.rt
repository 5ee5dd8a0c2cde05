//! Pages that have a frame.
use arrayvec::ArrayVec;

// The places of a list.
const PLACES: usize = 32;

/// A page, and the frame that it has.
#[derive(Clone, Copy, Default)]
pub struct Framed {
    pub page: u64,
    pub frame: u32,
}

/// At most 32 pages that have a frame. It takes no memory.
pub type FramedPages = ArrayVec<Framed, PLACES>;
