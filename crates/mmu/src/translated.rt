//! What the translation of an access came to.

/// How an access was translated, with the frame.
#[derive(Clone, Copy)]
pub enum Translated {
    /// By the TLB.
    Hit(u32),
    /// By the tables; the TLB has it now.
    Fill(u32),
    /// The page has no translation, or it doesn't permit the access.
    Fault,
}
