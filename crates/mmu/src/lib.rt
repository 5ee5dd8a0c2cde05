//! A core's page tables and TLB (Intel SDM, volume 3A), and the inboxes of shootdowns.
//!
//! - `cpu`: tables and TLB of one core (`Cpu`, behind the trait `Hardware`), over `level` (one level of tables) and
//!   `tlb` with `place_sets`.
//! - `entry`: what an entry of the last level says; `translated`: what the translation of an access came to.
//! - `inboxes`: who is asked to drop which pages, and who is awaited (`Inboxes`), over `inbox` and `message`.
//!
//! Clauses of `Hardware` and `Inboxes` say exactly what is translated, posted and taken. It knows of no calls: who
//! posts, and when, is said above.
#![tactic(auto)]

pub mod cpu;
pub mod entry;
pub mod inbox;
pub mod inboxes;
pub mod level;
pub mod message;
mod place_sets;
pub mod tlb;
pub mod translated;

pub use cpu::{Cpu, Hardware};
pub use entry::{Translation, has_right, indices};
pub use inbox::Inbox;
pub use inboxes::Inboxes;
pub use message::{Message, Took};
pub use tlb::TlbEntry;
pub use translated::Translated;
