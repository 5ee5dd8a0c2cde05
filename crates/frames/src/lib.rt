//! Frames of memory, which are free, and open files with the frames that cache their pages.
//!
//! - `frames`: all frames of a machine (`Frames`), over `byte_store`, `page_bytes` and `free_set`, whose bits `bits`
//!   has.
//! - `cell`: one frame by itself (`FrameCell`), for who keeps each under a lock of its own.
//! - `objects`: all open files (`Objects`), over `file_object`; `file_spec`: what a file is opened with;
//!   `cached_frame`: the frame of a file's page.
//!
//! Clauses of `Frames` and `Objects` say exactly which bytes each frame has and which page is cached where. It knows
//! of no pages of a space and of no cores.
#![tactic(auto)]

mod bits;
mod byte_store;
pub mod cached_frame;
pub mod cell;
mod file_object;
pub mod file_spec;
pub mod frames;
mod free_set;
pub mod objects;
mod page_bytes;

pub use cached_frame::CachedFrame;
pub use cell::FrameCell;
pub use file_spec::{FileSpec, Sharing};
pub use frames::Frames;
pub use objects::Objects;
