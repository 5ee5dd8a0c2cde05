//! The steps of a call, each once: a file for each arrow on a call's way, in the order of that way. A
//! function `go_..` of the engine does what one `Go` event does in one phase: it does the step's work and
//! writes the phase in which the call goes on. What a file has beside it is that work without the phase,
//! for this room and for `at_once`. Nothing here counts events, nor calls another arrow's `go_..`.
pub mod access;
pub mod acquire;
pub mod answer;
pub mod check;
pub mod commit;
pub mod copy;
pub mod decide;
pub mod fault;
pub mod file_pages;
pub mod filling;
pub mod place;
