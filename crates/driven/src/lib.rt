//! A machine that C holds and that decides what real page tables may translate.
//!
//! - `telling`: steps of a core's call, and what they tell: the range that the core drops, and the frame that a page gets.
//! - `touching`: a touch, which is made at once where what it tells follows from its page before and after.
//! - `driving`: touches, changes and takes, as numbers and structs of C; `reclaiming`: frames that nothing uses.
//! - `laws`: calls that returned are a run of the law of hardware, where the caller does its duties.
//!
//! It exists for `driving::touch`: a page fault is made as steps of the machine, and all that they owe to real page tables
//! and to frames' bytes outside is told, by the definitions of `real_mmu`. There is no export here: those stand in
//! `radixvm_c`.
#![tactic(auto)]

pub mod driving;
pub mod laws;
pub mod reclaiming;
pub mod telling;
pub mod touching;
