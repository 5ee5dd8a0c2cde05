//! What a text declares and why it fails; scripts, requests and outcomes as text.
//!
//! - `declaration`, `declaring`: what the `vm` and `file` lines ask for; `fault`: what ends a reading early; `show`:
//!   what is shown beside.
//! - `script`, `collecting`, `collector`, `kept`: texts of lines behind a declaration, and what is kept of them.
//! - `outcome_text`, `request_text`, `event_text`: what outcomes, requests and events are written as.
//!
//! Traces, notes, scripts and litmus tests share these words. No machine is moved here: that is done by `trace` and
//! those above.
#![tactic(auto)]

pub mod collecting;
pub mod collector;
pub mod declaration;
pub mod declaring;
pub mod event_text;
pub mod events;
pub mod fault;
pub mod kept;
pub mod outcome_text;
pub mod request_text;
pub mod script;
pub mod show;

pub use fault::TraceFault;
pub use script::{Script, ScriptLine, Task, read_script};
pub use show::Show;
