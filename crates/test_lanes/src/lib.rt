//! What tests of one space that threads share are made of: they run rows of text.
//!
//! - `rows`: a script line by line, by a seat for each core (`lane`) or by one that owns its space (`alone`), told
//!   and compared; `script`: what it asks.
//! - `meeting`: one core's call is held at a point of its way while another makes its own (`gates`); `starving`:
//!   memory is full.
//! - `scripts`: random scripts on threads; `ending`: notes are certified beside the histories of the slots.
#![tactic(auto)]

pub mod alone;
pub mod ending;
pub mod gates;
pub mod lane;
pub mod meeting;
pub mod rows;
pub mod script;
pub mod scripts;
pub mod starving;
