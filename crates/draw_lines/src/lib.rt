//! The picture of a trace with a column for each line, as SVG.
//!
//! - `cores`, `waits`, `dangers`: who acts, who waits for what, and where translations are in danger.
//! - `sheet`, `places`, `style`, `bits`, `drawing`: how it is laid out, and what shapes are written as; `canvas`
//!   (`draw`): the whole.
//!
//! It exists for `canvas::draw`: the text is just what is to be drawn of the recorded columns. It knows no machine.
#![tactic(auto)]

pub mod bits;
pub mod canvas;
pub mod cores;
pub mod dangers;
pub mod drawing;
pub mod places;
pub mod sheet;
pub mod style;
pub mod waits;
