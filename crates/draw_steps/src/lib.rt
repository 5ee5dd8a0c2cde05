//! What happened in a run as shapes, and the picture of its steps as SVG.
//!
//! - `moments`: a run as a recorder saw it; `shapes`: bars, arrows, marks and stretches; `rows`: pages that change
//!   together share one.
//! - `places`, `drawing`, `parts`, `elements`, `backing`, `texts`: where shapes lie, and what they are written as;
//!   `canvas` (`draw`): the whole.
//! - `names`: a file's name, in the comment before its line.
//!
//! It exists for `canvas::draw`: the text is just what is to be drawn of what was recorded. Who records stands in
//! `draw_records`. It knows no machine.
#![tactic(auto)]

pub mod backing;
pub mod canvas;
pub mod drawing;
pub mod elements;
pub mod moments;
pub mod names;
pub mod parts;
pub mod places;
pub mod rows;
pub mod shapes;
pub mod texts;
