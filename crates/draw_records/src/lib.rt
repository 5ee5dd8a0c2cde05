//! Who watches a run for a picture: its steps, columns of lines, or changes of mappings.
//!
//! - `recorder`, `recording`, `looking`: each step, for `draw_steps`; `changes`: mappings, for `draw_lives`.
//! - `watching`, `margin`, `lines`, `spot`: columns, for `draw_lines`.
//!
//! It exists for `changes::ChangeRecorder::moments`, clauses `moments` and `refused`: each change is kept, or none is
//! handed out. `recording` keeps what happened in each step.
#![tactic(auto)]

pub mod changes;
pub mod lines;
pub mod looking;
pub mod margin;
pub mod recorder;
pub mod recording;
pub mod spot;
pub mod watching;

pub use changes::ChangeRecorder;
pub use recorder::Recorder;
pub use watching::ColumnRecorder;
