//! The points of a call at which a test may hold it.
use std::sync::Wait;
use vm_base::CoreId;

/// How far a call has come.
#[derive(Clone, Copy)]
pub enum Point {
    /// It has begun, and holds nothing.
    Begun,
    /// It holds all slots of its target.
    Locked,
    /// It is about to commit its change.
    Commit,
    /// The ticket of its commit is drawn, whose locks it holds, and nothing is written yet.
    Drawn,
    /// It is about to install a translation.
    Filled,
    /// It holds nothing any more, and is about to be answered.
    Answer,
}

/// Hears how far a call has come, and may hold it there.
pub trait Gate {
    /// The core's call has reached the point. It goes on once this returns.
    fn at<R: Wait>(&self, rt: &R, core: CoreId, point: Point);
}

/// A gate that holds no call.
#[derive(Clone, Copy, Drop)]
pub struct Open;

impl Gate for Open {
    fn at<R: Wait>(&self, _rt: &R, _core: CoreId, _point: Point) {}
}
