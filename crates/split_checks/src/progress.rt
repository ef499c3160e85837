//! How far the drawing of a split has come.
use solid_measure::Counters;

/// The greatest numbers taken so far, and the first face that can't be drawn, or 0.
#[derive(Clone, Copy)]
pub struct Progress {
    pub taken: Counters,
    pub stuck: u32,
}
