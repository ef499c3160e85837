//! The section of a solid by a plane.

use crate::section_cycles::Cycle;

/// The faces above the plane, in rising order, and the cycles of the section. Each cycle goes from its least edge on, and the cycles stand
/// in the order of these.
#[derive(Drop)]
pub struct Section {
    pub above: Vec<u32>,
    pub cycles: Vec<Cycle>,
}
