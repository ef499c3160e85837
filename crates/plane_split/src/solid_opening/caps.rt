//! The caps of a cycle.

/// The faces that close a solid along a cycle of its section, below and above the plane, and whether the cycle is a hole.
#[derive(Clone, Copy)]
pub struct Caps {
    pub lower: u32,
    pub upper: u32,
    pub hole: bool,
}
