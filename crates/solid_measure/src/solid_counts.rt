//! How many vertices, edges, faces and rings a solid has. Nothing here takes memory.

mod loops;
mod solids;

pub use solids::counts;
pub(crate) use solids::refusal_of_solid;

/// How many vertices, edges, faces and rings a solid has, and `sum = v - e + f - r`.
#[derive(Clone, Copy, Debug, PartialEq, Eq)]
pub struct Tally {
    pub v: u32,
    pub e: u32,
    pub f: u32,
    pub r: u32,
    pub sum: i64,
}

/// How many vertices and edges a walk has counted.
#[derive(Clone, Copy)]
struct Met {
    vertices: u32,
    edges: u32,
}
