//! The Euler operators that make and kill vertices, in place on an arena: mvfs and kvfs for a solid with its first vertex, mev and kev for
//! an edge with the vertex at its far end. Each may be called if its conditions hold in a sound model and the numbers that it makes have
//! their room.

mod edges;
mod solids;

pub use edges::{kev, mev};
pub use solids::{kvfs, mvfs};
