#![tactic(auto)]
//! Measures of a boundary model: normals, planes, volumes and counts. Nothing here takes memory, and every number is exact.
//!
//! `solid_counts` counts what a solid has; `solid_checks` tests what the larger commands ask of whole solids: that no loop is lone, and that each
//! face is flat.
//!
//! # What is proved
//!
//! `counts`: the numbers of vertices, edges, faces and rings of a solid and `v - e + f - r`, refused exactly if NumberRange, or after it NoSolid, is
//! false. `normal`, `plane`, `is_flat`, `six_volume` are the sums over the model, refused exactly if NumberRange, or after it NoFace or NoSolid, is
//! false. All partial sums fit 128 bits. Also the least lone loop, and the least face that isn't flat, of one solid or of two.

mod faces;
mod loops;
mod measures;
mod short;
mod solid_checks;
mod solid_counts;

pub use loops::half_added;
pub use measures::{is_flat, normal, plane, six_volume};
pub use solid_checks::{least_bent, least_bent_of_both, least_lone, least_lone_of_both};
pub use solid_counts::{Tally, counts};
pub use solid_walks::{Counters, check_left, counters_of, finish, least_item, previous, start};

/// A sum of cross products of points.
#[derive(Clone, Copy)]
pub struct Vector {
    pub x: i128,
    pub y: i128,
    pub z: i128,
}
