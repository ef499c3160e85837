//! What the larger commands ask of whole solids: that no loop is lone, and that each face is flat.

mod bent;
mod lone;

pub use bent::{least_bent, least_bent_of_both};
pub use lone::{least_lone, least_lone_of_both};
