#![tactic(auto)]
//! What a plane meets of a solid, and whether it can begin to split it, tested before anything is changed.
//!
//! `cut_places` looks at each corner of a solid once, and tells on which sides of the plane corners lie, which edges cross it, which faces straddle
//! it, and what their cut places are; it notes the sides of vertices, so that they needn't be computed again. `place_order` puts the places of a face
//! in the order of their points, and `face_pairs` puts them in pairs. `begin_checks` tests the conditions with which a split begins, and tells the
//! `Cuts` that it has found.
//!
//! # What is proved
//!
//! From a ready arena and a plane in range: whether a solid has vertices above the plane and below it; the faces that straddle the plane, rising, and
//! for each whether the plane touches it and whether it cuts it too often; the edges that cross it, rising; the cut places of the faces that straddle
//! it; or `AllocError`. `in_order`: exactly the given cut places in the order of their points, or none if two points are equal, or `AllocError`.
//! `push_pairs` appends the pairs of some cut places in that order, the up place first; or tells that two points are equal or that a pair isn't one
//! up and one down; or `AllocError`. `check_begin`: the first false one of the conditions with which a split begins, with its value; or, if none is
//! false, exactly what the plane cuts of the solid: the edges that cross it, rising, each with the point at which it meets the plane; the faces that
//! straddle it, rising, each with how many pairs of cut places it has; and these pairs, one face after the other; or `AllocError`.

mod begin_checks;
mod cut_places;
mod cuts;
mod face_pairs;
mod place_order;
mod progress;

pub use begin_checks::check_begin;
pub use cut_places::{Noted, Sides, face_side, loop_side, none_noted, same, start_side};
pub use cuts::{CutEdge, Cuts, Pair, PairedFace};
pub use progress::Progress;
pub use solid_measure::{Vector, half_added, normal};
