#![tactic(auto)]
//! Walks over a solid: from face to face and from loop to loop, round a loop, and round a vertex. It also has the lone loops of a face, and the
//! numbers that are left for what a larger command makes.
//!
//! `face_walks` has three iterators in the order of listings: `Faces` over the faces of a solid (`faces_of`), `Loops` over the loops of a face
//! (`loops_of`, `rings_of`), `Items` once round a loop (`items_round` from a half-edge on, `items_of` from the least). A contract sees each as the
//! list of what is still to come, so what `all`, `find`, `fold`, `map` and `collect` answer is said of that list. `codes` has the steps of a walk
//! over half-edges by their codes, `around` the walk round a vertex, both ways, `numbers` the greatest numbers in use.
//!
//! # What is proved
//!
//! What an iterator gives is the list itself: the faces of a solid, rising; the loops of a face, the outer one first, then the rings,
//! rising; the half-edges of a loop, each once, from the given one or from the least on. `leads`: whether a half-edge is of the least edge
//! at its vertex, by a walk both ways round it. The least lone loop of a face.

mod around;
mod codes;
mod face_walks;
mod halves;
mod least;
mod lone;
mod numbers;

pub use around::leads;
pub use codes::{previous_code, start_of_code};
pub use euler_conditions::{Arena, next, next_code, same};
pub use face_walks::{
    Faces, Items, Loops, faces_of, items_from, items_of, items_round, least_item, loops_of,
    rings_of, some_item,
};
pub use halves::{finish, previous, start};
pub use least::lesser;
pub use lone::least_lone_of_face;
pub use numbers::{Counters, check_left, counters_of};
