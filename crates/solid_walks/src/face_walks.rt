//! Walks over the faces of a solid, the loops of a face and the half-edges of a loop, in the order of listings. Each is an iterator, which contracts
//! see as the list of what is still to come.

mod faces;
mod items;
mod loops;

pub use faces::{Faces, faces_of};
pub use items::{Items, items_from, items_of, items_round, least_item, some_item};
pub use loops::{Loops, loops_of, rings_of};
