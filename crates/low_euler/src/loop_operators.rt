//! The Euler operators that part and join loops, in place on an arena. They make and kill an edge across a face, or an edge between two
//! loops of a face. Each asks that the operator's conditions hold and that the numbers that it makes have their room, and leaves the arena
//! as the operator's effect says. The cost of each is the part that changes its loop. None takes memory or fails.

mod faces;
mod loops;

pub use faces::{kef, mef};
pub(crate) use loops::{kemr, mekr};
