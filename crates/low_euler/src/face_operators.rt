//! The Euler operators that move rings and faces, in place.
//!
//! Each takes an arena that accepts it and leaves the model after the operator. Rooms stay as they are. None takes memory or fails.

mod moving;
mod rings;

pub(crate) use moving::{merge, part};
pub(crate) use rings::{kfmrh, mfkrh, outer, ring_in, ring_out};
