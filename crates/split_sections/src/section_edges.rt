//! The faces above a plane, and the edges of the section between them and the faces below.

mod above;
mod halves;

pub(crate) use above::{direction, look_at_faces};
pub(crate) use halves::below_halves;
