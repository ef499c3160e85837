//! The cut places of faces that straddle a plane, in pairs.

mod faces;
mod pairs;

pub(crate) use faces::pairs_of_faces;
