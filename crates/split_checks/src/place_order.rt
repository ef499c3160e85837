//! The cut places of a face in the order of their points.

mod order;
mod points;

pub(crate) use order::{Places, in_order};
pub(crate) use points::place_point;
