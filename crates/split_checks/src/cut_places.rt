//! What a plane meets of a solid, found in one walk over its corners: on which sides they lie, which edges cross the plane, which faces
//! straddle it, and the cut places of these.

mod face_sides;
mod found;
mod halves;
mod looking;
mod meetings;
mod noted;
mod planes;

pub use face_sides::{face_side, loop_side};
pub(crate) use found::{FaceMet, Met};
pub(crate) use halves::goes_up;
pub(crate) use meetings::meeting;
pub use noted::{Noted, Sides, none_noted, start_side};
pub use planes::same;
