#![tactic(auto)]
//! The section of a solid by a plane: its edges, its cycles, and the conditions under which the solid can be opened along it.
//!
//! `section_edges` has the faces above the plane and the below halves of the section's edges. `section_cycles` has the cycles that these
//! halves form, the vertices at which too many of them meet, and which cycles are holes. `section_checks` tests the conditions.
//!
//! # What is proved
//!
//! From a ready arena: `look_at_faces` answers the faces of a solid above a plane in range, in rising order; a face that lies wholly on the
//! plane counts as above unless its normal points along the plane's direction. With them it answers the mates of their half-edges that
//! neither start nor end above the plane. From these `below_halves` answers the halves of the section edges that lie in faces that aren't
//! above, by rising edge. Both may answer `AllocError`. `starts_of` answers the below halves by rising start vertex. If as many below
//! halves start at each vertex as end there, it also answers the least vertex at which more than two section edges meet, or none. From
//! these starts `cycles` answers the cycles of the below halves, each from its least half on, and which of them are holes: those whose cap
//! below has a normal that points against the plane; or `AllocError`. `find_section`: the first false one of the conditions under which the
//! solid can be opened along it, with its value; or the faces above, the cycles of the section and which of them are holes; or
//! `AllocError`.

mod section_checks;
mod section_cycles;
mod section_edges;

pub use section_checks::{Section, find_section};
pub use section_cycles::Cycle;
pub use solid_walks::start;
