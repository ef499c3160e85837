#![tactic(auto)]
//! What operators leave alone. `untouched_solids_stay` does nothing: its contract is what is proved.
//!
//! # What is proved
//!
//! `untouched_solids_stay`: a solid that none of some operators touches, each accepted in its turn, stands afterwards as it stood. Its faces, loops,
//! edges and vertices are the same, with the same points, and its volume is the same.

ghost use Rattle.untouched_solids.specs.Laws.{UntouchedStay};

/// Each of some operators is accepted in its turn. A solid that none of them touches stands afterwards as it stood: with its faces, loops, edges,
/// vertices and points, and no others, and with its volume. An operator touches the solids that it names, and those of the faces, loops and corners
/// that it names.
pub fn untouched_solids_stay()
    ensures { UntouchedStay }
{}
