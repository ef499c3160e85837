#![tactic(auto)]
//! Laws for a program on top of the workbench: what a session holds after a command that was answered Ok, derived only from what the call says of it.
//! Each function does nothing: its contract is what is proved, over every machine. `block_machining` is a program that uses them.
//!
//! # What is proved
//!
//! - *New faces* (here): those of a block, each with its number, solid, corner points and plane.
//! - *Accepted commands* (here): when a block and a glue are accepted; that the solid of a new block, a lamina, a sweep and a glue is there.
//! - *What stays* (`frames`): after a block each loop there before keeps its face and its content, each edge its ends, each vertex its point, and so
//!   each face its solid, rings, corner points and plane.
//! - *Flat faces* (`flat`): faces whose corners lie on one plane, the sides of a sweep, a swept face that was flat before, all faces of a new block
//!   and all of a solid to which another one was glued.
//! - *Splits* (here): each half-edge of the parts lies on the plane or on a half-edge of the solid that was split.

mod flat;
mod frames;

ghost use Rattle.command_laws.specs.NewFaces.{BlockHasTopAndBottom, BlockHasFourSides, BlockTakesSixFaces};
ghost use Rattle.command_laws.specs.Accepted.{BlocksFit, GluesFit};
ghost use Rattle.command_laws.specs.SplitEdges.{SplitsMakeNoLines};
ghost use Rattle.command_laws.specs.Solids.{BlocksAreThere, LaminasAreThere, SweptAreThere, SweepsKeepSolids, GluesJoinSolids};

pub use flat::faces_lie_flat;
pub use frames::{blocks_leave_alone, faces_stand};

/// After a block its faces are numbered on from the greatest face before: its top, its bottom, and a side over each edge of its base.
pub fn blocks_make_faces()
    ensures ends { BlockHasTopAndBottom }
    ensures sides { BlockHasFourSides }
    ensures taken { BlockTakesSixFaces }
{}

/// After a block, a lamina and a sweep the solid is there, so that its measures are answered.
pub fn solids_are_there()
    ensures block { BlocksAreThere }
    ensures lamina { LaminasAreThere }
    ensures sweep { SweptAreThere }
    ensures others { SweepsKeepSolids }
{}

/// After a glue the solid of the first face is there, so that its measures are answered, and that of the second is gone.
pub fn glues_keep_and_join()
    ensures solids { GluesJoinSolids }
{}

/// A block is accepted if its number is new, its sizes are at least 1, both corners are in range, and numbers are left.
pub fn blocks_fit()
    ensures { BlocksFit }
{}

/// A glue is accepted if both faces have no ring, all faces of the two solids are flat and none of their loops is a lone vertex, one face has the
/// corners of the other in reverse order, neither has two equal corners, and an edge is left.
pub fn glues_fit()
    ensures { GluesFit }
{}

/// A split makes no lines but on its plane: each half-edge of the parts has both ends on the plane, or it lies on a half-edge of the solid that was
/// split, and leads the same way.
pub fn splits_make_no_lines()
    ensures { SplitsMakeNoLines }
{}
