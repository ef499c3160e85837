#![tactic(auto)]
//! Shapes, as definitions and their laws: what belongs to a face or a solid, walks over these, the fresh numbers that a larger command takes,
//! rewritings of whole tables, the models that a lamina, a sweep and a block make, and normals, planes and volumes.
//!
//! `glue` has the conditions of a glue, the model that it makes and its operators as a list. `split` has the conditions of a split, and the model
//! that an accepted one makes, as three rewritings: the edges that cross the plane are cut, edges are drawn in the faces that straddle it, and the
//! solid is opened along the cycles of the section. The lemmas of `walks` are about the faces of a solid, the loops of a face and the half-edges of a
//! loop. Those of `fresh` are about tables to which rows are added at fresh numbers, conditions by search, and numbers that are left. `glue` and
//! `split` each have a file `Facts`, which reads conditions by their place into records that name what each condition says.
//!
//! # What is proved
//!
//! Sums over half-edges may be joined and turned; the laws of walks over the faces of a solid, the loops of a face and the half-edges of a loop hold.
//! Conditions and models of larger commands are definitions, and are tested by scripts with their replies.
