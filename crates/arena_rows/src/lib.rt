#![tactic(auto)]
//! Rows by number, and what an arena of rows and rings of half-edges stands for.
//!
//! `rows` has the rows of faces and of loops. `owner_chains` holds items by owner: each owner's items, from the least to the greatest.
//! `ring_spots` holds half-edges over raw rings: each edge is a pair of nodes, and each ring has a label, which stands for the ring's loop
//! or for none. The laws of these together stand in proofs/: what the model says of the nodes, and how rows and rings change when loops are
//! cut, joined, emptied and filled, and when edges come and go.
//!
//! # What is proved
//!
//! Items that have owners (`Chains`): `put` and `take` are equations on the table of owners; `count` is how many items an owner has, and
//! `after` is its least item above a number; `reach_owner` and `reach_item` keep all, even on `AllocError`; `copy` is equal. Rings of
//! half-edges (`EdgeRings`): `halfedge_arena` builds on them and on the rows.

mod owner_chains;
mod ring_spots;
mod rows;

pub use owner_chains::Chains;
pub use raw_cells::Rows;
pub use ring_spots::EdgeRings;
pub use rows::{FaceCell, LoopCell, StoredContent, names};
