//! Rings of half-edges over raw rings: each edge is a pair of nodes, and each ring stands in a loop or is loose.
//!
//! A node's label is the same all round its ring, and `labels` says for which loop it stands. A ring of one that stands in no loop may have
//! label 0; each other ring has a label of its own. There is room for as many labels as there are known codes, so one can always be handed
//! out. `parts` cuts and joins rings and writes only the labels of the shorter part; `alone` does so if one part is a single code; `links`
//! changes the two nodes of an edge.

mod alone;
mod edge_rings;
mod labels;
mod links;
mod parts;

pub use edge_rings::EdgeRings;
