//! The first rewriting of a split, operator by operator in a draft: the edges that cross the plane are cut there.

mod cutting;

pub(crate) use cutting::cut_edges;
