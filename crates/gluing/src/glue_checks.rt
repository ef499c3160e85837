//! The conditions of a glue, in the order in which they are tested, on an arena.

mod checks;
mod outlines;

pub(crate) use checks::check_glue;
