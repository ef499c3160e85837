//! Splitting: whether a plane can begin to split a solid, tested before anything is changed.

mod checks;
mod crossings;
mod flaws;
mod numbers;
mod planes;

pub use checks::check_begin;
