//! Items that have owners. Each owner's items stand in a list, chained from the least to the greatest.

mod chains;
mod places;
mod rows;

pub use chains::Chains;
