//! The cycles of a section: the vertices at which section edges meet, the cycles of below halves, and whether a cycle is a hole.

mod cycle;
mod finding;
mod holes;
mod starts;

pub use cycle::Cycle;
pub(crate) use finding::cycles;
pub(crate) use starts::starts_of;
