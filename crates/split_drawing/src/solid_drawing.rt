//! The first two rewritings of a split, in a draft: a solid's crossing edges are cut, and edges are drawn in its straddling faces.

mod face;
mod places;
mod rings;
mod solid;

pub use solid::draw_solid;
