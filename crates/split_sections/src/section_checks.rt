//! The section of a solid by a plane, and the conditions under which the solid can be opened along it.

mod checks;
mod holes;
mod numbers;
mod section;

pub use checks::find_section;
pub use section::Section;
