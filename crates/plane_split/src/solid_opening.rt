//! The third rewriting of a split, operator by operator in a draft: a solid is opened along the cycles of its section, and parted.

mod caps;
mod copies;
mod cycle;
mod joinings;
mod opening;
mod parting;
mod strips;

pub(crate) use caps::Caps;
pub(crate) use opening::open_section;
pub(crate) use parting::part_upper;
