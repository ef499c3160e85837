#![tactic(auto)]
//! What calls and lines are told, and the texts that the workbench writes: replies and listings.
//!
//! `listing_tells` does nothing: its contract is the law that a listing says all of a sound model.
//!
//! # What is proved
//!
//! `write_told` writes exactly the text of what was told, or, on a fault, a prefix of it. `tell` appends it to a pending `Text`, a prefix of which may be
//! written; `release` writes all of that. Two sound models have equal listings exactly if they are equal.

mod cycle;
mod entry;
mod laws;
mod listing;
mod pending;
mod refusal;
mod text;
mod told;
mod writing;

pub use laws::listing_tells;
pub use pending::{Text, release};
pub use told::{Told, tell, write_told};
pub use writing::WriteFault;
