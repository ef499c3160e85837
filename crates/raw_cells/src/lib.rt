#![tactic(auto)]
//! Cells and rows by number, in memory that isn't written before a number comes into use.
//!
//! A new block is only reserved: the system gives its pages when they are touched. So a block for all numbers costs only what is used of it. All that
//! touches a raw pointer is in `block`. The rest is plain code over it: `cells` are a block's places by number; `numbers` are numbers in use, as two
//! levels of bits, so that the next one is found without a walk over all; and `rows` are both together.
//!
//! # What is proved
//!
//! A contract sees the list of what the cells hold. `put` is an equation on it. `get` gives what is there, and is called only if something is there.
//! The drop frees the block once. No cell is read before it is written.
//!
//! Numbers in use: `put` and `take` are equations on which numbers are in use, `contains` tells whether one is, `after` the least one above a number,
//! and `last` the greatest; `reach` keeps all, also on `AllocError`; `copy` is equal. Rows by number (`Rows`): the same for rows.

mod block;
mod cells;
mod numbers;
mod rows;

// A crate can name cells in a contract only if the types of their fields are exported.
#[doc(hidden)]
pub use block::{Base, Deed, Places};
pub use cells::Cells;
pub use numbers::Numbers;
pub use rows::Rows;
