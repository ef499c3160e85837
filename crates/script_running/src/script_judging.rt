//! Judging: the answer to a line of a script, and what it does to the session.

mod calls;
mod hearing;
mod judging;

pub use calls::{Console, act, ask, keep_outcome, make, measure, say};
pub use hearing::hear;
pub(crate) use judging::complains;
pub use judging::{Summary, status};
