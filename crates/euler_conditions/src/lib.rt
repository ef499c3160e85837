#![tactic(auto)]
//! The conditions of the Euler operators, tested on an arena: the first false one is named.
//!
//! # What is proved
//!
//! For every operator, `check` is Ok exactly if all conditions hold; otherwise it names the first false one, with its value.

mod codes;
mod corners;
mod ends;
mod every;
mod face_numbers;
mod faces;
mod halves;
mod killing;
mod making;
mod moving;
mod parts;
mod single;
mod torn;

pub use codes::{mate_code, next_code, round_code};
pub use corners::{corner_loop, is_lone};
pub use euler_operators::{FaceList, Op, Refusal, Why};
pub use every::check;
pub use halfedge_arena::Arena;
pub use halves::{loop_of, mate, next, same};
pub use parts::check_part_of;
