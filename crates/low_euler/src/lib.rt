#![tactic(auto)]
//! The Euler operators in place. A caller tests an operator by `check`, asks for its room by `room_op`, and then applies it: by `apply`,
//! which answers the operator that takes it back, or by `replay`, which answers nothing. `advance` is `room_op` and `apply` in one, and
//! `advance_told` is `room_op` and `replay` for an operator that tells its inverse; `replay_told` takes such an operator back. A caller that
//! knows which operator it replays can call `mvfs`, `kvfs`, `mev`, `kev`, `mef` or `kef`. Only `room_op`, `advance` and `advance_told` take memory. A number that has once got its room keeps it, so that an operator can be taken back and applied
//! again even if no memory is left.
//!
//! `vertex_operators` makes and kills vertices (mvfs, kvfs, mev, kev). `loop_operators` parts and joins loops (mef, kef, kemr, mekr). Both
//! use `steps`. `face_operators` moves rings and faces (kfmrh, mfkrh, RingIn, RingOut, Outer, Merge, Part).
//!
//! # What is proved
//!
//! Each operator in place leaves exactly its effect, and nothing else has changed. `room_op` makes the room of all that an operator makes,
//! and keeps the model and all room, even on `AllocError`. If that room is there already and no faces are listed, it is Ok. `apply` leaves
//! the effect, which is a sound model, and answers the inverse, which is accepted and takes the arena back; `replay` has the same effect,
//! and `replay_told` that of the inverse that an operator tells. These three can't fail. `advance` makes the room, leaves the effect and
//! writes the inverse, and `advance_told` does so without writing it; after them all numbers that the operator or its inverse makes have
//! their room. On `AllocError` model and room are as after `room_op`.

mod advancing;
mod applying;
mod face_operators;
mod inverse;
mod loop_operators;
mod making;
mod moving;
mod reading;
mod steps;
mod vertex_operators;

pub use advancing::{advance, advance_told};
pub use applying::{apply, replay, replay_told};
pub use euler_conditions::{Arena, check};
pub use loop_operators::{kef, mef};
pub use making::{MovedFaces, room_op};
pub use vertex_operators::{kev, kvfs, mev, mvfs};
