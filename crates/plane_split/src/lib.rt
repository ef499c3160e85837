#![tactic(auto)]
//! Splitting: a plane cuts a solid into two, as one command.
//!
//! `command` tests the conditions and makes the split one command. `steps` takes the three rewritings one after the other. `solid_opening`
//! is the third of them: the solid is opened along the cycles of its section, and parted. `splits_are_held` says what a session holds after
//! a split.
//!
//! # What is proved
//!
//! `open_section` takes a draft in whose model a solid can be opened along the cycles of a section in turn, and is told which of these are
//! holes. It is Ok only with exactly the third rewriting along all of them, by its operators as steps, and with their caps, otherwise
//! `AllocError`. `part_upper`: if the operators that close the holes and part what is above are accepted in turn, it is Ok only with
//! exactly these steps. The session from which the draft came is kept either way, and no operator inside is ever refused. `split` is Ok
//! only if all conditions hold, both those before anything is changed and those after the faces are drawn; then it is one command of the
//! machine with exactly the written model, and leaves one record, that of the operators that are written for it (`split_ops`). In a draft
//! it takes these operators as steps. It is refused only with the first false condition and its value. Otherwise the answer is `Memory`. It
//! may come in place of a refusal, but only of one by a condition that is tested after memory is asked for (`early_refusal`). On any
//! failure the session is as it was, and the models ahead are kept, even if the split is refused after the faces are drawn. No operator
//! inside is ever refused. `split_with_flat` does the same, and doesn't look for lone loops and bent faces of a solid that is known to have
//! none. `splits_are_held`: after the answer Ok, a caller of `split` holds a sound model in which both parts are solids and share the six
//! volumes of the one, and every other solid keeps its own. No vertex of the part that keeps the number lies above the plane, and none of
//! the other part lies below it.

mod command;
mod laws;
mod solid_opening;
mod steps;

pub use command::{split, split_in, split_with_flat};
pub use laws::{splits_are_calls, splits_are_held};
pub use split_laws::{parts_lie_on_either_side, parts_share_volumes, splits_make_split};
