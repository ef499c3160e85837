#![tactic(auto)]
//! Gluing: two solids become one along one face of each, as one command.
//!
//! `glue_checks` tests the conditions on an arena, in their order; `joining` glues the two faces operator by operator in a draft.
//! `glue_measures` says what a glue makes of volumes.
//!
//! # What is proved
//!
//! `check_glue`: the first false condition of a glue, with its value, or none, or `AllocError`. `glue` is Ok only if all conditions hold; then
//! it is one command of the machine with exactly the written model, and leaves one record, that of the operators that are written for it. In a
//! draft it takes these operators as steps. It is refused only with the first false condition and its value. Otherwise the answer is `Memory`.
//! It may come in place of a refusal, but only of one by a condition that is tested after memory is asked for (`early_refusal`). On any failure
//! the session is as it was, and the models ahead are kept. The models held before and after are sound. No operator inside is ever refused.
//! `glue_with_flat` does the same, and looks at no face of a solid that is known to be closed and flat. `glue_measures`: the six volumes of
//! each solid of the session after a glue.

mod command;
mod glue_checks;
mod joining;
mod laws;
mod rims;

pub use command::{glue, glue_in, glue_with_flat};
pub use euler_operators::Kind;
pub use gluing_laws::{glues_add, glues_make_glued};
pub use laws::{glue_measures, glues_are_calls};
pub use solid_measure::six_volume;
