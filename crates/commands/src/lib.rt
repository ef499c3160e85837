#![tactic(auto)]
//! Commands: the one way in which an operator, a larger command, a question, undo, redo and a draft reach a session.
//!
//! Commands and calls are defined in `call_types`, and their answers in `solid_listing`. `known` holds a session and what it knows of one of its solids, and
//! makes a change one command of it, with what `changing` has; `drafting` makes it steps of a draft; `asking` answers a question. `stage` holds such a
//! session or a draft of its next command, and `making` makes calls of any kind on it.
//!
//! # What is proved
//!
//! A change is an operator or a larger command. It has one first false condition and one model that it makes (`refusal_of`, `made`), both
//! as a command of a session and as steps of a draft. `KnownSession::change` and `change_in` do one of three things: they make that
//! model, if nothing refuses the change; they name its first false condition; or they answer that memory was refused, which happens only
//! if the conditions hold that are tested before memory is asked for (`MayLack`). On any failure session and draft are as they were, with
//! their records and steps. `make`: one relation, `Tells`, says how a call on a session or a draft is answered, and to which session or
//! draft it leads; each session and draft on the way is whole. It says which operators an accepted change takes as steps, and leaves in its
//! record (`operators_of`); `larger_commands_take_steps` says how many a larger command takes. `commands_are_calls`: a command to a session
//! is one call of a history.

mod asking;
mod changing;
mod drafting;
mod known;
mod laws;
mod making;
mod stage;

pub use asking::ask;
pub use call_types::{Call, Change, Command, Points, Question};
pub use drafting::change_in;
pub use known::KnownSession;
pub use laws::{commands_are_calls, larger_commands_take_steps};
pub use making::{act, make};
pub use solid_listing::Told;
pub use stage::{OpenDraft, Stage};
