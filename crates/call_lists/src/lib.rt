#![tactic(auto)]
//! Lists of calls: a session is taken through any list of commands, drafts with marks, undos and redos, and each call has one answer.
//!
//! `making` makes a whole list of the calls that `commands` makes. The laws do nothing: their contracts are what is proved of such lists.
//! Sessions, drafts, calls, operators and the measure of a solid are passed on to `promises`.
//!
//! # What is proved
//!
//! `make_all`: what each call of a list is told in its turn, and the session or draft after the list, are what `commands` says of one call; the room
//! for the answers is made first. `lists_are_histories`: such a list is a history of as many calls of the plain machine, and each model on the way is
//! sound. `undos_and_redos_lead_to_the_ends`: the calls and answers alone tell how many commands can be undone and redone, and that many undos lead
//! to the empty model, that many redos to the last one. `commands_are_taken_back`: n undos take n commands back, and n redos make them again.
//! `lists_have_one_answer`: a call that isn't told `Done` changes nothing, a call that is told `Memory` can be left out, and if no answer is `Memory`
//! a list has one list of answers, and leads to one session or draft. `marks_lead_back`: going back to a mark gives the draft as it was there.
//! `changes_leave_untouched_solids`: a change leaves each solid that none of its operators touches as it stood.

mod laws;
mod making;

pub use commands::{Call, Change, Command, Points, Question, Stage, Told, make};
pub use euler_operators::{Op, Refusal};
pub use gluing::six_volume;
pub use laws::{
    changes_leave_untouched_solids, commands_are_taken_back, lists_are_histories,
    lists_have_one_answer, marks_lead_back, undos_and_redos_lead_to_the_ends,
};
pub use making::make_all;
pub use undo_journal::{Draft, Failure, Record, Session};
