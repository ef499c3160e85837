//! The laws of lists of calls. Each function does nothing: its contract is what is proved, over every session or draft and every list.
ghost use Rattle.call_lists.specs.Laws.{ListsAreHistories, ListsKeepWhole, EachIsWhole, PlacesAreCounted, UndosLeadToTheFirst, RedosLeadToTheLast, CommandsAreTakenBack, ListsHaveOneAnswer, ListsHaveOneOutcome, OnlyDoneChanges, IdleListsStay, MemoryCanBeLeftOut, StepsAreMarks, MarksLeadBack};
ghost use Rattle.call_lists.specs.Untouched.{ChangesLeaveUntouched};

use commands::commands_are_calls;
use gluing_laws::glues_make_glued;
use split_laws::splits_make_split;
use sweeps_laws::{operators_make_blocks, operators_make_lamina, sweeps_make_prisms};
use untouched_solids::untouched_solids_stay;

/// What `make_all` says of a list is a history: a list of as many calls of the plain machine leads to the machine after it. Every model on the way is
/// sound, also one that a later command dropped.
pub fn lists_are_histories()
    ensures histories { ListsAreHistories }
    ensures whole { ListsKeepWhole }
    ensures each { EachIsWhole }
{
    commands_are_calls();
}

/// After a list of calls as many commands can be undone as were done and not taken back, and as many redone as were taken back since the last one was
/// done. That many undos give the first model, which is the empty one, and that many redos give the last one.
pub fn undos_and_redos_lead_to_the_ends()
    ensures counted { PlacesAreCounted }
    ensures undos { UndosLeadToTheFirst }
    ensures redos { RedosLeadToTheLast }
{
    commands_are_calls();
}

/// If a list without undo and redo did n commands, then n undos are all done. They lead to the model before the list, and the models before that one
/// and the records of earlier commands are unchanged. Then n redos are all done, and lead to the session after the list, with its records.
pub fn commands_are_taken_back()
    ensures { CommandsAreTakenBack }
{}

/// A call that isn't told `Done` changes nothing, and a list of such calls changes nothing either. A call that is told `Memory` can be left out. If
/// no answer is `Memory`, a list of calls has one list of answers, and leads to one session or draft, with its records and steps. A list without
/// marks has the same answers from two sessions or drafts that are alike but for their records and steps, and leads to two that are.
pub fn lists_have_one_answer()
    ensures one { ListsHaveOneAnswer }
    ensures all { ListsHaveOneOutcome }
    ensures kept { OnlyDoneChanges }
    ensures idle { IdleListsStay }
    ensures memory { MemoryCanBeLeftOut }
{}

/// The number of steps in a draft is a mark of it. After calls that neither end the draft nor go back before a mark, going back to the mark is done,
/// and gives the draft as it was there.
pub fn marks_lead_back()
    ensures steps { StepsAreMarks }
    ensures back { MarksLeadBack }
{}

/// A change of a session or a draft, whatever it is told, leaves each solid that none of its operators touches as it stood: with its faces, loops,
/// edges, vertices and points, and no others, and with its volume. `Tells` names the operators of a change.
pub fn changes_leave_untouched_solids()
    ensures { ChangesLeaveUntouched }
{
    operators_make_lamina();
    operators_make_blocks();
    sweeps_make_prisms();
    glues_make_glued();
    splits_make_split();
    untouched_solids_stay();
}
