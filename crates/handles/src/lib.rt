#![tactic(auto)]
//! What the library for C does to a handle, and what a handle holds after any list of exports.
//!
//! The contract of each export of `gwb_c` names its case of one relation, `HandleGoes`: a handle is opened, closed or read; a session or draft is asked
//! for a call, or only that an answer be kept; or the arguments spell no call. `handles_make_calls` has the laws of lists of exports. It does nothing:
//! its contract is what is proved.
//!
//! # What is proved
//!
//! From a closed handle on, after any list of exports, the handle is closed or holds a session or draft that is whole (`HandlesStayWhole`). What was
//! opened holds a new session (`HandlesBeginNew`). Until the handle is closed its exports are the list of the calls that they ask for, so that all laws
//! of lists of calls hold of it, and C is told the kinds of the answers (`HandlesMakeCalls`). After n commands without undo and redo, n undos are each
//! told `ok` and lead to the model before (`HandlesAreTakenBack`). A reader leaves what it reads (`ReadersLeaveHandles`). A model whose handle says of a
//! text that it is its listing is the only sound one with that listing (`ListedIsHeld`).

ghost use Rattle.call_lists.specs.Common.{IsWhole};
ghost use Rattle.commands.specs.declared.stage.Stage.{Stage};
ghost use Rattle.undo_journal.specs.Journal.{new_journal};
ghost use Rattle.handles.specs.Listed.{ListedIsHeld};
ghost use Rattle.handles.specs.Laws.{HandlesAreTakenBack, HandlesBeginNew, HandlesMakeCalls, HandlesStayWhole, ReadersLeaveHandles};

use call_lists::{commands_are_taken_back, lists_are_histories};
use solid_listing::listing_tells;
use undo_journal::histories_are_consistent;

/// Exports of a handle are the list of the calls that they ask for, whatever they are.
pub fn handles_make_calls()
    ensures begun { IsWhole (Stage.Session new_journal) }
    ensures opened { HandlesBeginNew }
    ensures whole { HandlesStayWhole }
    ensures made { HandlesMakeCalls }
    ensures back { HandlesAreTakenBack }
    ensures read { ReadersLeaveHandles }
    ensures listed { ListedIsHeld }
{
    histories_are_consistent();
    lists_are_histories();
    commands_are_taken_back();
    listing_tells();
}
