#![tactic(auto)]
//! What scripts are answered, where only their bytes are spoken of: no model stands in these laws. Except for `answer_script` each function does
//! nothing: its contract is what is proved, over every script.
//!
//! # What is proved
//!
//! `answer_script` runs a script to its end. What it writes has an answer to each line in turn. A line that is answered `memory` counts for those
//! after it as if it hadn't been there. If there is no such line, all that is written is a function of the bytes that were read, `answers`.
//! `runs_tell` and `runs_answer` say the same of `script_running::run`, after a fault too. `answered_so` has one script with its answers.
//!
//! The other laws are about `answers`, and one needn't know its definition. What was answered stays, whatever comes after it (`answers_stay`). A line
//! that isn't answered `ok` can be left out, and the other answers are the same (`others_can_be_left_out`). If `undo` is answered `ok`, `undo`
//! followed by `redo` can be left out (`undo_and_redo_can_be_left_out`). A line that was answered `ok`, followed by `undo`, can be left out if no
//! `redo` comes (`undone_lines_can_be_left_out`). As many undos as a script had replies `ok` are answered `ok` and lead back to the start, where
//! `list` is answered `empty` (`undos_lead_back`). After two scripts that come to equal listings all lines except undo and redo are answered alike
//! (`equal_listings_go_on_alike`). After a block that was answered `ok`, `volume` is answered six times the product of its sizes (`blocks_measure`).
//! After a split the volumes of both parts are answered, and their sum is what was answered before (`parts_share_volumes`). After a sweep one volume
//! has grown by an amount that the plane of the face tells (`sweeps_measure`). After a glue the volume of the first face's solid is the sum of two
//! (`glues_measure`). Behind each of these every other volume is answered as before (`AnswersAsBefore`). These laws speak of any line that spells such a
//! command (`Spells`); `lines_spell` names the plainest. If the only changes that a script asks for are
//! blocks and splits, no volume of 0 or less is answered (`blocks_and_splits_have_volume`). A text begins with at most one reply, whose
//! numbers tell why (`replies_tell`).

ghost use Rattle.std.specs.Prelude.{IfOk, false};
ghost use Rattle.script_laws.specs.Laws.{RunsAnswer, RunsTell, BrokenRunsTell, FailedRunsTell, AnsweredSo, AnswersStay, OthersCanBeLeftOut, UndoAndRedoCanBeLeftOut, UndoneLinesCanBeLeftOut, UndosLeadBack, SomeUndosLeadBack, EqualListingsGoOnAlike, BlockLinesSpell, SplitLinesSpell, VolumeLinesSpell, BlocksMeasure, PartsShareVolumes, SweepsMeasure, GluesMeasure, BlocksAndSplitsHaveVolume, OthersMayHaveNone, WrittenVolumesArePositive, RepliesTell, RefusalsTell, FaultsTell};
ghost use Rattle.script_laws.specs.Scripts.{Answered};
ghost use Rattle.script_running.specs.Reaching.{AsksAnswers};

use command_laws::{glues_keep_and_join, solids_are_there};
use convex_laws::built_are_convex;
use gluing::glue_measures;
use plane_split::splits_are_held;
use script_running::{Inlet, Outlet, RunFault, Summary, lines_are_calls, run};
use solid_listing::listing_tells;
use std::alloc::Global;
use sweeps::{block_measures, sweep_measures};

/// Runs a script to its end. What is written is a function of the bytes read: `answers`, of which the laws below speak.
pub fn answer_script<R: Inlet<W> + Drop, W: Outlet>(
    alloc: Global,
    reader: R,
    writer: &mut W,
) -> Result<Summary, RunFault>
    requires { AsksAnswers R.remaining R.asks reader (W.contents writer.old) false }
    ensures { IfOk result (λ summary. Answered (R.remaining reader) (W.contents writer.old) (W.contents writer.new) summary) }
{
    run(alloc, reader, writer, false)
}

/// If no reply is `memory`, a run without `stop` writes the answers to the bytes that it was given.
pub fn runs_answer()
    ensures { RunsAnswer }
{}

/// Whatever memory is refused, a run without `stop` writes the answers to its lines in turn. A line that is answered `memory` counts for those after
/// it as if it hadn't been there. After a failed read, or if the script is too long, the same holds for the lines that came with their newlines.
/// After a failed write a prefix of the answers is out.
pub fn runs_tell()
    ensures ended { RunsTell }
    ensures broken { BrokenRunsTell }
    ensures failed { FailedRunsTell }
{}

/// An example: a script and its answers.
pub fn answered_so()
    ensures { AnsweredSo }
{}

/// What was answered stays, whatever comes after it.
pub fn answers_stay()
    ensures { AnswersStay }
{}

/// A line that isn't answered `ok` can be left out: a refused command, a fault, a question, a comment.
pub fn others_can_be_left_out()
    ensures { OthersCanBeLeftOut }
{}

/// If `undo` is answered `ok`, so is `redo` after it, and both can be left out.
pub fn undo_and_redo_can_be_left_out()
    ensures { UndoAndRedoCanBeLeftOut }
{}

/// If a line other than `undo` is answered `ok`, so is `undo` after it, and both can be left out where no `redo` comes.
pub fn undone_lines_can_be_left_out()
    ensures { UndoneLinesCanBeLeftOut }
{}

/// If a script has no undo and no redo, as many undos as it had replies `ok` are answered `ok`, and lead back to the start: `list` is answered
/// `empty`, and whatever comes then, except `redo`, is answered as if it were the whole script. For any script some number of undos does this.
pub fn undos_lead_back()
    ensures counted { UndosLeadBack }
    ensures some { SomeUndosLeadBack }
{}

/// If two scripts come to equal listings, whatever comes after them, except undo and redo, is answered alike.
pub fn equal_listings_go_on_alike()
    ensures { EqualListingsGoOnAlike }
{
    lines_are_calls();
    listing_tells();
}

/// The plainest lines, with one blank between words, spell a block, a split, and the question for a volume.
pub fn lines_spell()
    ensures block { BlockLinesSpell }
    ensures split { SplitLinesSpell }
    ensures volume { VolumeLinesSpell }
{}

/// After a block that was answered `ok`, its volume is answered: six times the product of its sizes. Every other volume is answered as before.
pub fn blocks_measure()
    ensures { BlocksMeasure }
{
    lines_are_calls();
    block_measures();
    solids_are_there();
}

/// After a split that was answered `ok` the volumes of both parts are answered, and their sum is what was answered for the solid before. Every other
/// volume is answered as before.
pub fn parts_share_volumes()
    ensures { PartsShareVolumes }
{
    lines_are_calls();
    splits_are_held();
}

/// After a sweep that was answered `ok` the volume of one solid has grown by three times the product of the vector with the first three numbers that
/// the plane of the face was answered; every other volume is answered as before.
pub fn sweeps_measure()
    ensures { SweepsMeasure }
{
    lines_are_calls();
    sweep_measures();
    solids_are_there();
}

/// After a glue that was answered `ok` the volume of the first face's solid is the sum of the two before, and the second face's solid is gone. Which
/// solids these are the listing before it tells. Every other volume is answered as before.
pub fn glues_measure()
    ensures { GluesMeasure }
{
    lines_are_calls();
    glue_measures();
    glues_keep_and_join();
}

/// If the only changes that a script asks for are blocks and splits, a question for a volume behind it is answered a number greater than 0, or it is
/// refused. (Other changes may make a solid whose volume is 0, or less.) And whatever memory is refused, no answer to such a script is a volume of 0
/// or less.
pub fn blocks_and_splits_have_volume()
    ensures asked { BlocksAndSplitsHaveVolume }
    ensures otherwise { OthersMayHaveNone }
    ensures written { WrittenVolumesArePositive }
{
    built_are_convex();
}

/// A text begins with at most one reply, so answers without listings can be cut into replies in only one way. The number of a refusal tells why the
/// command was refused, and that of a fault what is wrong.
pub fn replies_tell()
    ensures replies { RepliesTell }
    ensures refusals { RefusalsTell }
    ensures faults { FaultsTell }
{}
