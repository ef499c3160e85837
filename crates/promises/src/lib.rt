#![tactic(auto)]
//! What holds of the workbench, in one file. The contract of each function is a promise. Some functions are laws: a law only calls the laws that it
//! sums up, which do nothing themselves. What a law says is proved in the crate of those laws, over every machine, every sound model and every list
//! of calls. The other functions make one call each, and their contracts say what that call does. The first function has the headline, and
//! `every_line_is_answered` runs a script.
//!
//! What isn't said here:
//! - `check`, `apply` and `replay` on an arena: `euler_conditions/src/every.rt`, `low_euler/src/applying.rt`;
//! - an arena read and copied: `halfedge_arena/src/readers.rt`, `halfedge_arena/src/arena.rt`;
//! - nodes linked by `next` and `prev`, a splice of them, and what a drop frees: `raw_ring/src/rings.rt`, `raw_ring/src/nodes.rt`;
//! - normals, planes, flat faces and counts: `solid_measure/src/measures.rt`, `solid_measure/src/solid_counts/solids.rt`;
//! - points, sides of a plane and cut points: `lattice/src`;
//! - the faces of new blocks, and which faces are flat: `command_laws/src`;
//! - which half-spaces hold the parts of a split, and which convex solids stay convex: `convex_laws/src`;
//! - what the volumes are after a sweep and after a glue, in terms of bytes: `script_laws/src`;
//! - the grammar, the command line and the exit status: `script_reader/src/line.rt`, `command_line/src`;
//! - what each call of the library for C does, and what its readers answer: `session_slots/src`, `gwb_c/src`.
//!
//! # What is proved
//!
//! Of its own only what splices of nodes lead to (`SplicesCut`, `SplicesJoin`, `SplicesKeepOthers`). Each function
//! calls the laws of the crates below, or makes a call, and has what they say as its contract. They stand in this order: lists of calls, marks,
//! untouched solids and handles of C, one call of each kind, records and volumes (`every_list_of_calls_is_answered` and those after it); conditions, operators and their
//! inverses (from `refusals_name_the_first_false`); splices of rings (from `splices_cut_and_join`); the plain machine and its histories (from
//! `sessions_are_copies_and_a_place`); what larger commands make and measure, what a session holds after them, and which solids are convex (from
//! `laminas_are_made`); listings, lines and scripts (from `listings_tell_models`); and scripts, where only bytes are spoken of (from
//! `every_script_is_answered`).

ghost use Rattle.std.specs.Prelude.{◌≡◌, ◌↔◌, ◌+◌, ◌<◌, OnOk, OnErr, IfOk, IfErr, None, Some, Err, false, slice_index_or};
ghost use Rattle.call_lists.specs.Common.{IsConsistent, IsWhole, Tells, act_refusal, after_act, after_commit, after_redo, after_step, after_undo, ahead, answer, depth, first_false, held, model_at, new_draft, new_journal, redo_refusal, six_volume, solid_refusal, undo_refusal, verdict};
ghost use Rattle.call_lists.specs.Laws.{ListsAreHistories, ListsKeepWhole, EachIsWhole, PlacesAreCounted, UndosLeadToTheFirst, RedosLeadToTheLast, CommandsAreTakenBack, ListsHaveOneAnswer, ListsHaveOneOutcome, OnlyDoneChanges, IdleListsStay, MemoryCanBeLeftOut, StepsAreMarks, MarksLeadBack};
ghost use Rattle.call_lists.specs.Making.{AreTold};
ghost use Rattle.call_lists.specs.Untouched.{ChangesLeaveUntouched};
ghost use Rattle.commands.specs.Steps.{LaminasTakeSteps, BlocksTakeSteps, SweepsTakeSteps, GluesTakeSteps, SplitsTakeSteps};
ghost use Rattle.convex_laws.specs.Convex.{BlocksAreConvex, BuiltAreConvex, BuiltHaveVolume, ConvexSolidsHaveVolume, PartsOfConvexSolidsHaveVolume, SplitsKeepStrictlyConvex};
ghost use Rattle.handles.specs.Laws.{HandlesAreTakenBack, HandlesBeginNew, HandlesMakeCalls, HandlesStayWhole, ReadersLeaveHandles};
ghost use Rattle.handles.specs.Listed.{ListedIsHeld};
ghost use Rattle.pool_rings.specs.Laws.{EachCodeHasItsRing, RingsAreRotations, CodesShareOrHaveTwo, SplicedPoolsCut, SplicedPoolsJoin, SplicedPoolsKeepOthers, SplicedPoolsStay, PoolsLeadBack};
ghost use Rattle.promises.specs.Splices.{SplicesCut, SplicesJoin, SplicesKeepOthers};
ghost use Rattle.reached_models.specs.Laws.{BuildersSuffice, SoundIsLinked, SoundIsReached};
ghost use Rattle.script_laws.specs.Laws.{RunsTell, BrokenRunsTell, FailedRunsTell, AnsweredSo, AnswersStay, OthersCanBeLeftOut, UndoAndRedoCanBeLeftOut, UndoneLinesCanBeLeftOut, UndosLeadBack, SomeUndosLeadBack, EqualListingsGoOnAlike, BlocksMeasure, PartsShareVolumes, SweepsMeasure, GluesMeasure, BlocksAndSplitsHaveVolume, OthersMayHaveNone, WrittenVolumesArePositive, RepliesTell, RefusalsTell, FaultsTell};
ghost use Rattle.script_laws.specs.Scripts.{Answered};
ghost use Rattle.script_running.specs.Histories.{LinesAreCalls, LinesLeadOn, HistoriesMakeConsistent, RunsTellHistories};
ghost use Rattle.script_running.specs.Laws.{LinesAreTold, OneOutput, HasNoMemory};
ghost use Rattle.split_drawing_laws.specs.tables.Laws.{CrossingsAreDoubled, DrawingsAreCut, RewritingsAreOfTables};
ghost use Rattle.script_running.specs.Reaching.{AsksAnswers, HandsOn};
ghost use Rattle.script_running.specs.Runs.{Runs};
ghost use Rattle.script_running.specs.laws_below.{AcceptedIsAppended, AreAccepted, BlocksAreAccepted, BlocksAreCalls, BlocksAreSound, EffectsAreSound, EmptyIsSound, EulerNumberGrows, GlueAdds, GluedAreSound, GluedSolid, GluesAreAccepted, GluesAreCalls, GluesMakeGlued, HeldAreSound, HeldIsAtThePlace, HeldKeepOthers, HeldLieOnEitherSide, HeldShareVolumes, HistoriesAreConsistent, InversesAreAccepted, InversesOfRunsAreAccepted, InversesOfRunsUndo, InversesUndo, LaminaIsSound, LaminasAreCalls, LargerCommandsAreCalls, ListingTells, NewBlock, NewFlatLamina, NewLamina, NothingIsRefusedWhereAllHold, OperatorsAreAccepted, OperatorsMakeBlocks, OperatorsMakeLamina, OthersStay, OthersThanBlock, OthersThanGlued, OthersThanLamina, OthersThanSwept, PartsAreHeld, PartsAreSolids, PrismsAreSound, RedoMovesThePlace, RefusalsNameTheFirstFalse, RunsAreSound, SplitAreSound, SplitsAreAccepted, SplitsAreCalls, SplitsAreHeld, SplitsKeepOthers, SplitsMakeSplit, SplitsShareVolumes, SweepsAreAccepted, SweepsAreCalls, SweepsMakePrisms, SweptSolid, UndoGivesTheModelBefore, UndoMovesThePlace, VerticesLieOnEitherSide, effects};
ghost use Rattle.untouched_solids.specs.Laws.{UntouchedStay};

use call_lists::{
    Call, Draft, Failure, Op, Record, Refusal, Session, Stage, Told,
    changes_leave_untouched_solids, commands_are_taken_back, lists_are_histories,
    lists_have_one_answer, make, make_all, marks_lead_back, six_volume,
    undos_and_redos_lead_to_the_ends,
};
use commands::larger_commands_take_steps;
use convex_laws::{
    blocks_are_convex, built_are_convex, convex_solids_have_volume, splits_keep_strictly_convex,
};
use handles::handles_make_calls;
use pool_rings::{codes_have_one_ring, splices_of_pools};
use reached_models::sound_models_are_reached;
use script_laws::{
    answer_script, answered_so, answers_stay, blocks_and_splits_have_volume, blocks_measure,
    equal_listings_go_on_alike, glues_measure, others_can_be_left_out, parts_share_volumes,
    replies_tell, runs_tell, sweeps_measure, undo_and_redo_can_be_left_out,
    undone_lines_can_be_left_out, undos_lead_back,
};
use script_running::{
    Inlet, Outlet, RunFault, Summary, laws_below, lines_are_calls, lines_are_told, one_output, run,
    runs_tell_histories,
};
use split_drawing_laws::rewritings_are_of_tables;
use std::alloc::{AllocError, Global};
use untouched_solids::untouched_solids_stay;

/// After any list of commands, drafts with marks, undos and redos the workbench holds, with equal numbers, coordinates and cyclic loops, the
/// model of a plain machine that keeps a whole copy of every model. Undoing gives the model before and redoing the model after. A refused
/// command names its first false condition, or refused memory, and changes nothing. Every model held on the way is sound.
///
/// The list begins with a session, or with a draft of its next command, and ends with either. `told` gets one answer for each call. Memory for all
/// answers is asked for first: on `AllocError` no call was made.
pub fn every_list_of_calls_is_answered(
    alloc: Global,
    stage: Stage,
    calls: Vec<Call<'_>>,
    told: &mut Vec<Told>,
) -> (Stage, Result<(), AllocError>)
    ensures made { OnOk result.1 (AreTold stage calls.entry.items told.old.items told.new.items result.0) }
    ensures err { OnErr result.1 ((result.0 ≡ stage) × (told.new.items ≡ told.old.items)) }
    ensures whole { IsWhole result.0 }
{
    make_all(alloc, stage, calls, told)
}

/// The calls of such a list and their answers alone tell how many commands can be undone afterwards, and how many redone. As many can be undone as
/// were done and not taken back, and as many redone as were taken back since the last one was done. That many undos give the empty model, and that
/// many redos the last one. If a list without undo and redo did n commands, then n undos are all done. They lead to the model before the list, and
/// the models before that one and the records of earlier commands are unchanged. Then n redos are all done, and lead to the session after the list,
/// with its records. The list is a history of as many calls. Every model that was held on the way is sound, also one that a later command dropped.
pub fn lists_of_calls_are_taken_back()
    ensures counted { PlacesAreCounted }
    ensures undos { UndosLeadToTheFirst }
    ensures redos { RedosLeadToTheLast }
    ensures back { CommandsAreTakenBack }
    ensures histories { ListsAreHistories }
    ensures whole { ListsKeepWhole }
    ensures each { EachIsWhole }
{
    undos_and_redos_lead_to_the_ends();
    commands_are_taken_back();
    lists_are_histories();
}

/// A call that isn't told `Done` changes nothing: no model, record or step. A list of such calls changes nothing either. Calls that are told `Memory`
/// can be left out of a list. If no answer is `Memory`, a list has one list of answers, and leads to one session or draft: its model, its records, its
/// steps and what can be undone and redone. A list without marks has the same answers from two sessions or drafts that are alike but for their records
/// and steps, and leads to two that are alike in this way.
pub fn lists_of_calls_have_one_answer()
    ensures one { ListsHaveOneAnswer }
    ensures all { ListsHaveOneOutcome }
    ensures kept { OnlyDoneChanges }
    ensures idle { IdleListsStay }
    ensures memory { MemoryCanBeLeftOut }
{
    lists_have_one_answer();
}

/// The number of steps in a draft is a mark of it. After calls that neither end the draft nor go back before the mark, going back to the mark is
/// done. The draft then is what it was at the mark: its model, its steps and the session in which it was opened.
pub fn marks_lead_back_to_the_draft()
    ensures steps { StepsAreMarks }
    ensures back { MarksLeadBack }
{
    marks_lead_back();
}

/// A change of a session or a draft, whatever it is told, leaves each solid that none of its operators touches as it stood. Its faces, loops, edges,
/// vertices and points are the same, and none more, and so is its volume. An operator touches the solids that it names, and those of the faces, loops
/// and corners that it names; `Tells` names the operators of a change. So this holds of whatever a program builds of changes.
pub fn untouched_solids_stand_as_they_stood()
    ensures operators { UntouchedStay }
    ensures changes { ChangesLeaveUntouched }
{
    untouched_solids_stay();
    changes_leave_untouched_solids();
}

/// What a handle of C holds after any list of exports, of whatever kind, each a case of `HandleGoes`. From a closed handle on, the handle is closed or
/// holds a session or draft that is whole. What was opened holds a new session. Until it is closed, its exports are a list of the calls that they ask
/// for, as above: so it holds the plain machine's model, and all that is said of lists here holds of it. C is told the kinds of the answers, and the
/// last answer is kept; a call that concerns a mark, or that the session or draft doesn't have, leaves the answer before it. If a session did n
/// commands without undo and redo, n undos are each told `ok`, and lead to the model before them. A reader leaves what it reads. Where a handle says of
/// a text that it is the listing, it holds the only sound model with that listing: what was loaded is what was written.
pub fn handles_hold_lists_of_calls()
    ensures begun { IsWhole (Stage.Session new_journal) }
    ensures opened { HandlesBeginNew }
    ensures whole { HandlesStayWhole }
    ensures made { HandlesMakeCalls }
    ensures back { HandlesAreTakenBack }
    ensures read { ReadersLeaveHandles }
    ensures listed { ListedIsHeld }
{
    handles_make_calls();
}

/// What one call does, of any kind: a change (an operator, a lamina, a block, a sweep, a glue or a split), which is one command in a session and
/// steps in a draft; a question; undo or redo; or opening, marking, taking back to a mark, committing or abandoning a draft. A call is refused only
/// by its first false condition. If that condition of a glue or a split is tested after memory is asked for, so that `early_refusal` doesn't give it,
/// the answer may be `Memory` instead.
pub fn every_call_is_answered(alloc: Global, stage: Stage, call: Call<'_>) -> (Stage, Told)
    ensures told { Tells stage call.entry result.1 result.0 }
    ensures whole { IsWhole result.0 }
{
    make(alloc, stage, call)
}

/// A new session holds the empty model, and has no record.
pub fn sessions_begin_empty(alloc: Global) -> Result<Session, AllocError>
    ensures { IfOk result (λ session. session ≡ new_journal) }
{
    Session::new(alloc)
}

/// Every session, whatever made it: its first model is the empty one, each model is sound, and each next model is made from the one before it by
/// operators that are accepted one after another.
pub fn every_session_is_consistent(session: &Session)
    ensures { IsConsistent session.now.machine }
{
    session.stays_consistent();
}

/// An operator is accepted and leaves a record of itself and its inverse, or it is refused with the first condition that is false. An operator that
/// isn't accepted changes nothing.
pub fn every_operator_is_answered(session: &mut Session, op: Op) -> Result<(), Failure>
    ensures ok { OnOk result ((act_refusal session.old.machine op ≡ None) × (session.new ≡ after_act session.old op)) }
    ensures refused { (refusal : Refusal) → ((result ≡ Err (Failure.Refused refusal)) ↔ (act_refusal session.old.machine op ≡ Some refusal)) }
    ensures err { OnErr result (session.new ≡ session.old) }
{
    session.act(op)
}

/// Undo is refused only where no command is left to undo, never for want of memory, and changes nothing then. All records stay.
pub fn every_undo_is_answered(session: &mut Session) -> Result<(), Refusal>
    ensures ok { OnOk result (session.new ≡ after_undo session.old) }
    ensures refused { result ≡ verdict (undo_refusal session.old.machine) }
    ensures err { OnErr result (session.new ≡ session.old) }
{
    session.undo()
}

/// Redo is refused only where no command is left to redo, never for want of memory, and changes nothing then. All records stay.
pub fn every_redo_is_answered(session: &mut Session) -> Result<(), Refusal>
    ensures ok { OnOk result (session.new ≡ after_redo session.old) }
    ensures refused { result ≡ verdict (redo_refusal session.old.machine) }
    ensures err { OnErr result (session.new ≡ session.old) }
{
    session.redo()
}

/// A draft holds the session's model, and has no step. If memory is refused, the session comes back as it was.
pub fn every_draft_is_opened(session: Session) -> Result<Draft, (Session, AllocError)>
    ensures ok { IfOk result (λ draft. draft ≡ new_draft session) }
    ensures err { IfErr result (λ e. e.0 ≡ session) }
{
    Draft::open(session)
}

/// A step of a draft is accepted, or it is refused with the first condition that is false in the draft's model. A step that isn't accepted changes
/// nothing, and the draft goes on.
pub fn every_step_is_answered(draft: &mut Draft, op: Op) -> Result<(), Failure>
    ensures ok { OnOk result ((first_false draft.old.model op ≡ None) × (draft.new ≡ after_step draft.old op)) }
    ensures refused { (refusal : Refusal) → ((result ≡ Err (Failure.Refused refusal)) ↔ (first_false draft.old.model op ≡ Some refusal)) }
    ensures err { OnErr result (draft.new ≡ draft.old) }
{
    draft.step(op)
}

/// The steps of a draft become one command. Its record has the steps, and their inverses in reverse order. Committing can't fail.
pub fn drafts_become_one_command(draft: Draft) -> Session
    ensures { result ≡ after_commit draft }
{
    draft.commit()
}

/// A draft that is abandoned leaves the session as it was, with the models ahead and all records. Abandoning can't fail.
pub fn drafts_leave_no_trace(draft: Draft) -> Session
    ensures { result ≡ draft.session }
{
    draft.abandon()
}

/// The record of each command has two lists of operators. Those of the first are accepted one after another and lead from the model before the
/// command to the model after it; those of the second are accepted too, and lead back.
pub fn records_lead_forth_and_back(session: &Session, index: usize) -> &Record
    requires { index < depth session.now.machine + ahead session.now.machine }
    ensures exact { result.now ≡ slice_index_or session.now.records index result.now }
    ensures forward_goes { AreAccepted (model_at session.now.machine index) result.now.forward }
    ensures forward { effects (model_at session.now.machine index) result.now.forward ≡ model_at session.now.machine (index + 1) }
    ensures back_goes { AreAccepted (model_at session.now.machine (index + 1)) result.now.back }
    ensures back { effects (model_at session.now.machine (index + 1)) result.now.back ≡ model_at session.now.machine index }
{
    session.record(index)
}

/// Six times the volume of a solid in the model held is answered exactly. The question is refused if the number is out of range or there is no such
/// solid.
pub fn volumes_are_answered(session: &Session, solid: u32) -> Result<i128, Refusal>
    ensures { result ≡ answer (solid_refusal (held session.now.machine) solid) (six_volume (held session.now.machine) solid) }
{
    six_volume(session.arena(), solid)
}

/// The conditions of an operator or of a larger command are tested in their order. If each of them holds, nothing is refused. Otherwise the first one
/// that doesn't hold is refused.
pub fn refusals_name_the_first_false()
    ensures nothing { NothingIsRefusedWhereAllHold }
    ensures first { RefusalsNameTheFirstFalse }
{
    laws_below::refusals_name_the_first_false();
}

/// The empty model is sound, and so is the model after an operator that isn't refused. Vertices less edges, plus faces, less rings:
/// mvfs and mfkrh add 2, kvfs and kfmrh take 2, and the other operators keep it.
pub fn operators_keep_models_sound()
    ensures empty { EmptyIsSound }
    ensures sound { EffectsAreSound }
    ensures euler_number { EulerNumberGrows }
{
    laws_below::effects_are_sound();
    laws_below::euler_number_grows();
}

/// The inverse of an accepted operator is accepted after it, and gives the model before.
pub fn inverses_take_operators_back()
    ensures accepted { InversesAreAccepted }
    ensures undone { InversesUndo }
{
    laws_below::inverses_undo();
}

/// The same holds for a list of operators, each accepted in its turn: the model after them is sound, and their inverses in reverse order are accepted
/// in turn and give the model before.
pub fn inverses_take_runs_back()
    ensures sound { RunsAreSound }
    ensures accepted { InversesOfRunsAreAccepted }
    ensures undone { InversesOfRunsUndo }
{
    laws_below::runs_are_undone();
}

/// A model is sound exactly if operators, each accepted in its turn, make it from the empty model. They lead from each sound model to each other, and
/// six of them are enough to make each.
pub fn operators_make_each_sound_model()
    ensures reached { SoundIsReached }
    ensures linked { SoundIsLinked }
    ensures builders { BuildersSuffice }
{
    sound_models_are_reached();
}

/// Exchanging what follows two items of rings cuts a ring in two if both items stand in it, and joins two rings if each has one of the items. All
/// other rings stay.
pub fn splices_cut_and_join()
    ensures cut { SplicesCut }
    ensures join { SplicesJoin }
    ensures others { SplicesKeepOthers }
{}

/// Each code of a pool of nodes stands in one ring, so two codes stand in one ring together or in two different rings.
pub fn codes_of_pools_have_one_ring()
    ensures there { EachCodeHasItsRing }
    ensures one { RingsAreRotations }
    ensures two { CodesShareOrHaveTwo }
{
    codes_have_one_ring();
}

/// The same holds for the rings of a pool of nodes after a splice; if the two codes are the same, nothing changes. Only one code leads to any given
/// code, so `prev` is the inverse of `next`.
pub fn spliced_pools_are_cut_and_joined()
    ensures cut { SplicedPoolsCut }
    ensures joined { SplicedPoolsJoin }
    ensures others { SplicedPoolsKeepOthers }
    ensures one { SplicedPoolsStay }
    ensures back { PoolsLeadBack }
{
    splices_of_pools();
}

/// The plain machine keeps a copy of every model, and a place among them. An accepted command drops the copies after the place and appends one. Undo
/// and redo move the place.
pub fn sessions_are_copies_and_a_place()
    ensures held { HeldIsAtThePlace }
    ensures appended { AcceptedIsAppended }
    ensures undo { UndoMovesThePlace }
    ensures redo { RedoMovesThePlace }
{
    laws_below::machines_are_copies();
}

/// After an accepted command undo isn't refused and gives the model before it, and then redo the machine after it.
pub fn undo_goes_back_and_redo_forth()
    ensures { UndoGivesTheModelBefore }
{
    laws_below::undo_gives_the_model_before();
}

/// Whatever calls are made, each accepted, refused or stopped: the first model is the empty one, each model is sound, and each next one is made by
/// operators that are accepted in turn. As many undos as can be made lead to the empty model, and as many redos as can be made to the last one.
pub fn every_history_is_consistent()
    ensures { HistoriesAreConsistent }
{
    laws_below::histories_are_consistent();
}

/// A larger command is a call of a history if accepted operators make its model. So a lamina, a block, a sweep, a glue or a split that isn't refused
/// is one.
pub fn larger_commands_are_one_call()
    ensures any { LargerCommandsAreCalls }
    ensures lamina { LaminasAreCalls }
    ensures block { BlocksAreCalls }
    ensures sweep { SweepsAreCalls }
    ensures glue { GluesAreCalls }
    ensures split { SplitsAreCalls }
{
    laws_below::histories_are_consistent();
    laws_below::larger_commands_are_calls();
    laws_below::glues_are_calls();
    laws_below::splits_are_calls();
}

/// A lamina that isn't refused takes an operator for each point, and one more. A block takes thirteen, and a sweep two for each corner of its face. A
/// glue takes three for each half-edge of the first face's outer loop, and two more. A split takes one for each edge that crosses the plane, for each
/// pair of cut places and for each ring that goes to a new face, three for each edge of the section and one more for each of its cycles, two for each
/// hole, and a last one. `Tells` says that these are the operators of the record that the command leaves in a session, and its steps in a draft.
pub fn larger_commands_take_so_many_operators()
    ensures lamina { LaminasTakeSteps }
    ensures block { BlocksTakeSteps }
    ensures sweep { SweepsTakeSteps }
    ensures glue { GluesTakeSteps }
    ensures split { SplitsTakeSteps }
{
    larger_commands_take_steps();
}

/// If a lamina isn't refused, none of its operators is refused, they make its model, and this model is sound.
pub fn laminas_are_made()
    ensures accepted { OperatorsAreAccepted }
    ensures made { OperatorsMakeLamina }
    ensures sound { LaminaIsSound }
{
    laws_below::operators_make_lamina();
}

/// If a block isn't refused, none of its operators is refused, they make its model, and this model is sound.
pub fn blocks_are_made()
    ensures accepted { BlocksAreAccepted }
    ensures made { OperatorsMakeBlocks }
    ensures sound { BlocksAreSound }
{
    laws_below::operators_make_blocks();
}

/// If a sweep isn't refused, none of its operators is refused, they make its model, and this model is sound.
pub fn sweeps_are_made()
    ensures accepted { SweepsAreAccepted }
    ensures made { SweepsMakePrisms }
    ensures sound { PrismsAreSound }
{
    laws_below::sweeps_make_prisms();
}

/// Six times the volume of a new block is six times the product of its sizes. For a new lamina it is the product of its first face's normal with the
/// vector from its second point to its first, which is zero if that face is flat. Every other solid keeps its volume.
pub fn new_solids_measure()
    ensures block { NewBlock }
    ensures others_than_block { OthersThanBlock }
    ensures lamina { NewLamina }
    ensures flat_lamina { NewFlatLamina }
    ensures others_than_lamina { OthersThanLamina }
{
    laws_below::block_measures();
    laws_below::lamina_measures();
}

/// A sweep adds to six times the volume of its solid three times the product of the vector with the normal that the face had before. This is six
/// times the volume of the prism. Every other solid keeps its volume.
pub fn sweeps_add_their_prism()
    ensures solid { SweptSolid }
    ensures others { OthersThanSwept }
{
    laws_below::sweep_measures();
}

/// If a glue isn't refused, none of its operators is refused, they make its model, and this model is sound.
pub fn glues_are_made()
    ensures accepted { GluesAreAccepted }
    ensures made { GluesMakeGlued }
    ensures sound { GluedAreSound }
{
    laws_below::glues_make_glued();
}

/// After a glue the first face's solid has the volumes of the two solids together. Every solid that wasn't glued keeps its volume.
pub fn glued_solids_add_their_volumes()
    ensures two { GlueAdds }
    ensures others { OthersStay }
{
    laws_below::glues_add();
}

/// The same holds in a session: after a glue that isn't refused, the first face's solid has the volumes that the two solids had together before, and
/// every solid that wasn't glued keeps its volume.
pub fn glued_solids_are_held()
    ensures solid { GluedSolid }
    ensures others { OthersThanGlued }
{
    laws_below::glue_measures();
}

/// If a split isn't refused, none of its operators is refused, they make its model, and this model is sound.
pub fn splits_are_made()
    ensures accepted { SplitsAreAccepted }
    ensures made { SplitsMakeSplit }
    ensures sound { SplitAreSound }
{
    laws_below::splits_make_split();
}

/// The first two rewritings of a split are defined by operators, and rewrite whole tables. The edges that cross the plane are doubled: in the loops `+e`
/// becomes `+E +e`, and `-e` becomes `-e -E`. Then a chord makes two loops of one in each straddling face: `A B` becomes `+E B`, and `A -E` bounds a new
/// face. A bridge makes one loop of two: X and Y become `+E X -E Y`.
pub fn split_rewritings_are_of_tables()
    ensures doubled { CrossingsAreDoubled }
    ensures cut { DrawingsAreCut }
    ensures tables { RewritingsAreOfTables }
{
    rewritings_are_of_tables();
}

/// Both parts of a split are solids, and the sum of their volumes is that of the solid before. Every other solid keeps its volume.
pub fn parts_share_the_volume()
    ensures solids { PartsAreSolids }
    ensures two { SplitsShareVolumes }
    ensures others { SplitsKeepOthers }
{
    laws_below::parts_share_volumes();
}

/// No vertex of the part that keeps the solid's number lies above the plane, and no vertex of the new part lies below it.
pub fn parts_lie_on_their_sides()
    ensures { VerticesLieOnEitherSide }
{
    laws_below::parts_lie_on_either_side();
}

/// The same holds in a session: after a split that isn't refused it holds the split's model, which is sound. In it both parts are solids, and the sum
/// of their volumes is that of the solid before; every other solid keeps its volume. No vertex of the part that keeps the solid's number lies above
/// the plane, and no vertex of the new part lies below it.
pub fn split_solids_are_held()
    ensures made { SplitsAreHeld }
    ensures sound { HeldAreSound }
    ensures parts { PartsAreHeld }
    ensures volumes { HeldShareVolumes }
    ensures others { HeldKeepOthers }
    ensures sides { HeldLieOnEitherSide }
{
    laws_below::splits_are_held();
}

/// A new block is strictly convex: its faces are flat, none of its vertices lies above the plane of one of them, and at each of its edges the two
/// faces bend away from each other. Each strictly convex solid of a sound model has a volume greater than 0.
pub fn new_blocks_are_convex()
    ensures block { BlocksAreConvex }
    ensures volume { ConvexSolidsHaveVolume }
{
    blocks_are_convex();
    convex_solids_have_volume();
}

/// Both parts of a strictly convex solid are strictly convex after a split, along whatever plane, and so both have a volume greater than 0.
pub fn parts_of_convex_solids_are_convex()
    ensures parts { SplitsKeepStrictlyConvex }
    ensures volumes { PartsOfConvexSolidsHaveVolume }
{
    splits_keep_strictly_convex();
}

/// Whatever accepted blocks, splits, undos and redos make from the empty model on, in any order and number, has only strictly convex solids, and each
/// has a volume greater than 0.
pub fn blocks_and_splits_make_convex_solids()
    ensures solids { BuiltAreConvex }
    ensures volumes { BuiltHaveVolume }
{
    built_are_convex();
}

/// A listing tells all of a sound model: two sound models have equal listings exactly if they are equal.
pub fn listings_tell_models()
    ensures { ListingTells }
{
    laws_below::listing_tells();
}

/// If no reply is `memory`, the lines of a script have one output and one summary, which counts no `memory`.
pub fn scripts_have_one_output()
    ensures one { OneOutput }
    ensures quiet { HasNoMemory }
{
    one_output();
}

/// A line that is judged on a sound model is one call of a history, whatever its command and its answer are. So if a list of calls led to the machine
/// before the line, then a list of calls leads to the machine after it, and both machines are consistent.
pub fn every_line_is_a_call()
    ensures calls { LinesAreCalls }
    ensures lead { LinesLeadOn }
    ensures consistent { HistoriesMakeConsistent }
{
    lines_are_calls();
}

/// A line that spells a command has the same answer as the call that gives this command to the session, and leads to the same session. So what is
/// said of lists of calls holds of scripts too.
pub fn every_line_is_told_as_its_call()
    ensures { LinesAreTold }
{
    lines_are_told();
}

/// The same holds for a whole script, by what `run` says of it, whatever it returns. The lines take their turns from the empty model on, and each is
/// one call from a consistent machine to a consistent one. What is written is the texts of their answers, or a prefix of these after a failed write.
/// Each listing is that of a sound model. If the run ended well, each line that it counts takes its turn.
pub fn every_run_tells_a_history()
    ensures { RunsTellHistories }
{
    runs_tell_histories();
}

/// What `gwb` does with a script: it answers each line that the reader gives, in order, and writes the answers. After Ok the answers are those to all
/// lines, or, if `stop` is set, to those up to the line that stopped the run. If no reply was `memory`, they are the script's one output. After
/// `Read` or `TooLong` they are the answers to the lines that came with their newlines. After `Write` a prefix of the answers to the lines that were
/// read is written. After `Memory` nothing was read or written. Before each read the answers to all whole lines given so far were written and handed
/// on: the reader may ask for them (`Inlet`), and for no more. Unless a write failed, all is handed on when the run ends.
pub fn every_line_is_answered<R: Inlet<W> + Drop, W: Outlet>(
    alloc: Global,
    reader: R,
    writer: &mut W,
    stop: bool,
) -> Result<Summary, RunFault>
    requires { AsksAnswers R.remaining R.asks reader (W.contents writer.old) stop }
    ensures runs { Runs (R.remaining reader) (W.contents writer.old) (W.contents writer.new) stop result }
    ensures reached { HandsOn (W.reached writer.new) (W.contents writer.new) result }
{
    run(alloc, reader, writer, stop)
}

/// A script that is run to its end, where only its bytes are spoken of. What is written has an answer to each line in turn. A line that is answered
/// `memory` counts for those after it as if it hadn't been there. If no line is answered so, all that is written is a function of the bytes that were
/// read, `answers`.
pub fn every_script_is_answered<R: Inlet<W> + Drop, W: Outlet>(
    alloc: Global,
    reader: R,
    writer: &mut W,
) -> Result<Summary, RunFault>
    requires { AsksAnswers R.remaining R.asks reader (W.contents writer.old) false }
    ensures { IfOk result (λ summary. Answered (R.remaining reader) (W.contents writer.old) (W.contents writer.new) summary) }
{
    answer_script(alloc, reader, writer)
}

/// If a read failed or the script was too long, the same holds for the lines that came with their newlines. If a write failed, a prefix of the
/// answers is written.
pub fn broken_scripts_are_answered()
    ensures ended { RunsTell }
    ensures broken { BrokenRunsTell }
    ensures failed { FailedRunsTell }
{
    runs_tell();
}

/// Laws of these answers in which no model stands. What was answered stays, whatever comes after it. A line that isn't answered `ok` can be left out:
/// the other answers are the same. So can `undo` followed by `redo`, and, where no `redo` comes, a line followed by `undo`. As many undos as commands
/// were answered `ok` lead back to the start, where `list` is answered `empty`. If two scripts come to equal listings, all lines after them but undo
/// and redo are answered alike. One script stands there with its answers.
pub fn answers_are_told_of_bytes()
    ensures stay { AnswersStay }
    ensures others { OthersCanBeLeftOut }
    ensures redone { UndoAndRedoCanBeLeftOut }
    ensures undone { UndoneLinesCanBeLeftOut }
    ensures back { UndosLeadBack }
    ensures some { SomeUndosLeadBack }
    ensures equal { EqualListingsGoOnAlike }
    ensures example { AnsweredSo }
{
    answered_so();
    answers_stay();
    others_can_be_left_out();
    undo_and_redo_can_be_left_out();
    undone_lines_can_be_left_out();
    undos_lead_back();
    equal_listings_go_on_alike();
}

/// More laws in which no model stands. After a block that was answered `ok`, `volume` is answered six times the product of its sizes. After a split
/// the volumes of both parts are answered, and their sum is what was answered for the solid before. After a sweep the volume of one solid has grown by
/// what the plane of the face tells, and after a glue that of the first face's solid is the sum of two. Every other volume is answered as before.
pub fn volumes_are_told_of_bytes()
    ensures block { BlocksMeasure }
    ensures split { PartsShareVolumes }
    ensures sweep { SweepsMeasure }
    ensures glue { GluesMeasure }
{
    blocks_measure();
    parts_share_volumes();
    sweeps_measure();
    glues_measure();
}

/// If the only changes that a script asks for are blocks and splits, a question for a volume behind it is answered a number greater than 0, or it is
/// refused. (Other changes may make a solid whose volume is 0, or less.) And whatever memory is refused, no answer to such a script is a volume of 0
/// or less.
pub fn scripts_of_blocks_and_splits_have_volume()
    ensures asked { BlocksAndSplitsHaveVolume }
    ensures otherwise { OthersMayHaveNone }
    ensures written { WrittenVolumesArePositive }
{
    blocks_and_splits_have_volume();
}

/// A text begins with at most one reply. The numbers of this reply tell why a command was refused, or what is wrong with a line.
pub fn replies_are_told_apart()
    ensures replies { RepliesTell }
    ensures refusals { RefusalsTell }
    ensures faults { FaultsTell }
{
    replies_tell();
}
