//! A session: one arena, the records of the commands, and a place in their list.
ghost use Rattle.std.specs.Prelude.{◌≡◌, ◌↔◌, ◌+◌, ◌<◌, ◌≤◌, List, [], ◌∷◌, ◌++◌, length, take, vec_len, OnOk, OnErr, IfOk, None, Some, Err, slice_index_or, vec_capacity, true, false};
ghost use Rattle.low_euler.specs.Ready.{IsReady};
ghost use Rattle.low_euler.specs.Room.{IsStepped};
ghost use Rattle.low_euler.specs.Store.{HasGrown};
ghost use Rattle.undo_journal.specs.Records.{one_record};
ghost use Rattle.undo_journal.specs.Told.{tells};
ghost use Rattle.undo_journal.specs.Machine.{held, depth, ahead, act_refusal, undo_refusal, redo_refusal};
ghost use Rattle.undo_journal.specs.Journal.{new_journal, after_act, after_undo, after_redo};
ghost use Rattle.undo_journal.specs.Sessions.{RecordsHaveRoom};
ghost use Rattle.undo_journal.specs.Recorded.{model_at};
ghost use Rattle.undo_journal.specs.Histories.{IsConsistent};
ghost use Rattle.euler_laws.specs.Laws.{effects, AreAccepted};
ghost use Rattle.euler_operators.specs.Common.{verdict, first_false, inverse};
ghost use Rattle.euler_operators.specs.declared.Refusal.{Refusal};

use crate::record::{PLACES, Record, Spare, keep_untold, no_spare, spare_of};
use crate::steps::place_for_one;
use crate::told::tells;
use euler_operators::{Op, Refusal, Why};
use low_euler::{Arena, advance, advance_told, check};
use std::alloc::{AllocError, Global};
use std::marker::Model;

/// Drops the records from a place on. If there are none, this costs one test.
#[inline(always)]
fn drop_ahead(records: &mut Vec<Record>, place: usize)
    ensures items { records.new.items ≡ take place records.old.items }
    ensures capacity { vec_capacity records.new ≡ vec_capacity records.old }
    ensures len { vec_len records.new ≤ vec_len records.old }
{
    if place < records.len() {
        records.truncate(place);
    }
}

/// Applies an operator that is accepted and tells its inverse, and puts its record in the place of those from a place on. On `AllocError`
/// the model and the records are as they were.
#[inline(always)]
#[tactic(auto, using(crate::proofs::Inverses::told_alone))]
fn act_told(
    arena: &mut Arena,
    records: &mut Vec<Record>,
    place: usize,
    op: Op,
) -> Result<(), AllocError>
    requires ready { IsReady arena.old }
    requires accepted { first_false arena.old.model op ≡ None }
    requires told { tells op ≡ true }
    requires place { vec_len records.old < vec_capacity records.old }
    ensures stepped { OnOk result (IsStepped arena.old op arena.new) }
    ensures records { OnOk result (records.new.items ≡ take place records.old.items ++ one_record op (inverse arena.old.model op) ∷ []) }
    ensures err { OnErr result (HasGrown arena.old arena.new) }
    ensures err_records { OnErr result (records.new.items ≡ records.old.items) }
{
    advance_told(arena, &op)?;
    drop_ahead(records, place);
    records.push_reserved(Record::made(op));
    Ok(())
}

/// Applies an operator that is accepted and doesn't tell its inverse, and puts its record in the place of those from a place on. On
/// `AllocError` the model and the records are as they were.
#[inline(always)]
#[tactic(auto, using(crate::proofs::Inverses::are_paired))]
fn act_untold(
    alloc: Global,
    arena: &mut Arena,
    records: &mut Vec<Record>,
    place: usize,
    op: Op,
) -> Result<(), AllocError>
    requires ready { IsReady arena.old }
    requires accepted { first_false arena.old.model op ≡ None }
    requires untold { tells op ≡ false }
    requires place { vec_len records.old < vec_capacity records.old }
    ensures stepped { OnOk result (IsStepped arena.old op arena.new) }
    ensures records { OnOk result (records.new.items ≡ take place records.old.items ++ one_record op (inverse arena.old.model op) ∷ []) }
    ensures err { OnErr result (HasGrown arena.old arena.new) }
    ensures err_records { OnErr result (records.new.items ≡ records.old.items) }
{
    // `advance` replaces this operator
    let mut inverse = Op::Kvfs(0);
    advance(alloc, arena, &op, &mut inverse)?;
    drop_ahead(records, place);
    keep_untold(records, op, inverse);
    Ok(())
}

/// Applies an operator that is accepted, and puts its record in the place of those from a place on. On `AllocError` the model and the
/// records are as they were.
#[inline(always)]
fn act_one(
    alloc: Global,
    arena: &mut Arena,
    records: &mut Vec<Record>,
    place: usize,
    op: Op,
) -> Result<(), AllocError>
    requires ready { IsReady arena.old }
    requires accepted { first_false arena.old.model op ≡ None }
    requires place { vec_len records.old < vec_capacity records.old }
    ensures stepped { OnOk result (IsStepped arena.old op arena.new) }
    ensures records { OnOk result (records.new.items ≡ take place records.old.items ++ one_record op (inverse arena.old.model op) ∷ []) }
    ensures err { OnErr result (HasGrown arena.old arena.new) }
    ensures err_records { OnErr result (records.new.items ≡ records.old.items) }
{
    if tells(&op) {
        return act_told(arena, records, place, op);
    }
    act_untold(alloc, arena, records, place, op)
}

/// Drops the records from a place on, and keeps the lists of the first of them. It takes no memory.
pub(crate) fn reuse_ahead(alloc: Global, records: &mut Vec<Record>, place: usize, spare: &mut Spare)
    ensures items { records.new.items ≡ take place records.old.items }
    ensures capacity { vec_capacity records.new ≡ vec_capacity records.old }
    ensures len { vec_len records.new ≤ vec_len records.old }
{
    if records.len() <= place {
        return;
    }
    records.truncate(place + 1);
    if let Some(record) = records.pop() {
        *spare = spare_of(alloc, record);
    }
}

/// Why a command did nothing: a condition that is false, or memory that was refused.
#[derive(Debug, Drop)]
pub enum Failure {
    Refused(Refusal),
    Memory(AllocError),
}

/// The model held, and the models behind and ahead of it, to which the records of the commands lead.
#[derive(Drop)]
pub struct Session {
    pub(crate) alloc: Global,
    pub(crate) records: Vec<Record>,
    pub(crate) arena: Box<Arena, Global>,
    pub(crate) place: usize,
    /// Lists for the steps of the next draft.
    pub(crate) spare: Box<Spare, Global>,
}

impl Model for Session {
    ghost use Rattle.undo_journal.specs.Journal.{Journal, coded_journal};

    ghost Value = { Journal };

    ghost coded = { coded_journal };

    ghost use Rattle.undo_journal.specs.Sessions.{journal_of, IsKept};

    ghost view = { λ s. journal_of s.arena.value.model s.records.items s.place };

    ghost invariant = { λ s. IsKept s.arena.value s.records.items s.place };
}

impl Session {
    /// A session that holds the empty model. If memory is refused, the answer is `AllocError`.
    #[tactic(auto, using(crate::proofs::Kept::kept_start, crate::proofs::Kept::journal_started))]
    pub fn new(alloc: Global) -> Result<Session, AllocError>
        ensures { IfOk result (λ session. session ≡ new_journal) }
    {
        Ok(Session {
            alloc,
            arena: Box::new(alloc, Arena::new(alloc))?,
            records: Vec::with_capacity(alloc, 1)?,
            place: 0,
            spare: Box::new(alloc, no_spare(alloc))?,
        })
    }

    /// The arena of the model held. It has room for each number that a record names.
    #[tactic(auto, using(crate::proofs::Seen::held_seen))]
    pub fn arena(&self) -> &Arena
        ensures model { result.now.model ≡ held self.now.machine }
        ensures ready { IsReady result.now }
        ensures room { RecordsHaveRoom result.now self.now.records }
    {
        &*self.arena
    }

    /// A session's models are sound, and accepted operators make each next one, whoever gave the session. This function does nothing: its
    /// contract is what is proved.
    pub fn stays_consistent(&self)
        ensures { IsConsistent self.now.machine }
    {
        let _ = &*self.arena;
    }

    /// How many commands can be undone.
    #[tactic(auto, using(crate::proofs::Seen::depth_seen))]
    pub fn depth(&self) -> usize
        ensures { result ≡ depth self.now.machine }
    {
        self.place
    }

    /// How many commands can be redone.
    #[tactic(auto, using(crate::proofs::Seen::ahead_seen))]
    pub fn ahead(&self) -> usize
        ensures { result ≡ ahead self.now.machine }
    {
        self.records.len() - self.place
    }

    /// The record of the command with this index, counted from 0. Each of its operators is accepted in its turn.
    pub fn record(&self, index: usize) -> &Record
        requires { index < depth self.now.machine + ahead self.now.machine }
        ensures exact { result.now ≡ slice_index_or self.now.records index result.now }
        ensures forward_goes { AreAccepted (model_at self.now.machine index) result.now.forward }
        ensures forward { effects (model_at self.now.machine index) result.now.forward ≡ model_at self.now.machine (index + 1) }
        ensures back_goes { AreAccepted (model_at self.now.machine (index + 1)) result.now.back }
        ensures back { effects (model_at self.now.machine (index + 1)) result.now.back ≡ model_at self.now.machine index }
    {
        &self.records[index]
    }

    /// Applies an operator, and puts its record in the place of the records ahead. On `AllocError` nothing has changed.
    #[inline(always)]
    fn accept(&mut self, op: Op) -> Result<(), AllocError>
        requires { act_refusal self.old.machine op ≡ None }
        ensures ok { OnOk result (self.new ≡ after_act self.old op) }
        ensures err { OnErr result (self.new ≡ self.old) }
    {
        place_for_one(&mut self.records, PLACES)?;
        act_one(
            self.alloc,
            &mut *self.arena,
            &mut self.records,
            self.place,
            op,
        )?;
        self.place += 1;
        Ok(())
    }

    /// Gives an operator as a command. If one of its conditions is false, the first such condition is named with its value; if memory is
    /// refused, the answer is `Memory`. In both cases nothing has changed. An accepted command drops the models ahead with their records,
    /// and leaves a record of its own.
    #[inline(always)]
    pub fn act(&mut self, op: Op) -> Result<(), Failure>
        ensures ok { OnOk result ((act_refusal self.old.machine op ≡ None) × (self.new ≡ after_act self.old op)) }
        ensures refused { (refusal : Refusal) → ((result ≡ Err (Failure.Refused refusal)) ↔ (act_refusal self.old.machine op ≡ Some refusal)) }
        ensures err { OnErr result (self.new ≡ self.old) }
    {
        if let Err(refusal) = check(&*self.arena, &op) {
            return Err(Failure::Refused(refusal));
        }
        match self.accept(op) {
            Ok(()) => Ok(()),
            Err(error) => Err(Failure::Memory(error)),
        }
    }

    /// Takes the last command back. If there is none, it is refused with `NothingToUndo`. It takes no memory.
    #[inline(always)]
    pub fn undo(&mut self) -> Result<(), Refusal>
        ensures ok { OnOk result (self.new ≡ after_undo self.old) }
        ensures refused { result ≡ verdict (undo_refusal self.old.machine) }
        ensures err { OnErr result (self.new ≡ self.old) }
    {
        if self.place == 0 {
            return Err(Refusal {
                why: Why::NothingToUndo,
                number: 0,
            });
        }
        self.place -= 1;
        let record = &self.records[self.place];
        record.replay_back(&mut *self.arena);
        Ok(())
    }

    /// Does the next command again. If there is none, it is refused with `NothingToRedo`. It takes no memory.
    #[inline(always)]
    pub fn redo(&mut self) -> Result<(), Refusal>
        ensures ok { OnOk result (self.new ≡ after_redo self.old) }
        ensures refused { result ≡ verdict (redo_refusal self.old.machine) }
        ensures err { OnErr result (self.new ≡ self.old) }
    {
        if self.ahead() == 0 {
            return Err(Refusal {
                why: Why::NothingToRedo,
                number: 0,
            });
        }
        let record = &self.records[self.place];
        record.replay(&mut *self.arena);
        self.place += 1;
        Ok(())
    }
}
