//! A draft: steps that become one command together, or are taken back together.
ghost use Rattle.std.specs.Prelude.{◌≡◌, ◌↔◌, OnOk, OnErr, IfOk, IfErr, None, Some, Err};
ghost use Rattle.low_euler.specs.Ready.{IsReady};
ghost use Rattle.euler_operators.specs.Common.{Sound, first_false};
ghost use Rattle.undo_journal.specs.Blocks.{HasLeft, block_steps};
ghost use Rattle.undo_journal.specs.Journal.{new_draft, after_step, after_commit, IsMark, IsFurther, back_at};
ghost use Rattle.undo_journal.specs.Sessions.{RecordsHaveRoom, AllHaveRoom};
ghost use Rattle.undo_journal.specs.Histories.{IsConsistent};
ghost use Rattle.euler_operators.specs.declared.Refusal.{Refusal};

use crate::blocks::Block;
use crate::record::{PLACES, Record, Spare, no_spare, spare_lists};
use crate::session::{Failure, Session, reuse_ahead};
use crate::steps::{place_for_one, step};
use crate::told::{replay_back, take_back};
use euler_operators::Op;
use low_euler::{Arena, check};
use std::alloc::{AllocError, Global};
use std::marker::Model;
use std::mem::replace;

/// A session whose arena is being changed step by step. It has to be spent, by `commit` or by `abandon`.
///
/// `untold` holds the inverses that the steps don't tell, in the order of the steps. `records` has a place for one more record.
pub struct Draft {
    alloc: Global,
    arena: Box<Arena, Global>,
    records: Vec<Record>,
    place: usize,
    steps: Vec<Op>,
    untold: Vec<Op>,
    spare: Box<Spare, Global>,
}

impl Model for Draft {
    ghost use Rattle.std.specs.Prelude.{◌<◌, vec_len};
    ghost use Rattle.std.specs.Vec.{vec_capacity};
    ghost use Rattle.undo_journal.specs.Journal.{DraftJournal, coded_draft_journal};

    ghost Value = { DraftJournal };

    ghost coded = { coded_draft_journal };

    ghost use Rattle.undo_journal.specs.Sessions.{draft_of, IsDrafted};
    ghost use Rattle.undo_journal.specs.Told.{step_inverses};

    ghost view = { λ d. draft_of d.arena.value.model d.records.items d.place d.steps.items (step_inverses d.steps.items d.untold.items) };

    ghost invariant = { λ d. (vec_len d.records < vec_capacity d.records) × IsDrafted d.arena.value d.records.items d.place d.steps.items (step_inverses d.steps.items d.untold.items) };
}

impl Draft {
    /// Opens a draft of a command, in which the session's model is changed. If memory is refused, the session comes back as it was.
    #[inline(always)]
    pub fn open(session: Session) -> Result<Draft, (Session, AllocError)>
        ensures ok { IfOk result (λ draft. draft ≡ new_draft session) }
        ensures err { IfErr result (λ e. e.0 ≡ session) }
    {
        let mut session = session;
        if let Err(error) = place_for_one(&mut session.records, PLACES) {
            return Err((session, error));
        }
        let Session {
            alloc,
            arena,
            records,
            place,
            mut spare,
        } = session;
        let Spare {
            mut steps,
            mut untold,
        } = replace(&mut *spare, no_spare(alloc));
        steps.clear();
        untold.clear();
        Ok(Draft {
            alloc,
            arena,
            records,
            place,
            steps,
            untold,
            spare,
        })
    }

    /// The arena of the draft's model. It has room for each number that a record, a step or the inverse of a step names.
    pub fn arena(&self) -> &Arena
        ensures model { result.now.model ≡ self.now.model }
        ensures ready { IsReady result.now }
        ensures room { RecordsHaveRoom result.now self.now.session.records }
        ensures forward_room { AllHaveRoom result.now self.now.forward }
        ensures back_room { AllHaveRoom result.now self.now.back }
    {
        &*self.arena
    }

    /// What `Session::stays_consistent` says holds of a draft's session, and the steps of the draft, each accepted in its turn, make the
    /// draft from a new one. This function does nothing: its contract is what is proved.
    pub fn stays_consistent(&self)
        ensures session { IsConsistent self.now.session.machine }
        ensures model { Sound self.now.model }
        ensures further { IsFurther (new_draft self.now.session) self.now }
    {
        let _ = &*self.arena;
    }

    /// Takes memory for so many more steps, and for the inverses of so many of them that don't tell theirs, all at once. Nothing else
    /// changes, even on `AllocError`.
    pub fn reserve(&mut self, steps: usize, untold: usize) -> Result<(), AllocError>
        ensures { self.new ≡ self.old }
    {
        self.steps.reserve(steps)?;
        self.untold.reserve(untold)
    }

    /// Takes as a step an operator that is accepted: its conditions aren't tested. All memory for it and for its inverse is taken before
    /// the change. If memory is refused, nothing has changed, and the draft goes on.
    #[inline(always)]
    pub fn step_accepted(&mut self, op: Op) -> Result<(), AllocError>
        requires { first_false self.old.model op ≡ None }
        ensures ok { OnOk result (self.new ≡ after_step self.old op) }
        ensures err { OnErr result (self.new ≡ self.old) }
        ensures further { IsFurther self.old self.new }
    {
        step(
            self.alloc,
            &mut *self.arena,
            &mut self.steps,
            &mut self.untold,
            op,
        )
    }

    /// Takes an operator as a step. If one of its conditions is false, the first such condition is named with its value; if memory is
    /// refused, the answer is `Memory`. In both cases nothing has changed, and the draft goes on.
    #[tactic(auto, using(crate::proofs::Marks::further_none))]
    pub fn step(&mut self, op: Op) -> Result<(), Failure>
        ensures ok { OnOk result ((first_false self.old.model op ≡ None) × (self.new ≡ after_step self.old op)) }
        ensures refused { (refusal : Refusal) → ((result ≡ Err (Failure.Refused refusal)) ↔ (first_false self.old.model op ≡ Some refusal)) }
        ensures err { OnErr result (self.new ≡ self.old) }
        ensures further { IsFurther self.old self.new }
    {
        if let Err(refusal) = check(&*self.arena, &op) {
            return Err(Failure::Refused(refusal));
        }
        match self.step_accepted(op) {
            Ok(()) => Ok(()),
            Err(error) => Err(Failure::Memory(error)),
        }
    }

    /// How many steps there are. This number is a mark for `back_to`.
    pub fn mark(&self) -> usize
        ensures { IsMark self.now result }
    {
        self.steps.len()
    }

    /// Takes back the steps since a mark, the last first. If there are no more steps than the mark says, nothing changes. It takes no
    /// memory.
    pub fn back_to(&mut self, mark: usize)
        ensures { self.new ≡ back_at self.old mark }
    {
        take_back(&mut *self.arena, &mut self.steps, &mut self.untold, mark);
    }

    /// Makes the steps one command, even if there are none. It drops the models ahead. It takes no memory.
    #[inline(always)]
    pub fn commit(self) -> Session
        ensures { result ≡ after_commit self }
    {
        let Draft {
            alloc,
            arena,
            mut records,
            place,
            steps,
            untold,
            mut spare,
        } = self;
        reuse_ahead(alloc, &mut records, place, &mut *spare);
        records.push_reserved(Record::of_steps(steps, untold));
        Session {
            alloc,
            arena,
            records,
            place: place + 1,
            spare,
        }
    }

    /// Makes the steps one command, as `commit` does, if they are those of a block: the record keeps the block in their place, and their list
    /// is kept for the next draft. It takes no memory.
    #[inline(always)]
    pub fn commit_block(self, block: Block) -> Session
        requires left { HasLeft block }
        requires steps { block_steps block ≡ self.forward }
        ensures { result ≡ after_commit self }
    {
        let Draft {
            alloc,
            arena,
            mut records,
            place,
            steps,
            untold,
            mut spare,
        } = self;
        let kept = &mut *spare;
        reuse_ahead(alloc, &mut records, place, kept);
        *kept = spare_lists(alloc, steps, untold);
        records.push_reserved(Record::of_block(block));
        Session {
            alloc,
            arena,
            records,
            place: place + 1,
            spare,
        }
    }

    /// Takes the steps back, the last first. The models ahead are kept. It takes no memory.
    pub fn abandon(self) -> Session
        ensures { result ≡ self.session }
    {
        let Draft {
            alloc,
            mut arena,
            records,
            place,
            steps,
            untold,
            spare,
        } = self;
        replay_back(&mut *arena, steps.as_slice(), untold.as_slice());
        Session {
            alloc,
            arena,
            records,
            place,
            spare,
        }
    }
}
