//! The record of a command.
ghost use Rattle.std.specs.Prelude.{◌≡◌, ◌<◌, [], ◌∷◌, ◌++◌, length, true, false, slice_index_or, vec_len, vec_capacity};
ghost use Rattle.euler_laws.specs.Laws.{AreAccepted};
ghost use Rattle.low_euler.specs.Ready.{IsReady};
ghost use Rattle.undo_journal.specs.Blocks.{HasLeft, block_steps};
ghost use Rattle.undo_journal.specs.Records.{one_record, op_of};
ghost use Rattle.undo_journal.specs.Rings.{ring_op};
ghost use Rattle.undo_journal.specs.Sessions.{AllHaveRoom, all_after};
ghost use Rattle.undo_journal.specs.Told.{ArePaired, is_on_rings, tells, inverses_of, taken_back};

use crate::blocks::{Block, STEPS, block_step, block_step_back, replay_block, replay_block_back};
use crate::rings::RingOp;
use crate::steps::replay_all;
use crate::told::{inverse_at, replay_back, replay_paired, tells, told_inverse};
use euler_operators::Op;
use low_euler::{Arena, replay};
use std::alloc::Global;
use std::marker::Model;

/// For how many records memory is taken at a time. The system gives a list of more than a few hundred records a block of its own, which it
/// makes longer without a copy and whose pages it gives as they are touched.
pub(crate) const PLACES: usize = 1024;

/// What a command did: `forward` takes the model before it to the model after it, and `back` leads the other way. Both are in the order in
/// which they are applied.
#[derive(Drop)]
pub struct Record {
    steps: Steps,
}

#[derive(Drop)]
enum Steps {
    /// One operator, which tells its inverse.
    Made(Op),
    /// The inverse of one operator, which it tells.
    Unmade(Op),
    /// An operator on rings and its inverse, neither of which tells the other.
    Rings(RingOp, RingOp),
    /// A block, as it was asked for.
    Block(Block),
    /// Operators, and in their order the inverses that they don't tell.
    Many { ops: Vec<Op>, untold: Vec<Op> },
}

const _: () = prove!(size_of::<Steps>() == 56);

/// An operator of a record: one that the record keeps, or one that was made from what it keeps.
#[derive(Drop)]
pub enum Listed<'a> {
    Kept(&'a Op),
    Made(Op),
}

impl Listed<'_> {
    /// The operator.
    pub fn op(&self) -> &Op
        ensures { result.now ≡ op_of self.now }
    {
        match self {
            Listed::Kept(op) => op,
            Listed::Made(op) => op,
        }
    }
}

/// The inverse of an operator that tells it.
fn told(op: &Op) -> Listed<'_>
    requires { tells op.now ≡ true }
    ensures { op_of result ∷ [] ≡ inverses_of (op.now ∷ []) [] }
{
    match told_inverse(op) {
        Some(inverse) => Listed::Made(inverse),
        None => unreachable!(),
    }
}

impl Model for Record {
    ghost use Rattle.undo_journal.specs.Records.{Record as command, coded_record, forward_of, back_of, AreWhole};

    ghost Value = { command };

    ghost coded = { coded_record };

    ghost view = { λ r. record { forward = forward_of r.steps; back = back_of r.steps } };

    ghost invariant = { λ r. AreWhole r.steps };
}

impl Record {
    /// The record of an operator that tells its inverse.
    #[inline(always)]
    pub(crate) fn made(op: Op) -> Self
        requires { tells op ≡ true }
        ensures forward { result.forward ≡ op ∷ [] }
        ensures back { result.back ≡ inverses_of (op ∷ []) [] }
    {
        Record {
            steps: Steps::Made(op),
        }
    }

    /// The record of the operator that its inverse tells.
    #[inline(always)]
    pub(crate) fn unmade(inverse: Op) -> Self
        requires { tells inverse ≡ true }
        ensures forward { result.forward ≡ inverses_of (inverse ∷ []) [] }
        ensures back { result.back ≡ inverse ∷ [] }
    {
        Record {
            steps: Steps::Unmade(inverse),
        }
    }

    /// The record of an operator on rings and its inverse.
    pub(crate) fn rings(op: RingOp, inverse: RingOp) -> Self
        ensures forward { result.forward ≡ ring_op op ∷ [] }
        ensures back { result.back ≡ ring_op inverse ∷ [] }
    {
        Record {
            steps: Steps::Rings(op, inverse),
        }
    }

    /// The record of some operators and, in their order, the inverses that they don't tell.
    #[inline(always)]
    pub(crate) fn of_steps(ops: Vec<Op>, untold: Vec<Op>) -> Self
        requires { length (taken_back ops.items untold.items) ≡ length ops.items }
        ensures forward { result.forward ≡ ops.items }
        ensures back { result.back ≡ taken_back ops.items untold.items }
    {
        Record {
            steps: Steps::Many { ops, untold },
        }
    }

    /// The record of a block.
    pub(crate) fn of_block(block: Block) -> Self
        requires { HasLeft block }
        ensures forward { result.forward ≡ block_steps block }
        ensures back { result.back ≡ taken_back (block_steps block) [] }
    {
        Record {
            steps: Steps::Block(block),
        }
    }

    /// Applies the operators of the command in turn. Each is accepted at its turn and has its room. It takes no memory.
    pub(crate) fn replay(&self, arena: &mut Arena)
        requires ready { IsReady arena.old }
        requires accepted { AreAccepted arena.old.model self.now.forward }
        requires room { AllHaveRoom arena.old self.now.forward }
        ensures effects { arena.new ≡ all_after arena.old self.now.forward }
        ensures ready { IsReady arena.new }
    {
        match &self.steps {
            Steps::Made(op) => replay(arena, op),
            Steps::Unmade(inverse) => replay_paired(arena, inverse),
            Steps::Rings(op, _) => replay(arena, &op.op()),
            Steps::Block(block) => replay_block(arena, block),
            Steps::Many { ops, .. } => replay_all(arena, ops.as_slice()),
        }
    }

    /// Applies the operators that take the command back in turn. Each is accepted at its turn and has its room. It takes no memory.
    pub(crate) fn replay_back(&self, arena: &mut Arena)
        requires ready { IsReady arena.old }
        requires accepted { AreAccepted arena.old.model self.now.back }
        requires room { AllHaveRoom arena.old self.now.back }
        ensures effects { arena.new ≡ all_after arena.old self.now.back }
        ensures ready { IsReady arena.new }
    {
        match &self.steps {
            Steps::Made(op) => replay_paired(arena, op),
            Steps::Unmade(inverse) => replay(arena, inverse),
            Steps::Rings(_, inverse) => replay(arena, &inverse.op()),
            Steps::Block(block) => replay_block_back(arena, block),
            Steps::Many { ops, untold } => replay_back(arena, ops.as_slice(), untold.as_slice()),
        }
    }

    /// How many operators the command has. As many take it back.
    pub fn len(&self) -> usize
        ensures forward { result ≡ length self.now.forward }
        ensures back { result ≡ length self.now.back }
    {
        match &self.steps {
            Steps::Made(_) | Steps::Unmade(_) | Steps::Rings(_, _) => 1,
            Steps::Block(_) => STEPS,
            Steps::Many { ops, .. } => ops.len(),
        }
    }

    /// The operator of the command with this index, counted from 0.
    pub fn forward(&self, index: usize) -> Listed<'_>
        requires { index < length self.now.forward }
        ensures { op_of result ≡ slice_index_or self.now.forward index (op_of result) }
    {
        match &self.steps {
            Steps::Made(op) => Listed::Kept(op),
            Steps::Unmade(inverse) => told(inverse),
            Steps::Rings(op, _) => Listed::Made(op.op()),
            Steps::Block(block) => Listed::Made(block_step(block, index)),
            Steps::Many { ops, .. } => Listed::Kept(&ops[index]),
        }
    }

    /// The operator with this index, counted from 0, of those that take the command back.
    pub fn back(&self, index: usize) -> Listed<'_>
        requires { index < length self.now.back }
        ensures { op_of result ≡ slice_index_or self.now.back index (op_of result) }
    {
        match &self.steps {
            Steps::Made(op) => told(op),
            Steps::Unmade(inverse) => Listed::Kept(inverse),
            Steps::Rings(_, inverse) => Listed::Made(inverse.op()),
            Steps::Block(block) => Listed::Made(block_step_back(block, index)),
            Steps::Many { ops, untold } => inverse_at(ops.as_slice(), untold.as_slice(), index),
        }
    }
}

/// Appends the record of an operator on rings and its inverse.
#[inline(never)]
fn keep_rings(records: &mut Vec<Record>, op: Op, inverse: Op)
    requires op { is_on_rings op ≡ true }
    requires inverse { is_on_rings inverse ≡ true }
    requires place { vec_len records.old < vec_capacity records.old }
    ensures { records.new.items ≡ records.old.items ++ one_record op inverse ∷ [] }
{
    records.push_reserved(Record::rings(RingOp::of(op), RingOp::of(inverse)));
}

/// Appends the record of an operator that doesn't tell its inverse, and of that inverse.
#[inline(always)]
#[tactic(auto, using(crate::proofs::Inverses::both_on_rings))]
pub(crate) fn keep_untold(records: &mut Vec<Record>, op: Op, inverse: Op)
    requires untold { tells op ≡ false }
    requires paired { ArePaired op inverse }
    requires place { vec_len records.old < vec_capacity records.old }
    ensures { records.new.items ≡ records.old.items ++ one_record op inverse ∷ [] }
{
    if tells(&inverse) {
        records.push_reserved(Record::unmade(inverse));
    } else {
        keep_rings(records, op, inverse);
    }
}

/// How many places each of two spare lists has at most. Longer lists are freed.
const SPARE_PLACES: usize = 32;

/// Two empty lists for the steps of the next draft. It needs no memory for as many steps as they have places.
#[derive(Drop)]
pub(crate) struct Spare {
    pub(crate) steps: Vec<Op>,
    pub(crate) untold: Vec<Op>,
}

/// No places.
pub(crate) fn no_spare(alloc: Global) -> Spare {
    Spare {
        steps: Vec::new(alloc),
        untold: Vec::new(alloc),
    }
}

/// The vector emptied, if it has few places; otherwise an empty vector without places.
fn emptied(alloc: Global, mut ops: Vec<Op>) -> Vec<Op> {
    if ops.capacity() > SPARE_PLACES {
        return Vec::new(alloc);
    }
    ops.clear();
    ops
}

/// Two lists that are no longer needed, emptied.
pub(crate) fn spare_lists(alloc: Global, steps: Vec<Op>, untold: Vec<Op>) -> Spare {
    Spare {
        steps: emptied(alloc, steps),
        untold: emptied(alloc, untold),
    }
}

/// The lists of a record that is dropped, emptied.
pub(crate) fn spare_of(alloc: Global, record: Record) -> Spare {
    match record.steps {
        Steps::Many { ops, untold } => spare_lists(alloc, ops, untold),
        _ => no_spare(alloc),
    }
}
