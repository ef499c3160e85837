//! Operators applied in turn.
ghost use Rattle.std.specs.Prelude.{◌≡◌, ◌<◌, vec_len, [], ◌∷◌, ◌++◌, OnOk, OnErr, None, Some, false, vec_capacity};
ghost use Rattle.low_euler.specs.Store.{HasGrown};
ghost use Rattle.euler_operators.specs.Common.{first_false, inverse};
ghost use Rattle.euler_laws.specs.Laws.{AreAccepted};
ghost use Rattle.low_euler.specs.Ready.{IsReady};
ghost use Rattle.low_euler.specs.Room.{IsStepped};
ghost use Rattle.low_euler.specs.Told.{told_inverse};
ghost use Rattle.undo_journal.specs.Sessions.{AllHaveRoom, all_after};
ghost use Rattle.undo_journal.specs.Told.{kept_inverse, step_inverses};
ghost use Rattle.euler_operators.specs.declared.Op.{Op};

use crate::told::tells;
use euler_operators::Op;
use low_euler::{Arena, advance, advance_told, replay};
use std::alloc::{AllocError, Global};

/// Applies operators in turn. Each is accepted at its turn and has its room. It takes no memory.
pub(crate) fn replay_all(arena: &mut Arena, ops: &[Op])
    requires ready { IsReady arena.old }
    requires accepted { AreAccepted arena.old.model ops.now }
    requires room { AllHaveRoom arena.old ops.now }
    ensures effects { arena.new ≡ all_after arena.old ops.now }
    ensures ready { IsReady arena.new }
{
    for op in ops {
        replay(arena, op);
    }
}

/// Makes places for so many more in a list. It is a function of its own so that the test for a free place is compiled into the caller.
#[inline(never)]
fn more_places<T>(list: &mut Vec<T>, more: usize) -> Result<(), AllocError>
    requires more { 0 < more }
    ensures items { list.new.items ≡ list.old.items }
    ensures place { OnOk result (vec_len list.new < vec_capacity list.new) }
{
    list.reserve(more)
}

/// Makes a place for one more in a list. If there is none, it makes places for so many more. If there is one, this costs one test.
#[inline(always)]
pub(crate) fn place_for_one<T>(list: &mut Vec<T>, more: usize) -> Result<(), AllocError>
    requires more { 0 < more }
    ensures items { list.new.items ≡ list.old.items }
    ensures place { OnOk result (vec_len list.new < vec_capacity list.new) }
{
    if list.len() < list.capacity() {
        return Ok(());
    }
    more_places(list, more)
}

/// Applies an operator that is accepted, and appends its inverse to those kept. All memory is taken before the change: on `AllocError` the
/// model and the list are as they were.
#[inline(never)]
fn advance_untold(
    alloc: Global,
    arena: &mut Arena,
    op: &Op,
    untold: &mut Vec<Op>,
) -> Result<(), AllocError>
    requires ready { IsReady arena.old }
    requires accepted { first_false arena.old.model op.now ≡ None }
    ensures stepped { OnOk result (IsStepped arena.old op.now arena.new) }
    ensures kept { OnOk result (untold.new.items ≡ untold.old.items ++ inverse arena.old.model op.now ∷ []) }
    ensures err { OnErr result (HasGrown arena.old arena.new) }
    ensures err_kept { OnErr result (untold.new.items ≡ untold.old.items) }
{
    place_for_one(untold, 1)?;
    // `advance` replaces this operator
    let mut inverse = Op::Kvfs(0);
    advance(alloc, arena, op, &mut inverse)?;
    untold.push_reserved(inverse);
    Ok(())
}

/// Applies an operator that is accepted, and appends its inverse to those kept, if the operator doesn't tell it. All memory is taken before
/// the change: on `AllocError` the model and the list are as they were.
#[inline(always)]
fn advance_step(
    alloc: Global,
    arena: &mut Arena,
    op: &Op,
    untold: &mut Vec<Op>,
) -> Result<(), AllocError>
    requires ready { IsReady arena.old }
    requires accepted { first_false arena.old.model op.now ≡ None }
    ensures stepped { OnOk result (IsStepped arena.old op.now arena.new) }
    ensures kept { OnOk result (untold.new.items ≡ untold.old.items ++ kept_inverse (told_inverse op.now) (inverse arena.old.model op.now)) }
    ensures err { OnErr result (HasGrown arena.old arena.new) }
    ensures err_kept { OnErr result (untold.new.items ≡ untold.old.items) }
{
    if tells(op) {
        return advance_told(arena, op);
    }
    advance_untold(alloc, arena, op, untold)
}

/// Applies an operator that is accepted, appends it to some steps, and its inverse to those kept, if the operator doesn't tell it. All memory
/// is taken before the change: on `AllocError` the model and the lists are as they were.
///
/// The operator is put into its place before it is applied, and taken out again on `AllocError`, since it costs more to move it later.
#[inline(always)]
pub(crate) fn step(
    alloc: Global,
    arena: &mut Arena,
    steps: &mut Vec<Op>,
    untold: &mut Vec<Op>,
    op: Op,
) -> Result<(), AllocError>
    requires ready { IsReady arena.old }
    requires accepted { first_false arena.old.model op ≡ None }
    ensures stepped { OnOk result (IsStepped arena.old op arena.new) }
    ensures steps { OnOk result (steps.new.items ≡ steps.old.items ++ op ∷ []) }
    ensures inverses { OnOk result (step_inverses steps.new.items untold.new.items ≡ step_inverses steps.old.items untold.old.items ++ inverse arena.old.model op ∷ []) }
    ensures err { OnErr result (HasGrown arena.old arena.new) }
    ensures err_steps { OnErr result (steps.new.items ≡ steps.old.items) }
    ensures err_inverses { OnErr result (step_inverses steps.new.items untold.new.items ≡ step_inverses steps.old.items untold.old.items) }
{
    place_for_one(steps, 1)?;
    steps.push_reserved(op);
    let last = steps.len() - 1;
    let ended = advance_step(alloc, arena, &steps[last], untold);
    if ended.is_err() {
        steps.truncate(last);
    }
    ended
}
