#![tactic(auto, using(crate::proofs::Made::made_fit, crate::proofs::Stepped::accepted_grown, crate::proofs::Made::grown_same, crate::proofs::Stepped::stepped_so))]
//! An operator with all that it needs: its room, the change, and the operator that takes it back, if the operator doesn't tell that. It is
//! written where the caller keeps it.
ghost use Rattle.std.specs.Prelude.{◌≡◌, OnOk, OnErr, IfOk, None, is_some, true};
ghost use Rattle.euler_conditions.specs.Store.{HasGrown};
ghost use Rattle.euler_operators.specs.Common.{first_false, inverse};
ghost use Rattle.euler_conditions.specs.Ready.{IsReady};
ghost use Rattle.low_euler.specs.Room.{IsStepped};
ghost use Rattle.low_euler.specs.Told.{told_inverse};

use crate::applying::apply;
use crate::making::{room_for_one, room_for_solid, room_for_three, room_for_two, room_op};
use crate::{face_operators, inverse as inverses, loop_operators, vertex_operators};
use euler_conditions::Arena;
use euler_operators::{Corner, FaceList, HalfEdge, Kind, Op, Point};
use std::alloc::{AllocError, Global};

fn mvfs(
    arena: &mut Arena,
    solid: u32,
    face: u32,
    outer: u32,
    vertex: u32,
    point: Point,
) -> Result<(), AllocError>
    requires ready { IsReady arena.old }
    requires accepted { first_false arena.old.model (Op.Mvfs solid face outer vertex point) ≡ None }
    ensures stepped { OnOk result (IsStepped arena.old (Op.Mvfs solid face outer vertex point) arena.new) }
    ensures err { OnErr result (HasGrown arena.old arena.new) }
{
    room_for_solid(arena, solid, face, outer, vertex)?;
    vertex_operators::mvfs(arena, solid, face, outer, vertex, point);
    Ok(())
}

#[inline(always)]
fn kvfs(arena: &mut Arena, solid: u32, back: &mut Op)
    requires ready { IsReady arena.old }
    requires accepted { first_false arena.old.model (Op.Kvfs solid) ≡ None }
    ensures stepped { IsStepped arena.old (Op.Kvfs solid) arena.new }
    ensures inverse { back.new ≡ inverse arena.old.model (Op.Kvfs solid) }
{
    let inverse = inverses::kvfs(arena, solid);
    vertex_operators::kvfs(arena, solid);
    *back = inverse;
}

fn mev(
    arena: &mut Arena,
    from: Corner,
    to: Corner,
    half: HalfEdge,
    vertex: u32,
    point: Point,
) -> Result<(), AllocError>
    requires ready { IsReady arena.old }
    requires accepted { first_false arena.old.model (Op.Mev from to half vertex point) ≡ None }
    ensures stepped { OnOk result (IsStepped arena.old (Op.Mev from to half vertex point) arena.new) }
    ensures err { OnErr result (HasGrown arena.old arena.new) }
{
    room_for_two(arena, (Kind::Edge, half.edge), (Kind::Vertex, vertex))?;
    vertex_operators::mev(arena, from, to, half, vertex, point);
    Ok(())
}

#[inline(always)]
fn kev(arena: &mut Arena, half: HalfEdge, back: &mut Op)
    requires ready { IsReady arena.old }
    requires accepted { first_false arena.old.model (Op.Kev half) ≡ None }
    ensures stepped { IsStepped arena.old (Op.Kev half) arena.new }
    ensures inverse { back.new ≡ inverse arena.old.model (Op.Kev half) }
{
    let inverse = inverses::kev(arena, half);
    vertex_operators::kev(arena, half);
    *back = inverse;
}

fn mef(
    arena: &mut Arena,
    from: HalfEdge,
    to: HalfEdge,
    half: HalfEdge,
    face: u32,
    outer: u32,
) -> Result<(), AllocError>
    requires ready { IsReady arena.old }
    requires accepted { first_false arena.old.model (Op.Mef from to half face outer) ≡ None }
    ensures stepped { OnOk result (IsStepped arena.old (Op.Mef from to half face outer) arena.new) }
    ensures err { OnErr result (HasGrown arena.old arena.new) }
{
    room_for_three(
        arena,
        (Kind::Edge, half.edge),
        (Kind::Face, face),
        (Kind::Loop, outer),
    )?;
    loop_operators::mef(arena, from, to, half, face, outer);
    Ok(())
}

#[inline(always)]
fn kef(arena: &mut Arena, half: HalfEdge, back: &mut Op)
    requires ready { IsReady arena.old }
    requires accepted { first_false arena.old.model (Op.Kef half) ≡ None }
    ensures stepped { IsStepped arena.old (Op.Kef half) arena.new }
    ensures inverse { back.new ≡ inverse arena.old.model (Op.Kef half) }
{
    let inverse = inverses::kef(arena, half);
    loop_operators::kef(arena, half);
    *back = inverse;
}

/// Does an operator by `room_op` and then `apply`, and writes its inverse to `back`.
#[inline(never)]
fn step_by_step(alloc: Global, arena: &mut Arena, op: &Op, back: &mut Op) -> Result<(), AllocError>
    requires ready { IsReady arena.old }
    requires accepted { first_false arena.old.model op.now ≡ None }
    ensures stepped { OnOk result (IsStepped arena.old op.now arena.new) }
    ensures inverse { OnOk result (back.new ≡ inverse arena.old.model op.now) }
    ensures err { OnErr result (HasGrown arena.old arena.new) }
{
    let room = room_op(alloc, arena, op)?;
    *back = apply(arena, op, room);
    Ok(())
}

/// Makes the room of a solid that takes some faces over, and moves them.
fn part(arena: &mut Arena, kept: u32, made: u32, faces: &FaceList) -> Result<(), AllocError>
    requires ready { IsReady arena.old }
    requires accepted { first_false arena.old.model (Op.Part kept made faces.now) ≡ None }
    ensures stepped { OnOk result (IsStepped arena.old (Op.Part kept made faces.now) arena.new) }
    ensures err { OnErr result (HasGrown arena.old arena.new) }
{
    room_for_one(arena, (Kind::Solid, made))?;
    face_operators::part(arena, kept, made, faces);
    Ok(())
}

/// Makes the room of an operator that is accepted, and applies it, if it tells its inverse: mvfs, mev, mef and Part tell theirs. It does
/// what `room_op` and then `replay` do, but looks at the operator once. After that each number that the operator or its inverse makes has
/// its room, and no room is lost.
///
/// All memory is taken before the change: on `AllocError` the model is as it was.
pub fn advance_told(arena: &mut Arena, op: &Op) -> Result<(), AllocError>
    requires ready { IsReady arena.old }
    requires accepted { first_false arena.old.model op.now ≡ None }
    requires told { is_some (told_inverse op.now) ≡ true }
    ensures stepped { OnOk result (IsStepped arena.old op.now arena.new) }
    ensures err { OnErr result (HasGrown arena.old arena.new) }
{
    match op {
        Op::Mvfs(solid, face, outer, vertex, point) => {
            mvfs(arena, *solid, *face, *outer, *vertex, *point)
        }
        Op::Mev(from, to, half, vertex, point) => {
            mev(arena, from.corner(), to.corner(), *half, *vertex, *point)
        }
        Op::Mef(from, to, half, face, outer) => mef(arena, *from, *to, *half, *face, *outer),
        Op::Part(kept, made, faces) => part(arena, *kept, *made, faces),
        _ => unreachable!(),
    }
}

/// Makes the room of an operator that is accepted, applies it, and replaces `back` by the operator that takes it back. It does what
/// `room_op` and then `apply` do, but writes the inverse once. After that each number that the operator or its inverse makes has its room,
/// and no room is lost.
///
/// All memory is taken before the change: on `AllocError` the model is as it was.
#[inline(always)]
pub fn advance(alloc: Global, arena: &mut Arena, op: &Op, back: &mut Op) -> Result<(), AllocError>
    requires ready { IsReady arena.old }
    requires accepted { first_false arena.old.model op.now ≡ None }
    ensures stepped { OnOk result (IsStepped arena.old op.now arena.new) }
    ensures inverse { OnOk result (back.new ≡ inverse arena.old.model op.now) }
    ensures err { OnErr result (HasGrown arena.old arena.new) }
{
    match op {
        Op::Kvfs(solid) => {
            kvfs(arena, *solid, back);
            Ok(())
        }
        Op::Kev(half) => {
            kev(arena, *half, back);
            Ok(())
        }
        Op::Kef(half) => {
            kef(arena, *half, back);
            Ok(())
        }
        _ => step_by_step(alloc, arena, op, back),
    }
}
