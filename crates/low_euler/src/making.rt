#![tactic(auto, using(crate::proofs::Made::makes_more, crate::proofs::Made::grown_same))]
//! What an operator needs to be applied: room for what it makes, and the faces that a merge moves.
ghost use Rattle.std.specs.Prelude.{◌≡◌, [], ◌∷◌, OnOk, IfOk, IsOk, None};
ghost use Rattle.euler_conditions.specs.Store.{HasGrown};
ghost use Rattle.euler_operators.specs.Common.{first_false};
ghost use Rattle.euler_conditions.specs.Ready.{IsReady, AllRoom, HasRoomFor};
ghost use Rattle.low_euler.specs.Room.{AllFit, faces_for};

use crate::moving;
use euler_conditions::Arena;
use euler_operators::{FaceList, Kind, Op};
use std::alloc::{AllocError, Global};

/// What an operator is given when it is applied: for a merge the faces that it moves, in rising order, otherwise nothing.
#[derive(Drop)]
pub struct MovedFaces {
    pub faces: FaceList,
}

/// Makes the room of one number that has none. On `AllocError` the model is as it was, and no room is lost. It is a function of its own so
/// that the test for room is compiled into the caller.
#[inline(never)]
#[tactic(auto, using(crate::proofs::Made::least, crate::proofs::Prelude::number_fits, crate::proofs::Prelude::on_ok_weaker))]
fn grow(arena: &mut Arena, number: (Kind, u32)) -> Result<(), AllocError>
    requires { AllFit (number ∷ []) }
    ensures grown { HasGrown arena.old arena.new }
    ensures ok { OnOk result (AllRoom arena.new (number ∷ [])) }
{
    arena.make_room(number.0, number.1)
}

/// Makes the room of one number that may have none, as `grow` does. If the number has its room, no `Err` comes.
#[inline(always)]
pub(crate) fn room_for_one(arena: &mut Arena, number: (Kind, u32)) -> Result<(), AllocError>
    requires { AllFit (number ∷ []) }
    ensures grown { HasGrown arena.old arena.new }
    ensures ok { OnOk result (AllRoom arena.new (number ∷ [])) }
    ensures known { AllRoom arena.old (number ∷ []) → IsOk result }
{
    if arena.has_room(number.0, number.1) {
        return Ok(());
    }
    grow(arena, number)
}

/// Makes the room of two numbers, as `room_for_one` does.
#[inline(always)]
pub(crate) fn room_for_two(
    arena: &mut Arena,
    first: (Kind, u32),
    second: (Kind, u32),
) -> Result<(), AllocError>
    requires { AllFit (first ∷ second ∷ []) }
    ensures grown { HasGrown arena.old arena.new }
    ensures ok { OnOk result (AllRoom arena.new (first ∷ second ∷ [])) }
    ensures known { AllRoom arena.old (first ∷ second ∷ []) → IsOk result }
{
    room_for_one(arena, first)?;
    room_for_one(arena, second)
}

/// Makes the room of three numbers, as `room_for_one` does.
#[inline(always)]
pub(crate) fn room_for_three(
    arena: &mut Arena,
    first: (Kind, u32),
    second: (Kind, u32),
    third: (Kind, u32),
) -> Result<(), AllocError>
    requires { AllFit (first ∷ second ∷ third ∷ []) }
    ensures grown { HasGrown arena.old arena.new }
    ensures ok { OnOk result (AllRoom arena.new (first ∷ second ∷ third ∷ [])) }
    ensures known { AllRoom arena.old (first ∷ second ∷ third ∷ []) → IsOk result }
{
    room_for_one(arena, first)?;
    room_for_two(arena, second, third)
}

/// Makes the room of the number of a solid and of the numbers of its face, its loop and its vertex, as `room_for_one` does.
#[inline(always)]
pub(crate) fn room_for_solid(
    arena: &mut Arena,
    solid: u32,
    face: u32,
    outer: u32,
    vertex: u32,
) -> Result<(), AllocError>
    requires { AllFit ((Kind.Solid, solid) ∷ (Kind.Face, face) ∷ (Kind.Loop, outer) ∷ (Kind.Vertex, vertex) ∷ []) }
    ensures grown { HasGrown arena.old arena.new }
    ensures ok { OnOk result (AllRoom arena.new ((Kind.Solid, solid) ∷ (Kind.Face, face) ∷ (Kind.Loop, outer) ∷ (Kind.Vertex, vertex) ∷ [])) }
    ensures known { AllRoom arena.old ((Kind.Solid, solid) ∷ (Kind.Face, face) ∷ (Kind.Loop, outer) ∷ (Kind.Vertex, vertex) ∷ []) → IsOk result }
{
    room_for_one(arena, (Kind::Solid, solid))?;
    room_for_three(
        arena,
        (Kind::Face, face),
        (Kind::Loop, outer),
        (Kind::Vertex, vertex),
    )
}

/// Makes the room of every number that an operator makes.
fn room_for_op(arena: &mut Arena, op: &Op) -> Result<(), AllocError>
    requires ready { IsReady arena.old }
    requires accepted { first_false arena.old.model op.now ≡ None }
    ensures grown { HasGrown arena.old arena.new }
    ensures ok { OnOk result (HasRoomFor arena.new op.now) }
    ensures known { HasRoomFor arena.old op.now → IsOk result }
{
    match op {
        Op::Mvfs(s, f, l, v, _) => room_for_solid(arena, *s, *f, *l, *v),
        Op::Mev(_, _, h, v, _) => room_for_two(arena, (Kind::Edge, h.edge), (Kind::Vertex, *v)),
        Op::Mef(_, _, h, f, l) => room_for_three(
            arena,
            (Kind::Edge, h.edge),
            (Kind::Face, *f),
            (Kind::Loop, *l),
        ),
        Op::Kemr(_, l) => room_for_one(arena, (Kind::Loop, *l)),
        Op::Mekr(_, _, h) => room_for_one(arena, (Kind::Edge, h.edge)),
        Op::Mfkrh(_, f) => room_for_one(arena, (Kind::Face, *f)),
        Op::Part(_, t, _) => room_for_one(arena, (Kind::Solid, *t)),
        Op::Kvfs(_)
        | Op::Kev(_)
        | Op::Kef(_)
        | Op::Kfmrh(_, _)
        | Op::RingIn(_, _)
        | Op::RingOut(_, _)
        | Op::Outer(_, _)
        | Op::Merge(_, _) => Ok(()),
    }
}

/// The faces that an operator moves from one solid to another, if its inverse lists them.
fn faces_for(alloc: Global, arena: &Arena, op: &Op) -> Result<FaceList, AllocError>
    requires { IsReady arena.now }
    ensures listed { IfOk result (λ faces. faces ≡ faces_for arena.now.model op.now) }
    ensures none { faces_for arena.now.model op.now ≡ [] → IsOk result }
{
    match op {
        Op::Merge(_, gone) => moving::faces_of(alloc, arena, *gone),
        _ => Ok(FaceList::new(alloc)),
    }
}

/// Makes all that `apply` needs for an operator that is accepted: the room of every number that it makes, and the list of
/// the faces that a merge moves. After that neither `apply` nor `replay` takes memory.
///
/// On `AllocError` the model is as it was, and no room is lost. An `AllocError` comes only if some number had no room, or if faces are
/// listed.
pub fn room_op(alloc: Global, arena: &mut Arena, op: &Op) -> Result<MovedFaces, AllocError>
    requires ready { IsReady arena.old }
    requires accepted { first_false arena.old.model op.now ≡ None }
    ensures grown { HasGrown arena.old arena.new }
    ensures ok { OnOk result (HasRoomFor arena.new op.now) }
    ensures faces { IfOk result (λ room. room.faces ≡ faces_for arena.old.model op.now) }
    ensures known { HasRoomFor arena.old op.now → faces_for arena.old.model op.now ≡ [] → IsOk result }
{
    let faces = faces_for(alloc, arena, op)?;
    room_for_op(arena, op)?;
    Ok(MovedFaces { faces })
}
