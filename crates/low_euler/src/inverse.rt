#![tactic(auto, using(crate::proofs::Prelude::mekr_holds, crate::proofs::Prelude::kfmrh_goes, crate::proofs::Prelude::mfkrh_goes, crate::proofs::Prelude::ring_in_goes, crate::proofs::Prelude::ring_out_goes, crate::proofs::Prelude::outer_goes_so, crate::proofs::Prelude::merge_goes))]
//! The operator that takes another one back. It is read from the arena before the other one is applied.
ghost use Rattle.std.specs.Prelude.{◌≡◌, None};
ghost use Rattle.euler_operators.specs.Common.{code, first_false, inverse, kev_corner, kev_corner_mate};
ghost use Rattle.euler_conditions.specs.Ready.{IsReady, HasRoomFor};
ghost use Rattle.low_euler.specs.Room.{faces_for};

use crate::making::MovedFaces;
use crate::reading;
use euler_conditions::{Arena, corner_loop, loop_of, next, same};
use euler_operators::{Corner, HalfEdge, Kind, Op};

#[tactic(auto, using(crate::proofs::vertex_operators_laws::SolidRows::goes, crate::proofs::vertex_operators_laws::SolidRows::outer_there, crate::proofs::vertex_operators_laws::SolidRows::vertex_there))]
pub(crate) fn kvfs(arena: &Arena, solid: u32) -> Op
    requires ready { IsReady arena.now }
    requires accepted { first_false arena.now.model (Op.Kvfs solid) ≡ None }
    ensures is { result ≡ inverse arena.now.model (Op.Kvfs solid) }
    ensures room { HasRoomFor arena.now result }
{
    let Some(face) = arena.only_face(solid) else {
        unreachable!()
    };
    let outer = arena.outer(face);
    let vertex = reading::lone_vertex(arena, outer);
    let point = arena.point(vertex);
    reading::in_use(arena, Kind::Solid, solid);
    reading::in_use(arena, Kind::Face, face);
    reading::in_use(arena, Kind::Loop, outer);
    reading::in_use(arena, Kind::Vertex, vertex);
    Op::Mvfs(solid, face, outer, vertex, point)
}

/// The corners at which mev makes the edge again: those of the items after h and after its mate. If only one of these items belongs to
/// another edge, both corners are that item's. If neither does, both are the corner of the loop, which is lone then.
#[inline(always)]
#[tactic(auto, using(crate::proofs::Prelude::kev_goes, crate::proofs::Prelude::of_half, crate::proofs::Prelude::mate_edge_there))]
fn kev_corners(arena: &Arena, h: HalfEdge) -> (Corner, Corner)
    requires ready { IsReady arena.now }
    requires accepted { first_false arena.now.model (Op.Kev h) ≡ None }
    ensures first { result.0 ≡ kev_corner arena.now.model (code h) }
    ensures second { result.1 ≡ kev_corner_mate arena.now.model (code h) }
{
    let mate = h.mate();
    let following = next(arena, h);
    let back = next(arena, mate);
    if !same(following, mate) {
        (Corner::At(following), Corner::At(back))
    } else if same(back, h) {
        let lone = Corner::Lone(loop_of(arena, h));
        (lone, lone)
    } else {
        (Corner::At(back), Corner::At(back))
    }
}

#[inline(always)]
pub(crate) fn kev(arena: &Arena, h: HalfEdge) -> Op
    requires ready { IsReady arena.now }
    requires accepted { first_false arena.now.model (Op.Kev h) ≡ None }
    ensures is { result ≡ inverse arena.now.model (Op.Kev h) }
    ensures room { HasRoomFor arena.now result }
{
    let (first, second) = kev_corners(arena, h);
    let killed = arena.tail(h.mate());
    let point = arena.point(killed);
    reading::in_use(arena, Kind::Edge, h.edge);
    reading::in_use(arena, Kind::Vertex, killed);
    Op::Mev(first.packed(), second.packed(), h, killed, point)
}

#[inline(always)]
#[tactic(auto, using(crate::proofs::Prelude::kef_goes, crate::proofs::Prelude::of_half, crate::proofs::Prelude::mate_edge_there))]
pub(crate) fn kef(arena: &Arena, h: HalfEdge) -> Op
    requires ready { IsReady arena.now }
    requires accepted { first_false arena.now.model (Op.Kef h) ≡ None }
    ensures is { result ≡ inverse arena.now.model (Op.Kef h) }
    ensures room { HasRoomFor arena.now result }
{
    let mate = h.mate();
    let killed = loop_of(arena, mate);
    let face = arena.face_of(killed);
    let first = next(arena, mate);
    let second = next(arena, h);
    reading::in_use(arena, Kind::Edge, h.edge);
    reading::in_use(arena, Kind::Face, face);
    reading::in_use(arena, Kind::Loop, killed);
    Op::Mef(first, second, h, face, killed)
}

fn kemr(arena: &Arena, h: HalfEdge, ring: u32) -> Op
    requires ready { IsReady arena.now }
    requires accepted { first_false arena.now.model (Op.Kemr h ring) ≡ None }
    ensures is { result ≡ inverse arena.now.model (Op.Kemr h ring) }
    ensures room { HasRoomFor arena.now result }
{
    let mate = h.mate();
    let kept = loop_of(arena, h);
    let first = reading::corner_after(arena, mate, h, kept);
    let second = reading::corner_after(arena, h, mate, ring);
    reading::in_use(arena, Kind::Edge, h.edge);
    Op::Mekr(first.packed(), second.packed(), h)
}

fn mekr(arena: &Arena, first: Corner, second: Corner, h: HalfEdge) -> Op
    requires ready { IsReady arena.now }
    requires accepted { first_false arena.now.model (Op.Mekr first second h) ≡ None }
    ensures is { result ≡ inverse arena.now.model (Op.Mekr first second h) }
    ensures room { HasRoomFor arena.now result }
{
    let ring = corner_loop(arena, second);
    reading::in_use(arena, Kind::Loop, ring);
    Op::Kemr(h, ring)
}

fn kfmrh(arena: &Arena, kept: u32, killed: u32) -> Op
    requires ready { IsReady arena.now }
    requires accepted { first_false arena.now.model (Op.Kfmrh kept killed) ≡ None }
    ensures is { result ≡ inverse arena.now.model (Op.Kfmrh kept killed) }
    ensures room { HasRoomFor arena.now result }
{
    let ring = arena.outer(killed);
    reading::in_use(arena, Kind::Face, killed);
    Op::Mfkrh(ring, killed)
}

fn mfkrh(arena: &Arena, ring: u32, face: u32) -> Op
    requires ready { IsReady arena.now }
    requires accepted { first_false arena.now.model (Op.Mfkrh ring face) ≡ None }
    ensures is { result ≡ inverse arena.now.model (Op.Mfkrh ring face) }
    ensures room { HasRoomFor arena.now result }
{
    Op::Kfmrh(arena.face_of(ring), face)
}

fn ring_in(arena: &Arena, ring: u32, face: u32) -> Op
    requires ready { IsReady arena.now }
    requires accepted { first_false arena.now.model (Op.RingIn ring face) ≡ None }
    ensures is { result ≡ inverse arena.now.model (Op.RingIn ring face) }
    ensures room { HasRoomFor arena.now result }
{
    Op::RingIn(ring, arena.face_of(ring))
}

fn ring_out(arena: &Arena, ring: u32, face: u32) -> Op
    requires ready { IsReady arena.now }
    requires accepted { first_false arena.now.model (Op.RingOut ring face) ≡ None }
    ensures is { result ≡ inverse arena.now.model (Op.RingOut ring face) }
    ensures room { HasRoomFor arena.now result }
{
    let old = arena.outer(face);
    let home = arena.face_of(ring);
    Op::Outer(old, home)
}

fn outer(arena: &Arena, ring: u32, face: u32) -> Op
    requires ready { IsReady arena.now }
    requires accepted { first_false arena.now.model (Op.Outer ring face) ≡ None }
    ensures is { result ≡ inverse arena.now.model (Op.Outer ring face) }
    ensures room { HasRoomFor arena.now result }
{
    let home = arena.face_of(ring);
    let old = arena.outer(home);
    Op::RingOut(old, home)
}

fn merge(arena: &Arena, kept: u32, gone: u32, room: MovedFaces) -> Op
    requires accepted { first_false arena.now.model (Op.Merge kept gone) ≡ None }
    requires listed { room.faces ≡ faces_for arena.now.model (Op.Merge kept gone) }
    ensures is { result ≡ inverse arena.now.model (Op.Merge kept gone) }
    ensures room { HasRoomFor arena.now result }
{
    reading::in_use(arena, Kind::Solid, gone);
    Op::Part(kept, gone, room.faces)
}

/// The operator that takes `op` back; `op` is accepted. Every number that it makes has its room. It walks over nothing.
#[tactic(auto, unfolding(euler_operators::specs::Effect::inverse))]
pub(crate) fn inverse_of(arena: &Arena, op: &Op, room: MovedFaces) -> Op
    requires ready { IsReady arena.now }
    requires accepted { first_false arena.now.model op.now ≡ None }
    requires listed { room.faces ≡ faces_for arena.now.model op.now }
    ensures is { result ≡ inverse arena.now.model op.now }
    ensures room { HasRoomFor arena.now result }
{
    match op {
        Op::Mvfs(solid, _, _, _, _) => Op::Kvfs(*solid),
        Op::Kvfs(solid) => kvfs(arena, *solid),
        Op::Mev(_, _, h, _, _) => Op::Kev(*h),
        Op::Kev(h) => kev(arena, *h),
        Op::Mef(_, _, h, _, _) => Op::Kef(*h),
        Op::Kef(h) => kef(arena, *h),
        Op::Kemr(h, ring) => kemr(arena, *h, *ring),
        Op::Mekr(first, second, h) => mekr(arena, first.corner(), second.corner(), *h),
        Op::Kfmrh(kept, killed) => kfmrh(arena, *kept, *killed),
        Op::Mfkrh(ring, face) => mfkrh(arena, *ring, *face),
        Op::RingIn(ring, face) => ring_in(arena, *ring, *face),
        Op::RingOut(ring, face) => ring_out(arena, *ring, *face),
        Op::Outer(ring, face) => outer(arena, *ring, *face),
        Op::Merge(kept, gone) => merge(arena, *kept, *gone, room),
        Op::Part(kept, made, _) => Op::Merge(*kept, *made),
    }
}
