//! Calls of C: operators, each a command of its own, or a step of a draft.
ghost use Rattle.std.specs.Prelude.{◌≡◌, cond, nat_eq};
ghost use Rattle.euler_operators.specs.Common.{half};
ghost use Rattle.script_reader.specs.Grammar.{plus};
ghost use Rattle.session_slots.specs.Arguments.{corner_of};
ghost use Rattle.gwb_c.specs.Calls.{Acts};

use crate::told::CLOSED;
use euler_operators::{HalfEdge, Op, Point};
use session_slots::{Gwb, corner, kev, plus, put, ringmv, take};
use std::alloc::Global;

/// One operator: in a session it is a command, in a draft a step. It is inlined with all that it calls here, so that the operator is built in place,
/// where the session takes it, and isn't handed on from call to call.
#[inline(always)]
fn act(alloc: Global, gwb: &mut Gwb, op: Op) -> u32
    ensures { Acts gwb.old.kept.value op gwb.new.kept.value result }
{
    let Some(slot) = take(alloc, gwb) else {
        return CLOSED;
    };
    let mut slot = slot;
    let kind = session_slots::act(slot.slot_mut(), op);
    put(gwb, slot);
    kind
}

/// Makes a solid of one vertex.
#[unsafe(no_mangle)]
pub extern "C" fn gwb_mvfs(
    alloc: Global,
    gwb: &mut Gwb,
    solid: u32,
    face: u32,
    outer: u32,
    vertex: u32,
    x: i64,
    y: i64,
    z: i64,
) -> u32
    ensures { Acts gwb.old.kept.value (Op.Mvfs solid face outer vertex (record { x = x; y = y; z = z })) gwb.new.kept.value result }
{
    act(
        alloc,
        gwb,
        Op::Mvfs(solid, face, outer, vertex, Point { x, y, z }),
    )
}

/// Kills a solid of one vertex.
#[unsafe(no_mangle)]
pub extern "C" fn gwb_kvfs(alloc: Global, gwb: &mut Gwb, solid: u32) -> u32
    ensures { Acts gwb.old.kept.value (Op.Kvfs solid) gwb.new.kept.value result }
{
    act(alloc, gwb, Op::Kvfs(solid))
}

/// Makes an edge and a vertex at two corners, which divide the vertex's half-edges between the two vertices.
#[unsafe(no_mangle)]
pub extern "C" fn gwb_mev(
    alloc: Global,
    gwb: &mut Gwb,
    from: u32,
    to: u32,
    edge: u32,
    vertex: u32,
    x: i64,
    y: i64,
    z: i64,
) -> u32
    ensures { Acts gwb.old.kept.value (Op.Mev (corner_of from) (corner_of to) (plus edge) vertex (record { x = x; y = y; z = z })) gwb.new.kept.value result }
{
    act(
        alloc,
        gwb,
        Op::Mev(
            corner(from).packed(),
            corner(to).packed(),
            plus(edge),
            vertex,
            Point { x, y, z },
        ),
    )
}

/// Kills an edge and the vertex at its end.
#[unsafe(no_mangle)]
pub extern "C" fn gwb_kev(alloc: Global, gwb: &mut Gwb, half_edge: u32) -> u32
    ensures { Acts gwb.old.kept.value (Op.Kev (half half_edge)) gwb.new.kept.value result }
{
    act(alloc, gwb, kev(half_edge))
}

/// Makes an edge and a face between two half-edges of a loop.
#[unsafe(no_mangle)]
pub extern "C" fn gwb_mef(
    alloc: Global,
    gwb: &mut Gwb,
    from: u32,
    to: u32,
    edge: u32,
    face: u32,
    outer: u32,
) -> u32
    ensures { Acts gwb.old.kept.value (Op.Mef (half from) (half to) (plus edge) face outer) gwb.new.kept.value result }
{
    act(
        alloc,
        gwb,
        Op::Mef(
            HalfEdge::of_code(from),
            HalfEdge::of_code(to),
            plus(edge),
            face,
            outer,
        ),
    )
}

/// Kills an edge between two faces, and one of these faces.
#[unsafe(no_mangle)]
pub extern "C" fn gwb_kef(alloc: Global, gwb: &mut Gwb, half_edge: u32) -> u32
    ensures { Acts gwb.old.kept.value (Op.Kef (half half_edge)) gwb.new.kept.value result }
{
    act(alloc, gwb, Op::Kef(HalfEdge::of_code(half_edge)))
}

/// Kills an edge, and makes a ring.
#[unsafe(no_mangle)]
pub extern "C" fn gwb_kemr(alloc: Global, gwb: &mut Gwb, half_edge: u32, ring: u32) -> u32
    ensures { Acts gwb.old.kept.value (Op.Kemr (half half_edge) ring) gwb.new.kept.value result }
{
    act(alloc, gwb, Op::Kemr(HalfEdge::of_code(half_edge), ring))
}

/// Makes an edge from a corner to a ring, which it kills.
#[unsafe(no_mangle)]
pub extern "C" fn gwb_mekr(alloc: Global, gwb: &mut Gwb, from: u32, to: u32, edge: u32) -> u32
    ensures { Acts gwb.old.kept.value (Op.Mekr (corner_of from) (corner_of to) (plus edge)) gwb.new.kept.value result }
{
    act(
        alloc,
        gwb,
        Op::Mekr(corner(from).packed(), corner(to).packed(), plus(edge)),
    )
}

/// Kills a face, and makes its outer loop a ring of another face.
#[unsafe(no_mangle)]
pub extern "C" fn gwb_kfmrh(alloc: Global, gwb: &mut Gwb, face: u32, other: u32) -> u32
    ensures { Acts gwb.old.kept.value (Op.Kfmrh face other) gwb.new.kept.value result }
{
    act(alloc, gwb, Op::Kfmrh(face, other))
}

/// Makes a face of a ring.
#[unsafe(no_mangle)]
pub extern "C" fn gwb_mfkrh(alloc: Global, gwb: &mut Gwb, ring: u32, face: u32) -> u32
    ensures { Acts gwb.old.kept.value (Op.Mfkrh ring face) gwb.new.kept.value result }
{
    act(alloc, gwb, Op::Mfkrh(ring, face))
}

/// Moves a ring to a face: as a ring of it if `out` is 0, else as its outer loop.
#[unsafe(no_mangle)]
pub extern "C" fn gwb_ringmv(alloc: Global, gwb: &mut Gwb, ring: u32, face: u32, out: u32) -> u32
    ensures { Acts gwb.old.kept.value (cond (nat_eq out 0) (Op.RingIn ring face) (Op.RingOut ring face)) gwb.new.kept.value result }
{
    act(alloc, gwb, ringmv(ring, face, out))
}

/// Makes a ring the outer loop of its face, and the old outer loop a ring of the face given.
#[unsafe(no_mangle)]
pub extern "C" fn gwb_outer(alloc: Global, gwb: &mut Gwb, ring: u32, face: u32) -> u32
    ensures { Acts gwb.old.kept.value (Op.Outer ring face) gwb.new.kept.value result }
{
    act(alloc, gwb, Op::Outer(ring, face))
}

/// Makes two solids one.
#[unsafe(no_mangle)]
pub extern "C" fn gwb_merge(alloc: Global, gwb: &mut Gwb, solid: u32, other: u32) -> u32
    ensures { Acts gwb.old.kept.value (Op.Merge solid other) gwb.new.kept.value result }
{
    act(alloc, gwb, Op::Merge(solid, other))
}
