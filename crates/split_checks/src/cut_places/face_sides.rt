//! On which side of a plane a face has corners.
ghost use Rattle.std.specs.Prelude.{◌≡◌, true, false};
ghost use Rattle.euler_operators.specs.Common.{code, content, cycle_of, has_half, IsCutPlane, Above, Below};
ghost use Rattle.euler_conditions.specs.Ready.{IsReady};
ghost use Rattle.euler_conditions.specs.Store.{has_number};
ghost use Rattle.shapes.specs.Common.{vertices_on};
ghost use Rattle.split_checks.specs.Common.{AreSides, reaches, side_reached, some_lie, some_start};

use crate::cut_places::noted::{Sides, side_of_code, vertex_side};
use crate::cut_places::planes::same;
use euler_conditions::{Arena, next_code};
use euler_operators::{Content, HalfEdge, Kind, Plane, Sign};

/// The side that is reached if no corner lies above the plane.
fn none_above(below: bool) -> Sign
    ensures { result ≡ side_reached false below }
{
    if below { Sign::Below } else { Sign::On }
}

/// The side that the loop in which h stands reaches. It walks from h on to the first corner above.
#[inline(always)]
fn ring_side(arena: &Arena, plane: Plane, sides: &mut Sides, h: HalfEdge) -> Sign
    requires ready { IsReady arena.now }
    requires there { has_half arena.now.model (code h) ≡ true }
    requires plane { IsCutPlane plane }
    requires sides { AreSides arena.now.model plane sides.old }
    ensures is { result ≡ side_reached (some_start Above arena.now.model plane (cycle_of arena.now.model (code h))) (some_start Below arena.now.model plane (cycle_of arena.now.model (code h))) }
    ensures sides { AreSides arena.now.model plane sides.new }
{
    let mut below = false;
    let first = h.code();
    let mut at = first;
    'round: loop {
        let side = side_of_code(arena, plane, sides, at);
        if same(side, Sign::Above) {
            return side;
        }
        below |= same(side, Sign::Below);
        at = next_code(arena, at);
        if at == first {
            return none_above(below);
        }
    }
}

/// The side that loop l reaches: above if it has a corner above the plane, else below if it has one below, else on. It takes no memory.
#[inline(always)]
pub fn loop_side(arena: &Arena, plane: Plane, sides: &mut Sides, l: u32) -> Sign
    requires ready { IsReady arena.now }
    requires there { has_number arena.now Kind.Loop l ≡ true }
    requires plane { IsCutPlane plane }
    requires sides { AreSides arena.now.model plane sides.old }
    ensures is { result ≡ side_reached (some_lie Above arena.now.model plane (vertices_on arena.now.model (content arena.now.model l))) (some_lie Below arena.now.model plane (vertices_on arena.now.model (content arena.now.model l))) }
    ensures sides { AreSides arena.now.model plane sides.new }
{
    match arena.content(l) {
        Content::Lone(v) => vertex_side(arena, plane, sides, v),
        Content::Ring(h) => ring_side(arena, plane, sides, h),
    }
}

/// The side that face f reaches, by the same rule. It takes no memory, and looks at each corner once.
pub fn face_side(arena: &Arena, plane: Plane, sides: &mut Sides, f: u32) -> Sign
    requires ready { IsReady arena.now }
    requires there { has_number arena.now Kind.Face f ≡ true }
    requires plane { IsCutPlane plane }
    requires sides { AreSides arena.now.model plane sides.old }
    ensures is { result ≡ side_reached (reaches Above arena.now.model plane f) (reaches Below arena.now.model plane f) }
    ensures sides { AreSides arena.now.model plane sides.new }
{
    let outer = loop_side(arena, plane, sides, arena.outer(f));
    if same(outer, Sign::Above) {
        return outer;
    }
    let mut below = same(outer, Sign::Below);
    let mut last = 0;
    'rings: while let Some(l) = arena.ring_after(f, last) {
        let side = loop_side(arena, plane, sides, l);
        if same(side, Sign::Above) {
            return side;
        }
        below |= same(side, Sign::Below);
        last = l;
    }
    none_above(below)
}
