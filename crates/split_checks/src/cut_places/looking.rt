//! The corners of a loop are looked at once, each with the next one.
ghost use Rattle.std.specs.Prelude.{◌≡◌, ◌∷◌, [], true, IfOk, OnOk};
ghost use Rattle.euler_operators.specs.Common.{code, content, cycle_of, has_half, items_of, tail, IsCutPlane, height, sign_of};
ghost use Rattle.euler_conditions.specs.Ready.{IsReady};
ghost use Rattle.euler_conditions.specs.Store.{has_number};
ghost use Rattle.shapes.specs.Common.{finish, start, vertices_on, loop_is_cut};
ghost use Rattle.split_checks.specs.Common.{IsMet, IsRound, with_side, AreSides};

use crate::cut_places::found::Looked;
use crate::cut_places::halves::passes;
use crate::cut_places::noted::{Sides, side_of_code, vertex_side};
use crate::cut_places::planes::{opposite, same};
use euler_conditions::{Arena, next_code};
use euler_operators::{Content, HalfEdge, Kind, Plane, Sign};
use solid_measure::least_item;
use std::alloc::AllocError;

/// Notes that a corner lies on this side.
fn mark_side(looked: &mut Looked, side: Sign)
    ensures { looked.new ≡ with_side looked.old side }
{
    match side {
        Sign::Below => looked.below = true,
        Sign::On => {}
        Sign::Above => looked.above = true,
    }
}

/// Looks at the half-edge, which starts and ends on these sides of the plane.
fn look_at(
    arena: &Arena,
    plane: &Plane,
    sides: &mut Sides,
    h: HalfEdge,
    from: Sign,
    to: Sign,
    looked: &mut Looked,
) -> Result<(), AllocError>
    requires ready { IsReady arena.now }
    requires there { has_half arena.now.model (code h) ≡ true }
    requires plane { IsCutPlane plane.now }
    requires sides { AreSides arena.now.model plane.now sides.old }
    requires from { from ≡ sign_of (height plane.now (start arena.now.model (code h))) }
    requires to { to ≡ sign_of (height plane.now (finish arena.now.model (code h))) }
    ensures sides { AreSides arena.now.model plane.now sides.new }
    ensures met { OnOk result (IsMet arena.now.model plane.now looked.old looked.new (code h ∷ []) (tail arena.now.model (code h) ∷ [])) }
{
    mark_side(looked, from);
    if opposite(from, to) {
        if h.first {
            looked.edges.push(h.edge)?;
        }
        looked.places.push(h)?;
    } else if same(from, Sign::On) {
        if passes(arena, *plane, sides, h, to) {
            looked.places.push(h)?;
        } else {
            looked.touched = true;
        }
    }
    Ok(())
}

/// Looks at the half-edges of the loop in which h stands, from the least on.
fn look_round(
    arena: &Arena,
    plane: &Plane,
    sides: &mut Sides,
    h: HalfEdge,
    looked: &mut Looked,
) -> Result<(), AllocError>
    requires ready { IsReady arena.now }
    requires there { has_half arena.now.model (code h) ≡ true }
    requires plane { IsCutPlane plane.now }
    requires sides { AreSides arena.now.model plane.now sides.old }
    ensures sides { AreSides arena.now.model plane.now sides.new }
    ensures met { OnOk result (IsRound arena.now.model plane.now looked.old looked.new (cycle_of arena.now.model (code h))) }
{
    let least = least_item(arena, h);
    let first = least.code();
    let mut at = first;
    let mut from = side_of_code(arena, *plane, sides, first);
    'round: loop {
        let next = next_code(arena, at);
        let to = side_of_code(arena, *plane, sides, next);
        look_at(arena, plane, sides, HalfEdge::of_code(at), from, to, looked)?;
        if next == first {
            return Ok(());
        }
        at = next;
        from = to;
    }
}

/// Looks at the corners of loop l.
fn look_along(
    arena: &Arena,
    plane: &Plane,
    sides: &mut Sides,
    l: u32,
    looked: &mut Looked,
) -> Result<(), AllocError>
    requires ready { IsReady arena.now }
    requires there { has_number arena.now Kind.Loop l ≡ true }
    requires plane { IsCutPlane plane.now }
    requires sides { AreSides arena.now.model plane.now sides.old }
    ensures sides { AreSides arena.now.model plane.now sides.new }
    ensures met { OnOk result (IsMet arena.now.model plane.now looked.old looked.new (items_of (content arena.now.model l)) (vertices_on arena.now.model (content arena.now.model l))) }
{
    match arena.content(l) {
        Content::Lone(v) => {
            mark_side(looked, vertex_side(arena, *plane, sides, v));
            Ok(())
        }
        Content::Ring(h) => look_round(arena, plane, sides, h, looked),
    }
}

/// Looks at the corners of loop l, and tells whether the loop has a cut place.
pub(crate) fn look_at_loop(
    arena: &Arena,
    plane: &Plane,
    sides: &mut Sides,
    l: u32,
    looked: &mut Looked,
) -> Result<bool, AllocError>
    requires ready { IsReady arena.now }
    requires there { has_number arena.now Kind.Loop l ≡ true }
    requires plane { IsCutPlane plane.now }
    requires sides { AreSides arena.now.model plane.now sides.old }
    ensures sides { AreSides arena.now.model plane.now sides.new }
    ensures met { OnOk result (IsMet arena.now.model plane.now looked.old looked.new (items_of (content arena.now.model l)) (vertices_on arena.now.model (content arena.now.model l))) }
    ensures cut { IfOk result (λ cut. cut ≡ loop_is_cut arena.now.model plane.now l) }
{
    let before = looked.places.len();
    look_along(arena, plane, sides, l, looked)?;
    Ok(looked.places.len() > before)
}
