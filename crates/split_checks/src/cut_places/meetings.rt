//! What a plane meets of a solid, found in one walk over its faces.
ghost use Rattle.std.specs.Prelude.{◌≡◌, ◌&&◌, ◌||◌, [], true, false, not, nat_eq, IfOk, OnOk};
ghost use Rattle.std.specs.List.{list_all};
ghost use Rattle.euler_operators.specs.Common.{rings_of, IsCutPlane};
ghost use Rattle.euler_conditions.specs.Ready.{IsReady};
ghost use Rattle.euler_conditions.specs.Store.{has_number};
ghost use Rattle.shapes.specs.Common.{boundary, corners, items_in, vertices_in, is_cut_often, loop_is_cut};
ghost use Rattle.split_checks.specs.Common.{IsFaceMet, IsMet, IsSolidMet, unmarked, AreSides};

use crate::cut_places::found::{FaceMet, Looked, Met};
use crate::cut_places::looking::look_at_loop;
use crate::cut_places::noted::Sides;
use euler_conditions::Arena;
use euler_operators::{HalfEdge, Kind, Plane};
use std::alloc::{AllocError, Global};

/// Looks at the corners of the rings of face f, and tells whether each ring has a cut place.
fn look_at_rings(
    arena: &Arena,
    plane: &Plane,
    sides: &mut Sides,
    f: u32,
    looked: &mut Looked,
) -> Result<bool, AllocError>
    requires ready { IsReady arena.now }
    requires there { has_number arena.now Kind.Face f ≡ true }
    requires plane { IsCutPlane plane.now }
    requires sides { AreSides arena.now.model plane.now sides.old }
    ensures sides { AreSides arena.now.model plane.now sides.new }
    ensures met { OnOk result (IsMet arena.now.model plane.now looked.old looked.new (items_in arena.now.model (rings_of arena.now.model f)) (vertices_in arena.now.model (rings_of arena.now.model f))) }
    ensures cut { IfOk result (λ cut. cut ≡ list_all (loop_is_cut arena.now.model plane.now) (rings_of arena.now.model f)) }
{
    let mut all = true;
    let mut last = 0;
    'rings: while let Some(l) = arena.ring_after(f, last) {
        all &= look_at_loop(arena, plane, sides, l, looked)?;
        last = l;
    }
    Ok(all)
}

/// Whether a face is cut too often: its outer loop has no cut place; or one of its rings has none, and it doesn't have exactly two.
fn is_often(outer_cut: bool, rings_cut: bool, places: usize) -> bool
    ensures { result ≡ not outer_cut || (not rings_cut && not (nat_eq places 2)) }
{
    !outer_cut || (!rings_cut && places != 2)
}

/// Looks at the corners of face f, and tells whether the face is cut too often: the outer loop has no cut place; or a ring has none, and the face
/// doesn't have exactly two.
fn look_at_loops(
    arena: &Arena,
    plane: &Plane,
    sides: &mut Sides,
    f: u32,
    looked: &mut Looked,
) -> Result<bool, AllocError>
    requires ready { IsReady arena.now }
    requires there { has_number arena.now Kind.Face f ≡ true }
    requires plane { IsCutPlane plane.now }
    requires sides { AreSides arena.now.model plane.now sides.old }
    ensures sides { AreSides arena.now.model plane.now sides.new }
    ensures met { OnOk result (IsMet arena.now.model plane.now looked.old looked.new (boundary arena.now.model f) (corners arena.now.model f)) }
    ensures often { IfOk result (λ often. often ≡ is_cut_often arena.now.model plane.now f) }
{
    let before = looked.places.len();
    let outer_cut = look_at_loop(arena, plane, sides, arena.outer(f), looked)?;
    let rings_cut = look_at_rings(arena, plane, sides, f, looked)?;
    let places = looked.places.len() - before;
    Ok(is_often(outer_cut, rings_cut, places))
}

/// Forgets what the corners of the face before have met.
fn unmark(looked: &mut Looked)
    ensures { looked.new ≡ unmarked looked.old }
{
    looked.above = false;
    looked.below = false;
    looked.touched = false;
}

/// Whether the face that was looked at straddles the plane: it has a corner above and one below.
fn straddles(looked: &Looked) -> bool
    ensures { result ≡ looked.now.above && looked.now.below }
{
    looked.above && looked.below
}

/// Adds what the plane meets of face f.
fn look_at_face(
    arena: &Arena,
    plane: &Plane,
    sides: &mut Sides,
    f: u32,
    met: &mut Met,
) -> Result<(), AllocError>
    requires ready { IsReady arena.now }
    requires there { has_number arena.now Kind.Face f ≡ true }
    requires plane { IsCutPlane plane.now }
    requires sides { AreSides arena.now.model plane.now sides.old }
    ensures sides { AreSides arena.now.model plane.now sides.new }
    ensures met { OnOk result (IsFaceMet arena.now.model plane.now met.old met.new f) }
{
    let before = met.looked.places.len();
    unmark(&mut met.looked);
    let often = look_at_loops(arena, plane, sides, f, &mut met.looked)?;
    met.above |= met.looked.above;
    met.below |= met.looked.below;
    if straddles(&met.looked) {
        met.faces.push(FaceMet {
            face: f,
            touched: met.looked.touched,
            often,
            places: met.looked.places.len() - before,
        })?;
    } else {
        met.looked.places.truncate(before);
    }
    Ok(())
}

/// How many cut places there is room for at first: those of eight faces, each cut once.
const PLACES_AT_FIRST: usize = 16;

/// Nothing is met yet; `places` is empty.
fn nothing_met(alloc: Global, places: Vec<HalfEdge>) -> Met
    requires { places.items ≡ [] }
    ensures above { result.above ≡ false }
    ensures below { result.below ≡ false }
    ensures faces { result.faces.items ≡ [] }
    ensures edges { result.looked.edges.items ≡ [] }
    ensures places { result.looked.places.items ≡ [] }
{
    Met {
        above: false,
        below: false,
        faces: Vec::new(alloc),
        looked: Looked {
            above: false,
            below: false,
            touched: false,
            edges: Vec::new(alloc),
            places,
        },
    }
}

/// What the plane meets of solid s, with the edges that cross it rising. It walks twice round each loop, but looks at each corner once.
pub(crate) fn meeting(
    alloc: Global,
    arena: &Arena,
    plane: Plane,
    sides: &mut Sides,
    s: u32,
) -> Result<Met, AllocError>
    requires ready { IsReady arena.now }
    requires plane { IsCutPlane plane }
    requires sides { AreSides arena.now.model plane sides.old }
    ensures sides { AreSides arena.now.model plane sides.new }
    ensures met { IfOk result (λ met. IsSolidMet arena.now.model plane s met) }
{
    let mut met = nothing_met(alloc, Vec::with_capacity(alloc, PLACES_AT_FIRST)?);
    let mut last = 0;
    'faces: while let Some(f) = arena.face_after(s, last) {
        look_at_face(arena, &plane, sides, f, &mut met)?;
        last = f;
    }
    met.looked.edges.sort()?;
    Ok(met)
}
