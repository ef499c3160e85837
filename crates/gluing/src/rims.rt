//! The outer loop of a face: its half-edges, and the points at which they start.
ghost use Rattle.std.specs.Prelude.{◌≡◌, true, false, IfOk};
ghost use Rattle.euler_operators.specs.Common.{IsIn, head_or, same_point, code, content, cycle_of, has_half, outer, is_lone};
ghost use Rattle.euler_conditions.specs.Ready.{IsReady};
ghost use Rattle.euler_conditions.specs.Store.{has_number};
ghost use Rattle.shapes.specs.Common.{start, outline, rim};
ghost use Rattle.gluing.specs.Rims.{item_at};

use euler_conditions::Arena;
use euler_operators::{HalfEdge, Kind, Point};
use solid_walks::{Items, items_of, least_item, some_item, start};
use std::alloc::{AllocError, Global};

/// Some half-edge of the outer loop of face f, which isn't lone.
fn outer_item(arena: &Arena, f: u32) -> HalfEdge
    requires ready { IsReady arena.now }
    requires there { has_number arena.now Kind.Face f ≡ true }
    requires held { is_lone (content arena.now.model (outer arena.now.model f)) ≡ false }
    ensures there { has_half arena.now.model (code result) ≡ true }
    ensures inside { cycle_of arena.now.model (code result) ≡ rim arena.now.model f }
{
    some_item(arena, arena.outer(f))
}

/// The first half-edge of the outer loop of face f, which isn't lone, in the order of listings.
#[tactic(auto, using(solid_walks::proofs::face_walks_laws::CycleWalks::from_least))]
pub(crate) fn first_item(arena: &Arena, f: u32) -> HalfEdge
    requires ready { IsReady arena.now }
    requires there { has_number arena.now Kind.Face f ≡ true }
    requires held { is_lone (content arena.now.model (outer arena.now.model f)) ≡ false }
    ensures there { has_half arena.now.model (code result) ≡ true }
    ensures first { code result ≡ head_or 0 (rim arena.now.model f) }
{
    least_item(arena, outer_item(arena, f))
}

/// The half-edges of the outer loop of face f, which isn't lone, in the order of listings.
fn rim(arena: &Arena, f: u32) -> Items<'_>
    requires ready { IsReady arena.now }
    requires there { has_number arena.now Kind.Face f ≡ true }
    requires held { is_lone (content arena.now.model (outer arena.now.model f)) ≡ false }
    ensures { result ≡ rim arena.now.model f }
{
    items_of(arena, outer_item(arena, f))
}

/// The points of the corners of the outer loop of face f, which isn't lone, in the order of listings.
pub(crate) fn outline(alloc: Global, arena: &Arena, f: u32) -> Result<Vec<Point>, AllocError>
    requires ready { IsReady arena.now }
    requires there { has_number arena.now Kind.Face f ≡ true }
    requires held { is_lone (content arena.now.model (outer arena.now.model f)) ≡ false }
    ensures { IfOk result (λ points. points.items ≡ outline arena.now.model f) }
{
    rim(arena, f).map(|item| start(arena, item)).collect(alloc)
}

/// Whether the half-edge starts at the point.
fn starts_at(arena: &Arena, item: HalfEdge, point: Point) -> bool
    requires ready { IsReady arena.now }
    requires there { has_half arena.now.model (code item) ≡ true }
    ensures { result ≡ same_point (start arena.now.model (code item)) point }
{
    start(arena, item) == point
}

/// The half-edge of the outer loop of face f that starts at a point; there is exactly one.
#[tactic(auto, using(crate::proofs::Found::rim_held))]
pub(crate) fn item_at(arena: &Arena, f: u32, point: Point) -> HalfEdge
    requires ready { IsReady arena.now }
    requires there { has_number arena.now Kind.Face f ≡ true }
    requires inside { IsIn (item_at arena.now.model f point) (rim arena.now.model f) }
    requires starts { start arena.now.model (item_at arena.now.model f point) ≡ point }
    ensures { code result ≡ item_at arena.now.model f point }
{
    rim(arena, f)
        .find(|item| starts_at(arena, *item, point))
        .unwrap()
}
