//! The edges that cross a plane, each with the point at which it meets the plane.
ghost use Rattle.std.specs.Prelude.{◌≡◌, is_none, map, None, Some, IfErr, IfOk, IfSome};
ghost use Rattle.euler_conditions.specs.Ready.{IsReady};
ghost use Rattle.euler_operators.specs.Common.{IsCutPlane};
ghost use Rattle.shapes.specs.Common.{first_such};
ghost use Rattle.split_checks.specs.Common.{cut_at, AreCrossing, IsCrossing, is_off};

use crate::cuts::CutEdge;
use euler_conditions::Arena;
use euler_operators::{HalfEdge, Plane, cut_point};
use solid_measure::{finish, start};
use std::alloc::{AllocError, Global};

/// An edge that crosses the plane, with the point at which it meets the plane; none if that is off the lattice.
fn cut_edge(arena: &Arena, plane: Plane, e: u32) -> Option<CutEdge>
    requires ready { IsReady arena.now }
    requires plane { IsCutPlane plane }
    requires crossing { IsCrossing arena.now.model plane e }
    ensures off { is_none result ≡ is_off arena.now.model plane e }
    ensures cut { IfSome result (λ cut. cut ≡ cut_at arena.now.model plane e) }
{
    let h = HalfEdge {
        edge: e,
        first: true,
    };
    match cut_point(plane, start(arena, h), finish(arena, h)) {
        Some(point) => Some(CutEdge { edge: e, point }),
        None => None,
    }
}

/// Some edges that cross the plane, each with the point at which it meets the plane; or the first of them whose point is off the lattice.
pub(crate) fn cut_edges(
    alloc: Global,
    arena: &Arena,
    plane: Plane,
    edges: &[u32],
) -> Result<Result<Vec<CutEdge>, u32>, AllocError>
    requires ready { IsReady arena.now }
    requires plane { IsCutPlane plane }
    requires crossing { AreCrossing arena.now.model plane edges.now }
    ensures whole { IfOk result (λ found. IfOk found (λ _. first_such (is_off arena.now.model plane) edges.now ≡ None)) }
    ensures cut { IfOk result (λ found. IfOk found (λ cut. cut.items ≡ map (cut_at arena.now.model plane) edges.now)) }
    ensures off { IfOk result (λ found. IfErr found (λ e. first_such (is_off arena.now.model plane) edges.now ≡ Some e)) }
{
    let mut cut = Vec::with_capacity(alloc, edges.len())?;
    let mut rest = edges;
    'edges: while let [e, others @ ..] = rest {
        let Some(edge) = cut_edge(arena, plane, *e) else {
            return Ok(Err(*e));
        };
        cut.push(edge)?;
        rest = others;
    }
    Ok(Ok(cut))
}
