//! Faces of solids that aren't flat.
ghost use Rattle.std.specs.Prelude.{◌≡◌, not};
ghost use Rattle.euler_operators.specs.Common.{faces_of};
ghost use Rattle.solid_walks.specs.Ready.{IsReady};
ghost use Rattle.shapes.specs.Common.{faces_of_both, first_such};
ghost use Rattle.solid_measure.specs.Measure.{is_flat};

use crate::faces::is_flat;
use solid_walks::{Arena, faces_of, lesser};

/// The least face of solid s that isn't flat, if there is one. It measures the faces of the solid up to that one.
pub fn least_bent(arena: &Arena, s: u32) -> Option<u32>
    requires { IsReady arena.now }
    ensures { result ≡ first_such (λ f. not (is_flat arena.now.model f)) (faces_of arena.now.model s) }
{
    faces_of(arena, s).find(|f| !is_flat(arena, *f))
}

/// The least face of two solids that isn't flat, if there is one.
pub fn least_bent_of_both(arena: &Arena, s: u32, other: u32) -> Option<u32>
    requires { IsReady arena.now }
    ensures { result ≡ first_such (λ f. not (is_flat arena.now.model f)) (faces_of_both arena.now.model s other) }
{
    lesser(least_bent(arena, s), least_bent(arena, other))
}
