//! The half-edges that start at cut places, after the edges that cross the plane are cut.
ghost use Rattle.std.specs.Prelude.{◌≡◌, true, map, IfOk};
ghost use Rattle.euler_operators.specs.Common.{code, has_half, IsCutPlane};
ghost use Rattle.euler_conditions.specs.Ready.{IsReady};
ghost use Rattle.shapes.specs.Common.{from_place};
ghost use Rattle.split_checks.specs.Cuts.{codes};
ghost use Rattle.split_checks.specs.cut_places.Noted.{AreSides};
ghost use Rattle.split_drawing.specs.solid_drawing.Starts.{PairsThere, pair_started, pairs_started};

use euler_conditions::Arena;
use euler_operators::{HalfEdge, Plane, Sign};
use split_checks::{Pair, Sides, same, start_side};
use std::alloc::{AllocError, Global};

/// The half-edge that starts at the cut place of h: if h starts on the plane, it is h, otherwise the one after it.
fn from_place(arena: &Arena, plane: Plane, sides: &mut Sides, h: HalfEdge) -> HalfEdge
    requires ready { IsReady arena.now }
    requires there { has_half arena.now.model (code h) ≡ true }
    requires plane { IsCutPlane plane }
    requires sides { AreSides arena.now.model plane sides.old }
    ensures is { code result ≡ from_place arena.now.model plane (code h) }
    ensures sides { AreSides arena.now.model plane sides.new }
{
    if same(start_side(arena, plane, sides, h), Sign::On) {
        h
    } else {
        arena.next(h)
    }
}

/// The half-edges that start at the cut places of a pair.
fn pair_started(arena: &Arena, plane: Plane, sides: &mut Sides, pair: Pair) -> Pair
    requires ready { IsReady arena.now }
    requires up { has_half arena.now.model (code pair.up) ≡ true }
    requires down { has_half arena.now.model (code pair.down) ≡ true }
    requires plane { IsCutPlane plane }
    requires sides { AreSides arena.now.model plane sides.old }
    ensures sides { AreSides arena.now.model plane sides.new }
    ensures are { codes result ≡ pair_started arena.now.model plane (codes pair) }
{
    Pair {
        up: from_place(arena, plane, sides, pair.up),
        down: from_place(arena, plane, sides, pair.down),
    }
}

/// The half-edges that start at the cut places of some pairs.
pub(crate) fn pairs_started(
    alloc: Global,
    arena: &Arena,
    plane: Plane,
    sides: &mut Sides,
    pairs: &[Pair],
) -> Result<Vec<Pair>, AllocError>
    requires ready { IsReady arena.now }
    requires there { PairsThere arena.now.model (map codes pairs.now) }
    requires plane { IsCutPlane plane }
    requires sides { AreSides arena.now.model plane sides.old }
    ensures sides { AreSides arena.now.model plane sides.new }
    ensures are { IfOk result (λ started. map codes started.items ≡ pairs_started arena.now.model plane (map codes pairs.now)) }
{
    let mut started = Vec::new(alloc);
    started.reserve(pairs.len())?;
    let mut rest = pairs;
    'pairs: while let [pair, others @ ..] = rest {
        started.push(pair_started(arena, plane, sides, *pair))?;
        rest = others;
    }
    Ok(started)
}
