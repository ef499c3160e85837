//! What can be told of a half-edge, whose edge is there, from an arena and a plane.
ghost use Rattle.std.specs.Prelude.{◌≡◌, true};
ghost use Rattle.euler_operators.specs.Common.{code, before, has_half, IsCutPlane, are_opposite, height, sign_of};
ghost use Rattle.euler_conditions.specs.Ready.{IsReady};
ghost use Rattle.shapes.specs.Common.{finish, start, goes_up};
ghost use Rattle.split_checks.specs.cut_places.Noted.{AreSides};

use crate::cut_places::noted::{Sides, start_side};
use crate::cut_places::planes::{opposite, same};
use euler_conditions::Arena;
use euler_operators::{HalfEdge, Plane, Sign};
use solid_measure::previous;

/// Whether the corners before and after the half-edge's own lie strictly on opposite sides of the plane. `to` is the side on which it ends.
pub(crate) fn passes(arena: &Arena, plane: Plane, sides: &mut Sides, h: HalfEdge, to: Sign) -> bool
    requires ready { IsReady arena.now }
    requires there { has_half arena.now.model (code h) ≡ true }
    requires plane { IsCutPlane plane }
    requires sides { AreSides arena.now.model plane sides.old }
    requires to { to ≡ sign_of (height plane (finish arena.now.model (code h))) }
    ensures is { result ≡ are_opposite plane (start arena.now.model (before arena.now.model (code h))) (finish arena.now.model (code h)) }
    ensures sides { AreSides arena.now.model plane sides.new }
{
    opposite(start_side(arena, plane, sides, previous(arena, h)), to)
}

/// Whether a cut place is up: its half-edge ends above the plane.
pub(crate) fn goes_up(arena: &Arena, plane: Plane, sides: &mut Sides, h: HalfEdge) -> bool
    requires ready { IsReady arena.now }
    requires there { has_half arena.now.model (code h) ≡ true }
    requires plane { IsCutPlane plane }
    requires sides { AreSides arena.now.model plane sides.old }
    ensures is { result ≡ goes_up arena.now.model plane (code h) }
    ensures sides { AreSides arena.now.model plane sides.new }
{
    same(start_side(arena, plane, sides, h.mate()), Sign::Above)
}
