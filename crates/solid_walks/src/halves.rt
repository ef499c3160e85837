//! The points at which a half-edge starts and ends, and the item before it in its loop.
ghost use Rattle.std.specs.Prelude.{◌≡◌, true};
ghost use Rattle.euler_operators.specs.Common.{code, before, has_half, IsInRange};
ghost use Rattle.euler_conditions.specs.Ready.{IsReady};
ghost use Rattle.shapes.specs.Common.{finish, start};

use euler_conditions::Arena;
use euler_operators::{HalfEdge, Point};

/// The point at which the half-edge starts.
pub fn start(arena: &Arena, h: HalfEdge) -> Point
    requires ready { IsReady arena.now }
    requires there { has_half arena.now.model (code h) ≡ true }
    ensures point { result ≡ start arena.now.model (code h) }
    ensures range { IsInRange result }
{
    arena.point(arena.tail(h))
}

/// The point at which the half-edge ends.
pub fn finish(arena: &Arena, h: HalfEdge) -> Point
    requires ready { IsReady arena.now }
    requires there { has_half arena.now.model (code h) ≡ true }
    ensures point { result ≡ finish arena.now.model (code h) }
    ensures range { IsInRange result }
{
    start(arena, h.mate())
}

/// The item before the half-edge in its loop.
pub fn previous(arena: &Arena, h: HalfEdge) -> HalfEdge
    requires ready { IsReady arena.now }
    requires there { has_half arena.now.model (code h) ≡ true }
    ensures previous { code result ≡ before arena.now.model (code h) }
    ensures there { has_half arena.now.model (code result) ≡ true }
{
    arena.prev(h)
}
