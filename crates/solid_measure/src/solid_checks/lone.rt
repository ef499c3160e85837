//! Lone loops of solids.
ghost use Rattle.std.specs.Prelude.{◌≡◌};
ghost use Rattle.euler_operators.specs.Common.{faces_of};
ghost use Rattle.solid_walks.specs.Ready.{IsReady};
ghost use Rattle.shapes.specs.Common.{faces_of_both, least_lone};

use solid_walks::{Arena, faces_of, least_lone_of_face, lesser};

/// The least lone loop of the faces of solid s, if there is one. It looks at each of their loops once, and at no other.
pub fn least_lone(arena: &Arena, s: u32) -> Option<u32>
    requires { IsReady arena.now }
    ensures { result ≡ least_lone arena.now.model (faces_of arena.now.model s) }
{
    faces_of(arena, s).fold(None, |least, f| lesser(least, least_lone_of_face(arena, f)))
}

/// The least lone loop of the faces of two solids, if there is one.
pub fn least_lone_of_both(arena: &Arena, s: u32, other: u32) -> Option<u32>
    requires { IsReady arena.now }
    ensures { result ≡ least_lone arena.now.model (faces_of_both arena.now.model s other) }
{
    lesser(least_lone(arena, s), least_lone(arena, other))
}
