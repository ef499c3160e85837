//! Half-edges by their codes, for walks that look at many half-edges: a code is one number to carry and to compare.
ghost use Rattle.std.specs.Prelude.{◌≡◌, true};
ghost use Rattle.euler_operators.specs.Common.{IsInRange, mate, before, has_half};
ghost use Rattle.euler_conditions.specs.Ready.{IsReady};
ghost use Rattle.shapes.specs.Common.{start};

use crate::halves::{previous, start};
use euler_conditions::{Arena, mate_code};
use euler_operators::{HalfEdge, Point};

/// The code of the item before a half-edge in its loop.
pub fn previous_code(arena: &Arena, code: u32) -> u32
    requires ready { IsReady arena.now }
    requires there { has_half arena.now.model code ≡ true }
    ensures previous { result ≡ before arena.now.model code }
    ensures there { has_half arena.now.model result ≡ true }
{
    previous(arena, HalfEdge::of_code(code)).code()
}

/// The point at which the half-edge of a code starts.
pub fn start_of_code(arena: &Arena, code: u32) -> Point
    requires ready { IsReady arena.now }
    requires there { has_half arena.now.model code ≡ true }
    ensures point { result ≡ start arena.now.model code }
    ensures range { IsInRange result }
{
    start(arena, HalfEdge::of_code(code))
}

/// The code of the half-edge that leaves the same vertex and comes before this one round that vertex.
pub(crate) fn back(arena: &Arena, code: u32) -> u32
    requires ready { IsReady arena.now }
    requires there { has_half arena.now.model code ≡ true }
    ensures { result ≡ mate (before arena.now.model code) }
{
    mate_code(previous_code(arena, code))
}
