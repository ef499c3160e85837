//! Fresh numbers: those above the greatest numbers in use when a command begins.
ghost use Rattle.std.specs.Prelude.{◌≡◌, ◌+◌, nat_le};
ghost use Rattle.euler_operators.specs.Common.{first_refusal, verdict};
ghost use Rattle.euler_conditions.specs.Ready.{IsReady};
ghost use Rattle.shapes.specs.Common.{numbers_left, taken_in};
ghost use Rattle.solid_walks.specs.Counters.{AreWithin, taken_of};

use euler_conditions::Arena;
use euler_operators::{Kind, NUMBER_LIMIT, Refusal, Why, refused};

/// The greatest number of each kind except solids.
#[derive(Clone, Copy)]
pub struct Counters {
    pub faces: u32,
    pub loops: u32,
    pub edges: u32,
    pub vertices: u32,
}

/// The greatest numbers in use.
#[inline(always)]
pub fn counters_of(arena: &Arena) -> Counters
    requires { IsReady arena.now }
    ensures is { taken_of result ≡ taken_in arena.now.model }
    ensures within { AreWithin result }
{
    Counters {
        faces: arena.greatest(Kind::Face),
        loops: arena.greatest(Kind::Loop),
        edges: arena.greatest(Kind::Edge),
        vertices: arena.greatest(Kind::Vertex),
    }
}

/// Whether so many more numbers stay within the limit.
fn has_left(taken: u32, more: usize) -> bool
    ensures { result ≡ nat_le (taken + more) 1000000 }
{
    more <= NUMBER_LIMIT as usize && taken <= NUMBER_LIMIT - more as u32
}

/// Whether so many more faces, loops, edges and vertices stay within the limit of numbers. If not, the refusal is NumbersSpent with the first kind
/// that lacks numbers: 2 for faces, 3 for loops, 4 for edges, 5 for vertices.
pub fn check_left(
    taken: Counters,
    faces: usize,
    loops: usize,
    edges: usize,
    vertices: usize,
) -> Result<(), Refusal>
    ensures { result ≡ verdict (first_refusal (numbers_left (taken_of taken) (record { faces = faces; loops = loops; edges = edges; vertices = vertices }))) }
{
    if !has_left(taken.faces, faces) {
        return refused(Why::NumbersSpent, 2);
    }
    if !has_left(taken.loops, loops) {
        return refused(Why::NumbersSpent, 3);
    }
    if !has_left(taken.edges, edges) {
        return refused(Why::NumbersSpent, 4);
    }
    if !has_left(taken.vertices, vertices) {
        return refused(Why::NumbersSpent, 5);
    }
    Ok(())
}
