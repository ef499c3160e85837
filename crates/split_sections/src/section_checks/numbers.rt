//! Numbers that are left.
ghost use Rattle.std.specs.Prelude.{◌≡◌, ◌+◌, ◌*◌, ◌≤◌};
ghost use Rattle.euler_operators.specs.Common.{first_refusal, verdict};
ghost use Rattle.shapes.specs.Common.{numbers_left};
ghost use Rattle.solid_walks.specs.Counters.{taken_of};

use euler_operators::Refusal;
use solid_walks::Counters;

/// Whether numbers are left for so many section edges and cycles: a face and a loop for each edge and for each cycle, and two edges and a
/// vertex for each edge.
pub(crate) fn check_left(taken: Counters, edges: usize, cycles: usize) -> Result<(), Refusal>
    requires edges { edges ≤ 2000002 }
    requires cycles { cycles ≤ 2000002 }
    ensures { result ≡ verdict (first_refusal (numbers_left (taken_of taken) (record { faces = edges + cycles; loops = edges + cycles; edges = 2 * edges; vertices = edges }))) }
{
    let more = edges + cycles;
    solid_walks::check_left(taken, more, more, 2 * edges, edges)
}
