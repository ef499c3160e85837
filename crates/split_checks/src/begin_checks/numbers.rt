//! Numbers that are left.
ghost use Rattle.std.specs.Prelude.{◌≡◌, ◌+◌, ◌≤◌};
ghost use Rattle.euler_conditions.specs.Ready.{IsReady};
ghost use Rattle.euler_operators.specs.Common.{first_refusal, verdict};
ghost use Rattle.shapes.specs.Common.{numbers_left, taken_in};

use euler_conditions::Arena;
use euler_operators::{NUMBER_LIMIT, Refusal};
use solid_measure::counters_of;

/// One more than the greatest number: so many numbers of a kind are never left.
pub(crate) const TOO_MANY: usize = NUMBER_LIMIT as usize + 1;

/// Whether numbers are left for edges that are cut and pairs of cut places: a vertex and an edge for each such edge, and a face, a loop and an edge
/// for each pair. If there are more than `TOO_MANY` edges or pairs, `TOO_MANY` may be given for them.
pub(crate) fn check_left(arena: &Arena, cuts: usize, pairs: usize) -> Result<(), Refusal>
    requires ready { IsReady arena.now }
    requires cuts { cuts ≤ 1000001 }
    requires pairs { pairs ≤ 1000001 }
    ensures { result ≡ verdict (first_refusal (numbers_left (taken_in arena.now.model) (record { faces = pairs; loops = pairs; edges = cuts + pairs; vertices = cuts }))) }
{
    solid_measure::check_left(counters_of(arena), pairs, pairs, cuts + pairs, cuts)
}
