//! Half-edges that start at one vertex and are moved to another.
ghost use Rattle.std.specs.Prelude.{◌≡◌};
ghost use Rattle.euler_operators.specs.Common.{code, arc, tail, Sound, HasHalf};
ghost use Rattle.low_euler.specs.steps.Steps.{with_tails_at};

use euler_conditions::Arena;
use euler_operators::HalfEdge;

/// Goes round a vertex from one half-edge up to before another, and makes each that it meets start at `vertex`. It costs as many steps as
/// there are half-edges on the way. From step to step it carries their codes, each of which is one number.
pub(crate) fn move_tails(arena: &mut Arena, from: HalfEdge, to: HalfEdge, vertex: u32)
    requires sound { Sound arena.old.model }
    requires from { HasHalf arena.old.model (code from) }
    requires to { HasHalf arena.old.model (code to) }
    requires one_tail { tail arena.old.model (code to) ≡ tail arena.old.model (code from) }
    ensures { arena.new ≡ with_tails_at arena.old (arc arena.old.model (code from) (code to)) vertex }
{
    let end = to.code();
    let mut code = from.code();
    'round: while code != end {
        arena.set_tail(HalfEdge::of_code(code), vertex);
        code = arena.next(HalfEdge::of_code(code).mate()).code();
    }
}
