//! Strips, which are faces of two edges, cut off above the edges of a cycle.
ghost use Rattle.std.specs.Prelude.{◌≡◌, ◌≤◌, ◌<◌, ◌+◌, true, None, OnOk, OnErr, length, map, get_or};
ghost use Rattle.euler_operators.specs.Common.{code, mate, has_half, first_false};
ghost use Rattle.undo_journal.specs.Journal.{after_step, after_steps, IsFurther};
ghost use Rattle.split_drawing.specs.Counters.{taken_of};
ghost use Rattle.split_opening_laws.specs.strips.StripOps as ops;
ghost use Rattle.plane_split.specs.solid_opening.Stages.{CanOpen};

use euler_conditions::next;
use euler_operators::{HalfEdge, Op};
use split_drawing::Counters;
use std::alloc::AllocError;
use undo_journal::Draft;

/// Cuts off the strip at this place: from the half's mate up to what follows it in its loop.
fn cut_strip(
    draft: &mut Draft,
    from: &Counters,
    halves: &[HalfEdge],
    at: u32,
) -> Result<(), AllocError>
    requires inside { at < length halves.now }
    requires there { has_half draft.old.model (mate (get_or (map code halves.now) at 0)) ≡ true }
    requires faces_left { from.now.faces + at + 1 ≤ 1000000 }
    requires loops_left { from.now.loops + at + 1 ≤ 1000000 }
    requires edges_left { from.now.edges + at + 1 ≤ 1000000 }
    requires accepted { first_false draft.old.model (ops.cut_strip draft.old.model (taken_of from.now) (map code halves.now) at) ≡ None }
    ensures ok { OnOk result (draft.new ≡ after_step draft.old (ops.cut_strip draft.old.model (taken_of from.now) (map code halves.now) at)) }
    ensures err { OnErr result (draft.new ≡ draft.old) }
    ensures further { IsFurther draft.old draft.new }
{
    let mate = halves[at as usize].mate();
    let next = next(draft.arena(), mate);
    let edge = HalfEdge::plus(from.edges + at + 1);
    draft.step_accepted(Op::Mef(mate, next, edge, from.faces + at + 1, from.loops + at + 1))
}

/// Cuts off a strip above each edge of a cycle along which solid s can be opened, with the numbers after those taken. On `AllocError` some
/// may be cut off.
#[tactic(auto, using(undo_journal::proofs::Marks::further_none))]
pub(crate) fn cut_strips(
    draft: &mut Draft,
    s: u32,
    from: &Counters,
    halves: &[HalfEdge],
) -> Result<(), AllocError>
    requires { CanOpen draft.old.model s (taken_of from.now) (map code halves.now) }
    ensures steps { OnOk result (draft.new ≡ after_steps draft.old (ops.strip_ops draft.old.model s (taken_of from.now) (map code halves.now) (length halves.now))) }
    ensures further { IsFurther draft.old draft.new }
{
    let count = halves.len() as u32;
    let mut i = 0;
    'strips: while i < count {
        cut_strip(draft, from, halves, i)?;
        i += 1;
    }
    Ok(())
}
