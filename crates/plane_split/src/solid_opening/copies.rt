//! Copies of the vertices of a cycle, which are raised after its strips are cut off.
ghost use Rattle.std.specs.Prelude.{◌≡◌, ◌≤◌, ◌<◌, ◌+◌, ◌*◌, true, None, OnOk, OnErr, length, map, get_or};
ghost use Rattle.euler_operators.specs.Common.{code, has_half, first_false};
ghost use Rattle.undo_journal.specs.Journal.{after_step, after_steps, IsFurther};
ghost use Rattle.split_drawing.specs.Counters.{taken_of};
ghost use Rattle.split_opening_laws.specs.strips.StripOps as ops;
ghost use Rattle.plane_split.specs.solid_opening.Stages.{AreStripped};

use euler_operators::{HalfEdge, Op};
use split_drawing::Counters;
use split_sections::start;
use std::alloc::AllocError;
use undo_journal::Draft;

/// The place before this one, round a cycle with so many places.
fn place_before(count: u32, at: u32) -> u32
    requires { at < count }
    ensures { result ≡ ops.place_before count at }
{
    if at == 0 { count - 1 } else { at - 1 }
}

/// Raises the copy of the vertex at this place: a riser leads from it to a new vertex at its point, between the back of its strip and
/// the mate of the half before.
fn raise_copy(
    draft: &mut Draft,
    from: &Counters,
    halves: &[HalfEdge],
    at: u32,
) -> Result<(), AllocError>
    requires inside { at < length halves.now }
    requires there { has_half draft.old.model (get_or (map code halves.now) at 0) ≡ true }
    requires edges_left { from.now.edges + 2 * length halves.now ≤ 1000000 }
    requires vertices_left { from.now.vertices + length halves.now ≤ 1000000 }
    requires accepted { first_false draft.old.model (ops.raise_copy draft.old.model (taken_of from.now) (map code halves.now) at) ≡ None }
    ensures ok { OnOk result (draft.new ≡ after_step draft.old (ops.raise_copy draft.old.model (taken_of from.now) (map code halves.now) at)) }
    ensures err { OnErr result (draft.new ≡ draft.old) }
    ensures further { IsFurther draft.old draft.new }
{
    let count = halves.len() as u32;
    let back = HalfEdge::minus(from.edges + at + 1);
    let before = halves[place_before(count, at) as usize].mate();
    let riser = HalfEdge::plus(from.edges + count + at + 1);
    let point = start(draft.arena(), halves[at as usize]);
    draft.step_accepted(Op::Mev(
        back.corner(),
        before.corner(),
        riser,
        from.vertices + at + 1,
        point,
    ))
}

/// Raises a copy of each vertex of a cycle whose strips are cut off, with the numbers after those that the strips took. On
/// `AllocError` some may be raised.
#[tactic(auto, using(undo_journal::proofs::Marks::further_none))]
pub(crate) fn raise_copies(
    draft: &mut Draft,
    s: u32,
    from: &Counters,
    halves: &[HalfEdge],
) -> Result<(), AllocError>
    requires { AreStripped draft.old.model s (taken_of from.now) (map code halves.now) }
    ensures steps { OnOk result (draft.new ≡ after_steps draft.old (ops.copy_ops draft.old.model (taken_of from.now) (map code halves.now) (length halves.now))) }
    ensures further { IsFurther draft.old draft.new }
{
    let count = halves.len() as u32;
    let mut i = 0;
    'copies: while i < count {
        raise_copy(draft, from, halves, i)?;
        i += 1;
    }
    Ok(())
}
