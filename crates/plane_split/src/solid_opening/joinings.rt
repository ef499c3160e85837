//! Strips that are joined into one, which is then parted into the two caps.
ghost use Rattle.std.specs.Prelude.{◌≡◌, ◌≤◌, ◌+◌, ◌-◌, ◌*◌, OnOk};
ghost use Rattle.euler_laws.specs.Laws.{AreAccepted};
ghost use Rattle.split_drawing.specs.Counters.{taken_of};
ghost use Rattle.split_opening_laws.specs.caps.CapOps.{cap_ops, joinings};
ghost use Rattle.undo_journal.specs.Journal.{after_steps, IsFurther};

use euler_operators::{HalfEdge, Op};
use split_drawing::Counters;
use std::alloc::AllocError;
use undo_journal::Draft;

/// The first of so many strips takes in the next ones, if each of these operators is accepted in its turn. On `AllocError` it may have
/// taken in some.
fn join_strips(draft: &mut Draft, from: &Counters, count: u32) -> Result<(), AllocError>
    requires some { 1 ≤ count }
    requires edges_left { from.now.edges + 2 * count ≤ 1000000 }
    requires accepted { AreAccepted draft.old.model (joinings (taken_of from.now) count (count - 1)) }
    ensures steps { OnOk result (draft.new ≡ after_steps draft.old (joinings (taken_of from.now) count (count - 1))) }
    ensures further { IsFurther draft.old draft.new }
{
    let last = from.edges + 2 * count;
    let mut riser = from.edges + count + 1;
    'risers: while riser < last {
        riser += 1;
        draft.step_accepted(Op::Kef(HalfEdge::minus(riser)))?;
    }
    Ok(())
}

/// Makes two caps of so many strips, if each of these operators is accepted in its turn. On `AllocError` the draft may have taken some
/// steps.
#[tactic(auto, using(undo_journal::proofs::Marks::further_on))]
pub(crate) fn make_caps(draft: &mut Draft, from: &Counters, count: u32) -> Result<(), AllocError>
    requires some { 1 ≤ count }
    requires faces_left { from.now.faces + count + 1 ≤ 1000000 }
    requires loops_left { from.now.loops + count + 1 ≤ 1000000 }
    requires edges_left { from.now.edges + 2 * count ≤ 1000000 }
    requires accepted { AreAccepted draft.old.model (cap_ops (taken_of from.now) count) }
    ensures steps { OnOk result (draft.new ≡ after_steps draft.old (cap_ops (taken_of from.now) count)) }
    ensures further { IsFurther draft.old draft.new }
{
    join_strips(draft, from, count)?;
    let ring = from.loops + count + 1;
    draft.step_accepted(Op::Kemr(HalfEdge::plus(from.edges + count + 1), ring))?;
    draft.step_accepted(Op::Mfkrh(ring, from.faces + count + 1))
}
