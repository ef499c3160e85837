//! Edges that are cut one after the other in a draft.
ghost use Rattle.std.specs.Prelude.{◌≡◌, ◌≤◌, ◌+◌, None, IfOk, OnOk, OnErr, map};
ghost use Rattle.euler_operators.specs.Common.{first_false, Has, Sound};
ghost use Rattle.shapes.specs.Common.{taken_in, with_crossings, crossing_edges};
ghost use Rattle.undo_journal.specs.Journal.{after_step, after_steps, IsFurther};
ghost use Rattle.solid_walks.specs.Counters.{taken_of};
ghost use Rattle.split_checks.specs.Cuts.{cut_at};
ghost use Rattle.split_drawing_laws.specs.crossings.CrossingOps.{crossing_ops};
ghost use Rattle.split_drawing.specs.edge_cutting.Begins.{CanBeCut, cut_op};

use euler_conditions::next;
use euler_operators::{HalfEdge, Op, Plane};
use solid_walks::{Counters, counters_of};
use split_checks::CutEdge;
use std::alloc::AllocError;
use undo_journal::Draft;

/// Cuts an edge at a point: the next edge leads to the next vertex, which stands there, between the edge's first half-edge and what follows
/// its second half-edge. It counts the new edge and the new vertex.
fn cut_edge(draft: &mut Draft, taken: Counters, cut: CutEdge) -> Result<Counters, AllocError>
    requires there { Has draft.old.model.edges cut.edge }
    requires taken { taken_of taken ≡ taken_in draft.old.model }
    requires edge_left { (taken_in draft.old.model).edge + 1 ≤ 1000000 }
    requires vertex_left { (taken_in draft.old.model).vertex + 1 ≤ 1000000 }
    requires accepted { first_false draft.old.model (cut_op draft.old.model cut) ≡ None }
    ensures counted { IfOk result (λ next. next ≡ record taken { edges = taken.edges + 1; vertices = taken.vertices + 1 }) }
    ensures ok { OnOk result (draft.new ≡ after_step draft.old (cut_op draft.old.model cut)) }
    ensures err { OnErr result (draft.new ≡ draft.old) }
    ensures further { IsFurther draft.old draft.new }
{
    let edges = taken.edges + 1;
    let vertices = taken.vertices + 1;
    let first = HalfEdge::plus(cut.edge);
    let next = next(draft.arena(), HalfEdge::minus(cut.edge));
    let made = HalfEdge::plus(edges);
    draft.step_accepted(Op::Mev(first.corner(), next.corner(), made, vertices, cut.point))?;
    Ok(Counters {
        edges,
        vertices,
        ..taken
    })
}

/// Cuts the edges of solid s that cross the plane where they meet it, from the least edge to the greatest. This is the first rewriting of a
/// split of the draft's model, and it is asked that such a split can begin. The new edges and vertices have the numbers after the greatest
/// in use. It answers the greatest numbers that are then in use.
///
/// On `AllocError` some edges may be cut. The session from which the draft came is kept, and `abandon` gives it back.
pub(crate) fn cut_edges(
    draft: &mut Draft,
    s: u32,
    plane: &Plane,
    edges: &[CutEdge],
) -> Result<Counters, AllocError>
    requires sound { Sound draft.old.model }
    requires begins { CanBeCut draft.old.model s plane.now }
    requires edges { edges.now ≡ map (cut_at draft.old.model plane.now) (crossing_edges draft.old.model plane.now s) }
    ensures model { OnOk result (draft.new.model ≡ (with_crossings draft.old.model s plane.now).model) }
    ensures steps { OnOk result (draft.new ≡ after_steps draft.old (crossing_ops draft.old.model s plane.now)) }
    ensures counted { IfOk result (λ taken. taken_of taken ≡ taken_in draft.new.model) }
    ensures further { IsFurther draft.old draft.new }
{
    let mut taken = counters_of(draft.arena());
    let mut rest = edges;
    'edges: while let [edge, others @ ..] = rest {
        taken = cut_edge(draft, taken, *edge)?;
        rest = others;
    }
    Ok(taken)
}
