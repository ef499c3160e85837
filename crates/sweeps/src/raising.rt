//! The sweep of a face, operator by operator in a draft.
ghost use Rattle.std.specs.Prelude.{◌≡◌, ◌≤◌, ◌<◌, ◌+◌, ◌-◌, ◌*◌, true, false, None, OnOk, OnErr, IfOk, get_or, length, map};
ghost use Rattle.euler_operators.specs.Common.{IsInRange, moved, code, has_half, items_of, content, face_of, first_false, is_lone};
ghost use Rattle.euler_conditions.specs.Ready.{IsReady};
ghost use Rattle.euler_conditions.specs.Store.{has_number};
ghost use Rattle.undo_journal.specs.Journal.{after_step, after_steps, IsFurther};
ghost use Rattle.shapes.specs.Common.{start, prism_refusal, prism_model, taken_in};
ghost use Rattle.shapes.specs.Prism as prism;
ghost use Rattle.sweeps_laws.specs.prism.SweepOps as ops;
ghost use Rattle.sweeps_laws.specs.prism.Ready.{Ready};
ghost use Rattle.solid_walks.specs.Counters.{taken_of};
ghost use Rattle.sweeps.specs.Raising.{CanRise};

use euler_conditions::Arena;
use euler_operators::{HalfEdge, Kind, Op, Point, sum};
use solid_walks::{Counters, items_from, rings_of, some_item};
use std::alloc::{AllocError, Global};
use undo_journal::Draft;

/// The edge that rises at the start of the item with this place in its loop.
fn riser(taken: &Counters, at: u32) -> u32
    requires { taken.now.edges + 2 * at + 1 ≤ 1000000 }
    ensures { result ≡ prism.riser taken.now.edges at }
{
    if at == 0 {
        taken.edges + 1
    } else {
        taken.edges + 2 * at
    }
}

/// The edge over the item with this place in a loop of so many items.
fn top_edge(taken: &Counters, count: u32, at: u32) -> u32
    requires inside { at < count }
    requires left { taken.now.edges + 2 * count ≤ 1000000 }
    ensures { result ≡ prism.top_edge taken.now.edges count at }
{
    if at + 1 == count {
        taken.edges + 2 * count
    } else {
        taken.edges + 2 * at + 3
    }
}

/// The half-edges of loop l, which isn't lone, in the order of listings.
fn loop_items(alloc: Global, arena: &Arena, l: u32) -> Result<Vec<HalfEdge>, AllocError>
    requires there { has_number arena.now Kind.Loop l ≡ true }
    requires ready { IsReady arena.now }
    requires held { is_lone (content arena.now.model l) ≡ false }
    ensures { IfOk result (λ items. map code items.items ≡ items_of (content arena.now.model l)) }
{
    items_from(alloc, arena, some_item(arena, l))
}

/// Raises the item with this place in its loop: a new edge rises from its start to the moved point.
#[inline(always)]
fn raise_item(
    draft: &mut Draft,
    taken: &Counters,
    item: HalfEdge,
    at: u32,
    shift: Point,
) -> Result<(), AllocError>
    requires there { has_half draft.old.model (code item) ≡ true }
    requires edge_left { taken.now.edges + 2 * at + 1 ≤ 1000000 }
    requires vertex_left { taken.now.vertices + 1 + at ≤ 1000000 }
    requires range { IsInRange (moved (start draft.old.model (code item)) shift) }
    requires accepted { first_false draft.old.model (ops.raise_item draft.old.model (taken_of taken.now) shift (code item) at) ≡ None }
    ensures ok { OnOk result (draft.new ≡ after_step draft.old (ops.raise_item draft.old.model (taken_of taken.now) shift (code item) at)) }
    ensures err { OnErr result (draft.new ≡ draft.old) }
    ensures further { IsFurther draft.old draft.new }
{
    let arena = draft.arena();
    let top = sum(arena.point(arena.tail(item)), shift);
    let edge = HalfEdge::plus(riser(taken, at));
    let vertex = taken.vertices + 1 + at;
    draft.step_accepted(Op::Mev(item.corner(), item.corner(), edge, vertex, top))
}

/// Closes the side over the item with this place in its loop, between the edges that rise at its start and at that of the next item.
fn close_side(draft: &mut Draft, taken: &Counters, count: u32, at: u32) -> Result<(), AllocError>
    requires inside { at + 1 < count }
    requires faces_left { taken.now.faces + count ≤ 1000000 }
    requires loops_left { taken.now.loops + count ≤ 1000000 }
    requires edges_left { taken.now.edges + 2 * count ≤ 1000000 }
    requires accepted { first_false draft.old.model (ops.close (taken_of taken.now) count at) ≡ None }
    ensures ok { OnOk result (draft.new ≡ after_step draft.old (ops.close (taken_of taken.now) count at)) }
    ensures err { OnErr result (draft.new ≡ draft.old) }
    ensures further { IsFurther draft.old draft.new }
{
    let from = HalfEdge::minus(riser(taken, at));
    let to = HalfEdge::minus(riser(taken, at + 1));
    let top = HalfEdge::plus(top_edge(taken, count, at));
    draft.step_accepted(Op::Mef(from, to, top, taken.faces + 1 + at, taken.loops + 1 + at))
}

/// Closes the side over the last item of a loop, up to the first top edge.
fn close_last(draft: &mut Draft, taken: &Counters, count: u32) -> Result<(), AllocError>
    requires some { 2 ≤ count }
    requires faces_left { taken.now.faces + count ≤ 1000000 }
    requires loops_left { taken.now.loops + count ≤ 1000000 }
    requires edges_left { taken.now.edges + 2 * count ≤ 1000000 }
    requires accepted { first_false draft.old.model (ops.close_last (taken_of taken.now) count (count - 1)) ≡ None }
    ensures ok { OnOk result (draft.new ≡ after_step draft.old (ops.close_last (taken_of taken.now) count (count - 1))) }
    ensures err { OnErr result (draft.new ≡ draft.old) }
    ensures further { IsFurther draft.old draft.new }
{
    let last = count - 1;
    let from = HalfEdge::minus(riser(taken, last));
    let to = HalfEdge::plus(top_edge(taken, count, 0));
    let top = HalfEdge::plus(top_edge(taken, count, last));
    draft.step_accepted(Op::Mef(
        from,
        to,
        top,
        taken.faces + 1 + last,
        taken.loops + 1 + last,
    ))
}

/// The counters after a loop of so many items is swept.
fn counted_on(taken: &Counters, count: u32) -> Counters
    requires faces_left { taken.now.faces + count ≤ 1000000 }
    requires loops_left { taken.now.loops + count ≤ 1000000 }
    requires edges_left { taken.now.edges + 2 * count ≤ 1000000 }
    requires vertices_left { taken.now.vertices + count ≤ 1000000 }
    ensures { taken_of result ≡ ops.taken_after (taken_of taken.now) count }
{
    Counters {
        faces: taken.faces + count,
        loops: taken.loops + count,
        edges: taken.edges + 2 * count,
        vertices: taken.vertices + count,
    }
}

/// The half-edge with this index among some.
fn item_at(items: &[HalfEdge], index: usize) -> HalfEdge
    requires { index < length items.now }
    ensures { result ≡ get_or items.now index result }
{
    items[index]
}

/// Sweeps the loop that holds these half-edges, which stand in the order of listings. On `AllocError` the draft may have taken some steps.
#[tactic(auto, using(undo_journal::proofs::Marks::further_on))]
pub(crate) fn raise_items(
    draft: &mut Draft,
    taken: &Counters,
    items: &[HalfEdge],
    shift: Point,
) -> Result<(), AllocError>
    requires { CanRise draft.old.model (taken_of taken.now) shift (map code items.now) }
    ensures steps { OnOk result (draft.new ≡ after_steps draft.old (ops.loop_ops draft.old.model (taken_of taken.now) shift (map code items.now))) }
    ensures further { IsFurther draft.old draft.new }
{
    let count = items.len() as u32;
    raise_item(draft, taken, item_at(items, 0), 0, shift)?;
    let mut done = 0;
    'items: while done + 1 < count {
        raise_item(
            draft,
            taken,
            item_at(items, done as usize + 1),
            done + 1,
            shift,
        )?;
        close_side(draft, taken, count, done)?;
        done += 1;
    }
    close_last(draft, taken, count)
}

/// Sweeps loop l and answers the counters after it.
#[tactic(auto, using(crate::proofs::RaisedItems::how_many, undo_journal::proofs::Marks::further_none))]
fn raise_loop(
    alloc: Global,
    draft: &mut Draft,
    taken: &Counters,
    l: u32,
    shift: Point,
) -> Result<Counters, AllocError>
    requires { Ready draft.old.model (taken_of taken.now) (face_of draft.old.model l) l shift (items_of (content draft.old.model l)) }
    ensures counters { IfOk result (λ after. taken_of after ≡ ops.taken_after (taken_of taken.now) (length (items_of (content draft.old.model l)))) }
    ensures steps { OnOk result (draft.new ≡ after_steps draft.old (ops.loop_ops draft.old.model (taken_of taken.now) shift (items_of (content draft.old.model l)))) }
    ensures further { IsFurther draft.old draft.new }
{
    let items = loop_items(alloc, draft.arena(), l)?;
    raise_items(draft, taken, items.as_slice(), shift)?;
    Ok(counted_on(taken, items.len() as u32))
}

/// Sweeps face f of the draft's model by the shift, if that isn't refused. On `AllocError` the draft may have taken some steps.
#[tactic(auto, using(undo_journal::proofs::Marks::further_on))]
pub(crate) fn raise(
    alloc: Global,
    draft: &mut Draft,
    taken: &Counters,
    f: u32,
    shift: Point,
) -> Result<(), AllocError>
    requires taken { taken_of taken.now ≡ taken_in draft.old.model }
    requires accepted { prism_refusal draft.old.model f shift ≡ None }
    ensures model { OnOk result (draft.new.model ≡ prism_model draft.old.model f shift) }
    ensures steps { OnOk result (draft.new ≡ after_steps draft.old (ops.sweep_ops draft.old.model f shift)) }
    ensures further { IsFurther draft.old draft.new }
{
    let arena = draft.arena();
    let outer = arena.outer(f);
    let rings: Vec<u32> = rings_of(arena, f).collect(alloc)?;
    let mut taken = raise_loop(alloc, draft, taken, outer, shift)?;
    let mut rest = rings.as_slice();
    'rings: while let [ring, others @ ..] = rest {
        taken = raise_loop(alloc, draft, &taken, *ring, shift)?;
        rest = others;
    }
    Ok(())
}
