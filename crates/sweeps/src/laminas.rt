//! The lamina: a flat ring of corners with a face on either side.
ghost use Rattle.std.specs.Prelude.{◌≡◌, ◌≤◌, ◌<◌, ◌↔◌, length, get_or, [], None, Some, Err, OnOk, OnErr};
ghost use Rattle.std.specs.List.{list_any};
ghost use Rattle.euler_operators.specs.Common.{same_point, no_point, verdict, Sound};
ghost use Rattle.euler_conditions.specs.Ready.{IsReady};
ghost use Rattle.euler_operators.specs.declared.Refusal.{Refusal};
ghost use Rattle.shapes.specs.Common.{taken_in, lamina_model};
ghost use Rattle.shapes.specs.Lamina as spec;
ghost use Rattle.solid_walks.specs.Counters.{AreWithin, taken_of};
ghost use Rattle.undo_journal.specs.Journal.{after_steps, record_of, recorded, IsRecorded, IsFurther};
ghost use Rattle.undo_journal.specs.Machine.{held};
ghost use Rattle.sweeps.specs.Machine.{lamina, lamina_refusal};
ghost use Rattle.sweeps_laws.specs.lamina.Path.{lamina_operators};

use arrayvec::ArrayVec;
use euler_conditions::Arena;
use euler_operators::{
    Corner, HalfEdge, Kind, Op, Point, Refusal, Why, is_number, point_in_range, refused,
};
use solid_walks::{Counters, check_left, counters_of};
use std::alloc::{AllocError, Global};
use undo_journal::{Draft, Failure, Session};

/// The place, from 1, of the first point out of range, if there is one.
fn first_far(points: &[Point]) -> Option<u32>
    requires { length points.now ≤ 64 }
    ensures { result ≡ spec.first_far 0 points.now }
{
    let mut place = 0;
    let mut rest = points;
    'points: while let [point, others @ ..] = rest {
        place += 1;
        if !point_in_range(*point) {
            return Some(place);
        }
        rest = others;
    }
    None
}

/// Whether the point is one of some points.
fn is_among(point: Point, points: &[Point]) -> bool
    ensures { result ≡ list_any (same_point point) points.now }
{
    let mut rest = points;
    'others: while let [other, others @ ..] = rest {
        if point == *other {
            return true;
        }
        rest = others;
    }
    false
}

/// The place, from 1, of the first point equal to an earlier one, if there is one. It compares each point with those before it.
fn first_repeated(points: &[Point]) -> Option<u32>
    requires { length points.now ≤ 64 }
    ensures { result ≡ spec.first_repeated [] 0 points.now }
{
    let mut place = 0;
    'points: while place < points.len() {
        if is_among(points[place], &points[..place]) {
            return Some(place as u32 + 1);
        }
        place += 1;
    }
    None
}

/// Whether a lamina of these points can be made as the new solid.
///
/// Refused, in this order: NumberRange; SolidTaken; FewPoints with how many there are; PointRange and RepeatedPoint with the
/// place, from 1, of the first such point; NumbersSpent with 2 for faces, 3 for loops, 4 for edges, 5 for vertices.
#[tactic(auto, unfolding(shapes::specs::Lamina::lamina_conditions))]
fn check_lamina(
    arena: &Arena,
    taken: Counters,
    solid: u32,
    points: &ArrayVec<Point, 64>,
) -> Result<(), Refusal>
    requires ready { IsReady arena.now }
    requires taken { taken_of taken ≡ taken_in arena.now.model }
    ensures { result ≡ verdict (spec.lamina_refusal arena.now.model solid points.now.items) }
{
    if !is_number(solid) {
        return refused(Why::NumberRange, solid);
    }
    if arena.has(Kind::Solid, solid) {
        return refused(Why::SolidTaken, solid);
    }
    let count = points.len();
    if count < 3 {
        return refused(Why::FewPoints, count as u32);
    }
    if let Some(place) = first_far(points.as_slice()) {
        return refused(Why::PointRange, place);
    }
    if let Some(place) = first_repeated(points.as_slice()) {
        return refused(Why::RepeatedPoint, place);
    }
    check_left(taken, 2, 2, count, count)
}

/// The point of this index, of some points.
fn point_at(points: &[Point], index: usize) -> Point
    requires { index < length points.now }
    ensures { result ≡ get_or points.now index no_point }
{
    points[index]
}

/// Draws a lamina whose conditions hold: its operators, one after the other. If memory is refused, the draft holds what was drawn so far.
#[tactic(auto, using(undo_journal::proofs::Marks::further_on))]
pub(crate) fn draw_lamina(
    draft: &mut Draft,
    taken: &Counters,
    solid: u32,
    points: &[Point],
) -> Result<(), AllocError>
    requires taken { taken_of taken.now ≡ taken_in draft.old.model }
    requires within { AreWithin taken.now }
    requires few { length points.now ≤ 64 }
    requires accepted { spec.lamina_refusal draft.old.model solid points.now ≡ None }
    ensures ok { OnOk result (draft.new.model ≡ lamina_model draft.old.model solid points.now) }
    ensures steps { OnOk result (draft.new ≡ after_steps draft.old (lamina_operators draft.old.model solid points.now)) }
    ensures further { IsFurther draft.old draft.new }
{
    draft.stays_consistent();
    let first = point_at(points, 0);
    draft.step_accepted(Op::Mvfs(
        solid,
        taken.faces + 1,
        taken.loops + 1,
        taken.vertices + 1,
        first,
    ))?;
    let mut end = Corner::Lone(taken.loops + 1);
    'further: for i in 1..points.len() {
        let edge = taken.edges + i as u32;
        let vertex = taken.vertices + 1 + i as u32;
        let next = point_at(points, i);
        draft.step_accepted(Op::Mev(
            end.packed(),
            end.packed(),
            HalfEdge::plus(edge),
            vertex,
            next,
        ))?;
        end = Corner::At(HalfEdge::minus(edge));
    }
    let last = taken.edges + points.len() as u32;
    let turn = HalfEdge::minus(last - 1);
    let start = HalfEdge::plus(taken.edges + 1);
    draft.step_accepted(Op::Mef(
        turn,
        start,
        HalfEdge::plus(last),
        taken.faces + 2,
        taken.loops + 2,
    ))
}

/// A lamina as steps of a draft, as `lamina` makes it, in the draft's model. On any failure the draft is as it was, and goes on.
#[tactic(auto, using(undo_journal::proofs::Marks::further_none, undo_journal::proofs::Marks::further_back, undo_journal::proofs::Marks::back_at_mark))]
pub fn lamina_in(draft: &mut Draft, solid: u32, points: &ArrayVec<Point, 64>) -> Result<(), Failure>
    ensures ok { OnOk result ((spec.lamina_refusal draft.old.model solid points.now.items ≡ None) × (draft.new.model ≡ lamina_model draft.old.model solid points.now.items)) }
    ensures steps { OnOk result (draft.new ≡ after_steps draft.old (lamina_operators draft.old.model solid points.now.items)) }
    ensures refused { (refusal : Refusal) → ((result ≡ Err (Failure.Refused refusal)) ↔ (spec.lamina_refusal draft.old.model solid points.now.items ≡ Some refusal)) }
    ensures further { IsFurther draft.old draft.new }
    ensures err { OnErr result (draft.new ≡ draft.old) }
{
    let arena = draft.arena();
    let taken = counters_of(arena);
    if let Err(refusal) = check_lamina(arena, taken, solid, points) {
        return Err(Failure::Refused(refusal));
    }
    let mark = draft.mark();
    match draw_lamina(draft, &taken, solid, points.as_slice()) {
        Ok(()) => Ok(()),
        Err(error) => {
            draft.back_to(mark);
            Err(Failure::Memory(error))
        }
    }
}

/// A lamina as one command: the new solid with a ring of new edges through the points, which are at least 3 and all different, and a face
/// on either side. Face f, the first fresh number, has the ring from the first point on; face f + 1 has it in the opposite direction.
///
/// Refused, in this order: NumberRange; SolidTaken; FewPoints with how many there are; PointRange and RepeatedPoint with the place, from 1,
/// of the first such point; NumbersSpent with 2 for faces, 3 for loops, 4 for edges, 5 for vertices. If memory is refused, the answer is
/// `Memory`. On any failure the session is as it was. An accepted lamina leaves one record. The models held before and after are sound.
pub fn lamina(
    alloc: Global,
    session: Session,
    solid: u32,
    points: &ArrayVec<Point, 64>,
) -> (Session, Result<(), Failure>)
    ensures sound { Sound (held session.machine) }
    ensures stays_sound { Sound (held result.0.machine) }
    ensures ok { OnOk result.1 ((lamina_refusal session.machine solid points.now.items ≡ None) × (result.0.machine ≡ lamina session.machine solid points.now.items)) }
    ensures recorded { OnOk result.1 (IsRecorded session result.0) }
    ensures record { OnOk result.1 (result.0.records ≡ recorded session (record_of (held session.machine) (lamina_operators (held session.machine) solid points.now.items))) }
    ensures refused { (refusal : Refusal) → ((result.1 ≡ Err (Failure.Refused refusal)) ↔ (lamina_refusal session.machine solid points.now.items ≡ Some refusal)) }
    ensures err { OnErr result.1 (result.0 ≡ session) }
{
    let arena = session.arena();
    let taken = counters_of(arena);
    if let Err(refusal) = check_lamina(arena, taken, solid, points) {
        return (session, Err(Failure::Refused(refusal)));
    }
    let mut draft = match Draft::open(session) {
        Ok(draft) => draft,
        Err((session, error)) => return (session, Err(Failure::Memory(error))),
    };
    match draw_lamina(&mut draft, &taken, solid, points.as_slice()) {
        Ok(()) => (draft.commit(), Ok(())),
        Err(error) => (draft.abandon(), Err(Failure::Memory(error))),
    }
}
