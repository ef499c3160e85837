//! The sweep of a face, as one command.
ghost use Rattle.std.specs.Prelude.{◌≡◌, ◌↔◌, None, Some, Err, OnOk, OnErr};
ghost use Rattle.euler_operators.specs.Common.{origin, same_point, verdict, Sound};
ghost use Rattle.euler_operators.specs.declared.Refusal.{Refusal};
ghost use Rattle.euler_conditions.specs.Ready.{IsReady};
ghost use Rattle.shapes.specs.Common.{taken_in, prism_refusal, prism_model};
ghost use Rattle.solid_walks.specs.Counters.{taken_of};
ghost use Rattle.undo_journal.specs.Journal.{after_steps, record_of, recorded, IsRecorded, IsFurther};
ghost use Rattle.undo_journal.specs.Machine.{held};
ghost use Rattle.sweeps.specs.Machine.{sweep, sweep_refusal};
ghost use Rattle.sweeps_laws.specs.prism.SweepOps.{sweep_ops};

use crate::corners::face_tally;
use crate::raising::raise;
use euler_conditions::Arena;
use euler_operators::{Kind, Point, Refusal, Why, is_number, refused};
use solid_walks::{Counters, check_left, counters_of, least_lone_of_face};
use std::alloc::{AllocError, Global};
use undo_journal::{Draft, Failure, Session};

/// Whether a vector is zero.
fn is_zero(shift: Point) -> bool
    ensures { result ≡ same_point shift origin }
{
    shift.x == 0 && (shift.y == 0 && shift.z == 0)
}

/// Whether face f can be swept by the shift.
///
/// Refused, in this order: NumberRange; NoFace; ZeroSweep with the face; LoneLoop with the least lone loop of the face; PointRange
/// with the vertex of the first corner whose moved point is out of range; NumbersSpent with 2 for faces, 3 for loops, 4 for edges,
/// 5 for vertices.
#[tactic(auto, unfolding(shapes::specs::Prism::prism_conditions, crate::specs::Corners::tally))]
fn check_sweep(arena: &Arena, taken: Counters, f: u32, shift: Point) -> Result<(), Refusal>
    requires ready { IsReady arena.now }
    requires taken { taken_of taken ≡ taken_in arena.now.model }
    ensures { result ≡ verdict (prism_refusal arena.now.model f shift) }
{
    if !is_number(f) {
        return refused(Why::NumberRange, f);
    }
    if !arena.has(Kind::Face, f) {
        return refused(Why::NoFace, f);
    }
    if is_zero(shift) {
        return refused(Why::ZeroSweep, f);
    }
    if let Some(l) = least_lone_of_face(arena, f) {
        return refused(Why::LoneLoop, l);
    }
    let tally = face_tally(arena, shift, f);
    if let Some(v) = tally.far {
        return refused(Why::PointRange, v);
    }
    let count = tally.count as usize;
    check_left(taken, count, count, 2 * count, count)
}

/// A sweep as steps of a draft, as `sweep` makes it, in the draft's model. On any failure the draft is as it was, and goes on.
#[tactic(auto, using(undo_journal::proofs::Marks::further_none, undo_journal::proofs::Marks::further_back))]
pub fn sweep_in(alloc: Global, draft: &mut Draft, f: u32, shift: Point) -> Result<(), Failure>
    ensures ok { OnOk result ((prism_refusal draft.old.model f shift ≡ None) × (draft.new.model ≡ prism_model draft.old.model f shift)) }
    ensures refused { (refusal : Refusal) → ((result ≡ Err (Failure.Refused refusal)) ↔ (prism_refusal draft.old.model f shift ≡ Some refusal)) }
    ensures steps { OnOk result (draft.new ≡ after_steps draft.old (sweep_ops draft.old.model f shift)) }
    ensures further { IsFurther draft.old draft.new }
    ensures err { OnErr result (draft.new ≡ draft.old) }
{
    let arena = draft.arena();
    let taken = counters_of(arena);
    if let Err(refusal) = check_sweep(arena, taken, f, shift) {
        return Err(Failure::Refused(refusal));
    }
    let mark = draft.mark();
    match raise(alloc, draft, &taken, f, shift) {
        Ok(()) => Ok(()),
        Err(error) => {
            draft.back_to(mark);
            Err(Failure::Memory(error))
        }
    }
}

/// A sweep as one command: face f moves by the shift. At each corner of its loops a new edge rises to a new vertex, and each edge of its
/// loops gets a side face. Face f keeps its number and is the far face, with the new edges between the new vertices.
///
/// Refused, in this order: NumberRange; NoFace; ZeroSweep with the face; LoneLoop with the least lone loop of the face; PointRange with the
/// vertex of the first corner whose moved point is out of range, where the outer loop comes first and then the rings in rising order;
/// NumbersSpent with 2 for faces, 3 for loops, 4 for edges, 5 for vertices. If memory is refused, the answer is `Memory`. On any failure
/// the session is as it was. An accepted sweep leaves one record. The models held before and after are sound.
pub fn sweep(
    alloc: Global,
    session: Session,
    f: u32,
    shift: Point,
) -> (Session, Result<(), Failure>)
    ensures sound { Sound (held session.machine) }
    ensures stays_sound { Sound (held result.0.machine) }
    ensures ok { OnOk result.1 ((sweep_refusal session.machine f shift ≡ None) × (result.0.machine ≡ sweep session.machine f shift)) }
    ensures recorded { OnOk result.1 (IsRecorded session result.0) }
    ensures record { OnOk result.1 (result.0.records ≡ recorded session (record_of (held session.machine) (sweep_ops (held session.machine) f shift))) }
    ensures refused { (refusal : Refusal) → ((result.1 ≡ Err (Failure.Refused refusal)) ↔ (sweep_refusal session.machine f shift ≡ Some refusal)) }
    ensures err { OnErr result.1 (result.0 ≡ session) }
{
    let arena = session.arena();
    let taken = counters_of(arena);
    if let Err(refusal) = check_sweep(arena, taken, f, shift) {
        return (session, Err(Failure::Refused(refusal)));
    }
    let mut draft = match Draft::open(session) {
        Ok(draft) => draft,
        Err((session, error)) => return (session, Err(Failure::Memory(error))),
    };
    match raise(alloc, &mut draft, &taken, f, shift) {
        Ok(()) => (draft.commit(), Ok(())),
        Err(error) => (draft.abandon(), Err(Failure::Memory(error))),
    }
}
