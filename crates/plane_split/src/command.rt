//! The split of a solid by a plane, as one command.
ghost use Rattle.std.specs.Prelude.{◌≡◌, None, Some, Err, IfOk, IfSome, OnOk, OnErr};
ghost use Rattle.std.specs.declared.alloc.AllocError.{AllocError};
ghost use Rattle.euler_operators.specs.declared.Refusal.{Refusal};
ghost use Rattle.euler_conditions.specs.Ready.{IsReady};
ghost use Rattle.euler_operators.specs.Common.{Sound};
ghost use Rattle.undo_journal.specs.Machine.{held};
ghost use Rattle.undo_journal.specs.Journal.{after_steps, record_of, recorded, IsRecorded, IsFurther};
ghost use Rattle.shapes.specs.split.Split as spec;
ghost use Rattle.shapes.specs.Common.{split_model};
ghost use Rattle.plane_split.specs.Machine.{plane_with, split, split_refusal};
ghost use Rattle.split_checks.specs.begin_checks.Conditions.{early_refusal, HasFlatFaces};
ghost use Rattle.split_drawing.specs.Cuts.{AreCuts};
ghost use Rattle.split_drawing.specs.Noted.{AreSides};
ghost use Rattle.split_laws.specs.SplitOps.{split_ops};
ghost use Rattle.split_drawing_laws.specs.crossings.Laws.{CanBegin};

use crate::steps::try_split;
use euler_conditions::Arena;
use euler_operators::Plane;
use split_drawing::{Cuts, Sides, check_begin, none_noted};
use std::alloc::Global;
use undo_journal::{Draft, Failure, Session};

/// The plane with these coefficients.
fn plane_of(a: i64, b: i64, c: i64, d: i64) -> Plane
    ensures { result ≡ plane_with a b c d }
{
    Plane {
        a: i128::from(a),
        b: i128::from(b),
        c: i128::from(c),
        d: i128::from(d),
    }
}

/// What the plane cuts of solid s, if the split of s can begin, with `upper` as the number of its upper part; otherwise the refusal.
fn admit(
    alloc: Global,
    arena: &Arena,
    s: u32,
    plane: &Plane,
    upper: u32,
    flat: Option<u32>,
    sides: &mut Sides,
) -> Result<Cuts, Failure>
    requires ready { IsReady arena.now }
    requires flat { IfSome flat (HasFlatFaces arena.now.model) }
    requires sides { AreSides arena.now.model plane.now sides.old }
    ensures ok { OnOk result (CanBegin arena.now.model s plane.now upper) }
    ensures cuts { IfOk result (λ cuts. AreCuts arena.now.model plane.now s cuts) }
    ensures sides { AreSides arena.now.model plane.now sides.new }
    ensures refused { (refusal : Refusal) → (result ≡ Err (Failure.Refused refusal)) → (spec.split_refusal arena.now.model s plane.now upper ≡ Some refusal) }
    ensures memory { (error : AllocError) → (result ≡ Err (Failure.Memory error)) → (early_refusal arena.now.model s plane.now upper ≡ None) }
{
    match check_begin(alloc, arena, s, plane, upper, flat, sides) {
        Ok(Ok(cuts)) => Ok(cuts),
        Ok(Err(refusal)) => Err(Failure::Refused(refusal)),
        Err(error) => Err(Failure::Memory(error)),
    }
}

/// A split as steps of a draft, as `split` makes it, in the draft's model. On any failure the draft is as it was, and goes on.
#[tactic(auto, using(undo_journal::proofs::Marks::further_none, undo_journal::proofs::Marks::further_back))]
pub fn split_in(
    alloc: Global,
    draft: &mut Draft,
    s: u32,
    a: i64,
    b: i64,
    c: i64,
    d: i64,
    upper: u32,
) -> Result<(), Failure>
    ensures ok { OnOk result ((spec.split_refusal draft.old.model s (plane_with a b c d) upper ≡ None) × (draft.new.model ≡ split_model draft.old.model s (plane_with a b c d) upper)) }
    ensures refused { (refusal : Refusal) → (result ≡ Err (Failure.Refused refusal)) → (spec.split_refusal draft.old.model s (plane_with a b c d) upper ≡ Some refusal) }
    ensures memory { (error : AllocError) → (result ≡ Err (Failure.Memory error)) → (early_refusal draft.old.model s (plane_with a b c d) upper ≡ None) }
    ensures steps { OnOk result (draft.new ≡ after_steps draft.old (split_ops draft.old.model s (plane_with a b c d) upper)) }
    ensures further { IsFurther draft.old draft.new }
    ensures err { OnErr result (draft.new ≡ draft.old) }
{
    let plane = plane_of(a, b, c, d);
    let mut sides = none_noted();
    let cuts = match admit(alloc, draft.arena(), s, &plane, upper, None, &mut sides) {
        Ok(cuts) => cuts,
        Err(failure) => return Err(failure),
    };
    try_split(alloc, draft, s, &plane, upper, &cuts, &mut sides)
}

/// A split as one command. Solid s keeps what is below the plane `a x + b y + c z + d = 0`. What is above it, where that sum is positive,
/// becomes solid `upper`. A face that lies wholly on the plane stays in s if its normal points along (a, b, c); otherwise it goes to
/// `upper`. The edges between the two parts, the edges of the section, form cycles. Along these cycles both parts are closed by new faces:
/// s keeps these edges and their vertices, and `upper` gets copies.
///
/// Refused, in this order: NumberRange with s, then `upper`; NoSolid with s; SolidTaken with `upper`; PlaneRange with 1 to 4 for the first
/// of a, b, c and d that is out of range (1,000,000,000 either way, for d 3,000,000,000,000,000,000), or with 0 where a, b and c are zero;
/// LoneLoop with the least lone loop of s; NotFlat with its least face that isn't flat; PlaneMisses with s, where s has no vertex above the
/// plane, or none below it; NotLattice with the least edge that crosses the plane off the lattice; TouchedFace with the least face that
/// straddles the plane and touches it at a corner that is no cut place; CutOften with the least straddling face whose outer loop has no cut
/// place, or that has a ring without one and not exactly two cut places; CutCrossed with the least straddling face that has two cut places
/// at one point, or in which, with the places in the order of their points, some pair isn't one up and one down; NumbersSpent with 2, 3, 4
/// or 5, where no numbers are left for the faces, loops, edges or vertices that it takes to cut the edges and the faces. Once these are
/// cut, it may still be refused, in this order: CutCrossed with the first face between whose cut places edges can't be drawn;
/// BranchedVertex with the least vertex at which more than two edges of the section meet; SectionHoles with s, where one of its cycles is a
/// hole and not exactly one is outer; NumbersSpent with 2, 3, 4 or 5, where no numbers are left for closing the two parts. The tests from
/// PlaneMisses on take memory, and so do the steps. If memory is refused, the answer is `Memory`, even in place of a refusal from
/// PlaneMisses on. On any failure the session is as it was. An accepted split leaves one record. `splits_are_held` says what holds after Ok
/// of volumes and sides.
///
/// The operators are those of M. Mäntylä, *An Introduction to Solid Modeling* (1988). There is one for each edge that crosses the plane,
/// one for each pair of cut places of a face, and one for each ring that goes with a new face. For each cycle of n edges there are 3 n + 1,
/// which cut strips off the faces above, raise copies of the vertices and make two caps of the strips. There are two for each hole, whose
/// caps become rings. The last one parts the solid. The cost is that of the tests, of sorting the edges and the cut places, and of each
/// operator.
pub fn split(
    alloc: Global,
    session: Session,
    s: u32,
    a: i64,
    b: i64,
    c: i64,
    d: i64,
    upper: u32,
) -> (Session, Result<(), Failure>)
    ensures sound { Sound (held session.machine) }
    ensures ok { OnOk result.1 ((split_refusal session.machine s (plane_with a b c d) upper ≡ None) × (result.0.machine ≡ split session.machine s (plane_with a b c d) upper)) }
    ensures recorded { OnOk result.1 (IsRecorded session result.0) }
    ensures record { let M = held session.machine in OnOk result.1 (result.0.records ≡ recorded session (record_of M (split_ops M s (plane_with a b c d) upper))) }
    ensures refused { (refusal : Refusal) → (result.1 ≡ Err (Failure.Refused refusal)) → (split_refusal session.machine s (plane_with a b c d) upper ≡ Some refusal) }
    ensures memory { (error : AllocError) → (result.1 ≡ Err (Failure.Memory error)) → (early_refusal (held session.machine) s (plane_with a b c d) upper ≡ None) }
    ensures err { OnErr result.1 (result.0 ≡ session) }
{
    split_with_flat(alloc, session, s, a, b, c, d, upper, None)
}

/// A split as `split` makes it. If a solid is given that is known to have no lone loop and only flat faces, its faces aren't looked at for that.
pub fn split_with_flat(
    alloc: Global,
    session: Session,
    s: u32,
    a: i64,
    b: i64,
    c: i64,
    d: i64,
    upper: u32,
    flat: Option<u32>,
) -> (Session, Result<(), Failure>)
    requires flat { IfSome flat (HasFlatFaces (held session.machine)) }
    ensures sound { Sound (held session.machine) }
    ensures ok { OnOk result.1 ((split_refusal session.machine s (plane_with a b c d) upper ≡ None) × (result.0.machine ≡ split session.machine s (plane_with a b c d) upper)) }
    ensures recorded { OnOk result.1 (IsRecorded session result.0) }
    ensures record { OnOk result.1 (result.0.records ≡ recorded session (record_of (held session.machine) (split_ops (held session.machine) s (plane_with a b c d) upper))) }
    ensures refused { (refusal : Refusal) → (result.1 ≡ Err (Failure.Refused refusal)) → (split_refusal session.machine s (plane_with a b c d) upper ≡ Some refusal) }
    ensures memory { (error : AllocError) → (result.1 ≡ Err (Failure.Memory error)) → (early_refusal (held session.machine) s (plane_with a b c d) upper ≡ None) }
    ensures err { OnErr result.1 (result.0 ≡ session) }
{
    let plane = plane_of(a, b, c, d);
    let mut sides = none_noted();
    let cuts = match admit(alloc, session.arena(), s, &plane, upper, flat, &mut sides) {
        Ok(cuts) => cuts,
        Err(failure) => return (session, Err(failure)),
    };
    let mut draft = match Draft::open(session) {
        Ok(draft) => draft,
        Err((session, error)) => return (session, Err(Failure::Memory(error))),
    };
    match try_split(alloc, &mut draft, s, &plane, upper, &cuts, &mut sides) {
        Ok(()) => (draft.commit(), Ok(())),
        Err(failure) => (draft.abandon(), Err(failure)),
    }
}
