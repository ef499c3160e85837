//! The glue of two faces, as one command.
ghost use Rattle.std.specs.Prelude.{◌≡◌, None, Some, Err, IfSome, OnOk, OnErr};
ghost use Rattle.std.specs.declared.alloc.AllocError.{AllocError};
ghost use Rattle.euler_operators.specs.declared.Refusal.{Refusal};
ghost use Rattle.euler_conditions.specs.Ready.{IsReady};
ghost use Rattle.euler_operators.specs.Common.{Sound};
ghost use Rattle.shapes.specs.glue.Glue as spec;
ghost use Rattle.shapes.specs.Common.{glue_model, glue_ops};
ghost use Rattle.undo_journal.specs.Journal.{after_steps, record_of, recorded, IsRecorded, IsFurther};
ghost use Rattle.undo_journal.specs.Machine.{held};
ghost use Rattle.gluing.specs.Flat.{IsClosedFlat};
ghost use Rattle.gluing.specs.glue_checks.Conditions.{early_refusal};
ghost use Rattle.gluing.specs.Machine.{glue, glue_refusal};

use crate::glue_checks::check_glue;
use crate::joining::try_join;
use euler_conditions::Arena;
use std::alloc::Global;
use undo_journal::{Draft, Failure, Session};

/// Whether the other face can be glued to face f, and if not, why.
fn admit(alloc: Global, arena: &Arena, f: u32, other: u32, flat: Option<u32>) -> Result<(), Failure>
    requires ready { IsReady arena.now }
    requires flat { IfSome flat (IsClosedFlat arena.now.model) }
    ensures ok { OnOk result (spec.glue_refusal arena.now.model f other ≡ None) }
    ensures refused { (refusal : Refusal) → (result ≡ Err (Failure.Refused refusal)) → (spec.glue_refusal arena.now.model f other ≡ Some refusal) }
    ensures memory { (error : AllocError) → (result ≡ Err (Failure.Memory error)) → (early_refusal arena.now.model f other ≡ None) }
{
    match check_glue(alloc, arena, f, other, flat) {
        Ok(Ok(())) => Ok(()),
        Ok(Err(refusal)) => Err(Failure::Refused(refusal)),
        Err(error) => Err(Failure::Memory(error)),
    }
}

/// A glue as steps of a draft, as `glue` makes it, in the draft's model. On any failure the draft is as it was, and goes on.
#[tactic(auto, using(undo_journal::proofs::Marks::further_none, undo_journal::proofs::Marks::further_back))]
pub fn glue_in(alloc: Global, draft: &mut Draft, f: u32, other: u32) -> Result<(), Failure>
    ensures ok { OnOk result ((spec.glue_refusal draft.old.model f other ≡ None) × (draft.new.model ≡ glue_model draft.old.model f other)) }
    ensures refused { (refusal : Refusal) → (result ≡ Err (Failure.Refused refusal)) → (spec.glue_refusal draft.old.model f other ≡ Some refusal) }
    ensures memory { (error : AllocError) → (result ≡ Err (Failure.Memory error)) → (early_refusal draft.old.model f other ≡ None) }
    ensures steps { OnOk result (draft.new ≡ after_steps draft.old (glue_ops draft.old.model f other)) }
    ensures further { IsFurther draft.old draft.new }
    ensures err { OnErr result (draft.new ≡ draft.old) }
{
    if let Err(failure) = admit(alloc, draft.arena(), f, other, None) {
        return Err(failure);
    }
    match try_join(draft, f, other) {
        Ok(()) => Ok(()),
        Err(error) => Err(Failure::Memory(error)),
    }
}

/// A glue as one command: the solid of the other face becomes part of the solid of face f. Both faces go, with the edges and vertices of
/// the other face. The faces around it then have the edges of f, and what started at a vertex of it starts at the vertex of f with the same
/// point.
///
/// Refused, in this order: NumberRange; NoFace with f, then the other; SameSolid with the solid; HasRings with f, then the other; LoneLoop
/// with the least lone loop of the two solids; NotFlat with their least face that isn't flat; RepeatedPoint with the face, f before the
/// other, that has two corners with equal points; NoMatch with the other, where its points, read backwards, are no rotation of those of f;
/// NumbersSpent with 4, where no number is left for an edge. The tests from RepeatedPoint on take memory, and so do the steps. If memory is
/// refused, the answer is `Memory`, even in place of a refusal from RepeatedPoint on. On any failure the session is as it was. An accepted
/// glue leaves one record. The models held before and after are sound.
///
/// The operators are those of M. Mäntylä, *An Introduction to Solid Modeling* (1988). The solids are merged. The outer loop of the other
/// face becomes a ring of f, and then one loop with that of f. Then each item of f is closed with the item of the other face that goes back
/// along it. For n items there are 3 n + 2 operators. The cost is that of the tests and of the merge, and for each item that of its three
/// operators.
pub fn glue(alloc: Global, session: Session, f: u32, other: u32) -> (Session, Result<(), Failure>)
    ensures sound { Sound (held session.machine) }
    ensures stays_sound { Sound (held result.0.machine) }
    ensures ok { OnOk result.1 ((glue_refusal session.machine f other ≡ None) × (result.0.machine ≡ glue session.machine f other)) }
    ensures recorded { OnOk result.1 (IsRecorded session result.0) }
    ensures record { OnOk result.1 (result.0.records ≡ recorded session (record_of (held session.machine) (glue_ops (held session.machine) f other))) }
    ensures refused { (refusal : Refusal) → (result.1 ≡ Err (Failure.Refused refusal)) → (glue_refusal session.machine f other ≡ Some refusal) }
    ensures memory { (error : AllocError) → (result.1 ≡ Err (Failure.Memory error)) → (early_refusal (held session.machine) f other ≡ None) }
    ensures err { OnErr result.1 (result.0 ≡ session) }
{
    glue_with_flat(alloc, session, f, other, None)
}

/// A glue as `glue` makes it. If a solid is given that is known to be closed and flat, none of its faces is looked at for lone loops and bent
/// faces.
pub fn glue_with_flat(
    alloc: Global,
    session: Session,
    f: u32,
    other: u32,
    flat: Option<u32>,
) -> (Session, Result<(), Failure>)
    requires flat { IfSome flat (IsClosedFlat (held session.machine)) }
    ensures sound { Sound (held session.machine) }
    ensures stays_sound { Sound (held result.0.machine) }
    ensures ok { OnOk result.1 ((glue_refusal session.machine f other ≡ None) × (result.0.machine ≡ glue session.machine f other)) }
    ensures recorded { OnOk result.1 (IsRecorded session result.0) }
    ensures record { OnOk result.1 (result.0.records ≡ recorded session (record_of (held session.machine) (glue_ops (held session.machine) f other))) }
    ensures refused { (refusal : Refusal) → (result.1 ≡ Err (Failure.Refused refusal)) → (glue_refusal session.machine f other ≡ Some refusal) }
    ensures memory { (error : AllocError) → (result.1 ≡ Err (Failure.Memory error)) → (early_refusal (held session.machine) f other ≡ None) }
    ensures err { OnErr result.1 (result.0 ≡ session) }
{
    if let Err(failure) = admit(alloc, session.arena(), f, other, flat) {
        return (session, Err(failure));
    }
    let mut draft = match Draft::open(session) {
        Ok(draft) => draft,
        Err((session, error)) => return (session, Err(Failure::Memory(error))),
    };
    match try_join(&mut draft, f, other) {
        Ok(()) => (draft.commit(), Ok(())),
        Err(error) => (draft.abandon(), Err(Failure::Memory(error))),
    }
}
