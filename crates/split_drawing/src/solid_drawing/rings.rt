//! The rings of a face above a plane.
ghost use Rattle.std.specs.Prelude.{◌≡◌, true, IfOk, OnOk};
ghost use Rattle.euler_operators.specs.Table as table;
ghost use Rattle.euler_conditions.specs.Ready.{IsReady};
ghost use Rattle.euler_laws.specs.Laws.{AreAccepted};
ghost use Rattle.euler_conditions.specs.Store.{has_number};
ghost use Rattle.euler_operators.specs.Common.{IsCutPlane};
ghost use Rattle.shapes.specs.Common.{rings_above};
ghost use Rattle.split_checks.specs.cut_places.Noted.{AreSides};
ghost use Rattle.split_drawing_laws.specs.drawings.DrawingOps.{ring_ops};
ghost use Rattle.undo_journal.specs.Journal.{after_steps, IsFurther};

use crate::face_drawing::move_rings;
use euler_conditions::Arena;
use euler_operators::{Kind, Plane, Sign};
use split_checks::{Sides, loop_side, same};
use std::alloc::{AllocError, Global};
use undo_journal::Draft;

/// The rings of face f that have a corner above the plane, in rising order.
fn rings_above(
    alloc: Global,
    arena: &Arena,
    plane: Plane,
    sides: &mut Sides,
    f: u32,
) -> Result<Vec<u32>, AllocError>
    requires ready { IsReady arena.now }
    requires there { has_number arena.now Kind.Face f ≡ true }
    requires plane { IsCutPlane plane }
    requires sides { AreSides arena.now.model plane sides.old }
    ensures sides { AreSides arena.now.model plane sides.new }
    ensures rings { IfOk result (λ rings. rings.items ≡ rings_above arena.now.model plane f) }
{
    let mut rings = Vec::new(alloc);
    let mut last = 0;
    'rings: while let Some(l) = arena.ring_after(f, last) {
        if same(loop_side(arena, plane, sides, l), Sign::Above) {
            rings.push(l)?;
        }
        last = l;
    }
    Ok(rings)
}

/// Gives the rings of face f above the plane to the face `to`, if each such step is accepted in its turn. On `AllocError` some may be
/// given.
#[tactic(auto, using(undo_journal::proofs::Marks::further_none))]
pub(crate) fn share_rings(
    alloc: Global,
    draft: &mut Draft,
    plane: Plane,
    sides: &mut Sides,
    f: u32,
    to: u32,
) -> Result<(), AllocError>
    requires plane { IsCutPlane plane }
    requires sides { AreSides draft.old.model plane sides.old }
    requires there { table.has draft.old.model.faces f ≡ true }
    requires accepted { AreAccepted draft.old.model (ring_ops (rings_above draft.old.model plane f) to) }
    ensures steps { OnOk result (draft.new ≡ after_steps draft.old (ring_ops (rings_above draft.old.model plane f) to)) }
    ensures sides { OnOk result (AreSides draft.new.model plane sides.new) }
    ensures further { IsFurther draft.old draft.new }
{
    let rings = rings_above(alloc, draft.arena(), plane, sides, f)?;
    move_rings(draft, rings.as_slice(), to)?;
    Ok(())
}
