//! The holes of a section are closed, and what is above the plane is parted.
ghost use Rattle.std.specs.Prelude.{◌≡◌, ◌∷◌, ◌++◌, [], OnOk};
ghost use Rattle.euler_laws.specs.Laws.{AreAccepted};
ghost use Rattle.euler_operators.specs.declared.Op.TheVariants.{Kfmrh, Part};
ghost use Rattle.shapes.specs.Common.{outer_caps, upper_left};
ghost use Rattle.split_laws.specs.SplitOps.{hole_ops};
ghost use Rattle.plane_split.specs.solid_opening.Capped.{all_caps, caps_of};
ghost use Rattle.plane_split.specs.solid_opening.Closing.{holes_ops, outer_uppers};
ghost use Rattle.undo_journal.specs.Journal.{after_steps, IsFurther};

use crate::solid_opening::caps::Caps;
use euler_operators::{FaceList, Op};
use std::alloc::AllocError;
use undo_journal::Draft;

/// The caps of the first outer cycle. If there is none, the caps are no faces.
fn outer_caps(caps: &[Caps]) -> Caps
    ensures { caps_of result ≡ outer_caps (all_caps caps.now) }
{
    let mut rest = caps;
    'caps: while let [first, others @ ..] = rest {
        if !first.hole {
            return *first;
        }
        rest = others;
    }
    Caps {
        lower: 0,
        upper: 0,
        hole: false,
    }
}

/// Makes the caps of a hole rings of the outer caps, if both operators are accepted in turn.
#[tactic(auto, using(undo_journal::proofs::Marks::further_on))]
fn close_hole(draft: &mut Draft, outer: Caps, hole: Caps) -> Result<(), AllocError>
    requires { AreAccepted draft.old.model (Kfmrh outer.lower hole.lower ∷ Kfmrh outer.upper hole.upper ∷ []) }
    ensures steps { OnOk result (draft.new ≡ after_steps draft.old (Kfmrh outer.lower hole.lower ∷ Kfmrh outer.upper hole.upper ∷ [])) }
    ensures further { IsFurther draft.old draft.new }
{
    draft.step_accepted(Op::Kfmrh(outer.lower, hole.lower))?;
    draft.step_accepted(Op::Kfmrh(outer.upper, hole.upper))
}

/// Makes the caps of each hole rings of the outer caps, if each of these operators is accepted in its turn. On `AllocError` the draft may
/// have taken some steps.
#[tactic(auto, using(undo_journal::proofs::Marks::further_none, undo_journal::proofs::Marks::further_on))]
fn close_holes(draft: &mut Draft, outer: Caps, caps: &[Caps]) -> Result<(), AllocError>
    requires { AreAccepted draft.old.model (holes_ops (caps_of outer) caps.now) }
    ensures steps { OnOk result (draft.new ≡ after_steps draft.old (holes_ops (caps_of outer) caps.now)) }
    ensures further { IsFurther draft.old draft.new }
{
    let mut rest = caps;
    'caps: while let [first, others @ ..] = rest {
        if first.hole {
            close_hole(draft, outer, *first)?;
        }
        rest = others;
    }
    Ok(())
}

/// Appends to a list the caps above of the outer cycles.
fn push_outer(list: &mut FaceList, caps: &[Caps]) -> Result<(), AllocError>
    ensures { OnOk result (list.new ≡ list.old ++ outer_uppers caps.now) }
{
    let mut rest = caps;
    'caps: while let [first, others @ ..] = rest {
        if !first.hole {
            list.push(first.upper)?;
        }
        rest = others;
    }
    Ok(())
}

/// Makes the caps of the holes rings of the caps of the first outer cycle, and then parts from solid s, as solid `upper`, the faces above
/// and the caps above that are left. Each of these operators has to be accepted in its turn. On `AllocError` the draft may have taken some
/// steps.
#[tactic(auto, using(undo_journal::proofs::Marks::further_on))]
pub(crate) fn part_upper(
    draft: &mut Draft,
    s: u32,
    upper: u32,
    above: Vec<u32>,
    caps: &[Caps],
) -> Result<(), AllocError>
    requires { AreAccepted draft.old.model (hole_ops (all_caps caps.now) ++ Part s upper (upper_left above.items (all_caps caps.now)) ∷ []) }
    ensures steps { OnOk result (draft.new ≡ after_steps draft.old (hole_ops (all_caps caps.now) ++ Part s upper (upper_left above.items (all_caps caps.now)) ∷ [])) }
    ensures further { IsFurther draft.old draft.new }
{
    close_holes(draft, outer_caps(caps), caps)?;
    let mut faces = FaceList::of(above);
    push_outer(&mut faces, caps)?;
    draft.step_accepted(Op::Part(s, upper, faces))
}
