//! The three rewritings of a split, one after the other in a draft.
ghost use Rattle.std.specs.Prelude.{◌≡◌, [], None, Some, Ok, Err, OnOk, OnErr, IfOk};
ghost use Rattle.euler_operators.specs.Common.{Sound, verdict};
ghost use Rattle.euler_operators.specs.declared.Refusal.{Refusal};
ghost use Rattle.shapes.specs.Common.{split_model, split_refusal};
ghost use Rattle.split_drawing_laws.specs.crossings.Laws.{CanBegin};
ghost use Rattle.split_laws.specs.SplitOps.{ops_above, split_ops};
ghost use Rattle.split_drawing.specs.Cuts.{AreCuts};
ghost use Rattle.split_drawing.specs.Noted.{AreSides};
ghost use Rattle.split_drawing.specs.Progress.{drawing_of};
ghost use Rattle.split_sections.specs.section_checks.Sections.{IsSection};
ghost use Rattle.plane_split.specs.Drawn.{IsDrawn};
ghost use Rattle.undo_journal.specs.Journal.{after_steps, IsFurther};

use crate::solid_opening::{open_section, part_upper};
use euler_operators::{NUMBER_LIMIT, Plane, Refusal, Why, refused};
use split_drawing::{Cuts, Progress, Sides, draw_solid};
use split_sections::{Section, find_section};
use std::alloc::{AllocError, Global};
use undo_journal::{Draft, Failure};

/// Opens solid s along its section after its faces are drawn, and parts what is above the plane as solid `upper`. On `AllocError` the draft
/// may have taken some steps.
#[tactic(auto, using(undo_journal::proofs::Marks::further_on))]
fn part_drawn(
    alloc: Global,
    draft: &mut Draft,
    s: u32,
    plane: &Plane,
    upper: u32,
    drawn: &Progress,
    section: Section,
) -> Result<(), AllocError>
    requires drawn { IsDrawn (drawing_of drawn.now draft.old.model []) s plane.now upper }
    requires section { IsSection draft.old.model s plane.now section }
    ensures steps { OnOk result (draft.new ≡ after_steps draft.old (ops_above (drawing_of drawn.now draft.old.model []) s plane.now upper)) }
    ensures further { IsFurther draft.old draft.new }
{
    let caps = open_section(alloc, draft, s, plane, &drawn.taken, &section)?;
    part_upper(draft, s, upper, section.above, caps.as_slice())
}

/// Splits solid s of the draft's model by the plane, if that can begin and these are its cuts. It cuts the edges that cross the plane, and
/// draws the faces that straddle it. Then, if each of these could be drawn and the solid can be opened along its section, it parts what is
/// above as solid `upper`; otherwise it answers the refusal. On a refusal or `AllocError` the draft may have taken some steps.
#[tactic(auto, using(undo_journal::proofs::Marks::further_on))]
fn take_steps(
    alloc: Global,
    draft: &mut Draft,
    s: u32,
    plane: &Plane,
    upper: u32,
    cuts: &Cuts,
    sides: &mut Sides,
) -> Result<Result<(), Refusal>, AllocError>
    requires sound { Sound draft.old.model }
    requires begins { CanBegin draft.old.model s plane.now upper }
    requires cuts { AreCuts draft.old.model plane.now s cuts.now }
    requires sides { AreSides draft.old.model plane.now sides.old }
    ensures carried { IfOk result (λ carried. carried ≡ verdict (split_refusal draft.old.model s plane.now upper)) }
    ensures model { (result ≡ Ok (Ok tt)) → (draft.new.model ≡ split_model draft.old.model s plane.now upper) }
    ensures steps { (result ≡ Ok (Ok tt)) → (draft.new ≡ after_steps draft.old (split_ops draft.old.model s plane.now upper)) }
    ensures further { IsFurther draft.old draft.new }
{
    let drawn = draw_solid(alloc, draft, s, plane, cuts, sides)?;
    if drawn.stuck != 0 {
        return Ok(refused(Why::CutCrossed, drawn.stuck));
    }
    let section = match find_section(alloc, draft.arena(), s, plane, drawn.taken, sides)? {
        Ok(section) => section,
        Err(refusal) => return Ok(Err(refusal)),
    };
    part_drawn(alloc, draft, s, plane, upper, &drawn, section)?;
    Ok(Ok(()))
}

/// How many steps a split with these cuts takes, if each face has one pair of cut places, and the edges between these are all edges of its
/// section and form one cycle.
fn usual_steps(cuts: &Cuts) -> usize {
    let edges = cuts.edges.len().min(NUMBER_LIMIT as usize);
    let faces = cuts.faces.len().min(NUMBER_LIMIT as usize);
    edges + 4 * faces + 2
}

/// How many of these steps don't tell their inverses: the kefs, the kemr and the mfkrh that close the section.
fn usual_untold(cuts: &Cuts) -> usize {
    cuts.faces.len().min(NUMBER_LIMIT as usize) + 1
}

/// Splits solid s of the draft's model by the plane, if that can begin and these are its cuts. First it asks for memory to list as many
/// steps as most splits take. On a refusal or `Memory` the draft is as it was.
#[tactic(auto, using(undo_journal::proofs::Marks::further_none, undo_journal::proofs::Marks::further_back, undo_journal::proofs::Marks::back_at_mark))]
pub(crate) fn try_split(
    alloc: Global,
    draft: &mut Draft,
    s: u32,
    plane: &Plane,
    upper: u32,
    cuts: &Cuts,
    sides: &mut Sides,
) -> Result<(), Failure>
    requires sound { Sound draft.old.model }
    requires begins { CanBegin draft.old.model s plane.now upper }
    requires cuts { AreCuts draft.old.model plane.now s cuts.now }
    requires sides { AreSides draft.old.model plane.now sides.old }
    ensures ok { OnOk result ((split_refusal draft.old.model s plane.now upper ≡ None) × (draft.new.model ≡ split_model draft.old.model s plane.now upper)) }
    ensures refused { (refusal : Refusal) → (result ≡ Err (Failure.Refused refusal)) → (split_refusal draft.old.model s plane.now upper ≡ Some refusal) }
    ensures steps { OnOk result (draft.new ≡ after_steps draft.old (split_ops draft.old.model s plane.now upper)) }
    ensures further { IsFurther draft.old draft.new }
    ensures err { OnErr result (draft.new ≡ draft.old) }
{
    if let Err(error) = draft.reserve(usual_steps(cuts), usual_untold(cuts)) {
        return Err(Failure::Memory(error));
    }
    let mark = draft.mark();
    match take_steps(alloc, draft, s, plane, upper, cuts, sides) {
        Ok(Ok(())) => Ok(()),
        Ok(Err(refusal)) => {
            draft.back_to(mark);
            Err(Failure::Refused(refusal))
        }
        Err(error) => {
            draft.back_to(mark);
            Err(Failure::Memory(error))
        }
    }
}
