//! A solid opened along the cycles of its section.
ghost use Rattle.std.specs.Prelude.{◌≡◌, map, IfOk, OnOk};
ghost use Rattle.shapes.specs.Common.{is_hole};
ghost use Rattle.split_opening_laws.specs.sections.InTurn.{CanBeOpenedInTurn};
ghost use Rattle.split_laws.specs.SplitOps.{openings_ops};
ghost use Rattle.split_sections.specs.section_checks.Sections.{cycles_of, hole_flags};
ghost use Rattle.plane_split.specs.solid_opening.Capped.{all_caps, opened_section, unopened};
ghost use Rattle.undo_journal.specs.Journal.{after_steps, IsFurther};

use crate::solid_opening::caps::Caps;
use crate::solid_opening::cycle::{caps_after, counted_on, open_cycle};
use euler_operators::Plane;
use split_drawing::Counters;
use split_sections::Section;
use std::alloc::{AllocError, Global};
use undo_journal::Draft;

/// Opens solid s along each cycle of its section in turn, and closes it there by two caps. It answers the caps of each cycle, in the order
/// of the cycles.
///
/// On `AllocError` the draft may have taken some steps. The session from which the draft came is kept, and `abandon` gives it back.
#[tactic(auto, using(undo_journal::proofs::Marks::further_none, undo_journal::proofs::Marks::further_on))]
pub(crate) fn open_section(
    alloc: Global,
    draft: &mut Draft,
    s: u32,
    plane: &Plane,
    from: &Counters,
    section: &Section,
) -> Result<Vec<Caps>, AllocError>
    requires opens { CanBeOpenedInTurn section.now.above.items s (unopened draft.old.model from.now) (cycles_of section.now) }
    requires holes { hole_flags section.now ≡ map (is_hole draft.old.model plane.now) (cycles_of section.now) }
    ensures opened { IfOk result (λ caps. (draft.new.model ≡ (opened_section draft.old.model from.now s plane.now section.now).model)
        × (all_caps caps.items ≡ (opened_section draft.old.model from.now s plane.now section.now).caps)) }
    ensures steps { OnOk result (draft.new ≡ after_steps draft.old (openings_ops section.now.above.items s plane.now (unopened draft.old.model from.now) (cycles_of section.now))) }
    ensures further { IsFurther draft.old draft.new }
{
    let mut taken = *from;
    let mut caps = Vec::new(alloc);
    let mut rest = section.cycles.as_slice();
    'cycles: while let [cycle, others @ ..] = rest {
        let halves = cycle.halves.as_slice();
        let count = halves.len() as u32;
        open_cycle(draft, s, &taken, halves)?;
        caps.push(caps_after(&taken, count, cycle.hole))?;
        taken = counted_on(&taken, count);
        rest = others;
    }
    Ok(caps)
}
