//! The section of a solid, and the conditions under which the solid can be opened along it, in their order.
ghost use Rattle.std.specs.Prelude.{◌≡◌, true, None, Some, Ok, Err, Vec, map};
ghost use Rattle.std.specs.declared.alloc.Global.{Global};
ghost use Rattle.euler_conditions.specs.Ready.{IsReady};
ghost use Rattle.euler_operators.specs.Common.{code, first_refusal, strictly_rises, IsCutPlane};
ghost use Rattle.euler_operators.specs.declared.Refusal.{Refusal};
ghost use Rattle.split_opening_laws.specs.cycles.SectionCycles.{AreOf};
ghost use Rattle.shapes.specs.Common.{below_halves, faces_above, section_conditions};
ghost use Rattle.solid_walks.specs.Counters.{taken_of};
ghost use Rattle.split_checks.specs.cut_places.Noted.{AreSides};
ghost use Rattle.split_sections.specs.Common.{AreCyclesOf, IsSection, AreThere};
ghost use Rattle.split_sections.specs.section_edges.BelowHalves.{lying_below, AreSectionHalves};
ghost use Rattle.split_sections.specs.declared.section_cycles.cycle.Cycle.{Cycle};
ghost use Rattle.split_sections.specs.declared.section_checks.section.Section.{Section};

use crate::section_checks::holes::has_stray_hole;
use crate::section_checks::numbers::check_left;
use crate::section_checks::section::Section;
use crate::section_cycles::{Cycle, cycles, starts_of};
use crate::section_edges::{below_halves, look_at_faces};
use euler_conditions::Arena;
use euler_operators::{HalfEdge, Plane, Refusal, Why};
use solid_walks::Counters;
use split_checks::Sides;
use std::alloc::{AllocError, Global};

/// The cycles of the section of solid s between these faces above, which rise, and its other faces, if the solid can be opened along them
/// with the numbers after those taken. Of `mates` those in the other faces are the halves there of the section's edges.
fn check_cycles(
    alloc: Global,
    arena: &Arena,
    s: u32,
    plane: Plane,
    taken: Counters,
    above: &[u32],
    mates: Vec<HalfEdge>,
) -> Result<Result<Vec<Cycle>, Refusal>, AllocError>
    requires ready { IsReady arena.now }
    requires plane { IsCutPlane plane }
    requires rising { strictly_rises above.now ≡ true }
    requires of_solid { AreOf arena.now.model above.now s }
    requires there { AreThere arena.now.model (map code mates.items) }
    requires halves { AreSectionHalves arena.now.model above.now s (lying_below arena.now.model above.now (map code mates.items)) }
    ensures refused { (refusal : Refusal) → (result ≡ Ok (Err refusal)) → (first_refusal (section_conditions arena.now.model s plane (taken_of taken) (below_halves arena.now.model above.now s)) ≡ Some refusal) }
    ensures open { (found : Vec Cycle Global) → (result ≡ Ok (Ok found)) → ((first_refusal (section_conditions arena.now.model s plane (taken_of taken) (below_halves arena.now.model above.now s)) ≡ None) × AreCyclesOf arena.now.model plane (below_halves arena.now.model above.now s) found.items) }
{
    let halves = below_halves(arena, above, mates)?;
    let listed = halves.as_slice();
    let found = starts_of(alloc, arena, listed)?;
    if let Some(v) = found.1 {
        return Ok(Err(Refusal {
            why: Why::BranchedVertex,
            number: v,
        }));
    }
    let cycles = cycles(alloc, arena, plane, listed, found.0.as_slice())?;
    if has_stray_hole(cycles.as_slice()) {
        return Ok(Err(Refusal {
            why: Why::SectionHoles,
            number: s,
        }));
    }
    match check_left(taken, halves.len(), cycles.len()) {
        Ok(()) => Ok(Ok(cycles)),
        Err(refusal) => Ok(Err(refusal)),
    }
}

/// The section of solid s by the plane, if the solid can be opened along it.
///
/// Refused, in this order: BranchedVertex with the least vertex at which more than two section edges meet; SectionHoles with s, where a
/// cycle is a hole and not exactly one is outer; NumbersSpent with 2, 3, 4 or 5, where no numbers are left for the faces, loops, edges or
/// vertices that the opening takes after those taken. Sides that aren't noted in `sides` are computed, and then noted. If memory is
/// refused, the answer is `AllocError`.
pub fn find_section(
    alloc: Global,
    arena: &Arena,
    s: u32,
    plane: &Plane,
    taken: Counters,
    sides: &mut Sides,
) -> Result<Result<Section, Refusal>, AllocError>
    requires ready { IsReady arena.now }
    requires plane { IsCutPlane plane.now }
    requires sides { AreSides arena.now.model plane.now sides.old }
    ensures refused { (refusal : Refusal) → (result ≡ Ok (Err refusal)) → (first_refusal (section_conditions arena.now.model s plane.now (taken_of taken) (below_halves arena.now.model (faces_above arena.now.model plane.now s) s)) ≡ Some refusal) }
    ensures open { (section : Section) → (result ≡ Ok (Ok section)) → ((first_refusal (section_conditions arena.now.model s plane.now (taken_of taken) (below_halves arena.now.model (faces_above arena.now.model plane.now s) s)) ≡ None) × IsSection arena.now.model s plane.now section) }
{
    let looked = look_at_faces(alloc, arena, *plane, sides, s)?;
    let above = looked.above;
    match check_cycles(
        alloc,
        arena,
        s,
        *plane,
        taken,
        above.as_slice(),
        looked.mates,
    )? {
        Ok(cycles) => Ok(Ok(Section { above, cycles })),
        Err(refusal) => Ok(Err(refusal)),
    }
}
