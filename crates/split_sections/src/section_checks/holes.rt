//! Holes among the cycles of a section.
ghost use Rattle.std.specs.Prelude.{◌≡◌, ◌≤◌, filter, length};
ghost use Rattle.split_sections.specs.section_checks.Cycles.{has_stray};

use crate::section_cycles::Cycle;

/// How many of the cycles are holes.
fn hole_count(cycles: &[Cycle]) -> usize
    ensures { result ≡ length (filter (λ c. c.hole) cycles.now) }
{
    cycles.iter().filter(|cycle| cycle.hole).count()
}

/// Whether some cycle is a hole and not exactly one cycle is outer.
pub(crate) fn has_stray_hole(cycles: &[Cycle]) -> bool
    requires { length cycles.now ≤ 2000002 }
    ensures { result ≡ has_stray cycles.now }
{
    let holes = hole_count(cycles);
    holes > 0 && cycles.len() != holes + 1
}
