//! A solid that is opened along one cycle, and the numbers that this takes.
ghost use Rattle.std.specs.Prelude.{◌≡◌, ◌≤◌, ◌+◌, ◌*◌, OnOk, map};
ghost use Rattle.euler_operators.specs.Common.{code};
ghost use Rattle.split_drawing.specs.Counters.{taken_of};
ghost use Rattle.split_opening_laws.specs.opening.OpeningOps.{opening_ops};
ghost use Rattle.plane_split.specs.solid_opening.Stages.{CanOpen};
ghost use Rattle.undo_journal.specs.Journal.{after_steps, IsFurther};

use crate::solid_opening::caps::Caps;
use crate::solid_opening::copies::raise_copies;
use crate::solid_opening::joinings::make_caps;
use crate::solid_opening::strips::cut_strips;
use euler_operators::HalfEdge;
use split_drawing::Counters;
use std::alloc::AllocError;
use undo_journal::Draft;

/// Opens solid s along a cycle along which it can be opened, with the numbers after those taken. On `AllocError` the draft may have taken
/// some steps.
#[tactic(auto, using(undo_journal::proofs::Marks::further_on))]
pub(crate) fn open_cycle(
    draft: &mut Draft,
    s: u32,
    from: &Counters,
    halves: &[HalfEdge],
) -> Result<(), AllocError>
    requires { CanOpen draft.old.model s (taken_of from.now) (map code halves.now) }
    ensures steps { OnOk result (draft.new ≡ after_steps draft.old (opening_ops draft.old.model s (taken_of from.now) (map code halves.now))) }
    ensures further { IsFurther draft.old draft.new }
{
    cut_strips(draft, s, from, halves)?;
    raise_copies(draft, s, from, halves)?;
    make_caps(draft, from, halves.len() as u32)
}

/// The caps of a cycle of so many edges that is opened with the numbers after those taken.
pub(crate) fn caps_after(from: &Counters, count: u32, hole: bool) -> Caps
    requires { from.now.faces + count + 1 ≤ 1000000 }
    ensures { result ≡ record { lower = from.now.faces + 1; upper = from.now.faces + count + 1; hole = hole } }
{
    Caps {
        lower: from.faces + 1,
        upper: from.faces + count + 1,
        hole,
    }
}

/// The greatest numbers taken after a solid is opened along a cycle of so many edges.
pub(crate) fn counted_on(from: &Counters, count: u32) -> Counters
    requires faces_left { from.now.faces + count + 1 ≤ 1000000 }
    requires loops_left { from.now.loops + count + 1 ≤ 1000000 }
    requires edges_left { from.now.edges + 2 * count ≤ 1000000 }
    requires vertices_left { from.now.vertices + count ≤ 1000000 }
    ensures { result ≡ record from.now { faces = from.now.faces + count + 1; loops = from.now.loops + count + 1; edges = from.now.edges + 2 * count; vertices = from.now.vertices + count } }
{
    Counters {
        faces: from.faces + count + 1,
        loops: from.loops + count + 1,
        edges: from.edges + 2 * count,
        vertices: from.vertices + count,
    }
}
