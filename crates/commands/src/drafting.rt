//! A change as steps of a draft.
ghost use Rattle.commands.specs.Telling.{TellsDraft, told_of};

use call_types::{Change, Command};
use euler_operators::{Op, Point};
use gluing::glue_in;
use plane_split::split_in;
use std::alloc::Global;
use sweeps::{block_in, lamina_in, sweep_in};
use undo_journal::{Draft, Failure};

/// Gives a draft an operator without moving it.
#[tactic(auto, using(crate::proofs::Settling::settled_exactly, undo_journal::proofs::Marks::first_step))]
pub(crate) fn act_on_draft(draft: &mut Draft, op: Op) -> Result<(), Failure>
    ensures { TellsDraft draft.old (Command.Change (Change.Act op)) (told_of result) draft.new }
{
    draft.step(op)
}

/// A block, by its sizes.
fn make_block(
    draft: &mut Draft,
    solid: u32,
    corner: Point,
    dx: i64,
    dy: i64,
    dz: i64,
) -> Result<(), Failure>
    ensures { TellsDraft draft.old (Command.Change (Change.Block solid corner dx dy dz)) (told_of result) draft.new }
{
    block_in(draft, solid, corner, dx, dy, dz)
}

/// A split, by the coefficients of its plane.
fn make_split(
    alloc: Global,
    draft: &mut Draft,
    solid: u32,
    a: i64,
    b: i64,
    c: i64,
    d: i64,
    above: u32,
) -> Result<(), Failure>
    ensures { TellsDraft draft.old (Command.Change (Change.Split solid a b c d above)) (told_of result) draft.new }
{
    split_in(alloc, draft, solid, a, b, c, d, above)
}

/// Makes a change as steps of a draft: an operator is one step, a larger command takes all of its operators. A refusal is that of the
/// command that the change names, in the draft's model. On any failure the draft is as it was, and goes on.
pub fn change_in(alloc: Global, draft: &mut Draft, change: Change<'_>) -> Result<(), Failure>
    ensures { TellsDraft draft.old (Command.Change change.entry) (told_of result) draft.new }
{
    match change {
        Change::Act(op) => act_on_draft(draft, op),
        Change::Lamina(solid, points) => lamina_in(draft, solid, points.points()),
        Change::Block(solid, corner, dx, dy, dz) => make_block(draft, solid, corner, dx, dy, dz),
        Change::Sweep(face, way) => sweep_in(alloc, draft, face, way),
        Change::Glue(face, other) => glue_in(alloc, draft, face, other),
        Change::Split(solid, a, b, c, d, above) => {
            make_split(alloc, draft, solid, a, b, c, d, above)
        }
    }
}
