//! Changes as commands of a session: an operator, and those whose numbers the proof has to name.
ghost use Rattle.std.specs.Prelude.{IfSome};
ghost use Rattle.undo_journal.specs.Machine.{held};
ghost use Rattle.gluing.specs.Flat.{IsClosedFlat};
ghost use Rattle.commands.specs.Telling.{TellsSession, told_of};

use call_types::{Change, Command};
use euler_operators::{Op, Point};
use plane_split::split_with_flat;
use std::alloc::Global;
use sweeps::block;
use undo_journal::{Failure, Session};

/// Gives a session an operator without moving it. It does what `change` does.
#[inline(always)]
#[tactic(auto, using(crate::proofs::Settling::settled_exactly, undo_journal::proofs::Journals::same_machine))]
pub(crate) fn act_on_session(session: &mut Session, op: Op) -> Result<(), Failure>
    ensures { TellsSession session.old (Command.Change (Change.Act op)) (told_of result) session.new }
{
    session.act(op)
}

/// Gives a session an operator.
pub(crate) fn act(session: Session, op: Op) -> (Session, Result<(), Failure>)
    ensures { TellsSession session (Command.Change (Change.Act op)) (told_of result.1) result.0 }
{
    let mut session = session;
    let ended = act_on_session(&mut session, op);
    (session, ended)
}

/// A block, by its sizes.
pub(crate) fn make_block(
    alloc: Global,
    session: Session,
    solid: u32,
    corner: Point,
    dx: i64,
    dy: i64,
    dz: i64,
) -> (Session, Result<(), Failure>)
    ensures { TellsSession session (Command.Change (Change.Block solid corner dx dy dz)) (told_of result.1) result.0 }
{
    block(alloc, session, solid, corner, dx, dy, dz)
}

/// A split, by the coefficients of its plane. A solid may be known to be closed and flat.
pub(crate) fn make_split(
    alloc: Global,
    session: Session,
    solid: u32,
    a: i64,
    b: i64,
    c: i64,
    d: i64,
    above: u32,
    flat: Option<u32>,
) -> (Session, Result<(), Failure>)
    requires { IfSome flat (IsClosedFlat (held session.machine)) }
    ensures { TellsSession session (Command.Change (Change.Split solid a b c d above)) (told_of result.1) result.0 }
{
    split_with_flat(alloc, session, solid, a, b, c, d, above, flat)
}
