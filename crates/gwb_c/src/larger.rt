//! Calls of C: commands of several operators, each a command of its own or steps of a draft; and undo and redo, which a draft doesn't have.
ghost use Rattle.std.specs.Prelude.{◌≡◌};
ghost use Rattle.gwb_c.specs.Calls.{Changes, Does};

use crate::calling::call;
use euler_operators::Point;
use session_slots::{Call, Change, Command, Gwb};
use std::alloc::Global;

/// Makes a block with this corner and these sizes along x, y and z.
#[unsafe(no_mangle)]
pub extern "C" fn gwb_block(
    alloc: Global,
    gwb: &mut Gwb,
    solid: u32,
    x: i64,
    y: i64,
    z: i64,
    dx: i64,
    dy: i64,
    dz: i64,
) -> u32
    ensures { Changes gwb.old.kept.value (Change.Block solid (record { x = x; y = y; z = z }) dx dy dz) gwb.new.kept.value result }
{
    let corner = Point { x, y, z };
    let wanted = Change::Block(solid, corner, dx, dy, dz);
    call(alloc, gwb, Call::Give(Command::Change(wanted)))
}

/// Moves a face by a vector, with a wall at each of its edges.
#[unsafe(no_mangle)]
pub extern "C" fn gwb_sweep(
    alloc: Global,
    gwb: &mut Gwb,
    face: u32,
    dx: i64,
    dy: i64,
    dz: i64,
) -> u32
    ensures { Changes gwb.old.kept.value (Change.Sweep face (record { x = dx; y = dy; z = dz })) gwb.new.kept.value result }
{
    let vector = Point {
        x: dx,
        y: dy,
        z: dz,
    };
    let wanted = Change::Sweep(face, vector);
    call(alloc, gwb, Call::Give(Command::Change(wanted)))
}

/// Glues two solids along a face of each.
#[unsafe(no_mangle)]
pub extern "C" fn gwb_glue(alloc: Global, gwb: &mut Gwb, face: u32, other: u32) -> u32
    ensures { Changes gwb.old.kept.value (Change.Glue face other) gwb.new.kept.value result }
{
    let wanted = Change::Glue(face, other);
    call(alloc, gwb, Call::Give(Command::Change(wanted)))
}

/// Splits a solid by the plane `a x + b y + c z + d = 0`: what lies above becomes a new solid.
#[unsafe(no_mangle)]
pub extern "C" fn gwb_split(
    alloc: Global,
    gwb: &mut Gwb,
    solid: u32,
    a: i64,
    b: i64,
    c: i64,
    d: i64,
    above: u32,
) -> u32
    ensures { Changes gwb.old.kept.value (Change.Split solid a b c d above) gwb.new.kept.value result }
{
    let wanted = Change::Split(solid, a, b, c, d, above);
    call(alloc, gwb, Call::Give(Command::Change(wanted)))
}

/// Takes the last command back. A draft doesn't have this call.
#[unsafe(no_mangle)]
pub extern "C" fn gwb_undo(alloc: Global, gwb: &mut Gwb) -> u32
    ensures { Does gwb.old.kept.value (Call.Give Command.Undo) gwb.new.kept.value result }
{
    call(alloc, gwb, Call::Give(Command::Undo))
}

/// Does the next command again. A draft doesn't have this call.
#[unsafe(no_mangle)]
pub extern "C" fn gwb_redo(alloc: Global, gwb: &mut Gwb) -> u32
    ensures { Does gwb.old.kept.value (Call.Give Command.Redo) gwb.new.kept.value result }
{
    call(alloc, gwb, Call::Give(Command::Redo))
}
