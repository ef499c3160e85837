#![tactic(auto)]
//! A worked example: a program on top of the workbench that knows what it makes. It makes three blocks, glues two of them to a bar, cuts
//! the bar in two, and takes the cut back. `machined_block` writes what they measure.
//!
//! # How it is proved
//!
//! Each function makes one call of the kernel, and its contract says what the program wants to know of the session after it. If the prover
//! doesn't find the reason by itself, `proofs/FUNCTION/Answers.antt` says for each clause from what it follows; `proofs/parted` is a short
//! one. There are two ways to find it, and this example shows both.
//!
//! - *By laws.* A law is a function that does nothing: its contract says something of every session before and after a command answered Ok.
//!   It is called where it is needed. Examples are `blocks_fit` (a block is accepted if its number is new and numbers are left),
//!   `glue_measures` (the volumes of glued solids add) and `splits_are_held` (the parts share the volume). Laws hold for all sizes.
//! - *By computing.* The contract of a call says which command of the plain machine it is. If all numbers are known, the machine of the
//!   program is known too (`specs/Machines.antt`), and the prover computes what it holds: that the cut is accepted, and what each part
//!   measures. No law tells the latter.
//!
//! # What is proved
//!
//! None of these commands is refused: the only possible error is refused memory. The three blocks have six volumes of 144, 36 and 48; the
//! bar has the 180 of the first two; its parts have 72 and 108, and lie on either side of the plane. The third block keeps its own
//! throughout. After the cut is taken back, the model is that of the bar again.
ghost use Rattle.std.specs.Prelude.{◌≡◌, ◌≢◌, ◌+ℤ◌, pos, Ok, Err, IfOk, OnOk};
ghost use Rattle.euler_operators.specs.Common.{Has};
ghost use Rattle.sweeps.specs.Measure.{six_volume};
ghost use Rattle.sweeps.specs.PlainMachine.{held};
ghost use Rattle.gluing.specs.Flat.{IsClosedFlat};
ghost use Rattle.command_laws.specs.NewFaces.{IsFaceOf};
ghost use Rattle.block_machining.specs.Machines.{alone, bar, parted, joined_again, near_side, far_side, three_blocks, standing, HasSolids, LieOnEitherSide};

use command_laws::{
    blocks_fit, blocks_leave_alone, blocks_make_faces, faces_lie_flat, faces_stand, glues_fit,
};
use euler_operators::Refusal;
use gluing::{glue, glue_measures, six_volume};
use plane_split::{split, splits_are_held};
use std::alloc::{AllocError, Global};
use sweeps::{Failure, Point, Session, block, block_measures};

/// The result of a command that isn't refused: only memory can stop it.
fn but_for_memory(done: Result<(), Failure>) -> Result<(), AllocError>
    requires { (refusal : Refusal) → done ≢ Err (Failure.Refused refusal) }
    ensures { OnOk result (done ≡ Ok tt) }
{
    match done {
        Ok(()) => Ok(()),
        Err(Failure::Memory(error)) => Err(error),
        Err(Failure::Refused(_)) => unreachable!(),
    }
}

/// A session that holds a block of 2 by 2 by 2 as solid 3.
fn alone(alloc: Global) -> Result<Session, AllocError>
    ensures third { IfOk result (λ session. six_volume (held session.machine) 3 ≡ pos 48) }
    ensures made { IfOk result (λ session. session.machine ≡ alone) }
{
    let session = Session::new(alloc)?;
    blocks_fit();
    block_measures();
    let corner = Point { x: 10, y: 0, z: 0 };
    let (session, made) = block(alloc, session, 3, corner, 2, 2, 2);
    but_for_memory(made)?;
    Ok(session)
}

/// A block of 4 by 3 by 2 as solid 1, apart from the first. Its side at the greatest x is face 10: a block takes six faces, and this is the
/// second of the four sides, which come after top and bottom.
fn standing(alloc: Global) -> Result<Session, AllocError>
    ensures first { IfOk result (λ session. six_volume (held session.machine) 1 ≡ pos 144) }
    ensures third { IfOk result (λ session. six_volume (held session.machine) 3 ≡ pos 48) }
    ensures near { IfOk result (λ session. IsFaceOf (held session.machine) 10 1 near_side) }
    ensures flat { IfOk result (λ session. IsClosedFlat (held session.machine) 1) }
    ensures made { IfOk result (λ session. session.machine ≡ standing) }
{
    let session = alone(alloc)?;
    blocks_fit();
    block_measures();
    blocks_make_faces();
    faces_lie_flat();
    let corner = Point { x: 0, y: 0, z: 0 };
    let (session, made) = block(alloc, session, 1, corner, 4, 3, 2);
    but_for_memory(made)?;
    Ok(session)
}

/// A block of 1 by 3 by 2 as solid 2, which meets solid 1 at x = 4: its face 18 has the corners of face 10 in the opposite direction.
pub fn three_blocks(alloc: Global) -> Result<Session, AllocError>
    ensures there { IfOk result (λ session. HasSolids (held session.machine) 1 2 3) }
    ensures first { IfOk result (λ session. six_volume (held session.machine) 1 ≡ pos 144) }
    ensures second { IfOk result (λ session. six_volume (held session.machine) 2 ≡ pos 36) }
    ensures third { IfOk result (λ session. six_volume (held session.machine) 3 ≡ pos 48) }
    ensures near { IfOk result (λ session. IsFaceOf (held session.machine) 10 1 near_side) }
    ensures far { IfOk result (λ session. IsFaceOf (held session.machine) 18 2 far_side) }
    ensures flat { IfOk result (λ session. IsClosedFlat (held session.machine) 1 × IsClosedFlat (held session.machine) 2) }
    ensures made { IfOk result (λ session. session.machine ≡ three_blocks) }
{
    let session = standing(alloc)?;
    blocks_fit();
    block_measures();
    blocks_make_faces();
    blocks_leave_alone();
    faces_lie_flat();
    faces_stand();
    let corner = Point { x: 4, y: 0, z: 0 };
    let (session, made) = block(alloc, session, 2, corner, 1, 3, 2);
    but_for_memory(made)?;
    Ok(session)
}

/// Solids 1 and 2 glued where they meet, to a bar of 5 by 3 by 2.
pub fn bar(alloc: Global) -> Result<Session, AllocError>
    ensures there { IfOk result (λ session. Has (held session.machine).solids 1) }
    ensures whole { IfOk result (λ session. six_volume (held session.machine) 1 ≡ pos 180) }
    ensures third { IfOk result (λ session. six_volume (held session.machine) 3 ≡ pos 48) }
    ensures made { IfOk result (λ session. session.machine ≡ bar) }
{
    let session = three_blocks(alloc)?;
    glues_fit();
    glue_measures();
    let (session, glued) = glue(alloc, session, 10, 18);
    but_for_memory(glued)?;
    Ok(session)
}

/// The bar cut at x = 2. What lies past it is solid 2.
pub fn parted(alloc: Global) -> Result<Session, AllocError>
    ensures there { IfOk result (λ session. HasSolids (held session.machine) 1 2 3) }
    ensures share { IfOk result (λ session. six_volume (held session.machine) 1 +ℤ six_volume (held session.machine) 2 ≡ pos 180) }
    ensures sides { IfOk result (λ session. LieOnEitherSide (held session.machine) 1 2) }
    ensures near { IfOk result (λ session. six_volume (held session.machine) 1 ≡ pos 72) }
    ensures far { IfOk result (λ session. six_volume (held session.machine) 2 ≡ pos 108) }
    ensures third { IfOk result (λ session. six_volume (held session.machine) 3 ≡ pos 48) }
    ensures made { IfOk result (λ session. session.machine ≡ parted) }
{
    let session = bar(alloc)?;
    splits_are_held();
    let (session, cut) = split(alloc, session, 1, 1, 0, 0, -2, 2);
    but_for_memory(cut)?;
    Ok(session)
}

/// The cut is taken back, and the bar is whole again.
pub fn joined_again(alloc: Global) -> Result<Session, AllocError>
    ensures there { IfOk result (λ session. Has (held session.machine).solids 1) }
    ensures again { IfOk result (λ session. held session.machine ≡ held bar) }
    ensures whole { IfOk result (λ session. six_volume (held session.machine) 1 ≡ pos 180) }
    ensures made { IfOk result (λ session. session.machine ≡ joined_again) }
{
    let mut session = parted(alloc)?;
    session.undo().unwrap();
    Ok(session)
}

/// Six times the volume of solid s. The solid is there, so the measure is answered.
pub fn measured(session: &Session, s: u32) -> i128
    requires { Has (held session.now.machine).solids s }
    ensures { result ≡ six_volume (held session.now.machine) s }
{
    six_volume(session.arena(), s).unwrap()
}
