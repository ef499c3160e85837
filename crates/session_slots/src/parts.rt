//! Faces of a solid that become a solid of their own.
ghost use Rattle.std.specs.Prelude.{◌≡◌, ◌<◌, length, get_or, IfOk, Err};
ghost use Rattle.session_slots.specs.Common.{solid_of, answer, face_refusal, shown, told_of, act_of, part_asked, part_of, ConsoleHeeds, Counts_in, Moves_faces, Tells};

use crate::slot::{Slot, counted_in};
use commands::Stage;
use euler_conditions::{Arena, check_part_of};
use euler_operators::{FaceList, Kind, Op, Refusal, Why, is_number};
use script_running::{Console, keep_outcome};
use std::alloc::{AllocError, Global};
use undo_journal::Failure;

/// Some faces as an operator holds them.
fn listed(alloc: Global, faces: &[u32]) -> Result<FaceList, AllocError>
    ensures { IfOk result (λ list. list ≡ faces.now) }
{
    let mut list = FaceList::new(alloc);
    let mut rest = faces;
    'faces: while let [first, others @ ..] = rest {
        list.push(*first)?;
        rest = others;
    }
    Ok(list)
}

/// The solid of a face. Refused if there is no such face.
fn solid_of(arena: &Arena, face: u32) -> Result<u32, Refusal>
    ensures { result ≡ answer (face_refusal arena.now.model face) (solid_of arena.now.model face) }
{
    if !is_number(face) {
        return Err(Refusal {
            why: Why::NumberRange,
            number: face,
        });
    }
    if !arena.has(Kind::Face, face) {
        return Err(Refusal {
            why: Why::NoFace,
            number: face,
        });
    }
    Ok(arena.solid_of(face))
}

/// Why some faces become no solid where memory for their list is refused: the operator's first false condition; if none is false, memory.
#[inline(never)]
fn unlisted(stage: &Stage, from: u32, made: u32, faces: &[u32], error: AllocError) -> Failure
    ensures { Tells stage.now (act_of (Op.Part from made faces.now)) (told_of (Err result)) stage.now }
{
    match check_part_of(stage.arena(), from, made, faces) {
        Ok(()) => Failure::Memory(error),
        Err(refusal) => Failure::Refused(refusal),
    }
}

/// Makes a new solid of some faces, at least one, of the first one's solid. Their list is made first, and where memory for it is refused, the
/// operator's conditions are tested without it.
fn part_on(alloc: Global, stage: &mut Stage, faces: &[u32], made: u32) -> Result<(), Failure>
    requires { 0 < length faces.now }
    ensures { Moves_faces (face_refusal (shown stage.old) (get_or faces.now 0 0)) stage.old (part_of (shown stage.old) faces.now made) (told_of result) stage.new }
{
    let from = match solid_of(stage.arena(), faces[0]) {
        Ok(from) => from,
        Err(refusal) => return Err(Failure::Refused(refusal)),
    };
    match listed(alloc, faces) {
        Ok(list) => commands::act(stage, Op::Part(from, made, list)),
        Err(error) => Err(unlisted(stage, from, made, faces, error)),
    }
}

fn part_in(alloc: Global, console: &mut Console, faces: &[u32], made: u32) -> u32
    requires { 0 < length faces.now }
    ensures { ConsoleHeeds console.old (part_asked console.old.stage faces.now made) console.new result }
{
    if let Some(stage) = &mut console.stage {
        let ended = part_on(alloc, stage, faces, made);
        return keep_outcome(ended, &mut console.answer);
    }
    0
}

/// Makes a new solid of some faces of a solid, at least one.
pub fn part(alloc: Global, slot: &mut Slot, faces: &[u32], made: u32) -> u32
    requires { 0 < length faces.now }
    ensures heeds { ConsoleHeeds slot.old.console (part_asked slot.old.console.stage faces.now made) slot.new.console result }
    ensures noted { Counts_in slot.old slot.new.before }
{
    slot.before = counted_in(slot);
    part_in(alloc, &mut slot.console, faces, made)
}
