//! The conditions of part, which takes a list of faces.
ghost use Rattle.std.specs.Prelude.{◌≡◌, ℕ, true, length};
ghost use Rattle.euler_operators.specs.Common.{solid_of, faces_in, faces_known, first_false, first_refusal, is_bad_part, lists, numbers_in_range, strictly_rises, verdict};
ghost use Rattle.halfedge_arena.specs.Store.{has_number};
ghost use Rattle.euler_conditions.specs.Ready.{IsReady};
ghost use Rattle.euler_conditions.specs.Parts.{AreFacesOf, parts_known};

use crate::face_numbers::FaceNumbers;
use crate::single::in_range;
use crate::torn;
use euler_operators::{FaceList, Kind, Op, Refusal, Why, is_number, refused};
use halfedge_arena::Arena;

/// Tests that each number of the list lies from 1 to the limit.
fn list_in_range(faces: &FaceNumbers<'_>) -> Result<(), Refusal>
    ensures { result ≡ verdict (first_refusal (numbers_in_range faces.now)) }
{
    'faces: for i in 0..faces.len() {
        let face = faces.get(i);
        if !is_number(face) {
            return refused(Why::NumberRange, face);
        }
    }
    Ok(())
}

/// Tests that each listed face is there.
fn faces_known(arena: &Arena, faces: &FaceNumbers<'_>) -> Result<(), Refusal>
    ensures { result ≡ verdict (first_refusal (faces_known arena.now.model faces.now)) }
{
    'faces: for i in 0..faces.len() {
        let face = faces.get(i);
        if !arena.has(Kind::Face, face) {
            return refused(Why::NoFace, face);
        }
    }
    Ok(())
}

/// Tests that each listed face belongs to the solid.
fn faces_in(arena: &Arena, solid: u32, faces: &FaceNumbers<'_>) -> Result<(), Refusal>
    requires { (f : ℕ) → lists faces.now f ≡ true → has_number arena.now Kind.Face f ≡ true }
    ensures { result ≡ verdict (first_refusal (faces_in arena.now.model solid faces.now)) }
{
    'faces: for i in 0..faces.len() {
        let face = faces.get(i);
        if arena.solid_of(face) != solid {
            return refused(Why::DifferentSolids, face);
        }
    }
    Ok(())
}

/// Whether each number is greater than the one before.
fn rises(faces: &FaceNumbers<'_>) -> bool
    ensures { result ≡ strictly_rises faces.now }
{
    'faces: for i in 1..faces.len() {
        if faces.get(i - 1) >= faces.get(i) {
            return false;
        }
    }
    true
}

/// Whether the listed faces can't be parted from the solid. This is so if there is none, if they don't rise, if they are all of its faces,
/// or if an edge lies between one of them and another face.
fn is_bad_part(arena: &Arena, solid: u32, faces: &FaceNumbers<'_>) -> bool
    requires ready { IsReady arena.now }
    requires faces { AreFacesOf arena.now.model solid faces.now }
    ensures { result ≡ is_bad_part arena.now.model solid faces.now }
{
    if faces.len() == 0 || !rises(faces) {
        return true;
    }
    faces.len() == arena.face_count(solid) as usize || torn::is_torn(arena, faces)
}

/// What is asked of the two solids and of each listed face.
fn parts_known(arena: &Arena, solid: u32, made: u32, faces: &FaceNumbers<'_>) -> Result<(), Refusal>
    requires { IsReady arena.now }
    ensures { result ≡ verdict (first_refusal (parts_known arena.now.model solid made faces.now)) }
{
    in_range(&[solid, made])?;
    list_in_range(faces)?;
    if !arena.has(Kind::Solid, solid) {
        return refused(Why::NoSolid, solid);
    }
    if arena.has(Kind::Solid, made) {
        return refused(Why::SolidTaken, made);
    }
    faces_known(arena, faces)?;
    faces_in(arena, solid, faces)
}

/// Whether the listed faces of one solid can go to a new solid.
///
/// Refused, in this order: NumberRange of the solids, then of the list; NoSolid; SolidTaken; NoFace with the first listed face that isn't
/// there; DifferentSolids with the first listed face of another solid; BadPart with the solid, where the list is empty, doesn't rise or has
/// all faces of the solid, or where an edge lies between a listed face and another. It walks once round each loop of the listed faces.
#[tactic(auto, using(crate::proofs::Borders::part_left), unfolding(euler_operators::specs::Conditions::conditions, euler_operators::specs::Conditions::first_false))]
fn check_numbers(
    arena: &Arena,
    solid: u32,
    made: u32,
    faces: &FaceNumbers<'_>,
) -> Result<(), Refusal>
    requires { IsReady arena.now }
    ensures { result ≡ verdict (first_false arena.now.model (Op.Part solid made faces.now)) }
{
    parts_known(arena, solid, made, faces)?;
    if is_bad_part(arena, solid, faces) {
        return refused(Why::BadPart, solid);
    }
    Ok(())
}

/// Whether the faces that an operator lists can go to a new solid, as `check_numbers` says.
pub(crate) fn check_part(
    arena: &Arena,
    solid: u32,
    made: u32,
    faces: &FaceList,
) -> Result<(), Refusal>
    requires { IsReady arena.now }
    ensures { result ≡ verdict (first_false arena.now.model (Op.Part solid made faces.now)) }
{
    check_numbers(arena, solid, made, &FaceNumbers::listed(faces))
}

/// Whether part could make a solid of the faces of a slice: `check` of that operator, whose list needn't be made. It takes no memory.
pub fn check_part_of(arena: &Arena, solid: u32, made: u32, faces: &[u32]) -> Result<(), Refusal>
    requires { IsReady arena.now }
    ensures { result ≡ verdict (first_false arena.now.model (Op.Part solid made faces.now)) }
{
    check_numbers(arena, solid, made, &FaceNumbers::lent(faces))
}
