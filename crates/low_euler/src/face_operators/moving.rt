//! Operators that move faces from one solid to another.
ghost use Rattle.std.specs.Prelude.{◌≡◌, ℕ, true};
ghost use Rattle.euler_conditions.specs.Store.{has_number, has_room};
ghost use Rattle.euler_operators.specs.Common.{lists};
ghost use Rattle.euler_conditions.specs.Ready.{Accepts, after};
ghost use Rattle.low_euler.specs.face_operators.Moving.{moved};

use euler_conditions::Arena;
use euler_operators::{FaceList, Kind, Op};

/// Gives each listed face to solid s.
#[tactic(auto, using(crate::proofs::face_operators_laws::Handing::start))]
fn give_faces(arena: &mut Arena, faces: &FaceList, s: u32)
    requires there { (f : ℕ) → lists faces.now f ≡ true → has_number arena.old Kind.Face f ≡ true }
    requires room { has_room arena.old Kind.Solid s ≡ true }
    ensures { arena.new ≡ moved arena.old faces.now s }
{
    'faces: for i in 0..faces.len() {
        arena.set_solid(faces.get(i), s);
    }
}

/// Moves all faces of solid `gone` to solid `kept`, the least first; then `gone` goes. It looks at these faces, and at the faces of `kept`
/// whose numbers lie between theirs.
#[tactic(auto, using(crate::proofs::Merging::merge_ends, crate::proofs::Merging::no_face_left))]
pub(crate) fn merge(arena: &mut Arena, kept: u32, gone: u32)
    requires { Accepts arena.old (Op.Merge kept gone) }
    ensures { arena.new ≡ after arena.old (Op.Merge kept gone) }
{
    // a number in use has its room
    let _in_use = arena.has(Kind::Solid, kept);
    'faces: while let Some(face) = arena.face_after(gone, 0) {
        arena.set_solid(face, kept);
    }
    arena.take_solid(gone);
}

/// Moves the listed faces of solid `kept` to the new solid `made`.
pub(crate) fn part(arena: &mut Arena, kept: u32, made: u32, faces: &FaceList)
    requires { Accepts arena.old (Op.Part kept made faces.now) }
    ensures { arena.new ≡ after arena.old (Op.Part kept made faces.now) }
{
    arena.put_solid(made);
    give_faces(arena, faces, made);
}
