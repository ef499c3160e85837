//! The faces of a solid, in the order of their numbers.
ghost use Rattle.std.specs.Prelude.{◌≡◌, [], IfOk, IsOk};
ghost use Rattle.euler_operators.specs.Common.{faces_of};
ghost use Rattle.euler_conditions.specs.Ready.{IsReady};

use euler_conditions::Arena;
use euler_operators::FaceList;
use std::alloc::{AllocError, Global};

/// The faces of a solid, in rising order. It looks at no other faces.
#[tactic(auto, using(crate::proofs::Faces::faces_above, crate::proofs::Faces::all_faces))]
pub(crate) fn faces_of(alloc: Global, arena: &Arena, solid: u32) -> Result<FaceList, AllocError>
    requires { IsReady arena.now }
    ensures listed { IfOk result (λ faces. faces ≡ faces_of arena.now.model solid) }
    ensures none { faces_of arena.now.model solid ≡ [] → IsOk result }
{
    let mut faces = FaceList::new(alloc);
    let mut last = 0;
    'faces: while let Some(face) = arena.face_after(solid, last) {
        faces.push(face)?;
        last = face;
    }
    Ok(faces)
}
