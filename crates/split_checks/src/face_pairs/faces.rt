//! The pairs of the cut places of some faces.
ghost use Rattle.std.specs.Prelude.{◌≡◌, map, None, Some, IfErr, IfOk};
ghost use Rattle.euler_operators.specs.Common.{code, IsCutPlane};
ghost use Rattle.euler_conditions.specs.Ready.{IsReady};
ghost use Rattle.shapes.specs.Common.{first_such, is_crossed};
ghost use Rattle.split_checks.specs.Common.{all_pairs, codes, paired_face, AreTold, faces_in, AreSides, AreFacesAlong, AreCrossings};

use crate::cut_places::{FaceMet, Sides};
use crate::cuts::{Crossings, Pair, PairedFace};
use crate::face_pairs::pairs::push_pairs;
use euler_conditions::Arena;
use euler_operators::{HalfEdge, Plane};
use std::alloc::{AllocError, Global};

/// The faces, whose cut places are given one face after the other, and the pairs of these places, one face after the other; or the first of the faces
/// that has two cut places at one point, or a pair that isn't one up and one down.
pub(crate) fn pairs_of_faces(
    alloc: Global,
    arena: &Arena,
    plane: Plane,
    sides: &mut Sides,
    crossings: Crossings<'_>,
    faces: &[FaceMet],
    places: &[HalfEdge],
) -> Result<Result<(Vec<PairedFace>, Vec<Pair>), u32>, AllocError>
    requires ready { IsReady arena.now }
    requires plane { IsCutPlane plane }
    requires crossings { AreCrossings arena.now.model plane crossings.edges.now crossings.cut.now }
    requires sides { AreSides arena.now.model plane sides.old }
    requires whole { AreFacesAlong arena.now.model plane crossings.edges.now (faces_in faces.now) }
    requires told { AreTold arena.now.model plane faces.now (map code places.now) }
    ensures sides { AreSides arena.now.model plane sides.new }
    ensures uncrossed { IfOk result (λ found. IfOk found (λ _. first_such (is_crossed arena.now.model plane) (faces_in faces.now) ≡ None)) }
    ensures faces { IfOk result (λ found. IfOk found (λ paired. paired.0.items ≡ map (paired_face arena.now.model plane) (faces_in faces.now))) }
    ensures pairs { IfOk result (λ found. IfOk found (λ paired. map codes paired.1.items ≡ all_pairs arena.now.model plane (faces_in faces.now))) }
    ensures crossed { IfOk result (λ found. IfErr found (λ f. first_such (is_crossed arena.now.model plane) (faces_in faces.now) ≡ Some f)) }
{
    let mut found = Vec::with_capacity(alloc, faces.len())?;
    let mut pairs = Vec::with_capacity(alloc, faces.len())?;
    let mut rest = faces;
    let mut left = places;
    'faces: while let [met, others @ ..] = rest {
        let (mine, more) = left.split_at(met.places);
        let are_paired = push_pairs(alloc, arena, plane, sides, crossings, mine, &mut pairs)?;
        if !are_paired {
            return Ok(Err(met.face));
        }
        found.push(PairedFace {
            face: met.face,
            pairs: met.places / 2,
        })?;
        rest = others;
        left = more;
    }
    Ok(Ok((found, pairs)))
}
