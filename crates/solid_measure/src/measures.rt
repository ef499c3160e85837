//! Measures of faces and solids by number.
ghost use Rattle.std.specs.Prelude.{◌≡◌};
ghost use Rattle.euler_operators.specs.Common.{numbers_of};
ghost use Rattle.solid_walks.specs.Store.{has_number};
ghost use Rattle.solid_walks.specs.Ready.{IsReady};
ghost use Rattle.solid_measure.specs.Measure.{answer, face_refusal, is_flat, normal, plane_of, six_volume, solid_refusal};

use crate::faces;
use crate::solid_counts::refusal_of_solid;
use euler_operators::{Kind, Plane, Refusal, Why, is_number};
use solid_walks::Arena;

/// The refusal of a query about face f, if there is one.
fn refusal_of_face(arena: &Arena, f: u32) -> Option<Refusal>
    ensures { result ≡ face_refusal arena.now.model f }
{
    if !is_number(f) {
        return Some(Refusal {
            why: Why::NumberRange,
            number: f,
        });
    }
    if !arena.has(Kind::Face, f) {
        return Some(Refusal {
            why: Why::NoFace,
            number: f,
        });
    }
    None
}

/// The normal of face f: the sum of the cross products `p x q` over the half-edges of all its loops, each from point p to
/// point q. Each number is below 10^25 in magnitude.
///
/// Refused, in this order: NumberRange, NoFace. It walks once round each loop of the face, and over nothing else.
pub fn normal(arena: &Arena, f: u32) -> Result<[i128; 3], Refusal>
    requires { IsReady arena.now }
    ensures { result ≡ answer (face_refusal arena.now.model f) (numbers_of (normal arena.now.model f)) }
{
    if let Some(refusal) = refusal_of_face(arena, f) {
        return Err(refusal);
    }
    let n = faces::frame_of(arena, f).normal;
    Ok([n.x, n.y, n.z])
}

/// The plane of face f: it goes through the face's anchor, across its normal.
///
/// Refused as `normal` is, and as fast.
pub fn plane(arena: &Arena, f: u32) -> Result<Plane, Refusal>
    requires { IsReady arena.now }
    ensures { result ≡ answer (face_refusal arena.now.model f) (plane_of arena.now.model f) }
{
    if let Some(refusal) = refusal_of_face(arena, f) {
        return Err(refusal);
    }
    Ok(faces::plane_of(arena, f))
}

/// Whether face f is flat: its normal isn't zero, and its plane goes through each vertex on its loops.
///
/// Refused as `normal` is, and as fast.
pub fn is_flat(arena: &Arena, f: u32) -> Result<bool, Refusal>
    requires { IsReady arena.now }
    ensures { result ≡ answer (face_refusal arena.now.model f) (is_flat arena.now.model f) }
{
    if let Some(refusal) = refusal_of_face(arena, f) {
        return Err(refusal);
    }
    Ok(faces::is_flat(arena, f))
}

/// The sum over the faces of solid s of the products of anchor and normal.
fn volume_of(arena: &Arena, s: u32) -> i128
    requires { IsReady arena.now }
    ensures { result ≡ six_volume arena.now.model s }
{
    let mut sum = 0;
    let mut last = 0;
    'faces: while let Some(f) = arena.face_after(s, last) {
        sum += faces::volume_over(arena, f);
        last = f;
    }
    sum
}

/// Six times the volume of solid s: the sum over its faces of the product of the anchor with the normal. It is below 3 * 10^34
/// in magnitude.
///
/// Refused, in this order: NumberRange, NoSolid. It walks over the solid's own faces, and once round each of their loops.
pub fn six_volume(arena: &Arena, s: u32) -> Result<i128, Refusal>
    requires { IsReady arena.now }
    ensures { result ≡ answer (solid_refusal arena.now.model s) (six_volume arena.now.model s) }
{
    if let Some(refusal) = refusal_of_solid(arena, s) {
        return Err(refusal);
    }
    Ok(volume_of(arena, s))
}
