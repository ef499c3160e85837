//! The conditions with which a split begins, in the order in which they are tested.
ghost use Rattle.std.specs.Prelude.{◌≡◌, ◌&&◌, map, None, Some, IfErr, IfOk, IfSome, OnErr};
ghost use Rattle.euler_operators.specs.Common.{code, faces_of, first_refusal, verdict, IsCutPlane};
ghost use Rattle.euler_conditions.specs.Ready.{IsReady};
ghost use Rattle.split_checks.specs.Common.{AreCuts, all_pairs, codes, paired_face, early_refusal, HasFlatFaces, AreTold, IsSolidMet, faces_in, AreSides, AreFacesAlong, AreCrossings};
ghost use Rattle.shapes.specs.Common.{crossing_edges, straddling_faces, cut_conditions, faces_are_flat, first_conditions, number_conditions, sectioning_conditions, straddling_conditions};

use crate::begin_checks::crossings::cut_edges;
use crate::begin_checks::flaws::{Flaw, first_flawed};
use crate::begin_checks::numbers::{TOO_MANY, check_left};
use crate::begin_checks::planes::check_plane;
use crate::cut_places::{FaceMet, Met, Sides, meeting};
use crate::cuts::{Crossings, Cuts, Pair, PairedFace};
use crate::face_pairs::pairs_of_faces;
use euler_conditions::Arena;
use euler_operators::{HalfEdge, Kind, Plane, Refusal, Why, is_number, refused};
use solid_measure::{least_bent, least_lone};
use std::alloc::{AllocError, Global};

/// A refusal, with the number that it names.
fn refusal(why: Why, number: u32) -> Refusal
    ensures { result ≡ record { why = why; number = number } }
{
    Refusal { why, number }
}

/// Whether solid s is there, and the number for the upper part is free.
fn check_numbers(arena: &Arena, s: u32, upper: u32) -> Result<(), Refusal>
    requires { IsReady arena.now }
    ensures { result ≡ verdict (first_refusal (number_conditions arena.now.model s upper)) }
{
    if !is_number(s) {
        return refused(Why::NumberRange, s);
    }
    if !is_number(upper) {
        return refused(Why::NumberRange, upper);
    }
    if !arena.has(Kind::Solid, s) {
        return refused(Why::NoSolid, s);
    }
    if arena.has(Kind::Solid, upper) {
        return refused(Why::SolidTaken, upper);
    }
    Ok(())
}

/// Whether solid s has no lone loop, and only flat faces. It looks at each face.
fn check_each_face(arena: &Arena, s: u32) -> Result<(), Refusal>
    requires { IsReady arena.now }
    ensures { result ≡ verdict (first_refusal (faces_are_flat arena.now.model (faces_of arena.now.model s))) }
{
    if let Some(l) = least_lone(arena, s) {
        return refused(Why::LoneLoop, l);
    }
    if let Some(f) = least_bent(arena, s) {
        return refused(Why::NotFlat, f);
    }
    Ok(())
}

/// Whether solid s has no lone loop, and only flat faces. It looks at no face if this is known of the solid.
fn check_solid(arena: &Arena, s: u32, flat: Option<u32>) -> Result<(), Refusal>
    requires ready { IsReady arena.now }
    requires flat { IfSome flat (HasFlatFaces arena.now.model) }
    ensures { result ≡ verdict (first_refusal (faces_are_flat arena.now.model (faces_of arena.now.model s))) }
{
    match flat {
        Some(known) if known == s => Ok(()),
        _ => check_each_face(arena, s),
    }
}

/// Whether the solid that was looked at has vertices on both sides of the plane.
fn is_met(met: &Met) -> bool
    ensures { result ≡ met.now.above && met.now.below }
{
    met.above && met.below
}

/// If the faces, which straddle the plane, can be cut: these faces, and the pairs of their cut places, one face after the other.
fn check_faces(
    alloc: Global,
    arena: &Arena,
    plane: Plane,
    sides: &mut Sides,
    crossings: Crossings<'_>,
    faces: &[FaceMet],
    places: &[HalfEdge],
) -> Result<Result<(Vec<PairedFace>, Vec<Pair>), Refusal>, AllocError>
    requires ready { IsReady arena.now }
    requires plane { IsCutPlane plane }
    requires crossings { AreCrossings arena.now.model plane crossings.edges.now crossings.cut.now }
    requires sides { AreSides arena.now.model plane sides.old }
    requires whole { AreFacesAlong arena.now.model plane crossings.edges.now (faces_in faces.now) }
    requires told { AreTold arena.now.model plane faces.now (map code places.now) }
    ensures sides { AreSides arena.now.model plane sides.new }
    ensures accepted { IfOk result (λ checked. IfOk checked (λ _. first_refusal (straddling_conditions arena.now.model plane (faces_in faces.now)) ≡ None)) }
    ensures faces { IfOk result (λ checked. IfOk checked (λ paired. paired.0.items ≡ map (paired_face arena.now.model plane) (faces_in faces.now))) }
    ensures pairs { IfOk result (λ checked. IfOk checked (λ paired. map codes paired.1.items ≡ all_pairs arena.now.model plane (faces_in faces.now))) }
    ensures refused { IfOk result (λ checked. IfErr checked (λ refusal. first_refusal (straddling_conditions arena.now.model plane (faces_in faces.now)) ≡ Some refusal)) }
{
    if let Some(f) = first_flawed(Flaw::Touched, faces) {
        return Ok(Err(refusal(Why::TouchedFace, f)));
    }
    if let Some(f) = first_flawed(Flaw::CutOften, faces) {
        return Ok(Err(refusal(Why::CutOften, f)));
    }
    match pairs_of_faces(alloc, arena, plane, sides, crossings, faces, places)? {
        Ok(paired) => Ok(Ok(paired)),
        Err(f) => Ok(Err(refusal(Why::CutCrossed, f))),
    }
}

/// If the plane can cut the edges that cross it and the faces that straddle it: what it cuts of solid s. What it meets of s is given.
fn check_cuts(
    alloc: Global,
    arena: &Arena,
    plane: Plane,
    sides: &mut Sides,
    s: u32,
    met: &Met,
) -> Result<Result<Cuts, Refusal>, AllocError>
    requires ready { IsReady arena.now }
    requires plane { IsCutPlane plane }
    requires sides { AreSides arena.now.model plane sides.old }
    requires met { IsSolidMet arena.now.model plane s met.now }
    ensures sides { AreSides arena.now.model plane sides.new }
    ensures accepted { IfOk result (λ checked. IfOk checked (λ _. first_refusal (cut_conditions arena.now.model plane (crossing_edges arena.now.model plane s) (straddling_faces arena.now.model plane s)) ≡ None)) }
    ensures cuts { IfOk result (λ checked. IfOk checked (λ cuts. AreCuts arena.now.model plane s cuts)) }
    ensures refused { IfOk result (λ checked. IfErr checked (λ refusal. first_refusal (cut_conditions arena.now.model plane (crossing_edges arena.now.model plane s) (straddling_faces arena.now.model plane s)) ≡ Some refusal)) }
{
    let edges = met.looked.edges.as_slice();
    let cut = match cut_edges(alloc, arena, plane, edges)? {
        Ok(cut) => cut,
        Err(e) => return Ok(Err(refusal(Why::NotLattice, e))),
    };
    let crossings = Crossings {
        edges,
        cut: cut.as_slice(),
    };
    let places = met.looked.places.as_slice();
    let straddling = met.faces.as_slice();
    let (faces, pairs) = match check_faces(
        alloc, arena, plane, sides, crossings, straddling, places,
    )? {
        Ok(paired) => paired,
        Err(refusal) => return Ok(Err(refusal)),
    };
    match check_left(arena, edges.len().min(TOO_MANY), pairs.len().min(TOO_MANY)) {
        Ok(()) => Ok(Ok(Cuts {
            edges: cut,
            faces,
            pairs,
        })),
        Err(refusal) => Ok(Err(refusal)),
    }
}

/// If the plane meets solid s, and can cut the edges that cross it and the faces that straddle it: what it cuts of s.
fn check_section(
    alloc: Global,
    arena: &Arena,
    plane: Plane,
    sides: &mut Sides,
    s: u32,
) -> Result<Result<Cuts, Refusal>, AllocError>
    requires ready { IsReady arena.now }
    requires plane { IsCutPlane plane }
    requires sides { AreSides arena.now.model plane sides.old }
    ensures accepted { IfOk result (λ checked. IfOk checked (λ _. first_refusal (sectioning_conditions arena.now.model s plane) ≡ None)) }
    ensures cuts { IfOk result (λ checked. IfOk checked (λ cuts. AreCuts arena.now.model plane s cuts)) }
    ensures refused { IfOk result (λ checked. IfErr checked (λ refusal. first_refusal (sectioning_conditions arena.now.model s plane) ≡ Some refusal)) }
    ensures sides { AreSides arena.now.model plane sides.new }
{
    let met = meeting(alloc, arena, plane, sides, s)?;
    if !is_met(&met) {
        return Ok(Err(refusal(Why::PlaneMisses, s)));
    }
    check_cuts(alloc, arena, plane, sides, s, &met)
}

/// If a split of solid s by the plane can begin, with `upper` as the number of the upper part: what the plane cuts of s. This tests the conditions
/// that come before anything is changed, and returns what the tests have found.
///
/// Refused, in this order: NumberRange; NoSolid; SolidTaken; PlaneRange with 1 to 4 for the first of the plane's numbers that is out of range
/// (1,000,000,000 either way, for the last one 3,000,000,000,000,000,000), or with 0 if the first three are zero; LoneLoop with the least lone loop
/// of s; NotFlat with its least face that isn't flat; PlaneMisses with s if it has no vertex above the plane, or none below; NotLattice with the
/// least edge that crosses the plane off the lattice. The next three name the least face that straddles the plane and has a flaw: TouchedFace if it
/// touches the plane at a corner that is no cut place; CutOften if its outer loop has no cut place, or if a ring has none and the face doesn't have
/// exactly two; CutCrossed if it has two cut places at one point, or if, with the places in the order of their points, a pair isn't one up and one
/// down. Last comes NumbersSpent with 2, 3, 4 or 5 if no numbers are left for the faces, loops, edges or vertices that cutting the edges and the
/// faces takes.
///
/// It looks only at the faces of s, at each a few times; it doesn't look for lone loops and bent faces if s is known to have none, as solid `flat` is.
/// It computes on which side of the plane a corner lies unless this is noted in `sides`, and then notes it. It takes n log n steps for n edges that
/// cross, and for n cut places of a face. `AllocError` if memory is refused: none is asked for before the conditions up to NotFlat hold.
pub fn check_begin(
    alloc: Global,
    arena: &Arena,
    s: u32,
    plane: &Plane,
    upper: u32,
    flat: Option<u32>,
    sides: &mut Sides,
) -> Result<Result<Cuts, Refusal>, AllocError>
    requires ready { IsReady arena.now }
    requires flat { IfSome flat (HasFlatFaces arena.now.model) }
    requires sides { AreSides arena.now.model plane.now sides.old }
    ensures begins { IfOk result (λ checked. IfOk checked (λ _. first_refusal (first_conditions arena.now.model s plane.now upper) ≡ None)) }
    ensures cuts { IfOk result (λ checked. IfOk checked (λ cuts. AreCuts arena.now.model plane.now s cuts)) }
    ensures refused { IfOk result (λ checked. IfErr checked (λ refusal. first_refusal (first_conditions arena.now.model s plane.now upper) ≡ Some refusal)) }
    ensures memory { OnErr result (early_refusal arena.now.model s plane.now upper ≡ None) }
    ensures sides { AreSides arena.now.model plane.now sides.new }
{
    if let Err(refusal) = check_numbers(arena, s, upper) {
        return Ok(Err(refusal));
    }
    if let Err(refusal) = check_plane(*plane) {
        return Ok(Err(refusal));
    }
    if let Err(refusal) = check_solid(arena, s, flat) {
        return Ok(Err(refusal));
    }
    check_section(alloc, arena, *plane, sides, s)
}
