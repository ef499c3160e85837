//! Edges between listed faces and others.
ghost use Rattle.std.specs.Prelude.{◌≡◌, ◌≢◌, ℕ, true, false, not, nat_eq};
ghost use Rattle.euler_operators.specs.Common.{code, mate, is_ring_of, face_at, lists, strictly_rises, torn_edge};
ghost use Rattle.halfedge_arena.specs.Store.{has_number};
ghost use Rattle.euler_conditions.specs.Ready.{IsReady};
ghost use Rattle.euler_conditions.specs.Parts.{LeadsOut, StaysIn, FaceLeadsOut, FaceStaysIn};

use crate::face_numbers::FaceNumbers;
use crate::{faces, halves};
use euler_operators::{Content, HALF_EDGE_CODES, HalfEdge, Kind};
use halfedge_arena::Arena;

/// Whether face f stands in the rising list.
fn listed(faces: &FaceNumbers<'_>, f: u32) -> bool
    requires { strictly_rises faces.now ≡ true }
    ensures { result ≡ lists faces.now f }
{
    let mut low = 0;
    let mut high = faces.len();
    'search: while low < high {
        let middle = low + (high - low) / 2;
        let face = faces.get(middle);
        if face == f {
            return true;
        }
        if face < f {
            low = middle + 1;
        } else {
            high = middle;
        }
    }
    false
}

/// Whether the face on the other side of the half-edge's edge isn't listed.
fn leads_out(arena: &Arena, listed_faces: &FaceNumbers<'_>, h: HalfEdge) -> bool
    requires ready { IsReady arena.now }
    requires there { has_number arena.now Kind.Edge h.edge ≡ true }
    requires rising { strictly_rises listed_faces.now ≡ true }
    ensures { result ≡ not (lists listed_faces.now (face_at arena.now.model (mate (code h)))) }
{
    !listed(listed_faces, halves::face_at(arena, halves::mate(h)))
}

/// Whether an edge of the loop leads to a face that isn't listed.
#[tactic(auto, using(crate::proofs::Known::filled, euler_laws::proofs::Common::of_half))]
fn loop_leads_out(arena: &Arena, listed_faces: &FaceNumbers<'_>, l: u32) -> bool
    requires ready { IsReady arena.now }
    requires there { has_number arena.now Kind.Loop l ≡ true }
    requires rising { strictly_rises listed_faces.now ≡ true }
    ensures out { result ≡ true → LeadsOut arena.now.model listed_faces.now l }
    ensures within { result ≡ false → StaysIn arena.now.model listed_faces.now l }
{
    let Content::Ring(first) = arena.content(l) else {
        return false;
    };
    let mut h = first;
    'round: for _ in 0..HALF_EDGE_CODES {
        if leads_out(arena, listed_faces, h) {
            return true;
        }
        h = halves::next(arena, h);
        if halves::same(h, first) {
            return false;
        }
    }
    false
}

/// Whether an edge of the face's rings leads to a face that isn't listed.
fn rings_lead_out(arena: &Arena, listed_faces: &FaceNumbers<'_>, f: u32) -> bool
    requires ready { IsReady arena.now }
    requires there { has_number arena.now Kind.Face f ≡ true }
    requires rising { strictly_rises listed_faces.now ≡ true }
    ensures out { result ≡ true → FaceLeadsOut arena.now.model listed_faces.now f }
    ensures within { result ≡ false → (l : ℕ) → is_ring_of arena.now.model f l ≡ true → StaysIn arena.now.model listed_faces.now l }
{
    let mut last = 0;
    'rings: while let Some(ring) = arena.ring_after(f, last) {
        if loop_leads_out(arena, listed_faces, ring) {
            return true;
        }
        last = ring;
    }
    false
}

/// Whether an edge of the face leads to a face that isn't listed.
fn face_leads_out(arena: &Arena, listed_faces: &FaceNumbers<'_>, f: u32) -> bool
    requires ready { IsReady arena.now }
    requires there { has_number arena.now Kind.Face f ≡ true }
    requires rising { strictly_rises listed_faces.now ≡ true }
    ensures out { result ≡ true → FaceLeadsOut arena.now.model listed_faces.now f }
    ensures within { result ≡ false → FaceStaysIn arena.now.model listed_faces.now f }
{
    if loop_leads_out(arena, listed_faces, arena.outer(f)) {
        return true;
    }
    faces::has_rings(arena, f) && rings_lead_out(arena, listed_faces, f)
}

/// Whether an edge lies between a listed face and another.
pub(crate) fn is_torn(arena: &Arena, listed_faces: &FaceNumbers<'_>) -> bool
    requires ready { IsReady arena.now }
    requires there { (f : ℕ) → lists listed_faces.now f ≡ true → has_number arena.now Kind.Face f ≡ true }
    requires rising { strictly_rises listed_faces.now ≡ true }
    ensures { result ≡ not (nat_eq (torn_edge arena.now.model listed_faces.now) 0) }
{
    'faces: for i in 0..listed_faces.len() {
        if face_leads_out(arena, listed_faces, listed_faces.get(i)) {
            return true;
        }
    }
    false
}
