//! Counts of a solid by number.
ghost use Rattle.std.specs.Prelude.{◌≡◌, length, true};
ghost use Rattle.euler_operators.specs.Common.{faces_of};
ghost use Rattle.solid_walks.specs.Ready.{IsReady};
ghost use Rattle.solid_measure.specs.solid_counts.Counts.{answer, counts, rings_in, solid_refusal};
ghost use Rattle.shapes.specs.Common.{loops_in};
ghost use Rattle.solid_measure.specs.solid_counts.Sums.{loops_met};

use crate::solid_counts::loops::{face_met, together};
use crate::solid_counts::{Met, Tally};
use euler_operators::{Kind, Refusal, Why, is_number};
use solid_walks::{Arena, faces_of};

/// The refusal of a query about solid s, if there is one: NumberRange, then NoSolid.
pub(crate) fn refusal_of_solid(arena: &Arena, s: u32) -> Option<Refusal>
    ensures { result ≡ solid_refusal arena.now.model s }
{
    if !is_number(s) {
        return Some(Refusal {
            why: Why::NumberRange,
            number: s,
        });
    }
    if !arena.has(Kind::Solid, s) {
        return Some(Refusal {
            why: Why::NoSolid,
            number: s,
        });
    }
    None
}

/// What the loops of the solid's faces count for, and how many of them are rings.
#[tactic(auto, using(crate::proofs::solid_counts_laws::FaceSums::all_counted))]
fn solid_met(arena: &Arena, s: u32) -> (Met, u32)
    requires { IsReady arena.now }
    ensures met { result.0 ≡ loops_met arena.now.model (loops_in arena.now.model (faces_of arena.now.model s)) }
    ensures rings { result.1 ≡ length (rings_in arena.now.model (faces_of arena.now.model s)) }
{
    let mut sum = Met {
        vertices: 0,
        edges: 0,
    };
    let mut rings = 0;
    'faces: for f in faces_of(arena, s) {
        let more = arena.ring_count(f);
        sum = together(sum, face_met(arena, f, more));
        rings += more;
    }
    (sum, rings)
}

/// The counts of a solid that is there.
fn tally(arena: &Arena, s: u32) -> Tally
    requires { IsReady arena.now }
    ensures { result ≡ counts arena.now.model s }
{
    let (met, rings) = solid_met(arena, s);
    let faces = arena.face_count(s);
    Tally {
        v: met.vertices,
        e: met.edges,
        f: faces,
        r: rings,
        sum: i64::from(met.vertices + faces) - i64::from(met.edges + rings),
    }
}

/// How many vertices, edges, faces and rings solid s has, and `v - e + f - r`.
///
/// Refused, in this order: NumberRange, NoSolid. It walks over the solid's own faces and once round each of their loops; round a
/// vertex of d half-edges it takes about d log d steps.
pub fn counts(arena: &Arena, s: u32) -> Result<Tally, Refusal>
    requires { IsReady arena.now }
    ensures { result ≡ answer (solid_refusal arena.now.model s) (counts arena.now.model s) }
{
    if let Some(refusal) = refusal_of_solid(arena, s) {
        return Err(refusal);
    }
    Ok(tally(arena, s))
}
