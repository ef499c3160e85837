//! The below halves by the vertices at which they start.
ghost use Rattle.std.specs.Prelude.{◌≡◌, ◌≤◌, ◌<◌, ℕ, true, None, IfOk, IfSome, map};
ghost use Rattle.std.specs.List.Sorted.{IsNonDecreasingBy, IsPermutation};
ghost use Rattle.euler_operators.specs.Common.{IsApart, IsIn, code, count, mate, has_half, tail};
ghost use Rattle.euler_conditions.specs.Ready.{IsReady};
ghost use Rattle.shapes.specs.Common.{least_branched, section_ends};
ghost use Rattle.split_sections.specs.Common.{AreThere, AreBalanced, AreStarts, IsPlaceOf, start_at, start_vertices, starting};

use euler_conditions::Arena;
use euler_operators::HalfEdge;
use std::alloc::{AllocError, Global};

/// A half-edge, and the vertex at which it starts.
#[derive(Clone, Copy)]
pub(crate) struct Start {
    pub vertex: u32,
    pub half: HalfEdge,
}

/// Each of these half-edges with the vertex at which it starts, by rising vertex.
fn sorted_starts(
    alloc: Global,
    arena: &Arena,
    halves: &[HalfEdge],
) -> Result<Vec<Start>, AllocError>
    requires ready { IsReady arena.now }
    requires there { AreThere arena.now.model (map code halves.now) }
    ensures same { IfOk result (λ starts. IsPermutation (map (start_at arena.now.model) halves.now) starts.items) }
    ensures rising { IfOk result (λ starts. IsNonDecreasingBy (λ s. s.vertex) starts.items) }
{
    let mut starts = Vec::with_capacity(alloc, halves.len())?;
    let mut rest = halves;
    'halves: while let [half, others @ ..] = rest {
        starts.push(Start {
            vertex: arena.tail(*half),
            half: *half,
        })?;
        rest = others;
    }
    starts.sort_by_key(|start| start.vertex)?;
    Ok(starts)
}

/// The least vertex at which several of these half-edges start, if there is one. They stand by rising vertex.
fn least_shared(starts: &[Start]) -> Option<u32>
    requires rising { IsNonDecreasingBy (λ s. s.vertex) starts.now }
    requires real { count 0 (start_vertices starts.now) ≡ 0 }
    ensures shared { IfSome result (λ v. (2 ≤ count v (start_vertices starts.now)) × ((u : ℕ) → u < v → count u (start_vertices starts.now) ≤ 1)) }
    ensures apart { (result ≡ None) → IsApart (start_vertices starts.now) }
{
    let mut before = 0;
    let mut rest = starts;
    'starts: while let [start, others @ ..] = rest {
        if start.vertex == before {
            return Some(before);
        }
        before = start.vertex;
        rest = others;
    }
    None
}

/// These half-edges by rising vertex at which they start. If as many start at each vertex as end there, also the least vertex at which more
/// than two of their edges meet, if there is one. It takes n log n steps for n half-edges.
pub(crate) fn starts_of(
    alloc: Global,
    arena: &Arena,
    halves: &[HalfEdge],
) -> Result<(Vec<Start>, Option<u32>), AllocError>
    requires ready { IsReady arena.now }
    requires there { AreThere arena.now.model (map code halves.now) }
    ensures starts { IfOk result (λ found. (found.1 ≡ None) → AreStarts arena.now.model (map code halves.now) found.0.items) }
    ensures branched { IfOk result (λ found. AreBalanced arena.now.model (map code halves.now) → found.1 ≡ least_branched arena.now.model (section_ends arena.now.model (map code halves.now))) }
{
    let starts = sorted_starts(alloc, arena, halves)?;
    let branched = least_shared(starts.as_slice());
    Ok((starts, branched))
}

/// At which place the start at this vertex stands. There is one, and they stand by rising vertex.
fn place_of(starts: &[Start], vertex: u32) -> usize
    requires rising { IsNonDecreasingBy (λ s. s.vertex) starts.now }
    requires listed { IsIn vertex (start_vertices starts.now) }
    ensures { IsPlaceOf starts.now vertex result }
{
    starts.partition_point(|start| start.vertex < vertex)
}

/// The half-edge that starts where this one ends.
pub(crate) fn next_half(arena: &Arena, starts: &[Start], half: HalfEdge) -> HalfEdge
    requires ready { IsReady arena.now }
    requires there { has_half arena.now.model (code half) ≡ true }
    requires starts { AreStarts arena.now.model (starting starts.now) starts.now }
    requires leads { IsIn (tail arena.now.model (mate (code half))) (start_vertices starts.now) }
    ensures listed { IsIn (code result) (starting starts.now) }
    ensures follows { tail arena.now.model (code result) ≡ tail arena.now.model (mate (code half)) }
{
    let vertex = arena.tail(half.mate());
    starts[place_of(starts, vertex)].half
}
