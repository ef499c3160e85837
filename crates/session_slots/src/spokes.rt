//! A half-edge that starts at a vertex.
ghost use Rattle.std.specs.Prelude.{◌≡◌, ◌≤◌, true};
ghost use Rattle.euler_conditions.specs.Store.{has_number};
ghost use Rattle.euler_conditions.specs.Ready.{IsReady};
ghost use Rattle.session_slots.specs.Spokes.{IsStart, IsStartOf, IsStartWithin};

use crate::readers::ends;
use euler_conditions::Arena;
use euler_operators::Kind;
use solid_walks::{Counters, counters_of};

/// First so many numbers on each side of the likely one are looked at.
const NEAR: u32 = 3;

/// A range of at most so many numbers isn't halved any more.
const FEW: u32 = 4;

/// The half-edge of an edge that starts at the vertex, if one does.
fn start_of(arena: &Arena, e: u32, v: u32) -> Option<u32>
    requires ready { IsReady arena.now }
    requires there { has_number arena.now Kind.Edge e ≡ true }
    ensures { IsStartOf arena.now.model e v result }
{
    let row = ends(arena, e);
    if row.from == v {
        return Some(2 * e);
    }
    if row.to == v {
        return Some(2 * e + 1);
    }
    None
}

/// A half-edge that starts at a vertex, of an edge above one number and up to another. It looks at these edges one after another.
#[inline(always)]
fn start_within(arena: &Arena, v: u32, above: u32, last: u32) -> Option<u32>
    requires { IsReady arena.now }
    ensures { IsStartWithin v above last arena.now.model result }
{
    let mut at = above;
    'edges: loop {
        let Some(e) = arena.after_number(Kind::Edge, at) else {
            return None;
        };
        if e > last {
            return None;
        }
        match start_of(arena, e, v) {
            Some(half) => return Some(half),
            None => at = e,
        }
    }
}

/// The likely place of a vertex's edges, if as many edges were made with each vertex.
fn even_place(greatest: Counters, v: u32) -> u32
    ensures { result ≤ greatest.edges }
{
    let place = u64::from(v) * u64::from(greatest.edges) / u64::from(greatest.vertices.max(1));
    place.min(u64::from(greatest.edges)) as u32
}

/// Whether both vertices of an edge are below this one.
fn is_below(arena: &Arena, e: u32, v: u32) -> bool
    requires { has_number arena.now Kind.Edge e ≡ true }
{
    let row = ends(arena, e);
    row.from < v && row.to < v
}

/// A number somewhat below the edge that was made with a vertex, if edges and vertices were made in the order of their numbers.
fn rising_place(arena: &Arena, v: u32, greatest: u32) -> u32
    ensures { result ≤ greatest }
{
    let mut low = 0;
    let mut high = greatest;
    'halves: while high - low > FEW {
        let middle = low + (high - low) / 2;
        match arena.after_number(Kind::Edge, middle) {
            Some(e) if e < high && is_below(arena, e, v) => low = e,
            _ => high = middle,
        }
    }
    low
}

/// A half-edge that starts at a vertex. It is looked for by halving, and, if that finds none, among all edges. This is a function of its own, since
/// it is seldom called.
#[inline(never)]
fn far_half_edge(arena: &Arena, greatest: u32, v: u32) -> Option<u32>
    requires { IsReady arena.now }
    ensures { IsStart v arena.now.model result }
{
    let low = rising_place(arena, v, greatest);
    if let Some(half) = start_within(arena, v, low, u32::MAX) {
        return Some(half);
    }
    start_within(arena, v, 0, low)
}

/// A half-edge that starts at a vertex.
///
/// Any such half-edge is right, so it looks first where one is likely: near the place of the vertex's edges if edges and vertices rise evenly. Then
/// it looks by halving for the edge that was made with the vertex, and at each edge from there on. If neither finds one, it looks at all others.
pub fn vertex_half_edge(arena: &Arena, v: u32) -> Option<u32>
    requires { IsReady arena.now }
    ensures { IsStart v arena.now.model result }
{
    let greatest = counters_of(arena);
    let place = even_place(greatest, v);
    if let Some(half) = start_within(
        arena,
        v,
        place.saturating_sub(NEAR),
        place.saturating_add(NEAR),
    ) {
        return Some(half);
    }
    far_half_edge(arena, greatest.edges, v)
}
