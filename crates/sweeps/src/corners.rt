//! The corners of a face that is to be swept: how many there are, and which is the first that goes out of range.
ghost use Rattle.std.specs.Prelude.{◌≡◌, true, map, [], ◌∷◌};
ghost use Rattle.euler_operators.specs.Common.{code, has_half, content, cycle_of, tail};
ghost use Rattle.euler_conditions.specs.Store.{has_number};
ghost use Rattle.euler_conditions.specs.Ready.{IsReady};
ghost use Rattle.shapes.specs.Common.{corners, vertices_on};
ghost use Rattle.sweeps.specs.Corners.{joined, tally};

use euler_conditions::Arena;
use euler_operators::{Content, HalfEdge, Kind, Point, sum_in_range};
use solid_walks::{items_of, loops_of};

/// What is known of some corners that a vector moves: how many there are, or 1,000,001 if there are more; and the vertex of the first
/// corner whose moved point is out of range, if there is one.
#[derive(Clone, Copy)]
pub(crate) struct Tally {
    pub count: u32,
    pub far: Option<u32>,
}

/// The tally of no corner.
const NO_CORNER: Tally = Tally {
    count: 0,
    far: None,
};

/// The tally of one corner.
#[tactic(auto, unfolding(crate::specs::Corners::tally))]
fn corner_tally(arena: &Arena, shift: Point, v: u32) -> Tally
    requires ready { IsReady arena.now }
    requires there { has_number arena.now Kind.Vertex v ≡ true }
    ensures { result ≡ tally arena.now.model shift (v ∷ []) }
{
    let far = if sum_in_range(arena.point(v), shift) {
        None
    } else {
        Some(v)
    };
    Tally { count: 1, far }
}

/// The tally of the corner at which a half-edge starts.
fn item_tally(arena: &Arena, shift: Point, item: HalfEdge) -> Tally
    requires ready { IsReady arena.now }
    requires there { has_half arena.now.model (code item) ≡ true }
    ensures { result ≡ tally arena.now.model shift (tail arena.now.model (code item) ∷ []) }
{
    corner_tally(arena, shift, arena.tail(item))
}

/// The tally of some corners and then some others.
#[tactic(auto, unfolding(crate::specs::Corners::joined))]
fn joined(a: Tally, b: Tally) -> Tally
    ensures { result ≡ joined a b }
{
    Tally {
        count: a.count.saturating_add(b.count).min(1_000_001),
        far: a.far.or(b.far),
    }
}

/// The tally of the corners of the loop in which h stands.
fn ring_tally(arena: &Arena, shift: Point, h: HalfEdge) -> Tally
    requires ready { IsReady arena.now }
    requires there { has_half arena.now.model (code h) ≡ true }
    ensures { result ≡ tally arena.now.model shift (map (tail arena.now.model) (cycle_of arena.now.model (code h))) }
{
    items_of(arena, h).fold(
        NO_CORNER,
        |met, item| joined(met, item_tally(arena, shift, item)),
    )
}

/// The tally of the corners of loop l.
#[tactic(auto, using(euler_conditions::proofs::Known::filled, crate::proofs::Tallies::ring_told))]
fn loop_tally(arena: &Arena, shift: Point, l: u32) -> Tally
    requires ready { IsReady arena.now }
    requires there { has_number arena.now Kind.Loop l ≡ true }
    ensures { result ≡ tally arena.now.model shift (vertices_on arena.now.model (content arena.now.model l)) }
{
    match arena.content(l) {
        Content::Lone(v) => corner_tally(arena, shift, v),
        Content::Ring(h) => ring_tally(arena, shift, h),
    }
}

/// The tally of the corners of face f: those of its outer loop, and then those of its rings in rising order.
pub(crate) fn face_tally(arena: &Arena, shift: Point, f: u32) -> Tally
    requires ready { IsReady arena.now }
    requires there { has_number arena.now Kind.Face f ≡ true }
    ensures { result ≡ tally arena.now.model shift (corners arena.now.model f) }
{
    loops_of(arena, f).fold(NO_CORNER, |met, l| joined(met, loop_tally(arena, shift, l)))
}
