#![tactic(auto, using(crate::proofs::Known::filled))]
//! A corner's number, loop and vertex, and whether what it names is there.
ghost use Rattle.std.specs.Prelude.{◌≡◌, true, [], ◌∷◌};
ghost use Rattle.euler_operators.specs.Common.{content, corner_number, corner_known, corner_lone, corner_tail, corner_loop, is_lone, first_refusal, verdict};
ghost use Rattle.halfedge_arena.specs.Store.{has_number};
ghost use Rattle.euler_conditions.specs.Answer.{answer};
ghost use Rattle.euler_conditions.specs.Ready.{IsReady};

use crate::halves;
use euler_operators::{Content, Corner, Kind, Refusal, Why, refused};
use halfedge_arena::Arena;

/// The number that a corner names.
pub(crate) fn number(corner: Corner) -> u32
    ensures { result ≡ corner_number corner }
{
    match corner {
        Corner::At(h) => h.edge,
        Corner::Lone(l) => l,
    }
}

/// Tests that the edge or the loop of a corner is there.
#[inline(always)]
pub(crate) fn known(arena: &Arena, corner: Corner) -> Result<(), Refusal>
    ensures { result ≡ verdict (first_refusal (corner_known arena.now.model corner ∷ [])) }
{
    match corner {
        Corner::At(h) => {
            if arena.has(Kind::Edge, h.edge) {
                Ok(())
            } else {
                refused(Why::NoEdge, h.edge)
            }
        }
        Corner::Lone(l) => {
            if arena.has(Kind::Loop, l) {
                Ok(())
            } else {
                refused(Why::NoLoop, l)
            }
        }
    }
}

/// Whether the loop is lone.
pub fn is_lone(arena: &Arena, l: u32) -> bool
    requires ready { IsReady arena.now }
    requires there { has_number arena.now Kind.Loop l ≡ true }
    ensures { result ≡ is_lone (content arena.now.model l) }
{
    match arena.content(l) {
        Content::Lone(_) => true,
        Content::Ring(_) => false,
    }
}

/// The vertex of a corner. If the corner has no half-edge, its loop has to be lone.
#[inline(always)]
fn vertex(arena: &Arena, corner: Corner) -> Result<u32, Refusal>
    requires ready { IsReady arena.now }
    requires known { (corner_known arena.now.model corner).holds ≡ true }
    ensures { result ≡ answer (first_refusal (corner_lone arena.now.model corner ∷ [])) (corner_tail arena.now.model corner) }
{
    match corner {
        Corner::At(h) => Ok(halves::tail(arena, h)),
        Corner::Lone(l) => match arena.content(l) {
            Content::Lone(v) => Ok(v),
            Content::Ring(_) => Err(Refusal {
                why: Why::NotLone,
                number: l,
            }),
        },
    }
}

/// Whether two corners are the same.
fn are_one(from: Corner, to: Corner) -> bool
    ensures { result ≡ true → from ≡ to }
{
    match from {
        Corner::At(g) => match to {
            Corner::At(h) => halves::same(g, h),
            Corner::Lone(_) => false,
        },
        Corner::Lone(l) => match to {
            Corner::At(_) => false,
            Corner::Lone(k) => l == k,
        },
    }
}

/// The vertex of a corner that is given twice. The answer is that of `vertex` for each.
#[inline(always)]
fn twice(arena: &Arena, corner: Corner) -> Result<(u32, u32), Refusal>
    requires ready { IsReady arena.now }
    requires known { (corner_known arena.now.model corner).holds ≡ true }
    ensures { result ≡ answer (first_refusal (corner_lone arena.now.model corner ∷ [])) (corner_tail arena.now.model corner, corner_tail arena.now.model corner) }
{
    let both = vertex(arena, corner)?;
    Ok((both, both))
}

/// The vertices of two corners, if both are there: their edges or loops are there, and the loop of a corner without a half-edge is lone. A
/// corner that is given twice is looked at only once.
#[inline(always)]
pub(crate) fn vertices(arena: &Arena, from: Corner, to: Corner) -> Result<(u32, u32), Refusal>
    requires { IsReady arena.now }
    ensures { result ≡ answer (first_refusal (corner_known arena.now.model from ∷ corner_known arena.now.model to ∷ corner_lone arena.now.model from ∷ corner_lone arena.now.model to ∷ [])) (corner_tail arena.now.model from, corner_tail arena.now.model to) }
{
    known(arena, from)?;
    if are_one(from, to) {
        return twice(arena, from);
    }
    known(arena, to)?;
    let start = vertex(arena, from)?;
    let end = vertex(arena, to)?;
    Ok((start, end))
}

/// The loop in which a corner stands.
pub fn corner_loop(arena: &Arena, corner: Corner) -> u32
    requires ready { IsReady arena.now }
    requires known { (corner_known arena.now.model corner).holds ≡ true }
    ensures is { result ≡ corner_loop arena.now.model corner }
    ensures there { has_number arena.now Kind.Loop result ≡ true }
{
    match corner {
        Corner::At(h) => halves::loop_of(arena, h),
        Corner::Lone(l) => l,
    }
}
