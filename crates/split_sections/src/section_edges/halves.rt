//! The halves of the section edges that lie in the faces below.
ghost use Rattle.std.specs.Prelude.{◌≡◌, ◌∷◌, ◌++◌, [], ℕ, true, cond, not, filter, map, IfOk, OnOk};
ghost use Rattle.euler_operators.specs.Common.{code, content, cycle_of, face_at, has_half, is_above, items_of, lists, strictly_rises, IsCutPlane, SameItems};
ghost use Rattle.euler_conditions.specs.Ready.{IsReady};
ghost use Rattle.euler_conditions.specs.Store.{has_number};
ghost use Rattle.shapes.specs.Common.{below_halves, boundary, start};
ghost use Rattle.split_checks.specs.cut_places.Noted.{AreSides};
ghost use Rattle.split_sections.specs.section_cycles.Halves.{AreThere};
ghost use Rattle.split_sections.specs.section_edges.BelowHalves.{lies_below, lying_below, AreSectionHalves};
ghost use Rattle.split_sections.specs.section_edges.LowMates.{low_mates};

use euler_conditions::{Arena, next_code};
use euler_operators::{Content, HalfEdge, Kind, Plane, Sign};
use split_checks::{Sides, same, start_side};
use std::alloc::AllocError;

/// Whether the half-edge of a code doesn't start above the plane.
#[inline(always)]
fn starts_low(arena: &Arena, plane: Plane, sides: &mut Sides, at: u32) -> bool
    requires ready { IsReady arena.now }
    requires there { has_half arena.now.model at ≡ true }
    requires plane { IsCutPlane plane }
    requires sides { AreSides arena.now.model plane sides.old }
    ensures is { result ≡ not (is_above plane (start arena.now.model at)) }
    ensures sides { AreSides arena.now.model plane sides.new }
{
    let side = start_side(arena, plane, sides, HalfEdge::of_code(at));
    !same(side, Sign::Above)
}

/// Adds the half-edge, if it is wanted.
fn push_if(wanted: bool, h: HalfEdge, found: &mut Vec<HalfEdge>) -> Result<(), AllocError>
    ensures { OnOk result (map code found.new.items ≡ map code found.old.items ++ cond wanted (code h ∷ []) []) }
{
    if wanted {
        found.push(h)?;
    }
    Ok(())
}

/// Adds the mates of the half-edges in the loop of h that neither start nor end above the plane, in their order from h on.
#[inline(always)]
fn push_mates_round(
    arena: &Arena,
    plane: Plane,
    sides: &mut Sides,
    h: HalfEdge,
    mates: &mut Vec<HalfEdge>,
) -> Result<(), AllocError>
    requires ready { IsReady arena.now }
    requires there { has_half arena.now.model (code h) ≡ true }
    requires plane { IsCutPlane plane }
    requires sides { AreSides arena.now.model plane sides.old }
    ensures mates { OnOk result (SameItems (map code mates.new.items) (map code mates.old.items ++ low_mates arena.now.model plane (cycle_of arena.now.model (code h)))) }
    ensures sides { AreSides arena.now.model plane sides.new }
{
    let first = h.code();
    let mut at = first;
    let mut low = starts_low(arena, plane, sides, first);
    'round: loop {
        let next = next_code(arena, at);
        let next_low = starts_low(arena, plane, sides, next);
        push_if(low & next_low, HalfEdge::of_code(at).mate(), mates)?;
        if next == first {
            return Ok(());
        }
        at = next;
        low = next_low;
    }
}

/// Adds the mates of the half-edges of loop l that neither start nor end above the plane.
#[inline(always)]
fn push_mates_of_loop(
    arena: &Arena,
    plane: Plane,
    sides: &mut Sides,
    l: u32,
    mates: &mut Vec<HalfEdge>,
) -> Result<(), AllocError>
    requires ready { IsReady arena.now }
    requires there { has_number arena.now Kind.Loop l ≡ true }
    requires plane { IsCutPlane plane }
    requires sides { AreSides arena.now.model plane sides.old }
    ensures mates { OnOk result (SameItems (map code mates.new.items) (map code mates.old.items ++ low_mates arena.now.model plane (items_of (content arena.now.model l)))) }
    ensures sides { AreSides arena.now.model plane sides.new }
{
    match arena.content(l) {
        Content::Lone(_) => Ok(()),
        Content::Ring(h) => push_mates_round(arena, plane, sides, h, mates),
    }
}

/// Adds the mates of the half-edges of face f that neither start nor end above the plane.
pub(crate) fn push_mates(
    arena: &Arena,
    plane: Plane,
    sides: &mut Sides,
    f: u32,
    mates: &mut Vec<HalfEdge>,
) -> Result<(), AllocError>
    requires ready { IsReady arena.now }
    requires there { has_number arena.now Kind.Face f ≡ true }
    requires plane { IsCutPlane plane }
    requires sides { AreSides arena.now.model plane sides.old }
    ensures mates { OnOk result (SameItems (map code mates.new.items) (map code mates.old.items ++ low_mates arena.now.model plane (boundary arena.now.model f))) }
    ensures sides { AreSides arena.now.model plane sides.new }
{
    push_mates_of_loop(arena, plane, sides, arena.outer(f), mates)?;
    let mut last = 0;
    'rings: while let Some(l) = arena.ring_after(f, last) {
        push_mates_of_loop(arena, plane, sides, l, mates)?;
        last = l;
    }
    Ok(())
}

/// Whether the half-edge lies in one of the faces above, which rise.
fn lies_above(arena: &Arena, above: &[u32], h: HalfEdge) -> bool
    requires ready { IsReady arena.now }
    requires rises { strictly_rises above.now ≡ true }
    requires there { has_half arena.now.model (code h) ≡ true }
    ensures { result ≡ lists above.now (face_at arena.now.model (code h)) }
{
    let face = arena.face_of(arena.loop_of(h));
    above.binary_search(&face).is_ok()
}

/// Keeps of some half-edges those that lie in none of the faces above, which rise.
fn keep_below(arena: &Arena, above: &[u32], halves: &mut Vec<HalfEdge>)
    requires ready { IsReady arena.now }
    requires rises { strictly_rises above.now ≡ true }
    requires there { AreThere arena.now.model (map code halves.old.items) }
    ensures { halves.new.items ≡ filter (λ h. lies_below arena.now.model above.now (code h)) halves.old.items }
{
    let mut kept = 0;
    let mut i = 0;
    'halves: while i < halves.len() {
        let half = halves[i];
        if !lies_above(arena, above, half) {
            halves[kept] = half;
            kept += 1;
        }
        i += 1;
    }
    halves.truncate(kept);
}

/// Of some half-edges those that lie in no face above, by rising edge. `above` has these faces, in rising order. If those are the halves of the
/// section edges of a solid in its faces that aren't above, in any order, this puts them in order. It takes n log n steps for n of them.
pub(crate) fn below_halves(
    arena: &Arena,
    above: &[u32],
    mates: Vec<HalfEdge>,
) -> Result<Vec<HalfEdge>, AllocError>
    requires ready { IsReady arena.now }
    requires rises { strictly_rises above.now ≡ true }
    requires there { AreThere arena.now.model (map code mates.items) }
    ensures { IfOk result (λ found. (s : ℕ) → AreSectionHalves arena.now.model above.now s (lying_below arena.now.model above.now (map code mates.items)) → map code found.items ≡ below_halves arena.now.model above.now s) }
{
    let mut found = mates;
    keep_below(arena, above, &mut found);
    found.sort_by_key(|h| h.edge)?;
    Ok(found)
}
