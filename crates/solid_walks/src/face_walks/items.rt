//! The half-edges of a loop, one after another.
ghost use Rattle.std.specs.Prelude.{◌≡◌, true, false, map, IfOk};
ghost use Rattle.std.specs.Iterator.{YieldsFirstBy, item_count};
ghost use Rattle.euler_operators.specs.Common.{IsIn, least, rotate_to, code, content, cycle_of, has_half, items_of, is_lone, Sound};
ghost use Rattle.euler_conditions.specs.Store.{has_number};
ghost use Rattle.euler_conditions.specs.Ready.{IsReady};
ghost use Rattle.solid_walks.specs.Left.{IsRound, items_left, to_come};

use euler_conditions::{Arena, next_code};
use euler_operators::{Content, HalfEdge, Kind};
use std::alloc::{AllocError, Global};
use std::marker::Model;

/// The half-edges that a walk once round a loop has still to meet. Contracts see them as the list of their codes. `next` is the code of the next one,
/// or 0.
#[derive(Drop)]
pub struct Items<'a> {
    arena: &'a Arena,
    first: u32,
    next: u32,
}

impl<'a> Model for Items<'a> {
    ghost use Rattle.std.specs.Prelude.{ℕ, List};

    ghost Value = { List ℕ };

    ghost use Rattle.solid_walks.specs.Left.{items_left, IsRound};

    ghost view = { λ w. items_left w.arena.now.model w.first w.next };

    ghost invariant = { λ w. IsRound w.arena.now.model w.first w.next };
}

/// The half-edges of the loop in which h stands, once round from h on.
pub fn items_round(arena: &Arena, h: HalfEdge) -> Items<'_>
    requires sound { Sound arena.now.model }
    requires there { has_half arena.now.model (code h) ≡ true }
    ensures { result ≡ rotate_to (code h) (cycle_of arena.now.model (code h)) }
{
    let first = h.code();
    Items {
        arena,
        first,
        next: first,
    }
}

/// The code of the half-edge after `item` in their loop; 0 if that is `first`, with which the walk began.
#[inline]
fn item_after(arena: &Arena, first: u32, item: u32) -> u32
    requires sound { Sound arena.now.model }
    requires there { has_half arena.now.model first ≡ true }
    requires inside { IsIn item (cycle_of arena.now.model first) }
    ensures left { items_left arena.now.model first result ≡ to_come first (cycle_of arena.now.model first) item }
    ensures round { IsRound arena.now.model first result }
{
    let after = next_code(arena, item);
    if after == first { 0 } else { after }
}

impl<'a> Iterator for Items<'a> {
    type Item = HalfEdge;

    ghost next_gives = { YieldsFirstBy code (λ left. left) };

    ghost remaining = { item_count (λ left. left) };

    #[inline]
    fn next(&mut self) -> Option<HalfEdge> {
        let item = self.next;
        if item == 0 {
            return None;
        }
        self.next = item_after(self.arena, self.first, item);
        Some(HalfEdge::of_code(item))
    }
}

/// Some half-edge of loop l, which isn't lone.
pub fn some_item(arena: &Arena, l: u32) -> HalfEdge
    requires there { has_number arena.now Kind.Loop l ≡ true }
    requires ready { IsReady arena.now }
    requires held { is_lone (content arena.now.model l) ≡ false }
    ensures there { has_half arena.now.model (code result) ≡ true }
    ensures inside { cycle_of arena.now.model (code result) ≡ items_of (content arena.now.model l) }
{
    match arena.content(l) {
        Content::Ring(h) => h,
        Content::Lone(_) => unreachable!(),
    }
}

/// The least half-edge of the loop in which h stands.
pub fn least_item(arena: &Arena, h: HalfEdge) -> HalfEdge
    requires sound { Sound arena.now.model }
    requires there { has_half arena.now.model (code h) ≡ true }
    ensures there { has_half arena.now.model (code result) ≡ true }
    ensures same_loop { cycle_of arena.now.model (code result) ≡ cycle_of arena.now.model (code h) }
    ensures least { code result ≡ least (cycle_of arena.now.model (code h)) }
{
    let first = h.code();
    let mut least = first;
    let mut at = first;
    'round: loop {
        at = next_code(arena, at);
        if at == first {
            return HalfEdge::of_code(least);
        }
        least = least.min(at);
    }
}

/// The half-edges of the loop in which h stands, from the least on.
pub fn items_of(arena: &Arena, h: HalfEdge) -> Items<'_>
    requires sound { Sound arena.now.model }
    requires there { has_half arena.now.model (code h) ≡ true }
    ensures { result ≡ cycle_of arena.now.model (code h) }
{
    items_round(arena, least_item(arena, h))
}

/// The half-edges of the loop in which h stands, from the least on, in a vector that grows as they come. `AllocError` if memory is refused.
pub fn items_from(alloc: Global, arena: &Arena, h: HalfEdge) -> Result<Vec<HalfEdge>, AllocError>
    requires sound { Sound arena.now.model }
    requires there { has_half arena.now.model (code h) ≡ true }
    ensures { IfOk result (λ items. map code items.items ≡ cycle_of arena.now.model (code h)) }
{
    items_of(arena, h).collect(alloc)
}
