//! Items by owner.
ghost use Rattle.std.specs.Prelude.{◌≡◌, ◌≢◌, ◌<◌, ◌≤◌, true, length, None, IfOk, OnOk, IsOk};
ghost use Rattle.boundary_model.specs.Table.{get, has};
ghost use Rattle.arena_rows.specs.owner_chains.Chains.{AreChained, IsAbove, IsBelow, head_at, items, link_at, view_of};
ghost use Rattle.arena_rows.specs.owner_chains.Owners.{no_owners, put, take, owned, IsNextItem, OwnersHaveGrown};

use crate::owner_chains::places::{above, comes_last, place_of};
use crate::owner_chains::rows::{Head, Link, gain, head_of, link_in, link_out, lose};
use raw_cells::Rows;
use std::alloc::{AllocError, Global};
use std::marker::Model;

/// Items that have owners, each by its number.
///
/// The items of an owner are chained from the least to the greatest. The owner also has their count, and a finger on the item that came
/// last or on a neighbour of the one that went last. Only `reach_owner`, `reach_item` and `copy` take memory.
///
/// The place of a number n among them is looked for from three sides at once: in the chain from the finger, and number by number down and
/// up from n. So it takes about as many steps as there are items between the finger and n, or numbers between n and the nearest item of the
/// owner, whichever is less.
#[derive(Drop)]
pub struct Chains {
    heads: Rows<Head>,
    links: Rows<Link>,
}

impl Model for Chains {
    ghost use Rattle.arena_rows.specs.owner_chains.Owners.{Owners, coded_owners};

    ghost Value = { Owners };

    ghost coded = { coded_owners };

    ghost use Rattle.arena_rows.specs.owner_chains.Chains.{view_of, AreChained};

    ghost view = { λ a. view_of a.heads a.links };

    ghost invariant = { λ a. AreChained a.heads a.links };
}

impl Chains {
    /// No item, and no room. It takes no memory.
    pub fn new(alloc: Global) -> Self
        ensures { result ≡ no_owners }
    {
        Self {
            heads: Rows::new(alloc),
            links: Rows::new(alloc),
        }
    }

    /// How many items an owner has. It walks over nothing.
    pub fn count(&self, owner: u32) -> u32
        ensures { result ≡ length (owned owner self.now.owner_of) }
    {
        head_of(&self.heads, owner).count
    }

    /// The least item of an owner above the number, or none. If the number is 0, an item of the owner or past the room, this is one step;
    /// otherwise its place is looked for.
    pub fn after(&self, owner: u32, number: u32) -> Option<u32>
        ensures { IsNextItem self.now.owner_of owner number result }
    {
        let next = above(&self.heads, &self.links, owner, number);
        if next == 0 { None } else { Some(next) }
    }

    /// Makes a number an item of an owner. The number is free, and both numbers have their room. Its place is looked for, and it is then
    /// the finger: items that come in order cost one step each. If none goes, the numbers up to N cost no more than about N log N in all,
    /// in whatever order they come.
    pub fn put(&mut self, owner: u32, item: u32)
        requires owner_room { owner < self.old.owners_end }
        requires room { item < self.old.items_end }
        requires some { item ≢ 0 }
        requires free { get self.old.owner_of item ≡ None }
        ensures { self.new ≡ put self.old item owner }
    {
        let head = head_of(&self.heads, owner);
        if head.count == 0 {
            let first = Link {
                owner,
                previous: 0,
                next: 0,
            };
            chain_in(&mut self.heads, &mut self.links, item, first, head);
        } else if comes_last(&self.links, head.finger, item) {
            let last = Link {
                owner,
                previous: head.finger,
                next: 0,
            };
            chain_in(&mut self.heads, &mut self.links, item, last, head);
        } else {
            put_within(&mut self.heads, &mut self.links, owner, item, head);
        }
    }

    /// Takes an item, which is there. The finger moves to a neighbour. It walks over nothing.
    pub fn take(&mut self, item: u32)
        requires { has self.old.owner_of item ≡ true }
        ensures { self.new ≡ take self.old item }
    {
        let gone = self.links.known(item);
        link_out(&mut self.links, item, gone);
        lose(&mut self.heads, gone);
    }

    /// Makes the rows reach to an owner's number, at most 1,000,000. An `Err` comes only if memory is short, and then all is as it was.
    pub fn reach_owner(&mut self, owner: u32) -> Result<(), AllocError>
        requires { owner ≤ 1000000 }
        ensures grown { OwnersHaveGrown self.old self.new }
        ensures ok { OnOk result (owner < self.new.owners_end) }
        ensures known { owner < self.old.owners_end → IsOk result }
    {
        self.heads.reach(owner)
    }

    /// Makes the rows reach to an item's number, at most 1,000,000. An `Err` comes only if memory is short, and then all is as it was.
    pub fn reach_item(&mut self, item: u32) -> Result<(), AllocError>
        requires { item ≤ 1000000 }
        ensures grown { OwnersHaveGrown self.old self.new }
        ensures ok { OnOk result (item < self.new.items_end) }
        ensures known { item < self.old.items_end → IsOk result }
    {
        self.links.reach(item)
    }

    /// The same items, owners and room, in memory of its own. An `Err` comes only if memory is short.
    pub fn copy(&self, alloc: Global) -> Result<Chains, AllocError>
        ensures { IfOk result (λ copy. copy ≡ self.now) }
    {
        Ok(Chains {
            heads: self.heads.copy(alloc)?,
            links: self.links.copy(alloc)?,
        })
    }
}

/// Puts a number at the place among an owner's items that its row `new` names.
#[inline(always)]
fn chain_in(heads: &mut Rows<Head>, links: &mut Rows<Link>, item: u32, new: Link, head: Head)
    requires chained { AreChained heads.old links.old }
    requires head { head ≡ head_at heads.old new.owner }
    requires owner_room { new.owner < length heads.old }
    requires room { item < length links.old }
    requires some { item ≢ 0 }
    requires free { link_at links.old item ≡ None }
    requires below { IsBelow (items links.old new.owner) item new.previous }
    requires next { IsAbove (items links.old new.owner) new.previous new.next }
    ensures chained { AreChained heads.new links.new }
    ensures put { view_of heads.new links.new ≡ put (view_of heads.old links.old) item new.owner }
{
    link_in(links, item, new);
    gain(heads, item, new, head);
}

/// Puts a number among an owner's items, and looks for its place.
#[inline(never)]
fn put_within(heads: &mut Rows<Head>, links: &mut Rows<Link>, owner: u32, item: u32, head: Head)
    requires chained { AreChained heads.old links.old }
    requires head { head ≡ head_at heads.old owner }
    requires owner_room { owner < length heads.old }
    requires room { item < length links.old }
    requires some { item ≢ 0 }
    requires free { link_at links.old item ≡ None }
    ensures chained { AreChained heads.new links.new }
    ensures put { view_of heads.new links.new ≡ put (view_of heads.old links.old) item owner }
{
    let place = place_of(heads, links, owner, head, item);
    let new = Link {
        owner,
        previous: place.previous,
        next: place.next,
    };
    chain_in(heads, links, item, new, head);
}
