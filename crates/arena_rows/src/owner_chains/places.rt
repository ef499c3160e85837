//! The place of a number among an owner's items.
ghost use Rattle.std.specs.Prelude.{◌≡◌, ◌≢◌, ◌<◌, true, false, length, IsSome};
ghost use Rattle.arena_rows.specs.owner_chains.Chains.{AreChained, IsAbove, IsBelow, IsClear, LeadBack, TellsPlace, head_at, items, link_at, next_in};

use crate::owner_chains::rows::{Head, Link, follower, head_of};
use raw_cells::Rows;

/// Two items of an owner, or 0, between which a number stands.
#[derive(Clone, Copy)]
pub(crate) struct Place {
    /// The greatest item below the number, or 0.
    pub(crate) previous: u32,
    /// The least item above that one, or 0.
    pub(crate) next: u32,
}

/// Whether the number is an item of an owner.
fn is_item(links: &Rows<Link>, owner: u32, number: u32) -> bool
    ensures { result ≡ items links.now owner number }
{
    match links.find(number) {
        Some(link) => link.owner == owner,
        None => false,
    }
}

/// Takes one step in an owner's chain from `at` towards the place of the number, which is the greatest item below the number, or 0. If `at`
/// is this place, it stays there.
fn toward(heads: &Rows<Head>, links: &Rows<Link>, owner: u32, at: u32, number: u32) -> u32
    requires chained { AreChained heads.now links.now }
    requires item { at ≢ 0 → items links.now owner at ≡ true }
    requires some { number ≢ 0 }
    requires free { items links.now owner number ≡ false }
    ensures item { result ≢ 0 → items links.now owner result ≡ true }
    ensures place { result ≡ at → IsBelow (items links.now owner) number result }
{
    if at > number {
        return match links.find(at) {
            Some(link) => link.previous,
            None => 0,
        };
    }
    let next = follower(heads, links, owner, at);
    if next == 0 || next > number { at } else { next }
}

/// The greatest item of an owner below the number, or 0, if one of the two numbers at this distance from it is an item. No number nearer to
/// it is an item.
fn beside(links: &Rows<Link>, owner: u32, number: u32, distance: u32) -> Option<u32>
    requires back { LeadBack links.now }
    requires apart { 0 < distance }
    requires lower { distance < number }
    requires limit { number < 1000001 }
    requires clear { IsClear (items links.now owner) number distance }
    ensures { TellsPlace (items links.now owner) number distance result }
{
    let low = number - distance;
    if is_item(links, owner, low) {
        return Some(low);
    }
    match links.find(number + distance) {
        Some(high) if high.owner == owner => Some(high.previous),
        _ => None,
    }
}

/// The greatest item of an owner below the number, or 0; the number is none of its items. It searches from three sides in turn, and ends
/// when the first one answers: in the chain from the owner's finger, and number by number down and up from this number.
pub(crate) fn below(heads: &Rows<Head>, links: &Rows<Link>, owner: u32, number: u32) -> u32
    requires chained { AreChained heads.now links.now }
    requires some { number ≢ 0 }
    requires within { number < length links.now }
    requires free { items links.now owner number ≡ false }
    ensures { IsBelow (items links.now owner) number result }
{
    let mut at = head_of(heads, owner).finger;
    'sides: for distance in 1..number {
        let next = toward(heads, links, owner, at, number);
        if next == at {
            return at;
        }
        if let Some(place) = beside(links, owner, number, distance) {
            return place;
        }
        at = next;
    }
    0
}

/// Whether it is known that the number comes after the finger, which is then the last item of its owner. If the answer is no, nothing is
/// known.
#[inline(always)]
pub(crate) fn comes_last(links: &Rows<Link>, finger: u32, number: u32) -> bool
    requires { finger ≢ 0 → IsSome (link_at links.now finger) }
    ensures { result ≡ true → (finger ≢ 0) × (finger < number) × (next_in (link_at links.now finger) ≡ 0) }
{
    finger != 0 && finger < number && links.known(finger).next == 0
}

/// The place of the number among an owner's items; the number is none of them. This is one step if the number comes right after the finger,
/// otherwise the search from three sides.
pub(crate) fn place_of(
    heads: &Rows<Head>,
    links: &Rows<Link>,
    owner: u32,
    head: Head,
    number: u32,
) -> Place
    requires chained { AreChained heads.now links.now }
    requires head { head ≡ head_at heads.now owner }
    requires some { number ≢ 0 }
    requires within { number < length links.now }
    requires free { items links.now owner number ≡ false }
    ensures below { IsBelow (items links.now owner) number result.previous }
    ensures next { IsAbove (items links.now owner) result.previous result.next }
{
    if head.finger == 0 || head.finger > number {
        return search(heads, links, owner, number);
    }
    let next = links.known(head.finger).next;
    if next != 0 && next < number {
        return search(heads, links, owner, number);
    }
    Place {
        previous: head.finger,
        next,
    }
}

/// The place of the number among an owner's items, wherever the finger is.
#[inline(never)]
fn search(heads: &Rows<Head>, links: &Rows<Link>, owner: u32, number: u32) -> Place
    requires chained { AreChained heads.now links.now }
    requires some { number ≢ 0 }
    requires within { number < length links.now }
    requires free { items links.now owner number ≡ false }
    ensures below { IsBelow (items links.now owner) number result.previous }
    ensures next { IsAbove (items links.now owner) result.previous result.next }
{
    let previous = below(heads, links, owner, number);
    Place {
        previous,
        next: follower(heads, links, owner, previous),
    }
}

/// The least item of an owner above the number, or 0. This is one step if the number is 0, an item of the owner or past the rows; otherwise
/// it is the search for its place.
pub(crate) fn above(heads: &Rows<Head>, links: &Rows<Link>, owner: u32, number: u32) -> u32
    requires { AreChained heads.now links.now }
    ensures { IsAbove (items links.now owner) number result }
{
    if number == 0 || is_item(links, owner, number) {
        return follower(heads, links, owner, number);
    }
    if !links.reaches(number) {
        return 0;
    }
    search(heads, links, owner, number).next
}
