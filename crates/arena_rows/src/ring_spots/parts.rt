//! Rings that are cut and joined. Only the labels of the shorter part are written.
ghost use Rattle.std.specs.Prelude.{◌≡◌, ◌≢◌, ◌≤◌, true, false, length};
ghost use Rattle.std.specs.FinMap.{contains_key};
ghost use Rattle.raw_ring.specs.Rings.{spot};
ghost use Rattle.boundary_model.specs.Items.{IsIn};
ghost use Rattle.arena_rows.specs.ring_spots.Spots.{live, label, ring, labelled, spliced, AreRings};
ghost use Rattle.arena_rows.specs.ring_spots.Labels.{loop_at, in_loops, AreLabelled, AreLabelledBut};

use crate::ring_spots::labels::{Labels, hand_out, loop_at, stand_for, take_back};
use crate::ring_spots::links;
use boundary_model::HALF_EDGE_CODES;
use raw_ring::Rings;

/// Cuts the ring of a and b in two. The ring stood in loop `kept`, and a's part stays there; b's part then stands in loop l, or is loose if
/// l is 0.
///
/// It walks twice round the shorter part.
pub(crate) fn cut(rings: &mut Rings, labels: &mut Labels, a: u32, b: u32, l: u32, kept: u32)
    requires whole { AreLabelled (spot rings.old) (contains_key rings.old) labels.old }
    requires a { live (spot rings.old) a ≡ true }
    requires together { IsIn b (ring (spot rings.old) a) }
    requires apart { a ≢ b }
    requires kept { kept ≡ loop_at labels.old.loops.items (label (spot rings.old) a) }
    ensures whole { AreLabelled (spot rings.new) (contains_key rings.new) labels.new }
    ensures spots { in_loops labels.new.loops.items (spot rings.new) ≡ labelled (spliced (in_loops labels.old.loops.items (spot rings.old)) a b) l (ring (spliced (in_loops labels.old.loops.items (spot rings.old)) a b) b) }
    ensures known { contains_key rings.new ≡ contains_key rings.old }
{
    links::splice(rings, a, b);
    if is_shorter(rings, a, b) {
        stand_for(labels, rings.label(b), l);
        give_label(rings, labels, a, kept);
    } else {
        give_label(rings, labels, b, l);
    }
}

/// Joins the rings of a and b, which stand in different loops, or one of which stands in none. The joint ring stands in a's loop, which is
/// `kept`.
///
/// It walks twice round the shorter ring.
#[inline(always)]
pub(crate) fn join(rings: &mut Rings, labels: &mut Labels, a: u32, b: u32, kept: u32)
    requires whole { AreLabelled (spot rings.old) (contains_key rings.old) labels.old }
    requires a { live (spot rings.old) a ≡ true }
    requires b { live (spot rings.old) b ≡ true }
    requires apart { loop_at labels.old.loops.items (label (spot rings.old) b) ≢ loop_at labels.old.loops.items (label (spot rings.old) a) }
    requires kept { kept ≡ loop_at labels.old.loops.items (label (spot rings.old) a) }
    ensures whole { AreLabelled (spot rings.new) (contains_key rings.new) labels.new }
    ensures spots { in_loops labels.new.loops.items (spot rings.new) ≡ spliced (labelled (in_loops labels.old.loops.items (spot rings.old)) (loop_at labels.old.loops.items (label (spot rings.old) a)) (ring (spot rings.old) b)) a b }
    ensures known { contains_key rings.new ≡ contains_key rings.old }
{
    if keeps_first(rings, a, b) {
        take_back(labels, rings.label(b));
        links::set_labels(rings, b, rings.label(a));
    } else {
        let shared = rings.label(b);
        stand_for(labels, shared, kept);
        take_back(labels, rings.label(a));
        links::set_labels(rings, a, shared);
    }
    links::splice(rings, a, b);
}

/// Whether the label of a's ring is that of the joint ring: the other ring is the shorter one, or has label 0.
fn keeps_first(rings: &Rings, a: u32, b: u32) -> bool
    requires rings { AreRings (spot rings.now) }
    requires a { live (spot rings.now) a ≡ true }
    requires b { live (spot rings.now) b ≡ true }
    requires apart { label (spot rings.now) b ≢ label (spot rings.now) a }
    ensures first { result ≡ true → label (spot rings.now) a ≢ 0 }
    ensures second { result ≡ false → label (spot rings.now) b ≢ 0 }
{
    rings.label(b) == 0 || (rings.label(a) != 0 && !is_shorter(rings, a, b))
}

/// The loop in which a live code stands, or 0.
pub(crate) fn loop_of(rings: &Rings, labels: &Labels, code: u32) -> u32
    requires there { live (spot rings.now) code ≡ true }
    requires whole { AreLabelled (spot rings.now) (contains_key rings.now) labels.now }
    ensures { result ≡ loop_at labels.now.loops.items (label (spot rings.now) code) }
{
    loop_at(labels, rings.label(code))
}

/// Puts the ring of a code into loop l, or into none if l is 0. It writes one number, and the label of a code that had none.
pub(crate) fn put_in_loop(rings: &mut Rings, labels: &mut Labels, from: u32, l: u32)
    requires whole { AreLabelled (spot rings.old) (contains_key rings.old) labels.old }
    requires there { live (spot rings.old) from ≡ true }
    ensures whole { AreLabelled (spot rings.new) (contains_key rings.new) labels.new }
    ensures spots { in_loops labels.new.loops.items (spot rings.new) ≡ labelled (in_loops labels.old.loops.items (spot rings.old)) l (ring (spot rings.old) from) }
    ensures known { contains_key rings.new ≡ contains_key rings.old }
{
    let label = rings.label(from);
    if label == 0 {
        give_label(rings, labels, from, l);
    } else {
        stand_for(labels, label, l);
    }
}

/// Gives the ring of a code a label that was free, which stands for loop l, or for none if l is 0.
fn give_label(rings: &mut Rings, labels: &mut Labels, code: u32, l: u32)
    requires whole { AreLabelledBut (spot rings.old) (contains_key rings.old) labels.old (ring (spot rings.old) code) }
    requires there { live (spot rings.old) code ≡ true }
    ensures whole { AreLabelled (spot rings.new) (contains_key rings.new) labels.new }
    ensures spots { in_loops labels.new.loops.items (spot rings.new) ≡ labelled (in_loops labels.old.loops.items (spot rings.old)) l (ring (spot rings.old) code) }
    ensures known { contains_key rings.new ≡ contains_key rings.old }
{
    let label = hand_out(labels, l);
    links::set_labels(rings, code, label);
}

/// Whether the ring of a has no more items than that of b. It goes round both in step, so it walks once round the shorter one.
fn is_shorter(rings: &Rings, a: u32, b: u32) -> bool
    requires rings { AreRings (spot rings.now) }
    requires a { live (spot rings.now) a ≡ true }
    requires b { live (spot rings.now) b ≡ true }
    ensures shorter { result ≡ true → length (ring (spot rings.now) a) ≤ length (ring (spot rings.now) b) }
    ensures longer { result ≡ false → length (ring (spot rings.now) b) ≤ length (ring (spot rings.now) a) }
{
    let mut p = rings.walk(a);
    let mut q = rings.walk(b);
    'round: for _ in 0..HALF_EDGE_CODES {
        if p.step() == a {
            return true;
        }
        if q.step() == b {
            return false;
        }
    }
    true
}
