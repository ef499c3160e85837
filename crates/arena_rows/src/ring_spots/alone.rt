//! One code alone, which is put into a ring or taken out of one. This writes one label and walks over nothing.
ghost use Rattle.std.specs.Prelude.{◌≡◌, ◌≢◌, true, Some, [], ◌∷◌};
ghost use Rattle.std.specs.FinMap.{contains_key};
ghost use Rattle.raw_ring.specs.Rings.{spot, next_of};
ghost use Rattle.arena_rows.specs.ring_spots.Spots.{live, label, ring, labelled, spliced};
ghost use Rattle.arena_rows.specs.ring_spots.Labels.{loop_at, in_loops, AreLabelled};

use crate::ring_spots::labels::Labels;
use crate::ring_spots::{links, parts};
use raw_ring::Rings;

/// Puts b, which is alone in its ring, after a. They stand in different loops, or one of them stands in none. Then b has the label of a's ring.
#[inline(always)]
pub(crate) fn join_alone(rings: &mut Rings, labels: &mut Labels, a: u32, b: u32)
    requires whole { AreLabelled (spot rings.old) (contains_key rings.old) labels.old }
    requires a { live (spot rings.old) a ≡ true }
    requires b { live (spot rings.old) b ≡ true }
    requires alone { ring (spot rings.old) b ≡ b ∷ [] }
    requires apart { loop_at labels.old.loops.items (label (spot rings.old) b) ≢ loop_at labels.old.loops.items (label (spot rings.old) a) }
    ensures whole { AreLabelled (spot rings.new) (contains_key rings.new) labels.new }
    ensures spots { in_loops labels.new.loops.items (spot rings.new) ≡ spliced (labelled (in_loops labels.old.loops.items (spot rings.old)) (loop_at labels.old.loops.items (label (spot rings.old) a)) (ring (spot rings.old) b)) a b }
    ensures known { contains_key rings.new ≡ contains_key rings.old }
{
    if rings.label(b) == 0 {
        set_label(rings, b, rings.label(a));
        links::splice(rings, a, b);
    } else {
        join_labelled(rings, labels, a, b);
    }
}

/// The same, where b has a label that isn't 0.
#[inline(never)]
fn join_labelled(rings: &mut Rings, labels: &mut Labels, a: u32, b: u32)
    requires whole { AreLabelled (spot rings.old) (contains_key rings.old) labels.old }
    requires a { live (spot rings.old) a ≡ true }
    requires b { live (spot rings.old) b ≡ true }
    requires apart { loop_at labels.old.loops.items (label (spot rings.old) b) ≢ loop_at labels.old.loops.items (label (spot rings.old) a) }
    ensures whole { AreLabelled (spot rings.new) (contains_key rings.new) labels.new }
    ensures spots { in_loops labels.new.loops.items (spot rings.new) ≡ spliced (labelled (in_loops labels.old.loops.items (spot rings.old)) (loop_at labels.old.loops.items (label (spot rings.old) a)) (ring (spot rings.old) b)) a b }
    ensures known { contains_key rings.new ≡ contains_key rings.old }
{
    let kept = parts::loop_of(rings, labels, a);
    parts::join(rings, labels, a, b, kept);
}

/// Takes b, which follows a, out of their ring. Then b stands in loop l, or is loose, with label 0, if l is 0.
#[inline(always)]
pub(crate) fn cut_alone(rings: &mut Rings, labels: &mut Labels, a: u32, b: u32, l: u32)
    requires whole { AreLabelled (spot rings.old) (contains_key rings.old) labels.old }
    requires follows { next_of rings.old a ≡ Some b }
    requires apart { a ≢ b }
    ensures whole { AreLabelled (spot rings.new) (contains_key rings.new) labels.new }
    ensures spots { in_loops labels.new.loops.items (spot rings.new) ≡ labelled (spliced (in_loops labels.old.loops.items (spot rings.old)) a b) l (ring (spliced (in_loops labels.old.loops.items (spot rings.old)) a b) b) }
    ensures known { contains_key rings.new ≡ contains_key rings.old }
{
    if l == 0 {
        links::splice(rings, a, b);
        set_label(rings, b, 0);
    } else {
        cut_labelled(rings, labels, a, b, l);
    }
}

/// The same, where l isn't 0.
#[inline(never)]
fn cut_labelled(rings: &mut Rings, labels: &mut Labels, a: u32, b: u32, l: u32)
    requires whole { AreLabelled (spot rings.old) (contains_key rings.old) labels.old }
    requires follows { next_of rings.old a ≡ Some b }
    requires apart { a ≢ b }
    ensures whole { AreLabelled (spot rings.new) (contains_key rings.new) labels.new }
    ensures spots { in_loops labels.new.loops.items (spot rings.new) ≡ labelled (spliced (in_loops labels.old.loops.items (spot rings.old)) a b) l (ring (spliced (in_loops labels.old.loops.items (spot rings.old)) a b) b) }
    ensures known { contains_key rings.new ≡ contains_key rings.old }
{
    let kept = parts::loop_of(rings, labels, a);
    parts::cut(rings, labels, a, b, l, kept);
}

/// Gives the label l to a code that is alone in its ring.
fn set_label(rings: &mut Rings, code: u32, l: u32)
    requires there { live (spot rings.old) code ≡ true }
    requires alone { ring (spot rings.old) code ≡ code ∷ [] }
    ensures spots { spot rings.new ≡ labelled (spot rings.old) l (ring (spot rings.old) code) }
    ensures known { contains_key rings.new ≡ contains_key rings.old }
{
    rings.set_label(code, l);
}
