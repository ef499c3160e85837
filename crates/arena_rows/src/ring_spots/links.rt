//! Edges as pairs of nodes.
ghost use Rattle.std.specs.Prelude.{◌≡◌, ◌≢◌, ◌<◌, ◌≤◌, ◌&&◌, ◌*◌, ◌+◌, nat_lt, nat_le, true, Some, OnOk, IsOk, ℕ, vec_capacity};
ghost use Rattle.std.specs.FinMap.{contains_key};
ghost use Rattle.raw_ring.specs.Rings.{spot, next_of, IsAsleep};
ghost use Rattle.boundary_model.specs.HalfEdge.{plus, minus};
ghost use Rattle.arena_rows.specs.ring_spots.Spots.{live, ring, labelled, woken, asleep, spliced, set_tail, AreRings};
ghost use Rattle.arena_rows.specs.ring_spots.Labels.{in_loops, AreLabelled};

use crate::ring_spots::labels::{Labels, reach, take_back};
use boundary_model::{HALF_EDGE_CODES, NUMBER_LIMIT};
use raw_ring::Rings;
use std::alloc::AllocError;

/// Whether both half-edges of an edge have their nodes.
pub(crate) fn has_edge_room(rings: &Rings, e: u32) -> bool
    ensures { result ≡ nat_le e 1000000 && (nat_lt 0 e && (contains_key rings.now (plus e) && contains_key rings.now (minus e))) }
{
    e <= NUMBER_LIMIT && (0 < e && (rings.has_room(2 * e) && rings.has_room(2 * e + 1)))
}

/// Wakes both half-edges of an edge. Each has label 0.
pub(crate) fn put_edge(rings: &mut Rings, e: u32, start: u32, end: u32)
    requires limit { e ≤ 1000000 }
    requires first { IsAsleep rings.old (plus e) }
    requires second { IsAsleep rings.old (minus e) }
    ensures spots { spot rings.new ≡ woken (woken (spot rings.old) (plus e) start) (minus e) end }
    ensures known { contains_key rings.new ≡ contains_key rings.old }
{
    rings.wake(2 * e, start);
    rings.wake(2 * e + 1, end);
}

/// Puts both half-edges of an edge to sleep; each is a ring of one. Their labels are taken back.
pub(crate) fn take_edge(rings: &mut Rings, labels: &mut Labels, e: u32)
    requires whole { AreLabelled (spot rings.old) (contains_key rings.old) labels.old }
    requires limit { e ≤ 1000000 }
    requires first { next_of rings.old (plus e) ≡ Some (plus e) }
    requires second { next_of rings.old (minus e) ≡ Some (minus e) }
    ensures whole { AreLabelled (spot rings.new) (contains_key rings.new) labels.new }
    ensures spots { in_loops labels.new.loops.items (spot rings.new) ≡ asleep (asleep (in_loops labels.old.loops.items (spot rings.old)) (plus e)) (minus e) }
    ensures known { contains_key rings.new ≡ contains_key rings.old }
{
    take_back(labels, rings.label(2 * e));
    take_back(labels, rings.label(2 * e + 1));
    put_to_sleep(rings, e);
}

/// Puts both half-edges of an edge to sleep; each is a ring of one.
fn put_to_sleep(rings: &mut Rings, e: u32)
    requires limit { e ≤ 1000000 }
    requires first { next_of rings.old (plus e) ≡ Some (plus e) }
    requires second { next_of rings.old (minus e) ≡ Some (minus e) }
    ensures spots { spot rings.new ≡ asleep (asleep (spot rings.old) (plus e)) (minus e) }
    ensures known { contains_key rings.new ≡ contains_key rings.old }
{
    rings.sleep(2 * e);
    rings.sleep(2 * e + 1);
}

/// Gives each item of a ring the label l.
pub(crate) fn set_labels(rings: &mut Rings, from: u32, l: u32)
    requires rings { AreRings (spot rings.old) }
    requires there { live (spot rings.old) from ≡ true }
    ensures spots { spot rings.new ≡ labelled (spot rings.old) l (ring (spot rings.old) from) }
    ensures known { contains_key rings.new ≡ contains_key rings.old }
{
    let mut h = from;
    'round: for _ in 0..HALF_EDGE_CODES {
        rings.set_label(h, l);
        h = rings.next(h);
        if h == from {
            return;
        }
    }
}

/// Exchanges the successors of two codes.
pub(crate) fn splice(rings: &mut Rings, a: u32, b: u32)
    requires a { live (spot rings.old) a ≡ true }
    requires b { live (spot rings.old) b ≡ true }
    ensures spots { spot rings.new ≡ spliced (spot rings.old) a b }
    ensures known { contains_key rings.new ≡ contains_key rings.old }
{
    rings.splice(a, b);
}

/// Changes the vertex at which a half-edge starts.
pub(crate) fn set_tail(rings: &mut Rings, h: u32, v: u32)
    requires { live (spot rings.old) h ≡ true }
    ensures spots { spot rings.new ≡ set_tail (spot rings.old) h v }
    ensures known { contains_key rings.new ≡ contains_key rings.old }
{
    rings.set_tail(h, v);
}

/// Gives both half-edges of an edge their nodes, and room for their labels. If they have them already, no `Err` comes.
pub(crate) fn room_edge(rings: &mut Rings, labels: &mut Labels, e: u32) -> Result<(), AllocError>
    requires whole { AreLabelled (spot rings.old) (contains_key rings.old) labels.old }
    requires limit { e ≤ 1000000 }
    ensures whole { AreLabelled (spot rings.new) (contains_key rings.new) labels.new }
    ensures spots { in_loops labels.new.loops.items (spot rings.new) ≡ in_loops labels.old.loops.items (spot rings.old) }
    ensures kept { (c : ℕ) → contains_key rings.old c ≡ true → contains_key rings.new c ≡ true }
    ensures only { (q : ℕ) → q ≢ plus e → q ≢ minus e → contains_key rings.new q ≡ contains_key rings.old q }
    ensures ok { OnOk result ((contains_key rings.new (plus e) ≡ true) × (contains_key rings.new (minus e) ≡ true)) }
    ensures known { contains_key rings.old (plus e) ≡ true → contains_key rings.old (minus e) ≡ true → IsOk result }
{
    reach(labels, 2 * e + 1)?;
    room_code(rings, labels, 2 * e)?;
    room_code(rings, labels, 2 * e + 1)
}

/// Gives a half-edge its node. There is room for its label already.
#[inline(always)]
fn room_code(rings: &mut Rings, labels: &Labels, code: u32) -> Result<(), AllocError>
    requires whole { AreLabelled (spot rings.old) (contains_key rings.old) labels.now }
    requires limit { code ≤ 2000001 }
    requires label { code + 2 < vec_capacity labels.now.loops }
    ensures whole { AreLabelled (spot rings.new) (contains_key rings.new) labels.now }
    ensures spots { spot rings.new ≡ spot rings.old }
    ensures kept { (q : ℕ) → contains_key rings.old q ≡ true → contains_key rings.new q ≡ true }
    ensures only { (q : ℕ) → q ≢ code → contains_key rings.new q ≡ contains_key rings.old q }
    ensures ok { OnOk result (contains_key rings.new code ≡ true) }
    ensures known { contains_key rings.old code ≡ true → IsOk result }
{
    rings.room(code)
}
