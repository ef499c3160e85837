//! The rings of half-edges, with the numbers of the edges in use.
ghost use Rattle.std.specs.Prelude.{◌≡◌, ◌≢◌, ◌≤◌, ◌&&◌, nat_lt, nat_le, is_some, true, Some, OnOk, IfOk, IsOk, ℕ};
ghost use Rattle.std.specs.FinMap.{empty, contains_key};
ghost use Rattle.raw_ring.specs.Rings.{spot, next_of, tail_of, label_of, IsLive, IsAsleep, IsPermutation};
ghost use Rattle.boundary_model.specs.HalfEdge.{plus, minus};
ghost use Rattle.boundary_model.specs.Items.{IsIn};
ghost use Rattle.arena_rows.specs.ring_spots.Spots.{live, label, ring, labelled, woken, asleep, spliced, set_tail};
ghost use Rattle.arena_rows.specs.ring_spots.Last.{is_edge};
ghost use Rattle.raw_cells.specs.Numbers.{IsLast, IsNext};

use crate::ring_spots::labels::Labels;
use crate::ring_spots::{alone, labels, links, parts};
use raw_cells::Numbers;
use raw_ring::Rings;
use std::alloc::{AllocError, Global};
use std::marker::Model;

/// Rings of half-edges, two for each edge, with the numbers of the edges in use.
///
/// Each ring has a label at its nodes, and the label stands for the ring's loop. So a write or two move a ring to another loop, and if a ring
/// is cut or two are joined, only the labels of the shorter part are written.
///
/// A contract sees what stands at each known half-edge, with the loop's number as its label. Only `room_edge` and `copy` take
/// memory.
#[derive(Drop)]
pub struct EdgeRings {
    labels: Labels,
    edges: Numbers,
    rings: Rings,
}

impl Model for EdgeRings {
    ghost use Rattle.raw_ring.specs.Rings.{RingMap, ring_map_code};
    ghost use Rattle.arena_rows.specs.ring_spots.Edges.{AreEdgeRings};
    ghost use Rattle.arena_rows.specs.ring_spots.Labels.{map_in_loops};

    ghost Value = { RingMap };

    ghost coded = { ring_map_code };

    ghost view = { λ a. map_in_loops a.labels.loops.items a.rings };

    ghost invariant = { λ a. AreEdgeRings a.rings a.labels a.edges };
}

impl EdgeRings {
    /// No half-edge, and no room. It takes no memory.
    pub fn new(alloc: Global) -> Self
        ensures { result ≡ empty }
    {
        Self {
            rings: Rings::new(alloc),
            labels: labels::new(alloc),
            edges: Numbers::new(alloc),
        }
    }

    /// Equal rings, in memory of their own.
    pub fn copy(&self, alloc: Global) -> Result<EdgeRings, AllocError>
        ensures { IfOk result (λ copy. copy ≡ self.now) }
    {
        Ok(EdgeRings {
            rings: self.rings.copy(alloc)?,
            labels: labels::copy(&self.labels, alloc)?,
            edges: self.edges.copy(alloc)?,
        })
    }

    /// Whether the first half-edge of an edge is live.
    pub fn has_edge(&self, e: u32) -> bool
        ensures { result ≡ is_edge (spot self.now) e }
    {
        self.edges.contains(e)
    }

    /// The greatest edge in use, or 0 if none is. It is looked for as `Numbers::last` does.
    pub fn last_edge(&self) -> u32
        ensures { IsLast (is_edge (spot self.now)) result }
    {
        self.edges.last()
    }

    /// The least edge in use above e, or none. It is looked for as `Numbers::after` does.
    pub fn edge_after(&self, e: u32) -> Option<u32>
        ensures { IsNext (is_edge (spot self.now)) e result }
    {
        self.edges.after(e)
    }

    /// Whether both half-edges of an edge have their nodes.
    pub fn has_edge_room(&self, e: u32) -> bool
        ensures { result ≡ nat_le e 1000000 && (nat_lt 0 e && (contains_key self.now (plus e) && contains_key self.now (minus e))) }
    {
        links::has_edge_room(&self.rings, e)
    }

    /// Wakes both half-edges of an edge.
    pub fn put_edge(&mut self, e: u32, start: u32, end: u32)
        requires limit { e ≤ 1000000 }
        requires first { IsAsleep self.old (plus e) }
        requires second { IsAsleep self.old (minus e) }
        ensures spots { spot self.new ≡ woken (woken (spot self.old) (plus e) start) (minus e) end }
        ensures known { contains_key self.new ≡ contains_key self.old }
    {
        links::put_edge(&mut self.rings, e, start, end);
        self.edges.put(e);
    }

    /// Puts both half-edges of an edge to sleep; each is a ring of one.
    pub fn take_edge(&mut self, e: u32)
        requires limit { e ≤ 1000000 }
        requires first { next_of self.old (plus e) ≡ Some (plus e) }
        requires second { next_of self.old (minus e) ≡ Some (minus e) }
        ensures spots { spot self.new ≡ asleep (asleep (spot self.old) (plus e)) (minus e) }
        ensures known { contains_key self.new ≡ contains_key self.old }
    {
        links::take_edge(&mut self.rings, &mut self.labels, e);
        self.edges.take(e);
    }

    /// Puts the ring of a half-edge into loop l, or into none if l is 0. It writes one number or two, and walks over nothing.
    pub fn put_in_loop(&mut self, from: u32, l: u32)
        requires { live (spot self.old) from ≡ true }
        ensures spots { spot self.new ≡ labelled (spot self.old) l (ring (spot self.old) from) }
        ensures known { contains_key self.new ≡ contains_key self.old }
    {
        parts::put_in_loop(&mut self.rings, &mut self.labels, from, l);
    }

    /// Cuts the ring of a and b in two, one with a and one with b. The caller names the loop in which the ring stands, or 0: a's ring stays
    /// there. The ring of b then stands in loop l, or in none if l is 0.
    ///
    /// It walks round the shorter ring.
    pub fn cut(&mut self, a: u32, b: u32, l: u32, kept: u32)
        requires a { live (spot self.old) a ≡ true }
        requires together { IsIn b (ring (spot self.old) a) }
        requires apart { a ≢ b }
        requires kept { label (spot self.old) a ≡ kept }
        ensures spots { spot self.new ≡ labelled (spliced (spot self.old) a b) l (ring (spliced (spot self.old) a b) b) }
        ensures known { contains_key self.new ≡ contains_key self.old }
    {
        parts::cut(&mut self.rings, &mut self.labels, a, b, l, kept);
    }

    /// Joins the rings of a and b, which stand in different loops, or one of which stands in none. The caller names a's loop, or 0, in
    /// which the joint ring then stands.
    ///
    /// It walks round the shorter ring.
    pub fn join(&mut self, a: u32, b: u32, kept: u32)
        requires a { live (spot self.old) a ≡ true }
        requires b { live (spot self.old) b ≡ true }
        requires apart { label (spot self.old) b ≢ label (spot self.old) a }
        requires kept { label (spot self.old) a ≡ kept }
        ensures spots { spot self.new ≡ spliced (labelled (spot self.old) (label (spot self.old) a) (ring (spot self.old) b)) a b }
        ensures known { contains_key self.new ≡ contains_key self.old }
    {
        parts::join(&mut self.rings, &mut self.labels, a, b, kept);
    }

    /// Cuts b, which follows a, out of their ring. Then b stands alone in loop l, or in none if l is 0.
    ///
    /// It does what `cut` does, and walks over nothing.
    pub fn cut_alone(&mut self, a: u32, b: u32, l: u32)
        requires follows { next_of self.old a ≡ Some b }
        requires apart { a ≢ b }
        ensures spots { spot self.new ≡ labelled (spliced (spot self.old) a b) l (ring (spliced (spot self.old) a b) b) }
        ensures known { contains_key self.new ≡ contains_key self.old }
    {
        alone::cut_alone(&mut self.rings, &mut self.labels, a, b, l);
    }

    /// Joins b, which is a ring of one, to the ring of a. They stand in different loops, or one of them stands in none.
    ///
    /// It does what `join` does, writes one label, and walks over nothing.
    pub fn join_alone(&mut self, a: u32, b: u32)
        requires a { live (spot self.old) a ≡ true }
        requires alone { next_of self.old b ≡ Some b }
        requires apart { label (spot self.old) b ≢ label (spot self.old) a }
        ensures spots { spot self.new ≡ spliced (labelled (spot self.old) (label (spot self.old) a) (ring (spot self.old) b)) a b }
        ensures known { contains_key self.new ≡ contains_key self.old }
    {
        alone::join_alone(&mut self.rings, &mut self.labels, a, b);
    }

    /// Changes the vertex at which a half-edge starts.
    pub fn set_tail(&mut self, h: u32, v: u32)
        requires { live (spot self.old) h ≡ true }
        ensures spots { spot self.new ≡ set_tail (spot self.old) h v }
        ensures known { contains_key self.new ≡ contains_key self.old }
    {
        links::set_tail(&mut self.rings, h, v);
    }

    /// Gives both half-edges of an edge their nodes. If they have them already, no `Err` comes.
    pub fn room_edge(&mut self, e: u32) -> Result<(), AllocError>
        requires { e ≤ 1000000 }
        ensures spots { spot self.new ≡ spot self.old }
        ensures kept { (c : ℕ) → contains_key self.old c ≡ true → contains_key self.new c ≡ true }
        ensures ok { OnOk result ((contains_key self.new (plus e) ≡ true) × (contains_key self.new (minus e) ≡ true)) }
        ensures known { nat_lt 0 e && (contains_key self.old (plus e) && contains_key self.old (minus e)) ≡ true → IsOk result }
    {
        self.edges.reach(e)?;
        links::room_edge(&mut self.rings, &mut self.labels, e)
    }

    /// The successor of a live half-edge.
    pub fn next(&self, code: u32) -> u32
        requires { IsLive self.now code }
        ensures next { next_of self.now code ≡ Some result }
        ensures permutation { IsPermutation self.now }
    {
        self.rings.next(code)
    }

    /// The predecessor of a live half-edge: the half-edge whose successor it is.
    pub fn prev(&self, code: u32) -> u32
        requires { IsLive self.now code }
        ensures prev { next_of self.now result ≡ Some code }
        ensures permutation { IsPermutation self.now }
    {
        self.rings.prev(code)
    }

    /// The vertex at which a live half-edge starts, and its predecessor. These are the answers of `tail` and `prev`, but the half-edge is
    /// looked up only once.
    pub fn tail_and_prev(&self, code: u32) -> (u32, u32)
        requires { IsLive self.now code }
        ensures tail { tail_of self.now code ≡ Some result.0 }
        ensures prev { next_of self.now result.1 ≡ Some code }
        ensures permutation { IsPermutation self.now }
    {
        self.rings.tail_and_prev(code)
    }

    /// The vertex at which a live half-edge starts.
    pub fn tail(&self, code: u32) -> u32
        requires { IsLive self.now code }
        ensures { tail_of self.now code ≡ Some result }
    {
        self.rings.tail(code)
    }

    /// The loop in which a live half-edge stands, or 0 if it stands in none.
    pub fn label(&self, code: u32) -> u32
        requires { IsLive self.now code }
        ensures { label_of self.now code ≡ Some result }
    {
        parts::loop_of(&self.rings, &self.labels, code)
    }
}
