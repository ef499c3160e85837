//! Readers of what stands under a number.
ghost use Rattle.std.specs.Prelude.{◌≡◌, ◌≢◌, true, length, []};
ghost use Rattle.boundary_model.specs.Points.{IsInRange};
ghost use Rattle.boundary_model.specs.Rings.{successor, predecessor};
ghost use Rattle.boundary_model.specs.HalfEdge.{code};
ghost use Rattle.boundary_model.specs.Model.{cycle, point_of, solid_of, outer, face_of, content, has_half, loop_of, after, before, tail, is_ring_of, rings_of, faces_of};
ghost use Rattle.arena_rows.specs.Common.{has_room, has_number, loose_ring, Tells, only_item};

use crate::arena::Arena;
use arena_rows::{StoredContent, names};
use boundary_model::{Content, HalfEdge, Kind, Point};

impl Arena {
    /// Whether a number of a kind is in use. Any number may be asked for. A number in use has its room.
    pub fn has(&self, kind: Kind, number: u32) -> bool
        ensures used { result ≡ has_number self.now kind number }
        ensures room { result ≡ true → has_room self.now kind number ≡ true }
    {
        match kind {
            Kind::Solid => self.solids.has(number),
            Kind::Face => self.faces.has(number),
            Kind::Loop => self.loops.has(number),
            Kind::Edge => self.rings.has_edge(number),
            Kind::Vertex => self.vertices.has(number),
        }
    }

    /// Whether a number of a kind has its room. Any number may be asked for.
    pub fn has_room(&self, kind: Kind, number: u32) -> bool
        ensures { result ≡ has_room self.now kind number }
    {
        match kind {
            Kind::Solid => self.solids.reaches(number),
            Kind::Face => self.faces.reaches(number),
            Kind::Loop => self.loops.reaches(number),
            Kind::Edge => self.rings.has_edge_room(number),
            Kind::Vertex => self.vertices.reaches(number),
        }
    }

    /// The solid of face f, which is there.
    pub fn solid_of(&self, f: u32) -> u32
        requires { has_number self.now Kind.Face f ≡ true }
        ensures { result ≡ solid_of self.now.model f }
    {
        self.faces.known(f).solid
    }

    /// The outer loop of face f, which is there.
    pub fn outer(&self, f: u32) -> u32
        requires { has_number self.now Kind.Face f ≡ true }
        ensures { result ≡ outer self.now.model f }
    {
        self.faces.known(f).outer
    }

    /// How many rings face f, which is there, has: the loops that name it, without its outer loop. The count is kept, so this walks over
    /// nothing.
    #[inline(always)]
    pub fn ring_count(&self, f: u32) -> u32
        requires { has_number self.now Kind.Face f ≡ true }
        ensures { result ≡ length (rings_of self.now.model f) }
    {
        let outer = self.faces.known(f).outer;
        let named = self.face_loops.count(f);
        if names(&self.loops, outer, f) {
            named - 1
        } else {
            named
        }
    }

    /// Whether loop l is a ring of face f, which is there.
    pub fn is_ring(&self, f: u32, l: u32) -> bool
        requires { has_number self.now Kind.Face f ≡ true }
        ensures { result ≡ is_ring_of self.now.model f l }
    {
        self.has(Kind::Loop, l) && self.face_of(l) == f && self.outer(f) != l
    }

    /// How many faces name solid s. The count is kept, so this walks over nothing.
    pub fn face_count(&self, s: u32) -> u32
        ensures { result ≡ length (faces_of self.now.model s) }
    {
        self.solid_faces.count(s)
    }

    /// The face that names solid s, if there is exactly one. It walks over nothing.
    pub fn only_face(&self, s: u32) -> Option<u32>
        ensures { result ≡ only_item (faces_of self.now.model s) }
    {
        if self.solid_faces.count(s) == 1 {
            self.solid_faces.after(s, 0)
        } else {
            None
        }
    }

    /// The face that loop l names, which is there.
    pub fn face_of(&self, l: u32) -> u32
        requires { has_number self.now Kind.Loop l ≡ true }
        ensures { result ≡ face_of self.now.model l }
    {
        self.loops.known(l).face
    }

    /// What loop l, which is there and isn't empty, holds: the vertex of a lone loop, or some half-edge that stands in it.
    pub fn content(&self, l: u32) -> Content
        requires there { has_number self.now Kind.Loop l ≡ true }
        requires filled { content self.now.model l ≢ cycle [] }
        ensures { Tells (content self.now.model l) result }
    {
        match self.loops.known(l).stored {
            StoredContent::Lone(v) => Content::Lone(v),
            StoredContent::At(c) => Content::Ring(HalfEdge::of_code(c)),
            StoredContent::Empty => unreachable!(),
        }
    }

    /// The loop in which a half-edge, whose edge is there, stands, or 0 if it stands in none.
    pub fn loop_of(&self, h: HalfEdge) -> u32
        requires { has_half self.now.model (code h) ≡ true }
        ensures { result ≡ loop_of self.now.model (code h) }
    {
        self.rings.label(h.code())
    }

    /// The item after a half-edge, whose edge is there, in its loop or its loose ring.
    pub fn next(&self, h: HalfEdge) -> HalfEdge
        requires { has_half self.now.model (code h) ≡ true }
        ensures in_loop { loop_of self.now.model (code h) ≢ 0 → code result ≡ after self.now.model (code h) }
        ensures loose { loop_of self.now.model (code h) ≡ 0 → code result ≡ successor (loose_ring self.now (code h)) (code h) }
    {
        HalfEdge::of_code(self.rings.next(h.code()))
    }

    /// The item before a half-edge, whose edge is there, in its loop or its loose ring.
    pub fn prev(&self, h: HalfEdge) -> HalfEdge
        requires { has_half self.now.model (code h) ≡ true }
        ensures in_loop { loop_of self.now.model (code h) ≢ 0 → code result ≡ before self.now.model (code h) }
        ensures loose { loop_of self.now.model (code h) ≡ 0 → code result ≡ predecessor (loose_ring self.now (code h)) (code h) }
    {
        HalfEdge::of_code(self.rings.prev(h.code()))
    }

    /// The vertex at which a half-edge starts, whose edge is there.
    pub fn tail(&self, h: HalfEdge) -> u32
        requires { has_half self.now.model (code h) ≡ true }
        ensures { result ≡ tail self.now.model (code h) }
    {
        self.rings.tail(h.code())
    }

    /// The vertex at which a half-edge, whose edge is there, starts, and the item before it. These are the answers of `tail` and `prev`,
    /// but the half-edge is looked up only once.
    pub fn tail_and_prev(&self, h: HalfEdge) -> (u32, HalfEdge)
        requires { has_half self.now.model (code h) ≡ true }
        ensures tail { result.0 ≡ tail self.now.model (code h) }
        ensures in_loop { loop_of self.now.model (code h) ≢ 0 → code result.1 ≡ before self.now.model (code h) }
        ensures loose { loop_of self.now.model (code h) ≡ 0 → code result.1 ≡ predecessor (loose_ring self.now (code h)) (code h) }
    {
        let (tail, last) = self.rings.tail_and_prev(h.code());
        (tail, HalfEdge::of_code(last))
    }

    /// The point of vertex v, which is there.
    pub fn point(&self, v: u32) -> Point
        requires { has_number self.now Kind.Vertex v ≡ true }
        ensures point { result ≡ point_of self.now.model v }
        ensures range { IsInRange result }
    {
        self.vertices.known(v).point()
    }
}
