//! Writers that put, take or change the rows of solids, faces, vertices, edges and loops.
ghost use Rattle.std.specs.Prelude.{◌≡◌, true, false, [], ◌∷◌, Some};
ghost use Rattle.boundary_model.specs.Points.{IsInRange};
ghost use Rattle.boundary_model.specs.HalfEdge.{code, plus, minus};
ghost use Rattle.boundary_model.specs.Table.{get};
ghost use Rattle.boundary_model.specs.Model.{items_of, content, has_half};
ghost use Rattle.arena_rows.specs.Common.{has_room, has_number, put_solid, take_solid, put_face, take_face, set_outer, set_solid, put_vertex, take_vertex, put_loop, take_loop, set_face, set_tail, put_edge, take_edge};

use crate::arena::Arena;
use arena_rows::{FaceCell, LoopCell, StoredContent};
use boundary_model::{HalfEdge, Kind, PackedPoint, Point};

impl Arena {
    /// Puts a new solid s, which has its room.
    pub fn put_solid(&mut self, s: u32)
        requires { has_room self.old Kind.Solid s ≡ true }
        ensures { self.new ≡ put_solid self.old s }
    {
        self.solids.put(s, true);
    }

    /// Takes solid s, which is there.
    pub fn take_solid(&mut self, s: u32)
        requires { has_number self.old Kind.Solid s ≡ true }
        ensures { self.new ≡ take_solid self.old s }
    {
        self.solids.take(s);
    }

    /// Puts a new face f of solid s with outer loop l. Number f is free and has its room, and the solid's number has its room too.
    ///
    /// If faces come in order, the place among the solid's faces is found in one step. Otherwise it takes as many steps as there are faces
    /// between it and the face that came last, or numbers between it and the nearest face of the solid, whichever is less. If no face goes,
    /// faces up to number N cost no more than about N log N in all, in whatever order they come.
    pub fn put_face(&mut self, f: u32, s: u32, l: u32)
        requires room { has_room self.old Kind.Face f ≡ true }
        requires free { has_number self.old Kind.Face f ≡ false }
        requires solid_room { has_room self.old Kind.Solid s ≡ true }
        ensures { self.new ≡ put_face self.old f s l }
    {
        let cell = FaceCell { solid: s, outer: l };
        self.faces.put(f, cell);
        self.solid_faces.put(s, f);
    }

    /// Takes face f, which is there.
    #[inline(always)]
    pub fn take_face(&mut self, f: u32)
        requires { has_number self.old Kind.Face f ≡ true }
        ensures { self.new ≡ take_face self.old f }
    {
        self.faces.take(f);
        self.solid_faces.take(f);
    }

    /// Gives face f, which is there, another outer loop.
    pub fn set_outer(&mut self, f: u32, l: u32)
        requires { has_number self.old Kind.Face f ≡ true }
        ensures { self.new ≡ set_outer self.old f l }
    {
        let solid = self.faces.known(f).solid;
        let cell = FaceCell { solid, outer: l };
        self.faces.set(f, cell);
    }

    /// Moves face f, which is there, to solid s, whose number has its room. The face's place there is looked for as `put_face` does.
    pub fn set_solid(&mut self, f: u32, s: u32)
        requires there { has_number self.old Kind.Face f ≡ true }
        requires solid_room { has_room self.old Kind.Solid s ≡ true }
        ensures { self.new ≡ set_solid self.old f s }
    {
        let old = self.faces.known(f);
        let cell = FaceCell {
            solid: s,
            outer: old.outer,
        };
        self.faces.set(f, cell);
        self.solid_faces.take(f);
        self.solid_faces.put(s, f);
    }

    /// Puts a new vertex v at a point in range; v has its room.
    pub fn put_vertex(&mut self, v: u32, p: Point)
        requires room { has_room self.old Kind.Vertex v ≡ true }
        requires range { IsInRange p }
        ensures { self.new ≡ put_vertex self.old v p }
    {
        self.vertices.put(v, PackedPoint::new(p));
    }

    /// Takes vertex v, which is there.
    #[inline(always)]
    pub fn take_vertex(&mut self, v: u32)
        requires { has_number self.old Kind.Vertex v ≡ true }
        ensures { self.new ≡ take_vertex self.old v }
    {
        self.vertices.take(v);
    }

    /// Puts a new, empty loop l of face f. Number l is free and has its room, and the face's number has its room too.
    ///
    /// Its place among the face's loops is looked for as `put_face` does among the faces of a solid: in one step if loops come in order.
    pub fn put_loop(&mut self, l: u32, f: u32)
        requires room { has_room self.old Kind.Loop l ≡ true }
        requires free { has_number self.old Kind.Loop l ≡ false }
        requires face_room { has_room self.old Kind.Face f ≡ true }
        ensures { self.new ≡ put_loop self.old l f }
    {
        let cell = LoopCell {
            face: f,
            stored: StoredContent::Empty,
        };
        self.loops.put(l, cell);
        self.face_loops.put(f, l);
    }

    /// Takes loop l, which is there and is empty or lone.
    #[inline(always)]
    pub fn take_loop(&mut self, l: u32)
        requires there { has_number self.old Kind.Loop l ≡ true }
        requires bare { items_of (content self.old.model l) ≡ [] }
        ensures { self.new ≡ take_loop self.old l }
    {
        self.loops.take(l);
        self.face_loops.take(l);
    }

    /// Moves loop l, which is there, to another face, whose number has its room. The loop's place there is looked for as `put_loop` does.
    pub fn set_face(&mut self, l: u32, f: u32)
        requires there { has_number self.old Kind.Loop l ≡ true }
        requires face_room { has_room self.old Kind.Face f ≡ true }
        ensures { self.new ≡ set_face self.old l f }
    {
        let old = self.loops.known(l);
        let cell = LoopCell {
            face: f,
            stored: old.stored,
        };
        self.loops.set(l, cell);
        self.face_loops.take(l);
        self.face_loops.put(f, l);
    }

    /// Puts a new edge e from the vertex `start` to the vertex `end`. Its half-edges are loose, each a ring of its own. Number e is free
    /// and has its room.
    pub fn put_edge(&mut self, e: u32, start: u32, end: u32)
        requires room { has_room self.old Kind.Edge e ≡ true }
        requires free { has_number self.old Kind.Edge e ≡ false }
        ensures { self.new ≡ put_edge self.old e start end }
    {
        self.rings.put_edge(e, start, end);
    }

    /// Takes edge e, whose half-edges are loose, each a ring of its own.
    #[inline(always)]
    pub fn take_edge(&mut self, e: u32)
        requires first { get self.old.loose (plus e) ≡ Some (plus e ∷ []) }
        requires second { get self.old.loose (minus e) ≡ Some (minus e ∷ []) }
        ensures { self.new ≡ take_edge self.old e }
    {
        self.rings.take_edge(e);
    }

    /// Makes vertex v the start of a half-edge, whose edge is there.
    pub fn set_tail(&mut self, h: HalfEdge, v: u32)
        requires { has_half self.old.model (code h) ≡ true }
        ensures { self.new ≡ set_tail self.old (code h) v }
    {
        let _ = &self.rings;
        let item = h.code();
        self.rings.set_tail(item, v);
    }
}
