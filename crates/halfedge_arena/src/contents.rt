//! What a loop holds.
ghost use Rattle.std.specs.Prelude.{◌≡◌, true, []};
ghost use Rattle.boundary_model.specs.HalfEdge.{code};
ghost use Rattle.boundary_model.specs.Model.{items_of, content, has_half, loop_of};
ghost use Rattle.arena_rows.specs.Common.{has_number, clear, fill, with_lone, set_content, IsLoose};

use crate::arena::Arena;
use arena_rows::{LoopCell, StoredContent};
use boundary_model::{Content, HalfEdge, Kind};

impl Arena {
    /// Empties loop l, which is there. What it held becomes a loose ring.
    ///
    /// It walks over nothing: the ring's label no longer stands for a loop.
    pub fn clear(&mut self, l: u32)
        requires { has_number self.old Kind.Loop l ≡ true }
        ensures { self.new ≡ clear self.old l }
    {
        let old = self.loops.known(l);
        let cell = LoopCell {
            face: old.face,
            stored: StoredContent::Empty,
        };
        if let StoredContent::At(c) = old.stored {
            self.rings.put_in_loop(c, 0);
            self.loops.set(l, cell);
            return;
        }
        self.loops.set(l, cell);
    }

    /// Makes loop l lone at vertex v. The loop is there and holds no half-edge.
    pub fn set_lone(&mut self, l: u32, v: u32)
        requires there { has_number self.old Kind.Loop l ≡ true }
        requires bare { items_of (content self.old.model l) ≡ [] }
        ensures { self.new ≡ with_lone self.old l v }
    {
        let old = self.loops.known(l);
        let cell = LoopCell {
            face: old.face,
            stored: StoredContent::Lone(v),
        };
        self.loops.set(l, cell);
    }

    /// Puts the loose ring of h into loop l, which is there and holds no half-edge.
    ///
    /// It walks over nothing: the ring's label now stands for l.
    pub fn fill(&mut self, l: u32, h: HalfEdge)
        requires there { has_number self.old Kind.Loop l ≡ true }
        requires bare { items_of (content self.old.model l) ≡ [] }
        requires half { has_half self.old.model (code h) ≡ true }
        requires loose { loop_of self.old.model (code h) ≡ 0 }
        ensures { self.new ≡ fill self.old l (code h) }
    {
        let _ = &self.rings;
        let item = h.code();
        let old = self.loops.known(l);
        let cell = LoopCell {
            face: old.face,
            stored: StoredContent::At(item),
        };
        self.rings.put_in_loop(item, l);
        self.loops.set(l, cell);
    }

    /// Gives loop l, which is there, other content. What it held becomes a loose ring; then l is lone at a vertex, or takes the loose ring
    /// in which a half-edge stands.
    ///
    /// It walks over nothing.
    pub fn set_content(&mut self, l: u32, content: Content)
        requires there { has_number self.old Kind.Loop l ≡ true }
        requires ready { IsLoose (clear self.old l) content }
        ensures { self.new ≡ set_content self.old l content }
    {
        self.clear(l);
        match content {
            Content::Lone(v) => self.set_lone(l, v),
            Content::Ring(h) => self.fill(l, h),
        }
    }
}
