//! Loops that are cut and joined.
ghost use Rattle.std.specs.Prelude.{◌≡◌, ◌≢◌, true, [], ◌∷◌};
ghost use Rattle.boundary_model.specs.HalfEdge.{code};
ghost use Rattle.boundary_model.specs.Model.{items_of, content, has_half, loop_of, before};
ghost use Rattle.arena_rows.specs.Common.{has_number, loose_ring, cut, join};

use crate::arena::Arena;
use arena_rows::{LoopCell, StoredContent};
use boundary_model::{HalfEdge, Kind};

impl Arena {
    /// Cuts a loop: `a X b Y` becomes `a Y`, and `b X` becomes loop l, or a loose ring if l is 0. Here a and b are two half-edges of one
    /// loop. If l isn't 0, loop l is there and holds no half-edge.
    ///
    /// It walks round the shorter of the two parts, and writes labels only there.
    pub fn cut(&mut self, a: HalfEdge, b: HalfEdge, l: u32)
        requires a_there { has_half self.old.model (code a) ≡ true }
        requires b_there { has_half self.old.model (code b) ≡ true }
        requires looped { loop_of self.old.model (code a) ≢ 0 }
        requires together { loop_of self.old.model (code b) ≡ loop_of self.old.model (code a) }
        requires apart { code a ≢ code b }
        requires free { l ≢ 0 → (has_number self.old Kind.Loop l ≡ true) × (items_of (content self.old.model l) ≡ []) }
        ensures { self.new ≡ cut self.old (code a) (code b) l }
    {
        let _ = &self.rings;
        let first = a.code();
        let second = b.code();
        let kept = self.rings.label(first);
        let face = self.loops.known(kept).face;
        self.rings.cut(first, second, l, kept);
        let cell = LoopCell {
            face,
            stored: StoredContent::At(first),
        };
        self.loops.set(kept, cell);
        if l == 0 {
            return;
        }
        let other = self.loops.known(l).face;
        let cell = LoopCell {
            face: other,
            stored: StoredContent::At(second),
        };
        self.loops.set(l, cell);
    }

    /// Joins another loop, or a loose ring, to a's loop: `a Y` and `b X` become `a X b Y` under the number of a's loop. If b stood in a
    /// loop, that loop is then empty.
    ///
    /// It walks round the shorter of the two rings, and writes labels only there.
    #[inline(always)]
    pub fn join(&mut self, a: HalfEdge, b: HalfEdge)
        requires a_there { has_half self.old.model (code a) ≡ true }
        requires b_there { has_half self.old.model (code b) ≡ true }
        requires looped { loop_of self.old.model (code a) ≢ 0 }
        requires apart { loop_of self.old.model (code b) ≢ loop_of self.old.model (code a) }
        ensures { self.new ≡ join self.old (code a) (code b) }
    {
        let _ = &self.rings;
        let first = a.code();
        let second = b.code();
        let kept = self.rings.label(first);
        let gone = self.rings.label(second);
        let face = self.loops.known(kept).face;
        self.rings.join(first, second, kept);
        let cell = LoopCell {
            face,
            stored: StoredContent::At(first),
        };
        if gone == 0 {
            self.loops.set(kept, cell);
            return;
        }
        let other = self.loops.known(gone).face;
        let empty = LoopCell {
            face: other,
            stored: StoredContent::Empty,
        };
        self.loops.set(gone, empty);
        self.loops.set(kept, cell);
    }

    /// Cuts b out of its loop, in which a stands before b. This is `cut` with 0 and a part of one half-edge. Then b is loose, alone in its
    /// ring.
    ///
    /// It walks over nothing.
    #[inline(always)]
    pub fn cut_alone(&mut self, a: HalfEdge, b: HalfEdge)
        requires a_there { has_half self.old.model (code a) ≡ true }
        requires b_there { has_half self.old.model (code b) ≡ true }
        requires looped { loop_of self.old.model (code a) ≢ 0 }
        requires together { loop_of self.old.model (code b) ≡ loop_of self.old.model (code a) }
        requires before { code a ≡ before self.old.model (code b) }
        requires apart { code a ≢ code b }
        ensures { self.new ≡ cut self.old (code a) (code b) 0 }
    {
        let _ = &self.rings;
        let stays = a.code();
        let goes = b.code();
        let kept = self.rings.label(stays);
        let face = self.loops.known(kept).face;
        let cell = LoopCell {
            face,
            stored: StoredContent::At(stays),
        };
        self.loops.set(kept, cell);
        self.rings.cut_alone(stays, goes, 0);
    }

    /// Joins a half-edge that is loose, alone in its ring, to a's loop. This is `join` with a ring of one. The half-edge then stands after
    /// a.
    ///
    /// It walks over nothing, and the loop's row stays as it was.
    pub fn join_alone(&mut self, a: HalfEdge, b: HalfEdge)
        requires a_there { has_half self.old.model (code a) ≡ true }
        requires b_there { has_half self.old.model (code b) ≡ true }
        requires looped { loop_of self.old.model (code a) ≢ 0 }
        requires loose { loop_of self.old.model (code b) ≡ 0 }
        requires alone { loose_ring self.old (code b) ≡ code b ∷ [] }
        ensures { self.new ≡ join self.old (code a) (code b) }
    {
        let _ = &self.rings;
        let first = a.code();
        let second = b.code();
        self.rings.join_alone(first, second);
    }
}
