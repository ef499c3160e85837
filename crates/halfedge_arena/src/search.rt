//! Numbers in use, in order.
ghost use Rattle.std.specs.Prelude.{◌≡◌, ◌<◌, ℕ, true, false};
ghost use Rattle.arena_rows.specs.Common.{has_number, IsNextNumber, IsGreatest, IsNextFace, IsNextRing};

use crate::arena::Arena;
use boundary_model::Kind;

impl Arena {
    /// The least number of a kind in use above this one, or none. It looks at a few hundred numbers and counts at most, and at one if the
    /// next number is in use.
    pub fn after_number(&self, kind: Kind, number: u32) -> Option<u32>
        ensures { IsNextNumber self.now kind number result }
    {
        match kind {
            Kind::Solid => self.solids.after(number),
            Kind::Face => self.faces.after(number),
            Kind::Loop => self.loops.after(number),
            Kind::Edge => self.rings.edge_after(number),
            Kind::Vertex => self.vertices.after(number),
        }
    }

    /// The greatest number of a kind in use, or 0 if none is. It looks at the summaries of numbers from the last one down, as
    /// `Numbers::last` does.
    pub fn greatest(&self, kind: Kind) -> u32
        ensures { IsGreatest self.now kind result }
    {
        match kind {
            Kind::Solid => self.solids.last(),
            Kind::Face => self.faces.last(),
            Kind::Loop => self.loops.last(),
            Kind::Edge => self.rings.last_edge(),
            Kind::Vertex => self.vertices.last(),
        }
    }

    /// The least face of solid s above the number, or none. If the number is 0 or a face of the solid, this is one step; otherwise its
    /// place is looked for as `put_face` does.
    pub fn face_after(&self, s: u32, number: u32) -> Option<u32>
        ensures { IsNextFace self.now.model s number result }
    {
        self.solid_faces.after(s, number)
    }

    /// The least ring of face f above the number, or none; face f is there. If the face has no ring, or the number is 0 or a loop of the
    /// face, this is one step or two; otherwise its place is looked for as `put_loop` does. `ring_count` tells how many rings there are.
    #[inline(always)]
    pub fn ring_after(&self, f: u32, number: u32) -> Option<u32>
        requires { has_number self.now Kind.Face f ≡ true }
        ensures { IsNextRing self.now.model f number result }
    {
        if self.ring_count(f) == 0 {
            return None;
        }
        self.next_ring(f, number)
    }

    /// The least ring of face f above the number, or none. It is a function of its own so that the test for a face without rings is
    /// compiled into the caller.
    #[inline(never)]
    fn next_ring(&self, f: u32, number: u32) -> Option<u32>
        requires { has_number self.now Kind.Face f ≡ true }
        ensures { IsNextRing self.now.model f number result }
    {
        let outer = self.outer(f);
        let next = self.face_loops.after(f, number);
        if next == Some(outer) {
            self.face_loops.after(f, outer)
        } else {
            next
        }
    }
}
