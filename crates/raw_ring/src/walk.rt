//! A walk round a ring, from node to node.
ghost use Rattle.std.specs.Prelude.{◌≡◌, Some};
ghost use Rattle.raw_ring.specs.Rings.{next_of, IsPermutation};

use crate::node::NodePtr;
use crate::nodes::Nodes;
use crate::table::Table;
use std::marker::Model;

/// A place in a ring of a pool, from which a walk goes round it. It looks no code up.
#[derive(Drop)]
pub struct Walk<'a> {
    pub(crate) slots: &'a Table,
    pub(crate) nodes: &'a Nodes,
    pub(crate) at: NodePtr,
}

impl<'a> Model for Walk<'a> {
    ghost use Rattle.raw_ring.specs.Walks.{Place, place_code};

    ghost Value = { Place };

    ghost coded = { place_code };

    ghost use Rattle.raw_ring.specs.Walks.{place_of, IsPlace};

    ghost view = { λ w. place_of w.slots.now w.nodes.now w.at.ptr };

    ghost invariant = { λ w. IsPlace w.slots.now w.nodes.now w.at.ptr };
}

impl<'a> Walk<'a> {
    /// Goes on to the successor of the code at this place, and returns it.
    pub fn step(&mut self) -> u32
        ensures code { result ≡ self.new.code }
        ensures next { next_of self.old.rings self.old.code ≡ Some self.new.code }
        ensures rings { self.new.rings ≡ self.old.rings }
        ensures permutation { IsPermutation self.old.rings }
    {
        let here = self.nodes.read(self.at);
        let at = NodePtr { ptr: here.next };
        self.at = at;
        self.nodes.read(at).code
    }
}
