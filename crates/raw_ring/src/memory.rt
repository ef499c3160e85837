//! The owner of the nodes' memory, which comes in blocks. Each access through a raw link is one of the four calls `add`, `read`, `write` and `take`.
ghost use Rattle.std.specs.Prelude.{◌≡◌, List, [], ◌∷◌, Some, IsSome, drop};
ghost use base.Fml.{fsep};
ghost use denote.RawPtr.{Ptr};
ghost use Rattle.raw_ring.specs.declared.node.Node.{Node};
ghost use Rattle.raw_ring.specs.Cells.{cells_own, cells_lent, node_at, put_node};
ghost use Rattle.raw_ring.specs.Blocks.{deeds_own, places, block_places, piled, place_after, IsAPlace, Apart};

use crate::node::{Node, NodePtr};
use std::alloc::Global;
use std::marker::Model;

/// How many nodes a block has.
pub(crate) const BLOCK: usize = 64;

/// The owner of blocks of nodes: of each node, and of the right to free each block. The newest comes first. It takes no space: the table of codes, the
/// links and the list of blocks hold the pointers.
pub(crate) struct Memory {
    ghost cells: { List (Ptr × Node) },
    ghost deeds: { List Ptr },
}

impl Model for Memory {
    ghost also_owns = { λ m. fsep (cells_own m.cells) (deeds_own m.deeds) };

    ghost also_shares = { λ m _ κ. cells_lent m.cells κ };
}

impl Memory {
    /// An owner without blocks.
    pub(crate) fn new() -> Memory
        ensures { (result.cells ≡ []) × (result.deeds ≡ []) }
    {
        Memory {}
    }

    /// Takes a block over from its box, and says where it begins.
    pub(crate) fn add(&mut self, block: Box<[Node; 64], Global>) -> NodePtr
        ensures { IsAPlace result.ptr × Apart self.new.cells × (drop 64 self.new.cells ≡ self.old.cells) × (places self.new.cells ≡ block_places result.ptr (places self.old.cells)) × (self.new.deeds ≡ result.ptr ∷ self.old.deeds) }
    {
        let ptr = Box::into_raw(block) as *mut Node;
        NodePtr { ptr }
    }

    /// A copy of the node there.
    pub(crate) fn read(&self, at: NodePtr) -> Node
        requires { IsSome (node_at self.now.cells at.ptr) }
        ensures { node_at self.now.cells at.ptr ≡ Some result }
    {
        unsafe { *at.ptr }
    }

    /// Overwrites the node there.
    pub(crate) fn write(&mut self, at: NodePtr, node: Node)
        requires { IsSome (node_at self.old.cells at.ptr) }
        ensures { (self.new.cells ≡ put_node self.old.cells at.ptr node) × (self.new.deeds ≡ self.old.deeds) }
    {
        unsafe {
            *at.ptr = node;
        }
    }

    /// Hands the newest block out in its box.
    pub(crate) fn take(&mut self, alloc: Global, base: NodePtr) -> Box<[Node; 64], Global>
        requires { (places self.old.cells ≡ piled self.old.deeds) × (rest : List Ptr) × (self.old.deeds ≡ base.ptr ∷ rest) }
        ensures { (places self.new.cells ≡ piled self.new.deeds) × (self.new.deeds ≡ drop 1 self.old.deeds) }
    {
        unsafe { Box::from_raw(alloc, base.ptr as *mut [Node; 64]) }
    }

    /// Ends an owner that has no block any more. An owner can be ended in no other way, so no block is left unfreed.
    pub(crate) fn close(self)
        requires { (self.cells ≡ []) × (self.deeds ≡ []) }
    {
        let Memory {} = self;
    }
}

/// The place after a place of a block.
pub(crate) fn next_place(at: NodePtr) -> NodePtr
    requires { IsAPlace at.ptr }
    ensures { result.ptr ≡ place_after at.ptr }
{
    NodePtr {
        ptr: unsafe { at.ptr.add(1) },
    }
}
