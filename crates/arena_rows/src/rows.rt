//! The rows of faces and of loops.
ghost use Rattle.std.specs.Prelude.{◌≡◌};
ghost use Rattle.raw_cells.specs.Rows.{row_at};
ghost use Rattle.arena_rows.specs.Rows.{names};

use raw_cells::Rows;

/// A face of a solid, with its outer loop.
#[derive(Clone, Copy)]
pub struct FaceCell {
    /// The solid's number.
    pub solid: u32,
    /// The outer loop's number.
    pub outer: u32,
}

/// What a loop holds. A ring of half-edges is named by one of its codes.
#[derive(Clone, Copy)]
pub enum StoredContent {
    /// Nothing. A loop is like that between two writes.
    Empty,
    /// No half-edge: the loop is lone at this vertex.
    Lone(u32),
    /// The ring in which this code stands.
    At(u32),
}

/// A loop of a face.
#[derive(Clone, Copy)]
pub struct LoopCell {
    /// The face's number.
    pub face: u32,
    /// What the loop holds.
    pub stored: StoredContent,
}

/// Whether loop l is there and names face f.
pub fn names(loops: &Rows<LoopCell>, l: u32, f: u32) -> bool
    ensures { result ≡ names f (row_at loops.now l) }
{
    loops.has(l) && loops.known(l).face == f
}
