#![tactic(auto)]
//! Euler operators and their conditions.
//!
//! # What is proved
//!
//! `FaceList` is a list; `Why::code` is the printed number. Conditions, effects and inverses are definitions, and are tested by scripts with their
//! replies.

ghost use Rattle.std.specs.Prelude.{◌≡◌, ℕ, List, [], ◌++◌, ◌∷◌, length, OnOk, OnErr, Err, slice_index, ◌<◌};
ghost use Rattle.euler_operators.specs.Refusal.{code_of};

pub use boundary_model::{
    COORDINATE_LIMIT, Content, Corner, HALF_EDGE_CODES, HalfEdge, Kind, NUMBER_LIMIT, PackedCorner,
    Plane, Point, Sign, cross_add, cut_point, dot, is_number, lex_cmp, point_in_range, side, sum,
    sum_in_range,
};
use std::alloc::{AllocError, Global};
use std::marker::Model;

/// A list of face numbers.
#[derive(Drop)]
pub struct FaceList {
    faces: Vec<u32>,
}

impl Model for FaceList {
    ghost Value = { List ℕ };

    ghost view = { λ a. a.faces.items };
}

impl FaceList {
    /// The empty list. It takes no memory.
    pub fn new(alloc: Global) -> Self
        ensures { result ≡ [] }
    {
        Self {
            faces: Vec::new(alloc),
        }
    }

    /// The list of these numbers.
    pub fn of(faces: Vec<u32>) -> Self
        ensures { result ≡ faces.items }
    {
        Self { faces }
    }

    /// Appends a number.
    pub fn push(&mut self, face: u32) -> Result<(), AllocError>
        ensures ok { OnOk result (self.new ≡ self.old ++ face ∷ []) }
        ensures err { OnErr result (self.new ≡ self.old) }
    {
        self.faces.push(face)?;
        Ok(())
    }

    pub fn len(&self) -> usize
        ensures { result ≡ length self.now }
    {
        self.faces.len()
    }

    pub fn get(&self, index: usize) -> u32
        requires { index < length self.now }
        ensures { result ≡ slice_index self.now index }
    {
        self.faces[index]
    }
}

/// An Euler operator, with the numbers that its inverse needs.
#[derive(Drop)]
pub enum Op {
    /// Solid, face, outer loop, vertex and its point.
    Mvfs(u32, u32, u32, u32, Point),
    Kvfs(u32),
    /// Two corners, the new half-edge that starts at the old vertex, the new vertex and its point.
    Mev(PackedCorner, PackedCorner, HalfEdge, u32, Point),
    Kev(HalfEdge),
    /// Two corners, the new half-edge, the new face and its loop.
    Mef(HalfEdge, HalfEdge, HalfEdge, u32, u32),
    Kef(HalfEdge),
    /// The half-edge, and the new ring.
    Kemr(HalfEdge, u32),
    Mekr(PackedCorner, PackedCorner, HalfEdge),
    Kfmrh(u32, u32),
    /// The ring, and the new face.
    Mfkrh(u32, u32),
    RingIn(u32, u32),
    RingOut(u32, u32),
    Outer(u32, u32),
    Merge(u32, u32),
    Part(u32, u32, FaceList),
}

/// Why a command is refused.
#[derive(Clone, Copy, Debug, PartialEq, Eq)]
pub enum Why {
    NumberRange,
    NoSolid,
    NoFace,
    NoLoop,
    NoEdge,
    SolidTaken,
    FaceTaken,
    LoopTaken,
    EdgeTaken,
    VertexTaken,
    PointRange,
    NotBare,
    NotLone,
    DifferentTails,
    ParallelEdge,
    KeptEndBare,
    DifferentLoops,
    SameTail,
    SameFace,
    HasRings,
    SameLoop,
    DifferentFaces,
    NotRing,
    DifferentSolids,
    NothingToUndo,
    NothingToRedo,
    NumbersSpent,
    FewPoints,
    ZeroSweep,
    LoneLoop,
    SameSolid,
    NotFlat,
    RepeatedPoint,
    NoMatch,
    PlaneRange,
    PlaneMisses,
    NotLattice,
    TouchedFace,
    CutOften,
    CutCrossed,
    BranchedVertex,
    SectionHoles,
    SizeRange,
    BadPart,
}

impl Why {
    /// The number that a reply prints.
    pub fn code(self) -> u32
        ensures { result ≡ code_of self }
    {
        match self {
            Why::NumberRange => 1,
            Why::NoSolid => 2,
            Why::NoFace => 3,
            Why::NoLoop => 4,
            Why::NoEdge => 5,
            Why::SolidTaken => 6,
            Why::FaceTaken => 7,
            Why::LoopTaken => 8,
            Why::EdgeTaken => 9,
            Why::VertexTaken => 10,
            Why::PointRange => 11,
            Why::NotBare => 12,
            Why::NotLone => 13,
            Why::DifferentTails => 14,
            Why::ParallelEdge => 15,
            Why::KeptEndBare => 16,
            Why::DifferentLoops => 17,
            Why::SameTail => 18,
            Why::SameFace => 19,
            Why::HasRings => 20,
            Why::SameLoop => 21,
            Why::DifferentFaces => 22,
            Why::NotRing => 23,
            Why::DifferentSolids => 24,
            Why::NothingToUndo => 25,
            Why::NothingToRedo => 26,
            Why::NumbersSpent => 27,
            Why::FewPoints => 28,
            Why::ZeroSweep => 29,
            Why::LoneLoop => 30,
            Why::SameSolid => 31,
            Why::NotFlat => 32,
            Why::RepeatedPoint => 33,
            Why::NoMatch => 34,
            Why::PlaneRange => 35,
            Why::PlaneMisses => 36,
            Why::NotLattice => 37,
            Why::TouchedFace => 38,
            Why::CutOften => 39,
            Why::CutCrossed => 40,
            Why::BranchedVertex => 41,
            Why::SectionHoles => 42,
            Why::SizeRange => 43,
            Why::BadPart => 44,
        }
    }
}

/// A refusal: the condition that is false, and its value.
#[derive(Clone, Copy, Debug, PartialEq, Eq)]
pub struct Refusal {
    pub why: Why,
    pub number: u32,
}

/// A refusal.
pub fn refused(why: Why, number: u32) -> Result<(), Refusal>
    ensures { result ≡ Err (record { why = why; number = number }) }
{
    Err(Refusal { why, number })
}
