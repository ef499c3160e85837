#![tactic(auto)]
//! Which solids are convex, that they have a volume, which half-spaces a split keeps to, and which way a face looks.
//!
//! # What is proved
//!
//! A new block is strictly convex: its faces are flat, none of its vertices lies above the plane of one of its faces, and at each of its edges the
//! two faces bend away from each other. Each other solid that was convex before a block or a split still is, and strictly so if it was. Each strictly
//! convex solid of a sound model has a volume greater than 0. For any solid that is split, convex or not: each half-space that holds the solid holds
//! both parts, and the parts lie on the two sides of the plane. If the half-edges of a face go round a vector, the face's normal points along it. Both
//! parts of a strictly convex solid are strictly convex, and so have a volume. So whatever blocks, splits, undos and redos make, from the empty model on,
//! has only strictly convex solids, each with a volume. A split of a strictly convex solid is refused for few reasons: its faces are flat, none that
//! straddles the plane is touched, each loop of these is cut, and the section has no hole.

ghost use Rattle.convex_laws.specs.Convex.{BlockKeepsConvex, BlockKeepsStrictlyConvex, BlocksAreConvex, BuiltAreConvex, BuiltHaveVolume, ConvexSolidsHaveVolume, ConvexSplitsAreRefusedFor, PartsOfConvexSolidsHaveVolume, RoundLooksAlong, SplitLeavesConvex, SplitLeavesStrictlyConvex, SplitPartsLieApart, SplitsKeepStrictlyConvex, SplitsStayBelow};

/// A new block is strictly convex: each face is flat, no vertex of the solid lies above the plane of one of its faces, and at each edge the two
/// faces bend away from each other, so each half-edge points along the product of its face's normal and that of its mate's face.
pub fn blocks_are_convex()
    ensures { BlocksAreConvex }
{}

/// A strictly convex solid has a volume: six times it, as it is measured, is greater than 0.
pub fn convex_solids_have_volume()
    ensures { ConvexSolidsHaveVolume }
{}

/// If no vertex of a solid lies above a plane, and the solid is split, along whatever plane, then no vertex of either part lies above it.
pub fn splits_stay_below()
    ensures { SplitsStayBelow }
{}

/// The parts of a split lie on the two sides of its plane: no vertex of the lower part is above it, and none of the upper part below it.
pub fn parts_lie_apart()
    ensures { SplitPartsLieApart }
{}

/// Every other solid that was convex before a block or a split is convex after it, and strictly convex if it was.
pub fn others_stay_convex()
    ensures block { BlockKeepsConvex }
    ensures split { SplitLeavesConvex }
    ensures strictly_block { BlockKeepsStrictlyConvex }
    ensures strictly_split { SplitLeavesStrictlyConvex }
{}

/// If the half-edges of a face go round a vector, seen from some point, the face's normal points along it.
pub fn round_looks_along()
    ensures { RoundLooksAlong }
{}

/// Both parts of a strictly convex solid are strictly convex after a split, along whatever plane, and so both have a volume greater than 0.
pub fn splits_keep_strictly_convex()
    ensures parts { SplitsKeepStrictlyConvex }
    ensures volumes { PartsOfConvexSolidsHaveVolume }
{}

/// A split of a strictly convex solid is refused only because of its numbers or its plane, because a face has a lone loop, because the plane misses the
/// solid or meets an edge off the lattice, or because cut places or section edges meet at one point, as on a solid that is wound twice.
pub fn convex_splits_are_refused_for()
    ensures { ConvexSplitsAreRefusedFor }
{}

/// Whatever accepted blocks, splits, undos and redos make, in any order and number, has only strictly convex solids, and each has a volume greater than 0.
pub fn built_are_convex()
    ensures solids { BuiltAreConvex }
    ensures volumes { BuiltHaveVolume }
{}
