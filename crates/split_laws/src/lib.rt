#![tactic(auto)]
//! The laws of splits: a plane splits a solid, operator by operator; the six volumes of its two parts, and the sides on which they lie. The
//! functions do nothing: their contracts are what is proved, over every sound model and every split that isn't refused.
//!
//! `drawn`: what a solid has after its faces are drawn (`solids_reach_both_sides`, `sections_can_be_opened`). The files beside the folders:
//! the openings and the whole split, operator by operator (`sections_open_in_turn`, `splits_make_split`). `opened`: the volumes while a
//! solid is opened along cycles on a plane (`openings_keep_volumes`). `volumes`: the volumes of the two parts, over a drawn model that can
//! be split (`parting_shares_volumes`, `closed_holes_keep_volumes`, `splits_share_volumes`). `sides`: where the parts lie
//! (`parts_lie_on_their_sides`). `measures`: the same for every split that isn't refused (`splits_can_be_split`, `parts_share_volumes`,
//! `parts_lie_on_either_side`).
//!
//! # What is proved
//!
//! These hold of a split that isn't refused. After its faces are drawn, the solid has a face above and one that isn't
//! (`solids_reach_both_sides`), and can be opened along its section (`sections_can_be_opened`). All operators of the split are accepted,
//! each in its turn, and together make exactly the split's model, which is sound (`splits_make_split`). Opening a solid along cycles on a
//! plane keeps the six volumes of every solid. The two parts of a solid that was opened share its six volumes, and every other solid keeps
//! its own (`SplitSharesVolumes`, over a drawn model with `CanBeSplit`). If no face of a solid straddles the plane, the part above lies on
//! or above it, and the part that stays lies on or below it, half-edge by half-edge (over the same `CanBeSplit`). Every split that isn't
//! refused meets `CanBeSplit` after its faces are drawn (`splits_can_be_split`). So the two parts are solids of the model, their six
//! volumes sum to those of the solid, and every other solid keeps its own (`parts_share_volumes`). No loop of either part is lone, so no
//! vertex of the solid that keeps its number lies above the plane, and none of the new one lies below it (`parts_lie_on_either_side`).

ghost use Rattle.split_laws.specs.drawn.Laws.{DrawingsKeepSolids, SolidsHaveAFaceAbove, SolidsHaveAFaceBelow, SectionsOpenInTurn};
ghost use Rattle.split_laws.specs.Laws.{OpeningsAreAccepted, OpeningsAreMade, SplitsAreAccepted, SplitsMakeSplit, SplitAreSound};
ghost use Rattle.split_laws.specs.opened.Laws.{OpeningKeepsVolumes, OpeningsKeepVolumes, CapsLieAlong};
ghost use Rattle.split_laws.specs.volumes.Laws.{PartSharesVolumes, PartKeepsOthers, ClosingKeepsVolumes, SplitSharesVolumes, SplitKeepsOthers};
ghost use Rattle.split_laws.specs.sides.Laws.{FacesAreSided, OpeningsKeepSides, PartsLieOnTheirSides};
ghost use Rattle.split_laws.specs.measures.Laws.{SplitsCanBeSplit, PartsAreSolids, SplitsShareVolumes, SplitsKeepOthers, PartsLieOnEitherSide, PartsHaveNoLoneLoop, VerticesLieOnEitherSide};

/// Edges are cut and faces drawn. Each half-edge stays in its solid, and the solid that is split has a face above and one that isn't.
pub fn solids_reach_both_sides()
    ensures kept { DrawingsKeepSolids }
    ensures above { SolidsHaveAFaceAbove }
    ensures below { SolidsHaveAFaceBelow }
{}

/// The solid can then be opened along the cycles of its section, one after the other.
pub fn sections_can_be_opened()
    ensures in_turn { SectionsOpenInTurn }
{}

/// If a solid can be opened along the cycles of its section in turn, none of the operators is refused, and they leave it open along all of
/// them.
pub fn sections_open_in_turn()
    ensures accepted { OpeningsAreAccepted }
    ensures made { OpeningsAreMade }
{}

/// If a split isn't refused, none of its operators is; they leave the solid split, and that is a sound model.
pub fn splits_make_split()
    ensures accepted { SplitsAreAccepted }
    ensures made { SplitsMakeSplit }
    ensures sound { SplitAreSound }
{}

/// A solid that is opened along a cycle on a plane keeps its six volumes: the two caps lie on the plane and face each other, so together
/// they add nothing. All other solids keep theirs. The same holds for all cycles of a section, one after the other.
pub fn openings_keep_volumes()
    ensures one { OpeningKeepsVolumes }
    ensures all { OpeningsKeepVolumes }
    ensures caps { CapsLieAlong }
{}

/// Some faces of a solid are parted from it as a new solid. The two share its six volumes, and all other solids keep theirs.
pub fn parting_shares_volumes()
    ensures two { PartSharesVolumes }
    ensures others { PartKeepsOthers }
{}

/// The caps of holes become rings of the outer cycle's caps. All these lie on one plane, so what they add to the six volumes stays.
pub fn closed_holes_keep_volumes()
    ensures all { ClosingKeepsVolumes }
{}

/// A solid is opened along all cycles of its section, its holes are closed, and its upper faces are parted from it. The two parts share its
/// six volumes, and all other solids keep theirs.
pub fn splits_share_volumes()
    ensures two { SplitSharesVolumes }
    ensures others { SplitKeepsOthers }
{}

/// If no face of a solid straddles the plane, its faces above lie on or above it and the others on or below it. The two parts of the solid
/// then do the same: copies lie where their vertices do, and the corners of the caps lie on the plane.
pub fn parts_lie_on_their_sides()
    ensures drawn { FacesAreSided }
    ensures opened { OpeningsKeepSides }
    ensures parts { PartsLieOnTheirSides }
{}

/// If a split isn't refused, then after edges are cut and faces drawn the solid can be opened along its section, which lies wholly on the
/// plane; each face of the solid tells the same from all its corners; no hole is stray; and the new solid's number is free.
pub fn splits_can_be_split()
    ensures all { SplitsCanBeSplit }
{}

/// So there are then two solids that share the six volumes of the one, and all others keep theirs.
pub fn parts_share_volumes()
    ensures solids { PartsAreSolids }
    ensures two { SplitsShareVolumes }
    ensures others { SplitsKeepOthers }
{}

/// The solid that keeps its number lies on or below the plane, the new one on or above it. This holds for the starts of their half-edges
/// and, since no loop of either is lone, for all their vertices.
pub fn parts_lie_on_either_side()
    ensures sides { PartsLieOnEitherSide }
    ensures lone { PartsHaveNoLoneLoop }
    ensures vertices { VerticesLieOnEitherSide }
{}
