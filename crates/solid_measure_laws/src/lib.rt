#![tactic(auto)]
//! The laws of normals and volumes (`flat_faces`, `turned_loops`, `moved_solids_keep_volumes`) and of cut points (`cut_points`). Each
//! function does nothing: its contract is what is proved.
//!
//! # What is proved
//!
//! `flat_faces`: if all corners of a face lie on a plane, all points of that plane have one value along the face's normal. So a flat face's
//! part of the six volumes may be taken from any of its corners. `turned_loops`: if loops are run the other way, they have the opposite
//! area, their faces have the opposite normal, and a solid with flat faces has the opposite volume. `moved_solids_keep_volumes`: the
//! normals of a sound model's solid sum to nothing, so a solid that is moved keeps its six volumes, and each face its normal. `cut_points`:
//! the cut point lies on the plane, strictly inside the segment, and on each plane on which both ends lie. If a lattice point lies there,
//! it is the cut point, so if there is no cut point, no lattice point lies there.

ghost use Rattle.solid_measure_laws.specs.Laws.{FlatFaces, ToldAnywhere, ToldFromCorners, TurnedPaths, OpposedFaces, TurnedFaces, InvertedSolids, ShiftedFaces, ShiftedSolids, ClosedSolids, MovedSolids, CutsOnPlane, CutsInside, CutsMissNone, CutsOnEachPlane, CutsKeepAreas, CutsEitherWay};

/// If all corners of a face lie on a plane, all points of that plane have the same product along the face's normal. So what a flat face
/// adds to the six volumes may be computed from any of its corners, and from any point of its plane.
pub fn flat_faces()
    ensures alike { FlatFaces }
    ensures anywhere { ToldAnywhere }
    ensures corners { ToldFromCorners }
{}

/// If loops are run the other way, along the other halves of their edges, they have the opposite area, and so faces have the opposite
/// normal. This turns a solid with flat faces inside out, and its volume is the opposite one.
pub fn turned_loops()
    ensures paths { TurnedPaths }
    ensures opposed { OpposedFaces }
    ensures faces { TurnedFaces }
    ensures inside_out { InvertedSolids }
{}

/// If every vertex is moved by one vector, each face keeps its normal, and each solid its six volumes: these grow by the sum of its faces'
/// normals along the vector, and that sum is nothing.
pub fn moved_solids_keep_volumes()
    ensures faces { ShiftedFaces }
    ensures grown { ShiftedSolids }
    ensures closed { ClosedSolids }
    ensures kept { MovedSolids }
{}

/// If the ends of a segment lie strictly on opposite sides of a plane, and the point between them on the plane has whole coordinates, this
/// cut point lies on the plane, and divides the segment as the heights of its ends. No lattice point is missed: one that lies on the plane
/// inside the segment is the cut point. The cut point lies on each plane on which both ends lie; a half-edge that is cut there keeps its
/// part of an area; and the cut point is the same from either end.
pub fn cut_points()
    ensures on_plane { CutsOnPlane }
    ensures inside { CutsInside }
    ensures none_missed { CutsMissNone }
    ensures on_each { CutsOnEachPlane }
    ensures areas { CutsKeepAreas }
    ensures either_way { CutsEitherWay }
{}
