#![tactic(auto)]
//! The laws of the first two rewritings of a split: the edges that cross the plane are cut, and edges are drawn between the cut places of
//! faces. They say on which side of the plane loops and faces then lie, and what the volumes are. The functions do nothing: their contracts
//! are what is proved, over every sound model in which the first conditions of a split hold.
//!
//! `crossings`: edges are cut, operator by operator (`operators_cut_crossings`, `crossings_leave`). `drawings`: edges are drawn, operator
//! by operator, in all faces whose pairs of half-edges fit (`drawings_are_made`). `pairs`: the cut places of a face fit in this sense
//! (`cut_places_can_be_drawn`, `rewritings_are_accepted`). `half_sides`, `loop_sides`, `face_sides`: on which side of the plane half-edges,
//! loops and faces lie (`half_edges_take_sides`, `loops_lie_on_one_side`, `faces_lie_on_one_side`). `cut_volumes`, `drawn_volumes`: the six
//! volumes in each of the two rewritings (`crossings_keep_volumes`, `drawings_keep_volumes`). `tables`: both rewritings as rewritings of
//! tables, without operators (`rewritings_are_of_tables`).
//!
//! # What is proved
//!
//! The first two rewritings, from a sound model in which the first conditions of a split hold: the operators that cut the crossing edges
//! and draw edges between the cut places are accepted, each in its turn, and together make exactly the drawn model, which is sound
//! (`operators_cut_crossings`, `drawings_are_made`, `cut_places_can_be_drawn`, `rewritings_are_accepted`). The definitions of the drawn
//! model name the operators; a law says that it is a rewriting of the model's tables (`rewritings_are_of_tables`). `crossings_leave`: after
//! the edges are cut, no edge of the solid crosses the plane, and a half-edge starts at each cut place. `half_edges_take_sides`: the
//! half-edges of the solid have sides, which change only at cut places. So a drawing that isn't stuck leaves each loop of the solid on one
//! closed side of the plane (`loops_lie_on_one_side`), and leaves the solid no face that straddles the plane and no lone loop
//! (`faces_lie_on_one_side`). A face that straddles the plane has an even number of cut places (`cut_places_can_be_drawn`). Cutting edges
//! and drawing faces keeps the six volumes of every solid, and each face of the solid then lies on the plane of a face that the solid had
//! before (`crossings_keep_volumes`, `drawings_keep_volumes`).

ghost use Rattle.split_drawing_laws.specs.crossings.Laws.{CrossingsAreAccepted, CrossingsAreMade, CrossingsAreSound, CrossingsAreCounted, CrossingsKeep, NoneCrosses, PlacesStart, TailsStay};
ghost use Rattle.split_drawing_laws.specs.drawings.Laws.{DrawingsAreAccepted, DrawingsAreMade, DrawingsAreSound, DrawingsKeep};
ghost use Rattle.split_drawing_laws.specs.pairs.Laws.{CutPlacesCanBeDrawn, CutPlacesPairUp, RewritingsAreAccepted, RewritingsAreMade, RewritingsAreSound};
ghost use Rattle.split_drawing_laws.specs.loop_sides.Laws.{LoopsLieOnOneSide};
ghost use Rattle.split_drawing_laws.specs.half_sides.Laws.{HalfEdgesTakeSides};
ghost use Rattle.split_drawing_laws.specs.face_sides.Laws.{LoopsOfSolidsLieOnOneSide, NoneStraddles, SolidsHaveNoLoneLoop};
ghost use Rattle.split_drawing_laws.specs.cut_volumes.Laws.{CrossingsKeepNormals, CrossingsKeepPlanes, CrossingsKeepFlat, CrossingsKeepVolumes};
ghost use Rattle.split_drawing_laws.specs.tables.Laws.{CrossingsAreDoubled, DrawingsAreCut, RewritingsAreOfTables};
ghost use Rattle.split_drawing_laws.specs.drawn_volumes.Laws.{DrawingsKeepPlanes, DrawingsKeepVolumes};

/// None of the operators that cut the crossing edges is refused. Together they make the first rewriting, a sound model in which the numbers
/// taken are the greatest in use.
pub fn operators_cut_crossings()
    ensures accepted { CrossingsAreAccepted }
    ensures made { CrossingsAreMade }
    ensures sound { CrossingsAreSound }
    ensures counted { CrossingsAreCounted }
{}

/// Solids and faces stay, each loop keeps its face, each half-edge its loop, and each vertex its point. Each half-edge keeps its tail,
/// except for the plus halves of the edges that were cut. No edge of the solid crosses the plane any more. At each cut place of a face that
/// straddles, a half-edge starts at the place's point.
pub fn crossings_leave()
    ensures kept { CrossingsKeep }
    ensures cleared { NoneCrosses }
    ensures starts { PlacesStart }
    ensures tails { TailsStay }
{}

/// Edges are drawn in faces. None of the operators is refused, they make the drawing, the drawing is a sound model, and each half-edge
/// stays and starts where it did.
pub fn drawings_are_made()
    ensures accepted { DrawingsAreAccepted }
    ensures made { DrawingsAreMade }
    ensures sound { DrawingsAreSound }
    ensures kept { DrawingsKeep }
{}

/// After the edges that cross the plane are cut, the pairs of cut places of each face that straddles fit: their half-edges belong to that
/// face and start at different vertices, a pair that is the only one stands in one loop, and numbers are left for all. Such a face has an
/// even number of cut places, so each stands in a pair.
pub fn cut_places_can_be_drawn()
    ensures drawable { CutPlacesCanBeDrawn }
    ensures paired { CutPlacesPairUp }
{}

/// None of the operators that cut the crossing edges and then draw the faces is refused. Together they make both rewritings, a sound model.
pub fn rewritings_are_accepted()
    ensures accepted { RewritingsAreAccepted }
    ensures made { RewritingsAreMade }
    ensures sound { RewritingsAreSound }
{}

/// The first two rewritings, in terms of the tables alone. The edges that cross the plane are doubled: in the loops `+e` becomes `+E +e`,
/// and `-e` becomes `-e -E`. A chord between the half-edges of a pair makes two loops of one: `A B` becomes `+E B`, and `A -E` bounds a new
/// face. A bridge makes one loop of two: X and Y become `+E X -E Y`.
pub fn rewritings_are_of_tables()
    ensures doubled { CrossingsAreDoubled }
    ensures cut { DrawingsAreCut }
    ensures tables { RewritingsAreOfTables }
{}

/// Edges are drawn in faces, and no face is stuck. Then each loop lies on one closed side of the plane.
pub fn loops_lie_on_one_side()
    ensures sides { LoopsLieOnOneSide }
{}

/// After the edges that cross the plane are cut, each half-edge has a side: in a face that straddles, it is the side of its ends; in
/// another face, that of the whole face. The half-edges of the solid start on their sides, and going round a loop the side changes only at
/// the cut places.
pub fn half_edges_take_sides()
    ensures sides { HalfEdgesTakeSides }
{}

/// Edges are cut and drawn, and no face is stuck. Then each loop of the solid lies on one closed side of the plane, no face of the solid
/// straddles the plane any more, and none of its loops is lone.
pub fn faces_lie_on_one_side()
    ensures loops { LoopsOfSolidsLieOnOneSide }
    ensures faces { NoneStraddles }
    ensures lone { SolidsHaveNoLoneLoop }
{}

/// While the edges of a solid that cross a plane are cut, each face keeps its normal; if all corners of a face lie on some plane, the
/// corners that it then has lie on it too; the faces of the solid stay flat, and every solid keeps its six volumes.
pub fn crossings_keep_volumes()
    ensures normals { CrossingsKeepNormals }
    ensures planes { CrossingsKeepPlanes }
    ensures flat { CrossingsKeepFlat }
    ensures volumes { CrossingsKeepVolumes }
{}

/// After edges are drawn in the faces that straddle a plane, each face of the solid lies on the plane of a face that the solid had before
/// any edge was cut. A face that the solid had before lies on its own plane. Every solid keeps its six volumes.
pub fn drawings_keep_volumes()
    ensures planes { DrawingsKeepPlanes }
    ensures volumes { DrawingsKeepVolumes }
{}
