//! Calls of C: the model held, read without text. Each says 1 if the value is there, and writes it; 0 if it is not there, and 9 if there is no
//! session. In both cases nothing is written.
ghost use Rattle.std.specs.Prelude.{◌≡◌};
ghost use Rattle.session_slots.specs.Common.{face_in, face_of_loop_in, edge_in, point_in, lone_in, after_in, before_in, loop_in, IsRingAfter, IsFaceAfter, AreHalfEdges, AreRows, IsFirst, IsStart, kind_of, IsNumberAfter, slot_in};
ghost use Rattle.gwb_c.specs.Handle.{Reads, Finds, Lists, GivesFresh};

use crate::fresh::{Range, fresh_of};
use crate::told::{CLOSED, give, told_of};
use session_slots::{EdgeRow, FaceRow, GwbLent, HalfEdgeRow, Place, staged};
use solid_walks::counters_of;

/// The solid and the outer loop of a face.
#[unsafe(no_mangle)]
pub extern "C" fn gwb_lent_face(gwb: &mut GwbLent, face: u32, row: &mut FaceRow) -> u32
    ensures state { gwb.new.lent.loan ≡ gwb.old.lent.loan }
    ensures value { Reads (face_in face) (slot_in gwb.old.lent.loan) row.old row.new result }
{
    told_of!(gwb, CLOSED, slot => give(session_slots::face(staged(slot).arena(), face), row))
}

/// The face of a loop.
#[unsafe(no_mangle)]
pub extern "C" fn gwb_lent_loop(gwb: &mut GwbLent, l: u32, face: &mut u32) -> u32
    ensures state { gwb.new.lent.loan ≡ gwb.old.lent.loan }
    ensures value { Reads (face_of_loop_in l) (slot_in gwb.old.lent.loan) face.old face.new result }
{
    told_of!(gwb, CLOSED, slot => give(session_slots::face_of_loop(staged(slot).arena(), l), face))
}

/// The vertices at which the half-edges of an edge start.
#[unsafe(no_mangle)]
pub extern "C" fn gwb_lent_edge(gwb: &mut GwbLent, edge: u32, row: &mut EdgeRow) -> u32
    ensures state { gwb.new.lent.loan ≡ gwb.old.lent.loan }
    ensures value { Reads (edge_in edge) (slot_in gwb.old.lent.loan) row.old row.new result }
{
    told_of!(gwb, CLOSED, slot => give(session_slots::edge(staged(slot).arena(), edge), row))
}

/// The coordinates of a vertex.
#[unsafe(no_mangle)]
pub extern "C" fn gwb_lent_vertex(gwb: &mut GwbLent, vertex: u32, place: &mut Place) -> u32
    ensures state { gwb.new.lent.loan ≡ gwb.old.lent.loan }
    ensures value { Reads (point_in vertex) (slot_in gwb.old.lent.loan) place.old place.new result }
{
    told_of!(gwb, CLOSED, slot => give(session_slots::vertex(staged(slot).arena(), vertex), place))
}

/// The vertex of a loop that has one and no edge.
#[unsafe(no_mangle)]
pub extern "C" fn gwb_lent_lone_vertex(gwb: &mut GwbLent, l: u32, vertex: &mut u32) -> u32
    ensures state { gwb.new.lent.loan ≡ gwb.old.lent.loan }
    ensures value { Reads (lone_in l) (slot_in gwb.old.lent.loan) vertex.old vertex.new result }
{
    told_of!(gwb, CLOSED, slot => give(session_slots::lone_vertex(staged(slot).arena(), l), vertex))
}

/// The half-edge after another in its loop.
#[unsafe(no_mangle)]
pub extern "C" fn gwb_lent_next_half_edge(gwb: &mut GwbLent, item: u32, next: &mut u32) -> u32
    ensures state { gwb.new.lent.loan ≡ gwb.old.lent.loan }
    ensures value { Reads (after_in item) (slot_in gwb.old.lent.loan) next.old next.new result }
{
    told_of!(gwb, CLOSED, slot => give(session_slots::next_half_edge(staged(slot).arena(), item), next))
}

/// The half-edge before another in its loop.
#[unsafe(no_mangle)]
pub extern "C" fn gwb_lent_previous_half_edge(
    gwb: &mut GwbLent,
    item: u32,
    previous: &mut u32,
) -> u32
    ensures state { gwb.new.lent.loan ≡ gwb.old.lent.loan }
    ensures value { Reads (before_in item) (slot_in gwb.old.lent.loan) previous.old previous.new result }
{
    told_of!(gwb, CLOSED, slot => give(session_slots::previous_half_edge(staged(slot).arena(), item), previous))
}

/// The loop in which a half-edge stands.
#[unsafe(no_mangle)]
pub extern "C" fn gwb_lent_half_edge_loop(gwb: &mut GwbLent, item: u32, l: &mut u32) -> u32
    ensures state { gwb.new.lent.loan ≡ gwb.old.lent.loan }
    ensures value { Reads (loop_in item) (slot_in gwb.old.lent.loan) l.old l.new result }
{
    told_of!(gwb, CLOSED, slot => give(session_slots::half_edge_loop(staged(slot).arena(), item), l))
}

/// A half-edge of a loop.
#[unsafe(no_mangle)]
pub extern "C" fn gwb_lent_first_half_edge(gwb: &mut GwbLent, l: u32, item: &mut u32) -> u32
    ensures state { gwb.new.lent.loan ≡ gwb.old.lent.loan }
    ensures value { Finds (IsFirst l) (slot_in gwb.old.lent.loan) item.old item.new result }
{
    told_of!(gwb, CLOSED, slot => give(session_slots::first_half_edge(staged(slot).arena(), l), item))
}

/// A half-edge that starts at a vertex. It looks first where one is likely, and, if there is none, at all edges.
#[unsafe(no_mangle)]
pub extern "C" fn gwb_lent_vertex_half_edge(gwb: &mut GwbLent, vertex: u32, item: &mut u32) -> u32
    ensures state { gwb.new.lent.loan ≡ gwb.old.lent.loan }
    ensures value { Finds (IsStart vertex) (slot_in gwb.old.lent.loan) item.old item.new result }
{
    told_of!(gwb, CLOSED, slot => give(session_slots::vertex_half_edge(staged(slot).arena(), vertex), item))
}

/// Writes the half-edges of a loop in their order round it, from any of them on, as far as there is room, and says how many there are: 0 if the loop
/// is lone or not there, `SIZE_MAX` if there is no session. It walks round the loop once.
#[unsafe(no_mangle)]
pub extern "C" fn gwb_lent_half_edges(gwb: &mut GwbLent, l: u32, buf: &mut [u32]) -> usize
    ensures state { gwb.new.lent.loan ≡ gwb.old.lent.loan }
    ensures items { Lists (AreHalfEdges l) (slot_in gwb.old.lent.loan) buf.old buf.new result }
{
    told_of!(gwb, usize::MAX, slot => session_slots::half_edges(staged(slot).arena(), l, buf))
}

/// Writes a row for each half-edge of a face, as far as there is room, and says how many there are. The rows are those of its outer loop, then those
/// of its rings by rising number, each loop in its order. 0 if the face is not there, `SIZE_MAX` if there is no session.
#[unsafe(no_mangle)]
pub extern "C" fn gwb_lent_half_edge_rows(
    gwb: &mut GwbLent,
    face: u32,
    rows: &mut [HalfEdgeRow],
) -> usize
    ensures state { gwb.new.lent.loan ≡ gwb.old.lent.loan }
    ensures items { Lists (AreRows face) (slot_in gwb.old.lent.loan) rows.old rows.new result }
{
    told_of!(gwb, usize::MAX, slot => session_slots::half_edge_rows(staged(slot).arena(), face, rows))
}

/// The least ring of a face above the one given.
#[unsafe(no_mangle)]
pub extern "C" fn gwb_lent_ring_after(
    gwb: &mut GwbLent,
    face: u32,
    last: u32,
    ring: &mut u32,
) -> u32
    ensures state { gwb.new.lent.loan ≡ gwb.old.lent.loan }
    ensures value { Finds (IsRingAfter face last) (slot_in gwb.old.lent.loan) ring.old ring.new result }
{
    told_of!(gwb, CLOSED, slot => give(session_slots::ring_after(staged(slot).arena(), face, last), ring))
}

/// The least face of a solid above the one given.
#[unsafe(no_mangle)]
pub extern "C" fn gwb_lent_face_after(
    gwb: &mut GwbLent,
    solid: u32,
    last: u32,
    face: &mut u32,
) -> u32
    ensures state { gwb.new.lent.loan ≡ gwb.old.lent.loan }
    ensures value { Finds (IsFaceAfter solid last) (slot_in gwb.old.lent.loan) face.old face.new result }
{
    told_of!(gwb, CLOSED, slot => give(session_slots::face_after(staged(slot).arena(), solid, last), face))
}

/// The least number of a kind in use above the one given: 0 for solids, 1 for faces, 2 for loops, 3 for edges, 4 for vertices.
#[unsafe(no_mangle)]
pub extern "C" fn gwb_lent_number_after(
    gwb: &mut GwbLent,
    entity: u32,
    last: u32,
    number: &mut u32,
) -> u32
    ensures state { gwb.new.lent.loan ≡ gwb.old.lent.loan }
    ensures value { Finds (IsNumberAfter (kind_of entity) last) (slot_in gwb.old.lent.loan) number.old number.new result }
{
    told_of!(gwb, CLOSED, slot => give(session_slots::number_after(staged(slot).arena(), entity, last), number))
}

/// The numbers that the last line brought into use above all that were in use before it: 1 for faces, 2 for loops, 3 for edges, 4 for
/// vertices.
#[unsafe(no_mangle)]
pub extern "C" fn gwb_lent_fresh(gwb: &mut GwbLent, entity: u32, range: &mut Range) -> u32
    ensures state { gwb.new.lent.loan ≡ gwb.old.lent.loan }
    ensures value { GivesFresh entity (slot_in gwb.old.lent.loan) range.old range.new result }
{
    told_of!(gwb, CLOSED, slot => give(fresh_of(slot.before, counters_of(staged(slot).arena()), entity), range))
}
