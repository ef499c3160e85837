//! Half-edges written into the caller's buffer: those of a loop by their codes, or a row for each of those of a face.
ghost use Rattle.std.specs.Prelude.{◌≡◌, ℕ, ◌+◌, ◌≤◌, true, length, map, slice_set};
ghost use Rattle.euler_operators.specs.Common.{rotate_to, Model, Sound, has_half, cycle_of, loop_of, face_of, rings_of, after};
ghost use Rattle.euler_conditions.specs.Store.{has_number};
ghost use Rattle.euler_conditions.specs.Ready.{IsReady};
ghost use Rattle.session_slots.specs.Written.{laid_at, WritesOne, WritesFrom};
ghost use Rattle.session_slots.specs.Reading.{AreHalfEdges, AreTold, AreRows, row_of};

use euler_conditions::Arena;
use euler_operators::{Content, HalfEdge, Kind};
use solid_walks::{loops_of, next_code};

/// A half-edge, the vertex at which it starts, the half-edge after it in its loop, and the loop and the face in which it stands.
#[repr(C)]
#[derive(Clone, Copy)]
pub struct HalfEdgeRow {
    pub half_edge: u32,
    pub start: u32,
    pub next: u32,
    pub of_loop: u32,
    pub face: u32,
}

/// What is written of a half-edge.
trait Written: Copy {
    ghost told: { Model → ℕ → Self };

    /// What is written of a half-edge whose next one, loop and face are known.
    fn of(arena: &Arena, half_edge: u32, next: u32, of_loop: u32, face: u32) -> Self
        requires there { has_half arena.now.model half_edge ≡ true }
        requires next { next ≡ after arena.now.model half_edge }
        requires of_loop { of_loop ≡ loop_of arena.now.model half_edge }
        requires face { face ≡ face_of arena.now.model (loop_of arena.now.model half_edge) }
        ensures { result ≡ told arena.now.model half_edge };
}

impl Written for u32 {
    ghost told = { λ M h. h };

    #[inline(always)]
    fn of(_arena: &Arena, half_edge: u32, _next: u32, _of_loop: u32, _face: u32) -> u32 {
        half_edge
    }
}

impl Written for HalfEdgeRow {
    ghost told = { row_of };

    #[inline(always)]
    fn of(arena: &Arena, half_edge: u32, next: u32, of_loop: u32, face: u32) -> HalfEdgeRow {
        HalfEdgeRow {
            half_edge,
            start: arena.tail(HalfEdge::of_code(half_edge)),
            next,
            of_loop,
            face,
        }
    }
}

/// Writes an item at its place, if there is room for it.
fn put_at<T: Copy>(buf: &mut [T], at: usize, item: T)
    ensures { buf.new ≡ slice_set buf.old at item }
{
    if at < buf.len() {
        buf[at] = item;
    }
}

/// Writes the half-edges of a loop from the given one on, beginning at a place of the buffer and as far as there is room. It says at which place they
/// end. It walks round the loop once.
fn write_from<T: Written>(
    arena: &Arena,
    first: u32,
    of_loop: u32,
    face: u32,
    place: usize,
    buf: &mut [T],
) -> usize
    requires sound { Sound arena.now.model }
    requires there { has_half arena.now.model first ≡ true }
    requires of_loop { of_loop ≡ loop_of arena.now.model first }
    requires face { face ≡ face_of arena.now.model of_loop }
    requires place { place ≤ 2000002 }
    ensures count { result ≡ place + length (cycle_of arena.now.model first) }
    ensures items { buf.new ≡ laid_at place (map (T.told arena.now.model) (rotate_to first (cycle_of arena.now.model first))) buf.old }
{
    let mut at = first;
    let mut end = place;
    'round: loop {
        let next = next_code(arena, at);
        put_at(buf, end, T::of(arena, at, next, of_loop, face));
        end += 1;
        if next == first {
            return end;
        }
        at = next;
    }
}

/// The same for a loop that is there, from any half-edge on. A lone loop has no half-edges.
fn write_loop<T: Written>(arena: &Arena, l: u32, place: usize, buf: &mut [T]) -> usize
    requires sound { Sound arena.now.model }
    requires there { has_number arena.now Kind.Loop l ≡ true }
    requires place { place ≤ 2000002 }
    ensures { WritesFrom (AreTold T.told l arena.now.model) place buf.old buf.new result }
{
    match arena.content(l) {
        Content::Lone(_) => place,
        Content::Ring(half) => write_from(arena, half.code(), l, arena.face_of(l), place, buf),
    }
}

/// Writes the half-edges of a loop in their order round it, as far as there is room, and says how many there are.
pub fn half_edges(arena: &Arena, l: u32, buf: &mut [u32]) -> usize
    requires { Sound arena.now.model }
    ensures { WritesOne (AreHalfEdges l arena.now.model) buf.old buf.new result }
{
    if !arena.has(Kind::Loop, l) {
        return 0;
    }
    write_loop(arena, l, 0, buf)
}

/// Writes the rows of the half-edges of a face that is there.
fn write_loops(arena: &Arena, f: u32, rows: &mut [HalfEdgeRow]) -> usize
    requires ready { IsReady arena.now }
    requires there { has_number arena.now Kind.Face f ≡ true }
    ensures { WritesOne (AreRows f arena.now.model) rows.old rows.new result }
{
    let mut end = 0;
    'loops: for l in loops_of(arena, f) {
        end = write_loop(arena, l, end, rows);
    }
    end
}

/// The same for a face that has no ring, as most do.
fn write_outer(arena: &Arena, f: u32, rows: &mut [HalfEdgeRow]) -> usize
    requires ready { IsReady arena.now }
    requires there { has_number arena.now Kind.Face f ≡ true }
    requires bare { length (rings_of arena.now.model f) ≡ 0 }
    ensures { WritesOne (AreRows f arena.now.model) rows.old rows.new result }
{
    write_loop(arena, arena.outer(f), 0, rows)
}

/// Writes the rows of the half-edges of a face, as far as there is room, and says how many there are: those of its outer loop, then those of its
/// rings by rising number, each loop in its order.
pub fn half_edge_rows(arena: &Arena, f: u32, rows: &mut [HalfEdgeRow]) -> usize
    requires { IsReady arena.now }
    ensures { WritesOne (AreRows f arena.now.model) rows.old rows.new result }
{
    if !arena.has(Kind::Face, f) {
        return 0;
    }
    if arena.ring_count(f) == 0 {
        return write_outer(arena, f, rows);
    }
    write_loops(arena, f, rows)
}
