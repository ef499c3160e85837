//! Blocks, kept as they were asked for.
ghost use Rattle.std.specs.Prelude.{◌≡◌, ◌<◌, ◌≤◌, ◌+◌, [], slice_index_or};
ghost use Rattle.euler_operators.specs.Common.{IsInRange};
ghost use Rattle.euler_laws.specs.Laws.{AreAccepted};
ghost use Rattle.low_euler.specs.Ready.{Accepts, IsReady, after};
ghost use Rattle.undo_journal.specs.Blocks.{HasLeft, block_steps, edge_from, leading, returning, step_at};
ghost use Rattle.undo_journal.specs.Sessions.{AllHaveRoom, all_after};
ghost use Rattle.undo_journal.specs.Told.{taken_back};

use boundary_model::PackedPoint;
use euler_operators::{Corner, HalfEdge, Op, Point};
use low_euler::{Arena, kef, kev, kvfs, mef, mev, mvfs, replay};

/// A block as it was asked for, of which the operators are made when they are read: the solid, the greatest numbers in use before it, and two
/// opposite corners.
#[derive(Drop)]
pub struct Block {
    pub solid: u32,
    pub faces: u32,
    pub loops: u32,
    pub edges: u32,
    pub vertices: u32,
    pub near: PackedPoint,
    pub far: PackedPoint,
}

const _: () = prove!(size_of::<Block>() == 44);

/// How many operators a block has.
pub(crate) const STEPS: usize = 13;

/// The half-edge that leads along an edge.
#[inline(always)]
fn leading(edge: u32) -> HalfEdge
    ensures { result ≡ leading edge }
{
    HalfEdge { edge, first: true }
}

/// The half-edge that leads back.
#[inline(always)]
fn returning(edge: u32) -> HalfEdge
    ensures { result ≡ returning edge }
{
    HalfEdge { edge, first: false }
}

/// A point.
#[inline(always)]
fn at(x: i64, y: i64, z: i64) -> Point
    ensures { result ≡ record { x = x; y = y; z = z } }
{
    Point { x, y, z }
}

/// The operator that leads an edge from a half-edge's tail to a new vertex. Edge and vertex are so many after the greatest in use.
#[inline(always)]
fn edge_from(block: &Block, half: HalfEdge, edge: u32, vertex: u32, point: Point) -> Op
    requires left { HasLeft block.now }
    requires edge { edge ≤ 12 }
    requires vertex { vertex ≤ 8 }
    ensures { result ≡ edge_from half (block.now.edges + edge) (block.now.vertices + vertex) point }
{
    let (from, to) = (half.corner(), half.corner());
    Op::Mev(
        from,
        to,
        leading(block.edges + edge),
        block.vertices + vertex,
        point,
    )
}

/// The operator that leads an edge from one half-edge's tail to another's, and makes a face. Edge, face and loop are so many after the greatest in
/// use.
#[inline(always)]
fn face_between(block: &Block, from: HalfEdge, to: HalfEdge, edge: u32, face: u32) -> Op
    requires left { HasLeft block.now }
    requires edge { edge ≤ 12 }
    requires face { face ≤ 6 }
    ensures { result ≡ Op.Mef from to (leading (block.now.edges + edge)) (block.now.faces + face) (block.now.loops + face) }
{
    Op::Mef(
        from,
        to,
        leading(block.edges + edge),
        block.faces + face,
        block.loops + face,
    )
}

/// The operator with this index among those of a block: after the five of its base come the eight that sweep it up.
#[inline(always)]
pub(crate) fn block_step(block: &Block, index: usize) -> Op
    requires left { HasLeft block.now }
    requires inside { index < 13 }
    ensures { result ≡ slice_index_or (block_steps block.now) index result }
{
    let (near, far) = (block.near.point(), block.far.point());
    let (start, edge, vertex) = (block.loops + 1, block.edges, block.vertices + 1);
    match index {
        0 => Op::Mvfs(block.solid, block.faces + 1, start, vertex, near),
        1 => {
            let (from, to) = (Corner::Lone(start).packed(), Corner::Lone(start).packed());
            let point = at(far.x, near.y, near.z);
            Op::Mev(from, to, leading(edge + 1), block.vertices + 2, point)
        }
        2 => edge_from(block, returning(edge + 1), 2, 3, at(far.x, far.y, near.z)),
        3 => edge_from(block, returning(edge + 2), 3, 4, at(near.x, far.y, near.z)),
        4 => face_between(block, returning(edge + 3), leading(edge + 1), 4, 2),
        5 => edge_from(block, leading(edge + 1), 5, 5, at(near.x, near.y, far.z)),
        6 => edge_from(block, leading(edge + 2), 6, 6, at(far.x, near.y, far.z)),
        7 => face_between(block, returning(edge + 5), returning(edge + 6), 7, 3),
        8 => edge_from(block, leading(edge + 3), 8, 7, far),
        9 => face_between(block, returning(edge + 6), returning(edge + 8), 9, 4),
        10 => edge_from(block, leading(edge + 4), 10, 8, at(near.x, far.y, far.z)),
        11 => face_between(block, returning(edge + 8), returning(edge + 10), 11, 5),
        _ => face_between(block, returning(edge + 10), leading(edge + 7), 12, 6),
    }
}

/// The operator with this index among those that take a block back: its edges go, the last first, and then its solid.
#[inline(always)]
pub(crate) fn block_step_back(block: &Block, index: usize) -> Op
    requires left { HasLeft block.now }
    requires inside { index < 13 }
    ensures { result ≡ slice_index_or (taken_back (block_steps block.now) []) index result }
{
    match index {
        0 | 1 | 3 | 5 | 8 => Op::Kef(leading(block.edges + (12 - index as u32))),
        12 => Op::Kvfs(block.solid),
        _ => Op::Kev(leading(block.edges + (12 - index as u32))),
    }
}

/// Applies the operator with this index among those of a block. Compiled into its caller it knows from the index what operator that is, which is not
/// written down first.
#[inline(always)]
fn make_step(arena: &mut Arena, block: &Block, index: usize)
    requires left { HasLeft block.now }
    requires inside { index < 13 }
    requires accepted { Accepts arena.old (step_at (block_steps block.now) index) }
    ensures { arena.new ≡ after arena.old (step_at (block_steps block.now) index) }
{
    match block_step(block, index) {
        Op::Mvfs(solid, face, outer, vertex, point) => mvfs(
            arena, solid, face, outer, vertex, point,
        ),
        Op::Mev(from, to, half, vertex, point) => mev(
            arena,
            from.corner(),
            to.corner(),
            half,
            vertex,
            point,
        ),
        Op::Mef(from, to, half, face, outer) => mef(arena, from, to, half, face, outer),
        other => replay(arena, &other),
    }
}

/// Applies the operator with this index among those that take a block back.
#[inline(always)]
fn kill_step(arena: &mut Arena, block: &Block, index: usize)
    requires left { HasLeft block.now }
    requires inside { index < 13 }
    requires accepted { Accepts arena.old (step_at (taken_back (block_steps block.now) []) index) }
    ensures { arena.new ≡ after arena.old (step_at (taken_back (block_steps block.now) []) index) }
{
    match block_step_back(block, index) {
        Op::Kev(half) => kev(arena, half),
        Op::Kef(half) => kef(arena, half),
        Op::Kvfs(solid) => kvfs(arena, solid),
        other => replay(arena, &other),
    }
}

/// Makes a block again. Each of its operators is accepted at its turn and has its room. It takes no memory.
#[inline(never)]
pub(crate) fn replay_block(arena: &mut Arena, block: &Block)
    requires left { HasLeft block.now }
    requires ready { IsReady arena.old }
    requires accepted { AreAccepted arena.old.model (block_steps block.now) }
    requires room { AllHaveRoom arena.old (block_steps block.now) }
    ensures effects { arena.new ≡ all_after arena.old (block_steps block.now) }
    ensures ready { IsReady arena.new }
{
    let mut index = 0;
    'steps: while index < STEPS {
        make_step(arena, block, index);
        index += 1;
    }
}

/// Takes a block back. Each operator is accepted at its turn and has its room. It takes no memory.
#[inline(never)]
pub(crate) fn replay_block_back(arena: &mut Arena, block: &Block)
    requires left { HasLeft block.now }
    requires ready { IsReady arena.old }
    requires accepted { AreAccepted arena.old.model (taken_back (block_steps block.now) []) }
    requires room { AllHaveRoom arena.old (taken_back (block_steps block.now) []) }
    ensures effects { arena.new ≡ all_after arena.old (taken_back (block_steps block.now) []) }
    ensures ready { IsReady arena.new }
{
    let mut index = 0;
    'steps: while index < STEPS {
        kill_step(arena, block, index);
        index += 1;
    }
}
