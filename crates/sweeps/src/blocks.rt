//! The block: a lamina that is swept up, as one command.
ghost use Rattle.std.specs.Prelude.{◌≡◌, ◌≤◌, ◌↔◌, ◌+◌, pos, map, None, Some, Err, OnOk, OnErr};
ghost use Rattle.euler_operators.specs.Common.{IsInRange, is_in_range, moved, code, plus, verdict, Sound};
ghost use Rattle.euler_operators.specs.declared.Refusal.{Refusal};
ghost use Rattle.euler_conditions.specs.Ready.{IsReady};
ghost use Rattle.shapes.specs.Common.{vector, base_of, block_model, numbers_after, taken_in};
ghost use Rattle.shapes.specs.Block as spec;
ghost use Rattle.solid_walks.specs.Counters.{AreWithin, taken_of};
ghost use Rattle.undo_journal.specs.Journal.{after_steps, record_of, recorded, IsRecorded, IsFurther};
ghost use Rattle.undo_journal.specs.Machine.{held};
ghost use Rattle.sweeps.specs.Machine.{block, block_refusal};
ghost use Rattle.sweeps_laws.specs.block.BlockOps.{block_operators};
ghost use Rattle.sweeps.specs.Asked.{asked};
ghost use Rattle.sweeps.specs.Raising.{with_lamina};

use crate::laminas::draw_lamina;
use crate::raising::raise_items;
use boundary_model::PackedPoint;
use euler_conditions::Arena;
use euler_operators::{
    HalfEdge, Kind, Point, Refusal, Why, is_number, point_in_range, refused, sum, sum_in_range,
};
use solid_walks::{Counters, check_left, counters_of};
use std::alloc::{AllocError, Global};
use undo_journal::{Block, Draft, Failure, Session};

/// Whether a point's coordinates are within the limit.
fn is_near(point: Point) -> bool
    ensures { result ≡ is_in_range point }
{
    point_in_range(point)
}

/// Whether a block can be made as the new solid, from a corner and by sizes along x, y and z.
///
/// Refused, in this order: NumberRange; SolidTaken; SizeRange with 1, 2 or 3 for the first size below 1; PointRange with 1 for
/// the corner, 2 for the opposite one; NumbersSpent with 2 for faces, 3 for loops, 4 for edges, 5 for vertices.
#[tactic(auto, unfolding(shapes::specs::Block::block_conditions))]
fn check_block(
    arena: &Arena,
    taken: Counters,
    solid: u32,
    corner: Point,
    size: Point,
) -> Result<(), Refusal>
    requires ready { IsReady arena.now }
    requires taken { taken_of taken ≡ taken_in arena.now.model }
    ensures { result ≡ verdict (spec.block_refusal arena.now.model solid corner size.x size.y size.z) }
{
    if !is_number(solid) {
        return refused(Why::NumberRange, solid);
    }
    if arena.has(Kind::Solid, solid) {
        return refused(Why::SolidTaken, solid);
    }
    if !(1 <= size.x) {
        return refused(Why::SizeRange, 1);
    }
    if !(1 <= size.y) {
        return refused(Why::SizeRange, 2);
    }
    if !(1 <= size.z) {
        return refused(Why::SizeRange, 3);
    }
    if !is_near(corner) {
        return refused(Why::PointRange, 1);
    }
    if !sum_in_range(corner, size) {
        return refused(Why::PointRange, 2);
    }
    check_left(taken, 6, 6, 12, 8)
}

/// The corners of a block's base.
fn base(corner: Point, size: Point) -> [Point; 4]
    requires second { IsInRange (moved corner (vector size.x (pos 0) (pos 0))) }
    requires third { IsInRange (moved corner (vector size.x size.y (pos 0))) }
    requires fourth { IsInRange (moved corner (vector (pos 0) size.y (pos 0))) }
    ensures { result ≡ base_of corner size.x size.y }
{
    let mut along = size;
    along.y = 0;
    along.z = 0;
    let mut across = size;
    across.z = 0;
    let mut beside = size;
    beside.x = 0;
    beside.z = 0;
    let second = sum(corner, along);
    let third = sum(corner, across);
    let fourth = sum(corner, beside);
    [corner, second, third, fourth]
}

/// The half-edges of the first face of a lamina with four corners, in the order of listings.
fn base_items(taken: &Counters) -> [HalfEdge; 4]
    requires { taken.now.edges + 4 ≤ 1000000 }
    ensures { map code result ≡ map plus (numbers_after taken.now.edges 4) }
{
    let first = HalfEdge::plus(taken.edges + 1);
    let second = HalfEdge::plus(taken.edges + 2);
    let third = HalfEdge::plus(taken.edges + 3);
    let fourth = HalfEdge::plus(taken.edges + 4);
    [first, second, third, fourth]
}

/// The counters after a lamina with four corners is drawn.
fn counted_with_base(taken: &Counters) -> Counters
    requires faces { taken.now.faces + 2 ≤ 1000000 }
    requires loops { taken.now.loops + 2 ≤ 1000000 }
    requires edges { taken.now.edges + 4 ≤ 1000000 }
    requires vertices { taken.now.vertices + 4 ≤ 1000000 }
    ensures { taken_of result ≡ with_lamina (taken_of taken.now) 4 }
{
    Counters {
        faces: taken.faces + 2,
        loops: taken.loops + 2,
        edges: taken.edges + 4,
        vertices: taken.vertices + 4,
    }
}

/// Draws a block whose conditions hold: the lamina of its base, and then the sweep of the lamina's first face, whose half-edges are all
/// known. First it asks for memory for its thirteen steps. If memory is refused, the draft holds what was drawn so far.
#[tactic(auto, using(undo_journal::proofs::Marks::further_on, crate::proofs::BlockSteps::base_goes, crate::proofs::BlockSteps::base_left, undo_journal::proofs::Marks::further_same))]
fn draw_block(
    draft: &mut Draft,
    taken: &Counters,
    solid: u32,
    corner: Point,
    size: Point,
) -> Result<(), AllocError>
    requires taken { taken_of taken.now ≡ taken_in draft.old.model }
    requires within { AreWithin taken.now }
    requires accepted { spec.block_refusal draft.old.model solid corner size.x size.y size.z ≡ None }
    ensures ok { OnOk result (draft.new.model ≡ block_model draft.old.model solid corner size.x size.y size.z) }
    ensures steps { OnOk result (draft.new ≡ after_steps draft.old (block_operators draft.old.model solid corner size.x size.y size.z)) }
    ensures further { IsFurther draft.old draft.new }
{
    draft.stays_consistent();
    draft.reserve(13, 0)?;
    let corners = base(corner, size);
    draw_lamina(draft, taken, solid, corners.as_slice())?;
    let items = base_items(taken);
    let mut up = size;
    up.x = 0;
    up.y = 0;
    raise_items(draft, &counted_with_base(taken), items.as_slice(), up)
}

/// A block as steps of a draft, with its sizes in one vector.
#[tactic(auto, using(undo_journal::proofs::Marks::further_none, undo_journal::proofs::Marks::further_back))]
fn block_of_in(draft: &mut Draft, solid: u32, corner: Point, size: Point) -> Result<(), Failure>
    ensures ok { OnOk result ((spec.block_refusal draft.old.model solid corner size.x size.y size.z ≡ None) × (draft.new.model ≡ block_model draft.old.model solid corner size.x size.y size.z)) }
    ensures steps { OnOk result (draft.new ≡ after_steps draft.old (block_operators draft.old.model solid corner size.x size.y size.z)) }
    ensures refused { (refusal : Refusal) → ((result ≡ Err (Failure.Refused refusal)) ↔ (spec.block_refusal draft.old.model solid corner size.x size.y size.z ≡ Some refusal)) }
    ensures further { IsFurther draft.old draft.new }
    ensures err { OnErr result (draft.new ≡ draft.old) }
{
    let arena = draft.arena();
    let taken = counters_of(arena);
    if let Err(refusal) = check_block(arena, taken, solid, corner, size) {
        return Err(Failure::Refused(refusal));
    }
    let mark = draft.mark();
    match draw_block(draft, &taken, solid, corner, size) {
        Ok(()) => Ok(()),
        Err(error) => {
            draft.back_to(mark);
            Err(Failure::Memory(error))
        }
    }
}

/// A block as steps of a draft, as `block` makes it, in the draft's model. On any failure the draft is as it was, and goes on.
pub fn block_in(
    draft: &mut Draft,
    solid: u32,
    corner: Point,
    dx: i64,
    dy: i64,
    dz: i64,
) -> Result<(), Failure>
    ensures ok { OnOk result ((spec.block_refusal draft.old.model solid corner dx dy dz ≡ None) × (draft.new.model ≡ block_model draft.old.model solid corner dx dy dz)) }
    ensures steps { OnOk result (draft.new ≡ after_steps draft.old (block_operators draft.old.model solid corner dx dy dz)) }
    ensures refused { (refusal : Refusal) → ((result ≡ Err (Failure.Refused refusal)) ↔ (spec.block_refusal draft.old.model solid corner dx dy dz ≡ Some refusal)) }
    ensures further { IsFurther draft.old draft.new }
    ensures err { OnErr result (draft.new ≡ draft.old) }
{
    let size = Point {
        x: dx,
        y: dy,
        z: dz,
    };
    block_of_in(draft, solid, corner, size)
}

/// A block as its record keeps it.
fn asked(taken: &Counters, solid: u32, corner: Point, size: Point) -> Block
    requires corner { IsInRange corner }
    requires opposite { IsInRange (moved corner size) }
    ensures { result ≡ asked (taken_of taken.now) solid corner size }
{
    Block {
        solid,
        faces: taken.faces,
        loops: taken.loops,
        edges: taken.edges,
        vertices: taken.vertices,
        near: PackedPoint::new(corner),
        far: PackedPoint::new(sum(corner, size)),
    }
}

/// A block as one command, with its sizes in one vector.
fn block_of(
    session: Session,
    solid: u32,
    corner: Point,
    size: Point,
) -> (Session, Result<(), Failure>)
    ensures sound { Sound (held session.machine) }
    ensures stays_sound { Sound (held result.0.machine) }
    ensures ok { OnOk result.1 ((block_refusal session.machine solid corner size.x size.y size.z ≡ None) × (result.0.machine ≡ block session.machine solid corner size.x size.y size.z)) }
    ensures recorded { OnOk result.1 (IsRecorded session result.0) }
    ensures record { OnOk result.1 (result.0.records ≡ recorded session (record_of (held session.machine) (block_operators (held session.machine) solid corner size.x size.y size.z))) }
    ensures refused { (refusal : Refusal) → ((result.1 ≡ Err (Failure.Refused refusal)) ↔ (block_refusal session.machine solid corner size.x size.y size.z ≡ Some refusal)) }
    ensures err { OnErr result.1 (result.0 ≡ session) }
{
    let arena = session.arena();
    let taken = counters_of(arena);
    if let Err(refusal) = check_block(arena, taken, solid, corner, size) {
        return (session, Err(Failure::Refused(refusal)));
    }
    let mut draft = match Draft::open(session) {
        Ok(draft) => draft,
        Err((session, error)) => return (session, Err(Failure::Memory(error))),
    };
    match draw_block(&mut draft, &taken, solid, corner, size) {
        Ok(()) => {
            let block = asked(&taken, solid, corner, size);
            (draft.commit_block(block), Ok(()))
        }
        Err(error) => (draft.abandon(), Err(Failure::Memory(error))),
    }
}

/// A block as one command: the new solid from a corner, with sizes along x, y and z and edges parallel to the axes. It is the lamina of its
/// base, swept up.
///
/// Refused, in this order: NumberRange; SolidTaken; SizeRange with 1, 2 or 3 for the first size below 1; PointRange with 1 for the corner,
/// 2 for the opposite one; NumbersSpent with 2 for faces, 3 for loops, 4 for edges, 5 for vertices. If memory is refused, the answer is
/// `Memory`. On any failure the session is as it was. An accepted block leaves one record. The models held before and after are sound.
pub fn block(
    alloc: Global,
    session: Session,
    solid: u32,
    corner: Point,
    dx: i64,
    dy: i64,
    dz: i64,
) -> (Session, Result<(), Failure>)
    ensures sound { Sound (held session.machine) }
    ensures stays_sound { Sound (held result.0.machine) }
    ensures ok { OnOk result.1 ((block_refusal session.machine solid corner dx dy dz ≡ None) × (result.0.machine ≡ block session.machine solid corner dx dy dz)) }
    ensures recorded { OnOk result.1 (IsRecorded session result.0) }
    ensures record { OnOk result.1 (result.0.records ≡ recorded session (record_of (held session.machine) (block_operators (held session.machine) solid corner dx dy dz))) }
    ensures refused { (refusal : Refusal) → ((result.1 ≡ Err (Failure.Refused refusal)) ↔ (block_refusal session.machine solid corner dx dy dz ≡ Some refusal)) }
    ensures err { OnErr result.1 (result.0 ≡ session) }
{
    let size = Point {
        x: dx,
        y: dy,
        z: dz,
    };
    block_of(session, solid, corner, size)
}
