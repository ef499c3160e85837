//! Operators without a script word, and drafts.
use euler_operators::{Corner, FaceList, HalfEdge, Op, Point, Refusal, Why};
use solid_listing::{Told, write_told};
use std::alloc::Global;
use std::process::Abort;
use std::test::Fail;
use undo_journal::{Draft, Failure, Session};

fn plus(edge: u32) -> HalfEdge {
    HalfEdge { edge, first: true }
}

fn minus(edge: u32) -> HalfEdge {
    HalfEdge { edge, first: false }
}

/// The first command makes solid 1 with vertex 1. Each of the others puts the vertex of its number at the end of the line, by the edge
/// before that number.
fn command(number: u32) -> Op {
    let point = Point {
        x: i64::from(number),
        y: 0,
        z: 0,
    };
    if number <= 1 {
        return Op::Mvfs(1, 1, 1, 1, point);
    }
    if number == 2 {
        return Op::Mev(
            Corner::Lone(1).packed(),
            Corner::Lone(1).packed(),
            plus(1),
            2,
            point,
        );
    }
    let end = Corner::At(minus(number - 2));
    Op::Mev(end.packed(), end.packed(), plus(number - 1), number, point)
}

fn act(rt: &impl Abort, session: &mut Session, op: Op) {
    assert!(rt; session.act(op).is_ok());
}

pub fn undo(rt: &impl Abort, session: &mut Session) {
    assert!(rt; session.undo().is_ok());
}

fn redo(rt: &impl Abort, session: &mut Session) {
    assert!(rt; session.redo().is_ok());
}

/// A session after this many commands.
fn line(rt: &impl Abort, alloc: Global, count: u32) -> Result<Session, Fail> {
    let mut session = Session::new(alloc)?;
    for k in 1..=count {
        act(rt, &mut session, command(k));
    }
    Ok(session)
}

fn opened(session: Session) -> Result<Draft, Fail> {
    match Draft::open(session) {
        Ok(draft) => Ok(draft),
        Err((_, error)) => Err(error)?,
    }
}

/// Asserts what a session's listing is.
fn lists(rt: &impl Abort, alloc: Global, session: &Session, wanted: &[u8]) {
    let mut out = Vec::new(alloc);
    let told = write_told(session.arena(), &Told::Listing, &mut out);
    assert!(rt; told.is_ok());
    assert!(rt; out.as_slice() == wanted);
}

/// Asserts that an operator is refused so.
fn refused(rt: &impl Abort, session: &mut Session, op: Op, why: Why, number: u32) {
    assert!(rt; is_refused(session.act(op), Refusal { why, number }));
}

/// Whether a call was refused so.
fn is_refused(answer: Result<(), Failure>, wanted: Refusal) -> bool {
    match answer {
        Err(Failure::Refused(refusal)) => refusal == wanted,
        _ => false,
    }
}

/// Asserts that a session has as many commands, and that the last one has as many operators.
pub fn has_record(rt: &impl Abort, session: &Session, depth: usize, length: usize) {
    assert!(rt; session.depth() == depth && depth > 0);
    assert!(rt; session.record(depth - 1).len() == length);
}

fn faces(rt: &impl Abort, alloc: Global, numbers: &[u32]) -> FaceList {
    let mut list = FaceList::new(alloc);
    for number in numbers {
        assert!(rt; list.push(*number).is_ok());
    }
    list
}

/// A session with two solids of one vertex each.
fn two_points(rt: &impl Abort, alloc: Global) -> Result<Session, Fail> {
    let mut session = Session::new(alloc)?;
    let far = Point { x: 1, y: 1, z: 1 };
    act(rt, &mut session, Op::Mvfs(1, 1, 1, 1, Point::default()));
    act(rt, &mut session, Op::Mvfs(2, 2, 2, 2, far));
    Ok(session)
}

/// The part of solid 1 with these faces is made solid 3.
fn part(rt: &impl Abort, alloc: Global, numbers: &[u32]) -> Op {
    Op::Part(1, 3, faces(rt, alloc, numbers))
}

/// Asserts that a part of solid 1 with these faces is refused.
fn bad_part(rt: &impl Abort, alloc: Global, session: &mut Session, numbers: &[u32]) {
    refused(rt, session, part(rt, alloc, numbers), Why::BadPart, 1);
}

const PARTED: &[u8] =
    b"solid 1\nsolid 3\nface 1 1 1\nface 2 3 2\nloop 1 at 1\nloop 2 at 2\nvertex 1 0 0 0\nvertex 2 1 1 1\n";

#[test]
fn merge_and_part(rt: HostRuntime) -> Result<(), Fail> {
    let alloc = rt.alloc();
    let mut session = two_points(&rt, alloc)?;
    refused(&rt, &mut session, Op::Merge(1, 1), Why::SameSolid, 1);
    act(&rt, &mut session, Op::Merge(1, 2));
    bad_part(&rt, alloc, &mut session, &[]);
    bad_part(&rt, alloc, &mut session, &[1, 2]);
    act(&rt, &mut session, part(&rt, alloc, &[2]));
    lists(&rt, alloc, &session, PARTED);
    Ok(())
}

const RING_2: &[u8] =
    b"solid 1\nface 1 1 1 2\nloop 1 at 1\nloop 2 at 2\nvertex 1 0 0 0\nvertex 2 1 1 1\n";

const RING_1: &[u8] =
    b"solid 1\nface 1 1 2 1\nloop 1 at 1\nloop 2 at 2\nvertex 1 0 0 0\nvertex 2 1 1 1\n";

#[test]
fn a_ring_made_outer(rt: HostRuntime) -> Result<(), Fail> {
    let alloc = rt.alloc();
    let mut session = two_points(&rt, alloc)?;
    act(&rt, &mut session, Op::Merge(1, 2));
    act(&rt, &mut session, Op::Kfmrh(1, 2));
    refused(&rt, &mut session, Op::Outer(1, 1), Why::NotRing, 1);
    act(&rt, &mut session, Op::Outer(2, 1));
    lists(&rt, alloc, &session, RING_1);
    undo(&rt, &mut session);
    lists(&rt, alloc, &session, RING_2);
    Ok(())
}

const WIRE: &[u8] =
    b"solid 1\nface 1 1 1\nloop 1 +1 -1\nedge 1 1 2\nvertex 1 1 0 0\nvertex 2 2 0 0\n";

fn step(rt: &impl Abort, draft: &mut Draft, op: Op) {
    assert!(rt; draft.step(op).is_ok());
}

#[test]
fn a_draft_abandoned(rt: HostRuntime) -> Result<(), Fail> {
    let mut session = line(&rt, rt.alloc(), 2)?;
    undo(&rt, &mut session);
    let mut draft = opened(session)?;
    let unknown = draft.step(Op::Kvfs(9));
    let lone = Corner::Lone(1);
    step(
        &rt,
        &mut draft,
        Op::Mev(lone.packed(), lone.packed(), plus(5), 5, Point::default()),
    );
    let mut session = draft.abandon();
    let no_solid = Refusal {
        why: Why::NoSolid,
        number: 9,
    };
    assert!(rt; is_refused(unknown, no_solid));
    redo(&rt, &mut session);
    lists(&rt, rt.alloc(), &session, WIRE);
    Ok(())
}

/// An empty command, and one of two operators.
#[test]
fn drafts_committed(rt: HostRuntime) -> Result<(), Fail> {
    let session = opened(Session::new(rt.alloc())?)?.commit();
    has_record(&rt, &session, 1, 0);
    let mut draft = opened(session)?;
    step(&rt, &mut draft, command(1));
    step(&rt, &mut draft, command(2));
    let mut session = draft.commit();
    has_record(&rt, &session, 2, 2);
    undo(&rt, &mut session);
    lists(&rt, rt.alloc(), &session, b"empty\n");
    redo(&rt, &mut session);
    lists(&rt, rt.alloc(), &session, WIRE);
    Ok(())
}
