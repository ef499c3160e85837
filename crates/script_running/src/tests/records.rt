//! The operators that blocks, glues and splits leave in the journal.
use super::sessions::{has_record, undo};
use euler_operators::{Kind, Op, Point};
use gluing::glue;
use plane_split::split;
use std::process::Abort;
use std::test::Fail;
use sweeps::block;
use undo_journal::{Failure, Session};

/// The session after a command that is done.
fn made(rt: &impl Abort, outcome: (Session, Result<(), Failure>)) -> Session {
    let (session, ended) = outcome;
    assert!(rt; ended.is_ok());
    session
}

/// The solids that the last operator names of those that take the last command back: the one that it kills, or the two that it parts.
fn solids_at_the_end(session: &Session) -> [u32; 2] {
    if session.depth() == 0 {
        return [0, 0];
    }
    let record = session.record(session.depth() - 1);
    if record.len() == 0 {
        return [0, 0];
    }
    match record.back(record.len() - 1).op() {
        Op::Kvfs(solid) => [*solid, 0],
        Op::Part(kept, made, _) => [*kept, *made],
        _ => [0, 0],
    }
}

/// Two cubes of 4, the second glued on the first; or the first one halved, whose upper half is solid 3.
#[test]
fn record_lengths(rt: HostRuntime) -> Result<(), Fail> {
    let alloc = rt.alloc();
    let session = Session::new(alloc)?;
    let session = made(&rt, block(alloc, session, 1, Point::default(), 4, 4, 4));
    has_record(&rt, &session, 1, 13);
    assert!(rt; solids_at_the_end(&session) == [1, 0]);
    let corner = Point { x: 0, y: 0, z: 4 };
    let session = made(&rt, block(alloc, session, 2, corner, 4, 4, 4));
    let mut session = made(&rt, glue(alloc, session, 1, 8));
    has_record(&rt, &session, 3, 14);
    assert!(rt; solids_at_the_end(&session) == [1, 2]);
    undo(&rt, &mut session);
    let session = made(&rt, split(alloc, session, 1, 1, 0, 0, -2, 3));
    assert!(rt; session.arena().greatest(Kind::Solid) == 3);
    has_record(&rt, &session, 3, 22);
    Ok(())
}
