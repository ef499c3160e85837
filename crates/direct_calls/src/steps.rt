//! The operators of a glue as the steps of a draft. Memory may be refused for each of them.
use euler_operators::{Op, Point};
use gluing::glue;
use solid_listing::{Told, write_told};
use std::alloc::{AllocError, Global};
use sweeps::block;
use undo_journal::{Draft, Failure, Session};

/// A session that holds two blocks; face 1 of the one matches face 8 of the other.
fn blocks(alloc: Global) -> Result<Session, Failure> {
    let session = Session::new(alloc).map_err(Failure::Memory)?;
    let (session, made) = block(alloc, session, 1, Point { x: 0, y: 0, z: 0 }, 4, 4, 4);
    made?;
    let (session, made) = block(alloc, session, 2, Point { x: 0, y: 0, z: 4 }, 4, 4, 4);
    made?;
    Ok(session)
}

/// The same operator, if it is of a kind that a glue has.
fn same(op: &Op) -> Option<Op> {
    match op {
        Op::Merge(s, t) => Some(Op::Merge(*s, *t)),
        Op::Kfmrh(f, g) => Some(Op::Kfmrh(*f, *g)),
        Op::Mekr(a, b, h) => Some(Op::Mekr(a.corner().packed(), b.corner().packed(), *h)),
        Op::Kev(h) => Some(Op::Kev(*h)),
        Op::Mef(a, b, h, f, l) => Some(Op::Mef(*a, *b, *h, *f, *l)),
        Op::Kef(h) => Some(Op::Kef(*h)),
        _ => None,
    }
}

/// The operators of the last command that are of a kind that a glue has.
fn last_operators(alloc: Global, session: &Session) -> Result<Vec<Op>, AllocError> {
    let mut ops = Vec::new(alloc);
    if session.depth() > 0 {
        let record = session.record(session.depth() - 1);
        for i in 0..record.len() {
            if let Some(op) = same(record.forward(i).op()) {
                ops.push(op)?;
            }
        }
    }
    Ok(ops)
}

/// The operators of a session's glue, and another session with the two blocks, which has no room for their numbers yet.
fn prepared(alloc: Global) -> Result<(Session, Vec<Op>), Failure> {
    let (session, glued) = glue(alloc, blocks(alloc)?, 1, 8);
    glued?;
    let ops = last_operators(alloc, &session).map_err(Failure::Memory)?;
    Ok((blocks(alloc)?, ops))
}

/// Takes a step, and again if memory was refused for it. It answers whether it was.
fn step_twice(draft: &mut Draft, op: Op) -> bool {
    let again = same(&op);
    if draft.step(op).is_ok() {
        return false;
    }
    if let Some(op) = again {
        let _ = draft.step(op);
    }
    true
}

/// Takes all steps, each again if memory was refused for it. It answers whether it was for one.
fn take_all(draft: &mut Draft, ops: Vec<Op>) -> bool {
    let mut was_refused = false;
    for op in ops {
        if step_twice(draft, op) {
            was_refused = true;
        }
    }
    was_refused
}

/// Takes the steps before the first for which memory is refused. It answers whether there is one.
fn take_some(draft: &mut Draft, ops: Vec<Op>) -> bool {
    for op in ops {
        if draft.step(op).is_err() {
            return true;
        }
    }
    false
}

/// Prints whether memory was refused for a step, and the listing.
fn list(rt: &HostRuntime, session: &Session, was_refused: bool) {
    session.stays_consistent();
    if was_refused {
        let _ = println!(rt; "{}", crate::MEMORY);
    }
    let _ = write_told(session.arena(), &Told::Listing, &mut rt.stdout());
}

/// The glue of two blocks as the steps of a draft. If they are `kept`, a step for which memory is refused is given again, and the steps are
/// committed; otherwise they go on until memory is refused, and are abandoned.
pub(crate) fn tell_glue(rt: &HostRuntime, kept: bool) {
    let Ok((session, ops)) = prepared(rt.alloc()) else {
        let _ = println!(rt; "no blocks");
        return;
    };
    let Ok(mut draft) = Draft::open(session) else {
        let _ = println!(rt; "no draft");
        return;
    };
    if kept {
        let was_refused = take_all(&mut draft, ops);
        list(rt, &draft.commit(), was_refused);
    } else {
        let was_refused = take_some(&mut draft, ops);
        list(rt, &draft.abandon(), was_refused);
    }
}
