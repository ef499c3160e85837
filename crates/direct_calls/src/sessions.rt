//! A lamina of 64 points, and one call more.
use arrayvec::ArrayVec;
use euler_operators::{Op, Point};
use std::alloc::Global;
use sweeps::lamina;
use undo_journal::{Draft, Session};

/// The answer of a call that did what it was asked for.
const OK: &str = "ok";

/// 64 points round a strip of 31 by 1.
fn rim() -> ArrayVec<Point, 64> {
    let mut points = ArrayVec::new();
    for at in 0..64 {
        let point = if at < 32 {
            Point { x: at, y: 0, z: 0 }
        } else {
            Point {
                x: 63 - at,
                y: 1,
                z: 0,
            }
        };
        let _ = points.try_push(point);
    }
    points
}

/// A session that holds the lamina of these points, if memory suffices.
fn large(alloc: Global) -> Option<Session> {
    let session = Session::new(alloc).ok()?;
    let (session, made) = lamina(alloc, session, 1, &rim());
    made.ok()?;
    Some(session)
}

/// A new solid of one vertex.
fn new_solid() -> Op {
    Op::Mvfs(2, 3, 3, 65, Point { x: 0, y: 0, z: 0 })
}

/// The new solid as the one step of a draft that is committed.
fn drafted(session: Session) -> &'static str {
    let Ok(mut draft) = Draft::open(session) else {
        return crate::MEMORY;
    };
    let stepped = draft.step(new_solid()).is_ok();
    let session = draft.commit();
    if stepped && session.depth() == 2 {
        OK
    } else {
        crate::MEMORY
    }
}

/// What a call answers after the lamina: `act` and `draft` make a new solid, `copy` copies the arena; at any other word there is no call.
pub(crate) fn after_a_lamina(alloc: Global, word: &str) -> &'static str {
    let Some(mut session) = large(alloc) else {
        return "no lamina";
    };
    let is_ok = match word {
        "act" => session.act(new_solid()).is_ok(),
        "draft" => return drafted(session),
        "copy" => session.arena().copy(alloc).is_ok(),
        _ => true,
    };
    if is_ok { OK } else { crate::MEMORY }
}

/// What each of the words answers.
pub(crate) fn tell(rt: &HostRuntime) {
    for word in ["lamina", "act", "draft", "copy"] {
        let _ = println!(rt; "{word} of 64 points: {}", after_a_lamina(rt.alloc(), word));
    }
}
