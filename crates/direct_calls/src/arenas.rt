//! A copy of an arena.
use euler_operators::{Corner, HalfEdge, Op, Point};
use solid_listing::{Told, write_told};
use std::alloc::Global;
use undo_journal::{Failure, Session};

/// A session that holds a solid of one edge.
fn wire(alloc: Global) -> Result<Session, Failure> {
    let mut session = Session::new(alloc).map_err(Failure::Memory)?;
    let start = Point { x: 0, y: 0, z: 0 };
    let end = Point { x: 5, y: 0, z: 0 };
    let corner = Corner::Lone(1);
    session.act(Op::Mvfs(1, 1, 1, 1, start))?;
    session.act(Op::Mev(corner.packed(), corner.packed(), HalfEdge::plus(1), 2, end))?;
    Ok(session)
}

/// Prints the listing of a copy of the session's arena.
fn list_copy(rt: &HostRuntime, session: &Session) {
    session.stays_consistent();
    let told = match session.arena().copy(rt.alloc()) {
        Ok(copy) => {
            let written = write_told(&copy, &Told::Listing, &mut rt.stdout());
            drop(copy);
            written.is_ok()
        }
        Err(_) => false,
    };
    if !told {
        let _ = println!(rt; "{}", crate::MEMORY);
    }
}

/// Prints the listing of a copy of a wire.
pub(crate) fn tell(rt: &HostRuntime) {
    match wire(rt.alloc()) {
        Ok(session) => list_copy(rt, &session),
        Err(_) => {
            let _ = println!(rt; "{}", crate::MEMORY);
        }
    }
}
