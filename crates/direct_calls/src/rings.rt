//! Three codes, linked and unlinked.
ghost use Rattle.std.specs.Prelude.{◌≤◌};

use raw_ring::Rings;
use std::alloc::{AllocError, Global};

/// Makes room for a code. If the code is asleep, it wakes it as a ring of its own.
fn woken(rings: &mut Rings, code: u32) -> Result<(), AllocError>
    requires { code ≤ 2000001 }
{
    rings.room(code)?;
    if rings.has_room(code) && !rings.is_live(code) {
        rings.wake(code, code);
    }
    Ok(())
}

/// Three rings of one code each.
fn three(alloc: Global) -> Result<Rings, AllocError> {
    let mut rings = Rings::new(alloc);
    woken(&mut rings, 1)?;
    woken(&mut rings, 2)?;
    woken(&mut rings, 3)?;
    Ok(rings)
}

/// Exchanges the successors of two live codes.
fn spliced(rings: &mut Rings, a: u32, b: u32) {
    if rings.is_live(a) && rings.is_live(b) {
        rings.splice(a, b);
    }
}

/// The code after another, or 0 if the other isn't live.
fn next(rings: &Rings, code: u32) -> u32 {
    if rings.is_live(code) {
        rings.next(code)
    } else {
        0
    }
}

/// The code before another, or 0 if the other isn't live.
fn prev(rings: &Rings, code: u32) -> u32 {
    if rings.is_live(code) {
        rings.prev(code)
    } else {
        0
    }
}

/// Prints the codes after the three codes and those before them.
fn tell_links(rt: &HostRuntime, rings: &Rings, what: &str) {
    let after = [next(rings, 1), next(rings, 2), next(rings, 3)];
    let before = [prev(rings, 1), prev(rings, 2), prev(rings, 3)];
    let _ = println!(rt;
        "{what}: after {} {} {}, before {} {} {}",
        after[0], after[1], after[2], before[0], before[1], before[2]
    );
}

/// Puts code 1, which stands in a ring of its own, to sleep.
fn slept(rings: &mut Rings) {
    if rings.is_live(1) && rings.next(1) == 1 {
        rings.sleep(1);
    }
}

/// Prints the three codes in one ring, in two rings, and with the first asleep.
pub(crate) fn tell(rt: &HostRuntime) {
    let Ok(mut rings) = three(rt.alloc()) else {
        let _ = println!(rt; "{}", crate::MEMORY);
        return;
    };
    spliced(&mut rings, 1, 2);
    spliced(&mut rings, 2, 3);
    tell_links(rt, &rings, "spliced at 1 2 and 2 3");
    spliced(&mut rings, 1, 3);
    tell_links(rt, &rings, "spliced at 1 3");
    spliced(&mut rings, 2, 2);
    tell_links(rt, &rings, "spliced at 2 2");
    slept(&mut rings);
    let again = rings.room(1).is_ok();
    let _ = println!(rt;
        "1 asleep: live {}, room {}, room again {again}",
        rings.is_live(1),
        rings.has_room(1)
    );
}
