//! Fresh numbers: those that the last line brought into use above all that were in use before it.
ghost use Rattle.std.specs.Prelude.{◌≡◌};
ghost use Rattle.solid_walks.specs.Counters.{taken_of};
ghost use Rattle.gwb_c.specs.FreshNumbers.{above, fresh_in};

use solid_walks::Counters;

/// The numbers from the first to the last.
#[repr(C)]
#[derive(Clone, Copy)]
pub struct Range {
    pub first: u32,
    pub last: u32,
}

/// The numbers above the first bound, up to the second.
fn above(before: u32, now: u32) -> Option<Range>
    ensures { result ≡ above before now }
{
    if before < now {
        Some(Range {
            first: before + 1,
            last: now,
        })
    } else {
        None
    }
}

/// The fresh numbers of the kind that C means.
pub fn fresh_of(before: Counters, now: Counters, entity: u32) -> Option<Range>
    ensures { result ≡ fresh_in (taken_of before) (taken_of now) entity }
{
    match entity {
        1 => above(before.faces, now.faces),
        2 => above(before.loops, now.loops),
        3 => above(before.edges, now.edges),
        4 => above(before.vertices, now.vertices),
        _ => None,
    }
}
