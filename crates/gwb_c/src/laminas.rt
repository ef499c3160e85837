//! Calls of C: a lamina of points.
ghost use Rattle.std.specs.Prelude.{◌≡◌, ◌<◌, ◌≤◌, length};
ghost use Rattle.session_slots.specs.Common.{polygon_of};
ghost use Rattle.handles.specs.Uses.{HandleGoes, skips};
ghost use Rattle.gwb_c.specs.Calls.{Changes};

use crate::calling::{call, no_call};
use session_slots::{Call, Change, Command, Gwb, Place, Points, polygon};
use std::alloc::Global;

/// A polygon has at most so many points.
const MOST_POINTS: usize = 64;

/// A lamina with so many points.
fn lamina(alloc: Global, gwb: &mut Gwb, solid: u32, places: &[Place]) -> u32
    requires { length places.now ≤ 64 }
    ensures { Changes gwb.old.kept.value (Change.Lamina solid (polygon_of places.now)) gwb.new.kept.value result }
{
    let corners = polygon(places);
    let wanted = Change::Lamina(solid, Points::of(&corners));
    call(alloc, gwb, Call::Give(Command::Change(wanted)))
}

/// Makes a lamina: a solid of two faces, whose corners are the points in order. If there are more than 64 points, no call is made.
#[unsafe(no_mangle)]
pub extern "C" fn gwb_lamina(alloc: Global, gwb: &mut Gwb, solid: u32, points: &[Place]) -> u32
    ensures made { length points.now ≤ 64 → Changes gwb.old.kept.value (Change.Lamina solid (polygon_of points.now)) gwb.new.kept.value result }
    ensures too_many { 64 < length points.now → HandleGoes gwb.old.kept.value skips gwb.new.kept.value result }
{
    if points.len() > MOST_POINTS {
        return no_call(alloc, gwb);
    }
    lamina(alloc, gwb, solid, points)
}
