//! Calls of C: queries. Each has the same answer as the line that spells this query, and writes the value if the answer tells one.
ghost use Rattle.std.specs.Prelude.{◌≡◌};
ghost use Rattle.gwb_c.specs.Handle.{gives_counts, gives_volume, gives_plane};
ghost use Rattle.gwb_c.specs.Calls.{Asks, Tells};

use crate::told::CLOSED;
use crate::values::Value;
use session_slots::{Counts, Gwb, PlaneRow, Question, Wide, put, take};
use std::alloc::Global;

fn ask<T: Value>(alloc: Global, gwb: &mut Gwb, question: Question, out: &mut T) -> u32
    ensures state { Asks gwb.old.kept.value question gwb.new.kept.value result }
    ensures value { Tells T.gives gwb.new.kept.value out.old out.new }
{
    let Some(slot) = take(alloc, gwb) else {
        return CLOSED;
    };
    let mut slot = slot;
    let kind = session_slots::ask(slot.slot_mut(), question);
    T::give(&slot.slot().console.answer, out);
    put(gwb, slot);
    kind
}

/// The plane of a face, and whether the face is flat.
#[unsafe(no_mangle)]
pub extern "C" fn gwb_face_plane(
    alloc: Global,
    gwb: &mut Gwb,
    face: u32,
    plane: &mut PlaneRow,
) -> u32
    ensures state { Asks gwb.old.kept.value (Question.Plane face) gwb.new.kept.value result }
    ensures value { Tells gives_plane gwb.new.kept.value plane.old plane.new }
{
    ask(alloc, gwb, Question::Plane(face), plane)
}

/// Six times the volume of a solid.
#[unsafe(no_mangle)]
pub extern "C" fn gwb_volume(
    alloc: Global,
    gwb: &mut Gwb,
    solid: u32,
    six_volumes: &mut Wide,
) -> u32
    ensures state { Asks gwb.old.kept.value (Question.Volume solid) gwb.new.kept.value result }
    ensures value { Tells gives_volume gwb.new.kept.value six_volumes.old six_volumes.new }
{
    ask(alloc, gwb, Question::Volume(solid), six_volumes)
}

/// How many vertices, edges, faces and rings a solid has, and their sum with signs.
#[unsafe(no_mangle)]
pub extern "C" fn gwb_count(alloc: Global, gwb: &mut Gwb, solid: u32, counts: &mut Counts) -> u32
    ensures state { Asks gwb.old.kept.value (Question.Count solid) gwb.new.kept.value result }
    ensures value { Tells gives_counts gwb.new.kept.value counts.old counts.new }
{
    ask(alloc, gwb, Question::Count(solid), counts)
}
