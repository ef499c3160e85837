//! Calls of C: measures of the model shown. Each says what kind of answer the query has, and writes the value of this answer, or what it refuses, if
//! it has one. If there is no session, each says 9 and writes nothing. No answer is kept.
ghost use Rattle.std.specs.Prelude.{◌≡◌};
ghost use Rattle.session_slots.specs.Common.{slot_in};
ghost use Rattle.gwb_c.specs.Handle.{Measures, gives_counts, gives_volume, gives_plane};

use crate::told::{CLOSED, told_of};
use crate::values::Value;
use script_running::status;
use session_slots::{Counts, GwbLent, PlaneRow, Question, Refused, Wide};

fn measure<T: Value>(
    gwb: &mut GwbLent,
    question: Question,
    out: &mut T,
    refusal: &mut Refused,
) -> u32
    ensures state { gwb.new.lent.loan ≡ gwb.old.lent.loan }
    ensures value { Measures T.gives question (slot_in gwb.old.lent.loan) out.old out.new refusal.old refusal.new result }
{
    told_of!(gwb, CLOSED, slot => {
        let answer = session_slots::measure(slot, question);
        T::give(&answer, out);
        Refused::give(&answer, refusal);
        status(&answer)
    })
}

/// The plane of a face, and whether the face is flat.
#[unsafe(no_mangle)]
pub extern "C" fn gwb_lent_plane(
    gwb: &mut GwbLent,
    face: u32,
    plane: &mut PlaneRow,
    refusal: &mut Refused,
) -> u32
    ensures state { gwb.new.lent.loan ≡ gwb.old.lent.loan }
    ensures value { Measures gives_plane (Question.Plane face) (slot_in gwb.old.lent.loan) plane.old plane.new refusal.old refusal.new result }
{
    measure(gwb, Question::Plane(face), plane, refusal)
}

/// Six times the volume of a solid.
#[unsafe(no_mangle)]
pub extern "C" fn gwb_lent_volume(
    gwb: &mut GwbLent,
    solid: u32,
    six_volumes: &mut Wide,
    refusal: &mut Refused,
) -> u32
    ensures state { gwb.new.lent.loan ≡ gwb.old.lent.loan }
    ensures value { Measures gives_volume (Question.Volume solid) (slot_in gwb.old.lent.loan) six_volumes.old six_volumes.new refusal.old refusal.new result }
{
    measure(gwb, Question::Volume(solid), six_volumes, refusal)
}

/// How many vertices, edges, faces and rings a solid has, and their sum with signs.
#[unsafe(no_mangle)]
pub extern "C" fn gwb_lent_counts(
    gwb: &mut GwbLent,
    solid: u32,
    counts: &mut Counts,
    refusal: &mut Refused,
) -> u32
    ensures state { gwb.new.lent.loan ≡ gwb.old.lent.loan }
    ensures value { Measures gives_counts (Question.Count solid) (slot_in gwb.old.lent.loan) counts.old counts.new refusal.old refusal.new result }
{
    measure(gwb, Question::Count(solid), counts, refusal)
}
