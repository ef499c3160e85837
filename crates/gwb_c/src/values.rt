//! What an answer gives, in the form in which C takes it.
ghost use Rattle.std.specs.Prelude.{ℕ};
ghost use Rattle.session_slots.specs.Common.{Told};
ghost use Rattle.gwb_c.specs.Handle.{gives_refusal, gives_counts, gives_volume, gives_plane};

use crate::told::{ABSENT, FOUND, give};
use session_slots::{
    Counts, PlaneRow, Refused, Wide, counts_of, halves, plane_of, plane_row, refusal_of, volume_of,
};
use solid_listing::Told;

/// A value that an answer may give.
pub(crate) trait Value: Copy {
    ghost gives: { Told → Self → Self → ℕ → Type 0 };

    /// Writes the value, if the answer gives it, and says whether it does.
    fn give(answer: &Told, out: &mut Self) -> u32
        ensures { gives answer.now out.old out.new result };
}

impl Value for Refused {
    ghost gives = { gives_refusal };

    fn give(answer: &Told, out: &mut Refused) -> u32 {
        give(refusal_of(answer), out)
    }
}

impl Value for Counts {
    ghost gives = { gives_counts };

    fn give(answer: &Told, out: &mut Counts) -> u32 {
        give(counts_of(answer), out)
    }
}

/// A number in two halves.
impl Value for Wide {
    ghost gives = { gives_volume };

    fn give(answer: &Told, out: &mut Wide) -> u32 {
        match volume_of(answer) {
            Some(n) => {
                *out = halves(n);
                FOUND
            }
            None => ABSENT,
        }
    }
}

/// A plane whose coefficients are in two halves each.
impl Value for PlaneRow {
    ghost gives = { gives_plane };

    fn give(answer: &Told, out: &mut PlaneRow) -> u32 {
        match plane_of(answer) {
            Some((plane, flat)) => {
                *out = plane_row(plane, flat);
                FOUND
            }
            None => ABSENT,
        }
    }
}
