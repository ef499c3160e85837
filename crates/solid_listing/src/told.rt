//! What a call or a line is told, and its text.
ghost use Rattle.std.specs.Prelude.{◌++◌, codes};
ghost use Rattle.euler_operators.specs.Common.{Sound};
ghost use Rattle.solid_listing.specs.Common.{spaced, coefficient_words, reply_text, told_text, Puts, Tells, outgoing};

use crate::listing::tell_listing;
use crate::pending::{Text, put, release};
use crate::refusal::put_refused;
use crate::text::{put_line, put_words};
use crate::writing::WriteFault;
use euler_conditions::Arena;
use euler_operators::{Plane, Refusal};
use solid_measure::Tally;
use std::io::Write;

/// What a call, or a line that is no call, is told.
#[derive(Clone, Copy, Debug, PartialEq, Eq)]
pub enum Told {
    /// Nothing: of a blank line or a comment, and of a new session.
    Silent,
    /// `ok`: it was done.
    Done,
    /// `refused N X`: it did nothing because a condition is false: the number of the first such condition, and the value that goes with it.
    Refused(Refusal),
    /// `fault N`: what is wrong with the line.
    Fault(u32),
    /// `memory`: it did nothing because memory was refused.
    Memory,
    /// `plane a b c d flat`, or `bent` in place of `flat`: a face's plane, and whether the face is flat.
    Plane(Plane, bool),
    /// `volume n`: six times the volume of a solid.
    Volume(i128),
    /// `count v e f r s`: a solid's vertices, edges, faces and rings, and `v - e + f - r`.
    Counts(Tally),
    /// The listing of the model shown.
    Listing,
    /// It did nothing: there is a draft, and a draft doesn't take this call. This has no text.
    InDraft,
    /// It did nothing: there is no draft. This has no text.
    NoDraft,
    /// How many steps the draft has. This has no text.
    Steps(usize),
}

/// Writes the line of a plane, without its last word.
fn write_coefficients<W: Write>(
    plane: &Plane,
    text: &mut Text,
    writer: &mut W,
) -> Result<(), WriteFault>
    ensures { Tells (outgoing (W.contents writer.old) text.old) (outgoing (W.contents writer.new) text.new) (codes "plane" ++ spaced (coefficient_words plane.now)) result }
{
    put_words(
        text,
        writer,
        b"plane",
        &[plane.a, plane.b, plane.c, plane.d],
    )
}

/// Writes the line of a face's plane.
#[inline(never)]
fn write_plane<W: Write>(
    plane: &Plane,
    flat: bool,
    text: &mut Text,
    writer: &mut W,
) -> Result<(), WriteFault>
    ensures { Tells (outgoing (W.contents writer.old) text.old) (outgoing (W.contents writer.new) text.new) (reply_text (Told.Plane plane.now flat)) result }
{
    write_coefficients(plane, text, writer)?;
    put(text, writer, if flat { b" flat\n" } else { b" bent\n" })
}

/// Writes the line of a solid's counts.
#[inline(never)]
#[tactic(auto, unfolding(crate::specs::Replies::reply_text))]
fn write_counts<W: Write>(tally: &Tally, text: &mut Text, writer: &mut W) -> Result<(), WriteFault>
    ensures { Tells (outgoing (W.contents writer.old) text.old) (outgoing (W.contents writer.new) text.new) (reply_text (Told.Counts tally.now)) result }
{
    put_line(
        text,
        writer,
        b"count",
        &[
            tally.v as i64,
            tally.e as i64,
            tally.f as i64,
            tally.r as i64,
            tally.sum,
        ],
    )
}

/// Appends the text of what was told to a pending text, which is written first if there is no room. A listing is that of the arena's model. It takes no
/// memory.
///
/// A fault comes if a write fails or takes no byte; what was written then is a prefix of the two texts.
#[tactic(auto, unfolding(crate::specs::Replies::reply_text))]
pub fn tell<W: Write>(
    arena: &Arena,
    told: &Told,
    text: &mut Text,
    writer: &mut W,
) -> Result<(), WriteFault>
    requires sound { Sound arena.now.model }
    ensures { Tells (outgoing (W.contents writer.old) text.old) (outgoing (W.contents writer.new) text.new) (told_text arena.now.model told.now) result }
{
    match told {
        Told::Silent => Ok(()),
        Told::Done => put(text, writer, b"ok\n"),
        Told::Refused(refusal) => put_refused(text, writer, refusal),
        Told::Fault(cause) => put_line(text, writer, b"fault", &[*cause]),
        Told::Memory => put(text, writer, b"memory\n"),
        Told::Plane(plane, flat) => write_plane(plane, *flat, text, writer),
        Told::Volume(n) => put_line(text, writer, b"volume", &[*n]),
        Told::Counts(tally) => write_counts(tally, text, writer),
        Told::Listing => tell_listing(arena, text, writer),
        Told::InDraft => Ok(()),
        Told::NoDraft => Ok(()),
        Told::Steps(_) => Ok(()),
    }
}

/// Writes the text of what was told. A listing is that of the arena's model. It takes no memory.
///
/// A fault comes if a write fails or takes no byte; what was written then is a prefix of the text.
#[tactic(auto, using(crate::proofs::TellingLaws::all_out, crate::proofs::TellingLaws::broken_out))]
pub fn write_told<W: Write>(arena: &Arena, told: &Told, writer: &mut W) -> Result<(), WriteFault>
    requires sound { Sound arena.now.model }
    ensures { Puts (W.contents writer.old) (W.contents writer.new) (told_text arena.now.model told.now) result }
{
    let mut text = Text::new();
    tell(arena, told, &mut text, writer)?;
    release(&mut text, writer)
}
