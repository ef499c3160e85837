//! Writing words and numbers.
ghost use Rattle.std.specs.Prelude.{◌≡◌, ◌∷◌, ◌++◌, map};
ghost use Rattle.solid_listing.specs.Common.{spaced, line_text, Tells, outgoing};

use crate::pending::{Text, put};
use crate::writing::WriteFault;
use itoa::{Buffer, Integer};
use std::io::Write;

/// Writes a number.
pub fn put_number<W: Write, I: Integer>(
    text: &mut Text,
    writer: &mut W,
    number: I,
) -> Result<(), WriteFault>
    ensures { Tells (outgoing (W.contents writer.old) text.old) (outgoing (W.contents writer.new) text.new) (I.text number) result }
{
    let mut buffer = Buffer::new();
    put(text, writer, buffer.format(number).as_bytes())
}

/// Writes a space and a number.
pub fn put_spaced<W: Write, I: Integer>(
    text: &mut Text,
    writer: &mut W,
    number: I,
) -> Result<(), WriteFault>
    ensures { Tells (outgoing (W.contents writer.old) text.old) (outgoing (W.contents writer.new) text.new) (32 ∷ I.text number) result }
{
    put(text, writer, b" ")?;
    put_number(text, writer, number)
}

/// Writes a word and the numbers that follow it.
#[tactic(auto, using(crate::proofs::TellingLaws::telling, crate::proofs::LineLaws::spaced_next, crate::proofs::TellingLaws::told_more))]
pub fn put_words<W: Write, I: Integer>(
    text: &mut Text,
    writer: &mut W,
    name: &[u8],
    numbers: &[I],
) -> Result<(), WriteFault>
    ensures { Tells (outgoing (W.contents writer.old) text.old) (outgoing (W.contents writer.new) text.new) (name.now ++ spaced (map I.text numbers.now)) result }
{
    put(text, writer, name)?;
    for n in numbers {
        put_spaced(text, writer, *n)?;
    }
    Ok(())
}

/// Writes the line of a word and numbers. It has a stack frame of its own for the numbers, so that no shorter line pays for it.
#[inline(never)]
pub fn put_line<W: Write, I: Integer>(
    text: &mut Text,
    writer: &mut W,
    name: &[u8],
    numbers: &[I],
) -> Result<(), WriteFault>
    ensures { Tells (outgoing (W.contents writer.old) text.old) (outgoing (W.contents writer.new) text.new) (line_text (name.now ∷ map I.text numbers.now)) result }
{
    put_words(text, writer, name, numbers)?;
    put(text, writer, b"\n")
}
