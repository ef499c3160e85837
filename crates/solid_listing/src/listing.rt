//! Listings.
ghost use Rattle.euler_operators.specs.Common.{Sound};
ghost use Rattle.solid_listing.specs.Common.{text_of, kind_lines, lines, listing, Tells, outgoing};

use crate::entry::write_entry;
use crate::pending::{Text, put};
use crate::writing::WriteFault;
use euler_conditions::Arena;
use euler_operators::Kind;
use std::io::Write;

/// Writes a line for each thing of a kind, by rising number.
#[tactic(auto, using(crate::proofs::TellingLaws::none_yet, crate::proofs::Walks::from_zero, crate::proofs::TellingLaws::all_told, crate::proofs::Walks::no_number))]
fn write_kind<W: Write>(
    arena: &Arena,
    kind: Kind,
    text: &mut Text,
    writer: &mut W,
) -> Result<(), WriteFault>
    requires { Sound arena.now.model }
    ensures { Tells (outgoing (W.contents writer.old) text.old) (outgoing (W.contents writer.new) text.new) (text_of (kind_lines arena.now.model kind)) result }
{
    let mut above = 0;
    while let Some(n) = arena.after_number(kind, above) {
        write_entry(arena, kind, n, text, writer)?;
        above = n;
    }
    Ok(())
}

/// Writes a line for each thing, kind after kind.
fn write_lines<W: Write>(arena: &Arena, text: &mut Text, writer: &mut W) -> Result<(), WriteFault>
    requires { Sound arena.now.model }
    ensures { Tells (outgoing (W.contents writer.old) text.old) (outgoing (W.contents writer.new) text.new) (text_of (lines arena.now.model)) result }
{
    for kind in [
        Kind::Solid,
        Kind::Face,
        Kind::Loop,
        Kind::Edge,
        Kind::Vertex,
    ] {
        write_kind(arena, kind, text, writer)?;
    }
    Ok(())
}

/// Appends the listing of a model to a pending text, which is written when there is no room. The listing has a line for each solid, face, loop, edge
/// and vertex, each kind by rising number, or the line `empty`. It takes no memory.
///
/// A fault comes if a write fails or takes no byte; what was written then is a prefix of the text and the listing.
#[inline(never)]
pub(crate) fn tell_listing<W: Write>(
    arena: &Arena,
    text: &mut Text,
    writer: &mut W,
) -> Result<(), WriteFault>
    requires sound { Sound arena.now.model }
    ensures { Tells (outgoing (W.contents writer.old) text.old) (outgoing (W.contents writer.new) text.new) (listing arena.now.model) result }
{
    if arena.greatest(Kind::Solid) == 0 {
        return put(text, writer, b"empty\n");
    }
    write_lines(arena, text, writer)
}
