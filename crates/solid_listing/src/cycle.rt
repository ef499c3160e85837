//! The half-edges of a loop, from the least on.
ghost use Rattle.std.specs.Prelude.{◌≡◌, true, ◌∷◌, map};
ghost use Rattle.euler_operators.specs.Common.{least, code, has_half, cycle_of, Sound};
ghost use Rattle.solid_listing.specs.Common.{spaced, half_word, Tells, outgoing};

use crate::pending::{Text, put};
use crate::text::put_number;
use crate::writing::WriteFault;
use euler_conditions::Arena;
use euler_operators::HalfEdge;
use solid_walks::least_item;
use std::io::Write;

/// Writes a space and a half-edge: its sign and its edge.
fn put_half<W: Write>(text: &mut Text, writer: &mut W, h: HalfEdge) -> Result<(), WriteFault>
    ensures { Tells (outgoing (W.contents writer.old) text.old) (outgoing (W.contents writer.new) text.new) (32 ∷ half_word (code h)) result }
{
    put(text, writer, if h.first { b" +" } else { b" -" })?;
    put_number(text, writer, h.edge)
}

/// Writes the half-edges of a loop, each after a space, beginning at the least one, which is given.
#[tactic(auto, using(crate::proofs::Prelude::item_there))]
fn write_from<W: Write>(
    arena: &Arena,
    first: HalfEdge,
    text: &mut Text,
    writer: &mut W,
) -> Result<(), WriteFault>
    requires sound { Sound arena.now.model }
    requires there { has_half arena.now.model (code first) ≡ true }
    requires least { code first ≡ least (cycle_of arena.now.model (code first)) }
    ensures { Tells (outgoing (W.contents writer.old) text.old) (outgoing (W.contents writer.new) text.new) (spaced (map half_word (cycle_of arena.now.model (code first)))) result }
{
    let mut at = first;
    'round: loop {
        put_half(text, writer, at)?;
        at = arena.next(at);
        if at == first {
            return Ok(());
        }
    }
}

/// Writes the half-edges of the loop in which h stands, each after a space, from the least one on.
pub fn write_cycle<W: Write>(
    arena: &Arena,
    h: HalfEdge,
    text: &mut Text,
    writer: &mut W,
) -> Result<(), WriteFault>
    requires sound { Sound arena.now.model }
    requires there { has_half arena.now.model (code h) ≡ true }
    ensures { Tells (outgoing (W.contents writer.old) text.old) (outgoing (W.contents writer.new) text.new) (spaced (map half_word (cycle_of arena.now.model (code h)))) result }
{
    write_from(arena, least_item(arena, h), text, writer)
}
