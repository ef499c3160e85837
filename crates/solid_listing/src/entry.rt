//! The line of one thing.
ghost use Rattle.std.specs.Prelude.{◌≡◌, true, map, decimal};
ghost use Rattle.euler_operators.specs.Common.{rings_of, content, Sound};
ghost use Rattle.euler_conditions.specs.Store.{has_number};
ghost use Rattle.solid_listing.specs.Common.{spaced, line_text, line, content_words, Tells, outgoing};

use crate::cycle::write_cycle;
use crate::pending::{Text, put};
use crate::text::{put_line, put_spaced, put_words};
use crate::writing::WriteFault;
use euler_conditions::Arena;
use euler_operators::{Content, HalfEdge, Kind};
use std::io::Write;

/// Writes the line of an edge.
fn write_edge<W: Write>(
    arena: &Arena,
    e: u32,
    text: &mut Text,
    writer: &mut W,
) -> Result<(), WriteFault>
    requires { has_number arena.now Kind.Edge e ≡ true }
    ensures { Tells (outgoing (W.contents writer.old) text.old) (outgoing (W.contents writer.new) text.new) (line_text (line arena.now.model Kind.Edge e)) result }
{
    let plus = HalfEdge {
        edge: e,
        first: true,
    };
    put_line(
        text,
        writer,
        b"edge",
        &[e, arena.tail(plus), arena.tail(plus.mate())],
    )
}

/// Writes the line of a vertex.
fn write_vertex<W: Write>(
    arena: &Arena,
    v: u32,
    text: &mut Text,
    writer: &mut W,
) -> Result<(), WriteFault>
    requires { has_number arena.now Kind.Vertex v ≡ true }
    ensures { Tells (outgoing (W.contents writer.old) text.old) (outgoing (W.contents writer.new) text.new) (line_text (line arena.now.model Kind.Vertex v)) result }
{
    let p = arena.point(v);
    put_line(text, writer, b"vertex", &[i64::from(v), p.x, p.y, p.z])
}

/// Writes the rings of a face, each after a space. For a face without rings it looks at no loop.
fn write_rings<W: Write>(
    arena: &Arena,
    f: u32,
    text: &mut Text,
    writer: &mut W,
) -> Result<(), WriteFault>
    requires sound { Sound arena.now.model }
    requires there { has_number arena.now Kind.Face f ≡ true }
    ensures { Tells (outgoing (W.contents writer.old) text.old) (outgoing (W.contents writer.new) text.new) (spaced (map decimal (rings_of arena.now.model f))) result }
{
    if arena.ring_count(f) == 0 {
        return Ok(());
    }
    let mut above = 0;
    while let Some(l) = arena.ring_after(f, above) {
        put_spaced(text, writer, l)?;
        above = l;
    }
    Ok(())
}

/// Writes the line of a face.
fn write_face<W: Write>(
    arena: &Arena,
    f: u32,
    text: &mut Text,
    writer: &mut W,
) -> Result<(), WriteFault>
    requires sound { Sound arena.now.model }
    requires there { has_number arena.now Kind.Face f ≡ true }
    ensures { Tells (outgoing (W.contents writer.old) text.old) (outgoing (W.contents writer.new) text.new) (line_text (line arena.now.model Kind.Face f)) result }
{
    put_words(
        text,
        writer,
        b"face",
        &[f, arena.solid_of(f), arena.outer(f)],
    )?;
    write_rings(arena, f, text, writer)?;
    put(text, writer, b"\n")
}

/// Writes what a loop holds, each word after a space.
#[tactic(auto, using(euler_conditions::proofs::Known::filled, crate::proofs::Contents::told_there, crate::proofs::Contents::lone_told, crate::proofs::Contents::told_words))]
fn write_content<W: Write>(
    arena: &Arena,
    l: u32,
    text: &mut Text,
    writer: &mut W,
) -> Result<(), WriteFault>
    requires sound { Sound arena.now.model }
    requires there { has_number arena.now Kind.Loop l ≡ true }
    ensures { Tells (outgoing (W.contents writer.old) text.old) (outgoing (W.contents writer.new) text.new) (spaced (content_words (content arena.now.model l))) result }
{
    match arena.content(l) {
        Content::Lone(v) => put_words(text, writer, b" at", &[v]),
        Content::Ring(h) => write_cycle(arena, h, text, writer),
    }
}

/// Writes the line of a loop.
fn write_loop<W: Write>(
    arena: &Arena,
    l: u32,
    text: &mut Text,
    writer: &mut W,
) -> Result<(), WriteFault>
    requires sound { Sound arena.now.model }
    requires there { has_number arena.now Kind.Loop l ≡ true }
    ensures { Tells (outgoing (W.contents writer.old) text.old) (outgoing (W.contents writer.new) text.new) (line_text (line arena.now.model Kind.Loop l)) result }
{
    put_words(text, writer, b"loop", &[l])?;
    write_content(arena, l, text, writer)?;
    put(text, writer, b"\n")
}

/// Writes the line of a thing by its number.
pub fn write_entry<W: Write>(
    arena: &Arena,
    kind: Kind,
    number: u32,
    text: &mut Text,
    writer: &mut W,
) -> Result<(), WriteFault>
    requires sound { Sound arena.now.model }
    requires there { has_number arena.now kind number ≡ true }
    ensures { Tells (outgoing (W.contents writer.old) text.old) (outgoing (W.contents writer.new) text.new) (line_text (line arena.now.model kind number)) result }
{
    match kind {
        Kind::Solid => put_line(text, writer, b"solid", &[number]),
        Kind::Face => write_face(arena, number, text, writer),
        Kind::Loop => write_loop(arena, number, text, writer),
        Kind::Edge => write_edge(arena, number, text, writer),
        Kind::Vertex => write_vertex(arena, number, text, writer),
    }
}
