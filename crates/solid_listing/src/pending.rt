//! A text that is put together before it is written.
ghost use Rattle.std.specs.Prelude.{◌≡◌, []};
ghost use Rattle.solid_listing.specs.Common.{Puts, Tells, outgoing, Takes};

use crate::writing::{WriteFault, write_whole};
use arrayvec::ArrayVec;
use std::io::Write;
use std::marker::Model;

/// The text that is still to be written. It is collected, because a write costs more than the few bytes of a word.
#[derive(Drop)]
pub struct Text {
    bytes: ArrayVec<u8, 1024>,
}

impl Model for Text {
    ghost use Rattle.std.specs.Prelude.{ℕ, List};

    ghost Value = { List ℕ };

    ghost view = { λ t. t.bytes.items };
}

impl Text {
    ghost use Rattle.std.specs.Prelude.{◌≡◌, []};

    /// No text.
    pub fn new() -> Text
        ensures { result ≡ [] }
    {
        Text {
            bytes: ArrayVec::new(),
        }
    }

    /// The bytes of the text.
    fn bytes(&self) -> &[u8]
        ensures { result.now ≡ self.now }
    {
        self.bytes.as_slice()
    }

    /// Drops the text.
    fn clear(&mut self)
        ensures { self.new ≡ [] }
    {
        self.bytes.clear();
    }

    /// Appends a piece, if there is room for it.
    fn append(&mut self, piece: &[u8]) -> bool
        ensures { Takes self.old self.new piece.now result }
    {
        self.bytes.try_extend_from_slice(piece).is_ok()
    }
}

/// Writes the text.
pub fn release<W: Write>(text: &mut Text, writer: &mut W) -> Result<(), WriteFault>
    ensures puts { Puts (W.contents writer.old) (W.contents writer.new) text.old result }
    ensures none { text.new ≡ [] }
{
    let released = write_whole(writer, text.bytes());
    text.clear();
    released
}

/// Puts a piece for which there is no room: the text is written, and then the piece.
#[cold]
#[inline(never)]
fn put_past<W: Write>(text: &mut Text, writer: &mut W, piece: &[u8]) -> Result<(), WriteFault>
    ensures { Tells (outgoing (W.contents writer.old) text.old) (outgoing (W.contents writer.new) text.new) piece.now result }
{
    release(text, writer)?;
    write_whole(writer, piece)
}

/// Appends a piece to the text. If there is no room, the text is written first.
pub(crate) fn put<W: Write>(text: &mut Text, writer: &mut W, piece: &[u8]) -> Result<(), WriteFault>
    ensures { Tells (outgoing (W.contents writer.old) text.old) (outgoing (W.contents writer.new) text.new) piece.now result }
{
    if text.append(piece) {
        return Ok(());
    }
    put_past(text, writer, piece)
}
