//! The two ends of a run: a writer that says what it has handed on, and a reader whose reads may wait.
ghost use Rattle.std.specs.Prelude.{⊤, ℕ, List, Option, None, Some, OnOk};
ghost use Rattle.std.specs.Io.{ReadsAtMost};
ghost use Rattle.std.specs.Io.Buffered.{writer_inner};
ghost use Rattle.std.specs.Io.KnownBytes.{Keeps, ReadConsumes};
ghost use Rattle.script_reader.specs.Reaching.{Reaches};

use std::io::{self, BufWriter, Read, Sink, Write};

/// A writer that may hold bytes back before it hands them on, and knows which it has handed on.
pub trait Outlet: Write {
    // The bytes that were handed on, if they are known.
    ghost reached: { Self → Option (List ℕ) } = { λ _. None };

    /// Hands on all that was written.
    fn hand_on(&mut self) -> io::Result<()>
        ensures bytes { Keeps (Self.contents self.old) (Self.contents self.new) }
        ensures reached { OnOk result (Reaches (Self.reached self.new) (Self.contents self.new)) };
}

/// A vector hands on at once what it takes.
impl Outlet for Vec<u8> {
    ghost reached = { λ v. Some v.items };

    fn hand_on(&mut self) -> io::Result<()> {
        Ok(())
    }
}

/// A sink keeps nothing back.
impl Outlet for Sink {
    fn hand_on(&mut self) -> io::Result<()> {
        Ok(())
    }
}

/// A buffered writer hands on to the writer below it.
impl<W: Write + Drop> Outlet for BufWriter<W> {
    ghost reached = { λ w. W.contents (writer_inner w) };

    fn hand_on(&mut self) -> io::Result<()> {
        self.flush()
    }
}

/// A reader whose reads may wait for someone who waits for what was written. So a read is shown the writer, which has handed on all of it, and the
/// reader may ask for more: that what was written answers what was read.
pub trait Inlet<W: Outlet> {
    // The bytes that reads will give from here on, if they are known.
    ghost remaining: { Self → Option (List ℕ) } = { λ _. None };
    // What a read asks of the bytes that were written, if they are known.
    ghost asks: { Self → Option (List ℕ) → Type 0 } = { λ _ _. ⊤ };

    /// Reads, after all that was written was handed on.
    fn read_after(&mut self, writer: &W, buf: &mut [u8]) -> io::Result<usize>
        requires handed_on { Reaches (W.reached writer.now) (W.contents writer.now) }
        requires asked { asks self.old (W.contents writer.now) }
        ensures bound { ReadsAtMost result buf.new }
        ensures bytes { ReadConsumes (remaining self.old) (remaining self.new) result buf.new };
}

/// Each reader of std can be read so.
impl<R: Read, W: Outlet> Inlet<W> for R {
    ghost remaining = { R.remaining };

    fn read_after(&mut self, _writer: &W, buf: &mut [u8]) -> io::Result<usize> {
        self.read(buf)
    }
}
