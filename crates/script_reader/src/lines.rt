//! A script's lines, over any reader.
ghost use Rattle.std.specs.Prelude.{◌≡◌, ◌≢◌, ◌≤◌};
ghost use Rattle.script_reader.specs.declared.lines.Ending.TheVariants.{Over};

use super::buffer::{Buffer, LINE_LIMIT};
use crate::streams::{Inlet, Outlet};
use std::alloc::{AllocError, Global};

/// A script has at most so many bytes.
const SCRIPT_LIMIT: u64 = 67_108_864;

/// Whether more can be read, or why not.
#[derive(Clone, Copy, Debug, PartialEq, Eq)]
pub enum Ending {
    Open,
    Ended,
    Failed,
    Over,
}

/// What comes next in a script.
#[derive(Clone, Copy, Debug, PartialEq, Eq)]
pub enum Found {
    /// A line of at most 65,536 bytes.
    Line,
    /// A line of more bytes. It is skipped to its newline.
    Long,
    /// The reader gave its end.
    End,
    /// A read failed. What was read after the last newline is no line.
    Read,
    /// The reader gave a byte past 67,108,864. What was read after the last newline is no line.
    TooLong,
}

/// The lines of a script, one after the other. Reads are as big as the buffer allows.
#[derive(Drop)]
pub struct Lines<R> {
    reader: R,
    buffer: Buffer,
    taken: u64,
    ending: Ending,
    ghost over: { ending ≡ Over → taken ≡ 67108865 },
    ghost within: { ending ≢ Over → taken ≤ 67108864 },
}

impl<R> Lines<R> {
    ghost use Rattle.std.specs.Prelude.{◌≡◌, ◌≢◌, ◌≤◌, ◌<◌, true, false, length};
    ghost use Rattle.std.specs.Io.KnownBytes.{IsAtEnd};
    ghost use Rattle.script_reader.specs.Lines.{Reads, LastAnswer};
    ghost use Rattle.script_reader.specs.Next.{Went};
    ghost use Rattle.script_reader.specs.declared.lines.Ending.TheVariants.{Open, Ended};
    ghost use Rattle.script_reader.specs.Newline.{has_newline};
    ghost use Rattle.script_reader.specs.Reaching.{MayRead, Reaches};
    ghost use Rattle.script_reader.specs.State.{ending_of, line_of, reader_of, unread_of, IsStill};

    /// Reads some bytes. It has a stack frame of its own, so that a line that is there already doesn't pay for it.
    #[inline(never)]
    #[tactic(auto, unfolding(crate::specs::Lines::within_limit))]
    fn fill<W: Outlet>(&mut self, writer: &W)
    where
        R: Inlet<W>,
        requires handed_on { Reaches (W.reached writer.now) (W.contents writer.now) }
        requires asked { MayRead R.remaining R.asks self.old.reader (W.contents writer.now) }
        requires open { self.old.ending ≡ Open }
        requires room { length self.old.buffer.unread ≤ 65536 }
        ensures reads { Reads (R.remaining self.old.reader) (R.remaining self.new.reader)
            self.old.taken self.new.taken self.old.buffer.unread self.new.buffer.unread }
        ensures end { self.new.ending ≡ Ended → IsAtEnd (R.remaining self.new.reader) }
        ensures progress { self.new.ending ≡ Open → self.old.taken < self.new.taken }
    {
        let most = (SCRIPT_LIMIT + 1 - self.taken) as usize;
        match self.buffer.read_from(&mut self.reader, writer, most) {
            Err(_) => self.ending = Ending::Failed,
            Ok(0) => self.ending = Ending::Ended,
            Ok(n) => {
                self.taken += n as u64;
                if self.taken > SCRIPT_LIMIT {
                    self.buffer.drop_last();
                    self.ending = Ending::Over;
                }
            }
        }
    }

    /// The answer for what stands after the last newline, when nothing more can be read.
    fn last(&mut self, is_long: bool) -> Found
        requires { self.old.ending ≢ Open }
        ensures answer { LastAnswer self.old.buffer self.new.buffer self.old.ending is_long result }
        ensures still { IsStill self.old self.new }
    {
        match self.ending {
            Ending::Open => unreachable!(),
            Ending::Failed => Found::Read,
            Ending::Over => Found::TooLong,
            Ending::Ended => {
                if is_long || self.buffer.len() > LINE_LIMIT {
                    self.buffer.clear();
                    Found::Long
                } else if self.buffer.len() == 0 {
                    Found::End
                } else {
                    self.buffer.take_rest();
                    Found::Line
                }
            }
        }
    }

    /// Goes to the next line, or says what comes in its place. After the end, a failed read or a script that is too long it answers the same
    /// again and reads nothing. It takes no memory. It reads only if no newline is in the buffer; a read may wait, so then all that was written has to
    /// be handed on, and be what the reader asks for.
    pub fn advance<W: Outlet>(&mut self, writer: &W) -> Found
    where
        R: Inlet<W>,
        requires handed_on { has_newline (unread_of self.old) ≡ false → Reaches (W.reached writer.now) (W.contents writer.now) }
        requires asked { has_newline (unread_of self.old) ≡ false → ending_of self.old ≡ Open → MayRead R.remaining R.asks (reader_of self.old) (W.contents writer.now) }
        ensures { Went R.remaining self.old self.new result }
    {
        let mut is_long = false;
        loop {
            if self.buffer.take_line() {
                return if is_long || self.buffer.line().len() > LINE_LIMIT {
                    Found::Long
                } else {
                    Found::Line
                };
            }
            if self.ending != Ending::Open {
                return self.last(is_long);
            }
            if self.buffer.len() > LINE_LIMIT {
                self.buffer.clear();
                is_long = true;
            }
            self.fill(writer);
        }
    }

    /// The line that was found last, without its newline.
    pub fn line(&self) -> &[u8]
        ensures { result.now ≡ line_of self.now }
    {
        self.buffer.line()
    }

    /// Whether the next line, with its newline, is in the buffer.
    pub fn has_whole_line(&self) -> bool
        ensures { result ≡ has_newline (unread_of self.now) }
    {
        self.buffer.has_newline()
    }
}

impl<R: Drop> Lines<R> {
    ghost use Rattle.std.specs.Prelude.{IfOk};
    ghost use Rattle.script_reader.specs.State.{IsFresh};

    /// The lines of what the reader gives. It takes memory for the whole buffer, and nothing else takes memory later.
    pub fn new(alloc: Global, reader: R) -> Result<Lines<R>, AllocError>
        ensures { IfOk result (IsFresh reader) }
    {
        let buffer = Buffer::new(alloc)?;
        Ok(Lines {
            reader,
            buffer,
            taken: 0,
            ending: Ending::Open,
        })
    }
}
