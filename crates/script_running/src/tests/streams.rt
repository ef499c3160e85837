//! Readers and writers over memory that cut and fail.
ghost use Rattle.std.specs.Prelude.{◌≡◌, ◌++◌, ℕ, List, Some, codes, false};
ghost use Rattle.script_running.specs.Reaching.{AnswersWhole};

use crate::{Inlet, Outlet};
use std::io::{self, ErrorKind, Read, Write};

/// A reader of a few bytes at a time, which fails after so many reads.
#[derive(Drop)]
pub struct Pieces<'a> {
    pub bytes: &'a [u8],
    pub most: usize,
    pub left: u32,
}

impl Read for Pieces<'_> {
    fn read(&mut self, buf: &mut [u8]) -> io::Result<usize> {
        if self.left == 0 {
            return Err(io::Error::from(ErrorKind::Other));
        }
        self.left -= 1;
        let n = self.most.min(self.bytes.len()).min(buf.len());
        buf[..n].copy_from_slice(&self.bytes[..n]);
        self.bytes = &self.bytes[n..];
        Ok(n)
    }
}

/// A reader that signals interrupt so many times before each read.
#[derive(Drop)]
pub struct Interrupted<'a> {
    pub bytes: &'a [u8],
    pub times: u32,
    pub left: u32,
}

impl Read for Interrupted<'_> {
    fn read(&mut self, buf: &mut [u8]) -> io::Result<usize> {
        if self.left > 0 {
            self.left -= 1;
            return Err(io::Error::from(ErrorKind::Interrupted));
        }
        self.left = self.times;
        let n = self.bytes.len().min(buf.len());
        buf[..n].copy_from_slice(&self.bytes[..n]);
        self.bytes = &self.bytes[n..];
        Ok(n)
    }
}

/// A reader of two lines, for one who sends a line only once the line before is answered. So it asks for the answers to the whole lines that it gave,
/// and a read before they are written fails.
#[derive(Drop)]
pub struct Asking<'a> {
    pub bytes: &'a [u8],
}

/// How long the answers are to the whole lines before this rest.
fn answered(rest: &[u8]) -> usize {
    match rest.len() {
        0 => 18,
        1..=5 => 12,
        _ => 0,
    }
}

impl Inlet<Vec<u8>> for Asking<'_> {
    ghost remaining = { λ r. Some r.bytes.now };

    ghost asks = { λ r contents. (given : List ℕ) × (out : List ℕ) × (codes "kvfs 1\nlist\n" ≡ given ++ r.bytes.now) × (contents ≡ Some out) × AnswersWhole false given out };

    fn read_after(&mut self, writer: &Vec<u8>, buf: &mut [u8]) -> io::Result<usize> {
        if writer.len() != answered(self.bytes) {
            return Err(io::Error::from(ErrorKind::Other));
        }
        let most = buf.len().min(4);
        self.bytes.read(&mut buf[..most])
    }
}

/// What a writer does once it takes no more.
#[derive(Clone, Copy, Debug, PartialEq, Eq)]
pub enum Halt {
    Fails,
    TakesNothing,
}

/// A writer of a few bytes at a time, which halts after so many writes.
#[derive(Drop)]
pub struct Taker {
    pub taken: Vec<u8>,
    pub most: usize,
    pub left: u32,
    pub halt: Halt,
}

impl Write for Taker {
    fn write(&mut self, buf: &[u8]) -> io::Result<usize> {
        if self.left == 0 {
            return match self.halt {
                Halt::Fails => Err(io::Error::from(ErrorKind::Other)),
                Halt::TakesNothing => Ok(0),
            };
        }
        self.left -= 1;
        let n = self.most.min(buf.len());
        self.taken.extend_from_slice(&buf[..n])?;
        Ok(n)
    }

    fn flush(&mut self) -> io::Result<()> {
        Ok(())
    }
}

impl Outlet for Taker {
    fn hand_on(&mut self) -> io::Result<()> {
        self.flush()
    }
}

/// A writer that takes everything, and fails after so many flushes.
#[derive(Drop)]
pub struct Flushed {
    pub left: u32,
}

impl Write for Flushed {
    fn write(&mut self, buf: &[u8]) -> io::Result<usize> {
        Ok(buf.len())
    }

    fn flush(&mut self) -> io::Result<()> {
        if self.left == 0 {
            return Err(io::Error::from(ErrorKind::Other));
        }
        self.left -= 1;
        Ok(())
    }
}

impl Outlet for Flushed {
    fn hand_on(&mut self) -> io::Result<()> {
        self.flush()
    }
}
