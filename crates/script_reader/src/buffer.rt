//! A buffer of a fixed size, between a reader and the lines.
ghost use Rattle.std.specs.Prelude.{◌≡◌, ◌≢◌, ◌≤◌, ◌<◌, ◌+◌, ◌-◌, length, take, drop, slice_range, IfErr, IfOk, OnErr};
ghost use Rattle.std.specs.Io.{ReadsAtMost};
ghost use Rattle.std.specs.Io.KnownBytes.{Consumes, Keeps, IsAtEnd, ReadConsumes};
ghost use Rattle.std.specs.IoError.{error_kind};
ghost use Rattle.script_reader.specs.Newline.{FirstNewline};
ghost use Rattle.script_reader.specs.Reaching.{MayRead, Reaches};

use crate::streams::{Inlet, Outlet};
use memchr::memchr;
use std::alloc::{AllocError, Global};
use std::io::{self, ErrorKind};
use std::marker::Model;

/// A line has at most so many bytes, without its newline.
pub const LINE_LIMIT: usize = 65_536;

/// The longest line, and as many bytes again for a read.
const SIZE: usize = 131_072;

/// Most lines are shorter.
const NEAR: usize = 32;

/// So many reads in a row may be interrupted by signals; after that many, reading has failed.
const READ_TRIES: u32 = 1_000_000;

/// The bytes that were read and are in no line yet, and the line that was taken last.
#[derive(Drop)]
pub struct Buffer {
    bytes: Vec<u8>,
    line_start: usize,
    line_end: usize,
    start: usize,
    /// Where the first unread newline is, or the end.
    newline: usize,
    end: usize,
}

impl Model for Buffer {
    ghost use Rattle.std.specs.Prelude.{◌≡◌, ◌≤◌, slice_range, vec_len};
    ghost use Rattle.script_reader.specs.Newline.{FirstNewline};
    ghost use Rattle.script_reader.specs.Buffer.{Holding};

    ghost Value = { Holding };

    ghost view = { λ b. record {
      unread = slice_range b.bytes.items b.start b.end;
      line = slice_range b.bytes.items b.line_start b.line_end;
    } };

    ghost invariant = { λ b. FirstNewline b.bytes.items b.start b.end b.newline × (b.end ≤ 131072)
        × (b.line_start ≤ b.line_end) × (b.line_end ≤ 131072) × (vec_len b.bytes ≡ 131072) };
}

impl Buffer {
    ghost use Rattle.std.specs.Prelude.{◌≡◌, ◌≤◌, ◌<◌, [], length, take, ◌-◌, IfOk};
    ghost use Rattle.script_reader.specs.Newline.{has_newline};
    ghost use Rattle.script_reader.specs.Buffer.{TakesLine, ReadsMore};
    ghost use Rattle.script_reader.specs.Reaching.{MayRead, Reaches};

    /// Makes the whole buffer.
    pub fn new(alloc: Global) -> Result<Buffer, AllocError>
        ensures { IfOk result (λ b. b.unread ≡ []) }
    {
        Ok(Buffer {
            bytes: vec![in alloc; 0; SIZE]?,
            line_start: 0,
            line_end: 0,
            start: 0,
            newline: 0,
            end: 0,
        })
    }

    /// How many bytes are unread.
    pub fn len(&self) -> usize
        ensures value { result ≡ length self.now.unread }
        ensures bound { result ≤ 131072 }
    {
        self.end - self.start
    }

    /// The line that was taken last.
    pub fn line(&self) -> &[u8]
        ensures { result.now ≡ self.now.line }
    {
        &self.bytes[self.line_start..self.line_end]
    }

    /// Whether a newline is unread.
    #[tactic(auto, using(crate::proofs::NewlineLaws::found_is))]
    pub fn has_newline(&self) -> bool
        ensures { result ≡ has_newline self.now.unread }
    {
        self.newline < self.end
    }

    /// Drops all unread bytes.
    pub fn clear(&mut self)
        ensures { self.new.unread ≡ [] }
    {
        self.start = 0;
        self.newline = 0;
        self.end = 0;
    }

    /// Takes the first line, if its newline is there.
    pub fn take_line(&mut self) -> bool
        ensures { TakesLine self.old self.new result }
    {
        if self.newline == self.end {
            return false;
        }
        self.line_start = self.start;
        self.line_end = self.newline;
        self.start = self.newline + 1;
        self.newline = first_newline(&self.bytes, self.start, self.end);
        true
    }

    /// Takes all unread bytes as a line.
    pub fn take_rest(&mut self)
        ensures line { self.new.line ≡ self.old.unread }
        ensures unread { self.new.unread ≡ [] }
    {
        self.line_start = self.start;
        self.line_end = self.end;
        self.start = self.end;
        self.newline = self.end;
    }

    /// Drops the last unread byte.
    #[tactic(auto, using(crate::proofs::NewlineLaws::without_last))]
    pub fn drop_last(&mut self)
        requires { 0 < length self.old.unread }
        ensures { self.new.unread ≡ take (length self.old.unread - 1) self.old.unread }
    {
        self.end -= 1;
        self.newline = self.newline.min(self.end);
    }

    /// Reads at most so many bytes.
    pub fn read_from<R: Inlet<W>, W: Outlet>(
        &mut self,
        reader: &mut R,
        writer: &W,
        most: usize,
    ) -> io::Result<usize>
        requires handed_on { Reaches (W.reached writer.now) (W.contents writer.now) }
        requires asked { MayRead R.remaining R.asks reader.old (W.contents writer.now) }
        requires room { length self.old.unread ≤ 65536 }
        requires some { 0 < most }
        ensures { ReadsMore self.old self.new (R.remaining reader.old) (R.remaining reader.new) most result }
    {
        shift(&mut self.bytes, self.start, self.end);
        self.newline -= self.start;
        self.end -= self.start;
        self.start = 0;
        self.line_start = 0;
        self.line_end = 0;
        let n = read_at(reader, writer, &mut self.bytes, self.end, most)?;
        self.end += n;
        self.newline = first_newline(&self.bytes, self.newline, self.end);
        Ok(n)
    }
}

/// Moves a range to the front, so that each byte is moved once, even if reads are small.
fn shift(bytes: &mut [u8], start: usize, end: usize)
    requires low { start ≤ end }
    requires high { end ≤ length bytes.old }
    ensures { take (end - start) bytes.new ≡ slice_range bytes.old start end }
{
    if start > 0 {
        bytes.copy_within(start..end, 0);
    }
}

/// Reads at most so many bytes after the first ones.
fn read_at<R: Inlet<W>, W: Outlet>(
    reader: &mut R,
    writer: &W,
    bytes: &mut [u8],
    at: usize,
    most: usize,
) -> io::Result<usize>
    requires handed_on { Reaches (W.reached writer.now) (W.contents writer.now) }
    requires asked { MayRead R.remaining R.asks reader.old (W.contents writer.now) }
    requires room { at < length bytes.old }
    requires some { 0 < most }
    ensures front { take at bytes.new ≡ take at bytes.old }
    ensures ok { IfOk result (λ n. (n ≤ most) × (at + n ≤ length bytes.new)
        × Consumes (R.remaining reader.old) (R.remaining reader.new) (take n (drop at bytes.new))
        × (n ≡ 0 → IsAtEnd (R.remaining reader.new))) }
    ensures err { OnErr result (Keeps (R.remaining reader.old) (R.remaining reader.new)) }
{
    let room = most.min(bytes.len() - at);
    read_retrying(reader, writer, &mut bytes[at..at + room])
}

/// Reads once, and again where a signal interrupted the read before any byte came, at most 1,000,000 times in a row.
fn read_retrying<R: Inlet<W>, W: Outlet>(
    reader: &mut R,
    writer: &W,
    bytes: &mut [u8],
) -> io::Result<usize>
    requires handed_on { Reaches (W.reached writer.now) (W.contents writer.now) }
    requires asked { MayRead R.remaining R.asks reader.old (W.contents writer.now) }
    ensures bound { ReadsAtMost result bytes.new }
    ensures bytes { ReadConsumes (R.remaining reader.old) (R.remaining reader.new) result bytes.new }
    ensures retried { IfErr result (λ e. error_kind e ≢ ErrorKind.Interrupted) }
{
    'tries: for _ in 0..READ_TRIES {
        match reader.read_after(writer, bytes) {
            Ok(n) => return Ok(n),
            Err(error) if error.kind() != ErrorKind::Interrupted => return Err(error),
            Err(_) => {}
        }
    }
    Err(io::Error::from(ErrorKind::TimedOut))
}

/// Where the first newline of a range is, or its end.
#[inline(always)]
fn newline_in(bytes: &[u8], start: usize, end: usize) -> usize
    requires low { start ≤ end }
    requires high { end ≤ length bytes.now }
    ensures { FirstNewline bytes.now start end result }
{
    match memchr(b'\n', &bytes[start..end]) {
        Some(len) => start + len,
        None => end,
    }
}

/// The same search, as a call.
#[inline(never)]
fn far_newline(bytes: &[u8], start: usize, end: usize) -> usize
    requires low { start ≤ end }
    requires high { end ≤ length bytes.now }
    ensures { FirstNewline bytes.now start end result }
{
    newline_in(bytes, start, end)
}

/// The same search for a newline that is likely to be near: so few bytes are searched by a few instructions, without a call.
#[inline(always)]
fn first_newline(bytes: &[u8], start: usize, end: usize) -> usize
    requires low { start ≤ end }
    requires high { end ≤ length bytes.now }
    ensures { FirstNewline bytes.now start end result }
{
    if end - start < NEAR {
        return far_newline(bytes, start, end);
    }
    let near = newline_in(bytes, start, start + NEAR);
    if near < start + NEAR {
        return near;
    }
    far_newline(bytes, near, end)
}
