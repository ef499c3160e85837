//! Reads the words at one place of a command.
ghost use Rattle.std.specs.Prelude.{◌≡◌, [], Some, None, MatchOption};
ghost use Rattle.script_reader.specs.Words.{words, first_by};
ghost use Rattle.script_reader.specs.Places.{Agrees, half_of, lone_of, corner_of, way_of, points_of};

use super::command::Fault;
use super::numbers::{integer_of, number_of};
use super::polygon::Corners;
use super::quick::{near_number, quick_corner, quick_half, quick_integer};
use super::words::{at_word, next_word};
use euler_operators::{Corner, HalfEdge, Point};
use std::marker::Model;

/// The last word of `ringmv`: the ring becomes a ring of the face, or its outer loop.
#[derive(Clone, Copy, Debug, PartialEq, Eq)]
pub enum Way {
    In,
    Out,
}

#[tactic(auto, using(crate::proofs::NumberLaws::some_half))]
fn half_of(line: &[u8]) -> Option<(HalfEdge, &[u8])>
    ensures { MatchOption result (first_by half_of line.now ≡ None) (λ r. first_by half_of line.now ≡ Some (r.0, r.1.now)) }
{
    let (sign, digits) = line.split_first()?;
    let first = match *sign {
        b'+' => true,
        b'-' => false,
        _ => return None,
    };
    let Some((edge, rest)) = number_of(digits) else {
        return None;
    };
    Some((HalfEdge { edge, first }, rest))
}

fn lone_of(line: &[u8]) -> Option<(Corner, &[u8])>
    ensures { MatchOption result (first_by lone_of line.now ≡ None) (λ r. first_by lone_of line.now ≡ Some (r.0, r.1.now)) }
{
    let (sign, digits) = line.split_first()?;
    if *sign != b'@' {
        return None;
    }
    let (lone, rest) = number_of(digits)?;
    Some((Corner::Lone(lone), rest))
}

#[tactic(auto, using(crate::proofs::CornerLaws::lone_first))]
fn corner_of(line: &[u8]) -> Option<(Corner, &[u8])>
    ensures { MatchOption result (first_by corner_of line.now ≡ None) (λ r. first_by corner_of line.now ≡ Some (r.0, r.1.now)) }
{
    if let [b'@', ..] = line {
        return lone_of(line);
    }
    match half_of(line) {
        Some((half, rest)) => Some((Corner::At(half), rest)),
        None => lone_of(line),
    }
}

fn way_of(word: &[u8]) -> Option<Way>
    ensures { result ≡ way_of word.now }
{
    if word == b"in".as_slice() {
        Some(Way::In)
    } else if word == b"out".as_slice() {
        Some(Way::Out)
    } else {
        None
    }
}

/// The words of a line that are yet to be read. Each call reads what stands at one place, and doesn't return the rest of the line.
#[derive(Drop)]
pub struct Words<'a> {
    rest: &'a [u8],
}

impl<'a> Model for Words<'a> {
    ghost use Rattle.std.specs.Prelude.{List};
    ghost use Rattle.script_reader.specs.Words.{words};
    ghost use Rattle.script_reader.specs.Places.{Word};

    ghost Value = { List Word };

    ghost view = { λ w. words w.rest.now };
}

impl<'a> Words<'a> {
    ghost use Rattle.std.specs.Prelude.{◌≡◌, [], IsTrue, ◌↔◌};
    ghost use Rattle.script_reader.specs.Words.{words};
    ghost use Rattle.script_reader.specs.Numbers.{number_of, integer_of};
    ghost use Rattle.script_reader.specs.Places.{half_of, corner_of, way_of, next_of, point_of, Takes};
    ghost use Rattle.script_reader.specs.Grammar.{Ends};
    ghost use Rattle.script_reader.specs.declared.command.Fault.TheVariants.{BadWord, BadNumber};

    /// The words of a line.
    pub fn of(line: &'a [u8]) -> Words<'a>
        ensures { result ≡ words line.now }
    {
        Words { rest: line }
    }

    /// What is left of the line.
    pub fn rest(&self) -> &'a [u8]
        ensures { words result.now ≡ self.now }
    {
        self.rest
    }

    /// Whether no word is left.
    pub fn is_empty(&self) -> bool
        ensures { IsTrue result ↔ (self.now ≡ []) }
    {
        at_word(self.rest).is_none()
    }

    /// That no word is left.
    pub fn finish(&self) -> Result<(), Fault>
        ensures { Ends self.now result }
    {
        match at_word(self.rest) {
            None => Ok(()),
            Some(_) => Err(Fault::ExtraWord),
        }
    }

    /// A number.
    #[inline(never)]
    #[tactic(auto, using(crate::proofs::QuickLaws::number_told))]
    pub fn number(&mut self) -> Result<u32, Fault>
        ensures { Takes (next_of BadNumber number_of self.old) result self.new }
    {
        if let Some((value, rest)) = near_number(self.rest) {
            self.rest = rest;
            return Ok(value);
        }
        self.any_number()
    }

    /// The same, at any line.
    #[inline(never)]
    fn any_number(&mut self) -> Result<u32, Fault>
        ensures { Takes (next_of BadNumber number_of self.old) result self.new }
    {
        let Some(line) = at_word(self.rest) else {
            return Err(Fault::MissingWord);
        };
        let Some((value, rest)) = number_of(line) else {
            return Err(Fault::BadNumber);
        };
        self.rest = rest;
        Ok(value)
    }

    /// A coordinate, a size or a coefficient.
    #[inline(never)]
    pub fn integer(&mut self) -> Result<i64, Fault>
        ensures { Takes (next_of BadNumber integer_of self.old) result self.new }
    {
        if let Some((value, rest)) = quick_integer(self.rest) {
            self.rest = rest;
            return Ok(value);
        }
        self.any_integer()
    }

    /// The same, at any line.
    #[inline(never)]
    fn any_integer(&mut self) -> Result<i64, Fault>
        ensures { Takes (next_of BadNumber integer_of self.old) result self.new }
    {
        let Some(line) = at_word(self.rest) else {
            return Err(Fault::MissingWord);
        };
        let Some((value, rest)) = integer_of(line) else {
            return Err(Fault::BadNumber);
        };
        self.rest = rest;
        Ok(value)
    }

    /// A half-edge.
    #[inline(never)]
    pub fn half(&mut self) -> Result<HalfEdge, Fault>
        ensures { Takes (next_of BadNumber half_of self.old) result self.new }
    {
        if let Some((value, rest)) = quick_half(self.rest) {
            self.rest = rest;
            return Ok(value);
        }
        self.any_half()
    }

    /// The same, at any line.
    #[inline(never)]
    fn any_half(&mut self) -> Result<HalfEdge, Fault>
        ensures { Takes (next_of BadNumber half_of self.old) result self.new }
    {
        let Some(line) = at_word(self.rest) else {
            return Err(Fault::MissingWord);
        };
        let Some((value, rest)) = half_of(line) else {
            return Err(Fault::BadNumber);
        };
        self.rest = rest;
        Ok(value)
    }

    /// A corner.
    #[inline(never)]
    pub fn corner(&mut self) -> Result<Corner, Fault>
        ensures { Takes (next_of BadNumber corner_of self.old) result self.new }
    {
        if let Some((value, rest)) = quick_corner(self.rest) {
            self.rest = rest;
            return Ok(value);
        }
        self.any_corner()
    }

    /// The same, at any line.
    #[inline(never)]
    fn any_corner(&mut self) -> Result<Corner, Fault>
        ensures { Takes (next_of BadNumber corner_of self.old) result self.new }
    {
        let Some(line) = at_word(self.rest) else {
            return Err(Fault::MissingWord);
        };
        let Some((value, rest)) = corner_of(line) else {
            return Err(Fault::BadNumber);
        };
        self.rest = rest;
        Ok(value)
    }

    /// `in` or `out`.
    pub fn in_or_out(&mut self) -> Result<Way, Fault>
        ensures { Takes (next_of BadWord way_of self.old) result self.new }
    {
        let Some((word, rest)) = next_word(self.rest) else {
            return Err(Fault::MissingWord);
        };
        let Some(value) = way_of(word) else {
            return Err(Fault::BadWord);
        };
        self.rest = rest;
        Ok(value)
    }

    /// Three coordinates.
    pub fn point(&mut self) -> Result<Point, Fault>
        ensures { Takes (point_of self.old) result self.new }
    {
        let x = self.integer()?;
        let y = self.integer()?;
        let z = self.integer()?;
        Ok(Point { x, y, z })
    }
}

/// As many points as there are words for, but no more than 64.
pub fn points(line: &[u8]) -> Result<Corners, Fault>
    ensures { Agrees (λ x. (x, [])) result (points_of 64 (words line.now)) }
{
    let mut corners = Corners::new();
    let mut words = Words::of(line);
    'more: while !words.is_empty() {
        if corners.is_full() {
            return Err(Fault::ExtraWord);
        }
        corners.push(words.point()?);
    }
    Ok(corners)
}
