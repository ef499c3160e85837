//! The points of a line, and the changes that take them.
ghost use Rattle.std.specs.Prelude.{◌≡◌};

use super::command::Fault;
use super::places::points;
use arrayvec::ArrayVec;
use call_types::{Change, Points};
use euler_operators::Point;
use std::marker::Model;

/// The points of a polygon, in order: at most 64.
#[derive(Drop)]
pub struct Corners {
    points: ArrayVec<Point, 64>,
}

impl Model for Corners {
    ghost use Rattle.std.specs.Prelude.{List};
    ghost use Rattle.euler_operators.specs.Common.{Point};

    ghost Value = { List Point };

    ghost view = { λ c. c.points.items };
}

impl Corners {
    ghost use Rattle.std.specs.Prelude.{◌≡◌, ◌<◌, [], ◌∷◌, ◌++◌, length, IsTrue, ◌↔◌};

    /// No points.
    pub(crate) fn new() -> Corners
        ensures { result ≡ [] }
    {
        Corners {
            points: ArrayVec::new(),
        }
    }

    /// The points, for a call that takes them.
    pub fn points(&self) -> &ArrayVec<Point, 64>
        ensures { result.now.items ≡ self.now }
    {
        &self.points
    }

    /// Whether there is no room for a further point.
    pub(crate) fn is_full(&self) -> bool
        ensures { IsTrue result ↔ (length self.now ≡ 64) }
    {
        self.points.is_full()
    }

    /// Appends a point.
    pub(crate) fn push(&mut self, point: Point)
        requires { length self.old < 64 }
        ensures { self.new ≡ self.old ++ point ∷ [] }
    {
        self.points.push(point);
    }
}

/// The points of a polygon, as the words at the end of their line: at most 64. A request holds these words, and no memory for the points.
#[derive(Drop)]
pub struct Polygon<'a> {
    line: &'a [u8],
}

impl<'a> Model for Polygon<'a> {
    ghost use Rattle.std.specs.Prelude.{◌≡◌, List, [], Ok};
    ghost use Rattle.euler_operators.specs.Common.{Point};
    ghost use Rattle.script_reader.specs.Words.{words};
    ghost use Rattle.script_reader.specs.Places.{points_of};
    ghost use Rattle.script_reader.specs.Polygon.{polygon_of};

    ghost Value = { List Point };

    ghost view = { λ p. polygon_of p.line.now };

    ghost invariant = { λ p. points_of 64 (words p.line.now) ≡ Ok (polygon_of p.line.now, []) };
}

impl<'a> Polygon<'a> {
    ghost use Rattle.std.specs.Prelude.{◌≡◌, []};
    ghost use Rattle.script_reader.specs.Words.{words};
    ghost use Rattle.script_reader.specs.Places.{Agrees, points_of};

    /// As many points as there are words for, but no more than 64.
    pub(crate) fn read(line: &'a [u8]) -> Result<Polygon<'a>, Fault>
        ensures { Agrees (λ x. (x, [])) result (points_of 64 (words line.now)) }
    {
        points(line)?;
        Ok(Polygon { line })
    }

    /// The points, in memory of their own.
    pub fn corners(&self) -> Corners
        ensures { result ≡ self.now }
    {
        points(self.line).unwrap()
    }
}

/// A change over points, without the points.
#[derive(Clone, Copy, Debug, PartialEq, Eq)]
pub enum Outline {
    /// The new solid of a lamina.
    Lamina(u32),
}

impl Outline {
    ghost use Rattle.std.specs.Prelude.{◌≡◌};
    ghost use Rattle.script_reader.specs.Polygon.{over};

    /// The change over these points.
    pub fn over(self, corners: &Corners) -> Change<'_>
        ensures { result ≡ over self corners.now }
    {
        let points = Points::of(corners.points());
        match self {
            Outline::Lamina(solid) => Change::Lamina(solid, points),
        }
    }
}
