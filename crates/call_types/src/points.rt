//! The points of a lamina's polygon, as a command holds them.
ghost use Rattle.std.specs.Prelude.{◌≡◌};

use arrayvec::ArrayVec;
use euler_operators::Point;
use std::marker::Model;

/// Points that are lent to a command, in order: at most 64.
#[derive(Drop)]
pub struct Points<'a> {
    points: &'a ArrayVec<Point, 64>,
}

impl<'a> Model for Points<'a> {
    ghost use Rattle.std.specs.Prelude.{List};
    ghost use Rattle.euler_operators.specs.Common.{Point};

    ghost Value = { List Point };

    ghost view = { λ p. p.points.now.items };
}

impl<'a> Points<'a> {
    /// Lends these points.
    pub fn of(points: &'a ArrayVec<Point, 64>) -> Points<'a>
        ensures { result ≡ points.now.items }
    {
        Points { points }
    }

    /// The points, for a call that takes them.
    pub fn points(&self) -> &ArrayVec<Point, 64>
        ensures { result.now.items ≡ self.now }
    {
        self.points
    }
}
