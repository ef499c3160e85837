//! Points in range, in half the memory.
ghost use Rattle.std.specs.Prelude.{◌≡◌};
ghost use Rattle.lattice.specs.Point.{IsInRange};

use crate::Point;
use std::marker::Model;

/// A point within `COORDINATE_LIMIT`, in twelve bytes, for tables of many points. Contracts see the point.
#[derive(Clone, Copy)]
pub struct PackedPoint {
    x: i32,
    y: i32,
    z: i32,
}

impl Model for PackedPoint {
    ghost use Rattle.lattice.specs.Point.{coded_point};
    ghost use Rattle.lattice.specs.declared.Point.{Point};

    ghost Value = { Point };

    ghost coded = { coded_point };

    ghost view = { λ p. record { x = p.x; y = p.y; z = p.z } };

    ghost inverse = { λ p. record { x = p.x; y = p.y; z = p.z } };
}

impl PackedPoint {
    /// The point, packed.
    #[tactic(auto, using(crate::proofs::Magnitudes::packed_fits, crate::proofs::Magnitudes::coordinates))]
    pub fn new(p: Point) -> Self
        requires { IsInRange p }
        ensures { result ≡ p }
    {
        PackedPoint {
            x: p.x as i32,
            y: p.y as i32,
            z: p.z as i32,
        }
    }

    /// The point that was packed.
    pub fn point(self) -> Point
        ensures { result ≡ self }
    {
        Point {
            x: i64::from(self.x),
            y: i64::from(self.y),
            z: i64::from(self.z),
        }
    }
}
