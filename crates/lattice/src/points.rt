//! Sums, products and the order of points.
ghost use Rattle.std.specs.Prelude.{◌≡◌, true, ◌*ℤ◌, ◌-ℤ◌, ◌+ℤ◌};
ghost use Rattle.std.specs.Ordering.{is_lt, is_eq, is_gt};
ghost use Rattle.lattice.specs.Point.{IsInRange, is_in_range, is_coordinate};
ghost use Rattle.lattice.specs.Ranges.{IsWithin, IsVectorWithin, normal_limit};
ghost use Rattle.lattice.specs.Vectors.{moved, dot, cross, same_point, lex_less, vector_of, numbers_of};

use crate::{COORDINATE_LIMIT, Point};
use std::cmp::Ordering;

/// Whether the sum of two numbers is a coordinate.
fn adds_up(a: i64, b: i64) -> bool
    ensures { result ≡ is_coordinate (a +ℤ b) }
{
    match a.checked_add(b) {
        Some(sum) => -COORDINATE_LIMIT <= sum && sum <= COORDINATE_LIMIT,
        None => false,
    }
}

/// Whether p moved by the shift lies within `COORDINATE_LIMIT`. Takes any two points.
pub fn sum_in_range(p: Point, shift: Point) -> bool
    ensures { result ≡ is_in_range (moved p shift) }
{
    adds_up(p.x, shift.x) && (adds_up(p.y, shift.y) && adds_up(p.z, shift.z))
}

/// The point p moved by the shift. It may be called only if `sum_in_range` is true.
pub fn sum(p: Point, shift: Point) -> Point
    requires { IsInRange (moved p shift) }
    ensures { result ≡ moved p shift }
{
    Point {
        x: p.x + shift.x,
        y: p.y + shift.y,
        z: p.z + shift.z,
    }
}

/// One number of a cross product, at most 2 * 10^18 in magnitude.
fn minor(a: i64, b: i64, c: i64, d: i64) -> i128
    requires a { is_coordinate a ≡ true }
    requires b { is_coordinate b ≡ true }
    requires c { is_coordinate c ≡ true }
    requires d { is_coordinate d ≡ true }
    ensures is { result ≡ a *ℤ d -ℤ b *ℤ c }
    ensures within { IsWithin 2000000000000000000 result }
{
    let number = a * d - b * c;
    i128::from(number)
}

/// A vector with numbers of at most 10^25 in magnitude, plus the cross product of two points in range.
pub fn cross_add(vector: [i128; 3], p: Point, q: Point) -> [i128; 3]
    requires vector { IsVectorWithin normal_limit (vector_of vector) }
    requires p { IsInRange p }
    requires q { IsInRange q }
    ensures { result ≡ numbers_of (moved (vector_of vector) (cross p q)) }
{
    [
        vector[0] + minor(p.y, p.z, q.y, q.z),
        vector[1] + minor(p.z, p.x, q.z, q.x),
        vector[2] + minor(p.x, p.y, q.x, q.y),
    ]
}

/// A coefficient times a coordinate, at most 10^34 in magnitude.
fn scaled(a: i128, x: i64) -> i128
    requires a { IsWithin normal_limit a }
    requires x { is_coordinate x ≡ true }
    ensures is { result ≡ a *ℤ x }
    ensures within { IsWithin 10000000000000000000000000000000000 result }
{
    a * i128::from(x)
}

/// The sum of the products of the coordinates of p with the numbers of a vector, each at most 10^25 in magnitude.
#[tactic(auto, using(crate::proofs::Magnitudes::coordinate_held, crate::proofs::Magnitudes::coordinates))]
pub fn dot(vector: [i128; 3], p: Point) -> i128
    requires vector { IsVectorWithin normal_limit (vector_of vector) }
    requires p { IsInRange p }
    ensures is { result ≡ dot (vector_of vector) p }
    ensures within { IsWithin 30000000000000000000000000000000000 result }
{
    let [a, b, c] = vector;
    let first = scaled(a, p.x) + scaled(b, p.y);
    first + scaled(c, p.z)
}

/// The order by x, then y, then z.
pub fn lex_cmp(p: Point, q: Point) -> Ordering
    ensures less { is_lt result ≡ lex_less p q }
    ensures equal { is_eq result ≡ same_point p q }
    ensures greater { is_gt result ≡ lex_less q p }
{
    p.x.cmp(&q.x).then(p.y.cmp(&q.y)).then(p.z.cmp(&q.z))
}
