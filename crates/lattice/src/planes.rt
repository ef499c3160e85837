//! On which side of a plane a point lies, and where a segment meets a plane.
ghost use Rattle.std.specs.Prelude.{◌≡◌, ◌≢◌, ◌≤◌, ◌*◌, ◌-ℤ◌, ◌*ℤ◌, pos, true, IfSome, unsigned_abs};
ghost use Rattle.lattice.specs.Point.{IsInRange, is_coordinate};
ghost use Rattle.lattice.specs.Ranges.{IsWithin, IsPlane, IsCutPlane};
ghost use Rattle.lattice.specs.Vectors.{height, sign_of, opposite, are_opposite, whole_quotient, cut_point};

use crate::points::dot;
use crate::{Plane, Point, Sign};

/// The number `a x + b y + c z + d`.
fn height(plane: Plane, p: Point) -> i128
    requires plane { IsPlane plane }
    requires p { IsInRange p }
    ensures { result ≡ height plane p }
{
    dot([plane.a, plane.b, plane.c], p) + plane.d
}

/// On which side of the plane the point lies: the sign of `a x + b y + c z + d`. The point is in range, a, b and c are at most
/// 10^25 in magnitude and d at most 10^35.
pub fn side(plane: Plane, p: Point) -> Sign
    requires plane { IsPlane plane }
    requires p { IsInRange p }
    ensures { result ≡ sign_of (height plane p) }
{
    let height = height(plane, p);
    if height < 0 {
        Sign::Below
    } else if height > 0 {
        Sign::Above
    } else {
        Sign::On
    }
}

/// The height of a point in range over a plane along which points are cut, at most 6 * 10^18 in magnitude. It fits 64 bits, and what goes
/// beyond these isn't computed.
fn cut_height(plane: Plane, p: Point) -> i128
    requires plane { IsCutPlane plane }
    requires p { IsInRange p }
    ensures is { result ≡ height plane p }
    ensures within { IsWithin 6000000000000000000 result }
{
    i128::from(height(plane, p) as i64)
}

/// The number divided by the divisor, if the quotient is a whole coordinate.
fn whole_quotient(number: i128, divisor: i128) -> Option<i64>
    requires divisor { divisor ≢ pos 0 }
    requires number { IsWithin 20000000000000000000000000000 number }
    requires gap { IsWithin 20000000000000000000 divisor }
    requires range { unsigned_abs number ≤ 1000000000 * unsigned_abs divisor }
    ensures is { result ≡ whole_quotient number divisor }
    ensures range { IfSome result (λ x. is_coordinate x ≡ true) }
{
    if number % divisor == 0 {
        Some((number / divisor) as i64)
    } else {
        None
    }
}

/// A coordinate of the point where a segment meets a plane, times the difference of the heights at which the segment starts
/// and ends.
fn cut_multiple(from: i64, to: i64, start: i128, end: i128) -> i128
    requires from { is_coordinate from ≡ true }
    requires to { is_coordinate to ≡ true }
    requires start { IsWithin 6000000000000000000 start }
    requires end { IsWithin 6000000000000000000 end }
    ensures is { result ≡ to *ℤ start -ℤ from *ℤ end }
    ensures within { IsWithin 20000000000000000000000000000 result }
{
    i128::from(to) * start - i128::from(from) * end
}

/// A coordinate of the point where a segment meets a plane, if it is whole. The segment's ends have the coordinates `from` and `to`, and stand at
/// opposite heights. If `from` and `to` are equal, nothing is divided.
fn cut_coordinate(from: i64, to: i64, start: i128, end: i128) -> Option<i64>
    requires from { is_coordinate from ≡ true }
    requires to { is_coordinate to ≡ true }
    requires start { IsWithin 6000000000000000000 start }
    requires end { IsWithin 6000000000000000000 end }
    requires opposite { opposite start end ≡ true }
    ensures is { result ≡ whole_quotient (to *ℤ start -ℤ from *ℤ end) (start -ℤ end) }
    ensures range { IfSome result (λ x. is_coordinate x ≡ true) }
{
    if from == to {
        return Some(from);
    }
    whole_quotient(cut_multiple(from, to, start, end), start - end)
}

/// The point at which the segment from p to q meets the plane, or none if a coordinate of it isn't whole.
///
/// The points are in range and lie strictly on opposite sides; a, b and c are at most 10^9 in magnitude and d at most
/// 3 * 10^18.
#[tactic(auto, using(crate::proofs::Coordinates::range_told))]
pub fn cut_point(plane: Plane, p: Point, q: Point) -> Option<Point>
    requires plane { IsCutPlane plane }
    requires p { IsInRange p }
    requires q { IsInRange q }
    requires opposite { are_opposite plane p q ≡ true }
    ensures is { result ≡ cut_point plane p q }
    ensures range { IfSome result (λ r. IsInRange r) }
{
    let start = cut_height(plane, p);
    let end = cut_height(plane, q);
    Some(Point {
        x: cut_coordinate(p.x, q.x, start, end)?,
        y: cut_coordinate(p.y, q.y, start, end)?,
        z: cut_coordinate(p.z, q.z, start, end)?,
    })
}
