//! The sides of a plane.
ghost use Rattle.std.specs.Prelude.{◌≡◌, ◌*ℤ◌, true};
ghost use Rattle.euler_operators.specs.Common.{IsInRange, is_coordinate, IsCutPlane, IsWithin, height, sign_of};
ghost use Rattle.split_checks.specs.cut_places.Sides.{opposite_signs, same_sign};

use euler_operators::{Plane, Point, Sign};

/// Whether two signs are the same.
pub fn same(a: Sign, b: Sign) -> bool
    ensures { result ≡ same_sign a b }
{
    match (a, b) {
        (Sign::Below, Sign::Below) => true,
        (Sign::On, Sign::On) => true,
        (Sign::Above, Sign::Above) => true,
        _ => false,
    }
}

/// Whether one sign is above and the other below.
pub(crate) fn opposite(a: Sign, b: Sign) -> bool
    ensures { result ≡ opposite_signs a b }
{
    match (a, b) {
        (Sign::Below, Sign::Above) => true,
        (Sign::Above, Sign::Below) => true,
        _ => false,
    }
}

/// One of the first three numbers of a plane along which points are cut, times a coordinate: at most 10^18 in magnitude.
fn scaled(number: i128, coordinate: i64) -> i64
    requires number { IsWithin 1000000000 number }
    requires coordinate { is_coordinate coordinate ≡ true }
    ensures is { result ≡ number *ℤ coordinate }
    ensures within { IsWithin 1000000000000000000 result }
{
    number as i64 * coordinate
}

/// The height of a point over a plane along which points are cut: at most 6 * 10^18 in magnitude, so that 64 bits hold it.
fn height(plane: Plane, point: Point) -> i64
    requires plane { IsCutPlane plane }
    requires point { IsInRange point }
    ensures { result ≡ height plane point }
{
    let level = scaled(plane.a, point.x) + scaled(plane.b, point.y);
    level + scaled(plane.c, point.z) + plane.d as i64
}

/// On which side of the plane the point lies.
pub(crate) fn side_of(plane: Plane, p: Point) -> Sign
    requires plane { IsCutPlane plane }
    requires p { IsInRange p }
    ensures { result ≡ sign_of (height plane p) }
{
    let height = height(plane, p);
    if height < 0 {
        Sign::Below
    } else if height > 0 {
        Sign::Above
    } else {
        Sign::On
    }
}
