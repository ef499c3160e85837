//! The range of a plane that splits.
ghost use Rattle.std.specs.Prelude.{◌≡◌, not};
ghost use Rattle.euler_operators.specs.Common.{first_refusal, verdict, is_coordinate, direction, is_offset, origin, same_point};
ghost use Rattle.shapes.specs.Common.{plane_in_range};

use euler_operators::{Plane, Refusal, Why, refused};

/// Whether a number of a plane is in the range of coordinates.
fn is_coordinate(number: i128) -> bool
    ensures { result ≡ is_coordinate number }
{
    -1_000_000_000 <= number && number <= 1_000_000_000
}

/// Whether a plane's last number is in its range.
fn is_offset(number: i128) -> bool
    ensures { result ≡ is_offset number }
{
    -3_000_000_000_000_000_000 <= number && number <= 3_000_000_000_000_000_000
}

/// Whether one of the plane's first three numbers isn't zero.
fn has_direction(plane: Plane) -> bool
    ensures { result ≡ not (same_point (direction plane) origin) }
{
    !(plane.a == 0 && (plane.b == 0 && plane.c == 0))
}

/// Whether the plane's numbers are in range, and the first three aren't all zero. If not, the refusal is PlaneRange, with 1 to 4 for the first number
/// out of range, or 0.
pub(crate) fn check_plane(plane: Plane) -> Result<(), Refusal>
    ensures { result ≡ verdict (first_refusal (plane_in_range plane)) }
{
    if !is_coordinate(plane.a) {
        return refused(Why::PlaneRange, 1);
    }
    if !is_coordinate(plane.b) {
        return refused(Why::PlaneRange, 2);
    }
    if !is_coordinate(plane.c) {
        return refused(Why::PlaneRange, 3);
    }
    if !is_offset(plane.d) {
        return refused(Why::PlaneRange, 4);
    }
    if !has_direction(plane) {
        return refused(Why::PlaneRange, 0);
    }
    Ok(())
}
