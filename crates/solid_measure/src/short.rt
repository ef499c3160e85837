//! Sums and heights in 64 bits, where they fit.
ghost use Rattle.std.specs.Prelude.{◌≡◌, ◌≤◌, ◌+◌, ◌%◌, ◌+ℤ◌, ◌-ℤ◌, ◌*ℤ◌, true, IfSome};
ghost use Rattle.euler_operators.specs.Common.{IsInRange, is_coordinate, IsVectorWithin, IsWithin, normal_limit, cross, height, moved};
ghost use Rattle.solid_measure.specs.Measure.{read};
ghost use Rattle.solid_measure.specs.Short.{IsOfItems, IsShort, IsShortOf, all_of, long};

use crate::Vector;
use euler_operators::{Plane, Point};

/// A sum over some items in two parts: the sum over the last few items, in 64 bits, and the sum over those before them.
#[derive(Clone, Copy)]
pub(crate) struct Swept {
    pub(crate) whole: Vector,
    pub(crate) last: Point,
}

/// The sum over no items.
pub(crate) const NOTHING: Point = Point { x: 0, y: 0, z: 0 };

/// A number of at most 6 * 10^18 in magnitude, plus one number of a cross product.
#[tactic(auto, using(euler_operators::proofs::Common::minor_fits))]
fn minor_added(number: i64, a: i64, b: i64, c: i64, d: i64) -> i64
    requires number { IsWithin 6000000000000000000 number }
    requires a { is_coordinate a ≡ true }
    requires b { is_coordinate b ≡ true }
    requires c { is_coordinate c ≡ true }
    requires d { is_coordinate d ≡ true }
    ensures { result ≡ number +ℤ (a *ℤ d -ℤ b *ℤ c) }
{
    number + (a * d - b * c)
}

/// The sum over at most three items, plus the cross product of two points.
pub(crate) fn short_crossed(last: Point, p: Point, q: Point) -> Point
    requires last { IsOfItems 3 last }
    requires p { IsInRange p }
    requires q { IsInRange q }
    ensures { result ≡ moved last (cross p q) }
{
    Point {
        x: minor_added(last.x, p.y, p.z, q.y, q.z),
        y: minor_added(last.y, p.z, p.x, q.z, q.x),
        z: minor_added(last.z, p.x, p.y, q.x, q.y),
    }
}

/// Both parts as one sum.
pub(crate) fn widened(swept: Swept) -> Vector
    requires whole { IsVectorWithin normal_limit (read swept.whole) }
    requires last { IsOfItems 4 swept.last }
    ensures { read result ≡ all_of swept }
{
    Vector {
        x: swept.whole.x + i128::from(swept.last.x),
        y: swept.whole.y + i128::from(swept.last.y),
        z: swept.whole.z + i128::from(swept.last.z),
    }
}

/// The same sum with at most three items in its last part, so that one more fits. There are `count + 1` items; when the last part has four of them,
/// it is added to the whole.
pub(crate) fn carried(swept: Swept, count: u32) -> Swept
    requires whole { IsVectorWithin normal_limit (read swept.whole) }
    requires all { IsVectorWithin normal_limit (all_of swept) }
    requires last { IsOfItems (count % 4 + 1) swept.last }
    ensures same { all_of result ≡ all_of swept }
    ensures whole { IsVectorWithin normal_limit (read result.whole) }
    ensures last { IsOfItems ((count + 1) % 4) result.last }
{
    if count % 4 == 3 {
        Swept {
            whole: widened(swept),
            last: NOTHING,
        }
    } else {
        swept
    }
}

/// The greatest a, b or c, and the greatest d, of a plane in 64 bits.
const SLOPE_LIMIT: u64 = 2_000_000_000;

const DEPTH_LIMIT: u64 = 2_000_000_000_000_000_000;

/// A plane over which heights of points in range fit 64 bits.
#[derive(Clone, Copy)]
pub(crate) struct ShortPlane {
    a: i64,
    b: i64,
    c: i64,
    d: i64,
}

/// The number in 64 bits, if it is at most the limit in magnitude.
fn short(number: i128, limit: u64) -> Option<i64>
    requires { limit ≤ 9000000000000000000 }
    ensures { IfSome result (λ n. (n ≡ number) × IsWithin limit number) }
{
    if number.unsigned_abs() <= u128::from(limit) {
        Some(number as i64)
    } else {
        None
    }
}

/// The plane in 64 bits, if a, b, c are at most 2 * 10^9 in magnitude, and d at most 2 * 10^18.
pub(crate) fn short_plane(plane: Plane) -> Option<ShortPlane>
    ensures { IsShortOf plane result }
{
    Some(ShortPlane {
        a: short(plane.a, SLOPE_LIMIT)?,
        b: short(plane.b, SLOPE_LIMIT)?,
        c: short(plane.c, SLOPE_LIMIT)?,
        d: short(plane.d, DEPTH_LIMIT)?,
    })
}

/// A coefficient times a coordinate, at most 2 * 10^18 in magnitude.
#[tactic(auto, using(crate::proofs::ShortNumbers::scaled_is, crate::proofs::ShortNumbers::scaled_within))]
fn short_scaled(a: i64, x: i64) -> i64
    requires a { IsWithin 2000000000 a }
    requires x { is_coordinate x ≡ true }
    ensures is { result ≡ a *ℤ x }
    ensures within { IsWithin 2000000000000000000 result }
{
    a * x
}

/// The number `a x + b y + c z + d`.
pub(crate) fn short_height(short: ShortPlane, p: Point) -> i64
    requires short { IsShort short }
    requires p { IsInRange p }
    ensures { result ≡ height (long short) p }
{
    short_scaled(short.a, p.x) + short_scaled(short.b, p.y) + short_scaled(short.c, p.z) + short.d
}
