//! Single conditions.
ghost use Rattle.std.specs.Prelude.{◌≡◌, ℕ, Bool, true, List, [], ◌∷◌, take, drop};
ghost use Rattle.euler_operators.specs.Common.{is_in_range, need, numbers_in_range, first_refusal, verdict};

use euler_operators::{Point, Refusal, Why, is_number, point_in_range, refused};

/// Tests that each number lies from 1 to the limit.
pub(crate) fn in_range(numbers: &[u32]) -> Result<(), Refusal>
    ensures { result ≡ verdict (first_refusal (numbers_in_range numbers.now)) }
{
    let mut rest = numbers;
    'numbers: while let [n, others @ ..] = rest {
        if !is_number(*n) {
            return refused(Why::NumberRange, *n);
        }
        rest = others;
    }
    Ok(())
}

/// Tests that the point's coordinates are within the limit.
pub(crate) fn fits(point: Point) -> bool
    ensures { result ≡ is_in_range point }
{
    point_in_range(point)
}
