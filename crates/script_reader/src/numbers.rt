//! Whole numbers in decimal digits.
ghost use Rattle.std.specs.Prelude.{◌≡◌, ◌^◌, Some, None, MatchOption};
ghost use Rattle.script_reader.specs.Numbers.{digits_after, magnitude, number_of, negative, integer_of};
ghost use Rattle.script_reader.specs.Words.{first_by};

use super::words::is_space;

/// Ten times a value below this one, plus a digit, is below 2^64; so is ten times this value plus a digit of at most 5.
const TENTH: u64 = 1_844_674_407_370_955_161;

/// The value of the digits up to a separator or the end, continuing from a given value, if it is below 2^64; and what follows these digits.
#[tactic(auto, using(crate::proofs::NumberLaws::no_space, crate::proofs::NumberLaws::next_digit, crate::proofs::NumberLaws::too_large))]
fn digits(before: u64, line: &[u8]) -> Option<(u64, &[u8])>
    ensures { MatchOption result (digits_after (2 ^ 64) before line.now ≡ None) (λ r. digits_after (2 ^ 64) before line.now ≡ Some (r.0, r.1.now)) }
{
    let mut value = before;
    let mut rest = line;
    while let [first, others @ ..] = rest {
        if !first.is_ascii_digit() {
            if is_space(*first) {
                break;
            }
            return None;
        }
        let digit = u64::from(*first) - 48;
        if value >= TENTH && (value > TENTH || digit > 5) {
            return None;
        }
        value = value * 10 + digit;
        rest = others;
    }
    Some((value, rest))
}

/// The first word as a number below 2^64, and what follows it.
#[tactic(auto, using(crate::proofs::NumberLaws::no_digits))]
fn magnitude(line: &[u8]) -> Option<(u64, &[u8])>
    ensures { MatchOption result (first_by magnitude line.now ≡ None) (λ r. first_by magnitude line.now ≡ Some (r.0, r.1.now)) }
{
    match line {
        [first, others @ ..] if first.is_ascii_digit() => digits(u64::from(*first) - 48, others),
        _ => None,
    }
}

/// A number: digits with a value that fits.
pub fn number_of(line: &[u8]) -> Option<(u32, &[u8])>
    ensures { MatchOption result (first_by number_of line.now ≡ None) (λ r. first_by number_of line.now ≡ Some (r.0, r.1.now)) }
{
    let (value, rest) = magnitude(line)?;
    if value > u64::from(u32::MAX) {
        return None;
    }
    Some((value as u32, rest))
}

/// Below zero, or zero.
pub fn negative(value: u64) -> Option<i64>
    ensures { result ≡ negative value }
{
    if value > 1 << 63 {
        return None;
    }
    Some((-(value as i128)) as i64)
}

/// A coordinate, a size or a coefficient: digits, with `-` before them or without.
pub fn integer_of(line: &[u8]) -> Option<(i64, &[u8])>
    ensures { MatchOption result (first_by integer_of line.now ≡ None) (λ r. first_by integer_of line.now ≡ Some (r.0, r.1.now)) }
{
    if let [b'-', digits @ ..] = line {
        let (value, rest) = magnitude(digits)?;
        return Some((negative(value)?, rest));
    }
    let (value, rest) = magnitude(line)?;
    if value >= 1 << 63 {
        return None;
    }
    Some((value as i64, rest))
}
