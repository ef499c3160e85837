//! Reads most numbers by few instructions: at most eight digits, and behind them a space or the end of the line. Each function reads what stands at the
//! front of a line, or answers `None`; then the line says something else, or says it in another way.
ghost use Rattle.std.specs.Prelude.{◌≡◌, ◌≤◌, ◌+◌, ⊤, Ok, MatchOption};
ghost use Rattle.script_reader.specs.Words.{words};
ghost use Rattle.script_reader.specs.Numbers.{integer_of};
ghost use Rattle.script_reader.specs.Places.{next_of, half_of, corner_of};
ghost use Rattle.script_reader.specs.Quick.{Numbered};
ghost use Rattle.script_reader.specs.declared.command.Fault.TheVariants.{BadNumber};

use super::numbers::negative;
use euler_operators::{Corner, HalfEdge};

/// The value of one digit, or a greater number for any other byte.
#[inline(always)]
fn digit_of(byte: u8) -> u32
    ensures { result ≤ 9 → byte ≡ 48 + result }
{
    u32::from(byte).wrapping_sub(48)
}

/// A number, and what follows it and one space.
#[inline(always)]
#[tactic(auto, using(crate::proofs::QuickLaws::first_digit, crate::proofs::QuickLaws::one_more, crate::proofs::QuickLaws::ends_line, crate::proofs::QuickLaws::ends_word))]
fn quick_number(line: &[u8]) -> Option<(u32, &[u8])>
    ensures { MatchOption result ⊤ (λ r. Numbered line.now r.0 (words r.1.now)) }
{
    let [first, ..] = line else {
        return None;
    };
    let mut value = digit_of(*first);
    if value > 9 {
        return None;
    }
    'digits: for i in 1..9 {
        if i == line.len() {
            return Some((value, &line[i..]));
        }
        let digit = digit_of(line[i]);
        if digit > 9 {
            if line[i] == b' ' {
                return Some((value, &line[i + 1..]));
            }
            return None;
        }
        // (The compiler takes this test out.)
        if value > 99_999_999 {
            return None;
        }
        value = value * 10 + digit;
    }
    None
}

/// The same, in two copies: in a line of more than eight bytes no such digit is past the end, so that the compiler leaves that test out.
#[inline(always)]
pub fn near_number(line: &[u8]) -> Option<(u32, &[u8])>
    ensures { MatchOption result ⊤ (λ r. Numbered line.now r.0 (words r.1.now)) }
{
    if line.len() > 8 {
        return quick_number(line);
    }
    quick_number(line)
}

/// A coordinate, a size or a coefficient, and what follows it and one space.
#[inline(always)]
pub fn quick_integer(line: &[u8]) -> Option<(i64, &[u8])>
    ensures { MatchOption result ⊤ (λ r. next_of BadNumber integer_of (words line.now) ≡ Ok (r.0, words r.1.now)) }
{
    if let [b'-', digits @ ..] = line {
        let (value, rest) = near_number(digits)?;
        return Some((negative(u64::from(value))?, rest));
    }
    let (value, rest) = near_number(line)?;
    Some((i64::from(value), rest))
}

/// A half-edge, and what follows it and one space.
#[inline(always)]
pub fn quick_half(line: &[u8]) -> Option<(HalfEdge, &[u8])>
    ensures { MatchOption result ⊤ (λ r. next_of BadNumber half_of (words line.now) ≡ Ok (r.0, words r.1.now)) }
{
    let (sign, digits) = line.split_first()?;
    let first = match *sign {
        b'+' => true,
        b'-' => false,
        _ => return None,
    };
    let (edge, rest) = near_number(digits)?;
    Some((HalfEdge { edge, first }, rest))
}

/// A half-edge as a corner, and what follows it and one space.
#[inline(always)]
#[tactic(auto, using(crate::proofs::QuickLaws::corner_told))]
pub fn quick_corner(line: &[u8]) -> Option<(Corner, &[u8])>
    ensures { MatchOption result ⊤ (λ r. next_of BadNumber corner_of (words line.now) ≡ Ok (r.0, words r.1.now)) }
{
    let (half, rest) = quick_half(line)?;
    Some((Corner::At(half), rest))
}
