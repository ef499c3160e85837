//! The line of a refusal.
ghost use Rattle.std.specs.Prelude.{◌≡◌, ◌∷◌, [], ◌++◌, IfSome, decimal};
ghost use Rattle.solid_listing.specs.Common.{refused_head, reply_text, Tells, outgoing};
ghost use Rattle.solid_listing.specs.declared.told.Told.TheVariants.{Refused};

use crate::pending::{Text, put};
use crate::text::{put_line, put_number};
use crate::writing::WriteFault;
use euler_operators::Refusal;
use std::io::Write;

/// How the line of a refusal begins, up to its value. It is one piece, since each piece costs more than its bytes.
#[tactic(auto, unfolding(crate::proofs::Digits::computed))]
fn refused_head(why: u32) -> Option<&'static [u8]>
    ensures { IfSome result (λ head. head.now ≡ refused_head why) }
{
    match why {
        1 => Some(b"refused 1 "),
        2 => Some(b"refused 2 "),
        3 => Some(b"refused 3 "),
        4 => Some(b"refused 4 "),
        5 => Some(b"refused 5 "),
        6 => Some(b"refused 6 "),
        7 => Some(b"refused 7 "),
        8 => Some(b"refused 8 "),
        9 => Some(b"refused 9 "),
        10 => Some(b"refused 10 "),
        11 => Some(b"refused 11 "),
        12 => Some(b"refused 12 "),
        13 => Some(b"refused 13 "),
        14 => Some(b"refused 14 "),
        15 => Some(b"refused 15 "),
        16 => Some(b"refused 16 "),
        17 => Some(b"refused 17 "),
        18 => Some(b"refused 18 "),
        19 => Some(b"refused 19 "),
        20 => Some(b"refused 20 "),
        21 => Some(b"refused 21 "),
        22 => Some(b"refused 22 "),
        23 => Some(b"refused 23 "),
        24 => Some(b"refused 24 "),
        25 => Some(b"refused 25 "),
        26 => Some(b"refused 26 "),
        27 => Some(b"refused 27 "),
        28 => Some(b"refused 28 "),
        29 => Some(b"refused 29 "),
        30 => Some(b"refused 30 "),
        31 => Some(b"refused 31 "),
        32 => Some(b"refused 32 "),
        33 => Some(b"refused 33 "),
        34 => Some(b"refused 34 "),
        35 => Some(b"refused 35 "),
        36 => Some(b"refused 36 "),
        37 => Some(b"refused 37 "),
        38 => Some(b"refused 38 "),
        39 => Some(b"refused 39 "),
        40 => Some(b"refused 40 "),
        41 => Some(b"refused 41 "),
        42 => Some(b"refused 42 "),
        43 => Some(b"refused 43 "),
        44 => Some(b"refused 44 "),
        _ => None,
    }
}

/// Writes a number and the end of its line, in one piece if the number has one digit.
#[tactic(auto, using(std::proofs::lemmas::Fmt::decimal_digit, crate::proofs::TellingLaws::telling))]
fn put_last<W: Write>(text: &mut Text, writer: &mut W, number: u32) -> Result<(), WriteFault>
    ensures { Tells (outgoing (W.contents writer.old) text.old) (outgoing (W.contents writer.new) text.new) (decimal number ++ 10 ∷ []) result }
{
    if number < 10 {
        return put(text, writer, &[b'0' + number as u8, b'\n']);
    }
    put_number(text, writer, number)?;
    put(text, writer, b"\n")
}

/// Writes the beginning of a line, then its last word, which is a number, and its end.
#[tactic(auto, using(crate::proofs::TellingLaws::telling))]
fn put_value<W: Write>(
    text: &mut Text,
    writer: &mut W,
    head: &[u8],
    number: u32,
) -> Result<(), WriteFault>
    ensures { Tells (outgoing (W.contents writer.old) text.old) (outgoing (W.contents writer.new) text.new) (head.now ++ (decimal number ++ 10 ∷ [])) result }
{
    put(text, writer, head)?;
    put_last(text, writer, number)
}

/// Writes the line of a refusal: the number of the condition that is false, and its value.
#[inline(never)]
#[tactic(auto, using(crate::proofs::TellingLaws::tells_as), unfolding(crate::specs::Replies::reply_text))]
pub fn put_refused<W: Write>(
    text: &mut Text,
    writer: &mut W,
    refusal: &Refusal,
) -> Result<(), WriteFault>
    ensures { Tells (outgoing (W.contents writer.old) text.old) (outgoing (W.contents writer.new) text.new) (reply_text (Refused refusal.now)) result }
{
    let why = refusal.why.code();
    match refused_head(why) {
        Some(head) => put_value(text, writer, head, refusal.number),
        None => put_line(text, writer, b"refused", &[why, refusal.number]),
    }
}
