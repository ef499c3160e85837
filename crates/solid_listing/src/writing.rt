//! Writing a text.
ghost use Rattle.solid_listing.specs.Writing.{Puts};

use std::io::Write;
use thiserror::Error;

/// A write failed, or took no byte. What was written by then is a prefix of the text.
#[derive(Clone, Copy, Debug, PartialEq, Eq, Error)]
#[error("write fault")]
pub struct WriteFault;

/// Writes all of a text. If a write takes only a part of it, the next one continues after that part.
pub(crate) fn write_whole<W: Write>(writer: &mut W, text: &[u8]) -> Result<(), WriteFault>
    ensures { Puts (W.contents writer.old) (W.contents writer.new) text.now result }
{
    let mut rest = text;
    while !rest.is_empty() {
        match writer.write(rest) {
            Ok(0) | Err(_) => return Err(WriteFault),
            Ok(n) => rest = &rest[n..],
        }
    }
    Ok(())
}
