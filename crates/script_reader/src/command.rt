//! What a line of a script asks for, and the faults of a line.
ghost use Rattle.std.specs.Prelude.{◌≡◌};
ghost use Rattle.script_reader.specs.Fault.{code_of};

use super::polygon::{Outline, Polygon};
use call_types::Command;

/// What a line of a script asks for. Numbers may be outside their ranges; they are tested when the command is carried out.
#[derive(Drop)]
pub enum Request<'a> {
    /// A blank line or a comment asks for nothing.
    Nothing,
    /// The listing of the model held.
    List,
    /// A change over points. The points stay words of the line until the change is made.
    Over(Outline, Polygon<'a>),
    /// Any other command.
    Give(Command<'a>),
}

/// Why a line is no command.
#[derive(Clone, Copy, Debug, PartialEq, Eq)]
pub enum Fault {
    /// The script has no such command word, or the last word of `ringmv` is neither `in` nor `out`.
    BadWord,
    /// A word can't be read as what stands at its place: a number, a half-edge, a corner.
    BadNumber,
    /// The line ends before the command has its words.
    MissingWord,
    /// The line goes on after the command has its words.
    ExtraWord,
    /// A byte above 127.
    NotAscii,
    /// More than 65,536 bytes.
    LongLine,
}

impl Fault {
    /// The number that a reply prints.
    pub fn code(self) -> u32
        ensures { result ≡ code_of self }
    {
        match self {
            Fault::BadWord => 1,
            Fault::BadNumber => 2,
            Fault::MissingWord => 3,
            Fault::ExtraWord => 4,
            Fault::NotAscii => 5,
            Fault::LongLine => 6,
        }
    }
}
