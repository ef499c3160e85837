//! What a command is, and what a call is.
use crate::points::Points;
use euler_operators::{Op, Point};

/// A change of the model: an operator, or a larger command of several operators. Numbers may be outside their ranges: the function that
/// makes the change tests them.
#[derive(Drop)]
pub enum Change<'a> {
    /// An operator.
    Act(Op),
    /// The new solid, and the points of its polygon.
    Lamina(u32, Points<'a>),
    /// The new solid, a corner, and the sizes along x, y and z.
    Block(u32, Point, i64, i64, i64),
    /// The face, and the vector by which it moves.
    Sweep(u32, Point),
    /// The face of the solid that stays, and the face of the one that is glued to it.
    Glue(u32, u32),
    /// The solid, the coefficients of the plane `a x + b y + c z + d = 0`, and the new solid above it.
    Split(u32, i64, i64, i64, i64, u32),
}

/// A question about the model.
#[derive(Clone, Copy, Debug, PartialEq, Eq)]
pub enum Question {
    /// The plane of a face, and whether the face is flat.
    Plane(u32),
    /// Six times the volume of a solid.
    Volume(u32),
    /// The vertices, edges, faces and rings of a solid.
    Count(u32),
}

/// A command.
#[derive(Drop)]
pub enum Command<'a> {
    Change(Change<'a>),
    Ask(Question),
    /// The last command is taken back.
    Undo,
    /// The next command is done again.
    Redo,
}

/// A call of a session, or of a draft of its next command.
#[derive(Drop)]
pub enum Call<'a> {
    /// A command. In a draft a change is made as steps, and undo and redo are not available.
    Give(Command<'a>),
    /// Opens a draft.
    Open,
    /// How many steps the draft has, for `Back`.
    Mark,
    /// Takes back the draft's steps since a mark.
    Back(usize),
    /// Makes the draft's steps one command.
    Commit,
    /// Takes the draft's steps back, and ends it.
    Abandon,
}
