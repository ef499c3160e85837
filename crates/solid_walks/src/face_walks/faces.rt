//! The faces of a solid, one after another.
ghost use Rattle.std.specs.Prelude.{◌≡◌};
ghost use Rattle.std.specs.Iterator.{YieldsFirst, item_count};
ghost use Rattle.euler_operators.specs.Common.{faces_of, Sound};

use euler_conditions::Arena;
use std::marker::Model;

/// The faces of a solid that are still to come. Contracts see them as the list of their numbers.
#[derive(Drop)]
pub struct Faces<'a> {
    arena: &'a Arena,
    solid: u32,
    /// The face that came last, or 0.
    last: u32,
}

impl<'a> Model for Faces<'a> {
    ghost use Rattle.std.specs.Prelude.{ℕ, List};

    ghost Value = { List ℕ };

    ghost use Rattle.euler_operators.specs.Common.{faces_of};
    ghost use Rattle.solid_walks.specs.Left.{above};

    ghost view = { λ w. above w.last (faces_of w.arena.now.model w.solid) };
}

/// The faces of solid s, rising.
pub fn faces_of(arena: &Arena, s: u32) -> Faces<'_>
    requires { Sound arena.now.model }
    ensures { result ≡ faces_of arena.now.model s }
{
    Faces {
        arena,
        solid: s,
        last: 0,
    }
}

impl<'a> Iterator for Faces<'a> {
    type Item = u32;

    ghost next_gives = { YieldsFirst (λ left. left) };

    ghost remaining = { item_count (λ left. left) };

    #[inline]
    fn next(&mut self) -> Option<u32> {
        match self.arena.face_after(self.solid, self.last) {
            Some(face) => {
                self.last = face;
                Some(face)
            }
            None => None,
        }
    }
}
