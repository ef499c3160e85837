//! The loops of a face, one after another.
ghost use Rattle.std.specs.Prelude.{◌≡◌, true};
ghost use Rattle.std.specs.Iterator.{YieldsFirst, item_count};
ghost use Rattle.euler_operators.specs.Common.{rings_of, Sound};
ghost use Rattle.euler_conditions.specs.Store.{has_number};
ghost use Rattle.shapes.specs.Common.{loops_of};

use euler_conditions::Arena;
use euler_operators::Kind;
use std::marker::Model;

/// The loops of a face that are still to come. Contracts see them as the list of their numbers.
#[derive(Drop)]
pub struct Loops<'a> {
    arena: &'a Arena,
    face: u32,
    /// Whether the outer loop is still to come.
    outer: bool,
    /// The ring that came last, or 0.
    last: u32,
}

impl<'a> Model for Loops<'a> {
    ghost use Rattle.std.specs.Prelude.{ℕ, List};

    ghost Value = { List ℕ };

    ghost use Rattle.euler_operators.specs.Common.{Has};
    ghost use Rattle.solid_walks.specs.Left.{loops_left};

    ghost view = { λ w. loops_left w.arena.now.model w.face w.outer w.last };

    ghost invariant = { λ w. Has w.arena.now.model.faces w.face };
}

/// The loops of face f, which is there: the outer one, then the rings, rising.
pub fn loops_of(arena: &Arena, f: u32) -> Loops<'_>
    requires sound { Sound arena.now.model }
    requires there { has_number arena.now Kind.Face f ≡ true }
    ensures { result ≡ loops_of arena.now.model f }
{
    Loops {
        arena,
        face: f,
        outer: true,
        last: 0,
    }
}

/// The rings of face f, which is there, rising.
pub fn rings_of(arena: &Arena, f: u32) -> Loops<'_>
    requires sound { Sound arena.now.model }
    requires there { has_number arena.now Kind.Face f ≡ true }
    ensures { result ≡ rings_of arena.now.model f }
{
    Loops {
        arena,
        face: f,
        outer: false,
        last: 0,
    }
}

impl<'a> Iterator for Loops<'a> {
    type Item = u32;

    ghost next_gives = { YieldsFirst (λ left. left) };

    ghost remaining = { item_count (λ left. left) };

    #[inline]
    fn next(&mut self) -> Option<u32> {
        if self.outer {
            self.outer = false;
            return Some(self.arena.outer(self.face));
        }
        match self.arena.ring_after(self.face, self.last) {
            Some(ring) => {
                self.last = ring;
                Some(ring)
            }
            None => None,
        }
    }
}
