//! Lone loops of a face.
ghost use Rattle.std.specs.Prelude.{◌≡◌, true, [], ◌∷◌};
ghost use Rattle.euler_operators.specs.Common.{content, is_lone};
ghost use Rattle.euler_conditions.specs.Store.{has_number};
ghost use Rattle.euler_conditions.specs.Ready.{IsReady};
ghost use Rattle.shapes.specs.Common.{least_lone};
ghost use Rattle.solid_walks.specs.Least.{only};

use crate::face_walks::loops_of;
use crate::least::lesser;
use euler_conditions::{Arena, is_lone};
use euler_operators::Kind;

/// The number l, if loop l is lone.
fn lone_loop(arena: &Arena, l: u32) -> Option<u32>
    requires ready { IsReady arena.now }
    requires there { has_number arena.now Kind.Loop l ≡ true }
    ensures { result ≡ only (is_lone (content arena.now.model l)) l }
{
    if is_lone(arena, l) { Some(l) } else { None }
}

/// The least lone loop of face f, which is there, if there is one. It looks at each of the face's loops once, and at no other. It is a function of
/// its own, so that the code for a face with no ring stays in place.
#[inline(never)]
fn least_lone_of_loops(arena: &Arena, f: u32) -> Option<u32>
    requires ready { IsReady arena.now }
    requires there { has_number arena.now Kind.Face f ≡ true }
    ensures { result ≡ least_lone arena.now.model (f ∷ []) }
{
    loops_of(arena, f).fold(None, |least, l| lesser(least, lone_loop(arena, l)))
}

/// The least lone loop of face f, which is there, if there is one. It looks at each of the face's loops once, and at no other.
#[inline(always)]
pub fn least_lone_of_face(arena: &Arena, f: u32) -> Option<u32>
    requires ready { IsReady arena.now }
    requires there { has_number arena.now Kind.Face f ≡ true }
    ensures { result ≡ least_lone arena.now.model (f ∷ []) }
{
    if arena.ring_count(f) > 0 {
        return least_lone_of_loops(arena, f);
    }
    lone_loop(arena, arena.outer(f))
}
