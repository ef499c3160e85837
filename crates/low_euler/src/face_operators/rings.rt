#![tactic(auto, using(crate::proofs::Prelude::kfmrh_goes, crate::proofs::Prelude::mfkrh_goes, crate::proofs::Prelude::ring_in_goes, crate::proofs::Prelude::outer_goes_so, crate::proofs::face_operators_laws::Swaps::face_stays))]
//! Operators on rings and outer loops.
ghost use Rattle.std.specs.Prelude.{◌≡◌, true};
ghost use Rattle.euler_conditions.specs.Store.{has_number, set_face};
ghost use Rattle.euler_conditions.specs.Ready.{Accepts, after};

use euler_conditions::Arena;
use euler_operators::{Kind, Op};

/// Gives loop l to face f; both are there.
fn give_loop(arena: &mut Arena, l: u32, f: u32)
    requires there { has_number arena.old Kind.Loop l ≡ true }
    requires face { has_number arena.old Kind.Face f ≡ true }
    ensures { arena.new ≡ set_face arena.old l f }
{
    // a number in use has its room
    let _in_use = arena.has(Kind::Face, f);
    arena.set_face(l, f);
}

/// Face `killed` goes, and its outer loop becomes a ring of face `kept`.
pub(crate) fn kfmrh(arena: &mut Arena, kept: u32, killed: u32)
    requires { Accepts arena.old (Op.Kfmrh kept killed) }
    ensures { arena.new ≡ after arena.old (Op.Kfmrh kept killed) }
{
    let ring = arena.outer(killed);
    give_loop(arena, ring, kept);
    arena.take_face(killed);
}

/// A ring becomes the outer loop of the new face `made` of the same solid.
pub(crate) fn mfkrh(arena: &mut Arena, ring: u32, made: u32)
    requires { Accepts arena.old (Op.Mfkrh ring made) }
    ensures { arena.new ≡ after arena.old (Op.Mfkrh ring made) }
{
    let solid = arena.solid_of(arena.face_of(ring));
    // a number in use has its room
    let _in_use = arena.has(Kind::Solid, solid);
    arena.put_face(made, solid, ring);
    give_loop(arena, ring, made);
}

/// A ring becomes a ring of face `to`, of the same solid.
pub(crate) fn ring_in(arena: &mut Arena, ring: u32, to: u32)
    requires { Accepts arena.old (Op.RingIn ring to) }
    ensures { arena.new ≡ after arena.old (Op.RingIn ring to) }
{
    give_loop(arena, ring, to);
}

/// A ring becomes the outer loop of face `face`, of the same solid, whose outer loop becomes a ring of that face.
pub(crate) fn ring_out(arena: &mut Arena, ring: u32, face: u32)
    requires { Accepts arena.old (Op.RingOut ring face) }
    ensures { arena.new ≡ after arena.old (Op.RingOut ring face) }
{
    arena.set_outer(face, ring);
    give_loop(arena, ring, face);
}

/// A ring becomes the outer loop of its face, whose outer loop becomes a ring of face `face`, of the same solid.
pub(crate) fn outer(arena: &mut Arena, ring: u32, face: u32)
    requires { Accepts arena.old (Op.Outer ring face) }
    ensures { arena.new ≡ after arena.old (Op.Outer ring face) }
{
    let home = arena.face_of(ring);
    let old = arena.outer(home);
    arena.set_outer(home, ring);
    give_loop(arena, old, face);
}
