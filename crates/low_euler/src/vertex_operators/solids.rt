//! A solid with one face, one lone loop and one vertex.
ghost use Rattle.std.specs.Prelude.{◌≡◌};
ghost use Rattle.euler_conditions.specs.Ready.{Accepts, after};

use crate::reading;
use euler_conditions::Arena;
use euler_operators::{Op, Point};

/// Makes a solid with one face, whose outer loop is lone at a new vertex. The four numbers are free and have their
/// room, and the point is in range. It costs the same in every model, takes no memory and never fails.
#[inline(always)]
#[tactic(auto, using(crate::proofs::Prelude::mvfs_goes, crate::proofs::vertex_operators_laws::SolidRows::was_begun))]
pub fn mvfs(arena: &mut Arena, solid: u32, face: u32, outer: u32, vertex: u32, point: Point)
    requires { Accepts arena.old (Op.Mvfs solid face outer vertex point) }
    ensures { arena.new ≡ after arena.old (Op.Mvfs solid face outer vertex point) }
{
    arena.put_vertex(vertex, point);
    arena.put_solid(solid);
    arena.put_face(face, solid, outer);
    arena.put_loop(outer, face);
    arena.set_lone(outer, vertex);
}

/// Kills a solid that has one face, no ring and a lone outer loop, and with it the face, the loop and its vertex.
/// It costs the same in every model, takes no memory and never fails.
#[inline(always)]
#[tactic(auto, using(crate::proofs::vertex_operators_laws::SolidRows::outer_there, crate::proofs::vertex_operators_laws::SolidRows::vertex_there))]
pub fn kvfs(arena: &mut Arena, solid: u32)
    requires { Accepts arena.old (Op.Kvfs solid) }
    ensures { arena.new ≡ after arena.old (Op.Kvfs solid) }
{
    let Some(face) = arena.only_face(solid) else {
        unreachable!()
    };
    let outer = arena.outer(face);
    let vertex = reading::lone_vertex(arena, outer);
    arena.take_vertex(vertex);
    arena.take_loop(outer);
    arena.take_face(face);
    arena.take_solid(solid);
}
