//! Walks over the loops of a face.
ghost use Rattle.std.specs.Prelude.{◌≡◌, length, true};
ghost use Rattle.euler_operators.specs.Common.{IsIn, code, before, has_half, items_of, content, rings_of};
ghost use Rattle.solid_walks.specs.Store.{has_number};
ghost use Rattle.solid_walks.specs.Ready.{IsReady};
ghost use Rattle.shapes.specs.Common.{loops_of};
ghost use Rattle.solid_measure.specs.solid_counts.Sums.{IsFew, half_met, halves_met, loop_met, loops_met, together};

use crate::solid_counts::Met;
use euler_operators::{Content, HalfEdge, Kind};
use solid_walks::{Arena, leads, loops_of, next_code, previous_code};

/// What two walks have counted together.
pub(crate) fn together(a: Met, b: Met) -> Met
    requires a { IsFew a }
    requires b { IsFew b }
    ensures { result ≡ together a b }
{
    Met {
        vertices: a.vertices + b.vertices,
        edges: a.edges + b.edges,
    }
}

/// A half-edge counts for its vertex if it is of the least edge there, and for its edge if it is the plus one. `last` is the code of the item before
/// it in its loop.
fn half_met(arena: &Arena, last: u32, code: u32) -> Met
    requires ready { IsReady arena.now }
    requires there { has_half arena.now.model code ≡ true }
    requires last { last ≡ before arena.now.model code }
    ensures { result ≡ half_met arena.now.model code }
{
    Met {
        vertices: u32::from(leads(arena, last, code)),
        edges: u32::from(code % 2 == 0),
    }
}

/// What the half-edges of loop l, in which `first` stands, count for.
#[tactic(auto, using(crate::proofs::solid_counts_laws::Sums::half_few, crate::proofs::Prelude::item_of, crate::proofs::Prelude::edge_fits, crate::proofs::Prelude::item_there))]
fn ring_met(arena: &Arena, l: u32, first: HalfEdge) -> Met
    requires ready { IsReady arena.now }
    requires item { IsIn (code first) (items_of (content arena.now.model l)) }
    ensures { result ≡ halves_met arena.now.model (items_of (content arena.now.model l)) }
{
    let mut sum = Met {
        vertices: 0,
        edges: 0,
    };
    let begin = first.code();
    let mut last = previous_code(arena, begin);
    let mut code = begin;
    'round: loop {
        sum = together(sum, half_met(arena, last, code));
        last = code;
        code = next_code(arena, code);
        if code == begin {
            return sum;
        }
    }
}

/// What the loop counts for: its vertex if it is lone, else what its half-edges count for.
#[tactic(auto, using(crate::proofs::Prelude::filled, crate::proofs::Prelude::ring_has, crate::proofs::solid_counts_laws::LoopRounds::lone_counts, crate::proofs::solid_counts_laws::LoopRounds::ring_counts))]
fn loop_met(arena: &Arena, l: u32) -> Met
    requires ready { IsReady arena.now }
    requires there { has_number arena.now Kind.Loop l ≡ true }
    ensures { result ≡ loop_met arena.now.model (content arena.now.model l) }
{
    match arena.content(l) {
        Content::Lone(_) => Met {
            vertices: 1,
            edges: 0,
        },
        Content::Ring(first) => ring_met(arena, l, first),
    }
}

/// What the loops of face f, which has so many rings, count for.
#[tactic(auto, using(crate::proofs::solid_counts_laws::Sums::nothing_together, crate::proofs::solid_counts_laws::FaceSums::all_counted, crate::proofs::solid_counts_laws::FaceSums::bare_face, crate::proofs::solid_counts_laws::FaceSums::counted_more))]
pub(crate) fn face_met(arena: &Arena, f: u32, rings: u32) -> Met
    requires ready { IsReady arena.now }
    requires there { has_number arena.now Kind.Face f ≡ true }
    requires rings { rings ≡ length (rings_of arena.now.model f) }
    ensures { result ≡ loops_met arena.now.model (loops_of arena.now.model f) }
{
    if rings == 0 {
        return loop_met(arena, arena.outer(f));
    }
    let mut sum = Met {
        vertices: 0,
        edges: 0,
    };
    'loops: for l in loops_of(arena, f) {
        sum = together(sum, loop_met(arena, l));
    }
    sum
}
