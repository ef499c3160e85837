//! The cycles of below halves.
ghost use Rattle.std.specs.Prelude.{◌≡◌, ◌≤◌, ◌||◌, ℕ, true, IfOk, OnOk, map};
ghost use Rattle.std.specs.BTreeSet.{contains};
ghost use Rattle.std.specs.Ordering.{nat_cmp};
ghost use Rattle.euler_operators.specs.Common.{IsIn, code, IsCutPlane, lists, strictly_rises};
ghost use Rattle.euler_conditions.specs.Ready.{IsReady};
ghost use Rattle.split_opening_laws.specs.cycles.Permuting.{Permutes};
ghost use Rattle.shapes.specs.Common.{cycle_from, is_hole, next_below, section_cycles};
ghost use Rattle.split_sections.specs.Common.{AreThere, halves_of, AreStarts};

use crate::section_cycles::cycle::Cycle;
use crate::section_cycles::holes::is_hole;
use crate::section_cycles::starts::{Start, next_half};
use euler_conditions::{Arena, same};
use euler_operators::{HalfEdge, Plane};
use std::alloc::{AllocError, Global};
use std::collections::BTreeSet;

/// The cycle of the halves from one of them on. Each of these halves leads to one of them.
fn cycle_from(
    alloc: Global,
    arena: &Arena,
    halves: &[HalfEdge],
    starts: &[Start],
    first: HalfEdge,
) -> Result<Vec<HalfEdge>, AllocError>
    requires ready { IsReady arena.now }
    requires there { AreThere arena.now.model (map code halves.now) }
    requires starts { AreStarts arena.now.model (map code halves.now) starts.now }
    requires stays { (b : ℕ) → IsIn b (map code halves.now) → IsIn (next_below arena.now.model (map code halves.now) b) (map code halves.now) }
    requires first { IsIn (code first) (map code halves.now) }
    ensures { IfOk result (λ cycle. map code cycle.items ≡ cycle_from arena.now.model (map code halves.now) (code first)) }
{
    let mut cycle = Vec::new(alloc);
    let mut half = first;
    'round: for _ in 0..halves.len() {
        cycle.push(half)?;
        half = next_half(arena, starts, half);
        if same(half, first) {
            return Ok(cycle);
        }
    }
    Ok(cycle)
}

/// The cycle of the halves from one of them on, and whether it is a hole. Each of these halves leads to one of them, and no two lead to the
/// same one.
fn cycle_with_hole(
    alloc: Global,
    arena: &Arena,
    plane: Plane,
    halves: &[HalfEdge],
    starts: &[Start],
    first: HalfEdge,
) -> Result<Cycle, AllocError>
    requires ready { IsReady arena.now }
    requires plane { IsCutPlane plane }
    requires there { AreThere arena.now.model (map code halves.now) }
    requires starts { AreStarts arena.now.model (map code halves.now) starts.now }
    requires next { Permutes (next_below arena.now.model (map code halves.now)) (map code halves.now) }
    requires first { IsIn (code first) (map code halves.now) }
    ensures halves { IfOk result (λ cycle. halves_of cycle ≡ cycle_from arena.now.model (map code halves.now) (code first)) }
    ensures hole { IfOk result (λ cycle. cycle.hole ≡ is_hole arena.now.model plane (halves_of cycle)) }
{
    let round = cycle_from(alloc, arena, halves, starts, first)?;
    let hole = is_hole(arena, plane, round.as_slice());
    Ok(Cycle {
        halves: round,
        hole,
    })
}

/// Adds half-edges to those that were met.
fn meet(met: &mut BTreeSet<u32>, halves: &[HalfEdge]) -> Result<(), AllocError>
    requires { (b : ℕ) → IsIn b (map code halves.now) → b ≤ 2000001 }
    ensures { OnOk result ((b : ℕ) → contains nat_cmp met.new b ≡ lists (map code halves.now) b || contains nat_cmp met.old b) }
{
    let mut rest = halves;
    'halves: while let [first, others @ ..] = rest {
        met.insert(first.code())?;
        rest = others;
    }
    Ok(())
}

/// The cycles of these below halves, and which of them are holes. `starts` has the halves by the vertices at which they start. Each
/// cycle goes from its least half on, and the cycles stand in the order of these. Each half leads to the half that starts where it ends, and no
/// two lead to the same one. It takes n log n steps for n halves. If memory is refused, the answer is `AllocError`.
pub(crate) fn cycles(
    alloc: Global,
    arena: &Arena,
    plane: Plane,
    halves: &[HalfEdge],
    starts: &[Start],
) -> Result<Vec<Cycle>, AllocError>
    requires ready { IsReady arena.now }
    requires plane { IsCutPlane plane }
    requires there { AreThere arena.now.model (map code halves.now) }
    requires starts { AreStarts arena.now.model (map code halves.now) starts.now }
    requires rising { strictly_rises (map code halves.now) ≡ true }
    requires next { Permutes (next_below arena.now.model (map code halves.now)) (map code halves.now) }
    ensures halves { IfOk result (λ found. map halves_of found.items ≡ section_cycles arena.now.model (map code halves.now)) }
    ensures holes { IfOk result (λ found. map (λ c. c.hole) found.items ≡ map (is_hole arena.now.model plane) (map halves_of found.items)) }
{
    let mut met = BTreeSet::new(alloc);
    let mut cycles = Vec::new(alloc);
    let mut rest = halves;
    'halves: while let [half, others @ ..] = rest {
        if !met.contains(&half.code()) {
            let cycle = cycle_with_hole(alloc, arena, plane, halves, starts, *half)?;
            if cycle.halves.len() == halves.len() {
                cycles.push(cycle)?;
                return Ok(cycles);
            }
            meet(&mut met, cycle.halves.as_slice())?;
            cycles.push(cycle)?;
        }
        rest = others;
    }
    Ok(cycles)
}
