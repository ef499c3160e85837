//! The glue of two faces, operator by operator in a draft.
ghost use Rattle.std.specs.Prelude.{◌≡◌, ◌≤◌, true, None, OnOk, OnErr};
ghost use Rattle.euler_operators.specs.Common.{code, after, before, has_half, outer, Has};
ghost use Rattle.euler_conditions.specs.Ready.{IsReady};
ghost use Rattle.euler_laws.specs.Laws.{AreAccepted};
ghost use Rattle.euler_conditions.specs.Store.{has_number};
ghost use Rattle.shapes.specs.Common.{glue_model, glue_ops, glue_refusal, closing, fresh_edge, opening};
ghost use Rattle.undo_journal.specs.Journal.{after_steps, IsFurther};

use crate::rims::{first_item, item_at};
use euler_conditions::Arena;
use euler_operators::{HalfEdge, Kind, Op};
use std::alloc::AllocError;
use undo_journal::Draft;

/// The edge, the face and the loop that each closing makes and kills again.
#[derive(Clone, Copy)]
struct Spare {
    edge: u32,
    face: u32,
    ring: u32,
}

/// The first edge number above those in use.
fn fresh_edge(arena: &Arena) -> u32
    requires { fresh_edge arena.now.model ≤ 1000000 }
    ensures { result ≡ fresh_edge arena.now.model }
{
    arena.greatest(Kind::Edge) + 1
}

/// The spare numbers of a glue of face f to another: one fresh edge, and face f and its outer loop, which go first.
fn spare_of(arena: &Arena, f: u32) -> Spare
    requires there { has_number arena.now Kind.Face f ≡ true }
    requires left { fresh_edge arena.now.model ≤ 1000000 }
    ensures edge { result.edge ≡ fresh_edge arena.now.model }
    ensures face { result.face ≡ f }
    ensures ring { result.ring ≡ outer arena.now.model f }
{
    Spare {
        edge: fresh_edge(arena),
        face: f,
        ring: arena.outer(f),
    }
}

/// The items before and after a half-edge in its loop.
#[tactic(auto, using(euler_conditions::proofs::Known::in_a_loop))]
fn neighbours(arena: &Arena, item: HalfEdge) -> (HalfEdge, HalfEdge)
    requires ready { IsReady arena.now }
    requires there { has_half arena.now.model (code item) ≡ true }
    ensures previous { code result.0 ≡ before arena.now.model (code item) }
    ensures next { code result.1 ≡ after arena.now.model (code item) }
{
    (arena.prev(item), arena.next(item))
}

/// Makes the two solids one, and the outer loops of the two faces one loop, in which `partner` of the other face comes before `first` of
/// face f.
#[tactic(auto, using(undo_journal::proofs::Marks::further_on))]
fn open_seam(
    draft: &mut Draft,
    f: u32,
    other: u32,
    first: HalfEdge,
    partner: HalfEdge,
    edge: u32,
) -> Result<(), AllocError>
    requires first_there { Has draft.old.model.faces f }
    requires second_there { Has draft.old.model.faces other }
    requires accepted { AreAccepted draft.old.model (opening draft.old.model f other (code first) (code partner) edge) }
    ensures steps { OnOk result (draft.new ≡ after_steps draft.old (opening draft.old.model f other (code first) (code partner) edge)) }
    ensures further { IsFurther draft.old draft.new }
{
    let solid = draft.arena().solid_of(f);
    let other_solid = draft.arena().solid_of(other);
    draft.step_accepted(Op::Merge(solid, other_solid))?;
    draft.step_accepted(Op::Kfmrh(f, other))?;
    draft.step_accepted(Op::Mekr(first.corner(), partner.corner(), HalfEdge::plus(edge)))?;
    draft.step_accepted(Op::Kev(HalfEdge::plus(edge)))
}

/// Glues the item between its partner and the next item: both get a loop of their own, then their ends become one vertex, and then the
/// partner's edge goes.
#[tactic(auto, using(undo_journal::proofs::Marks::further_on))]
fn close_item(
    draft: &mut Draft,
    partner: HalfEdge,
    next: HalfEdge,
    spare: Spare,
) -> Result<(), AllocError>
    requires { AreAccepted draft.old.model (closing (code partner) (code next) spare.edge spare.face spare.ring) }
    ensures steps { OnOk result (draft.new ≡ after_steps draft.old (closing (code partner) (code next) spare.edge spare.face spare.ring)) }
    ensures further { IsFurther draft.old draft.new }
{
    draft.step_accepted(Op::Mef(
        partner,
        next,
        HalfEdge::plus(spare.edge),
        spare.face,
        spare.ring,
    ))?;
    draft.step_accepted(Op::Kev(HalfEdge::minus(spare.edge)))?;
    draft.step_accepted(Op::Kef(partner.mate()))
}

/// Takes the steps of a glue that isn't refused. On `AllocError` the draft may have taken some steps.
///
/// After the seam is opened, it holds the items that aren't glued yet and, back along them, their partners. The partner of the first item
/// comes before that item.
#[tactic(auto, using(undo_journal::proofs::Marks::further_on))]
fn take_steps(draft: &mut Draft, f: u32, other: u32) -> Result<(), AllocError>
    requires { glue_refusal draft.old.model f other ≡ None }
    ensures model { OnOk result (draft.new.model ≡ glue_model draft.old.model f other) }
    ensures steps { OnOk result (draft.new ≡ after_steps draft.old (glue_ops draft.old.model f other)) }
    ensures further { IsFurther draft.old draft.new }
{
    let arena = draft.arena();
    let spare = spare_of(arena, other);
    let first = first_item(arena, f);
    let start = arena.point(arena.tail(first));
    let across = item_at(arena, other, start);
    open_seam(draft, f, other, first, across, spare.edge)?;
    let mut item = first;
    'items: loop {
        let (partner, next) = neighbours(draft.arena(), item);
        if next == partner {
            return draft.step_accepted(Op::Kef(partner.mate()));
        }
        close_item(draft, partner, next, spare)?;
        item = next;
    }
}

/// How many steps a glue of two faces with four corners takes.
const USUAL_STEPS: usize = 14;

/// How many of these steps don't tell their inverses: all but the mefs.
const USUAL_UNTOLD: usize = 11;

/// Glues the other face of the draft's model to face f, if that isn't refused. First it asks for memory to list as many steps as most glues
/// take. On `AllocError` the draft is as it was.
#[tactic(auto, using(undo_journal::proofs::Marks::further_none, undo_journal::proofs::Marks::further_back, undo_journal::proofs::Marks::back_at_mark))]
pub(crate) fn try_join(draft: &mut Draft, f: u32, other: u32) -> Result<(), AllocError>
    requires { glue_refusal draft.old.model f other ≡ None }
    ensures model { OnOk result (draft.new.model ≡ glue_model draft.old.model f other) }
    ensures steps { OnOk result (draft.new ≡ after_steps draft.old (glue_ops draft.old.model f other)) }
    ensures further { IsFurther draft.old draft.new }
    ensures err { OnErr result (draft.new ≡ draft.old) }
{
    draft.reserve(USUAL_STEPS, USUAL_UNTOLD)?;
    let mark = draft.mark();
    match take_steps(draft, f, other) {
        Ok(()) => Ok(()),
        Err(error) => {
            draft.back_to(mark);
            Err(error)
        }
    }
}
