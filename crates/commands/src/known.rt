//! A session, and what it knows of one of its solids.
ghost use Rattle.std.specs.Prelude.{◌≡◌, ◌⊎◌, IfSome, OnErr, OnOk};
ghost use Rattle.euler_conditions.specs.Ready.{IsReady};
ghost use Rattle.euler_operators.specs.Common.{solid_of, verdict};
ghost use Rattle.undo_journal.specs.Journal.{after_redo, after_undo, Journal};
ghost use Rattle.undo_journal.specs.Machine.{held, redo_refusal, undo_refusal};
ghost use Rattle.gluing.specs.Flat.{IsClosedFlat};
ghost use Rattle.commands.specs.Known.{IsKnown, MakesKnown};
ghost use Rattle.commands.specs.Telling.{TellsSession, told_of};

use crate::changing::{act, act_on_session, make_block, make_split};
use call_types::{Change, Command};
use euler_conditions::Arena;
use euler_operators::{Kind, Op, Refusal, is_number};
use gluing::glue_with_flat;
use std::alloc::Global;
use std::marker::Model;
use sweeps::{lamina, sweep};
use undo_journal::{Failure, Session};

/// What is known of one solid.
#[derive(Clone, Copy)]
enum Known {
    /// Nothing.
    Nothing,
    /// The solid with this number has no lone loop, and only flat faces.
    Flat(u32),
    /// And it is strictly convex, so that both parts of a split of it have only flat faces again. Other parts needn't: a face that crosses itself may
    /// leave a piece without area.
    Convex(u32),
}

/// A session, with what is known of one of its solids. A glue of a solid that is known to be closed and flat, or to it, and a split of it don't look
/// for lone loops and bent faces in it. So a solid to which block after block is glued isn't looked at anew for each, nor a bar from which slice after
/// slice is cut. Contracts see the session alone.
///
/// A block makes its solid known where none is, a glue the solid that stays, and a split the upper part if the solid was known to be strictly convex.
/// A larger command that is refused leaves it known. After any other change of the model, and after a draft, none is known.
#[derive(Drop)]
pub struct KnownSession {
    session: Session,
    known: Known,
}

impl Model for KnownSession {
    ghost use Rattle.undo_journal.specs.Journal.{Journal, coded_journal};

    ghost Value = { Journal };

    ghost coded = { coded_journal };

    ghost use Rattle.commands.specs.Known.{IsKnown};

    ghost view = { λ s. s.session };

    ghost invariant = { λ s. IsKnown s.session s.known };
}

/// The solid of a face, if there is one.
fn solid_of(arena: &Arena, f: u32) -> Option<u32>
    requires { IsReady arena.now }
    ensures { IfSome result (λ s. s ≡ solid_of arena.now.model f) }
{
    if !is_number(f) {
        return None;
    }
    if !arena.has(Kind::Face, f) {
        return None;
    }
    Some(arena.solid_of(f))
}

/// The solid that is known to be closed and flat, if one is.
fn flat_of(known: Known) -> Option<u32>
    ensures { (s : Journal) → IsKnown s known → IfSome result (IsClosedFlat (held s.machine)) }
{
    match known {
        Known::Nothing => None,
        Known::Flat(solid) => Some(solid),
        Known::Convex(solid) => Some(solid),
    }
}

/// What is known once block `solid` is made.
fn known_with_block(known: Known, solid: u32) -> Known
    ensures { (result ≡ known) ⊎ (result ≡ Known.Convex solid) }
{
    match known {
        Known::Nothing => Known::Convex(solid),
        known => known,
    }
}

/// What is known once a face is glued to face f.
fn known_glued(arena: &Arena, f: u32) -> Known
    requires { IsReady arena.now }
    ensures { (result ≡ Known.Nothing) ⊎ (result ≡ Known.Flat (solid_of arena.now.model f)) }
{
    match solid_of(arena, f) {
        Some(solid) => Known::Flat(solid),
        None => Known::Nothing,
    }
}

/// What is known once a solid is split.
fn known_split(known: Known, solid: u32, upper: u32) -> Known
    ensures { (result ≡ Known.Nothing) ⊎ ((known ≡ Known.Convex solid) × (result ≡ Known.Convex upper)) }
{
    if let Known::Convex(whole) = known {
        if whole == solid {
            return Known::Convex(upper);
        }
    }
    Known::Nothing
}

/// What is known once this change is accepted.
fn known_next(arena: &Arena, known: Known, wanted: &Change<'_>) -> Known
    requires { IsReady arena.now }
    ensures { MakesKnown arena.now.model known wanted.now result }
{
    match wanted {
        Change::Block(solid, _, _, _, _) => known_with_block(known, *solid),
        Change::Glue(face, _) => known_glued(arena, *face),
        Change::Split(solid, _, _, _, _, upper) => known_split(known, *solid, *upper),
        _ => Known::Nothing,
    }
}

impl KnownSession {
    /// A session of which nothing is known.
    pub fn of(session: Session) -> KnownSession
        ensures { result ≡ session }
    {
        KnownSession {
            session,
            known: Known::Nothing,
        }
    }

    /// The session.
    pub fn session(&self) -> &Session
        ensures { result.now ≡ self.now }
    {
        &self.session
    }

    /// The session, without what is known of it.
    pub fn forget(self) -> Session
        ensures { result ≡ self }
    {
        let KnownSession { session, known: _ } = self;
        session
    }

    /// Gives the session an operator without moving it. It does what `change` does.
    #[inline(always)]
    pub fn act(&mut self, op: Op) -> Result<(), Failure>
        ensures { TellsSession self.old (Command.Change (Change.Act op)) (told_of result) self.new }
    {
        self.known = Known::Nothing;
        act_on_session(&mut self.session, op)
    }

    /// Takes the last command back. If there is none, it is refused with `NothingToUndo`.
    #[inline(always)]
    pub fn undo(&mut self) -> Result<(), Refusal>
        ensures ok { OnOk result (self.new ≡ after_undo self.old) }
        ensures refused { result ≡ verdict (undo_refusal self.old.machine) }
        ensures err { OnErr result (self.new ≡ self.old) }
    {
        self.known = Known::Nothing;
        self.session.undo()
    }

    /// Does the next command again. If there is none, it is refused with `NothingToRedo`.
    #[inline(always)]
    pub fn redo(&mut self) -> Result<(), Refusal>
        ensures ok { OnOk result (self.new ≡ after_redo self.old) }
        ensures refused { result ≡ verdict (redo_refusal self.old.machine) }
        ensures err { OnErr result (self.new ≡ self.old) }
    {
        self.known = Known::Nothing;
        self.session.redo()
    }

    /// Makes a change one command of the session. A refusal is that of the command that the change names. On any failure the session is as
    /// it was, with its records. An accepted change leaves one record.
    ///
    /// A glue and a split don't look for lone loops and bent faces of the solid that is known to be closed and flat.
    pub fn change(self, alloc: Global, wanted: Change<'_>) -> (KnownSession, Result<(), Failure>)
        ensures { TellsSession self (Command.Change wanted.entry) (told_of result.1) result.0 }
    {
        let KnownSession { session, known } = self;
        let next = known_next(session.arena(), known, &wanted);
        let flat = flat_of(known);
        let (session, ended) = match wanted {
            Change::Act(op) => act(session, op),
            Change::Lamina(solid, points) => lamina(alloc, session, solid, points.points()),
            Change::Block(solid, corner, dx, dy, dz) => {
                make_block(alloc, session, solid, corner, dx, dy, dz)
            }
            Change::Sweep(face, way) => sweep(alloc, session, face, way),
            Change::Glue(face, other) => glue_with_flat(alloc, session, face, other, flat),
            Change::Split(solid, a, b, c, d, above) => {
                make_split(alloc, session, solid, a, b, c, d, above, flat)
            }
        };
        let known = if ended.is_ok() { next } else { known };
        (KnownSession { session, known }, ended)
    }
}
