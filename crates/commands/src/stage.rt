//! A session, or a draft of its next command.
ghost use Rattle.std.specs.Prelude.{◌≡◌};
ghost use Rattle.euler_conditions.specs.Ready.{IsReady};
ghost use Rattle.undo_journal.specs.Journal.{after_commit};
ghost use Rattle.commands.specs.Telling.{shown, undos, redos, steps_in, IsWhole};

use crate::known::KnownSession;
use euler_conditions::Arena;
use undo_journal::Draft;

/// A draft, which is abandoned when it is dropped.
pub struct OpenDraft {
    pub draft: Draft,
}

impl Drop for OpenDraft {
    fn drop(self) {
        let OpenDraft { draft } = self;
        drop(draft.abandon());
    }
}

impl OpenDraft {
    /// Makes the steps one command.
    pub fn commit(self) -> KnownSession
        ensures { result ≡ after_commit self.draft }
    {
        let OpenDraft { draft } = self;
        KnownSession::of(draft.commit())
    }

    /// Takes the steps back.
    pub fn abandon(self) -> KnownSession
        ensures { result ≡ self.draft.session }
    {
        let OpenDraft { draft } = self;
        KnownSession::of(draft.abandon())
    }
}

/// A session, or a draft of its next command.
#[derive(Drop)]
pub enum Stage {
    Session(KnownSession),
    Drafting(OpenDraft),
}

impl Stage {
    /// The arena of the model shown, which is the session's or the draft's.
    pub fn arena(&self) -> &Arena
        ensures model { result.now.model ≡ shown self.now }
        ensures ready { IsReady result.now }
    {
        match self {
            Stage::Session(known) => known.session().arena(),
            Stage::Drafting(open) => open.draft.arena(),
        }
    }

    /// How many commands can be undone. In a draft there are none.
    pub fn depth(&self) -> usize
        ensures { result ≡ undos self.now }
    {
        match self {
            Stage::Session(known) => known.session().depth(),
            Stage::Drafting(_) => 0,
        }
    }

    /// How many commands can be redone. In a draft there are none.
    pub fn ahead(&self) -> usize
        ensures { result ≡ redos self.now }
    {
        match self {
            Stage::Session(known) => known.session().ahead(),
            Stage::Drafting(_) => 0,
        }
    }

    /// How many steps the draft has. Without a draft there are none.
    pub fn steps(&self) -> usize
        ensures { result ≡ steps_in self.now }
    {
        match self {
            Stage::Session(_) => 0,
            Stage::Drafting(open) => open.draft.mark(),
        }
    }

    /// Every model of the session is sound. The draft's model is sound too, and its steps lead to it. This function does nothing: its
    /// contract is what is proved.
    pub fn stays_whole(&self)
        ensures { IsWhole self.now }
    {
        match self {
            Stage::Session(known) => known.session().stays_consistent(),
            Stage::Drafting(open) => open.draft.stays_consistent(),
        }
    }
}
