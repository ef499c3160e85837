//! Calls of a session, or of a draft of its next command.
ghost use Rattle.std.specs.Prelude.{◌≡◌};
ghost use Rattle.commands.specs.Telling.{Tells, TellsSession, TellsDraft, IsWhole, told_of, told_of_move};

use crate::asking::ask;
use crate::drafting::{act_on_draft, change_in};
use crate::known::KnownSession;
use crate::stage::{OpenDraft, Stage};
use call_types::{Call, Change, Command};
use euler_operators::{Op, Refusal};
use solid_listing::Told;
use std::alloc::Global;
use undo_journal::{Draft, Failure};

/// The answer to a change that ended with this result.
fn outcome(ended: Result<(), Failure>) -> Told
    ensures { result ≡ told_of ended }
{
    match ended {
        Ok(()) => Told::Done,
        Err(Failure::Refused(refusal)) => Told::Refused(refusal),
        Err(Failure::Memory(_)) => Told::Memory,
    }
}

/// The answer to an undo or redo that ended with this result.
fn moved(ended: Result<(), Refusal>) -> Told
    ensures { result ≡ told_of_move ended }
{
    match ended {
        Ok(()) => Told::Done,
        Err(refusal) => Told::Refused(refusal),
    }
}

fn undo(session: KnownSession) -> (KnownSession, Told)
    ensures { TellsSession session Command.Undo result.1 result.0 }
{
    let mut session = session;
    let ended = session.undo();
    (session, moved(ended))
}

fn redo(session: KnownSession) -> (KnownSession, Told)
    ensures { TellsSession session Command.Redo result.1 result.0 }
{
    let mut session = session;
    let ended = session.redo();
    (session, moved(ended))
}

/// Gives a session a command. A command that isn't done leaves the session as it was, with its records.
fn give(alloc: Global, session: KnownSession, command: Command<'_>) -> (KnownSession, Told)
    ensures { TellsSession session command.entry result.1 result.0 }
{
    match command {
        Command::Change(wanted) => {
            let (session, ended) = session.change(alloc, wanted);
            (session, outcome(ended))
        }
        Command::Ask(question) => {
            let told = ask(session.session().arena(), question);
            (session, told)
        }
        Command::Undo => undo(session),
        Command::Redo => redo(session),
    }
}

/// Gives a draft a command: a change as steps, or a question. A command that isn't done leaves the draft as it was, and it goes on.
fn give_in(alloc: Global, draft: &mut Draft, command: Command<'_>) -> Told
    ensures { TellsDraft draft.old command.entry result draft.new }
{
    match command {
        Command::Change(wanted) => outcome(change_in(alloc, draft, wanted)),
        Command::Ask(question) => ask(draft.arena(), question),
        Command::Undo => Told::InDraft,
        Command::Redo => Told::InDraft,
    }
}

/// Gives a session or a draft an operator without moving it: in a session it is a command, in a draft a step. It does what `make` does.
#[inline(always)]
pub fn act(stage: &mut Stage, op: Op) -> Result<(), Failure>
    ensures { Tells stage.old (Call.Give (Command.Change (Change.Act op))) (told_of result) stage.new }
{
    match stage {
        Stage::Session(session) => session.act(op),
        Stage::Drafting(open) => act_on_draft(&mut open.draft, op),
    }
}

fn open(session: KnownSession) -> (Stage, Told)
    ensures { Tells (Stage.Session session) Call.Open result.1 result.0 }
{
    match Draft::open(session.forget()) {
        Ok(draft) => (Stage::Drafting(OpenDraft { draft }), Told::Done),
        Err((session, _)) => (Stage::Session(KnownSession::of(session)), Told::Memory),
    }
}

fn make_on_session(alloc: Global, session: KnownSession, wanted: Call<'_>) -> (Stage, Told)
    ensures { Tells (Stage.Session session) wanted.entry result.1 result.0 }
{
    match wanted {
        Call::Give(command) => {
            let (session, told) = give(alloc, session, command);
            (Stage::Session(session), told)
        }
        Call::Open => open(session),
        Call::Mark => (Stage::Session(session), Told::NoDraft),
        Call::Back(_) => (Stage::Session(session), Told::NoDraft),
        Call::Commit => (Stage::Session(session), Told::NoDraft),
        Call::Abandon => (Stage::Session(session), Told::NoDraft),
    }
}

fn give_draft(alloc: Global, drafting: OpenDraft, command: Command<'_>) -> (Stage, Told)
    ensures { Tells (Stage.Drafting drafting) (Call.Give command.entry) result.1 result.0 }
{
    let mut drafting = drafting;
    let told = give_in(alloc, &mut drafting.draft, command);
    (Stage::Drafting(drafting), told)
}

fn mark(drafting: OpenDraft) -> (Stage, Told)
    ensures { Tells (Stage.Drafting drafting) Call.Mark result.1 result.0 }
{
    let steps = drafting.draft.mark();
    (Stage::Drafting(drafting), Told::Steps(steps))
}

fn back(drafting: OpenDraft, steps: usize) -> (Stage, Told)
    ensures { Tells (Stage.Drafting drafting) (Call.Back steps) result.1 result.0 }
{
    let mut drafting = drafting;
    drafting.draft.back_to(steps);
    (Stage::Drafting(drafting), Told::Done)
}

fn make_on_draft(alloc: Global, drafting: OpenDraft, wanted: Call<'_>) -> (Stage, Told)
    ensures { Tells (Stage.Drafting drafting) wanted.entry result.1 result.0 }
{
    match wanted {
        Call::Give(command) => give_draft(alloc, drafting, command),
        Call::Open => (Stage::Drafting(drafting), Told::InDraft),
        Call::Mark => mark(drafting),
        Call::Back(steps) => back(drafting, steps),
        Call::Commit => (Stage::Session(drafting.commit()), Told::Done),
        Call::Abandon => (Stage::Session(drafting.abandon()), Told::Done),
    }
}

fn make_one(alloc: Global, stage: Stage, wanted: Call<'_>) -> (Stage, Told)
    ensures { Tells stage wanted.entry result.1 result.0 }
{
    match stage {
        Stage::Session(session) => make_on_session(alloc, session, wanted),
        Stage::Drafting(drafting) => make_on_draft(alloc, drafting, wanted),
    }
}

/// Makes a call of a session, or of a draft of its next command. `Tells` relates the answer and the session or draft after the call to
/// those before. A call that isn't answered with `Done` leaves both as they were, with their records and steps. Each session and draft on
/// the way is whole.
pub fn make(alloc: Global, stage: Stage, call: Call<'_>) -> (Stage, Told)
    ensures told { Tells stage call.entry result.1 result.0 }
    ensures whole { IsWhole result.0 }
{
    let (stage, told) = make_one(alloc, stage, call);
    stage.stays_whole();
    (stage, told)
}
