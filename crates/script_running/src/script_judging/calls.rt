//! A console: what a call does to a session, or to a draft of its next command, and to the last answer.
ghost use Rattle.std.specs.Prelude.{◌≡◌, ◌<◌, IfOk};
ghost use Rattle.script_running.specs.Common.{told_of, told_of_move};
ghost use Rattle.script_running.specs.script_judging.Consoles.{ConsoleHeeds, IsNew, Measures, act_of, answer_after, calls, keeps, status_of};
ghost use Rattle.script_running.specs.script_judging.Hearing.{changes, gives};

use crate::script_judging::judging::status;
use commands::{Call, Change, Command, KnownSession, Question, Stage, Told, change_in};
use euler_operators::{Op, Refusal};
use std::alloc::{AllocError, Global};
use undo_journal::{Failure, Session};

/// A session or a draft of its next command, and the answer to the last command.
#[derive(Drop)]
pub struct Console {
    /// The session or the draft. It is `None` only while the session or draft is moved for a call.
    pub stage: Option<Stage>,
    pub answer: Told,
}

impl Console {
    /// A new session, which has answered nothing.
    pub fn new(alloc: Global) -> Result<Console, AllocError>
        ensures start { IfOk result IsNew }
        ensures silent { IfOk result (λ c. c.answer ≡ Told.Silent) }
    {
        let session = Session::new(alloc)?;
        Ok(Console {
            stage: Some(Stage::Session(KnownSession::of(session))),
            answer: Told::Silent,
        })
    }
}

/// What C is told of a console that has answered nothing.
const SILENT: u32 = 0;

/// What C is told of a call that a draft doesn't have.
const IN_DRAFT: u32 = 11;

/// Keeps what a call was told. A call that the session or draft doesn't have, or one that concerns a mark, leaves the last answer.
#[inline(always)]
fn keep(told: &Told, answer: &mut Told)
    ensures { answer.new ≡ answer_after answer.old told.now }
{
    match told {
        Told::InDraft => {}
        Told::NoDraft => {}
        Told::Steps(_) => {}
        _ => *answer = *told,
    }
}

/// Keeps the answer to a change that ended in this way, and says what C is told of it.
pub fn keep_outcome(ended: Result<(), Failure>, answer: &mut Told) -> u32
    ensures kept { answer.new ≡ answer_after answer.old (told_of ended) }
    ensures kind { result ≡ status_of (told_of ended) }
    ensures had { result < 11 }
{
    match ended {
        Ok(()) => {
            *answer = Told::Done;
            1
        }
        Err(Failure::Refused(refusal)) => {
            *answer = Told::Refused(refusal);
            2
        }
        Err(Failure::Memory(_)) => {
            *answer = Told::Memory;
            4
        }
    }
}

/// Keeps the answer to an undo or redo that ended in this way, and says what C is told of it.
fn keep_move(ended: Result<(), Refusal>, answer: &mut Told) -> u32
    ensures kept { answer.new ≡ answer_after answer.old (told_of_move ended) }
    ensures kind { result ≡ status_of (told_of_move ended) }
{
    match ended {
        Ok(()) => {
            *answer = Told::Done;
            1
        }
        Err(refusal) => {
            *answer = Told::Refused(refusal);
            2
        }
    }
}

/// Makes no call, and keeps this answer.
#[inline(always)]
pub fn say(console: &mut Console, answer: Told) -> u32
    ensures { ConsoleHeeds console.old (keeps answer) console.new result }
{
    console.answer = answer;
    status(&answer)
}

/// One operator, made in place: in a session it is a command, in a draft a step.
#[inline(always)]
pub fn act(console: &mut Console, op: Op) -> u32
    ensures heeds { ConsoleHeeds console.old (calls (act_of op)) console.new result }
    ensures had { result < 11 }
{
    if let Some(stage) = &mut console.stage {
        let ended = commands::act(stage, op);
        return keep_outcome(ended, &mut console.answer);
    }
    SILENT
}

/// Takes the last command back, in place. A draft doesn't have this call.
#[inline(always)]
pub(crate) fn undo(console: &mut Console) -> u32
    ensures { ConsoleHeeds console.old (gives Command.Undo) console.new result }
{
    match &mut console.stage {
        Some(Stage::Session(session)) => {
            let ended = session.undo();
            keep_move(ended, &mut console.answer)
        }
        Some(Stage::Drafting(_)) => IN_DRAFT,
        None => SILENT,
    }
}

/// Does the next command again, in place. A draft doesn't have this call.
#[inline(always)]
pub(crate) fn redo(console: &mut Console) -> u32
    ensures { ConsoleHeeds console.old (gives Command.Redo) console.new result }
{
    match &mut console.stage {
        Some(Stage::Session(session)) => {
            let ended = session.redo();
            keep_move(ended, &mut console.answer)
        }
        Some(Stage::Drafting(_)) => IN_DRAFT,
        None => SILENT,
    }
}

/// A change: of a session one command, which moves it, and of a draft steps.
#[inline(never)]
pub(crate) fn change(alloc: Global, console: &mut Console, wanted: Change<'_>) -> u32
    ensures { ConsoleHeeds console.old (changes wanted.entry) console.new result }
{
    match console.stage.take() {
        Some(Stage::Session(session)) => {
            let (session, ended) = session.change(alloc, wanted);
            console.stage = Some(Stage::Session(session));
            keep_outcome(ended, &mut console.answer)
        }
        Some(Stage::Drafting(drafting)) => {
            let mut drafting = drafting;
            let ended = change_in(alloc, &mut drafting.draft, wanted);
            console.stage = Some(Stage::Drafting(drafting));
            keep_outcome(ended, &mut console.answer)
        }
        None => SILENT,
    }
}

/// A call for which the session or draft has to be moved.
fn carry(alloc: Global, console: &mut Console, wanted: Call<'_>) -> u32
    ensures { ConsoleHeeds console.old (calls wanted.entry) console.new result }
{
    let Some(stage) = console.stage.take() else {
        return SILENT;
    };
    let (stage, told) = commands::make(alloc, stage, wanted);
    console.stage = Some(stage);
    keep(&told, &mut console.answer);
    status(&told)
}

/// Makes a call, keeps its answer, and says what C is told of it. A call that the session or draft doesn't have changes nothing.
#[inline(always)]
pub fn make(alloc: Global, console: &mut Console, wanted: Call<'_>) -> u32
    ensures { ConsoleHeeds console.old (calls wanted.entry) console.new result }
{
    match wanted {
        Call::Give(Command::Change(wanted)) => change(alloc, console, wanted),
        Call::Give(Command::Ask(question)) => ask_apart(console, question),
        Call::Give(Command::Undo) => undo(console),
        Call::Give(Command::Redo) => redo(console),
        wanted => carry(alloc, console, wanted),
    }
}

/// Answers a question about the model shown, and keeps the answer.
#[inline(always)]
pub fn ask(console: &mut Console, question: Question) -> u32
    ensures { ConsoleHeeds console.old (gives (Command.Ask question)) console.new result }
{
    if let Some(stage) = &console.stage {
        let told = commands::ask(stage.arena(), question);
        console.answer = told;
        return status(&console.answer);
    }
    SILENT
}

/// Does what `ask` does. The stack space for answers is in this function, so that no other command pays for it.
#[inline(never)]
fn ask_apart(console: &mut Console, question: Question) -> u32
    ensures { ConsoleHeeds console.old (gives (Command.Ask question)) console.new result }
{
    ask(console, question)
}

/// Answers a question about the model shown, and keeps nothing.
#[inline(always)]
pub fn measure(console: &Console, question: Question) -> Told
    ensures { Measures console.now question result }
{
    match &console.stage {
        Some(stage) => commands::ask(stage.arena(), question),
        None => Told::Silent,
    }
}
