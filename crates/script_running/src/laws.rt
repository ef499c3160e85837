//! Laws of what a run does and writes. Each function does nothing: its contract is what is proved.
ghost use Rattle.script_running.specs.Histories.{LinesAreCalls, LinesLeadOn, HistoriesMakeConsistent, RunsTellHistories};
ghost use Rattle.script_running.specs.Laws.{LinesAreTold, OneOutput, HasNoMemory};
ghost use Rattle.script_running.specs.script_judging.Hearing.{LinesAreJudged};

use commands::commands_are_calls;
use sweeps::histories_are_consistent;

/// A line that spells a command has the same answer as the call that gives this command to the session, and leads to the same session.
pub fn lines_are_told()
    ensures { LinesAreTold }
{}

/// A line that a session hears in a console is answered, and leads on, as a line of a script may.
pub fn lines_are_judged()
    ensures { LinesAreJudged }
{}

/// If no reply is `memory`, the lines of a script have one output and one summary.
pub fn one_output()
    ensures one { OneOutput }
    ensures quiet { HasNoMemory }
{}

/// A line that is judged on a sound model is one call of a history, whatever its command and its answer are. So if a list of calls leads to the
/// machine before the line, a list of calls leads to the machine after it, and both machines are consistent.
pub fn lines_are_calls()
    ensures calls { LinesAreCalls }
    ensures lead { LinesLeadOn }
    ensures consistent { HistoriesMakeConsistent }
{
    commands_are_calls();
    histories_are_consistent();
}

/// What `run` says of a whole script: the lines take their turns on the machines of a history. So every model that is held, listed or measured is
/// that of a consistent machine, hence sound. What is written is the texts of these turns, or, if a write failed, a prefix of them. If the run ended
/// well, each line that it counts takes its turn.
pub fn runs_tell_histories()
    ensures { RunsTellHistories }
{
    lines_are_calls();
}
