//! The laws of commands: that they are calls of a history, and how many operators the larger ones take. Each function does nothing: its
//! contract is what is proved.
ghost use Rattle.commands.specs.Calls.{CommandsAreCalls};
ghost use Rattle.commands.specs.Steps.{LaminasTakeSteps, BlocksTakeSteps, SweepsTakeSteps, GluesTakeSteps, SplitsTakeSteps};

use gluing::glues_are_calls;
use plane_split::splits_are_calls;
use sweeps::larger_commands_are_calls;

/// A command to a session on a sound model is one call of a history, whatever the answer is.
#[tactic(auto, using(crate::proofs::Calls::commands_are_calls))]
pub fn commands_are_calls()
    ensures { CommandsAreCalls }
{
    larger_commands_are_calls();
    glues_are_calls();
    splits_are_calls();
}

/// How many operators a lamina, a block, a sweep, a glue and a split take that aren't refused. `Tells` says that these are the steps that
/// they take in a draft, and the operators of the record that they leave in a session.
pub fn larger_commands_take_steps()
    ensures lamina { LaminasTakeSteps }
    ensures block { BlocksTakeSteps }
    ensures sweep { SweepsTakeSteps }
    ensures glue { GluesTakeSteps }
    ensures split { SplitsTakeSteps }
{}
