//! The laws of laminas, blocks and sweeps as commands: what they make of the six volumes of the solids that a session holds, and that each
//! is a call of a history. Each function does nothing: its contract is what is proved, over every machine.

ghost use Rattle.sweeps.specs.Calls.{LaminasAreCalls, BlocksAreCalls, SweepsAreCalls};
ghost use Rattle.sweeps.specs.Measures.{SweptSolid, OthersThanSwept, NewBlock, OthersThanBlock, NewLamina, NewFlatLamina, OthersThanLamina};

/// After a sweep, the six volumes of the face's solid have grown by three times the product of the vector and the face's normal before.
/// That is six times the volume of the prism. Every other solid keeps its six volumes.
pub fn sweep_measures()
    ensures solid { SweptSolid }
    ensures others { OthersThanSwept }
{}

/// After a block, the six volumes of its solid are six times the product of the sizes. Every other solid keeps its six volumes.
pub fn block_measures()
    ensures solid { NewBlock }
    ensures others { OthersThanBlock }
{}

/// After a lamina, the six volumes of its solid are its first point less its second, along the normal of its first face: nothing if that
/// face is flat. Every other solid keeps its six volumes.
pub fn lamina_measures()
    ensures solid { NewLamina }
    ensures flat { NewFlatLamina }
    ensures others { OthersThanLamina }
{}

/// A lamina, block or sweep that isn't refused is a call of a history: accepted operators make its model.
pub fn larger_commands_are_calls()
    ensures lamina { LaminasAreCalls }
    ensures block { BlocksAreCalls }
    ensures sweep { SweepsAreCalls }
{}
