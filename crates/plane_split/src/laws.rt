//! The laws of splits as commands. Each function does nothing: its contract is what is proved, over every machine.
ghost use Rattle.plane_split.specs.Calls.{SplitsAreCalls};
ghost use Rattle.plane_split.specs.SplitModels.{SplitsAreHeld, HeldAreSound, PartsAreHeld, HeldShareVolumes, HeldKeepOthers, HeldLieOnEitherSide};

/// A split that isn't refused is a call of a history: accepted operators make its model.
pub fn splits_are_calls()
    ensures { SplitsAreCalls }
{}

/// What a caller of `split` knows of the session after the answer Ok. The premises are what the call says: the model held before it was
/// sound (`sound`), no condition was false, and the session has one accepted command more (`ok`). Then the session holds the split's model,
/// which is sound. In it both parts are solids. Their six volumes sum to those that the solid had, and every other solid keeps its own. No
/// vertex of the part that keeps the number lies above the plane, and none of the other part lies below it.
pub fn splits_are_held()
    ensures made { SplitsAreHeld }
    ensures sound { HeldAreSound }
    ensures parts { PartsAreHeld }
    ensures volumes { HeldShareVolumes }
    ensures others { HeldKeepOthers }
    ensures sides { HeldLieOnEitherSide }
{}
