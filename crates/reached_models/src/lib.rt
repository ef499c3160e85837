#![tactic(auto)]
//! Which models operators make. `sound_models_are_reached` does nothing: its contract is what is proved.
//!
//! A sound model is taken apart step by step, and the inverses of the steps, in the opposite order, make it from the empty one. Each step
//! makes the model lighter (`Weights`), and the first of these that can be taken is taken:
//!
//! - mfkrh makes a ring the outer loop of a face of its own;
//! - kvfs takes away a lone loop with its face, after part has made the face a solid by itself where its solid has others;
//! - kef takes away an edge that lies between two loops;
//! - kemr takes away an edge whose loop has another edge, and kev the only edge of a loop.
//!
//! No number has to be spared for this. A ring means that there are more loops than faces, a second face of a solid that there are more
//! faces than solids, and a second edge of a loop that there are more edges than loops, if none is lone. So there is a free number for the
//! new face, the new solid, the new ring (`Free`).
//!
//! # What is proved
//!
//! `sound_models_are_reached`: a model is sound exactly if a list of operators, each accepted in its turn, makes it from the empty model.
//! Accepted operators lead from each sound model to each other, and mvfs, mev, mef, mekr, kfmrh and merge alone make each sound model.

ghost use Rattle.reached_models.specs.Laws.{SoundIsReached, SoundIsLinked, BuildersSuffice};

/// A model is sound exactly if operators, each accepted in its turn, make it from the empty one. They lead from each sound model to each
/// other; and six of them are enough to make each.
pub fn sound_models_are_reached()
    ensures reached { SoundIsReached }
    ensures linked { SoundIsLinked }
    ensures builders { BuildersSuffice }
{}
