#![tactic(auto)]
//! The laws of the Euler operators. An accepted operator keeps a sound model sound (`effects_are_sound`), and its inverse takes it back
//! (`inverses_undo`); the same holds of lists of operators (`runs_are_undone`). `euler_number_grows` says how the Euler number grows. Each
//! function does nothing: its contract is what is proved, over every sound model and every operator whose conditions hold in it.
//! `refusals_name_the_first_false` is about conditions alone.
//!
//! The lemmas stand in folders: `mev`, `kev`, `mef` (with kef), `kemr`, `mekr`, `faces` (mvfs, kvfs and the operators that change only the
//! face to which a loop belongs), `merge` (Merge and Part), and `shared` (half-edges round a vertex, loops and their walks, models that
//! answer alike, what conditions say). `kev` and `mef` have both directions of undoing; `kemr` shows how mekr takes it back, `mekr` how
//! kemr does. A model is shown to stay sound in four parts (`shared/Parts`: walks, vertices, faces, ranges). They rest on what is said once
//! of an edge that comes (`shared/EdgeMore`) or goes (`shared/EdgeLess`) and of two loops whose rows change (`shared/TwoRows`).
//!
//! # What is proved
//!
//! `effects_are_sound`: every accepted operator keeps a sound model sound. `inverses_undo`: its inverse is accepted after it and gives the
//! model before; `runs_are_undone`: the same for lists of operators. `euler_number_grows`: v - e + f - r grows by 2 at mvfs and mfkrh,
//! falls by 2 at kvfs and kfmrh, and stays at every other operator. `refusals_name_the_first_false`: some conditions in their order refuse
//! nothing exactly if each of them holds; otherwise the refusal is that of the first that doesn't hold.

ghost use Rattle.euler_laws.specs.Laws.{NothingIsRefusedWhereAllHold, RefusalsNameTheFirstFalse, EmptyIsSound, EffectsAreSound, InversesAreAccepted, InversesUndo, RunsAreSound, InversesOfRunsAreAccepted, InversesOfRunsUndo, LoopsAreOuterOrRings, EulerNumberGrows};

/// Conditions in their order refuse nothing exactly if each of them holds; otherwise the refusal is that of the first that doesn't hold.
pub fn refusals_name_the_first_false()
    ensures nothing { NothingIsRefusedWhereAllHold }
    ensures first { RefusalsNameTheFirstFalse }
{}

/// The model that has nothing is sound, and an accepted operator makes a sound model from a sound one.
pub fn effects_are_sound()
    ensures empty { EmptyIsSound }
    ensures sound { EffectsAreSound }
{}

/// The inverse of an accepted operator is accepted after it, and gives the model before.
pub fn inverses_undo()
    ensures accepted { InversesAreAccepted }
    ensures undone { InversesUndo }
{}

/// The same for a list of operators, each accepted in its turn: the inverses, the last operator's first, take the list back.
pub fn runs_are_undone()
    ensures sound { RunsAreSound }
    ensures accepted { InversesOfRunsAreAccepted }
    ensures undone { InversesOfRunsUndo }
{}

/// Each loop is the outer loop of a face or a ring. Vertices less edges, plus faces, less rings: mvfs and mfkrh add 2,
/// kvfs and kfmrh take 2, and the other operators keep it. (The Euler-Poincaré formula `v - e + f = 2 (s - h) + r`, over
/// shells s, handles h and rings r.)
pub fn euler_number_grows()
    ensures loops { LoopsAreOuterOrRings }
    ensures grows { EulerNumberGrows }
{}
