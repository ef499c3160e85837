//! The laws of glues as commands. Each function does nothing: its contract is what is proved, over every machine.

ghost use Rattle.gluing.specs.Calls.{GluesAreCalls};
ghost use Rattle.gluing.specs.Measures.{GluedSolid, OthersThanGlued};

/// After a glue that isn't refused, the solid of the first face has the six volumes that the two solids had together. Every solid that
/// wasn't glued keeps its own.
#[tactic(auto, using(gluing_laws::proofs::FromConditions::glue_adds, gluing_laws::proofs::FromConditions::glue_keeps_others))]
pub fn glue_measures()
    ensures solid { GluedSolid }
    ensures others { OthersThanGlued }
{}

/// A glue that isn't refused is a call of a history: accepted operators make its model.
pub fn glues_are_calls()
    ensures { GluesAreCalls }
{}
