#![tactic(auto)]
//! The laws of glues: two solids glued together operator by operator, at a face of each (`glues_make_glued`), and their volumes
//! (`glues_add`). Each function does nothing: its contract is what is proved, over every sound model and every glue that isn't refused.
//!
//! `glue` goes operator by operator. The laws of volumes stand beside it.
//!
//! # What is proved
//!
//! `glues_make_glued`: from a sound model and true conditions, the operators of a glue are accepted, each in its turn, and together make
//! exactly the model that `shapes` writes down, which is sound. `glues_add`: the six volumes of the two solids add, and every other solid
//! keeps its own.

ghost use Rattle.gluing_laws.specs.glue.Laws.{GluesAreAccepted, GluesMakeGlued, GluedAreSound};
ghost use Rattle.gluing_laws.specs.Laws.{GlueAdds, OthersStay};

/// If a glue isn't refused, none of its operators is; they leave the solids glued, and that is a sound model.
pub fn glues_make_glued()
    ensures accepted { GluesAreAccepted }
    ensures made { GluesMakeGlued }
    ensures sound { GluedAreSound }
{}

/// A glue adds the six volumes of the second solid to those of the first: the two faces, which go, lie on one plane and
/// face each other, so together they add nothing. All other solids keep theirs.
pub fn glues_add()
    ensures sum { GlueAdds }
    ensures others { OthersStay }
{}
