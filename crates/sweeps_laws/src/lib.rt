#![tactic(auto)]
//! The laws of laminas, blocks and sweeps: their operators are accepted in turn and together make the model (`operators_make_lamina`,
//! `operators_make_blocks`, `sweeps_make_prisms`); and what they measure (`sweeps_add`, `blocks_measure`, `laminas_measure`). Each function
//! does nothing: its contract is what is proved, over every sound model in which the command's conditions hold.
//!
//! `lamina` and `prism` go operator by operator. `swept` says what becomes of one loop of a face that is swept. The laws of volumes stand
//! beside them.
//!
//! # What is proved
//!
//! From a sound model and true conditions, the operators of a lamina (`operators_make_lamina`), of a block (`operators_make_blocks`) and of
//! a sweep (`sweeps_make_prisms`) are accepted, each in its turn, and together make exactly the model that `shapes` writes down.
//! `sweeps_add`: a sweep adds three times `N . d` to the six volumes of the face's solid, where N is the normal of the face before; this
//! holds for bent faces and faces with rings too. `blocks_measure`: the six volumes of a block are six times the product of its sizes.
//! `laminas_measure`: the six volumes of a lamina are its first point less its second, along the normal of its first face, which is nothing
//! if that face is flat. In each of these every other solid keeps its own.

ghost use Rattle.sweeps_laws.specs.lamina.Laws.{OperatorsAreAccepted, OperatorsMakeLamina, LaminaIsSound, BlocksHaveBases, BasesRise};
ghost use Rattle.sweeps_laws.specs.prism.Laws.{SweepsAreAccepted, SweepsMakePrisms, PrismsAreSound};
ghost use Rattle.sweeps_laws.specs.block.Laws.{BlocksAreAccepted, OperatorsMakeBlocks, BlocksAreSound};
ghost use Rattle.sweeps_laws.specs.Laws.{SweepAdds, SweepKeepsOthers, BlockMeasures, BlockKeepsOthers, LaminaMeasures, FlatLaminasMeasureNothing, LaminaKeepsOthers};

/// No operator of a lamina is refused, together they make it, and the model with it is sound.
pub fn operators_make_lamina()
    ensures accepted { OperatorsAreAccepted }
    ensures made { OperatorsMakeLamina }
    ensures sound { LaminaIsSound }
{}

/// If a block can be made, the lamina of its base can be made too, and then the lamina's first face can be swept up.
pub fn blocks_rise_from_bases()
    ensures base { BlocksHaveBases }
    ensures rise { BasesRise }
{}

/// No operator of a block is refused: those of the lamina of its base, and then those of the sweep. Together they make it, and the
/// model with it is sound.
pub fn operators_make_blocks()
    ensures accepted { BlocksAreAccepted }
    ensures made { OperatorsMakeBlocks }
    ensures sound { BlocksAreSound }
{}

/// If a sweep isn't refused, none of its operators is; they make the prism, and the prism is a sound model.
pub fn sweeps_make_prisms()
    ensures accepted { SweepsAreAccepted }
    ensures made { SweepsMakePrisms }
    ensures sound { PrismsAreSound }
{}

/// A sweep adds to the six volumes of the face's solid three times the normal of the face before, along the vector: six
/// times the volume of the prism. The face may have rings, and it needn't be flat. Every other solid keeps its six volumes.
pub fn sweeps_add()
    ensures adds { SweepAdds }
    ensures others { SweepKeepsOthers }
{}

/// The six volumes of a block are six times the product of its sizes. Every other solid keeps its own.
pub fn blocks_measure()
    ensures product { BlockMeasures }
    ensures others { BlockKeepsOthers }
{}

/// The six volumes of a lamina are its first point less its second, along the normal of its first face: nothing if that face is flat. Every
/// other solid keeps its own.
pub fn laminas_measure()
    ensures difference { LaminaMeasures }
    ensures flat { FlatLaminasMeasureNothing }
    ensures others { LaminaKeepsOthers }
{}
