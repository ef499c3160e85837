#![tactic(auto)]
//! The laws of the third rewriting of a split: the cycles of a section, and a solid that is opened along one of them, operator by operator.
//! Strips are cut off, copies raised and caps closed. The functions do nothing: their contracts are what is proved. The laws of the cycles
//! hold for every sound model and every list of faces of a solid, those of the openings for every model and every cycle along which a solid
//! can be opened.
//!
//! `cycles`: the edges between the faces above and the others form cycles (`below_halves_are`, `halves_lead_on`, `halves_form_cycles`);
//! this looks at no point. `sections`: one cycle after the other (`other_cycles_stay`, `cycles_open_in_turn`, `caps_have_no_rings`).
//! `strips`, `copies`, `caps`: the three steps along one cycle (`strips_are_cut`, `copies_are_raised`, `strips_make_caps`). `opening`:
//! these three together (`cycles_open_solids`).
//!
//! # What is proved
//!
//! If no vertex is branched, the edges between the faces above and the others form cycles. Each half-edge stands in one of them, and no
//! other section edge meets their vertices. A solid that is opened along one of them is sound and still has the others; so it can be opened
//! along all, after which no edge lies between an upper face and another. `cycles_open_solids`: the operators that open a solid along one
//! such cycle are accepted, each in its turn, and together make exactly the third rewriting for it, which is sound: strips are cut off
//! above the edges, copies are raised at the vertices, and caps are made of the strips.

ghost use Rattle.split_opening_laws.specs.cycles.Laws.{BelowHalvesRise, BelowHalvesAre, AsManyStartAsEnd, OneStartsAndOneEnds, NextBelowPermutes, CyclesCover, CyclesRise, CyclesLeadRound, CyclesAreApart};
ghost use Rattle.split_opening_laws.specs.sections.Laws.{CyclesStay, NumbersStayFree, SectionsCanBeOpened, OpeningsAreSound, OthersCanBeOpened, AllAreOpened, NoneIsTorn, CapsStay, CapsRise};
ghost use Rattle.split_opening_laws.specs.strips.Laws.{StripsAreAccepted, StripsAreCut, StrippedIsSound};
ghost use Rattle.split_opening_laws.specs.copies.Laws.{CopiesAreAccepted, CopiesAreRaised, CopiesAreSound};
ghost use Rattle.split_opening_laws.specs.caps.Laws.{CyclesHaveTwo, CapsAreAccepted, StripsAreJoined, CapsAreMade, CappedAreSound};
ghost use Rattle.split_opening_laws.specs.opening.Laws.{CopiesLeaveStrips, CappedAreOpened, OpeningsAreAccepted, OpeningsOpen, OpenedAreSound};

/// The below halves of a section: which half-edges they are, in the order of their edges.
pub fn below_halves_are()
    ensures rising { BelowHalvesRise }
    ensures members { BelowHalvesAre }
{}

/// As many below halves start at a vertex as end there. If no vertex is branched, one starts and one ends at each end of a section edge,
/// and each below half leads to the next.
pub fn halves_lead_on()
    ensures balanced { AsManyStartAsEnd }
    ensures one { OneStartsAndOneEnds }
    ensures next { NextBelowPermutes }
{}

/// If no vertex is branched, the cycles contain each below half once. Each begins with its least half, and the cycles rise by these. Each
/// leads once round, and no other section edge meets its vertices. No two of their halves start at one vertex.
pub fn halves_form_cycles()
    ensures covering { CyclesCover }
    ensures rising { CyclesRise }
    ensures round { CyclesLeadRound }
    ensures apart { CyclesAreApart }
{}

/// After a solid is opened along one cycle of its section, the other cycles are still such cycles, and the numbers above those that the
/// opening took are free.
pub fn other_cycles_stay()
    ensures cycles { CyclesStay }
    ensures numbers { NumbersStayFree }
{}

/// If no vertex is branched and numbers are left, a solid can be opened along the cycles of its section: along the first, which leaves a
/// sound model, then along the others, and so along all of them. Then no edge is left between an upper face, which is a face above or a cap
/// above, and another face.
pub fn cycles_open_in_turn()
    ensures first { SectionsCanBeOpened }
    ensures sound { OpeningsAreSound }
    ensures others { OthersCanBeOpened }
    ensures all { AllAreOpened }
    ensures parted { NoneIsTorn }
{}

/// The caps that these openings leave have no rings, and if the faces above rise, the caps rise after them.
pub fn caps_have_no_rings()
    ensures next { CapsStay }
    ensures all { CapsRise }
{}

/// Strips are cut off above the edges of a cycle. None of the operators is refused, and they make the model with its strips cut off, which
/// is sound.
pub fn strips_are_cut()
    ensures accepted { StripsAreAccepted }
    ensures cut { StripsAreCut }
    ensures sound { StrippedIsSound }
{}

/// After the strips of a cycle are cut off, copies are raised at its vertices. None of the operators is refused, and they make the model
/// with its copies raised, which is sound.
pub fn copies_are_raised()
    ensures accepted { CopiesAreAccepted }
    ensures raised { CopiesAreRaised }
    ensures sound { CopiesAreSound }
{}

/// Two caps are made of the strips along a cycle. None of the operators is refused, they leave the two caps, and that is a sound model.
pub fn strips_make_caps()
    ensures two { CyclesHaveTwo }
    ensures accepted { CapsAreAccepted }
    ensures joined { StripsAreJoined }
    ensures made { CapsAreMade }
    ensures sound { CappedAreSound }
{}

/// A solid is opened along a cycle along which it can be opened. None of the operators is refused, they leave it open, and that is a sound
/// model.
pub fn cycles_open_solids()
    ensures strips { CopiesLeaveStrips }
    ensures capped { CappedAreOpened }
    ensures accepted { OpeningsAreAccepted }
    ensures made { OpeningsOpen }
    ensures sound { OpenedAreSound }
{}
