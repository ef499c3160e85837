//! The laws of the plain machine. Each function does nothing: its contract is what is proved, over every machine and every history.
ghost use Rattle.undo_journal.specs.Laws.{HeldIsAtThePlace, AcceptedIsAppended, UndoMovesThePlace, RedoMovesThePlace, UndoGivesTheModelBefore, LargerCommandsAreCalls, HistoriesAreConsistent};

/// A machine is a list of copies and a place in it. An accepted command drops the copies after the place and appends one; undo and redo
/// move the place.
pub fn machines_are_copies()
    ensures held { HeldIsAtThePlace }
    ensures appended { AcceptedIsAppended }
    ensures undo { UndoMovesThePlace }
    ensures redo { RedoMovesThePlace }
{}

/// After an accepted command, undo gives the model before it, and a redo after that gives the model after it.
pub fn undo_gives_the_model_before()
    ensures { UndoGivesTheModelBefore }
{}

/// Whatever calls are made, accepted or refused: the first model is the empty one, each model is sound, and accepted operators make each
/// next model. As many undos as can be made lead to the empty model, and as many redos to the last one. A larger command is such a call if
/// accepted operators make its model.
pub fn histories_are_consistent()
    ensures larger { LargerCommandsAreCalls }
    ensures consistent { HistoriesAreConsistent }
{}
