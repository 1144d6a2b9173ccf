//! A law of the definitions: the contract of a function that does nothing.

ghost use Rattle.il_edit.specs.Laws.{RemovesWhatWasInserted};

/// Taking out the instruction that was just put in gives the body back, exactly where it was put within the body.
pub fn inserted_and_removed()
    ensures { RemovesWhatWasInserted }
{}
