//! Laws of the definitions: each is the clause of a function without a body.

ghost use Rattle.tac_faults.specs.Laws.{FirstIsTheReaders, NoneIsAccepted};

/// The first fault that is found is the one for which the reader refuses the text.
pub fn first_is_the_readers()
    ensures { FirstIsTheReaders }
{}

/// No fault is found exactly where the reader accepts the text.
pub fn none_is_accepted()
    ensures { NoneIsAccepted }
{}
