//! Laws of witnesses: each is the clause of a function without a body.

ghost use Rattle.flow_why.specs.Laws.{ForwardWitnessesAreOfPrograms, BackwardWitnessesAreOfPrograms};

/// A witness unfolds to valid paths of the program itself, in its own direction: they have the bit where the analysis is over some
/// path, and lack it where it is over every path.
pub fn witnesses_are_of_programs()
    ensures forward { ForwardWitnessesAreOfPrograms }
    ensures backward { BackwardWitnessesAreOfPrograms }
{}
