//! Laws on the lines of a set in a picture.

ghost use Rattle.checked_examples.specs.LineLaws.{LinesAreTheSet, LinesFit};

/// Each line has at most 60 signs, or one name alone, where what the first begins with is shorter.
pub fn lines_fit()
    ensures { LinesFit }
{}

/// Together the lines are the text of the set.
pub fn lines_are_the_set()
    ensures { LinesAreTheSet }
{}
