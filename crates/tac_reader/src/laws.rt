//! Laws of the definitions: each is the clause of a function without a body.

ghost use Rattle.tac_reader.specs.Laws.{LargeLimitsAcceptMore, ListingsReadBack, ProgramsAreSound, ProgramsAreWithin};
ghost use Rattle.tac_reader.specs.Laws.{SignsDiffer, SignsTellOperators, StatementsAreSpelled, StatementsKeepTheirWords};

/// Each of the operators is told by its sign, and no two have one sign.
pub fn signs_tell_operators()
    ensures operators { SignsTellOperators }
    ensures differ { SignsDiffer }
{}

/// Each statement of the program of a text that is not refused has the words that stand in the text:
/// nothing in it stands for what is not there.
pub fn statements_keep_their_words()
    ensures { StatementsKeepTheirWords }
{}

/// The program of a text that is not refused is sound: each number in it leads to what is there.
pub fn programs_are_sound()
    ensures { ProgramsAreSound }
{}

/// The program of a text that is not refused has no more procedures than the limits allow that the
/// text is read by.
pub fn programs_are_within()
    ensures { ProgramsAreWithin }
{}

/// A text that is accepted within the standard limits is accepted within the large ones, and its
/// program is the same.
pub fn large_limits_accept_more()
    ensures { LargeLimitsAcceptMore }
{}

/// The bytes of a statement's span have its tokens and nothing else.
pub fn statements_are_spelled()
    ensures { StatementsAreSpelled }
{}

/// The listing of a text's program, where it is within the limit of a text, is a text of the same
/// program but for spans. It is accepted within the limits that the text is.
pub fn listings_read_back()
    ensures { ListingsReadBack }
{}
