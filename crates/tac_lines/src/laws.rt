//! Laws of the definitions: each is the clause of a function without a body.

ghost use Rattle.tac_lines.specs.LineLaws.{LinesJoin, StatementsAreApart, TokensAreSpelled};

/// The lines of a text, one after another, are the text.
pub fn lines_join()
    ensures { LinesJoin }
{}

/// No words have two rows of the table of statements.
pub fn statements_are_apart()
    ensures { StatementsAreApart }
{}

/// The bytes from a token's start to its stop spell it.
pub fn tokens_are_spelled()
    ensures { TokensAreSpelled }
{}
