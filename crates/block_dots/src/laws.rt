//! Why a picture of blocks can be trusted: each law is the clause of a function without a body.

ghost use Rattle.block_dots.specs.Laws.{BlocksHavePoints, BlocksMeetEquations, EdgesLeadToLeaders, StatementsCompose};

/// Gen and kill of statements in a row make of each set what the statements make of it, one by one: kill as the union of kills, and gen as
/// what is exposed in the direction of the analysis.
pub fn statements_compose()
    ensures { StatementsCompose }
{}

/// The blocks of a procedure have each of its points once, in their order.
pub fn blocks_have_points()
    ensures { BlocksHavePoints }
{}

/// Control goes from a block to the first points of blocks.
pub fn edges_lead_to_leaders()
    ensures { EdgesLeadToLeaders }
{}

/// At a block whose first point has a valid path in the direction of the analysis OUT = gen ∪ (IN − kill) in a forward analysis, and
/// IN = gen ∪ (OUT − kill) in a backward one.
pub fn blocks_meet_equations()
    ensures { BlocksMeetEquations }
{}
