//! Laws of the equations: each is the clause of a function without a body.
//!
//! The path theorem, that their least solution is the meet over all valid paths, has four claims, which stand here whole:
//! `summaries_are_paths`, `entries_are_paths`, `solution_is_meet` and `reversal_and_complement_carry_the_meet`.

ghost use Rattle.flow_graph.specs.PathLaws.{MatchedReturnsLeaveTheirCallee, CalleePathsJoin, ValidPathsSplit};
ghost use Rattle.summary_equations.specs.Laws.{SummariesArePaths, EntriesArePaths, SolutionIsMeet, ForwardMustIsComplement, BackwardFlagsAreReversed};
ghost use Rattle.summary_equations.specs.Laws.{BackwardMayIsReversed, BackwardMustIsReversedComplement, SolutionIsClosed, ReachedIsLeast};
ghost use Rattle.summary_equations.specs.Laws.{PreservedIsLeast};
ghost use Rattle.summary_equations.specs.Laws.{GeneratedIsLeast, EnteredIsLeast, BroughtIsLeast, BitsAreApart, SolutionIsDecided, MeetsAreDecided};
ghost use Rattle.summary_equations.specs.Laws.{BackwardMeetsAreDecided, FlagsAreSolutions, MayTablesAreSolutions, MustTablesAreSolutions};
ghost use Rattle.summary_equations.specs.Laws.{TablesAreDecided};

/// On a valid path a return that matches a call leaves from the callee that the call entered.
pub fn matched_returns_leave_their_callee()
    ensures { MatchedReturnsLeaveTheirCallee }
{}

/// Reached, preserved and generated at a point: some matched path from its procedure's entry exists, preserves the bit, generates the bit. A
/// matched path of a callee, put between the call and the return of one site, is matched.
pub fn summaries_are_paths()
    ensures summaries { SummariesArePaths }
    ensures callee { CalleePathsJoin }
{}

/// Entered and brought of a procedure: some valid path enters it, and one that does has the bit in its value. A path is
/// valid exactly where it splits at its last open call.
pub fn entries_are_paths()
    ensures entries { EntriesArePaths }
    ensures split { ValidPathsSplit }
{}

/// The least solution of a forward may problem is its meet over valid paths: a flag exactly where some valid path exists, a
/// bit exactly where some valid path has it in its value.
pub fn solution_is_meet()
    ensures { SolutionIsMeet }
{}

/// The flags and sets of a backward problem are those of the reversed one, and the sets of a must problem are what the
/// complemented one has not.
pub fn reversal_and_complement_carry_the_meet()
    ensures forward_must { ForwardMustIsComplement }
    ensures backward_flags { BackwardFlagsAreReversed }
    ensures backward_may { BackwardMayIsReversed }
    ensures backward_must { BackwardMustIsReversedComplement }
{}

/// The families are closed under the clauses of the equations.
pub fn solution_is_closed()
    ensures { SolutionIsClosed }
{}

/// Anything closed under the clauses includes the least solution.
pub fn solution_is_least()
    ensures reached { ReachedIsLeast }
    ensures preserved { PreservedIsLeast }
    ensures generated { GeneratedIsLeast }
    ensures entered { EnteredIsLeast }
    ensures brought { BroughtIsLeast }
{}

/// A bit of the solution rests on its own gen, kill and boundary alone.
pub fn bits_are_apart()
    ensures { BitsAreApart }
{}

/// The least solution is decided at each point, and so are the flags and meets of a well-formed problem.
pub fn solution_is_decided()
    ensures solution { SolutionIsDecided }
    ensures forward { MeetsAreDecided }
    ensures backward { BackwardMeetsAreDecided }
{}

/// The tables and flags of a program's four analyses are the least solutions of their may forms, for a must analysis the
/// complement; and they are decided.
pub fn tables_are_solutions()
    ensures flags { FlagsAreSolutions }
    ensures may { MayTablesAreSolutions }
    ensures must { MustTablesAreSolutions }
    ensures decided { TablesAreDecided }
{}
