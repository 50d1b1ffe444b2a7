//! Laws of every program's graph and of its four problems: each is the clause of a function without a body.

ghost use Rattle.flow_graph.specs.ProgramLaws.{PlacesHavePoints, PointsHavePlaces, EdgesJoinPoints, GraphsAreWellFormed, MayFormsAreWellFormed};
ghost use Rattle.flow_graph.specs.ProgramLaws.{CallsOfProgramsReturn, CallsReturnBehindSites, ReturnsHaveCallsAtSites, LiveIsLiveness};
ghost use Rattle.flow_graph.specs.ProgramLaws.{FlagsAreMayForms, MayTablesAreMayForms, MustTablesAreMayForms, DeadVariablesAreSafe};
ghost use Rattle.flow_graph.specs.ProgramLaws.{StepsHaveStatements, WordsTellBits, WordsAreTheirBits, DummiesComeFirst};

/// Points and places are one to one.
pub fn points_are_places()
    ensures places { PlacesHavePoints }
    ensures points { PointsHavePlaces }
{}

/// Edges join points, and each stands among those of the point that it leaves.
pub fn edges_join_points()
    ensures { EdgesJoinPoints }
{}

/// The graph of a program and its four may forms are well formed, each call has its return, and sites tell both.
pub fn graphs_are_well_formed()
    ensures graph { GraphsAreWellFormed }
    ensures may_forms { MayFormsAreWellFormed }
    ensures returns { CallsOfProgramsReturn }
    ensures behind { CallsReturnBehindSites }
    ensures at { ReturnsHaveCallsAtSites }
{}

/// The tables and flags of the four analyses are those of their may forms.
pub fn tables_are_may_forms()
    ensures flags { FlagsAreMayForms }
    ensures may { MayTablesAreMayForms }
    ensures must { MustTablesAreMayForms }
    ensures steps { StepsHaveStatements }
{}

/// The analysis of live variables is liveness: where a point is not doubtful and a variable is not live there, no run
/// from it reads the variable before writing it.
pub fn dead_variables_are_safe()
    ensures liveness { LiveIsLiveness }
    ensures safe { DeadVariablesAreSafe }
{}

/// The first definitions are the dummies, and each has the number of its variable.
pub fn dummies_come_first()
    ensures { DummiesComeFirst }
{}

/// A word of a set tells each of its bits, and the bits tell the word.
pub fn words_tell_bits()
    ensures bits { WordsTellBits }
    ensures word { WordsAreTheirBits }
{}
