//! Laws of paths and runs: each is the clause of a function without a body.

ghost use Rattle.flow_graph.specs.PathLaws.{ValidPathsReverse, ValuesReverse, MeetsReverse, ReversalUndoesItself, ReversedIsWellFormed};
ghost use Rattle.flow_graph.specs.PathLaws.{TransferComplement, ValuesComplement, MeetsComplement, ComplementOfReversed};
ghost use Rattle.flow_graph.specs.PathLaws.{MatchedReturnsLeaveTheirCallee, StepsJoin, CalleePathsJoin, CallsEnter, ValidPathsSplit, PathsCompose};
ghost use Rattle.flow_graph.specs.PathLaws.{FrontsAreValid, SameEdgesSamePaths, SameEdgesSameBackwardPaths};
ghost use Rattle.flow_graph.specs.RunLaws.{ContinuationsAreRuns, FrontsOfRunsAreRuns, WhatFinishesIsNotDoubtful, UndoubtedFinishes, RunsExtend};
ghost use Rattle.flow_graph.specs.RunLaws.{UndoubtedRunsExtend, DeadIsSafe};

/// A backward valid path, walked backwards, is a forward valid path of the reversed problem, with the same value; and the
/// reversed problem of a well-formed one is well formed.
pub fn paths_reverse()
    ensures paths { ValidPathsReverse }
    ensures values { ValuesReverse }
    ensures meets { MeetsReverse }
    ensures twice { ReversalUndoesItself }
    ensures well_formed { ReversedIsWellFormed }
{}

/// The complemented problem gives each path the opposite value, so a must problem is a may problem's complement.
pub fn transfers_complement()
    ensures transfer { TransferComplement }
    ensures values { ValuesComplement }
    ensures meets { MeetsComplement }
    ensures reversed { ComplementOfReversed }
{}

/// On a valid path a return that matches a call leaves from the callee that the call entered.
pub fn matched_returns_leave_their_callee()
    ensures { MatchedReturnsLeaveTheirCallee }
{}

/// Paths are joined: a step, a call with its callee's path and its return, or an open call continues a path.
pub fn paths_join()
    ensures step { StepsJoin }
    ensures callee { CalleePathsJoin }
    ensures call { CallsEnter }
{}

/// Paths are split: anywhere, and a valid one at its last open call, into a path by which the last point's procedure is
/// entered and a matched one.
pub fn paths_split()
    ensures anywhere { PathsCompose }
    ensures front { FrontsAreValid }
    ensures last_call { ValidPathsSplit }
{}

/// Problems that agree in their edges, and in gen, kill and boundary, have the same paths and the same meets.
pub fn same_edges_have_same_paths()
    ensures forward { SameEdgesSamePaths }
    ensures backward { SameEdgesSameBackwardPaths }
{}

/// What follows a point on a valid path is a run from it, and so is each beginning of a run.
pub fn valid_paths_continue_as_runs()
    ensures continuation { ContinuationsAreRuns }
    ensures front { FrontsOfRunsAreRuns }
{}

/// A point is not doubtful exactly where each point ahead can finish.
pub fn undoubted_points_finish()
    ensures finishing { WhatFinishesIsNotDoubtful }
    ensures undoubted { UndoubtedFinishes }
{}

/// From a point that is not doubtful each run can be extended to a path to the end of the root's procedure, through its
/// open calls and then its pending returns.
pub fn runs_extend()
    ensures settled { RunsExtend }
    ensures undoubted { UndoubtedRunsExtend }
{}

/// Where a variable is not live at a point that is not doubtful, no run from there reads it before writing it, also where
/// the execution never ends.
pub fn dead_assignments_are_safe()
    ensures { DeadIsSafe }
{}
