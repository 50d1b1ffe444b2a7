//! Worked programs with doubt, and with doubt on executions, each checked by computing it.

ghost use Rattle.std.specs.Prelude.{[], ◌∷◌};
ghost use Rattle.flow_graph.specs.Examples.{endless_loop, live_in_loop, printed_in_loop, uncalled_caller};
ghost use Rattle.flow_graph.specs.Paths.{HasPath, SomeBackwardPathHas};
ghost use Rattle.flow_graph.specs.Runs.{CallsReturn, IsDoubtful};
ghost use Rattle.flow_graph.specs.WellFormed.{IsWellFormed};
ghost use Rattle.flow_graph.specs.declared.edge.Edge.TheVariants.{Step, Call, Ret};
ghost use Rattle.execution_laws.specs.Examples.{uncalled_endless, unreached_loop};
ghost use Rattle.execution_laws.specs.Executions.{IsDoubtfulOnExecutions, IsReadBehind};

/// A procedure that nobody calls casts doubt on those that it calls, and none on executions: no execution returns to it.
pub fn uncalled_procedure_examples()
    ensures never_reached { ¬ (HasPath uncalled_endless 6) }
    ensures before_call { IsDoubtful uncalled_endless 1 }
    ensures at_end_of_callee { IsDoubtful uncalled_endless 4 }
    ensures not_before_call { ¬ (IsDoubtfulOnExecutions uncalled_endless 1) }
    ensures not_at_end_of_callee { ¬ (IsDoubtfulOnExecutions uncalled_endless 4) }
    ensures not_where_no_execution_is { ¬ (IsDoubtfulOnExecutions uncalled_endless 6) }
    ensures caller_that_ends { IsDoubtful uncalled_caller 1 }
    ensures not_by_caller_that_ends { ¬ (IsDoubtfulOnExecutions uncalled_caller 1) }
    ensures well_formed { IsWellFormed uncalled_endless }
    ensures calls_return { CallsReturn uncalled_endless }
{}

/// So does a call that is not reached before a loop without end.
pub fn unreached_loop_examples()
    ensures never_reached { ¬ (HasPath unreached_loop 4) }
    ensures before_call { IsDoubtful unreached_loop 1 }
    ensures not_before_call { ¬ (IsDoubtfulOnExecutions unreached_loop 1) }
    ensures well_formed { IsWellFormed unreached_loop }
    ensures calls_return { CallsReturn unreached_loop }
{}

/// A loop that is reached casts doubt on what leads into it: the variable is not live before it and is read in it.
pub fn reached_loop_examples()
    ensures before_loop { IsDoubtfulOnExecutions endless_loop 1 }
    ensures in_loop { IsDoubtfulOnExecutions endless_loop 4 }
    ensures at_return { ¬ (IsDoubtfulOnExecutions endless_loop 2) }
    ensures not_live_before_loop { ¬ (SomeBackwardPathHas endless_loop live_in_loop 1) }
    ensures read_in_loop { IsReadBehind endless_loop printed_in_loop 1 }
{}
