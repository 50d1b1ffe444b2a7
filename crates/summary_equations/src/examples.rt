//! Worked shapes: which bits their least solutions have.

ghost use Rattle.flow_graph.specs.Reversals.{reversed_shape, reversed_transfer, complemented_transfer};
ghost use Rattle.flow_graph.specs.Examples.{two_calls, earlier_definition, later_definition, two_prints, live_first, recursive_procedure};
ghost use Rattle.flow_graph.specs.Examples.{inner_definition, recursive_main, only_definition, value_at_entry, endless_callee, sum_expression};
ghost use Rattle.flow_graph.specs.Examples.{several_callees, outer_definition, inner_of_first};
ghost use Rattle.summary_equations.specs.Equations.{HasFlag, IsInSolution};

/// The later of two definitions reaches the point after the second call, and not the point after the first.
pub fn return_site_examples()
    ensures later_after_second_call { IsInSolution two_calls later_definition 5 }
    ensures later_not_after_first_call { ¬ (IsInSolution two_calls later_definition 2) }
    ensures earlier_after_first_call { IsInSolution two_calls earlier_definition 2 }
    ensures earlier_not_after_second_call { ¬ (IsInSolution two_calls earlier_definition 5) }
    ensures earlier_in_callee { IsInSolution two_calls earlier_definition 8 }
    ensures later_in_callee { IsInSolution two_calls later_definition 8 }
{}

/// A variable is live before the call whose return leads to its use, and in the callee, but not before the other call.
pub fn backward_site_examples()
    ensures before_first_call { IsInSolution (reversed_shape two_prints) (reversed_transfer live_first) 0 }
    ensures in_callee { IsInSolution (reversed_shape two_prints) (reversed_transfer live_first) 5 }
    ensures not_before_second_call { ¬ (IsInSolution (reversed_shape two_prints) (reversed_transfer live_first) 2) }
{}

/// A call preserves what one of its callees preserves.
pub fn several_callees_examples()
    ensures outer_after_call { IsInSolution several_callees outer_definition 2 }
    ensures outer_not_after_inner { ¬ (IsInSolution several_callees outer_definition 5) }
    ensures inner_after_call { IsInSolution several_callees inner_of_first 2 }
    ensures inner_not_in_second { ¬ (IsInSolution several_callees inner_of_first 7) }
{}

/// Summaries go through recursive calls, and what the boundary has enters at the beginning alone.
pub fn recursion_examples()
    ensures inner_after_inner_call { IsInSolution recursive_procedure inner_definition 6 }
    ensures inner_not_before_inner_call { ¬ (IsInSolution recursive_procedure inner_definition 5) }
    ensures definition_at_beginning { IsInSolution recursive_main only_definition 0 }
    ensures entry_value_after_test { IsInSolution recursive_main value_at_entry 3 }
    ensures entry_value_not_before_call { ¬ (IsInSolution recursive_main value_at_entry 2) }
{}

/// Where a callee never returns, the points after its call have no flag, and a must problem has everything there.
pub fn endless_callee_examples()
    ensures callee_has_flag { HasFlag endless_callee 3 }
    ensures after_call_has_none { ¬ (HasFlag endless_callee 1) }
    ensures available_without_path { ¬ (IsInSolution endless_callee (complemented_transfer sum_expression) 1) }
    ensures not_available_at_beginning { IsInSolution endless_callee (complemented_transfer sum_expression) 0 }
    ensures no_backward_flag { ¬ (HasFlag (reversed_shape endless_callee) 0) }
    ensures backward_flag { HasFlag (reversed_shape endless_callee) 4 }
    ensures busy_without_path { ¬ (IsInSolution (reversed_shape endless_callee) (complemented_transfer (reversed_transfer sum_expression)) 0) }
    ensures busy_after_call { ¬ (IsInSolution (reversed_shape endless_callee) (complemented_transfer (reversed_transfer sum_expression)) 1) }
    ensures busy_in_callee { ¬ (IsInSolution (reversed_shape endless_callee) (complemented_transfer (reversed_transfer sum_expression)) 4) }
    ensures not_busy_at_end { IsInSolution (reversed_shape endless_callee) (complemented_transfer (reversed_transfer sum_expression)) 2 }
{}
