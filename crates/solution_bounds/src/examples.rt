//! Worked bounds: which bits they settle, and one that they leave open.

ghost use Rattle.summary_equations.specs.Equations.{Brought, IsInSolution};
ghost use Rattle.summary_equations.specs.Laws.{Passes};
ghost use Rattle.solution_bounds.specs.Bounds.{is_in_values, IsUpperBound, IsLowerBound};
ghost use Rattle.solution_bounds.specs.Examples.{nested_calls, values_above, lasting_definition, lasting_above, lasting_below, killed_definition};
ghost use Rattle.solution_bounds.specs.Examples.{killed_above, inner_definition, inner_above, inner_below, beginning_value, calls_in_turn};
ghost use Rattle.solution_bounds.specs.Examples.{first_definition};

/// A definition that no callee kills: both bounds have it behind the call and lack it at the beginning, and so does the solution.
pub fn settled_examples()
    ensures upper { IsUpperBound nested_calls lasting_definition (values_above lasting_above) }
    ensures lower { IsLowerBound nested_calls lasting_definition lasting_below }
    ensures both_after_call { Passes (is_in_values nested_calls lasting_below) 2 × Passes (is_in_values nested_calls (values_above lasting_above)) 2 }
    ensures after_call { IsInSolution nested_calls lasting_definition 2 }
    ensures not_at_beginning { ¬ (IsInSolution nested_calls lasting_definition 0) }
{}

/// A definition of a callee's callee comes through the procedure between them, which is outside.
pub fn through_outside_examples()
    ensures upper { IsUpperBound nested_calls inner_definition (values_above inner_above) }
    ensures lower { IsLowerBound nested_calls inner_definition inner_below }
    ensures both_after_call { Passes (is_in_values nested_calls inner_below) 2 × Passes (is_in_values nested_calls (values_above inner_above)) 2 }
    ensures after_call { IsInSolution nested_calls inner_definition 2 }
    ensures not_before_call { ¬ (IsInSolution nested_calls inner_definition 1) }
{}

/// A definition that the callee's callee kills: the quotient has it behind the call, since it takes calls of procedures outside to preserve
/// all, and the solution lacks it. So no values below have it, and it is left open.
pub fn open_examples()
    ensures upper { IsUpperBound nested_calls killed_definition (values_above killed_above) }
    ensures upper_after_call { Passes (is_in_values nested_calls (values_above killed_above)) 2 }
    ensures not_after_call { ¬ (IsInSolution nested_calls killed_definition 2) }
{}

/// A value at the beginning is brought to the callee's callee by a tree of calls, and so is in the set of each point there.
pub fn tree_examples()
    ensures brought { Brought nested_calls beginning_value 2 }
    ensures at_end { IsInSolution nested_calls beginning_value 6 }
{}

/// A definition of one callee is brought to the next one.
pub fn turn_examples()
    ensures brought { Brought calls_in_turn first_definition 2 }
    ensures not_to_first { ¬ (Brought calls_in_turn first_definition 1) }
{}
