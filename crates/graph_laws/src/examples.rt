//! Worked shapes: their paths, values and runs, each checked by computing it.

ghost use Rattle.std.specs.Prelude.{◌≡◌, true, false, Some, None, [], ◌∷◌};
ghost use Rattle.flow_graph.specs.Paths.{root, final, IsPath, open_sites_after, IsValidPath, value_after, value_before, open_sites_before};
ghost use Rattle.flow_graph.specs.Paths.{HasBackwardPath, SomeBackwardPathHas, IsBackwardValidPath};
ghost use Rattle.flow_graph.specs.Reversals.{reversed_path, reversed_shape, reversed_transfer, complemented_transfer};
ghost use Rattle.flow_graph.specs.WellFormed.{IsWellFormed};
ghost use Rattle.flow_graph.specs.MatchedPaths.{IsMatchedPath};
ghost use Rattle.flow_graph.specs.Runs.{IsDoubtful, IsRun, run_sites_after, ReadsBeforeWriting, CallsReturn, IsLiveness};
ghost use Rattle.flow_graph.specs.Examples.{two_calls, earlier_definition, later_definition, right_return, wrong_return, two_prints, live_first};
ghost use Rattle.flow_graph.specs.Examples.{out_of_first_call, recursive_procedure, inner_definition, through_recursion, recursive_main};
ghost use Rattle.flow_graph.specs.Examples.{only_definition, value_at_entry, into_main, through_main, endless_callee, sum_expression, endless_loop};
ghost use Rattle.flow_graph.specs.Examples.{printed_in_loop, live_in_loop, several_callees, outer_definition, through_first_callee};
ghost use Rattle.flow_graph.specs.Examples.{through_second_callee, one_call, uncalled_caller};
ghost use Rattle.flow_graph.specs.declared.edge.Edge.TheVariants.{Step, Call, Ret};

/// A path that returns to another site than that of the latest open call is a path, and is not valid.
pub fn return_site_examples()
    ensures right_is_valid { IsValidPath two_calls right_return 5 }
    ensures right_has_later { value_after later_definition right_return false ≡ true }
    ensures right_lacks_earlier { value_after earlier_definition right_return false ≡ false }
    ensures wrong_is_path { IsPath two_calls (root two_calls) wrong_return 2 }
    ensures wrong_is_not_valid { ¬ (IsValidPath two_calls wrong_return 2) }
    ensures wrong_would_have_later { value_after later_definition wrong_return false ≡ true }
{}

/// Backwards too a path goes out to the site of the call by which it came in, and to any site where it began inside.
pub fn backward_site_examples()
    ensures out_is_valid { IsBackwardValidPath two_prints out_of_first_call 5 }
    ensures out_has_first { value_before live_first out_of_first_call false ≡ true }
    ensures in_and_out_is_path { IsPath two_prints 2 (Call 2 2 5 ∷ out_of_first_call) (final two_prints) }
    ensures in_and_out_is_not_valid { ¬ (IsBackwardValidPath two_prints (Call 2 2 5 ∷ out_of_first_call) 2) }
    ensures in_and_out_would_have_first { value_before live_first (Call 2 2 5 ∷ out_of_first_call) false ≡ true }
{}

/// A definition in a recursive procedure reaches the point after the call in an activation around it.
pub fn recursive_procedure_examples()
    ensures is_valid { IsValidPath recursive_procedure through_recursion 6 }
    ensures open_sites { open_sites_after through_recursion (Some []) ≡ Some (1 ∷ []) }
    ensures has_inner { value_after inner_definition through_recursion false ≡ true }
{}

/// Where a call may go to several procedures, each has paths of its own.
pub fn several_callees_examples()
    ensures first_is_valid { IsValidPath several_callees through_first_callee 2 }
    ensures first_lacks_outer { value_after outer_definition through_first_callee false ≡ false }
    ensures second_is_valid { IsValidPath several_callees through_second_callee 2 }
    ensures second_has_outer { value_after outer_definition through_second_callee false ≡ true }
{}

/// A path goes through a recursive call of the root's procedure, and the boundary is not met again there.
pub fn recursive_main_examples()
    ensures into_is_valid { IsValidPath recursive_main into_main 0 }
    ensures into_lacks_boundary { value_after value_at_entry into_main value_at_entry.boundary ≡ false }
    ensures through_is_valid { IsValidPath recursive_main through_main 3 }
    ensures through_is_matched { IsMatchedPath recursive_main 0 through_main 3 }
    ensures through_has_definition { value_after only_definition through_main false ≡ true }
    ensures through_lacks_boundary { value_after value_at_entry through_main value_at_entry.boundary ≡ false }
    ensures no_return_from_root { open_sites_after (Step 0 3 ∷ Step 3 4 ∷ Ret 2 4 3 ∷ []) (Some []) ≡ None }
{}

/// A backward valid path may leave a procedure that it did not enter, and no path leads out of an endless callee.
pub fn endless_callee_examples()
    ensures after_call { IsBackwardValidPath endless_callee (Step 1 2 ∷ []) 1 }
    ensures after_call_has_sum { value_before sum_expression (Step 1 2 ∷ []) false ≡ true }
    ensures out_of_callee { IsBackwardValidPath endless_callee (Ret 0 4 1 ∷ Step 1 2 ∷ []) 4 }
    ensures out_of_callee_sites { open_sites_before (Ret 0 4 1 ∷ Step 1 2 ∷ []) (Some []) ≡ Some (0 ∷ []) }
    ensures none_before_call { ¬ (HasBackwardPath endless_callee 0) }
    ensures none_in_callee { ¬ (HasBackwardPath endless_callee 3) }
{}

/// What leads into an endless loop is doubtful, and so is what leads out of a procedure to a caller that nobody calls.
pub fn doubtful_point_examples()
    ensures before_loop { IsDoubtful endless_loop 1 }
    ensures in_loop { IsDoubtful endless_loop 4 }
    ensures at_return { ¬ (IsDoubtful endless_loop 2) }
    ensures at_end { ¬ (IsDoubtful endless_loop 5) }
    ensures not_live_before_loop { ¬ (SomeBackwardPathHas endless_loop live_in_loop 1) }
    ensures is_liveness { IsLiveness endless_loop live_in_loop printed_in_loop }
    ensures read_in_loop { ReadsBeforeWriting endless_loop printed_in_loop 1 }
    ensures called_once { ¬ (IsDoubtful one_call 1) }
    ensures wrong_return_is_no_run { run_sites_after (Call 4 4 7 ∷ Step 7 8 ∷ Ret 1 8 2 ∷ []) (Some []) ≡ None }
    ensures to_uncalled_run { IsRun uncalled_caller 3 (Step 3 4 ∷ Ret 5 4 6 ∷ []) 6 }
    ensures to_uncalled { IsDoubtful uncalled_caller 4 }
    ensures before_call { IsDoubtful uncalled_caller 1 }
    ensures after_call { ¬ (IsDoubtful uncalled_caller 2) }
{}

/// Reversal and complement of worked paths.
pub fn reversal_examples()
    ensures walked_back { reversed_path (Ret 0 4 1 ∷ Step 1 2 ∷ []) ≡ Step 2 1 ∷ Call 0 1 4 ∷ [] }
    ensures walked_back_is_valid { IsValidPath (reversed_shape endless_callee) (Step 2 1 ∷ Call 0 1 4 ∷ []) 4 }
    ensures walked_back_value { value_after (reversed_transfer sum_expression) (Step 2 1 ∷ Call 0 1 4 ∷ []) false ≡ true }
    ensures complement_value { value_before (complemented_transfer sum_expression) (Step 1 2 ∷ []) true ≡ false }
{}

/// The worked shapes meet what the laws ask for, and one with a step between procedures does not.
pub fn well_formed_examples()
    ensures two_calls { IsWellFormed two_calls }
    ensures recursive_procedure { IsWellFormed recursive_procedure }
    ensures recursive_main { IsWellFormed recursive_main }
    ensures several_callees { IsWellFormed several_callees }
    ensures endless_callee { IsWellFormed endless_callee }
    ensures uncalled_caller { IsWellFormed uncalled_caller }
    ensures calls_return { CallsReturn two_calls }
    ensures step_between_procedures { ¬ (IsWellFormed (record two_calls { edges = Step 0 7 ∷ [] })) }
{}
