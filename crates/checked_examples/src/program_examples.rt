//! Worked programs: their points, edges, bits, gen, kill and may forms, each checked by computing it.

ghost use Rattle.std.specs.Prelude.{◌≡◌, true, false, Some, None, [], ◌∷◌, map};
ghost use Rattle.flow_graph.specs.Analyses.{main_procedure};
ghost use Rattle.flow_graph.specs.Problems.{may_shape, may_transfer};
ghost use Rattle.flow_graph.specs.Edges.{edges_from};
ghost use Rattle.flow_graph.specs.Examples.{two_calls, earlier_definition, later_definition, recursive_procedure, inner_definition, recursive_main};
ghost use Rattle.flow_graph.specs.Examples.{only_definition, value_at_entry, endless_callee, sum_expression, two_prints, live_first, endless_loop};
ghost use Rattle.flow_graph.specs.Examples.{live_in_loop, several_callees, outer_definition, inner_of_first, one_call, uncalled_caller};
ghost use Rattle.flow_graph.specs.Paths.{root};
ghost use Rattle.flow_graph.specs.Points.{points, point_count, place_of, point_of, entry_point, end_point, kind_at};
ghost use Rattle.checked_examples.specs.ProgramExamples.{calls_twice, calls_itself, adds_to_itself, calls_endless, may_loop, calls_main};
ghost use Rattle.checked_examples.specs.ProgramExamples.{computes_twice, prints_between_calls, calls_either, calls_several, calls_once};
ghost use Rattle.checked_examples.specs.ProgramExamples.{uncalled_procedure_calls, main_comes_last, each_kind, repeats_expressions, gen_at, kill_at};
ghost use Rattle.checked_examples.specs.ProgramExamples.{boundary_of, IsShapeOf, IsTransferOf};
ghost use Rattle.flow_graph.specs.Universes.{definitions, expressions, evaluated_at, bits};
ghost use Rattle.flow_graph.specs.declared.expression.Expr.TheVariants.{Unary, Binary};
ghost use Rattle.flow_graph.specs.declared.analysis.Analysis.TheVariants.{Reach, Live, Avail, Busy};
ghost use Rattle.flow_graph.specs.declared.edge.Edge.TheVariants.{Step, Call, Ret};
ghost use Rattle.tac_program.specs.declared.program.Op.TheVariants.{Plus, Minus};
ghost use Rattle.tac_program.specs.declared.program.Operand.TheVariants.{Variable, Number};

/// Points are numbered through, procedures in text order, each up to its end.
pub fn point_examples()
    ensures how_many { point_count calls_itself ≡ 8 }
    ensures first { place_of calls_itself 0 ≡ record { procedure = 0; place = 0 } }
    ensures end_of_main { place_of calls_itself 3 ≡ record { procedure = 0; place = 3 } }
    ensures of_next_procedure { place_of calls_itself 4 ≡ record { procedure = 1; place = 0 } }
    ensures last { place_of calls_itself 7 ≡ record { procedure = 1; place = 3 } }
    ensures and_back { point_of calls_itself 1 3 ≡ 7 }
    ensures entries { map (entry_point calls_several) (0 ∷ 1 ∷ 2 ∷ 3 ∷ []) ≡ 0 ∷ 3 ∷ 4 ∷ 5 ∷ [] }
    ensures ends { map (end_point calls_several) (0 ∷ 1 ∷ 2 ∷ 3 ∷ []) ≡ 2 ∷ 3 ∷ 4 ∷ 5 ∷ [] }
    ensures no_statement_at_end { kind_at calls_itself 3 ≡ None }
    ensures main_by_name { main_procedure main_comes_last ≡ 1 }
{}

/// The edges out of a recursive procedure, whose end leads to both sites of its calls.
pub fn recursive_edges()
    ensures at_test { edges_from calls_itself 4 ≡ Step 4 5 ∷ Step 4 7 ∷ [] }
    ensures at_call { edges_from calls_itself 5 ≡ Call 5 5 4 ∷ [] }
    ensures at_end { edges_from calls_itself 7 ≡ Ret 1 7 2 ∷ Ret 5 7 6 ∷ [] }
    ensures at_end_of_main { edges_from calls_itself 3 ≡ [] }
{}

/// Calls of several procedures, in the order in which they are listed, and the returns in the order of sites.
pub fn several_callees_edges()
    ensures three_callees { edges_from calls_several 0 ≡ Call 0 0 3 ∷ Call 0 0 4 ∷ Call 0 0 5 ∷ [] }
    ensures as_listed { edges_from calls_several 1 ≡ Call 1 1 4 ∷ Call 1 1 3 ∷ [] }
    ensures two_sites { edges_from calls_several 3 ≡ Ret 0 3 1 ∷ Ret 1 3 2 ∷ [] }
    ensures one_site { edges_from calls_several 5 ≡ Ret 0 5 1 ∷ [] }
{}

/// Steps of jumps and tests; a test whose two places are one has one edge.
pub fn step_examples()
    ensures return_steps_to_end { edges_from main_comes_last 0 ≡ Step 0 2 ∷ [] }
    ensures one_edge { edges_from main_comes_last 3 ≡ Step 3 4 ∷ [] }
    ensures comparison { edges_from main_comes_last 4 ≡ Step 4 5 ∷ Step 4 6 ∷ [] }
    ensures negated_test { edges_from main_comes_last 6 ≡ Step 6 7 ∷ Step 6 4 ∷ [] }
    ensures jump { edges_from may_loop 4 ≡ Step 4 3 ∷ [] }
{}

/// The shapes on which paths are worked are those of programs, in all their fields.
pub fn shape_examples()
    ensures two_calls { IsShapeOf two_calls calls_twice }
    ensures recursive_procedure { IsShapeOf recursive_procedure calls_itself }
    ensures recursive_main { IsShapeOf recursive_main calls_main }
    ensures endless_callee { IsShapeOf endless_callee calls_endless }
    ensures two_prints { IsShapeOf two_prints prints_between_calls }
    ensures endless_loop { IsShapeOf endless_loop may_loop }
    ensures several_callees { IsShapeOf several_callees calls_either }
    ensures one_call { IsShapeOf one_call calls_once }
    ensures uncalled_caller { IsShapeOf uncalled_caller uncalled_procedure_calls }
{}

/// The transfers on which paths are worked are those of bits of these programs.
pub fn transfer_examples()
    ensures earlier_definition { IsTransferOf earlier_definition calls_twice Reach 1 }
    ensures later_definition { IsTransferOf later_definition calls_twice Reach 2 }
    ensures inner_definition { IsTransferOf inner_definition calls_itself Reach 2 }
    ensures only_definition { IsTransferOf only_definition calls_main Reach 1 }
    ensures value_at_entry { IsTransferOf value_at_entry calls_main Reach 0 }
    ensures sum_expression { IsTransferOf sum_expression calls_endless Busy 0 }
    ensures live_first { IsTransferOf live_first prints_between_calls Live 0 }
    ensures live_in_loop { IsTransferOf live_in_loop may_loop Live 0 }
    ensures outer_definition { IsTransferOf outer_definition calls_either Reach 1 }
    ensures inner_of_first { IsTransferOf inner_of_first calls_either Reach 2 }
{}

/// Variables, definitions and expressions by number.
pub fn number_examples()
    ensures of_two_variables { definitions adds_to_itself ≡ (0, None) ∷ (1, None) ∷ (0, Some 0) ∷ [] }
    ensures one_expression { expressions adds_to_itself ≡ Binary (Variable 0) Plus (Variable 1) ∷ [] }
    ensures how_many { map (bits computes_twice) (Reach ∷ Live ∷ Avail ∷ Busy ∷ []) ≡ 7 ∷ 4 ∷ 1 ∷ 1 ∷ [] }
    ensures in_text_order { definitions computes_twice ≡ (0, None) ∷ (1, None) ∷ (2, None) ∷ (3, None) ∷ (0, Some 0) ∷ (3, Some 2) ∷ (1, Some 5)
        ∷ [] }
    ensures each_once { expressions repeats_expressions ≡ Binary (Variable 1) Plus (Variable 2) ∷ Binary (Variable 2) Plus (Variable 1)
        ∷ Binary (Number 7) Minus (Variable 1) ∷ Unary Minus (Variable 1) ∷ [] }
    ensures evaluated { map (evaluated_at repeats_expressions) (points repeats_expressions) ≡ Some 0 ∷ Some 1 ∷ Some 2 ∷ Some 2 ∷ Some 3 ∷ Some 0
        ∷ None ∷ [] }
{}

/// Definitions generated and killed by each kind of statement.
pub fn reach_examples()
    ensures generated { map (gen_at each_kind Reach) (points each_kind) ≡ (2 ∷ []) ∷ (3 ∷ []) ∷ (4 ∷ []) ∷ (5 ∷ []) ∷ (6 ∷ []) ∷ [] ∷ [] ∷ [] ∷ []
        ∷ [] ∷ [] ∷ [] ∷ [] ∷ [] ∷ [] }
    ensures killed { map (kill_at each_kind Reach) (points each_kind) ≡ (0 ∷ 3 ∷ 4 ∷ 5 ∷ 6 ∷ []) ∷ (0 ∷ 2 ∷ 4 ∷ 5 ∷ 6 ∷ []) ∷ (0 ∷ 2 ∷ 3 ∷ 5 ∷ 6 ∷ [])
        ∷ (0 ∷ 2 ∷ 3 ∷ 4 ∷ 6 ∷ []) ∷ (0 ∷ 2 ∷ 3 ∷ 4 ∷ 5 ∷ []) ∷ [] ∷ [] ∷ [] ∷ [] ∷ [] ∷ [] ∷ [] ∷ [] ∷ [] ∷ [] }
    ensures boundary { boundary_of each_kind Reach ≡ 0 ∷ 1 ∷ [] }
{}

/// Variables read and written by each kind of statement.
pub fn live_examples()
    ensures generated { map (gen_at each_kind Live) (points each_kind) ≡ (1 ∷ []) ∷ (1 ∷ []) ∷ (0 ∷ 1 ∷ []) ∷ [] ∷ [] ∷ (0 ∷ []) ∷ (0 ∷ [])
        ∷ (0 ∷ 1 ∷ []) ∷ (1 ∷ []) ∷ [] ∷ [] ∷ [] ∷ [] ∷ [] ∷ [] }
    ensures killed { map (kill_at each_kind Live) (points each_kind) ≡ (0 ∷ []) ∷ (0 ∷ []) ∷ (0 ∷ []) ∷ (0 ∷ []) ∷ (0 ∷ []) ∷ [] ∷ [] ∷ [] ∷ [] ∷ []
        ∷ [] ∷ [] ∷ [] ∷ [] ∷ [] }
    ensures boundary { boundary_of each_kind Live ≡ [] }
{}

/// Expressions made available, `-y`, `x + y` and `1 + 2`, and those with a written operand.
pub fn avail_examples()
    ensures generated { map (gen_at each_kind Avail) (points each_kind) ≡ [] ∷ (0 ∷ []) ∷ [] ∷ (2 ∷ []) ∷ [] ∷ [] ∷ [] ∷ [] ∷ [] ∷ [] ∷ [] ∷ [] ∷ []
        ∷ [] ∷ [] }
    ensures killed { map (kill_at each_kind Avail) (points each_kind) ≡ (1 ∷ []) ∷ (1 ∷ []) ∷ (1 ∷ []) ∷ (1 ∷ []) ∷ (1 ∷ []) ∷ [] ∷ [] ∷ [] ∷ [] ∷ []
        ∷ [] ∷ [] ∷ [] ∷ [] ∷ [] }
    ensures boundary { boundary_of each_kind Avail ≡ [] }
{}

/// Expressions evaluated, and those with a written operand that are not.
pub fn busy_examples()
    ensures generated { map (gen_at each_kind Busy) (points each_kind) ≡ [] ∷ (0 ∷ []) ∷ (1 ∷ []) ∷ (2 ∷ []) ∷ [] ∷ [] ∷ [] ∷ [] ∷ [] ∷ [] ∷ [] ∷ []
        ∷ [] ∷ [] ∷ [] }
    ensures killed { map (kill_at each_kind Busy) (points each_kind) ≡ (1 ∷ []) ∷ (1 ∷ []) ∷ [] ∷ (1 ∷ []) ∷ (1 ∷ []) ∷ [] ∷ [] ∷ [] ∷ [] ∷ [] ∷ []
        ∷ [] ∷ [] ∷ [] ∷ [] }
    ensures boundary { boundary_of each_kind Busy ≡ [] }
{}

/// The may forms of `x = x + y`: available expressions have gen, very busy ones kill, and both the whole boundary.
pub fn may_form_examples()
    ensures avail_gen { (may_transfer adds_to_itself Avail 0).gen 0 1 ≡ true }
    ensures avail_kill { (may_transfer adds_to_itself Avail 0).kill 0 1 ≡ false }
    ensures avail_boundary { (may_transfer adds_to_itself Avail 0).boundary ≡ true }
    ensures avail_edges { (may_shape adds_to_itself Avail).edges ≡ Step 0 1 ∷ [] }
    ensures busy_gen { (may_transfer adds_to_itself Busy 0).gen 1 0 ≡ false }
    ensures busy_kill { (may_transfer adds_to_itself Busy 0).kill 1 0 ≡ true }
    ensures busy_boundary { (may_transfer adds_to_itself Busy 0).boundary ≡ true }
    ensures busy_edges { (may_shape adds_to_itself Busy).edges ≡ Step 1 0 ∷ [] }
    ensures busy_root { root (may_shape adds_to_itself Busy) ≡ 1 }
    ensures reach_boundary { (may_transfer adds_to_itself Reach 1).boundary ≡ true }
    ensures live_reversed { (may_shape calls_main Live).edges ≡ Step 1 0 ∷ Step 3 0 ∷ Step 2 1 ∷ Ret 2 0 2 ∷ Step 4 3 ∷ Call 2 3 4 ∷ [] }
{}
