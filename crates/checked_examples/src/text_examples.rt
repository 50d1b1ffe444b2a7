//! Texts of tables and reports over facts that are written out by hand, checked by computing them.

ghost use Rattle.std.specs.Prelude.{◌≡◌, ◌++◌, false, codes};
ghost use Rattle.checked_examples.specs.ProgramExamples.{calls_twice, adds_to_itself, calls_endless, may_loop};
ghost use Rattle.flow_graph.specs.declared.analysis.Analysis.TheVariants.{Reach, Avail, Busy};
ghost use Rattle.tac_reader.specs.Parses.{program_of};
ghost use Rattle.flow_reports.specs.Reports.{IsSafeToDelete, report_of};
ghost use Rattle.flow_texts.specs.Tables.{table_text_of};
ghost use Rattle.checked_examples.specs.WorkedTexts.{reach_of_two_calls, known_of_sum, known_of_endless_callee, known_of_loop, known_of_branches};

/// Tables: definitions by line and entry, expressions, no bits, and points without a path.
pub fn table_examples()
    ensures definitions { table_text_of calls_twice Reach reach_of_two_calls
        ≡ codes "main 0: a@entry\nmain 1: a@2\nmain 2: a@2\nmain 3: a@2\nmain 4: a@5\nmain 5: a@5\nmain 6: a@5\np 0: a@2, a@5\np 1: a@2, a@5\n" }
    ensures expressions { table_text_of adds_to_itself Busy known_of_sum.busy ≡ codes "main 0: x + y\nmain 1: -\n" }
    ensures no_path { table_text_of calls_endless Avail known_of_endless_callee.avail
        ≡ codes "main 0: -\nmain 1 (no path): b + c\nmain 2 (no path): b + c\nf 0: -\nf 1 (no path): b + c\n" }
{}

/// Reports: unset and dead variables, a statement that is never reached, a doubtful point, a very busy expression.
pub fn report_examples()
    ensures unset_and_dead { report_of adds_to_itself known_of_sum
        ≡ codes "points 2, variables 2, definitions 3, expressions 1\n2: x may be used before it is set\n"
        ++ codes "2: y may be used before it is set\n2: assignment to x is dead\n" }
    ensures never_reached { report_of calls_endless known_of_endless_callee
        ≡ codes "points 5, variables 3, definitions 4, expressions 1\n3: never reached\n" }
    ensures doubtful { report_of may_loop known_of_loop
        ≡ codes "points 6, variables 2, definitions 3, expressions 0\n3: c may be used before it is set\n" }
    ensures very_busy { report_of
        (program_of (codes "proc main\nread b\nread c\nif c goto L\nx = b + c\nprint x\nreturn\nL: y = b + c\nprint y\nend\n")) known_of_branches
        ≡ codes "points 9, variables 4, definitions 8, expressions 1\n4: b + c is very busy\n" }
{}

/// Why doubt is asked: behind line 2 of this loop the variable is not live, and an execution that stays in the loop reads it. So
/// no report is safe that calls the assignment dead, however it comes to that.
pub fn doubt_examples()
    ensures not_live { known_of_loop.live.contains 1 0 ≡ false }
    ensures not_safe { ¬ (IsSafeToDelete may_loop 0 0) }
{}
