//! Worked lines, each checked by computing it.

ghost use Rattle.std.specs.Prelude.{◌≡◌, codes, Some, None};
ghost use Rattle.flow_lints.specs.Examples.{known_of_early, known_of_uncalled, may_loop, returns_early, uncalled_endless};
ghost use Rattle.flow_lints.specs.Lints.{is_reached};
ghost use Rattle.flow_lints.specs.declared.lint.Lint.TheVariants.{NeverCalled, Told};
ghost use Rattle.flow_reports.specs.declared.remark.Remark.TheVariants.{Dead, NeverReached};
ghost use Rattle.lint_texts.specs.Examples.{a_tac, early_text, empty_text, labelled_text, plain, uncalled_text};
ghost use Rattle.lint_texts.specs.LintTexts.{column_at, count_line, endless_words, lint_line, untold_words};
ghost use Rattle.lint_texts.specs.Starts.{stands_at, told_at};
ghost use Rattle.tac_reader.specs.Parses.{program_of};

/// A procedure that is never called, statements that are never reached and a value that is never used.
pub fn line_examples()
    ensures uncalled { lint_line (a_tac uncalled_text) plain uncalled_endless (is_reached known_of_uncalled) (record { point = 5; lint = NeverCalled 2 })
        ≡ codes "a.tac:9:1: never-called: procedure q is never called\n" }
    ensures stretch { lint_line (a_tac early_text) plain returns_early (is_reached known_of_early) (record { point = 2; lint = Told NeverReached })
        ≡ codes "a.tac:4:1: never-reached: no statement from here to line 5 is ever reached\n" }
    ensures alone { lint_line (a_tac early_text) plain returns_early (is_reached known_of_early) (record { point = 3; lint = Told NeverReached })
        ≡ codes "a.tac:5:1: never-reached: this statement is never reached\n" }
    ensures dead { lint_line (a_tac early_text) plain returns_early (is_reached known_of_early) (record { point = 0; lint = Told (Dead 0) })
        ≡ codes "a.tac:2:1: dead: the value assigned to x is never used\n" }
    ensures labelled { told_at labelled_text (program_of labelled_text) 0 ≡ record { line = 2; place = 14 } }
    ensures column { column_at labelled_text 14 ≡ 5 }
    ensures at_end { stands_at labelled_text (program_of labelled_text) 1 ≡ record { line = 3; place = 20 } }
    ensures empty { told_at empty_text (program_of empty_text) 1 ≡ record { line = 4; place = 17 } }
    ensures indented { column_at empty_text 17 ≡ 3 }
{}

/// What is said of dead assignments that are left out, and of how many remarks there are.
pub fn count_examples()
    ensures one_left_out { untold_words 1 ≡ codes "1 dead assignment is not told" }
    ensures some_left_out { untold_words 12 ≡ codes "12 dead assignments are not told" }
    ensures endless { endless_words early_text may_loop (Some 3) ≡ codes " (from line 5 on)" }
    ensures none { count_line (codes "a.tac") 0 ≡ codes "a.tac: no remarks\n" }
    ensures one { count_line (codes "a.tac") 1 ≡ codes "a.tac: 1 remark\n" }
    ensures more { count_line (codes "a.tac") 20 ≡ codes "a.tac: 20 remarks\n" }
{}
