//! Worked lines, each checked by computing it.

ghost use Rattle.std.specs.Prelude.{◌≡◌, codes, Some, None};
ghost use Rattle.flow_lints.specs.Examples.{known_of_early, known_of_uncalled, may_loop, returns_early, uncalled_endless};
ghost use Rattle.flow_lints.specs.Lints.{is_reached};
ghost use Rattle.flow_lints.specs.declared.lint.Lint.TheVariants.{NeverCalled, Told};
ghost use Rattle.flow_reports.specs.declared.remark.Remark.TheVariants.{Dead, NeverReached};
ghost use Rattle.lint_json.specs.Examples.{dead_line, semicolon, semicolon_line, stretch_line, uncalled_line, unknown, unknown_line};
ghost use Rattle.lint_json.specs.LintJson.{end_line, file_line, from_line, remark_line};
ghost use Rattle.lint_json.specs.RefusalJson.{error_line, errors_line};
ghost use Rattle.lint_styles.specs.Styles.{shown};
ghost use Rattle.lint_texts.specs.Examples.{early_text, uncalled_text};

/// A procedure that is never called, statements that are never reached and a value that is never used.
pub fn remark_examples()
    ensures uncalled { remark_line (codes "a.tac") uncalled_text uncalled_endless (is_reached known_of_uncalled)
        (record { point = 5; lint = NeverCalled 2 }) ≡ uncalled_line }
    ensures stretch { remark_line (codes "a.tac") early_text returns_early (is_reached known_of_early)
        (record { point = 2; lint = Told NeverReached }) ≡ stretch_line }
    ensures dead { remark_line (codes "a.tac") early_text returns_early (is_reached known_of_early)
        (record { point = 0; lint = Told (Dead 0) }) ≡ dead_line }
{}

/// The first and the last line, and from where on a program may never end. Of a name each byte that is no printed sign is shown, and a quote
/// and a backslash have a backslash before them.
pub fn end_examples()
    ensures file { file_line (shown (codes "a\"b\n")) ≡ codes "{\"type\":\"file\",\"file\":\"a\\\"b\\\\x0a\",\"version\":1}\n" }
    ensures remarks { end_line (codes "a.tac") 12 ≡ codes "{\"type\":\"end\",\"file\":\"a.tac\",\"remarks\":12}\n" }
    ensures errors { errors_line (codes "a.tac") 2 ≡ codes "{\"type\":\"end\",\"file\":\"a.tac\",\"errors\":2,\"first\":false}\n" }
    ensures all { errors_line (codes "a.tac") 20 ≡ codes "{\"type\":\"end\",\"file\":\"a.tac\",\"errors\":20,\"first\":false}\n" }
    ensures first { errors_line (codes "a.tac") 21 ≡ codes "{\"type\":\"end\",\"file\":\"a.tac\",\"errors\":20,\"first\":true}\n" }
    ensures nowhere { from_line early_text may_loop None ≡ codes "null" }
    ensures somewhere { from_line early_text may_loop (Some 3) ≡ codes "5" }
{}

/// An error with what is told on its mend, and one of which nothing is told.
pub fn error_examples()
    ensures noted { error_line (codes "a.tac") (codes "proc main\nx = y;\nend\n") semicolon ≡ semicolon_line }
    ensures bare { error_line (codes "a.tac") (codes "proc main\n\nif 1 goto L\nend\n") unknown ≡ unknown_line }
{}
