//! Worked programs and what is told of them, over facts that are written out by hand, each checked by computing it.

ghost use Rattle.std.specs.Prelude.{◌≡◌, Some, [], ◌∷◌};
ghost use Rattle.flow_graph.specs.Points.{point_count};
ghost use Rattle.flow_lints.specs.Examples.{known_of_early, known_of_loop, known_of_uncalled, may_loop, returns_early, uncalled_endless};
ghost use Rattle.flow_lints.specs.Lints.{IsFirstOf, is_endless, left_out_of, lints_of};
ghost use Rattle.flow_lints.specs.declared.lint.Lint.TheVariants.{NeverCalled, Told};
ghost use Rattle.flow_reports.specs.Listed.{remarks_of};
ghost use Rattle.flow_reports.specs.declared.remark.Remark.TheVariants.{Dead, NeverReached};

/// A procedure that nobody calls is told once, and takes no dead assignment away; the report tells each statement of it and not the assignment.
pub fn uncalled_examples()
    ensures lints { lints_of uncalled_endless known_of_uncalled
        ≡ record { point = 0; lint = Told (Dead 0) } ∷ record { point = 5; lint = NeverCalled 2 } ∷ [] }
    ensures remarks { remarks_of uncalled_endless known_of_uncalled.report
        ≡ record { point = 5; remark = NeverReached } ∷ record { point = 6; remark = NeverReached } ∷ [] }
    ensures none_left_out { left_out_of uncalled_endless known_of_uncalled ≡ 0 }
{}

/// Of statements in a row that are never reached the first is told.
pub fn stretch_examples()
    ensures lints { lints_of returns_early known_of_early
        ≡ record { point = 0; lint = Told (Dead 0) } ∷ record { point = 2; lint = Told NeverReached } ∷ [] }
{}

/// A loop that is reached takes the dead assignment before it away: it is counted, and the first point of the loop named.
pub fn loop_examples()
    ensures lints { lints_of may_loop known_of_loop ≡ [] }
    ensures one_left_out { left_out_of may_loop known_of_loop ≡ 1 }
    ensures endless { IsFirstOf (is_endless known_of_loop) (point_count may_loop) (Some 3) }
{}
