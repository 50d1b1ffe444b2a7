use crate::questions::{Question, Row, check_rows};
use std::test::Fail;
use test_support::worked_programs::{
    both_branches, call_between, callee_loops, no_end, not_called, recursion, two_callees,
};

/// An assignment that is overwritten on one branch, and whose variable is not written again on the other. The points are the lines of
/// `main` from 0 on.
const BRANCHES: &str =
    "proc main\nx = 1\nread c\nif c goto L\nx = 2\nprint x\nreturn\nL: skip\nx = 3\nx = 4\nend\n";

/// A loop, in which an assignment comes round to itself.
const ROUND: &str = "proc main\nL: x = 1\nread c\nif c goto L\nend\n";

/// An expression that is computed on both branches, and once more behind them; one evaluation writes an operand.
const TWICE: &str =
    "proc main\nif c goto L\nx = a + b\ngoto M\nL: y = a + b\nM: z = a + b\na = a + b\nz = a + b\nend\n";

/// An endless loop on one side.
const ENDLESS: &str = "proc main\nx = 1\nif c goto L\nx = 2\nreturn\nL: x = 3\nM: goto M\nend\n";

/// An expression that is assigned twice.
const ANEW: &str = "proc main\nt1 = a + b\nt3 = a + b\nread t1\nprint t3\nend\n";

/// A call of either of two, of which one assigns the expression once more.
const EITHER: &str =
    "proc main\nx = a + b\ncall p | q\nprint x\nend\nproc p\nskip\nend\nproc q\ny = a + b\nend\n";

/// Two lines that a jump passes over.
const PASSED_OVER: &str = "proc main\ngoto L\nx = 1\ny = 2\nL: print x\nend\n";

/// A procedure that nothing calls, and that calls another.
const CALLS_UNCALLED: &str = "proc main\ncall p\nend\nproc p\nskip\nend\nproc q\ncall p\nend\n";

/// By hand: variables and expressions are numbered as they come first in the text.
const ROWS: &[Row] = &[
    (BRANCHES, Question::NextWrites(0, 0), "3;7;"),
    (BRANCHES, Question::NextWrites(0, 3), "end"),
    (BRANCHES, Question::NextWrites(0, 7), "8;"),
    (BRANCHES, Question::NextWrites(0, 8), "end"),
    (ROUND, Question::NextWrites(0, 0), "0;end"),
    (TWICE, Question::LastEvaluations(0, 0), ""),
    (TWICE, Question::LastEvaluations(0, 4), "1;3;"),
    (TWICE, Question::LastEvaluations(0, 5), "4;"),
    (TWICE, Question::LastEvaluations(0, 6), ""),
    (TWICE, Question::NextEvaluations(0, 0), "1;3;"),
    (TWICE, Question::NextEvaluations(0, 5), "5;"),
    (TWICE, Question::NextEvaluations(0, 6), "6;"),
    (TWICE, Question::NextEvaluations(0, 7), ""),
    // The way into the endless loop does not count: it never comes to the end.
    (ENDLESS, Question::NextWrites(0, 0), "2;"),
    // Through a call that calls itself, and through either of two.
    (recursion::TEXT, Question::NextWrites(0, 0), "6;end"),
    (recursion::TEXT, Question::NextWrites(0, 6), "6;end"),
    (two_callees::TEXT, Question::NextWrites(0, 0), "4;end"),
    (call_between::TEXT, Question::LastEvaluations(0, 2), "0;"),
    (call_between::TEXT, Question::NextEvaluations(0, 1), "2;"),
    (both_branches::TEXT, Question::NextEvaluations(0, 0), ""),
    (both_branches::TEXT, Question::NextEvaluations(0, 2), "3;6;"),
    (no_end::TEXT, Question::NextWrites(0, 0), "end"),
    // Variables in the order of the text: c, x, a, b, y, z. Behind both branches neither x nor y holds it on every path, and behind
    // point 4 z does, until a is written.
    (TWICE, Question::Holders(0, 1), ""),
    (TWICE, Question::Holders(0, 2), "1;"),
    (TWICE, Question::Holders(0, 4), ""),
    (TWICE, Question::Holders(0, 5), "5;"),
    (TWICE, Question::Holders(0, 6), ""),
    (TWICE, Question::Holders(0, 7), "5;"),
    // t1, a, b, t3: t1 holds it until it is read anew.
    (ANEW, Question::Holders(0, 0), ""),
    (ANEW, Question::Holders(0, 1), "0;"),
    (ANEW, Question::Holders(0, 2), "0;3;"),
    (ANEW, Question::Holders(0, 3), "3;"),
    // x, a, b, y: only one of the two callees assigns it to y.
    (EITHER, Question::Holders(0, 2), "0;"),
    (EITHER, Question::Holders(0, 4), "0;"),
    (EITHER, Question::Holders(0, 7), "0;3;"),
    // The callee may write b; no path leads behind a callee that never returns.
    (call_between::TEXT, Question::Holders(0, 1), "0;"),
    (call_between::TEXT, Question::Holders(0, 2), ""),
    (call_between::TEXT, Question::Holders(0, 5), "0;"),
    (call_between::TEXT, Question::Holders(0, 6), ""),
    (callee_loops::TEXT, Question::Holders(0, 2), ""),
    // The two lines, what is behind them, and a line that nothing stands before.
    (PASSED_OVER, Question::LastReached(1), "0"),
    (PASSED_OVER, Question::LastReached(2), "0"),
    (PASSED_OVER, Question::LastReached(3), "0"),
    (PASSED_OVER, Question::LastReached(4), "3"),
    (PASSED_OVER, Question::LastReached(0), "none"),
    // The call does not come back, and the callee goes round. Points of other procedures do not count.
    (callee_loops::TEXT, Question::LastReached(1), "0"),
    (callee_loops::TEXT, Question::LastReached(2), "0"),
    (callee_loops::TEXT, Question::LastReached(3), "none"),
    (callee_loops::TEXT, Question::LastReached(4), "3"),
    (not_called::TEXT, Question::LastReached(3), "none"),
    // The loop never ends, and the other branch does.
    (no_end::TEXT, Question::DoubtOrigin(0), "3"),
    (no_end::TEXT, Question::DoubtOrigin(2), "none"),
    (no_end::TEXT, Question::DoubtOrigin(4), "4"),
    (no_end::TEXT, Question::DoubtOrigin(5), "none"),
    (ENDLESS, Question::DoubtOrigin(0), "4"),
    // Nothing leads from the call to the end, but from behind it something does.
    (callee_loops::TEXT, Question::DoubtOrigin(0), "0"),
    (callee_loops::TEXT, Question::DoubtOrigin(1), "none"),
    (callee_loops::TEXT, Question::DoubtOrigin(4), "none"),
    // p returns to q too, which nothing calls: its end leads nowhere.
    (CALLS_UNCALLED, Question::DoubtOrigin(0), "5"),
    (CALLS_UNCALLED, Question::DoubtOrigin(1), "none"),
    (CALLS_UNCALLED, Question::DoubtOrigin(2), "5"),
    (CALLS_UNCALLED, Question::DoubtOrigin(4), "4"),
    (recursion::TEXT, Question::DoubtOrigin(0), "none"),
];

#[test]
fn reasons_by_hand(rt: HostRuntime) -> Result<(), Fail> {
    check_rows(&rt, ROWS)
}
